//! What `klplint` writes: the findings about a catalog's patches (`klp_lint_findings`) in words or as JSON.
//!
//! [`lint_over_text`] reads a catalog, has its patches judged, and writes the list. Words are in `words.rt` and the
//! modules that it names, JSON is in `json.rt`, and `writing.rt` writes the list.
#![tactic(auto)]

mod alone_words;
mod count_words;
mod json;
mod lint;
mod load_words;
mod mark_words;
mod shown;
mod words;
mod writing;

pub use klp_lint_findings::{LintInput, NamedText};
pub use klp_lint_worlds::LintFault;
pub use lint::{lint_over_text, print_mark_fault};
pub use writing::Form;
