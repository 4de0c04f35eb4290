//! A page of a trace: what a kernel did and showed, and beside it what the rules say.
//!
//! [`page_over_trace`] boots a manager with a catalog's text. It returns a page with a row for each line of the trace,
//! in order (`specs/Traced`). The manager follows the rules: it does each event of the trace, even if the kernel
//! answered otherwise. A row has the line, and what the rules say about the line. If the trace has what the kernel
//! answered or showed, the row also has the kernel's answer or sight. The row is marked exactly if the kernel differs
//! from the rules at this line. After a marked row, the page continues as usual. The page's head says how many marked
//! rows there are, and which is the first. Everything else is as on the page of a script (`klp_page`).
//!
//! Lines have the times that the trace gives them. This crate doesn't check whether the trace keeps the premises of the
//! consistency model. `klp_watch` checks the premises.
#![tactic(auto)]

mod differing;
mod line;
mod page;
mod record;
mod rules;
mod run_sentences;
mod times;

pub use page::{page_over_trace, write_trace_page};
pub use run_sentences::sentences_over_trace;
pub use times::timed_names;
