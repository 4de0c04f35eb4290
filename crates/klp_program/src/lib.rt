//! The parts of the programs that don't need the process. They read arguments and the catalog's file, and use a manager
//! that `klp_boot` boots with the catalog's text. In `klpsim`, this manager serves the console (`src/serve.rt`).
//! `klpwatch` checks a trace against the consistency model, and compares with the rules what a kernel answered and
//! showed (`src/watch.rt`).
#![tactic(auto)]

mod arguments;
mod file;
mod sample;
mod serve;
mod verdict;
mod wanted;
mod watch;

pub use arguments::{
    parse_arguments, program_arguments, report_fault, report_fault_as, report_usage,
};
pub use file::{bytes_in, bytes_in_both, catalog_in};
pub use sample::CATALOG;
pub use serve::{console, over_text};
pub use verdict::{Counts, Verdict};
pub use wanted::Wanted;
pub use watch::{status_of, verdict_of, watch_over_text, watch_trace};
