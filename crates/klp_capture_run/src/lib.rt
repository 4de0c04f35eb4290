//! A run of the rules that shows what a log of a real kernel shows.
//!
//! [`explain`] makes a catalog of what a log names, and looks for a run of the rules that shows each sample
//! (`klp_capture_search`). `klp_program::watch_over_text` checks the trace that the search finds against the rules, like
//! any other trace. By a clause of [`explain`], the trace has the task states and patch files of the log's samples. No
//! clause compares the functions that tasks sleep in. Nothing is claimed of what happened between two samples.
#![tactic(auto)]

mod explained;
mod holders;
mod sleeps;

pub use explained::{Explained, explain};
pub use holders::{Holder, Lags};
pub use sleeps::HoldingSleep;
