//! The search for a run of the rules that shows what a log of a real kernel shows.
//!
//! [`Run::explore`] leads a run from sample to sample. The search is sure of a task that hasn't run between two samples,
//! and free with the others: they leave the kernel where they must be switched. Between two samples, whole transitions
//! may have passed. The search tries items on a manager, so each event is one that the rules allow.
//! Nothing is claimed of what it finds: `klp_capture_run` checks the whole trace against the rules and the log.
#![tactic(auto)]

mod attempt;
mod fits;
mod followed;
mod item_line;
mod items;
mod moves;
mod run;
mod settle;
mod step;
mod threads;

pub use followed::{Followed, UnplacedSleep};
pub use run::{Run, ShownSample};
pub use threads::OTHERS;
