//! Bodies of task threads. A body is a list of steps that one task does on a start. Several threads share the start.
//!
//! A [`TaskBody`] does its steps one after the other, each step when its [`Gate`] lets the task in. It reports the
//! outcome of each step (`specs/Steps`, `specs/Running`). [`run_two`] runs two [`Job`]s at once. docs/THREADS.md
//! explains the whole crate.
#![tactic(auto)]

mod body;
mod fault;
mod gate;
mod job;
pub mod laws;
mod run;
mod step;
mod two;

pub use body::TaskBody;
pub use fault::{BodyCause, BodyFault};
pub use gate::Gate;
pub use job::Job;
pub use step::{Accepted, Outcome, Step, What};
pub use two::run_two;
