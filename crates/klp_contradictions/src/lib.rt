//! Samples of a log that no run of the rules shows, whatever happened between the samples.
//!
//! A sample fixes which patches are enabled or in transition, and of each task its `patch_state` and, if it slept, the
//! functions that it slept in. By the rules, a task has a `patch_state` other than -1 only during a transition, and is
//! only ever inside of the version of a function that it would call now (docs/CONSISTENCY.md). So a sample that says
//! otherwise contradicts them. Two samples may contradict each other, too: a task that hasn't run between them is where
//! it was. A force breaks the rules, so no sample after a force counts.
//!
//! [`impossible`] has what the laws of the consistency model exclude, as contracts: no honest run shows such a task at
//! any moment. [`contradiction_in`] looks at each sample of a log, and returns the first contradiction. It relies on
//! nothing that the log doesn't show: if the log's symbols don't say which function a frame is in, the frame doesn't
//! count. [`verdict_of`] is what is said of the whole log.
#![tactic(auto)]

mod contradiction;
pub mod impossible;
mod places;
mod scan;
mod tasks;
mod verdict;

pub use contradiction::{Contradicted, Contradiction, NamedThread};
pub use scan::contradiction_in;
pub use verdict::{LogVerdict, verdict_of};
