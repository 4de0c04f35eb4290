//! Facts that an observer knows of a run in addition to its lines: the names of its tasks, and the times of its lines.
//!
//! [`Names::read`] reads these facts from a text with a line for each name and each time (`specs/Text`), or returns the
//! first faulty line. [`Names::name`] looks a name up by its task. [`Names::time`] looks a time up by its line. Times
//! rise with their lines, so the time is found by a binary search (`specs/Names`). [`Misread`] is the message for
//! people: it says which word of a faulty line is wrong, and what is wanted instead.
#![tactic(auto)]

mod fault;
mod misread;
mod named;
mod names;
mod text;
mod timed;

pub use fault::{NamesFault, NamesFaultKind};
pub use misread::Misread;
pub use names::Names;
pub use text::MAX_TASK_NAME;
