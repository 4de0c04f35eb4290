//! The table of tasks, sets of versions, and the switching of tasks to the target of the transition (livepatch,
//! Consistency model).
//!
//! The model of [`Tasks`] is the table of the definitions: for each number a task, or none. Each change concerns one
//! row. Putting back the row's undo record restores the row (`specs/Changes`). `switch_if_clear` switches a sleeper to
//! the target unless one of its frames is in the given set of blocked versions. `try_all` does this for each task, and
//! `set_all` gives all tasks the same patch state. These three functions log exactly the rows that change.
//!
//! A [`VersionSet`] has exactly the versions that were inserted (`specs/Members`). The time of a look-up doesn't depend
//! on the number of versions. `laws` says that changing a row is the model's step, that few rows are logged, that a
//! switch logs only rows that it changes, and that for every set there is a list of its versions.
#![tactic(auto)]

pub mod laws;
mod numbers;
mod tasks;
mod version_set;

pub use tasks::{Tasks, target_state};
pub use version_set::VersionSet;
