//! Who holds a transition up by an answer, and who held it up before.
//!
//! An answer that leaves a holder out calms wrongly. So [`holders_of`] takes those who hold a transition up still from the
//! replay of the run alone ([`klp_capture_run::Explained::holders`]). Samples only say since when.
#![tactic(auto)]

mod entries;
mod holders;

pub use entries::{function_name, task_of, text_of};
pub use holders::holders_of;
