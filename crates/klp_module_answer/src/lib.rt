//! What the tables of modules say, in words or for programs: each patch by itself, and each pair of them.
//!
//! [`read_livepatch`] reads a livepatch's file, and [`read_target`] that of a module which livepatches change, or says in a
//! line what is wrong with it. [`list`] writes what a patch is by its tables, and [`compare`] what becomes of each patch
//! when each other one is loaded over it. Names are shown unchanged, except for bytes that would control a terminal.
//!
//! Nothing here has a contract but that it ends. What is written of a pair is a [`klp_module_matrix::Judgement`].
#![tactic(auto)]

mod faults;
mod json;
mod listing;
mod livepatch;
mod modinfo;
mod pairs;
mod spelled;

pub use listing::list;
pub use livepatch::{LayoutSource, Livepatch, TargetModule, read_livepatch, read_target};
pub use pairs::compare;

/// The form of an answer: lines of words, or objects of JSON, each in a line.
#[derive(Clone, Copy, PartialEq, Eq)]
pub enum Form {
    Words,
    Json,
}
