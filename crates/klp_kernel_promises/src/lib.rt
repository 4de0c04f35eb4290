//! What the crates of the kernel, the world and the catalog promise, restated for the gate.
//!
//! Each function passes its arguments to the call of that name, and has that call's contract. So if a clause of the
//! call is weakened, the proof here fails. The wrong bodies in `must-fail/` are tried here and not in the crates below,
//! since a proof of this crate takes seconds (docs/GATE.md, "How an edit gets in and out").
//!
//! `text` restates the image and the function stacks of its sites, `journal` the undo records, `tasks` the tasks, and
//! `catalog` the patches with their callbacks.
#![tactic(auto)]

pub mod catalog;
pub mod journal;
pub mod tasks;
pub mod text;
