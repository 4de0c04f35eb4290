//! What the book of threads and the bodies of task threads promise, restated for the gate.
//!
//! Each function passes its arguments to the call of that name, and has that call's contract. So if a clause of the
//! call is weakened, the proof here fails. The wrong bodies in `must-fail/` are tried here and not in the crates below,
//! since a proof of this crate takes seconds (docs/GATE.md, "How an edit gets in and out").
//!
//! `book` restates `klp_live`, and `bodies` restates `klp_live_bodies`.
#![tactic(auto)]

pub mod bodies;
pub mod book;
