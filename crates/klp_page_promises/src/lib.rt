//! What the timeline, the markup and the sentences of a page promise, restated for the gate.
//!
//! Each function passes its arguments to the call of that name, and has that call's contract. So if a clause of the
//! call is weakened, the proof here fails. The wrong bodies in `must-fail/` are tried here and not in the crates below,
//! since a proof of this crate takes seconds (docs/GATE.md, "How an edit gets in and out").
#![tactic(auto)]

pub mod laws;
mod words;

pub use words::{add_end, add_line_time, add_story, add_task, add_words};
