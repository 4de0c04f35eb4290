//! What the console, the watch of traces and the lint promise, restated for the gate.
//!
//! Each function passes its arguments to the call of that name, and has that call's contract. So if a clause of the
//! call is weakened, the proof here fails. The wrong bodies in `must-fail/` are tried here and not in the crates below,
//! since a proof of this crate takes seconds (docs/GATE.md, "How an edit gets in and out").
#![tactic(auto)]

mod console;
mod lint;
mod traces;

pub use console::{answer_line, serve};
pub use lint::{holds_everywhere, leaves_no_trace, reply_behind, value_behind};
pub use traces::{compare_whole, read, watch};
