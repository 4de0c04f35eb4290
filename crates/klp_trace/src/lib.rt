//! Traces: what was seen of a kernel, as text with one item on each line.
//!
//! [`Trace::read`] reads a text, with names from a manager's catalog. There are four kinds of items (`specs/Items`). An
//! event is spelled as a console line asks for it, with or without the kernel's answer. A call and a return are what a
//! task did. A sight is what the kernel showed at that place of the trace. An answer is spelled byte by byte as the
//! console writes it (`specs/Answers`). A line may begin with its time, and no time is before the time of an earlier
//! line (`specs/Traces`). The first line that has no item or is out of order is reported.
//!
//! [`LineParts`] are the parts of a line, for messages to people. `examples` has lines of each kind, and refused ones.
//! `laws` has the laws about answers.
#![tactic(auto)]

mod answer;
mod entry;
pub mod examples;
mod fault;
mod item;
pub mod laws;
mod line;
mod names;
mod sight;
mod time;
mod trace;

pub use entry::{Entry, Timed};
pub use fault::{TraceFault, TraceFaultKind};
pub use line::LineParts;
pub use time::Microseconds;
pub use trace::Trace;
