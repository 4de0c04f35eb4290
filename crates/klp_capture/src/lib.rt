//! The log of a real kernel's transition, as `klpcap` recorded it.
//!
//! [`Capture::read`] reads a log (docs/CAPTURE.md), and reports its first faulty line. Samples share the lists of
//! patches, tasks, and the functions that tasks are inside of. So an hour of samples in which nothing changes takes
//! little memory. The crates that use this one interpret a log.
#![tactic(auto)]

mod capture;
mod fault;
mod line;
mod shown;
mod text;
mod thread;
mod time;

pub use capture::{Capture, LogLine, PatchRow, Sample, SeenTask, Span};
pub use fault::{CaptureFault, CaptureFaultKind};
pub use line::{
    Activity, Clock, FrameLine, Line, NewerFiles, PatchLine, PatchedState, ProcessLine, SampleLine,
    SymbolLine, TaskLine, form_of,
};
pub use shown::patch_in;
pub use text::Text;
pub use thread::{PatchName, Thread};
pub use time::{BootTime, Elapsed};
