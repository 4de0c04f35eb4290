//! Runs two task threads over a catalog. The steps of both tasks are in one text (`src/step_lines.rt`).
#![tactic(auto)]

mod fault;
mod race;
mod running;
mod step_lines;

pub use fault::{LiveFault, ReadFault, StepsFault, StepsFaultKind};
pub use running::live;
pub use step_lines::{MAX_STEPS, Steps, steps_of};
