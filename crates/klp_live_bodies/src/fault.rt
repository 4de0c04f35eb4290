//! The reason why a body stopped before its last step.
use crossbeam_utils::rule::Protocol;
use klp_live::{Published, Start, TaskPass, View};

/// Why a body has stopped.
#[derive(Clone, Copy, Debug)]
pub enum BodyCause {
    /// Before a step, the gate was asked 1,000,000 times, and never let the task in.
    Held,
    /// There was no memory for the outcomes of all steps, or no memory to admit an event. An event that wasn't admitted
    /// changed nothing.
    NoMemory,
}

/// The error that a body stopped before a step. It has the pass as it was at that time, and the reason.
#[derive(Drop)]
pub struct BodyFault<S: Start + Protocol<Published, View>> {
    pub pass: TaskPass<S>,
    pub cause: BodyCause,
}
