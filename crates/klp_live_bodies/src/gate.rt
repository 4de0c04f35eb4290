//! Gates, which decide when a task may do a step.
use klp_types::TaskId;

/// Decides when a task may do its next step. Before each step, the gate is asked until it lets the task in. Steps are
/// counted from 0.
pub trait Gate {
    ghost use Rattle.std.specs.Prelude.{ℕ, Bool};

    /// The answers that the gate may give to a task before a step. If this isn't defined, the gate may give any answer.
    ghost answers: { Self → ℕ → ℕ → Bool → Type 0 } = { λ _ _ _ _. Unit {0} };

    /// Whether the task may do this step now.
    fn before(&self, task: TaskId, step: u32) -> bool
        ensures { answers self.now task step result };
}
