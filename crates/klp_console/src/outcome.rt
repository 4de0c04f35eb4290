//! The outcome of a line, for callers that need to know more than its answer.
ghost use Rattle.std.specs.Prelude.{◌≡◌};
ghost use Rattle.klp_console_commands.specs.Asked.{asked_with};
ghost use Rattle.klp_model.specs.declared.event.Event as events;
ghost use Rattle.klp_console.specs.Outcomes.{is_refusal, other_outcome};

use klp_console_commands::{Asked, LineFault};
use klp_model::{Event, Refusal, Reply};

/// The outcome of a line: what it did, or that it was refused.
#[derive(Clone, Copy)]
pub enum LineOutcome {
    /// The line asked for this event. The event was accepted with this reply, or refused for this reason.
    Answered(Event, Result<Reply, Refusal>),
    /// The line asked for no event, and was refused. It changed nothing.
    Refused,
    /// Events were undone, and the journal still has this many.
    Rewound(u32),
    /// The line was done, and asked for no event: it shows something, seals the journal, or has no words.
    Done,
}

impl LineOutcome {
    /// Whether the line was refused. Such a line is counted as refused.
    pub fn is_refusal(&self) -> bool
        ensures { result ≡ is_refusal self.now }
    {
        match self {
            LineOutcome::Answered(_, reply) => reply.is_err(),
            LineOutcome::Refused => true,
            LineOutcome::Rewound(_) | LineOutcome::Done => false,
        }
    }
}

/// Returns the outcome of a line that asks for no event.
pub(crate) fn other_outcome(
    asked: &Option<Result<Asked, LineFault>>,
    is_refused: bool,
) -> LineOutcome
    ensures { (event : events.Event) → result ≡ other_outcome (asked_with asked.now event) is_refused }
{
    if is_refused {
        return LineOutcome::Refused;
    }
    match *asked {
        Some(Ok(Asked::Rewind(mark))) => LineOutcome::Rewound(mark),
        _ => LineOutcome::Done,
    }
}
