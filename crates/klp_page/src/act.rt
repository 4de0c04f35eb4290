//! The effects of a line that views don't show.
ghost use Rattle.std.specs.Prelude.{◌≡◌};
ghost use Rattle.klp_page.specs.Views.{fact_of, act_of};

use klp_console::LineOutcome;
use klp_model::{Event, Reply};
use klp_timeline::Fact;
use klp_types::Transition;

/// Returns what an accepted event did, if views don't show it: a pre-patch callback failed, the transition was forced,
/// or a module was loaded or unloaded. Returns `None` for any other event. `moving` is the transition before the event.
fn fact_of(moving: &Option<Transition>, event: &Event, reply: &Reply) -> Option<Fact>
    ensures { result ≡ fact_of moving.now event.now reply.now }
{
    match (event, reply) {
        (_, Reply::PreFailed(patch, object, status)) => {
            Some(Fact::PreFailed(*patch, *object, *status))
        }
        (Event::Force(_), _) => match moving {
            Some(moving) => Some(Fact::Forces(*moving)),
            None => None,
        },
        (Event::Coming(object), _) => Some(Fact::Comes(*object)),
        (Event::Going(object), _) => Some(Fact::Goes(*object)),
        _ => None,
    }
}

/// Returns what a line with this outcome did, if views don't show it: what [`fact_of`] returns, or that events were
/// undone. Returns `None` for any other line. `moving` is the transition before the line. The journal had `from` events
/// before the line, and has `to` events after it.
pub fn act_of(
    moving: &Option<Transition>,
    outcome: &LineOutcome,
    from: u32,
    to: u32,
) -> Option<Fact>
    ensures { result ≡ act_of moving.now outcome.now from to }
{
    match outcome {
        LineOutcome::Answered(event, Ok(reply)) => fact_of(moving, event, reply),
        // A rewind to the present mark undoes nothing.
        LineOutcome::Rewound(_) if from != to => Some(Fact::Undoes(from, to)),
        _ => None,
    }
}
