//! Finds what the rules have at a line of a trace where the kernel differs from them, and why.
ghost use Rattle.klp_core.specs.Journaled.{IsWellFormed};

use crate::named::NamedSight;
use crate::rules::{AnswerReason, LaggingTasks, RulesHave, moving_name};
use klp_console::answer_text;
use klp_core::Manager;
use klp_model::{Event, Refusal, Reply};
use klp_trace::Trace;
use klp_watch::Observed;
use std::alloc::{AllocError, Global};

/// Both sides at a line of a trace where a kernel differs from the rules.
#[derive(Drop)]
pub struct Sides {
    /// What the kernel showed. `None` if it answered an event.
    pub kernel: Option<NamedSight>,
    pub rules: RulesHave,
}

/// Returns why the rules give this answer to an event. `manager` is in the state after the event.
fn reason_of(
    alloc: Global,
    manager: &Manager,
    answer: &Result<Reply, Refusal>,
) -> Result<AnswerReason, AllocError> {
    Ok(match answer {
        Ok(Reply::Pending(_)) => AnswerReason::Lag(LaggingTasks::of(alloc, manager)?),
        Ok(Reply::Completed(_)) => AnswerReason::AllSwitched,
        Err(Refusal::Busy) => match moving_name(alloc, manager)? {
            Some(patch) => AnswerReason::InTransition(patch),
            None => AnswerReason::Itself,
        },
        _ => AnswerReason::Itself,
    })
}

/// Does an event on the manager, and returns the answer that the rules give to it, and why. Returns `Err` if memory
/// runs out.
fn rules_answer(
    alloc: Global,
    manager: &mut Manager,
    event: &Event,
) -> Result<RulesHave, AllocError>
    requires { IsWellFormed manager.old }
{
    manager.make_room();
    let answer = manager.apply_lent(event);
    Ok(RulesHave::Answer {
        text: answer_text(alloc, manager, &answer)?,
        reason: reason_of(alloc, manager, &answer)?,
    })
}

/// Returns what the kernel and the rules have at the first of these items. The manager must have done all earlier
/// items. If the item has neither an answer nor a sight, the rules can't differ from it, and the result is `None`.
/// Returns `Err` if memory runs out.
fn sides_of(
    alloc: Global,
    manager: &mut Manager,
    items: &[Observed],
) -> Result<Option<Sides>, AllocError>
    requires { IsWellFormed manager.old }
{
    match items.first() {
        Some(Observed::Answered(event, _)) => Ok(Some(Sides {
            kernel: None,
            rules: rules_answer(alloc, manager, event)?,
        })),
        Some(Observed::Saw(sight)) => Ok(Some(Sides {
            kernel: Some(NamedSight::of(alloc, manager, sight)?),
            rules: RulesHave::in_place_of(alloc, manager, sight)?,
        })),
        _ => Ok(None),
    }
}

/// Returns what the kernel and the rules have at a line of a trace. The manager must have done all earlier lines.
/// Returns `None` if the rules can't differ from this line, if the line has no item, or if memory runs out.
pub(crate) fn sides_at(alloc: Global, manager: &mut Manager, line: &[u8]) -> Option<Sides>
    requires { IsWellFormed manager.old }
{
    match Trace::read(alloc, line, manager) {
        Ok(trace) => sides_of(alloc, manager, &trace.items).unwrap_or(None),
        Err(_) => None,
    }
}
