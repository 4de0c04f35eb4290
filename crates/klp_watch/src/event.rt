//! The events of a trace. Each event is done. If it breaks a premise, it is taken back.
ghost use Rattle.std.specs.Prelude.{◌≡◌, IfOk, IfErr, IfSome, IfNone};
ghost use Rattle.klp_model.specs.declared.seen.Seen.TheVariants.{Event as Happens};
ghost use Rattle.klp_model.specs.Observed.{Stacks, begun, IsHonestEvent};
ghost use Rattle.klp_manager_state.specs.Managed.{setting_of};
ghost use Rattle.klp_core.specs.Journaled.{IsWellFormed};
ghost use Rattle.klp_watch.specs.Inside.{AreInside};
ghost use Rattle.klp_watch.specs.Refused.{refusal_of};
ghost use Rattle.klp_watch.specs.Watching.{IsAgainst, IsDone, IsReported};

use crate::cause::Cause;
use crate::inside::Inside;
use klp_core::Manager;
use klp_model::{Event, Refusal};
use klp_types::Frames;

/// Returns the premise that an accepted event breaks, judged by the versions that the tasks are inside of. Returns
/// `None` if the event breaks no premise.
pub(crate) fn against(manager: &Manager, inside: &Inside, event: &Event) -> Option<Cause>
    ensures found { IfSome result (λ cause. (stacks : Stacks) → AreInside inside.now.rows stacks
        → IsAgainst (setting_of manager.now.managed) stacks event.now cause) }
    ensures none { IfNone result ((stacks : Stacks) → AreInside inside.now.rows stacks
        → IsHonestEvent (setting_of manager.now.managed) stacks event.now) }
{
    match event {
        Event::Sleep(task, frames) if inside.frames(*task) != *frames => Some(Cause::Frames),
        Event::ExitToUser(task) | Event::EndTask(task) if inside.frames(*task).len() > 0 => {
            Some(Cause::FramesLeft)
        }
        Event::Going(object) if inside.is_entered(manager, *object) => Some(Cause::ModuleInUse),
        Event::Force(_) => Some(Cause::Forced),
        _ => None,
    }
}

/// If an event makes a task, stores that the task is inside of no function, whatever an earlier task with its number
/// was inside of. Does nothing for other events.
pub(crate) fn begin(inside: &mut Inside, event: &Event)
    ensures { (stacks : Stacks) → AreInside inside.old.rows stacks
        → AreInside inside.new.rows (begun event.now stacks) }
{
    match event {
        Event::NewTask(task) | Event::Fork(_, task) => inside.put(*task, Frames::new()),
        _ => {}
    }
}

/// Does an event of a trace on the manager. If the manager refuses the event, returns the refusal as `Ok`, since a
/// refusal is no fault. If the event breaks a premise, takes it back by its own records, so that no later item sees its
/// effect, and returns the premise as `Err`. Only of a well-formed manager it is known that these records lead back to
/// the state before.
pub(crate) fn happen(
    manager: &mut Manager,
    inside: &mut Inside,
    event: &Event,
) -> Result<Option<Refusal>, Cause>
    requires { IsWellFormed manager.old }
    ensures done { IfOk result (λ _. (stacks : Stacks) → AreInside inside.old.rows stacks
        → IsDone manager.old manager.new stacks (Happens event.now) inside.new.rows) }
    ensures reported { IfErr result (λ cause. (stacks : Stacks) → AreInside inside.old.rows stacks
        → IsReported manager.old manager.new stacks (Happens event.now) cause) }
    ensures refused { IfOk result (λ refused. refused
        ≡ refusal_of (setting_of manager.old.managed) manager.old.managed.state manager.old.groups
        (Happens event.now)) }
    ensures setting { setting_of manager.new.managed ≡ setting_of manager.old.managed }
    ensures well_formed { IsWellFormed manager.new }
{
    let mark = manager.mark();
    if let Err(refusal) = manager.apply_without_reply(event) {
        return Ok(Some(refusal));
    }
    if let Some(cause) = against(manager, inside, event) {
        // Rewinding can't fail, since the journal has one group more than at the mark.
        let _ = manager.rewind(mark);
        return Err(cause);
    }
    begin(inside, event);
    Ok(None)
}
