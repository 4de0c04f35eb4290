//! Events with the answers that were observed.
ghost use Rattle.std.specs.Prelude.{◌≡◌, ◌↔◌, IsTrue, IfOk, IfErr, IfSome, IfNone};
ghost use Rattle.klp_model.specs.Observed.{Stacks, IsHonestEvent};
ghost use Rattle.klp_manager_state.specs.Managed.{setting_of};
ghost use Rattle.klp_core.specs.Journaled.{IsWellFormed};
ghost use Rattle.klp_watch.specs.declared.observed.Observed.TheVariants.{Answered};
ghost use Rattle.klp_watch.specs.Inside.{AreInside};
ghost use Rattle.klp_watch.specs.Compared.{IsDoneSo, IsFound, IsReportedFor};

use crate::difference::Difference;
use crate::event::{against, begin};
use crate::inside::Inside;
use klp_core::Manager;
use klp_model::{Event, Refusal, Reply};
use klp_types::{Frames, ShadowValue};

/// Does an event on the manager, and compares the kernel's `answer` with the manager's. Returns `Err` if the answers
/// differ or the event breaks a premise. Then the event changes nothing: if the manager accepted it, it is taken back
/// by its own records.
pub(crate) fn take_answered(
    manager: &mut Manager,
    inside: &mut Inside,
    event: &Event,
    answer: &Result<Reply, Refusal>,
) -> Result<(), Difference>
    requires { IsWellFormed manager.old }
    ensures done { IfOk result (λ _. (stacks : Stacks) → AreInside inside.old.rows stacks
        → IsDoneSo manager.old manager.new stacks (Answered event.now answer.now) inside.new.rows) }
    ensures reported { IfErr result (λ difference. (stacks : Stacks) → AreInside inside.old.rows stacks
        → IsReportedFor manager.old manager.new stacks (Answered event.now answer.now) difference) }
    ensures setting { setting_of manager.new.managed ≡ setting_of manager.old.managed }
    ensures well_formed { IsWellFormed manager.new }
{
    let mark = manager.mark();
    let own = manager.apply_lent(event);
    let is_so = is_same(&own, answer);
    // A refused event changes nothing, so it breaks no premise and needn't be taken back.
    if own.is_err() {
        return if is_so {
            Ok(())
        } else {
            Err(Difference::Answer)
        };
    }
    if let Some(difference) = difference(manager, inside, event, is_so) {
        // Rewinding can't fail, since the journal has one group more than at the mark.
        let _ = manager.rewind(mark);
        return Err(difference);
    }
    begin(inside, event);
    Ok(())
}

/// Returns how an event that the manager accepted differs from the rules. If the event breaks a premise, returns the
/// premise. Otherwise returns `Answer` if the kernel's answer isn't the manager's. Returns `None` if nothing differs.
/// `is_so` says whether the two answers are the same.
fn difference(manager: &Manager, inside: &Inside, event: &Event, is_so: bool) -> Option<Difference>
    ensures found { IfSome result (λ difference. (stacks : Stacks) → AreInside inside.now.rows stacks
        → IsFound (setting_of manager.now.managed) stacks event.now is_so difference) }
    ensures none { IfNone result (IsTrue is_so × ((stacks : Stacks) → AreInside inside.now.rows stacks
        → IsHonestEvent (setting_of manager.now.managed) stacks event.now)) }
{
    match against(manager, inside, event) {
        Some(cause) => Some(Difference::Premise(cause)),
        None if !is_so => Some(Difference::Answer),
        None => None,
    }
}

/// Whether the manager's answer and the kernel's are the same: the same reply, or a refusal for the same reason.
fn is_same(own: &Result<Reply, Refusal>, other: &Result<Reply, Refusal>) -> bool
    ensures { IsTrue result ↔ (own.now ≡ other.now) }
{
    match (own, other) {
        (Ok(own), Ok(other)) => is_same_reply(own, other),
        (Err(own), Err(other)) => is_same_refusal(*own, *other),
        _ => false,
    }
}

/// Whether two refusals are for the same reason. Compares their numbers, since each reason has its own.
fn is_same_refusal(own: Refusal, other: Refusal) -> bool
    ensures { IsTrue result ↔ (own ≡ other) }
{
    own as u8 == other as u8
}

/// Whether two replies are of the same kind, and have the same contents.
fn is_same_reply(own: &Reply, other: &Reply) -> bool
    ensures { IsTrue result ↔ (own.now ≡ other.now) }
{
    match (own, other) {
        (Reply::Done, Reply::Done)
        | (Reply::Started, Reply::Started)
        | (Reply::Reversed, Reply::Reversed) => true,
        (Reply::Pending(own), Reply::Pending(other)) => own == other,
        (Reply::Completed(own), Reply::Completed(other)) => own == other,
        (Reply::PreFailed(patch, object, status), Reply::PreFailed(other, module, number)) => {
            patch == other && object == module && status == number
        }
        (Reply::Value(own), Reply::Value(other)) => is_same_value(own, other),
        (Reply::Freed(own), Reply::Freed(other)) => own == other,
        (Reply::Woken(own), Reply::Woken(other)) => is_same_frames(own, other),
        _ => false,
    }
}

/// Whether two values of shadow variables have the same bytes.
fn is_same_value(own: &ShadowValue, other: &ShadowValue) -> bool
    ensures { IsTrue result ↔ (own.now ≡ other.now) }
{
    own.bytes() == other.bytes()
}

/// Whether two woken tasks were inside of the same versions, in the same order.
fn is_same_frames(own: &Frames, other: &Frames) -> bool
    ensures { IsTrue result ↔ (own.now ≡ other.now) }
{
    own == other
}
