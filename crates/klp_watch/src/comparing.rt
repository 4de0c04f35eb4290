//! Comparing a kernel with the rules. The events are done on a manager, and the kernel's answers and sights are
//! compared with the manager's. The journal is sealed whenever it is full, so a trace may have any length.
ghost use Rattle.std.specs.Prelude.{◌≡◌, IfOk, IfErr};
ghost use Rattle.klp_model.specs.Observed.{Stacks, HasNoTask};
ghost use Rattle.klp_manager_state.specs.Managed.{setting_of};
ghost use Rattle.klp_core.specs.Journaled.{IsWellFormed};
ghost use Rattle.klp_watch.specs.Inside.{AreInside};
ghost use Rattle.klp_watch.specs.Watching.{IsConsistent};
ghost use Rattle.klp_watch.specs.Compared.{taken_from, IsDoneSo, IsReportedFor};
ghost use Rattle.klp_watch.specs.ComparedWhole.{AreAllSo, IsDifferenceOfWhole};
ghost use Rattle.klp_watch.specs.Refused.{refusal_at, refused_in};

use crate::cause::Cause;
use crate::comparing_answer::take_answered;
use crate::comparing_sight::{holds_in_state, other_than};
use crate::difference::{Difference, Differs};
use crate::inside::Inside;
use crate::observed::Observed;
use crate::refused::RefusedEvents;
use crate::watching::{functions_are_in_objects, has_task, watch_item};
use klp_core::Manager;
use klp_model::Refusal;

/// Compares a kernel with the rules, item by item. Does the events, calls and returns on the manager, as
/// [`watch`](crate::watch) does. Compares the kernel's answers with the manager's, and the kernel's sights with the
/// manager's state at that moment. Returns the first item that differs from the rules or breaks a premise as `Err`. If
/// an event does both, returns the premise. If the manager has a task, returns item 0 with [`Cause::NotOpening`].
///
/// The returned item changes nothing. If it is an event, it is taken back by its own records, but its callbacks have
/// run. All items before it are done, and agree with the rules. The journal is sealed whenever it has no room for one
/// more event, so the answers and the result are those that the rules give for the whole list, however long it is. It
/// isn't promised which events can be taken back afterwards. The call allocates nothing. An item costs as much as its
/// event or its look-up.
///
/// `Ok` has the events that the rules refuse, and whose answer the trace doesn't have.
pub fn compare_whole(manager: &mut Manager, items: &[Observed]) -> Result<RefusedEvents, Differs>
    ensures compared { IfOk result (λ _. AreAllSo manager.old.managed manager.new.managed items.now) }
    // the compared run is consistent at every moment
    ensures consistent { IfOk result
        (λ _. IsConsistent (setting_of manager.old.managed) manager.old.managed.state (taken_from items.now)) }
    ensures differs { IfErr result (λ differs.
        IsDifferenceOfWhole manager.old.managed manager.new.managed items.now differs.item differs.cause) }
    ensures refused { IfOk result (λ refused. refused
        ≡ refused_in (setting_of manager.old.managed) manager.old.managed.state items.now) }
    ensures setting { setting_of manager.new.managed ≡ setting_of manager.old.managed }
    ensures well_formed { IsWellFormed manager.new }
{
    // For the proof only: the calls do nothing, and their contracts are laws.
    klp_model::consistency::frames_are_current();
    klp_model::consistency::none_has_left();
    klp_model::consistency::none_is_mixed();
    functions_are_in_objects(manager);
    // For the proof only: the contract of mark says that the manager is well-formed.
    let _for_its_clause = manager.mark();
    if has_task(manager) {
        return Err(Differs {
            item: 0,
            cause: Difference::Premise(Cause::NotOpening),
        });
    }
    compare_each(manager, items)
}

/// Does or compares the items in order. Returns the first that differs from the rules or breaks a premise as `Err`, and
/// else the events that the rules refuse, and whose answer the trace doesn't have. Begins with no task inside of any
/// function, so its clauses hold for a manager without tasks.
fn compare_each(manager: &mut Manager, items: &[Observed]) -> Result<RefusedEvents, Differs>
    requires { IsWellFormed manager.old }
    ensures compared { IfOk result (λ _. HasNoTask manager.old.managed.state
        → AreAllSo manager.old.managed manager.new.managed items.now) }
    ensures differs { IfErr result (λ differs. HasNoTask manager.old.managed.state
        → IsDifferenceOfWhole manager.old.managed manager.new.managed items.now differs.item differs.cause) }
    ensures refused { IfOk result (λ refused. HasNoTask manager.old.managed.state
        → refused ≡ refused_in (setting_of manager.old.managed) manager.old.managed.state items.now) }
    ensures setting { setting_of manager.new.managed ≡ setting_of manager.old.managed }
    ensures well_formed { IsWellFormed manager.new }
{
    // For the proof only: the calls do nothing, and their contracts are laws.
    klp_model::laws::states_stay_allowed();
    klp_model::consistency::state_is_that_of_the_events();
    klp_core::laws::events_go_on_where_they_end();
    let mut inside = Inside::new();
    let mut refused = RefusedEvents::none();
    for (done, item) in items.iter().enumerate() {
        manager.make_room();
        match compare_item(manager, &mut inside, item) {
            Ok(refusal) => refused.add(done + 1, refusal),
            Err(cause) => {
                return Err(Differs {
                    item: done + 1,
                    cause,
                });
            }
        }
    }
    Ok(refused)
}

/// Does one item on the manager, or compares it with the manager's state if it is a sight. Returns `Err` if the item
/// differs from the rules or breaks a premise. Otherwise returns the refusal if the item is an event that the rules
/// refuse, and whose answer the trace doesn't have. `inside` has the versions that each task is inside of.
fn compare_item(
    manager: &mut Manager,
    inside: &mut Inside,
    item: &Observed,
) -> Result<Option<Refusal>, Difference>
    ensures done { IfOk result (λ _. (stacks : Stacks) → AreInside inside.old.rows stacks
        → IsDoneSo manager.old manager.new stacks item.now inside.new.rows) }
    ensures reported { IfErr result (λ difference. (stacks : Stacks) → AreInside inside.old.rows stacks
        → IsReportedFor manager.old manager.new stacks item.now difference) }
    ensures refused { IfOk result (λ refused. refused
        ≡ refusal_at (setting_of manager.old.managed) manager.old.managed.state manager.old.groups item.now) }
    ensures setting { setting_of manager.new.managed ≡ setting_of manager.old.managed }
    ensures well_formed { IsWellFormed manager.new }
{
    // For the proof only: the contract of mark says that the manager is well-formed.
    let _for_its_clause = manager.mark();
    match item {
        Observed::Seen(item) => {
            match watch_item(manager, inside, item) {
                Ok(refusal) => Ok(refusal),
                Err(cause) => Err(Difference::Premise(cause)),
            }
        }
        Observed::Answered(event, answer) => match take_answered(manager, inside, event, answer) {
            Ok(()) => Ok(None),
            Err(difference) => Err(difference),
        },
        Observed::Saw(sight) if !holds_in_state(manager, sight) => Err(other_than(sight)),
        Observed::Saw(_) => Ok(None),
    }
}
