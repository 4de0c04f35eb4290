ghost use Rattle.std.specs.Prelude.{◌≡◌, ℕ, true, false, List, IfOk, IfErr};
ghost use Rattle.klp_model.specs.declared.seen.Seen.{Seen as AnyItem};
ghost use Rattle.klp_model.specs.InPlace.{IsInPlace};
ghost use Rattle.klp_model.specs.Observed.{Stacks, HasNoTask, IsHonestRun};
ghost use Rattle.klp_model.specs.Refusals.{is_there};
ghost use Rattle.klp_manager_state.specs.Managed.{setting_of};
ghost use Rattle.klp_core.specs.Journaled.{IsWellFormed};
ghost use Rattle.klp_watch.specs.Inside.{AreInside};
ghost use Rattle.klp_watch.specs.Refused.{refusal_of};
ghost use Rattle.klp_watch.specs.Watching.{AreWatched, IsConsistent, IsDone, IsFault, IsReported};

use crate::cause::{Cause, NotHonest};
use crate::event::happen;
use crate::inside::Inside;
use crate::task::{call, come_back};
use klp_core::Manager;
use klp_model::{Refusal, Seen};
use klp_types::{MAX_TASKS, TaskId};

/// Does the items of a trace in order. Returns the first item that isn't honest as `Err`. Such an item breaks a premise
/// of the consistency model, or there is no room for it. If several [`Cause`]s apply, returns the first. If the manager
/// has a task, returns item 0 with [`Cause::NotOpening`]. A refused event counts as done. The call allocates nothing.
/// An item costs as much as its event or its look-up. When a module is unloaded, all versions that tasks are inside of
/// are checked too.
///
/// All items before the returned item are done. The returned item changes nothing. If it is an event, its records are
/// put back, but its callbacks have run.
pub fn watch(manager: &mut Manager, items: &[Seen]) -> Result<(), NotHonest>
    ensures watched { IfOk result (λ _. AreWatched manager.old manager.new items.now) }
    // the watched run is consistent at every moment
    ensures consistent { (run : List AnyItem)
        → IsHonestRun (setting_of manager.old.managed) manager.old.managed.state run
        → IsConsistent (setting_of manager.old.managed) manager.old.managed.state run }
    ensures fault { IfErr result (λ fault. IsFault manager.old manager.new items.now fault.item fault.cause) }
    ensures setting { setting_of manager.new.managed ≡ setting_of manager.old.managed }
    ensures well_formed { IsWellFormed manager.new }
{
    // For the proof only: the calls do nothing, and their contracts are laws.
    klp_model::consistency::frames_are_current();
    klp_model::consistency::none_has_left();
    klp_model::consistency::none_is_mixed();
    functions_are_in_objects(manager);
    // For the proof only: the contract of mark says that the manager is well-formed.
    let _for_its_clause = manager.mark();
    if has_task(manager) {
        return Err(NotHonest {
            item: 0,
            cause: Cause::NotOpening,
        });
    }
    watch_all(manager, items)
}

/// For the proof only: does nothing, but promises that each site of a patch's function is in the function's object. The
/// laws of the consistency model need this.
pub(crate) fn functions_are_in_objects(manager: &Manager)
    ensures { IsInPlace (setting_of manager.now.managed) }
{
    // For the proof only: the call does nothing, and its contract is a law.
    klp_core::laws::functions_are_in_their_objects();
    // For the proof only: the contract of catalog says that the catalog has the names of the image.
    let _named = manager.catalog();
}

/// Does the items in order, and returns the first that isn't honest as `Err`. Begins with no task inside of any
/// function, so its clauses hold for a manager without tasks.
fn watch_all(manager: &mut Manager, items: &[Seen]) -> Result<(), NotHonest>
    ensures watched { IfOk result
        (λ _. HasNoTask manager.old.managed.state → AreWatched manager.old manager.new items.now) }
    ensures fault { IfErr result (λ fault. HasNoTask manager.old.managed.state
        → IsFault manager.old manager.new items.now fault.item fault.cause) }
    ensures setting { setting_of manager.new.managed ≡ setting_of manager.old.managed }
    ensures well_formed { IsWellFormed manager.new }
{
    // For the proof only: the calls do nothing, and their contracts are laws.
    klp_model::laws::states_stay_allowed();
    klp_model::consistency::state_is_that_of_the_events();
    klp_core::laws::events_go_on_where_they_end();
    // For the proof only: the contract of mark says that the manager is well-formed.
    let _for_its_clause = manager.mark();
    let mut inside = Inside::new();
    for (done, item) in items.iter().enumerate() {
        if let Err(cause) = watch_item(manager, &mut inside, item) {
            return Err(NotHonest {
                item: done + 1,
                cause,
            });
        }
    }
    Ok(())
}

/// Whether the manager has any task. Checks all numbers below [`MAX_TASKS`], since no task has another.
pub(crate) fn has_task(manager: &Manager) -> bool
    ensures there { result ≡ true → (task : ℕ) × (is_there manager.now.managed.state task ≡ true) }
    ensures nobody { result ≡ false → HasNoTask manager.now.managed.state }
{
    for number in 0..MAX_TASKS as u8 {
        if manager.mode(TaskId(number)).is_some() {
            return true;
        }
    }
    false
}

/// Does one item on the manager. Returns `Err` if the item isn't honest; then it changes nothing. Otherwise returns the
/// refusal if the item is an event that the manager refuses. `inside` has the versions that each task is inside of.
pub(crate) fn watch_item(
    manager: &mut Manager,
    inside: &mut Inside,
    item: &Seen,
) -> Result<Option<Refusal>, Cause>
    ensures done { IfOk result (λ _. (stacks : Stacks) → AreInside inside.old.rows stacks
        → IsDone manager.old manager.new stacks item.now inside.new.rows) }
    ensures reported { IfErr result (λ cause. (stacks : Stacks) → AreInside inside.old.rows stacks
        → IsReported manager.old manager.new stacks item.now cause) }
    ensures refused { IfOk result (λ refused. refused
        ≡ refusal_of (setting_of manager.old.managed) manager.old.managed.state manager.old.groups item.now) }
    ensures setting { setting_of manager.new.managed ≡ setting_of manager.old.managed }
    ensures well_formed { IsWellFormed manager.new }
{
    // For the proof only: the contract of mark says that the manager is well-formed.
    let _for_its_clause = manager.mark();
    match item {
        Seen::Event(event) => happen(manager, inside, event),
        Seen::Call(task, site) => match call(manager, inside, *task, *site) {
            Ok(()) => Ok(None),
            Err(cause) => Err(cause),
        },
        Seen::Return(task) => match come_back(manager, inside, *task) {
            Ok(()) => Ok(None),
            Err(cause) => Err(cause),
        },
    }
}
