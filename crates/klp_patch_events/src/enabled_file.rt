//! Disabling a patch, or reversing its transition (livepatch, Disabling; callbacks, the case of a transition that is
//! reversed).
ghost use Rattle.std.specs.Prelude.{◌≡◌, ◌≤◌, true, false, None, Some};
ghost use Rattle.klp_types.specs.declared.limits.TheConstants.{MAX_KIND_RECORDS};
ghost use Rattle.klp_types.specs.Pick.{moves};
ghost use Rattle.klp_model.specs.declared.event.Event.TheVariants.{SetEnabled};
ghost use Rattle.klp_model.specs.Refusals.{refusal};
ghost use Rattle.klp_model.specs.EventCalls.{lacks_room, disable_calls};
ghost use Rattle.klp_patch.specs.Calls.{records_of};
ghost use Rattle.klp_manager_state.specs.Managed.{setting_in, state_in, refused_in, lacks_room_in};
ghost use Rattle.klp_manager_state.specs.Invariant.{Invariant};
ghost use Rattle.klp_manager_state.specs.Events.{TakesEvent, AcceptsEvent};
ghost use Rattle.klp_manager_state.specs.Rows.{rows_before, rows_now, IsLogged};

use klp_catalog::Catalog;
use klp_manager_state::{Brief, BriefReply, ManagerState};
use klp_model::Refusal;
use klp_patch::{allocs, run_callbacks};
use klp_tasks::target_state;
use klp_types::{MAX_VARIABLES, PatchId, Transition, Which, is_in_transition};

/// Writes a value to the `enabled` file of an installed patch (the kernel's `enabled_store`). If the patch is in
/// transition, the transition is reversed. No callback runs, since all effects of earlier callbacks are still there.
/// Otherwise the patch starts to be disabled, and pre-unpatch runs object by object.
pub fn set_enabled(
    state: &mut ManagerState,
    catalog: &mut Catalog,
    patch: PatchId,
    value: bool,
) -> Result<BriefReply, Refusal>
    requires { Invariant state.old catalog.old }
    ensures taken { TakesEvent state.old state.new catalog.old catalog.new (SetEnabled patch value) result }
    ensures logged { IsLogged state.old state.new result }
{
    match set_enabled_refusal(state, catalog, patch, value) {
        Some(refusal) => Err(refusal),
        None => Ok(turn(state, catalog, patch, value)),
    }
}

/// Returns the first reason why the value can't be written. Returns `None` if it can be written. Lack of room is the
/// last reason, but is computed first, since its proof also bounds the records (docs/DECISIONS.md, "Room computed
/// before the refusals").
pub fn set_enabled_refusal(
    state: &ManagerState,
    catalog: &Catalog,
    patch: PatchId,
    value: bool,
) -> Option<Refusal>
    requires { Invariant state.now catalog.now }
    ensures refusal { result ≡ refused_in state.now catalog.now (SetEnabled patch value) }
    ensures records { records_of
        (disable_calls (setting_in state.now catalog.now) (state_in state.now catalog.now) patch) ≤ MAX_KIND_RECORDS }
{
    let lacks_room = lacks_room_to_set(state, catalog, patch, value);
    if patch.0 >= catalog.patches() {
        Some(Refusal::NoPatch)
    } else if !state.world.is_installed(patch) {
        Some(Refusal::NotFound)
    } else if value == state.enabled_value(patch) {
        Some(Refusal::SameValue)
    } else if !value && state.moving.is_some() && !is_in_transition(&state.moving, patch) {
        Some(Refusal::Busy)
    } else if lacks_room {
        Some(Refusal::Full)
    } else {
        None
    }
}

/// Whether there is no room for the variables that the callbacks may add. A patch in transition needs no room, since
/// its transition is reversed, which runs no callback.
fn lacks_room_to_set(state: &ManagerState, catalog: &Catalog, patch: PatchId, value: bool) -> bool
    requires { Invariant state.now catalog.now }
    ensures room { result ≡ lacks_room_in state.now catalog.now (SetEnabled patch value) }
    ensures records { records_of
        (disable_calls (setting_in state.now catalog.now) (state_in state.now catalog.now) patch) ≤ MAX_KIND_RECORDS }
{
    let pre_un = if is_in_transition(&state.moving, patch) {
        0
    } else {
        allocs(catalog, &state.modules, patch, Which::PreUn)
    };
    usize::from(state.world.count()) + pre_un > MAX_VARIABLES
}

/// Reverses the transition if the patch is in transition. Otherwise starts to disable the patch.
fn turn(state: &mut ManagerState, catalog: &mut Catalog, patch: PatchId, value: bool) -> BriefReply
    requires kept { Invariant state.old catalog.old }
    requires free { refused_in state.old catalog.old (SetEnabled patch value) ≡ None }
    requires records { records_of
        (disable_calls (setting_in state.old catalog.old) (state_in state.old catalog.old) patch) ≤ MAX_KIND_RECORDS }
    ensures accepted { AcceptsEvent state.old state.new catalog.old catalog.new (SetEnabled patch value) result }
    ensures logged { rows_before state.new ≡ rows_now state.old }
{
    klp_manager_state::laws::steps_keep();
    if is_in_transition(&state.moving, patch) {
        state.log.clear();
        state.set_moving(Some(Transition {
            patch,
            target: value,
        }));
        return BriefReply(Brief::Reversed);
    }
    disable(state, catalog, patch, value)
}

/// Starts to disable a patch. Runs pre-unpatch, sets the patch state of all tasks to 1, since all tasks run the patch,
/// and begins a transition to 0. The entries stay until the transition completes.
fn disable(
    state: &mut ManagerState,
    catalog: &mut Catalog,
    patch: PatchId,
    value: bool,
) -> BriefReply
    requires kept { Invariant state.old catalog.old }
    requires free { refused_in state.old catalog.old (SetEnabled patch value) ≡ None }
    requires records { records_of
        (disable_calls (setting_in state.old catalog.old) (state_in state.old catalog.old) patch) ≤ MAX_KIND_RECORDS }
    requires rests { moves state.old.moving patch ≡ false }
    ensures accepted { AcceptsEvent state.old state.new catalog.old catalog.new (SetEnabled patch value) result }
    ensures logged { rows_before state.new ≡ rows_now state.old }
{
    klp_manager_state::laws::steps_keep();
    klp_tasks::laws::records_are_few();
    state.log.clear();
    run_callbacks(
        catalog,
        &state.modules,
        patch,
        Which::PreUn,
        &mut state.world,
        &mut state.log,
    );
    state.tasks.set_all(target_state(true), &mut state.log);
    state.set_moving(Some(Transition {
        patch,
        target: false,
    }));
    BriefReply(Brief::Started)
}
