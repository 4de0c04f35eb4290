//! Enabling a patch (livepatch, Enabling; callbacks, pre-patch; cumulative-patches).
ghost use Rattle.std.specs.Prelude.{◌≡◌, ℕ, ◌+◌, ◌<◌, ◌≤◌, true, false, None, Some, length, slice_index_or, is_none};
ghost use Rattle.std.specs.Prelude.{◌&&◌};
ghost use Rattle.std.specs.List.{list_any};
ghost use Rattle.klp_types.specs.declared.limits.TheConstants.{MAX_ENABLING_RECORDS, MAX_LIST_RECORDS};
ghost use Rattle.klp_types.specs.declared.limits.TheConstants.{RECORDS_BEFORE_SITES};
ghost use Rattle.klp_types.specs.World.{with_patch, without_patch};
ghost use Rattle.klp_model.specs.declared.event.Event.TheVariants.{Enable};
ghost use Rattle.klp_model.specs.declared.event.Reply.TheVariants.{PreFailed};
ghost use Rattle.klp_model.specs.State.{is_among};
ghost use Rattle.klp_model.specs.Task.{all_in, at_target};
ghost use Rattle.klp_model.specs.Enabling.{move_to};
ghost use Rattle.klp_text.specs.TextImage.{site_count};
ghost use Rattle.klp_modules.specs.Names.{names_of};
ghost use Rattle.klp_stack.specs.Stack.{entries_at, has_entry};
ghost use Rattle.klp_patch.specs.Covered.{is_covered};
ghost use Rattle.klp_patch.specs.Room.{HasRoom};
ghost use Rattle.klp_patch.specs.Changes.{AreMade, with_entry};
ghost use Rattle.klp_model.specs.Refusals.{refusal};
ghost use Rattle.klp_model.specs.EventCalls.{lacks_room};
ghost use Rattle.klp_catalog.specs.Catalog.{CatalogFunction as FunctionOf};
ghost use Rattle.klp_catalog.specs.States.{state_ids};
ghost use Rattle.klp_patch.specs.Calls.{records_of};
ghost use Rattle.klp_manager_state.specs.Managed.{setting_in, state_in, refused_in, may_run_in, lacks_room_in};
ghost use Rattle.klp_manager_state.specs.Invariant.{Invariant};
ghost use Rattle.klp_manager_state.specs.Events.{TakesEvent, AcceptsEvent};
ghost use Rattle.klp_manager_state.specs.Rows.{rows_before, rows_now, IsLogged};

use klp_catalog::{Catalog, CatalogPatch};
use klp_manager_state::{Brief, BriefReply, ManagerState};
use klp_model::Refusal;
use klp_patch::{allocs, patch_sites, run_pre_patch};
use klp_tasks::target_state;
use klp_types::{
    MAX_PATCHES, MAX_RECORDS, MAX_SITES, MAX_TASKS, MAX_VARIABLES, ObjId, PatchId, Transition,
    Which,
};

/// Whether a function of the patch is for a loaded object but names no symbol of it. Such a patch couldn't be applied
/// as a whole. A function for an object that isn't loaded may lack its symbol. The symbol is then checked when the
/// module is loaded (docs/DECISIONS.md, "Symbols of objects that aren't loaded").
fn lacks_symbol(state: &ManagerState, found: &CatalogPatch) -> bool
    ensures { result ≡ list_any (λ (f : FunctionOf). slice_index_or state.now.modules.loaded f.object false
        && is_none f.site) found.now.functions }
{
    if found.names_sites() {
        return false;
    }
    for function in found.functions() {
        if state.modules.is_loaded(function.object()) && function.site().is_none() {
            return true;
        }
    }
    false
}

/// Returns the reply for a patch whose pre-patch callback refused, with the object and the status. Callbacks ran and
/// were counted, so the outcome is a reply and not a refusal.
fn pre_failed(patch: PatchId, refused: &(ObjId, i32)) -> BriefReply
    ensures { result ≡ PreFailed patch refused.now.0 refused.now.1 }
{
    let (object, status) = *refused;
    BriefReply(Brief::PreFailed(patch, object, status))
}

/// Enables a patch that isn't installed, and starts its transition to 1. Puts the patch last in the list, runs
/// pre-patch object by object, and puts the patch's entries on the sites of loaded objects. If a pre-patch refuses,
/// post-unpatch runs for the objects before the refusing one. Then the patch is taken out of the list again, and the
/// reply is `PreFailed`.
pub fn enable(
    state: &mut ManagerState,
    catalog: &mut Catalog,
    patch: PatchId,
) -> Result<BriefReply, Refusal>
    requires { Invariant state.old catalog.old }
    ensures taken { TakesEvent state.old state.new catalog.old catalog.new (Enable patch) result }
    ensures logged { IsLogged state.old state.new result }
{
    match enable_refusal(state, catalog, patch) {
        Some(refusal) => Err(refusal),
        None => Ok(install(state, catalog, patch)),
    }
}

/// Returns the first reason why the patch can't be enabled. Returns `None` if it can be enabled. Changes nothing, so
/// this function can also be called while the journal is full.
pub fn enable_refusal(state: &ManagerState, catalog: &Catalog, patch: PatchId) -> Option<Refusal>
    requires { Invariant state.now catalog.now }
    ensures refusal { result ≡ refused_in state.now catalog.now (Enable patch) }
    ensures records { records_of (may_run_in state.now catalog.now (Enable patch)) ≤ MAX_ENABLING_RECORDS }
{
    // Lack of room is the last reason, but is computed first, since its proof bounds the records for every return
    // (docs/DECISIONS.md, "Room computed before the refusals").
    let lacks_room = lacks_room_to_enable(state, catalog, patch);
    let Some(found) = catalog.get(patch) else {
        return Some(Refusal::NoPatch);
    };
    if state.world.is_installed(patch) {
        Some(Refusal::AlreadyThere)
    } else if state.moving.is_some() {
        Some(Refusal::Busy)
    } else if state.pinned.is_pinned(patch) {
        Some(Refusal::Pinned)
    } else if !catalog.is_compatible(patch, state.world.installed()) {
        // A cumulative patch takes over the states of the patches that it replaces. So these patches are checked too.
        Some(Refusal::Incompatible)
    } else if lacks_symbol(state, found) {
        Some(Refusal::NoSymbol)
    } else if lacks_room {
        Some(Refusal::Full)
    } else {
        None
    }
}

/// Whether there is no room for the variables that the callbacks may add. The room is checked once, before any callback
/// runs, so that no callback fails for lack of room.
fn lacks_room_to_enable(state: &ManagerState, catalog: &Catalog, patch: PatchId) -> bool
    requires { Invariant state.now catalog.now }
    ensures room { result ≡ lacks_room_in state.now catalog.now (Enable patch) }
    ensures records { records_of (may_run_in state.now catalog.now (Enable patch)) ≤ MAX_ENABLING_RECORDS }
{
    // The callbacks of both kinds count, whatever statuses they return. So the sum is known before any callback runs
    // (docs/DECISIONS.md, "Room for the callbacks that may run").
    let pre = allocs(catalog, &state.modules, patch, Which::Pre);
    let post_un = allocs(catalog, &state.modules, patch, Which::PostUn);
    usize::from(state.world.count()) + pre + post_un > MAX_VARIABLES
}

/// Puts a patch last in the list, runs pre-patch, and starts the transition unless a pre-patch refuses. The caller has
/// checked that nothing refuses the event. The patch is in the list before its callbacks run, so that its callbacks can
/// set its states.
fn install(state: &mut ManagerState, catalog: &mut Catalog, patch: PatchId) -> BriefReply
    requires kept { Invariant state.old catalog.old }
    requires free { refused_in state.old catalog.old (Enable patch) ≡ None }
    requires records { records_of (may_run_in state.old catalog.old (Enable patch)) ≤ MAX_ENABLING_RECORDS }
    ensures accepted { AcceptsEvent state.old state.new catalog.old catalog.new (Enable patch) result }
    ensures logged { rows_before state.new ≡ rows_now state.old }
{
    klp_manager_state::laws::steps_keep();
    klp_model::laws::events_are_accepted_where_no_case_holds();
    klp_patch::laws::runs_log_no_more_than_may_run();
    klp_types::laws::entries_are_of_their_patches();
    klp_types::laws::the_newest_entry_is_on_top();
    prove!(usize::from(catalog.patches()) <= MAX_PATCHES);
    prove!(state.sites.sites() <= MAX_SITES);
    put_last(state, catalog, patch);
    // A refused patch must not change the text, so pre-patch runs for all objects before the first site is hooked
    // (docs/DECISIONS.md, "Pre-patch before the first hook").
    match run_pre_patch(
        catalog,
        &state.modules,
        patch,
        &mut state.world,
        &mut state.log,
    ) {
        None => {
            start(state, catalog, patch);
            BriefReply(Brief::Started)
        }
        Some(refused) => {
            take_out(state, patch);
            pre_failed(patch, &refused)
        }
    }
}

/// Begins the event by dropping all earlier records of the log that the journal doesn't have. Then puts a patch last in
/// the list of installed patches, with its system states at 0.
fn put_last(state: &mut ManagerState, catalog: &Catalog, patch: PatchId)
    requires fresh { is_among patch state.old.world.installed ≡ false }
    requires room { length state.old.world.installed < MAX_PATCHES }
    requires log { state.old.log.room ≡ MAX_RECORDS }
    ensures parts { state.new
        ≡ record state.old {
          world = with_patch state.old.world patch
              (state_ids catalog.now patch);
          log = state.new.log;
        } }
    ensures logged { rows_before state.new ≡ rows_now state.old }
    ensures records { length state.new.log.logged ≤ MAX_LIST_RECORDS }
    ensures log { state.new.log.room ≡ MAX_RECORDS }
{
    klp_world::laws::what_is_logged_is_of_the_world();
    state.log.clear();
    let ids = catalog.state_ids(patch);
    state.world.add_states(patch, &ids, &mut state.log);
}

/// Takes a patch out of the list after its pre-patch refused. The patch's states are removed too, with the values that
/// callbacks set.
fn take_out(state: &mut ManagerState, patch: PatchId)
    requires { length state.old.log.logged + MAX_LIST_RECORDS ≤ state.old.log.room }
    ensures parts { state.new
        ≡ record state.old { world = without_patch state.old.world patch; log = state.new.log } }
    ensures logged { rows_before state.new ≡ rows_before state.old }
    ensures log { state.new.log.room ≡ state.old.log.room }
{
    klp_world::laws::what_is_logged_is_of_the_world();
    prove!(state.world.drop_records(patch) <= state.log.spare());
    state.world.drop_states(patch, &mut state.log);
}

/// Starts the transition of an installed patch to 1. First puts the patch's entries on the sites. At that time no task
/// has patch state 1. So every task skips these entries and runs the same versions as before.
fn start(state: &mut ManagerState, catalog: &Catalog, patch: PatchId)
    requires number { patch < MAX_PATCHES }
    requires rests { state.old.moving ≡ None }
    requires sites { site_count state.old.sites.image ≤ MAX_SITES }
    requires names { catalog.now.names ≡ names_of state.old.sites.image.objects }
    requires fresh { (site : ℕ) → has_entry patch (entries_at state.old.sites.stacks site) ≡ false }
    requires fit { HasRoom state.old.sites (is_covered state.old.sites None) (with_entry catalog.now patch) }
    requires tasks { length state.old.tasks ≡ MAX_TASKS }
    requires records { length state.old.log.logged ≤ RECORDS_BEFORE_SITES }
    requires log { state.old.log.room ≡ MAX_RECORDS }
    ensures entries { AreMade state.old.sites state.new.sites (is_covered state.old.sites None)
        (with_entry catalog.now patch) }
    ensures parts { state.new ≡ record state.old {
      sites = state.new.sites;
      tasks = all_in (at_target false) state.old.tasks;
      moving = move_to patch true;
      log = state.new.log;
    } }
    ensures logged { rows_before state.new ≡ rows_before state.old }
    ensures log { state.new.log.room ≡ MAX_RECORDS }
{
    klp_tasks::laws::records_are_few();
    prove!(state.sites.sites() <= MAX_SITES);
    // called for its contract, which says that the patch has few functions
    let _found = catalog.get(patch);
    patch_sites(&mut state.sites, catalog, patch, None, &mut state.log);
    prove!(state.sites.sites() <= MAX_SITES);
    state.tasks.set_all(target_state(false), &mut state.log);
    state.set_moving(Some(Transition {
        patch,
        target: true,
    }));
}
