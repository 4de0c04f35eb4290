//! Trying and completing a transition (livepatch, Consistency model; cumulative-patches). As in the kernel, entries are
//! taken out before the callbacks run. The list of installed patches changes after the callbacks have run, so that the
//! callbacks still find the leaving patches.
ghost use Rattle.std.specs.Prelude.{◌≡◌, ◌≢◌, ℕ, ◌+◌, ◌*◌, ◌≤◌, true, [], None, Some, ◌==◌, length};
ghost use Rattle.std.specs.FinMap as finite;
ghost use Rattle.klp_types.specs.declared.limits.TheConstants.{MAX_KIND_RECORDS, MAX_RECORDS, MAX_SITES, MAX_TASKS};
ghost use Rattle.klp_types.specs.declared.limits.TheConstants.{MAX_VARIABLES, RECORDS_AFTER_CALLBACKS};
ghost use Rattle.klp_types.specs.declared.limits.TheConstants.{RECORDS_AFTER_LIST, RECORDS_AFTER_SITES};
ghost use Rattle.klp_types.specs.Callbacks.{end_of, allocs_of};
ghost use Rattle.klp_model.specs.declared.event.Event.TheVariants.{Poll};
ghost use Rattle.klp_model.specs.declared.event.Reply.TheVariants.{Completed};
ghost use Rattle.klp_model.specs.Allowed.{Allowed};
ghost use Rattle.klp_model.specs.Blocked.{tried, pending};
ghost use Rattle.klp_model.specs.Callbacks.{end_calls};
ghost use Rattle.klp_model.specs.Completing.{completed, settled, without_older};
ghost use Rattle.klp_model.specs.Entries.{entries_of};
ghost use Rattle.klp_model.specs.Refusals.{refusal};
ghost use Rattle.klp_model.specs.State.{with_world};
ghost use Rattle.klp_model.specs.Task.{all_in, at_rest};
ghost use Rattle.klp_text.specs.TextImage.{IsWithinLimits};
ghost use Rattle.klp_modules.specs.Names.{names_of};
ghost use Rattle.klp_catalog.specs.States.{is_cumulative};
ghost use Rattle.klp_patch.specs.Calls.{records_of};
ghost use Rattle.klp_stack.specs.Stack.{entries_at};
ghost use Rattle.klp_manager_state.specs.Managed.{setting_in, state_in, refused_in, may_run_in, entries_in};
ghost use Rattle.klp_manager_state.specs.Invariant.{Invariant};
ghost use Rattle.klp_manager_state.specs.Events.{TakesEvent, AcceptsEvent};
ghost use Rattle.klp_patch_events.specs.Complete.{IsCompleted};
ghost use Rattle.klp_manager_state.specs.Rows.{rows_before, rows_now, IsLogged};

use crate::replaced::{drop_older, older_than, unpatch_each};
use klp_catalog::Catalog;
use klp_manager_state::{Brief, BriefReply, ManagerState};
use klp_model::Refusal;
use klp_patch::{allocs, block, drop_nops, run_callbacks, unpatch_sites};
use klp_types::{
    MAX_FUNCTIONS, MAX_PATCHES, MAX_SITES, MAX_VARIABLES, PatchId, PatchState, Transition, Which,
};

/// Returns the kind of callback that runs at the end of a transition to this target. The result is post-patch if the
/// patch is being enabled, and post-unpatch if it is being disabled.
pub(crate) fn end_of(target: bool) -> Which
    ensures { result ≡ end_of target }
{
    if target { Which::Post } else { Which::PostUn }
}

/// Tries the transition once more. Switches the sleepers that aren't blocked, and completes the transition if all tasks
/// are then at the target. If there are no tasks, the first try completes it. A kernel tries every second, but this
/// manager completes nothing without a poll (docs/DECISIONS.md, "When transitions complete").
pub fn poll(state: &mut ManagerState, catalog: &mut Catalog) -> Result<BriefReply, Refusal>
    requires { Invariant state.old catalog.old }
    ensures taken { TakesEvent state.old state.new catalog.old catalog.new Poll result }
    ensures logged { IsLogged state.old state.new result }
{
    match poll_refusal(state, catalog) {
        Some(refusal) => Err(refusal),
        None => Ok(try_once_more(state, catalog)),
    }
}

/// Returns the first reason why a poll is refused. Returns `None` if it is accepted. It isn't known beforehand whether
/// the transition completes. So the poll needs room for the callbacks of the transition's end even if a task will still
/// lag.
pub fn poll_refusal(state: &ManagerState, catalog: &Catalog) -> Option<Refusal>
    requires { Invariant state.now catalog.now }
    ensures refusal { result ≡ refused_in state.now catalog.now Poll }
    ensures records { records_of (may_run_in state.now catalog.now Poll) ≤ MAX_KIND_RECORDS }
{
    let Some(moving) = state.moving else {
        return Some(Refusal::NotMoving);
    };
    // The room is checked for all callbacks of the end together, before any of them runs (docs/DECISIONS.md, "`Full` at
    // the end of a transition").
    let end = allocs(catalog, &state.modules, moving.patch, end_of(moving.target));
    if usize::from(state.world.count()) + end > MAX_VARIABLES {
        return Some(Refusal::Full);
    }
    None
}

/// Tries the transition, and completes it if all tasks are then at the target. The caller has checked that nothing
/// refuses the poll. If a task still lags, only tasks have changed.
fn try_once_more(state: &mut ManagerState, catalog: &mut Catalog) -> BriefReply
    requires kept { Invariant state.old catalog.old }
    requires free { refused_in state.old catalog.old Poll ≡ None }
    requires records { records_of (may_run_in state.old catalog.old Poll) ≤ MAX_KIND_RECORDS }
    ensures accepted { AcceptsEvent state.old state.new catalog.old catalog.new Poll result }
    ensures logged { rows_before state.new ≡ rows_now state.old }
{
    klp_manager_state::laws::steps_keep();
    let Some(moving) = state.moving else {
        // Never happens, since a poll without a transition is refused.
        return BriefReply(Brief::Completed(false));
    };
    let left = try_tasks(state, catalog, &moving);
    if left > 0 {
        return BriefReply(Brief::Pending(left));
    }
    complete(state, catalog, &moving);
    BriefReply(Brief::Completed(moving.target))
}

/// Begins the event by dropping all earlier records of the log that the journal doesn't have, and switches the sleepers
/// that aren't blocked. Returns how many tasks still lag.
fn try_tasks(state: &mut ManagerState, catalog: &Catalog, moving: &Transition) -> u8
    requires kept { Invariant state.old catalog.now }
    requires moving { state.old.moving ≡ Some moving.now }
    ensures parts { state.new ≡ record state.old {
      tasks = tried (setting_in state.old catalog.now) (state_in state.old catalog.now) moving.now;
      blocked = state.new.blocked;
      log = state.new.log;
    } }
    ensures left { result ≡ pending (setting_in state.old catalog.now) (state_in state.old catalog.now) moving.now }
    ensures kept { Invariant state.new catalog.now }
    ensures logged { rows_before state.new ≡ rows_now state.old }
    ensures records { length state.new.log.logged ≤ MAX_TASKS }
{
    klp_model::laws::where_none_lags_none_is_switched();
    state.log.clear();
    if state.tasks.lagging(moving.target) == 0 {
        return 0;
    }
    switch_sleepers(state, catalog, moving);
    state.tasks.lagging(moving.target)
}

/// Switches the sleepers that aren't blocked. The set of blocked versions is computed anew, because the entries or the
/// loaded modules may have changed since the last try.
fn switch_sleepers(state: &mut ManagerState, catalog: &Catalog, moving: &Transition)
    requires state { Allowed (setting_in state.old catalog.now) (state_in state.old catalog.now) }
    requires limits { IsWithinLimits state.old.sites.image.objects }
    requires names { catalog.now.names ≡ names_of state.old.sites.image.objects }
    requires entries { (site : ℕ) → entries_at state.old.sites.stacks site ≡ entries_in state.old catalog.now site }
    requires log { state.old.log ≡ record state.old.log { logged = []; room = MAX_RECORDS } }
    ensures parts { state.new ≡ record state.old {
      tasks = tried (setting_in state.old catalog.now) (state_in state.old catalog.now) moving.now;
      blocked = state.new.blocked;
      log = state.new.log;
    } }
    ensures logged { rows_before state.new ≡ rows_now state.old }
    ensures records { length state.new.log.logged ≤ MAX_TASKS }
    ensures log { state.new.log.room ≡ MAX_RECORDS }
{
    klp_types::laws::entries_are_of_their_patches();
    klp_patch::laws::the_stacks_tell_what_is_blocked();
    klp_tasks::laws::records_are_few();
    prove!(usize::from(catalog.patches()) <= MAX_PATCHES);
    prove!(state.sites.sites() <= MAX_SITES);
    block(&state.sites, catalog, *moving, &mut state.blocked);
    state
        .tasks
        .try_all(&state.blocked, moving.target, &mut state.log);
}

/// Completes a transition whose tasks are all at the target. As in the kernel (`klp_complete_transition`), the entries
/// of the leaving patches are taken out before the callbacks run. The callbacks still find the leaving patches in the
/// list.
fn complete(state: &mut ManagerState, catalog: &mut Catalog, moving: &Transition)
    requires kept { Invariant state.old catalog.old }
    requires moving { state.old.moving ≡ Some moving.now }
    requires variables { finite.len state.old.world.shadow
        + allocs_of (end_calls (setting_in state.old catalog.old) (state_in state.old catalog.old)
        (Some moving.now)) ≤ MAX_VARIABLES }
    requires calls { records_of
        (end_calls (setting_in state.old catalog.old) (state_in state.old catalog.old) (Some moving.now))
        ≤ MAX_KIND_RECORDS }
    requires records { length state.old.log.logged ≤ MAX_TASKS }
    ensures completed { IsCompleted state.old state.new catalog.old catalog.new moving.now }
    ensures logged { rows_before state.new ≡ rows_before state.old }
{
    remove_leaving_entries(state, catalog, moving);
    run_callbacks(
        catalog,
        &state.modules,
        moving.patch,
        end_of(moving.target),
        &mut state.world,
        &mut state.log,
    );
    remove_leaving_patches(state, catalog, moving);
    rest(state);
}

/// Ends the transition. Sets each task's patch state to -1, which `/proc/<pid>/patch_state` shows while there is no
/// transition.
fn rest(state: &mut ManagerState)
    requires moves { state.old.moving ≢ None }
    requires tasks { length state.old.tasks ≡ MAX_TASKS }
    requires records { length state.old.log.logged ≤ RECORDS_AFTER_LIST }
    requires log { state.old.log.room ≡ MAX_RECORDS }
    ensures parts { state.new
        ≡ record state.old { tasks = all_in at_rest state.old.tasks; moving = None; log = state.new.log } }
    ensures logged { rows_before state.new ≡ rows_before state.old }
    ensures log { state.new.log.room ≡ MAX_RECORDS }
{
    klp_tasks::laws::records_are_few();
    state.tasks.set_all(PatchState::UNDEFINED, &mut state.log);
    state.set_moving(None);
}

/// Takes out the entries of the patches that leave when the transition completes. If a patch that isn't cumulative is
/// being enabled, no patch leaves and no site changes.
fn remove_leaving_entries(state: &mut ManagerState, catalog: &Catalog, moving: &Transition)
    requires kept { Invariant state.old catalog.now }
    requires moving { state.old.moving ≡ Some moving.now }
    requires records { length state.old.log.logged ≤ MAX_TASKS }
    ensures parts { state.new ≡ record state.old { sites = state.new.sites; log = state.new.log } }
    ensures image { state.new.sites.image ≡ state.old.sites.image }
    ensures loaded { state.new.sites.loaded ≡ state.old.sites.loaded }
    ensures entries { (site : ℕ) → entries_at state.new.sites.stacks site
        ≡ entries_of (setting_in state.old catalog.now)
        (with_world (state_in state.old catalog.now)
        (settled (setting_in state.old catalog.now) state.old.world moving.now)) site }
    ensures logged { rows_before state.new ≡ rows_before state.old }
    ensures records { length state.new.log.logged ≤ RECORDS_AFTER_SITES }
    ensures log { state.new.log.room ≡ MAX_RECORDS }
{
    klp_model::laws::a_patch_leaves_the_entries_of_the_others();
    klp_types::laws::entries_are_of_their_patches();
    prove!(state.sites.sites() <= MAX_SITES);
    if !moving.target {
        prove!(catalog.functions(moving.patch).len() <= MAX_FUNCTIONS);
        unpatch_sites(
            &mut state.sites,
            catalog,
            moving.patch,
            None,
            &mut state.log,
        );
    } else if catalog.is_cumulative(moving.patch) {
        replace_sites(state, catalog, moving);
    }
}

/// Takes out the entries of the older patches. Also takes out the nops of the replacing patch, whose only purpose was
/// to hide these entries.
fn replace_sites(state: &mut ManagerState, catalog: &Catalog, moving: &Transition)
    requires kept { Invariant state.old catalog.now }
    requires moving { state.old.moving ≡ Some moving.now }
    requires replaces { is_cumulative catalog.now moving.now.patch ≡ true }
    requires records { length state.old.log.logged ≤ MAX_TASKS }
    ensures parts { state.new ≡ record state.old { sites = state.new.sites; log = state.new.log } }
    ensures image { state.new.sites.image ≡ state.old.sites.image }
    ensures loaded { state.new.sites.loaded ≡ state.old.sites.loaded }
    ensures entries { (site : ℕ) → entries_at state.new.sites.stacks site
        ≡ entries_of (setting_in state.old catalog.now)
        (with_world (state_in state.old catalog.now) (without_older true state.old.world moving.now.patch)) site }
    ensures logged { rows_before state.new ≡ rows_before state.old }
    ensures records { length state.new.log.logged ≤ RECORDS_AFTER_SITES }
    ensures log { state.new.log.room ≡ MAX_RECORDS }
{
    klp_model::laws::a_replacement_takes_the_older_entries_along();
    klp_model::laws::at_most_two_patches_replace();
    klp_types::laws::entries_are_of_their_patches();
    prove!(state.sites.sites() <= MAX_SITES);
    let older = older_than(moving.patch, state.world.installed());
    unpatch_each(&mut state.sites, catalog, older, &mut state.log);
    prove!(state.sites.sites() <= MAX_SITES);
    drop_nops(&mut state.sites, moving.patch, &mut state.log);
}

/// Removes the leaving patches from the list of installed patches, with the values of their system states.
fn remove_leaving_patches(state: &mut ManagerState, catalog: &Catalog, moving: &Transition)
    requires records { length state.old.log.logged ≤ RECORDS_AFTER_CALLBACKS }
    requires log { state.old.log.room ≡ MAX_RECORDS }
    ensures parts { state.new
        ≡ record state.old {
          world = settled
              (setting_in state.old catalog.now) state.old.world moving.now;
          log = state.new.log;
        } }
    ensures logged { rows_before state.new ≡ rows_before state.old }
    ensures records { length state.new.log.logged ≤ RECORDS_AFTER_LIST }
    ensures log { state.new.log.room ≡ MAX_RECORDS }
{
    klp_world::laws::what_is_logged_is_of_the_world();
    if !moving.target {
        prove!(state.world.drop_records(moving.patch) <= state.log.spare());
        state.world.drop_states(moving.patch, &mut state.log);
    } else if catalog.is_cumulative(moving.patch) {
        drop_older(&mut state.world, moving.patch, &mut state.log);
    }
}
