//! Forcing a transition (livepatch, Consistency model: the `force` attribute).
ghost use Rattle.std.specs.Prelude.{◌≡◌, ◌+◌, ◌≤◌, length};
ghost use Rattle.klp_model.specs.declared.event.Event.TheVariants.{Force};
ghost use Rattle.klp_model.specs.Refusals.{refusal};
ghost use Rattle.klp_model.specs.Forcing.{pin_all, pinned_by};
ghost use Rattle.klp_manager_state.specs.Managed.{setting_in, state_in, refused_in};
ghost use Rattle.klp_manager_state.specs.Invariant.{Invariant};
ghost use Rattle.klp_manager_state.specs.Events.{TakesEvent};
ghost use Rattle.klp_manager_state.specs.Rows.{rows_before, IsLogged};

use klp_catalog::Catalog;
use klp_manager_state::{Brief, BriefReply, ManagerState};
use klp_model::Refusal;
use klp_tasks::target_state;
use klp_types::{MAX_PATCHES, PatchId, Transition, is_in_transition};

/// Switches every task to the target of the patch in transition, whatever functions the task is inside of. Then pins
/// the patches whose functions tasks may still be inside of. If the patch is being disabled, the patch itself is
/// pinned. If it is being enabled and is cumulative, all other installed patches are pinned. The next poll completes
/// the transition. The cost grows with the number of tasks.
pub fn force(
    state: &mut ManagerState,
    catalog: &Catalog,
    patch: PatchId,
) -> Result<BriefReply, Refusal>
    requires { Invariant state.old catalog.now }
    ensures taken { TakesEvent state.old state.new catalog.now catalog.now (Force patch) result }
    ensures logged { IsLogged state.old state.new result }
{
    klp_manager_state::laws::steps_keep();
    klp_tasks::laws::records_are_few();
    if let Some(refusal) = force_refusal(state, catalog, patch) {
        return Err(refusal);
    }
    let Some(moving) = state.moving else {
        return Err(Refusal::NotMoving);
    };
    state.log.clear();
    state
        .tasks
        .set_all(target_state(moving.target), &mut state.log);
    pin(state, catalog, moving);
    Ok(BriefReply(Brief::Done))
}

/// Returns the first reason why a transition can't be forced. Returns `None` if it can be forced. Lack of room is never
/// a reason, since no callback runs.
pub fn force_refusal(state: &ManagerState, catalog: &Catalog, patch: PatchId) -> Option<Refusal>
    ensures { result ≡ refused_in state.now catalog.now (Force patch) }
{
    if patch.0 >= catalog.patches() {
        Some(Refusal::NoPatch)
    } else if !state.world.is_installed(patch) {
        Some(Refusal::NotFound)
    } else if !is_in_transition(&state.moving, patch) {
        Some(Refusal::NotMoving)
    } else {
        None
    }
}

/// Pins the patches whose functions tasks may still be inside of after a forced transition. (In the kernel, the flag
/// `forced` means that the patch's module is never freed.)
fn pin(state: &mut ManagerState, catalog: &Catalog, moving: Transition)
    requires { length state.old.log.logged + MAX_PATCHES ≤ state.old.log.room }
    ensures parts { state.new ≡ record state.old {
      pinned = pin_all (pinned_by (setting_in state.old catalog.now) (state_in state.old catalog.now) moving)
          state.old.pinned;
      log = state.new.log;
    } }
    ensures logged { rows_before state.new ≡ rows_before state.old }
    ensures room { state.new.log.room ≡ state.old.log.room }
{
    if !moving.target {
        state.pinned.pin(moving.patch, &mut state.log);
    } else if catalog.is_cumulative(moving.patch) {
        state
            .pinned
            .pin_others(state.world.installed(), moving.patch, &mut state.log);
    }
}
