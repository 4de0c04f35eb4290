//! Whether an event may run a callback. Taking an event back doesn't reset the counts of runs. If something after an
//! event may fail, its caller may have to take the event back. Such a caller checks first whether the event may run a
//! callback.
ghost use Rattle.std.specs.Prelude.{◌≡◌};
ghost use Rattle.klp_model.specs.declared.event.Event.TheVariants.{Enable, SetEnabled, Poll};
ghost use Rattle.klp_patch.specs.Calls.{are_some};
ghost use Rattle.klp_manager_state.specs.Managed.{may_run_in};
ghost use Rattle.klp_manager_state.specs.Invariant.{Invariant};

use crate::completing::end_of;
use klp_catalog::Catalog;
use klp_manager_state::ManagerState;
use klp_model::Event;
use klp_patch::{has_callbacks, may_run_coming, may_run_going};
use klp_types::{PatchId, Which, is_in_transition};

/// Whether enabling a patch may run a callback. This is pre-patch, or post-unpatch, which runs if a pre-patch refuses.
fn may_run_enabling(state: &ManagerState, catalog: &Catalog, patch: PatchId) -> bool
    requires { Invariant state.now catalog.now }
    ensures { result ≡ are_some (may_run_in state.now catalog.now (Enable patch)) }
{
    let pre = has_callbacks(catalog, &state.modules, patch, Which::Pre);
    let post_un = has_callbacks(catalog, &state.modules, patch, Which::PostUn);
    pre | post_un
}

/// Whether writing to a patch's `enabled` file may run a callback. This is pre-unpatch. Reversing a transition runs no
/// callback.
fn may_run_setting(state: &ManagerState, catalog: &Catalog, patch: PatchId, value: bool) -> bool
    requires { Invariant state.now catalog.now }
    ensures { result ≡ are_some (may_run_in state.now catalog.now (SetEnabled patch value)) }
{
    if is_in_transition(&state.moving, patch) {
        false
    } else {
        has_callbacks(catalog, &state.modules, patch, Which::PreUn)
    }
}

/// Whether a poll may run a callback. If there is a transition, the callbacks of its end may run.
fn may_run_polling(state: &ManagerState, catalog: &Catalog) -> bool
    requires { Invariant state.now catalog.now }
    ensures { result ≡ are_some (may_run_in state.now catalog.now Poll) }
{
    match state.moving {
        Some(moving) => has_callbacks(catalog, &state.modules, moving.patch, end_of(moving.target)),
        None => false,
    }
}

/// Whether there is a callback that the event may run if nothing refuses the event. The event needs room for the
/// variables of exactly these callbacks. The cost grows with the number of the patch's objects. For an event of a
/// module, it grows with the number of objects of all installed patches.
pub fn may_run(state: &ManagerState, catalog: &Catalog, event: &Event) -> bool
    requires { Invariant state.now catalog.now }
    ensures { result ≡ are_some (may_run_in state.now catalog.now event.now) }
{
    match *event {
        Event::Enable(patch) => may_run_enabling(state, catalog, patch),
        Event::SetEnabled(patch, value) => may_run_setting(state, catalog, patch, value),
        Event::Poll => may_run_polling(state, catalog),
        Event::Coming(object) => {
            may_run_coming(catalog, state.world.installed(), object, state.moving)
        }
        Event::Going(object) => {
            may_run_going(catalog, state.world.installed(), object, state.moving)
        }
        _ => false,
    }
}
