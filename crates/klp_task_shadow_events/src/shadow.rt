//! The events that change shadow variables (shadow-vars, Implementation details).
//!
//! An accepted event first empties the log. Then it logs each variable that it changes, as the variable was before. A
//! refused event changes nothing. For each event that can be refused, a function `.._refusal` returns the reason, or
//! `None` if the event would be accepted. If the journal is full, only the function `.._refusal` is called, and the
//! event isn't done.
ghost use Rattle.std.specs.Prelude.{◌≡◌, ◌<◌, None, IfNone};
ghost use Rattle.std.specs.FinMap as finite;
ghost use Rattle.klp_types.specs.declared.limits.TheConstants.{MAX_VARIABLES};
ghost use Rattle.klp_types.specs.World.{ShadowValue as AnyValue, variable};
ghost use Rattle.klp_model.specs.Refusals.{is_full, refusal};
ghost use Rattle.klp_model.specs.declared.event.Event.TheVariants.{ShadowAlloc, ShadowGetOrAlloc, ShadowFree};
ghost use Rattle.klp_model.specs.declared.event.Event.TheVariants.{ShadowFreeAll};
ghost use Rattle.klp_catalog.specs.Catalog.{Catalog as AnyCatalog};
ghost use Rattle.klp_manager_state.specs.Managed.{refused_in};
ghost use Rattle.klp_manager_state.specs.Invariant.{Invariant};
ghost use Rattle.klp_manager_state.specs.Events.{TakesEvent};
ghost use Rattle.klp_manager_state.specs.Rows.{IsLogged};

use klp_catalog::Catalog;
use klp_manager_state::{Brief, BriefReply, ManagerState};
use klp_model::{Refusal, Reply};
use klp_types::{MAX_VARIABLES, ShadowKey, ShadowValue};
use klp_world::NotAdded;

/// Adds a shadow variable. If the variable exists already, the event is refused with `Exists`. In this case the kernel
/// warns and returns nothing (`klp_shadow_alloc`). If there is no room for another variable, the event is refused with
/// `Full`.
pub fn shadow_alloc(
    state: &mut ManagerState,
    catalog: &Catalog,
    key: ShadowKey,
    value: &ShadowValue,
) -> Result<BriefReply, Refusal>
    requires { Invariant state.old catalog.now }
    ensures taken { TakesEvent state.old state.new catalog.now catalog.now (ShadowAlloc key value.now) result }
    ensures logged { IsLogged state.old state.new result }
{
    klp_manager_state::laws::steps_keep();
    klp_manager_state::laws::changes_of_one_kind_are_taken();
    klp_manager_state::laws::what_is_logged_gives_the_rows_back();
    klp_world::laws::what_is_logged_is_of_the_world();
    match state.world.alloc_alone(key, value, &mut state.log) {
        None => Ok(BriefReply(Brief::Done)),
        Some(NotAdded::Exists) => Err(Refusal::Exists),
        Some(NotAdded::Full) => Err(Refusal::Full),
    }
}

/// Returns why a variable can't be added, whatever its value. Returns `None` if it can be added. If both `Exists` and
/// `Full` apply, returns `Exists`.
pub fn shadow_alloc_refusal(state: &ManagerState, key: ShadowKey) -> Option<Refusal>
    ensures refusal { (catalog : AnyCatalog) (value : AnyValue)
        → result ≡ refused_in state.now catalog (ShadowAlloc key value) }
    ensures room { IfNone result (finite.len state.now.world.shadow < MAX_VARIABLES) }
{
    if state.world.has(key) {
        Some(Refusal::Exists)
    } else if is_full(state) {
        Some(Refusal::Full)
    } else {
        None
    }
}

/// Returns the value of a variable. If the variable doesn't exist, first adds it with the given value
/// (`klp_shadow_get_or_alloc`). If the variable exists, the event changes nothing, and is still accepted.
pub fn shadow_get_or_alloc(
    state: &mut ManagerState,
    catalog: &Catalog,
    key: ShadowKey,
    value: ShadowValue,
) -> Result<Reply, Refusal>
    requires { Invariant state.old catalog.now }
    ensures taken { TakesEvent state.old state.new catalog.now catalog.now (ShadowGetOrAlloc key value) result }
    ensures logged { IsLogged state.old state.new result }
{
    klp_manager_state::laws::steps_keep();
    klp_manager_state::laws::changes_of_one_kind_are_taken();
    klp_manager_state::laws::what_is_logged_gives_the_rows_back();
    klp_world::laws::what_is_logged_is_of_the_world();
    if let Some(refusal) = shadow_get_or_alloc_refusal(state, key) {
        return Err(refusal);
    }
    state.log.clear();
    let there = state.world.get_or_alloc(key, value, &mut state.log);
    Ok(Reply::Value(there))
}

/// Returns `Full` if the variable doesn't exist and there is no room for it. Otherwise returns `None`. An existing
/// variable needs no room.
pub fn shadow_get_or_alloc_refusal(state: &ManagerState, key: ShadowKey) -> Option<Refusal>
    ensures refusal { (catalog : AnyCatalog) (value : AnyValue)
        → result ≡ refused_in state.now catalog (ShadowGetOrAlloc key value) }
    ensures room { IfNone result
        (variable state.now.world key ≡ None → finite.len state.now.world.shadow < MAX_VARIABLES) }
{
    if is_full(state) && !state.world.has(key) {
        Some(Refusal::Full)
    } else {
        None
    }
}

/// Removes a variable if it exists (`klp_shadow_free`). As in the kernel, removing a variable that doesn't exist is no
/// error. The reply has the number of removed variables: 0 or 1.
pub fn shadow_free(
    state: &mut ManagerState,
    catalog: &Catalog,
    key: ShadowKey,
) -> Result<BriefReply, Refusal>
    requires { Invariant state.old catalog.now }
    ensures taken { TakesEvent state.old state.new catalog.now catalog.now (ShadowFree key) result }
    ensures logged { IsLogged state.old state.new result }
{
    klp_manager_state::laws::steps_keep();
    klp_manager_state::laws::changes_of_one_kind_are_taken();
    klp_manager_state::laws::what_is_logged_gives_the_rows_back();
    klp_world::laws::what_is_logged_is_of_the_world();
    state.log.clear();
    let was_there = state.world.free(key, &mut state.log);
    Ok(BriefReply(Brief::Freed(u16::from(was_there))))
}

/// Removes all variables of this id (`klp_shadow_free_all`), whatever their parent objects. The reply has the number of
/// removed variables. The cost grows with the number of all variables.
pub fn shadow_free_all(
    state: &mut ManagerState,
    catalog: &Catalog,
    id: u64,
) -> Result<BriefReply, Refusal>
    requires { Invariant state.old catalog.now }
    ensures taken { TakesEvent state.old state.new catalog.now catalog.now (ShadowFreeAll id) result }
    ensures logged { IsLogged state.old state.new result }
{
    klp_manager_state::laws::steps_keep();
    klp_manager_state::laws::changes_of_one_kind_are_taken();
    klp_manager_state::laws::what_is_logged_gives_the_rows_back();
    klp_world::laws::what_is_logged_is_of_the_world();
    klp_world::laws::freed_and_left_are_all();
    state.log.clear();
    let freed = state.world.free_all(id, &mut state.log);
    Ok(BriefReply(Brief::Freed(freed)))
}

/// Whether no more shadow variables can be added. The limit is this project's own. In a kernel, only memory limits the
/// number of variables.
fn is_full(state: &ManagerState) -> bool
    ensures { result ≡ is_full state.now.world }
{
    usize::from(state.world.count()) >= MAX_VARIABLES
}
