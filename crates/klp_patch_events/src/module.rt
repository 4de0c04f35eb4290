//! Loading and unloading a module (livepatch, Livepatch life-cycle; callbacks, the cases of modules).
ghost use Rattle.std.specs.Prelude.{◌≡◌, ◌+◌, ◌<◌, ◌≤◌, ◌==◌, ◌&&◌, not, nat_lt, true, false, length, reverse, is_none};
ghost use Rattle.std.specs.Prelude.{Some, None};
ghost use Rattle.std.specs.List.{All, count_by, list_any};
ghost use Rattle.klp_types.specs.declared.limits.TheConstants.{MAX_COMING_EDITS, MAX_GOING_EDITS, MAX_PATCHES};
ghost use Rattle.klp_types.specs.Callbacks.{allocs_of};
ghost use Rattle.klp_types.specs.Entries.{entries_from};
ghost use Rattle.klp_model.specs.declared.event.Event.TheVariants.{Coming, Going};
ghost use Rattle.klp_model.specs.EventCalls.{lacks_room};
ghost use Rattle.klp_model.specs.Refusals.{refusal, part_lacks_symbol};
ghost use Rattle.klp_model.specs.State.{installed_patches};
ghost use Rattle.klp_catalog.specs.Catalog.{CatalogFunction as FunctionOf, catalog_functions};
ghost use Rattle.klp_catalog.specs.States.{is_cumulative};
ghost use Rattle.klp_patch.specs.Calls.{records_of};
ghost use Rattle.klp_patch.specs.Room.{FindRoom};
ghost use Rattle.klp_manager_state.specs.Managed.{setting_in, state_in, refused_in, may_run_in, lacks_room_in};
ghost use Rattle.klp_manager_state.specs.Invariant.{Invariant};
ghost use Rattle.klp_manager_state.specs.Events.{TakesEvent, AcceptsEvent};
ghost use Rattle.klp_manager_state.specs.Rows.{rows_before, rows_now, IsLogged};

use crate::module_sites::{patch_object, unpatch_object};
use arrayvec::ArrayVec;
use klp_catalog::{Catalog, CatalogFunction};
use klp_manager_state::{Brief, BriefReply, ManagerState};
use klp_model::Refusal;
use klp_patch::{allocs_of_coming, allocs_of_going, run_coming, run_going};
use klp_types::{MAX_PATCHES, MAX_VARIABLES, ObjId, PatchId};

/// Whether a function is for this object and has no site, because it names no symbol of the object.
fn lacks_site(function: &CatalogFunction, object: ObjId) -> bool
    ensures { result ≡ (function.now.object == object && is_none function.now.site) }
{
    function.object() == object && function.site().is_none()
}

/// Whether a patch has a function for this object that names no symbol of it.
fn lacks_symbol(catalog: &Catalog, patch: PatchId, object: ObjId) -> bool
    ensures { result ≡ list_any (λ (f : FunctionOf). f.object == object && is_none f.site)
        (catalog_functions catalog.now patch) }
{
    catalog
        .functions(patch)
        .iter()
        .any(|function| lacks_site(function, object))
}

/// Whether one of these patches has a function for this object that names no symbol of it. When a patch is enabled, its
/// functions for a module that isn't loaded aren't checked. So they are checked when the module is loaded.
fn some_lacks_symbol(catalog: &Catalog, patches: &[PatchId], object: ObjId) -> bool
    ensures { result ≡ list_any (λ patch. list_any (λ (f : FunctionOf). f.object == object && is_none f.site)
        (catalog_functions catalog.now patch)) patches.now }
{
    for &patch in patches {
        if lacks_symbol(catalog, patch, object) {
            return true;
        }
    }
    false
}

/// Loads a module (the kernel's `klp_module_coming`). For each installed patch that changes the module, pre-patch runs,
/// and then post-patch unless the patch is in transition. After all callbacks, the entries are put on the module's
/// sites. A kernel puts a patch's entries on between the patch's two callbacks, but nobody can see the difference (see
/// `come`). If a pre-patch refuses, the patches before the refusing patch are cleaned up, the module isn't loaded, and
/// the reply is `PreFailed`.
pub fn coming(
    state: &mut ManagerState,
    catalog: &mut Catalog,
    object: ObjId,
) -> Result<BriefReply, Refusal>
    requires { Invariant state.old catalog.old }
    ensures taken { TakesEvent state.old state.new catalog.old catalog.new (Coming object) result }
    ensures logged { IsLogged state.old state.new result }
{
    match coming_refusal(state, catalog, object) {
        Some(refusal) => Err(refusal),
        None => Ok(come(state, catalog, object)),
    }
}

/// Unloads a module (the kernel's `klp_module_going`). For each installed patch that changes the module, pre-unpatch
/// runs unless the patch is in transition, and then post-unpatch. After all callbacks, the entries are taken out of the
/// module's sites. A kernel takes a patch's entries out between the patch's two callbacks, but nobody can see the
/// difference (see `go`).
pub fn going(
    state: &mut ManagerState,
    catalog: &mut Catalog,
    object: ObjId,
) -> Result<BriefReply, Refusal>
    requires { Invariant state.old catalog.old }
    ensures taken { TakesEvent state.old state.new catalog.old catalog.new (Going object) result }
    ensures logged { IsLogged state.old state.new result }
{
    match going_refusal(state, catalog, object) {
        Some(refusal) => Err(refusal),
        None => Ok(go(state, catalog, object)),
    }
}

/// Returns the first reason why a module can't be loaded. Returns `None` if it can be loaded. Lack of room is computed
/// before the other reasons, since its proof also bounds the records (docs/DECISIONS.md, "Room computed before the
/// refusals").
pub fn coming_refusal(state: &ManagerState, catalog: &Catalog, object: ObjId) -> Option<Refusal>
    requires { Invariant state.now catalog.now }
    ensures refusal { result ≡ refused_in state.now catalog.now (Coming object) }
    ensures records { records_of (may_run_in state.now catalog.now (Coming object))
        ≤ MAX_COMING_EDITS + allocs_of (may_run_in state.now catalog.now (Coming object)) }
{
    let lacks_symbol = part_lacks_symbol(state, catalog, object);
    let lacks_room = lacks_room_to_come(state, catalog, object);
    if !is_module(state, object) {
        Some(Refusal::NoModule)
    } else if state.sites.is_loaded(object) {
        Some(Refusal::AlreadyThere)
    } else if lacks_symbol {
        Some(Refusal::NoSymbol)
    } else if lacks_room {
        Some(Refusal::Full)
    } else {
        None
    }
}

/// Returns the first reason why a module can't be unloaded. Returns `None` if it can be unloaded. One reason is a task
/// inside of the module. A kernel counts the references to the module instead.
pub fn going_refusal(state: &ManagerState, catalog: &Catalog, object: ObjId) -> Option<Refusal>
    requires { Invariant state.now catalog.now }
    ensures refusal { result ≡ refused_in state.now catalog.now (Going object) }
    ensures records { records_of (may_run_in state.now catalog.now (Going object))
        ≤ MAX_GOING_EDITS + allocs_of (may_run_in state.now catalog.now (Going object)) }
{
    let is_in_use = state.is_in_use(catalog, object);
    let lacks_room = lacks_room_to_go(state, catalog, object);
    if !is_module(state, object) || !state.sites.is_loaded(object) {
        Some(Refusal::NoModule)
    } else if is_in_use {
        Some(Refusal::InUse)
    } else if lacks_room {
        Some(Refusal::Full)
    } else {
        None
    }
}

/// Whether the image has this object, and it isn't `vmlinux`. `vmlinux` is never loaded or unloaded.
fn is_module(state: &ManagerState, object: ObjId) -> bool
    ensures { result ≡ (not (object == 0) && nat_lt object (length state.now.sites.image.objects)) }
{
    object.0 != 0 && object.0 < state.sites.image().objects()
}

/// Whether an installed patch has a function for the module that names no symbol of it.
fn part_lacks_symbol(state: &ManagerState, catalog: &Catalog, object: ObjId) -> bool
    ensures { result
        ≡ part_lacks_symbol (setting_in state.now catalog.now) (state_in state.now catalog.now) object }
{
    some_lacks_symbol(catalog, state.world.installed(), object)
}

/// Whether there is no room for the variables that the callbacks may add when the module is loaded.
fn lacks_room_to_come(state: &ManagerState, catalog: &Catalog, object: ObjId) -> bool
    ensures room { result ≡ lacks_room_in state.now catalog.now (Coming object) }
    ensures records { records_of (may_run_in state.now catalog.now (Coming object))
        ≤ MAX_COMING_EDITS + allocs_of (may_run_in state.now catalog.now (Coming object)) }
{
    let added = allocs_of_coming(catalog, state.world.installed(), object, state.moving);
    added > MAX_VARIABLES - usize::from(state.world.count())
}

/// Whether there is no room for the variables that the callbacks may add when the module is unloaded.
fn lacks_room_to_go(state: &ManagerState, catalog: &Catalog, object: ObjId) -> bool
    ensures room { result ≡ lacks_room_in state.now catalog.now (Going object) }
    ensures records { records_of (may_run_in state.now catalog.now (Going object))
        ≤ MAX_GOING_EDITS + allocs_of (may_run_in state.now catalog.now (Going object)) }
{
    let added = allocs_of_going(catalog, state.world.installed(), object, state.moving);
    added > MAX_VARIABLES - usize::from(state.world.count())
}

/// Returns a copy of the list of installed patches, oldest first. Callbacks get the world by `&mut`, so the world's own
/// list can't be borrowed while they run.
fn installed_patches(state: &ManagerState, catalog: &Catalog) -> ArrayVec<PatchId, MAX_PATCHES>
    requires { Invariant state.now catalog.now }
    ensures value { result.items ≡ installed_patches (state_in state.now catalog.now) }
    ensures few { length result.items ≤ MAX_PATCHES }
    ensures numbers { All (λ p. p < MAX_PATCHES) result.items }
    ensures replace { count_by (is_cumulative catalog.now) result.items ≤ 2 }
    // for all sites together, the entries of all these patches fit
    ensures fit { FindRoom (λ site. entries_from (setting_in state.now catalog.now) site
        (reverse (installed_patches (state_in state.now catalog.now)))) (length state.now.sites.stacks) }
{
    klp_model::laws::at_most_two_patches_replace();
    // called for their contracts, from which the number of entries is bounded
    let _patches = catalog.patches();
    let _sites = state.sites.sites();
    state.world.installed_list()
}

/// Loads a module. The caller has checked that nothing refuses the event. All callbacks run before the entries are put
/// on the module's sites, so a refused module gets no entry. Nobody can see that the entries are put on last, since
/// callbacks see no function stack, and an event is one step (docs/DECISIONS.md, "Callbacks of a module before its
/// entries").
fn come(state: &mut ManagerState, catalog: &mut Catalog, object: ObjId) -> BriefReply
    requires kept { Invariant state.old catalog.old }
    requires free { refused_in state.old catalog.old (Coming object) ≡ None }
    requires records { records_of (may_run_in state.old catalog.old (Coming object))
        ≤ MAX_COMING_EDITS + allocs_of (may_run_in state.old catalog.old (Coming object)) }
    ensures accepted { AcceptsEvent state.old state.new catalog.old catalog.new (Coming object) result }
    ensures logged { rows_before state.new ≡ rows_now state.old }
{
    klp_manager_state::laws::steps_keep();
    let installed = installed_patches(state, catalog);
    state.log.clear();
    match run_coming(
        catalog,
        &installed,
        object,
        state.moving,
        &mut state.world,
        &mut state.log,
    ) {
        Some((patch, status)) => BriefReply(Brief::PreFailed(patch, object, status)),
        None => {
            state.log.note(state.sites.load(object));
            // only the sites log the loaded flag: from that one record, undo restores the flag of the sites and the
            // flag of the names
            state.modules.set_loaded(object, true);
            patch_object(
                &mut state.sites,
                catalog,
                &installed,
                object,
                &mut state.log,
            );
            BriefReply(Brief::Done)
        }
    }
}

/// Unloads a module. The caller has checked that nothing refuses the event. As when a module is loaded, all callbacks
/// run before the entries change. The loaded flag changes last, so that undo restores the flag before the entries.
fn go(state: &mut ManagerState, catalog: &mut Catalog, object: ObjId) -> BriefReply
    requires kept { Invariant state.old catalog.old }
    requires free { refused_in state.old catalog.old (Going object) ≡ None }
    requires records { records_of (may_run_in state.old catalog.old (Going object))
        ≤ MAX_GOING_EDITS + allocs_of (may_run_in state.old catalog.old (Going object)) }
    ensures accepted { AcceptsEvent state.old state.new catalog.old catalog.new (Going object) result }
    ensures logged { rows_before state.new ≡ rows_now state.old }
{
    klp_manager_state::laws::steps_keep();
    let installed = installed_patches(state, catalog);
    state.log.clear();
    run_going(
        catalog,
        &installed,
        object,
        state.moving,
        &mut state.world,
        &mut state.log,
    );
    unpatch_object(
        &mut state.sites,
        catalog,
        &installed,
        object,
        &mut state.log,
    );
    state.log.note(state.sites.unload(object));
    state.modules.set_loaded(object, false);
    BriefReply(Brief::Done)
}
