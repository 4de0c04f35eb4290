//! The callbacks of a patch, object by object, in the order of the patch's objects.
ghost use Rattle.std.specs.Prelude.{◌≡◌, ℕ, ◌*◌, ◌≤◌, ◌++◌, length, slice_get, find, None, Some, option_map};
ghost use Rattle.std.specs.Prelude.{MatchOption};
ghost use Rattle.klp_types.specs.declared.limits.TheConstants.{MAX_CALLBACK_RECORDS, MAX_EDITS, MAX_KIND_RECORDS};
ghost use Rattle.klp_types.specs.declared.limits.TheConstants.{MAX_TARGETS};
ghost use Rattle.klp_types.specs.declared.callback.Which.TheVariants.{Pre, PostUn};
ghost use Rattle.klp_types.specs.Setting.{PatchObject as ObjectOf};
ghost use Rattle.klp_types.specs.Callbacks.{script_for, calls_of, enable_calls, refuses, allocs_of};
ghost use Rattle.klp_model.specs.Callbacks.{status_of};
ghost use Rattle.klp_catalog.specs.Runs.{objects_at};
ghost use Rattle.klp_patch.specs.Loaded.{loaded_in};
ghost use Rattle.klp_patch.specs.Refusing.{loaded_calls, loaded_call, loaded_status, pre_calls};
ghost use Rattle.klp_patch.specs.Calls.{HaveRun, HasRoomFor, records_of, are_some};

use crate::callback_run::run_at;
use klp_catalog::Catalog;
use klp_journal::Records;
use klp_modules::Modules;
use klp_types::{ObjId, PatchId, Which};
use klp_world::World;

/// Returns how many shadow variables the callback of one object adds at most. Returns 0 if the object isn't loaded,
/// since its callbacks run only when the object is loaded.
fn allocs_where_loaded(
    catalog: &Catalog,
    modules: &Modules,
    patch: PatchId,
    which: Which,
    place: u8,
) -> u16
    ensures value { result ≡ allocs_of (loaded_call catalog.now modules.now patch which place) }
    ensures limit { result ≤ MAX_EDITS }
    ensures records { records_of (loaded_call catalog.now modules.now patch which place) ≤ MAX_CALLBACK_RECORDS }
{
    match catalog.target(patch, place) {
        Some(object) if modules.is_loaded(object) => catalog.allocs(patch, place, which),
        _ => 0,
    }
}

/// Sums up how many shadow variables the callbacks of one kind add at most, object by object.
fn sum_allocs(catalog: &Catalog, modules: &Modules, patch: PatchId, which: Which) -> usize
    ensures value { result ≡ allocs_of (calls_of patch which (loaded_in catalog.now modules.now patch)) }
    ensures limit { result ≤ MAX_TARGETS * MAX_EDITS }
    // from this clause a bound on the records follows
    ensures records { records_of (calls_of patch which (loaded_in catalog.now modules.now patch)) ≤ MAX_KIND_RECORDS }
{
    let mut sum = 0;
    for place in 0..catalog.target_len(patch) {
        sum += usize::from(allocs_where_loaded(catalog, modules, patch, which, place));
    }
    sum
}

/// Returns how many shadow variables the callbacks of one kind add at most, for the loaded objects of a patch.
/// Variables that exist already, or that the callbacks remove, aren't subtracted.
#[inline(always)]
pub fn allocs(catalog: &Catalog, modules: &Modules, patch: PatchId, which: Which) -> usize
    ensures value { result ≡ allocs_of (calls_of patch which (loaded_in catalog.now modules.now patch)) }
    ensures limit { result ≤ MAX_TARGETS * MAX_EDITS }
    // from this clause a bound on the records follows
    ensures records { records_of (calls_of patch which (loaded_in catalog.now modules.now patch)) ≤ MAX_KIND_RECORDS }
{
    // Most patches have no callbacks. Each event that may run some needs this number, so it is found without the loop.
    if !catalog.has_callbacks(patch) {
        return 0;
    }
    sum_allocs(catalog, modules, patch, which)
}

/// Whether one object is loaded and has a callback of this kind.
fn has_callback_where_loaded(
    catalog: &Catalog,
    modules: &Modules,
    patch: PatchId,
    which: Which,
    place: u8,
) -> bool
    ensures { result ≡ are_some (loaded_call catalog.now modules.now patch which place) }
{
    match catalog.target(patch, place) {
        Some(object) if modules.is_loaded(object) => catalog.has_callback(patch, place, which),
        _ => false,
    }
}

/// Whether one of a patch's loaded objects has a callback of this kind.
pub fn has_callbacks(catalog: &Catalog, modules: &Modules, patch: PatchId, which: Which) -> bool
    ensures { result ≡ are_some (calls_of patch which (loaded_in catalog.now modules.now patch)) }
{
    for place in 0..catalog.target_len(patch) {
        if has_callback_where_loaded(catalog, modules, patch, which, place) {
            return true;
        }
    }
    false
}

/// Runs the callback of one object if the object is loaded. Returns the callback's status. If no callback ran, returns
/// 0, since nothing refused.
fn run_where_loaded(
    catalog: &mut Catalog,
    modules: &Modules,
    patch: PatchId,
    which: Which,
    place: u8,
    world: &mut World,
    log: &mut Records,
) -> i32
    requires { HasRoomFor world.old log.old (loaded_call catalog.old modules.now patch which place) }
    ensures status { result ≡ loaded_status catalog.old modules.now patch which place }
    ensures ran { HaveRun catalog.old catalog.new world.old world.new log.old log.new
        (loaded_call catalog.old modules.now patch which place) }
{
    match catalog.target(patch, place) {
        Some(object) if modules.is_loaded(object) => {
            run_at(catalog, patch, place, which, world, log)
        }
        _ => 0,
    }
}

/// Runs the callbacks of one kind, in order, for the loaded objects among the patch's first `end` objects. To clean up,
/// the caller passes the place of the refusing object as `end`.
fn run_first(
    catalog: &mut Catalog,
    modules: &Modules,
    patch: PatchId,
    which: Which,
    end: u8,
    world: &mut World,
    log: &mut Records,
)
    requires end { end ≤ length (objects_at catalog.old patch) }
    requires room { HasRoomFor world.old log.old (loaded_calls catalog.old modules.now patch which end) }
    ensures { HaveRun catalog.old catalog.new world.old world.new log.old log.new
        (loaded_calls catalog.old modules.now patch which end) }
{
    klp_catalog::laws::runs_add_up();
    for place in 0..end {
        run_where_loaded(catalog, modules, patch, which, place, world, log);
    }
}

/// Runs the callbacks of one kind for the loaded objects of a patch, in order. Drops their statuses, since only
/// pre-patch may refuse. In the kernel, all other callbacks return nothing.
pub fn run_callbacks(
    catalog: &mut Catalog,
    modules: &Modules,
    patch: PatchId,
    which: Which,
    world: &mut World,
    log: &mut Records,
)
    requires room { HasRoomFor world.old log.old (calls_of patch which (loaded_in catalog.old modules.now patch)) }
    ensures { HaveRun catalog.old catalog.new world.old world.new log.old log.new
        (calls_of patch which (loaded_in catalog.old modules.now patch)) }
{
    let end = catalog.target_len(patch);
    run_first(catalog, modules, patch, which, end, world, log);
}

/// Runs pre-patch object by object, up to and including the first object that refuses. Returns the refusing object's
/// place and its status. Returns `None` if no object refused. The caller must clean up the objects before the returned
/// place.
fn pre_patch(
    catalog: &mut Catalog,
    modules: &Modules,
    patch: PatchId,
    world: &mut World,
    log: &mut Records,
) -> Option<(u8, i32)>
    requires { HasRoomFor world.old log.old (pre_calls patch (loaded_in catalog.old modules.now patch)) }
    ensures refused { MatchOption result
        (find refuses (loaded_in catalog.old modules.now patch) ≡ None)
        (λ r. (o : ObjectOf) × (slice_get (objects_at catalog.old patch) r.0 ≡ Some o)
        × (r.1 ≡ status_of (script_for Pre o.callbacks))
        × (find refuses (loaded_in catalog.old modules.now patch) ≡ Some (r.0, o))) }
    ensures ran { HaveRun catalog.old catalog.new world.old world.new log.old log.new
        (pre_calls patch (loaded_in catalog.old modules.now patch)) }
{
    klp_catalog::laws::runs_add_up();
    for place in 0..catalog.target_len(patch) {
        let status = run_where_loaded(catalog, modules, patch, Which::Pre, place, world, log);
        // status 0 is no refusal
        if status != 0 {
            return Some((place, status));
        }
    }
    None
}

/// Runs pre-patch object by object, up to and including the first object that refuses. If an object refuses, runs
/// post-unpatch for the objects before it, which cleans up the effects of their pre-patch. Then returns the refusing
/// object with its status. The callback that refuses has to clean up after itself.
pub fn run_pre_patch(
    catalog: &mut Catalog,
    modules: &Modules,
    patch: PatchId,
    world: &mut World,
    log: &mut Records,
) -> Option<(ObjId, i32)>
    requires { HasRoomFor world.old log.old
        (calls_of patch Pre (loaded_in catalog.old modules.now patch) ++ calls_of patch PostUn
        (loaded_in catalog.old modules.now patch)) }
    ensures refused { result ≡ option_map (λ (o : ℕ × ObjectOf). (o.1.object, status_of (script_for Pre o.1.callbacks)))
        (find refuses (loaded_in catalog.old modules.now patch)) }
    ensures ran { HaveRun catalog.old catalog.new world.old world.new log.old log.new
        (enable_calls patch (loaded_in catalog.old modules.now patch)) }
{
    klp_catalog::laws::runs_add_up();
    let (place, status) = pre_patch(catalog, modules, patch, world, log)?;
    let object = catalog.target(patch, place).unwrap();
    run_first(catalog, modules, patch, Which::PostUn, place, world, log);
    Some((object, status))
}
