//! The callbacks of one patch for a module that is loaded (coming) or unloaded (going).
//!
//! `moving` is passed by reference, since it is read for each callback.
ghost use Rattle.std.specs.Prelude.{◌≡◌, ◌+◌, ◌*◌, ◌≤◌, [], find, option_map, is_some, true};
ghost use Rattle.std.specs.List.{flat_map};
ghost use Rattle.klp_types.specs.declared.limits.TheConstants.{MAX_EDITS};
ghost use Rattle.klp_types.specs.declared.callback.Which.TheVariants.{Pre};
ghost use Rattle.klp_types.specs.Callbacks.{allocs_of};
ghost use Rattle.klp_model.specs.Callbacks.{status_of};
ghost use Rattle.klp_model.specs.ModuleCalls.{part_refuses, parts_before, going_calls};
ghost use Rattle.klp_model.specs.EventCalls.{coming_may_run, going_may_run};
ghost use Rattle.klp_catalog.specs.Runs.{script_at};
ghost use Rattle.klp_patch.specs.Refusing.{refusal_of};
ghost use Rattle.klp_patch.specs.Places as places;
ghost use Rattle.klp_patch.specs.Places.{call_at, call_unless_moving};
ghost use Rattle.klp_patch.specs.ModuleParts.{parts_at};
ghost use Rattle.klp_patch.specs.UntilRefused.{calls_until_refused, refusal};
ghost use Rattle.klp_patch.specs.Calls.{HaveRun, HasRoomFor, records_of, are_some};

use crate::callback_run::run_at;
use klp_catalog::Catalog;
use klp_journal::Records;
use klp_types::{ObjId, PatchId, Transition, Which, is_in_transition};
use klp_world::World;

/// Returns how many shadow variables one callback adds at most. Returns 0 if the patch has no such callback.
fn allocs_at(catalog: &Catalog, patch: PatchId, place: u8, which: Which) -> usize
    ensures value { result ≡ allocs_of (call_at catalog.now patch place which) }
    ensures limit { result ≤ MAX_EDITS }
    ensures records { records_of (call_at catalog.now patch place which) ≤ MAX_EDITS + result }
{
    usize::from(catalog.allocs(patch, place, which))
}

/// Like `allocs_at`, but returns 0 if the patch is in transition. The function is for callbacks that don't run while
/// their patch is in transition.
fn allocs_unless_moving(
    catalog: &Catalog,
    patch: PatchId,
    place: u8,
    which: Which,
    moving: &Option<Transition>,
) -> usize
    ensures value { result ≡ allocs_of (call_unless_moving moving.now catalog.now patch place which) }
    ensures limit { result ≤ MAX_EDITS }
    ensures records { records_of (call_unless_moving moving.now catalog.now patch place which) ≤ MAX_EDITS + result }
{
    if is_in_transition(moving, patch) {
        0
    } else {
        allocs_at(catalog, patch, place, which)
    }
}

/// Returns how many shadow variables the patch's callbacks may add at most when the module is loaded. Callbacks of all
/// four kinds count, since if a later patch refuses, this patch is cleaned up.
pub(crate) fn coming_allocs(
    catalog: &Catalog,
    patch: PatchId,
    object: ObjId,
    moving: &Option<Transition>,
) -> usize
    ensures value { result ≡ allocs_of (flat_map (coming_may_run moving.now) (parts_at catalog.now object patch)) }
    ensures limit { result ≤ 4 * MAX_EDITS }
    ensures records { records_of (flat_map (coming_may_run moving.now) (parts_at catalog.now object patch))
        ≤ 4 * MAX_EDITS + result }
{
    match catalog.place(patch, object) {
        Some(place) => {
            let comes = allocs_at(catalog, patch, place, Which::Pre);
            let goes = allocs_at(catalog, patch, place, Which::PostUn);
            let came = allocs_unless_moving(catalog, patch, place, Which::Post, moving);
            let leaves = allocs_unless_moving(catalog, patch, place, Which::PreUn, moving);
            comes + goes + came + leaves
        }
        None => 0,
    }
}

/// Returns how many shadow variables the patch's callbacks may add at most when the module is unloaded. Only
/// pre-unpatch and post-unpatch run then.
pub(crate) fn going_allocs(
    catalog: &Catalog,
    patch: PatchId,
    object: ObjId,
    moving: &Option<Transition>,
) -> usize
    ensures value { result ≡ allocs_of (flat_map (going_may_run moving.now) (parts_at catalog.now object patch)) }
    ensures limit { result ≤ 2 * MAX_EDITS }
    ensures records { records_of (flat_map (going_may_run moving.now) (parts_at catalog.now object patch))
        ≤ 2 * MAX_EDITS + result }
{
    match catalog.place(patch, object) {
        Some(place) => {
            allocs_at(catalog, patch, place, Which::PostUn)
                + allocs_unless_moving(catalog, patch, place, Which::PreUn, moving)
        }
        None => 0,
    }
}

/// Whether the patch has this callback and isn't in transition. The function is for callbacks that don't run while
/// their patch is in transition.
fn has_unless_moving(
    catalog: &Catalog,
    patch: PatchId,
    place: u8,
    which: Which,
    moving: &Option<Transition>,
) -> bool
    ensures { result ≡ are_some (call_unless_moving moving.now catalog.now patch place which) }
{
    !is_in_transition(moving, patch) && catalog.has_callback(patch, place, which)
}

/// Whether the patch has a callback that may run when the module is loaded.
pub(crate) fn has_coming_callback(
    catalog: &Catalog,
    patch: PatchId,
    object: ObjId,
    moving: &Option<Transition>,
) -> bool
    ensures { result ≡ are_some (flat_map (coming_may_run moving.now) (parts_at catalog.now object patch)) }
{
    match catalog.place(patch, object) {
        Some(place) => {
            let comes = catalog.has_callback(patch, place, Which::Pre);
            let goes = catalog.has_callback(patch, place, Which::PostUn);
            let came = has_unless_moving(catalog, patch, place, Which::Post, moving);
            let leaves = has_unless_moving(catalog, patch, place, Which::PreUn, moving);
            comes | goes | came | leaves
        }
        None => false,
    }
}

/// Whether the patch has a callback that may run when the module is unloaded.
pub(crate) fn has_going_callback(
    catalog: &Catalog,
    patch: PatchId,
    object: ObjId,
    moving: &Option<Transition>,
) -> bool
    ensures { result ≡ are_some (flat_map (going_may_run moving.now) (parts_at catalog.now object patch)) }
{
    match catalog.place(patch, object) {
        Some(place) => {
            let goes = catalog.has_callback(patch, place, Which::PostUn);
            let leaves = has_unless_moving(catalog, patch, place, Which::PreUn, moving);
            goes | leaves
        }
        None => false,
    }
}

/// Runs a callback unless its patch is in transition. Drops the status, since only pre-patch may refuse.
fn run_unless_moving(
    catalog: &mut Catalog,
    patch: PatchId,
    place: u8,
    which: Which,
    moving: &Option<Transition>,
    world: &mut World,
    log: &mut Records,
)
    requires { HasRoomFor world.old log.old (call_unless_moving moving.now catalog.old patch place which) }
    ensures { HaveRun catalog.old catalog.new world.old world.new log.old log.new
        (call_unless_moving moving.now catalog.old patch place which) }
{
    if !is_in_transition(moving, patch) {
        run_at(catalog, patch, place, which, world, log);
    }
}

/// Runs pre-patch for the object at this place. If pre-patch refuses, returns its status, which isn't 0.
fn run_pre_at(
    catalog: &mut Catalog,
    patch: PatchId,
    place: u8,
    world: &mut World,
    log: &mut Records,
) -> Option<i32>
    requires { HasRoomFor world.old log.old (call_at catalog.old patch place Pre) }
    ensures refused { result ≡ refusal_of (status_of (script_at catalog.old patch place Pre)) }
    ensures ran { HaveRun catalog.old catalog.new world.old world.new log.old log.new
        (call_at catalog.old patch place Pre) }
{
    match run_at(catalog, patch, place, Which::Pre, world, log) {
        0 => None,
        status => Some(status),
    }
}

/// Runs pre-patch for the object at this place, and then post-patch unless the patch is in transition. If pre-patch
/// refuses, returns its status, and post-patch doesn't run.
fn coming_at(
    catalog: &mut Catalog,
    patch: PatchId,
    place: u8,
    moving: &Option<Transition>,
    world: &mut World,
    log: &mut Records,
) -> Option<i32>
    requires { HasRoomFor world.old log.old (places.coming_at moving.now catalog.old patch place) }
    ensures status { result ≡ refusal_of (status_of (script_at catalog.old patch place Pre)) }
    ensures ran { HaveRun catalog.old catalog.new world.old world.new log.old log.new
        (places.coming_at moving.now catalog.old patch place) }
{
    klp_catalog::laws::runs_add_up();
    match run_pre_at(catalog, patch, place, world, log) {
        None => {
            run_unless_moving(catalog, patch, place, Which::Post, moving, world, log);
            None
        }
        Some(status) => Some(status),
    }
}

/// Runs one patch's callbacks for a module that is loaded, if the patch changes the module: pre-patch, and then
/// post-patch unless the patch is in transition. If pre-patch refuses, returns its status.
pub(crate) fn part_coming(
    catalog: &mut Catalog,
    patch: PatchId,
    object: ObjId,
    moving: &Option<Transition>,
    world: &mut World,
    log: &mut Records,
) -> Option<i32>
    requires { HasRoomFor world.old log.old (calls_until_refused moving.now (parts_at catalog.old object patch)) }
    ensures refused { option_map (λ status. (patch, status)) result
        ≡ option_map refusal (find part_refuses (parts_at catalog.old object patch)) }
    // the patch has the module only once, so no callback of the patch has run before the one that refuses
    ensures first { is_some result ≡ true → parts_before (parts_at catalog.old object patch) ≡ [] }
    ensures ran { HaveRun catalog.old catalog.new world.old world.new log.old log.new
        (calls_until_refused moving.now (parts_at catalog.old object patch)) }
{
    let place = catalog.place(patch, object)?;
    coming_at(catalog, patch, place, moving, world, log)
}

/// Runs the callbacks of unloading for the object at this place: pre-unpatch unless the patch is in transition, then
/// post-unpatch. If the patch is in transition, either its pre-unpatch has already run, or its post-patch never ran.
fn going_at(
    catalog: &mut Catalog,
    patch: PatchId,
    place: u8,
    moving: &Option<Transition>,
    world: &mut World,
    log: &mut Records,
)
    requires { HasRoomFor world.old log.old (places.going_at moving.now catalog.old patch place) }
    ensures { HaveRun catalog.old catalog.new world.old world.new log.old log.new
        (places.going_at moving.now catalog.old patch place) }
{
    klp_catalog::laws::runs_add_up();
    run_unless_moving(catalog, patch, place, Which::PreUn, moving, world, log);
    run_at(catalog, patch, place, Which::PostUn, world, log);
}

/// Runs one patch's callbacks for a module that is unloaded, if the patch changes the module: pre-unpatch unless the
/// patch is in transition, then post-unpatch.
pub(crate) fn part_going(
    catalog: &mut Catalog,
    patch: PatchId,
    object: ObjId,
    moving: &Option<Transition>,
    world: &mut World,
    log: &mut Records,
)
    requires { HasRoomFor world.old log.old (going_calls moving.now (parts_at catalog.old object patch)) }
    ensures { HaveRun catalog.old catalog.new world.old world.new log.old log.new
        (going_calls moving.now (parts_at catalog.old object patch)) }
{
    if let Some(place) = catalog.place(patch, object) {
        going_at(catalog, patch, place, moving, world, log);
    }
}
