//! The callbacks of a module that is loaded (coming) or unloaded (going). They run patch by patch, oldest first, as the
//! kernel walks over `klp_patches`.
ghost use Rattle.std.specs.Prelude.{◌≡◌, ℕ, ◌+◌, ◌≤◌, find, length, take, None, Some, option_map, MatchOption};
ghost use Rattle.std.specs.List.{flat_map};
ghost use Rattle.klp_types.specs.declared.callback.Which.TheVariants.{Pre};
ghost use Rattle.klp_types.specs.declared.limits.TheConstants.{MAX_COMING_EDITS, MAX_GOING_EDITS, MAX_PATCHES};
ghost use Rattle.klp_types.specs.Callbacks.{script_for, allocs_of};
ghost use Rattle.klp_model.specs.Callbacks.{status_of};
ghost use Rattle.klp_model.specs.ModuleCalls.{Part, part_refuses, parts_before, coming_calls, going_calls};
ghost use Rattle.klp_model.specs.EventCalls.{coming_may_run, going_may_run};
ghost use Rattle.klp_patch.specs.ModuleParts.{parts_in};
ghost use Rattle.klp_patch.specs.UntilRefused.{calls_until_refused, refusal};
ghost use Rattle.klp_patch.specs.Calls.{HaveRun, HasRoomFor, records_of, are_some};

use crate::module_parts::{
    coming_allocs, going_allocs, has_coming_callback, has_going_callback, part_coming, part_going,
};
use klp_catalog::Catalog;
use klp_journal::Records;
use klp_types::{ObjId, PatchId, Transition};
use klp_world::World;

/// Returns how many shadow variables callbacks may add at most when a module is loaded. The callbacks that clean up
/// after a refusal count too.
pub fn allocs_of_coming(
    catalog: &Catalog,
    installed: &[PatchId],
    object: ObjId,
    moving: Option<Transition>,
) -> usize
    requires { length installed.now ≤ MAX_PATCHES }
    ensures value { result ≡ allocs_of (flat_map (coming_may_run moving) (parts_in catalog.now object installed.now)) }
    // from this clause a bound on the records follows
    ensures records { records_of (flat_map (coming_may_run moving) (parts_in catalog.now object installed.now))
        ≤ MAX_COMING_EDITS + result }
{
    let mut sum = 0;
    for &patch in installed {
        sum += coming_allocs(catalog, patch, object, &moving);
    }
    sum
}

/// Returns how many shadow variables callbacks may add at most when a module is unloaded.
pub fn allocs_of_going(
    catalog: &Catalog,
    installed: &[PatchId],
    object: ObjId,
    moving: Option<Transition>,
) -> usize
    requires { length installed.now ≤ MAX_PATCHES }
    ensures value { result ≡ allocs_of (flat_map (going_may_run moving) (parts_in catalog.now object installed.now)) }
    ensures records { records_of (flat_map (going_may_run moving) (parts_in catalog.now object installed.now))
        ≤ MAX_GOING_EDITS + result }
{
    let mut sum = 0;
    for &patch in installed {
        sum += going_allocs(catalog, patch, object, &moving);
    }
    sum
}

/// Whether one of these patches has a callback that may run when the module is loaded.
pub fn may_run_coming(
    catalog: &Catalog,
    installed: &[PatchId],
    object: ObjId,
    moving: Option<Transition>,
) -> bool
    ensures { result ≡ are_some (flat_map (coming_may_run moving) (parts_in catalog.now object installed.now)) }
{
    for &patch in installed {
        if has_coming_callback(catalog, patch, object, &moving) {
            return true;
        }
    }
    false
}

/// Whether one of these patches has a callback that may run when the module is unloaded.
pub fn may_run_going(
    catalog: &Catalog,
    installed: &[PatchId],
    object: ObjId,
    moving: Option<Transition>,
) -> bool
    ensures { result ≡ are_some (flat_map (going_may_run moving) (parts_in catalog.now object installed.now)) }
{
    for &patch in installed {
        if has_going_callback(catalog, patch, object, &moving) {
            return true;
        }
    }
    false
}

/// Goes over these patches. For each patch that changes the module, runs pre-unpatch unless the patch is in transition,
/// and then post-unpatch. The function is called when a module is unloaded, and to clean up after a refused load.
fn each_going(
    catalog: &mut Catalog,
    installed: &[PatchId],
    object: ObjId,
    moving: &Option<Transition>,
    world: &mut World,
    log: &mut Records,
)
    requires { HasRoomFor world.old log.old (going_calls moving.now (parts_in catalog.old object installed.now)) }
    ensures { HaveRun catalog.old catalog.new world.old world.new log.old log.new
        (going_calls moving.now (parts_in catalog.old object installed.now)) }
{
    klp_catalog::laws::runs_add_up();
    for &patch in installed {
        part_going(catalog, patch, object, moving, world, log);
    }
}

/// Goes over these patches. For each patch that changes the module, runs pre-patch, and then post-patch unless the
/// patch is in transition. If a pre-patch refuses, stops and returns three things: the index of the refusing patch in
/// `installed`, the refusing patch, and the status. From the index, the caller knows which patches to clean up.
fn each_coming(
    catalog: &mut Catalog,
    installed: &[PatchId],
    object: ObjId,
    moving: &Option<Transition>,
    world: &mut World,
    log: &mut Records,
) -> Option<(usize, PatchId, i32)>
    requires { HasRoomFor world.old log.old (calls_until_refused moving.now
        (parts_in catalog.old object installed.now)) }
    ensures refused { MatchOption result
        (find part_refuses (parts_in catalog.old object installed.now) ≡ None)
        (λ r. (r.0 ≤ length installed.now)
        × (option_map refusal (find part_refuses (parts_in catalog.old object installed.now)) ≡ Some (r.1, r.2))
        × (parts_before (parts_in catalog.old object installed.now) ≡ parts_in catalog.old object
        (take r.0 installed.now))) }
    ensures ran { HaveRun catalog.old catalog.new world.old world.new log.old log.new
        (calls_until_refused moving.now (parts_in catalog.old object installed.now)) }
{
    klp_catalog::laws::runs_add_up();
    for (end, &patch) in installed.iter().enumerate() {
        if let Some(status) = part_coming(catalog, patch, object, moving, world, log) {
            return Some((end, patch, status));
        }
    }
    None
}

/// Runs the callbacks for a module that is loaded. For each of these patches that changes the module, pre-patch runs,
/// and then post-patch unless the patch is in transition. If a pre-patch refuses, no later patch's callbacks run. The
/// patches before the refusing patch are then cleaned up, oldest first (the kernel's
/// `klp_cleanup_module_patches_limited`): pre-unpatch runs unless the patch is in transition, then post-unpatch.
/// Returns the refusing patch and its status, or `None` if no patch refused.
pub fn run_coming(
    catalog: &mut Catalog,
    installed: &[PatchId],
    object: ObjId,
    moving: Option<Transition>,
    world: &mut World,
    log: &mut Records,
) -> Option<(PatchId, i32)>
    requires few { length installed.now ≤ MAX_PATCHES }
    requires room { HasRoomFor world.old log.old
        (flat_map (coming_may_run moving) (parts_in catalog.old object installed.now)) }
    ensures refused { result ≡ option_map (λ (p : Part). (p.0, status_of (script_for Pre p.1.1.callbacks)))
        (find part_refuses (parts_in catalog.old object installed.now)) }
    ensures ran { HaveRun catalog.old catalog.new world.old world.new log.old log.new
        (coming_calls moving (parts_in catalog.old object installed.now)) }
{
    klp_catalog::laws::runs_add_up();
    let (end, patch, status) = each_coming(catalog, installed, object, &moving, world, log)?;
    each_going(catalog, &installed[..end], object, &moving, world, log);
    Some((patch, status))
}

/// Runs the callbacks for a module that is unloaded. For each of these patches that changes the module, pre-unpatch
/// runs unless the patch is in transition, then post-unpatch. None of these callbacks can refuse the unloading.
pub fn run_going(
    catalog: &mut Catalog,
    installed: &[PatchId],
    object: ObjId,
    moving: Option<Transition>,
    world: &mut World,
    log: &mut Records,
)
    requires few { length installed.now ≤ MAX_PATCHES }
    requires room { HasRoomFor world.old log.old
        (flat_map (going_may_run moving) (parts_in catalog.old object installed.now)) }
    ensures { HaveRun catalog.old catalog.new world.old world.new log.old log.new
        (going_calls moving (parts_in catalog.old object installed.now)) }
{
    each_going(catalog, installed, object, &moving, world, log);
}
