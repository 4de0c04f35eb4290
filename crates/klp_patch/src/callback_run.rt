//! Running one callback. All callbacks are run by this module, so that the facts about a run are proved once.
ghost use Rattle.std.specs.Prelude.{◌≡◌};
ghost use Rattle.klp_model.specs.Callbacks.{status_of};
ghost use Rattle.klp_catalog.specs.Runs.{script_at};
ghost use Rattle.klp_patch.specs.Calls.{HaveRun, HasRoomFor};
ghost use Rattle.klp_patch.specs.Places.{call_at};

use klp_catalog::Catalog;
use klp_journal::Records;
use klp_types::{PatchId, Which};
use klp_world::World;

/// Runs a patch's callback of this kind for one of its objects. `place` is the object's index in the patch. Returns the
/// callback's status, or 0 if the patch has no such callback. The function calls the laws that every run needs, so that
/// no loop over callbacks has to call them.
pub(crate) fn run_at(
    catalog: &mut Catalog,
    patch: PatchId,
    place: u8,
    which: Which,
    world: &mut World,
    log: &mut Records,
) -> i32
    requires { HasRoomFor world.old log.old (call_at catalog.old patch place which) }
    ensures status { result ≡ status_of (script_at catalog.old patch place which) }
    ensures ran { HaveRun catalog.old catalog.new world.old world.new log.old log.new
        (call_at catalog.old patch place which) }
{
    klp_types::laws::variables_are_few();
    klp_world::laws::records_are_few();
    klp_types::laws::installed_patches_stay();
    catalog.run(patch, place, which, world, log).unwrap_or(0)
}
