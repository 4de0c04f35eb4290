//! The callbacks of a patch that is being enabled.
ghost use Rattle.std.specs.Prelude.{◌≡◌, ℕ, ◌++◌, find, option_map};
ghost use Rattle.klp_types.specs.declared.callback.Which.TheVariants.{Pre, PostUn};
ghost use Rattle.klp_types.specs.Callbacks.{script_for, calls_of, enable_calls, refuses};
ghost use Rattle.klp_types.specs.Setting.{PatchObject as ObjectOf};
ghost use Rattle.klp_model.specs.Callbacks.{status_of};
ghost use Rattle.klp_patch.specs.Calls.{HaveRun, HasRoomFor};
ghost use Rattle.klp_patch.specs.Loaded.{loaded_in};

use klp_catalog::Catalog;
use klp_journal::Records;
use klp_modules::Modules;
use klp_types::{ObjId, PatchId};
use klp_world::World;

/// Runs pre-patch object by object, and cleans up the objects before one that refuses, as [`klp_patch::run_pre_patch`]
/// does.
pub fn run_pre_patch(
    catalog: &mut Catalog,
    modules: &Modules,
    patch: PatchId,
    world: &mut World,
    log: &mut Records,
) -> Option<(ObjId, i32)>
    requires { HasRoomFor world.old log.old
        (calls_of patch Pre (loaded_in catalog.old modules.now patch) ++ calls_of patch PostUn
        (loaded_in catalog.old modules.now patch)) }
    ensures refused { result ≡ option_map (λ (o : ℕ × ObjectOf). (o.1.object, status_of (script_for Pre o.1.callbacks)))
        (find refuses (loaded_in catalog.old modules.now patch)) }
    ensures ran { HaveRun catalog.old catalog.new world.old world.new log.old log.new
        (enable_calls patch (loaded_in catalog.old modules.now patch)) }
{
    klp_patch::run_pre_patch(catalog, modules, patch, world, log)
}
