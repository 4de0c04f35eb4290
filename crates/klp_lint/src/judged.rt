//! Whether the premises of the round trip hold for a patch. They are judged in the state of a manager, or in every
//! world that has none of the variables that the patch's callbacks touch.
ghost use Rattle.std.specs.Prelude.{◌≡◌, slice_get, IfOk, IfErr};
ghost use Rattle.klp_catalog.specs.Catalog.{targets_of_patch};
ghost use Rattle.klp_manager_state.specs.Managed.{setting_of};
ghost use Rattle.klp_model.specs.Company.{AreApart};
ghost use Rattle.klp_lint.specs.Acting.{acting};
ghost use Rattle.klp_types.specs.World.{variable};
ghost use Rattle.klp_lint.specs.Undone.{EachRestores};
ghost use Rattle.klp_lint.specs.Premises.{ArePatchesOf, FailsOf, Judges, JudgesEverywhere};

use crate::objects::{first_common, first_left};
use crate::premise::{Premise, premise_of};
use crate::there::There;
use crate::variables::{Nowhere, Variables};
use klp_catalog_text::{PlanPatch, PlanTarget};
use klp_core::Manager;
use klp_modules::Modules;
use klp_types::PatchId;

/// Returns the targets of a patch. The result is empty if there is no such patch.
fn targets_of(patches: &[PlanPatch], patch: PatchId) -> &[PlanTarget]
    ensures { result.now ≡ targets_of_patch (slice_get patches.now patch) }
{
    match patches.get(usize::from(patch.0)) {
        Some(found) => &found.targets,
        None => &[],
    }
}

/// Whether the premises hold for the loaded objects among these targets. If a premise fails, `Err` has it.
fn judge<V: Variables>(
    variables: &V,
    modules: &Modules,
    targets: &[PlanTarget],
) -> Result<(), Premise>
    ensures undone { IfOk result (λ _. EachRestores (V.values variables.now) (acting modules.now 0 targets.now)) }
    ensures apart { IfOk result (λ _. AreApart (acting modules.now 0 targets.now)) }
    ensures err { IfErr result
        (λ premise. FailsOf (V.values variables.now) (acting modules.now 0 targets.now) premise) }
{
    match first_left(variables, modules, 0, targets) {
        Some((place, left)) => Err(premise_of(place, left)),
        None => match first_common(modules, 0, targets) {
            Some((first, second, key)) => Err(Premise::NotApart { first, second, key }),
            None => Ok(()),
        },
    }
}

/// Whether enabling this patch now, and withdrawing it later, would leave no trace: `Ok` if the patch is at a fair start
/// of the round trip (docs/ROUND_TRIP.md), or else `Err` with a premise that fails.
///
/// `patches` are those of the plan with which the manager was booted. They are needed because a manager doesn't show
/// the scripts of its callbacks.
pub fn leaves_no_trace(
    manager: &Manager,
    patches: &[PlanPatch],
    patch: PatchId,
) -> Result<(), Premise>
    ensures { ArePatchesOf (setting_of manager.now.managed) patches.now
        → Judges (setting_of manager.now.managed) patch manager.now.managed.state result }
{
    klp_types::laws::edits_go_key_by_key();
    if manager.moving().is_some() {
        return Err(Premise::Moving);
    }
    if manager.enabled(patch).is_some() {
        return Err(Premise::Installed);
    }
    judge(
        &There(manager),
        manager.modules(),
        targets_of(patches, patch),
    )
}

/// Whether two premises hold in each world that has none of the variables that a patch's callbacks touch. One premise
/// is that the callbacks of each object undo each other. The other is that no variable is touched by the callbacks of
/// two objects. Only the objects that are loaded now count. If a premise fails, `Err` has it.
pub fn holds_everywhere(
    manager: &Manager,
    patches: &[PlanPatch],
    patch: PatchId,
) -> Result<(), Premise>
    ensures { ArePatchesOf (setting_of manager.now.managed) patches.now
        → JudgesEverywhere (setting_of manager.now.managed) patch manager.now.managed.state result }
{
    klp_types::laws::edits_go_key_by_key();
    judge(&Nowhere, manager.modules(), targets_of(patches, patch))
}
