//! Finds what in a patch is near a limit, and whether a patch is just like another one.
ghost use Rattle.std.specs.Prelude.{IfOk, IfSome};
ghost use Rattle.klp_lint_findings.specs.Saying.{Adds};
ghost use Rattle.klp_lint_alone.specs.Judged.{IsPartOf};

use klp_catalog_text::{PlanCallback, PlanFunction, PlanPatch, PlanTarget};
use klp_lint_findings::{
    Finding, Findings, Linted, PartFinding, count_added, count_all_added, is_assumed, patch_id,
};
use klp_modules::place_in;
use klp_text::{displacement, entry_offset};
use klp_types::{MAX_VARIABLES, ObjectText, PatchId, SymbolText, Which};
use std::alloc::AllocError;

/// The distance that a call reaches: 2 GiB.
const REACH: u128 = 0x8000_0000;

/// A call is reported if it is less than this distance from the end of its reach: 1 MiB.
const NEAR: u128 = 0x10_0000;

/// The symbol that a function replaces. `None` if the function's name and position pick no symbol.
fn picked<'a>(object: &'a ObjectText, function: &PlanFunction) -> Option<&'a SymbolText> {
    let place = place_in(object, function.symbol.as_str(), function.sympos).ok()?;
    object.symbols.get(place)
}

/// How many bytes are left between the call at a symbol's entry site and the end of the call's reach.
fn left_at(handler: u64, symbol: &SymbolText) -> u128 {
    let offset = entry_offset(symbol.body.as_slice());
    let distance = displacement(handler, u128::from(symbol.address) + offset as u128);
    REACH.saturating_sub(distance.unsigned_abs())
}

/// How many bytes are left at the symbol of a target's function. `None` if they are enough, if the function picks no
/// symbol, or if a mark says that the object's symbols are made up.
fn little_left(linted: &Linted<'_>, target: &PlanTarget, function: usize) -> Option<u128> {
    let number = usize::from(target.object.0);
    let object = linted.objects.get(number)?;
    let own = target.functions.as_slice().get(function)?;
    let symbol = picked(object, own)?;
    let left = left_at(linted.handler, symbol);
    if left < NEAR && !is_assumed(linted.marks, number) {
        Some(left)
    } else {
        None
    }
}

/// The finding about a target's function at whose symbol little is left. `None` if enough is left.
fn near_limit(
    linted: &Linted<'_>,
    target: &PlanTarget,
    patch: PatchId,
    place: usize,
    function: usize,
) -> Option<Finding>
    ensures { IfSome result (IsPartOf patch) }
{
    let near = PartFinding::NearLimit {
        place,
        function,
        left: little_left(linted, target, function)?,
    };
    Some(Finding::Part(patch, near))
}

/// Adds each function of a patch at whose symbol the call of the handler is near the end of its reach.
pub fn find_near(found: &mut Findings<'_>, patch: PatchId) -> Result<(), AllocError>
    ensures { IfOk result (λ done. Adds (IsPartOf patch) found.old found.new) }
{
    let linted = found.linted;
    let Some(own) = linted.patch(patch) else {
        return Ok(());
    };
    for (place, target) in own.targets.iter().enumerate() {
        for function in 0..target.functions.len() {
            found.add_some(near_limit(&linted, target, patch, place, function))?;
        }
    }
    Ok(())
}

/// How many shadow variables must have room when a patch is enabled.
fn count_wanted(patch: &PlanPatch) -> usize {
    let mut count = 0usize;
    for target in patch.targets.iter() {
        for callback in target.callbacks.iter() {
            if callback.which == Which::Pre || callback.which == Which::PostUn {
                count = count.saturating_add(count_added(callback));
            }
        }
    }
    count
}

/// The finding that callbacks of a patch may find no room for their variables. This may happen if the variables that all
/// callbacks of the catalog add don't fit together. `None` if they fit, or if the patch needs no room.
pub fn room(linted: &Linted<'_>, patch: PatchId) -> Option<Finding>
    ensures { IfSome result (IsPartOf patch) }
{
    let own = linted.patch(patch)?;
    let mut all = 0usize;
    for it in linted.patches {
        all = all.saturating_add(count_all_added(it));
    }
    let wanted = count_wanted(own);
    if wanted == 0 || all <= MAX_VARIABLES {
        return None;
    }
    Some(Finding::Part(patch, PartFinding::Room { own: wanted, all }))
}

/// Whether two functions have the same symbol and position, as the catalog spells them.
fn is_same_function(one: &PlanFunction, other: &PlanFunction) -> bool {
    one.symbol.as_str() == other.symbol.as_str() && one.sympos == other.sympos
}

/// Whether two callbacks have the same kind, status and edits.
fn is_same_callback(one: &PlanCallback, other: &PlanCallback) -> bool {
    one.which == other.which
        && one.script.status == other.script.status
        && one.script.edits.as_slice() == other.script.edits.as_slice()
}

/// Whether two targets have the same object, functions and callbacks, in any order.
fn is_same_target(one: &PlanTarget, other: &PlanTarget) -> bool {
    one.object == other.object
        && one.functions.len() == other.functions.len()
        && one.functions.iter().all(|own| other
            .functions
            .iter()
            .any(|it| is_same_function(own, it)))
        && one.callbacks.len() == other.callbacks.len()
        && one.callbacks.iter().all(|own| other
            .callbacks
            .iter()
            .any(|it| is_same_callback(own, it)))
}

/// Whether two patches are equal in all but their names and their new functions.
fn is_alike(one: &PlanPatch, other: &PlanPatch) -> bool {
    one.replace == other.replace
        && one.targets.len() == other.targets.len()
        && one.targets.iter().all(|own| other.targets.iter().any(|it| is_same_target(own, it)))
        && one.states.len() == other.states.len()
        && one.states.iter().all(|own| {
            other
                .states
                .iter()
                .any(|it| it.id == own.id && it.version == own.version)
        })
}

/// The finding that an older patch is just like this one, about the first such patch. `None` if there is none.
pub fn alike(linted: &Linted<'_>, patch: PatchId) -> Option<Finding>
    ensures { IfSome result (IsPartOf patch) }
{
    let own = linted.patch(patch)?;
    let number = linted.patches.iter().position(|it| is_alike(own, it))?;
    if number < usize::from(patch.0) {
        let older = patch_id(number);
        Some(Finding::Part(patch, PartFinding::Alike { older }))
    } else {
        None
    }
}
