//! Finds parts of a patch that can't work, or do nothing, whatever the state is.
ghost use Rattle.std.specs.Prelude.{IfOk, IfSome};
ghost use Rattle.klp_lint_findings.specs.Saying.{Adds};
ghost use Rattle.klp_lint_alone.specs.Judged.{IsPartOf};

use klp_catalog_text::{PlanCallback, PlanPatch, PlanTarget};
use klp_lint_findings::{
    Finding, Findings, IdleReason, Linted, PartFinding, is_assumed, is_data, names_state,
};
use klp_modules::place_in;
use klp_types::{Edit, PatchId};
use std::alloc::AllocError;

/// Returns the system state of an edit that does nothing, whatever is installed, and why it does nothing. Returns
/// `None` if the edit may do something.
fn idle_state(patch: &PlanPatch, patches: &[PlanPatch], edit: &Edit) -> Option<(u64, IdleReason)> {
    match *edit {
        Edit::SetData(id, _) | Edit::TakePrev(id) if !names_state(patch, id) => {
            Some((id, IdleReason::Unnamed))
        }
        Edit::TakePrev(id) => {
            let count = patches.iter().filter(|it| names_state(it, id)).count();
            if count > 1 {
                None
            } else {
                Some((id, IdleReason::Alone))
            }
        }
        _ => None,
    }
}

/// The finding that an edit of this system state does nothing, in the callback at this line. `None` if no edit does nothing.
fn idle_at(
    patch: PatchId,
    place: usize,
    line: u64,
    state: Option<(u64, IdleReason)>,
) -> Option<Finding>
    ensures { IfSome result (IsPartOf patch) }
{
    let (id, why) = state?;
    let idle = PartFinding::Idle {
        place,
        line,
        id,
        why,
    };
    Some(Finding::Part(patch, idle))
}

/// Adds the edits of a callback that do nothing.
fn find_idle_edits(
    found: &mut Findings<'_>,
    patch: PatchId,
    place: usize,
    callback: &PlanCallback,
) -> Result<(), AllocError>
    ensures { IfOk result (λ done. Adds (IsPartOf patch) found.old found.new) }
{
    let patches = found.linted.patches;
    let Some(own) = found.linted.patch(patch) else {
        return Ok(());
    };
    for edit in callback.script.edits.as_slice() {
        let state = idle_state(own, patches, edit);
        found.add_some(idle_at(patch, place, callback.line, state))?;
    }
    Ok(())
}

/// Adds the edits of a patch that do nothing.
pub fn find_idle(found: &mut Findings<'_>, patch: PatchId) -> Result<(), AllocError>
    ensures { IfOk result (λ done. Adds (IsPartOf patch) found.old found.new) }
{
    let Some(own) = found.linted.patch(patch) else {
        return Ok(());
    };
    for (place, target) in own.targets.iter().enumerate() {
        for callback in target.callbacks.iter() {
            find_idle_edits(found, patch, place, callback)?;
        }
    }
    Ok(())
}

/// The finding about a function of a target whose name and position pick no symbol. `None` if they pick one.
fn no_symbol(
    linted: &Linted<'_>,
    target: &PlanTarget,
    patch: PatchId,
    place: usize,
    function: usize,
) -> Option<Finding>
    ensures { IfSome result (IsPartOf patch) }
{
    let object = linted.objects.get(usize::from(target.object.0))?;
    let own = target.functions.as_slice().get(function)?;
    match place_in(object, own.symbol.as_str(), own.sympos) {
        Ok(_) => None,
        Err(fault) => {
            let no_symbol = PartFinding::NoSymbol {
                place,
                function,
                fault,
                is_assumed: is_assumed(linted.marks, usize::from(target.object.0)),
            };
            Some(Finding::Part(patch, no_symbol))
        }
    }
}

/// The finding about a function of a target whose name and position pick a variable, by a mark. `None` if they pick a
/// function, or no symbol.
fn no_function(
    linted: &Linted<'_>,
    target: &PlanTarget,
    patch: PatchId,
    place: usize,
    function: usize,
) -> Option<Finding>
    ensures { IfSome result (IsPartOf patch) }
{
    let number = usize::from(target.object.0);
    let object = linted.objects.get(number)?;
    let own = target.functions.as_slice().get(function)?;
    let symbol = place_in(object, own.symbol.as_str(), own.sympos).ok()?;
    if !is_data(linted.marks, number, symbol) {
        return None;
    }
    let no_function = PartFinding::NoFunction {
        place,
        function,
        is_assumed: is_assumed(linted.marks, number),
    };
    Some(Finding::Part(patch, no_function))
}

/// Adds the functions of a patch whose name and position pick no symbol, or a variable.
pub fn find_unpicked(found: &mut Findings<'_>, patch: PatchId) -> Result<(), AllocError>
    ensures { IfOk result (λ done. Adds (IsPartOf patch) found.old found.new) }
{
    let linted = found.linted;
    let Some(own) = linted.patch(patch) else {
        return Ok(());
    };
    for (place, target) in own.targets.iter().enumerate() {
        for function in 0..target.functions.len() {
            found.add_some(no_symbol(&linted, target, patch, place, function))?;
            found.add_some(no_function(&linted, target, patch, place, function))?;
        }
    }
    Ok(())
}
