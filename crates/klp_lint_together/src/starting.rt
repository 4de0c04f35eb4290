//! Finds patches that can't be loaded with no other patch than the installed ones, or that stay in transition then.
ghost use Rattle.std.specs.Prelude.{◌≡◌, ℕ, ◌<◌, ◌≤◌, true, length, IfOk, IfSome};
ghost use Rattle.klp_manager_state.specs.Managed.{setting_of};
ghost use Rattle.klp_lint_findings.specs.Claims.{IsTrue, AddsTrue};
ghost use Rattle.klp_lint_findings.specs.Sound.{one_decides};
ghost use Rattle.klp_lint_findings.specs.Standing.{standing};
ghost use Rattle.klp_lint_together.specs.Kept.{IsAsBefore};
ghost use Rattle.klp_lint_together.specs.Starting.{StartsUnlessReported};

use crate::loading::{End, LoadOutcome, try_now};
use crate::why::why_not_started;
use klp_core::Manager;
use klp_lint_findings::{
    Finding, Findings, Linted, LoadFinding, PartFinding, Said, Tally, WhyStays, patch_id,
};
use klp_types::PatchId;
use std::alloc::AllocError;

/// Whether a finding says that a function of the patch has no symbol.
fn is_no_symbol_of(said: &Said, patch: PatchId) -> bool {
    matches!(said.finding, Finding::Part(own, PartFinding::NoSymbol { .. }) if own == patch)
}

/// Whether a finding of the list says that a function of the patch has no symbol.
fn is_symbol_missing(found: &Findings<'_>, patch: PatchId) -> bool
    ensures { result ≡ true → one_decides found.now.said.items ≡ true }
{
    found
        .said
        .iter()
        .any(|it| it.finding.decides() && is_no_symbol_of(it, patch))
}

/// Whether the patch can't be loaded for lack of a symbol, and a finding of the list says so.
fn is_reported(found: &Findings<'_>, patch: PatchId, outcome: LoadOutcome) -> bool
    ensures { result ≡ true → one_decides found.now.said.items ≡ true }
{
    match outcome {
        LoadOutcome::NoSymbol => is_symbol_missing(found, patch),
        _ => false,
    }
}

/// The finding that a patch which is loaded stays in transition. `None` if it doesn't.
#[tactic(auto, unfolding(klp_lint_findings::specs::Claims::IsTrue))]
fn staying(linted: &Linted<'_>, manager: &Manager, patch: PatchId, end: End) -> Option<Finding>
    ensures { IfSome result (IsTrue linted.now (standing manager.now)) }
{
    let why = match end {
        End::Completed => return None,
        End::Pending(count) => WhyStays::Pending(count),
        End::Other => WhyStays::NoEnd,
    };
    Some(Finding::Load(patch, LoadFinding::Stays { why }))
}

/// Loads a patch alone, unless it is installed. Adds that it can't be loaded, or that it stays in transition. If it can't
/// be loaded for lack of a symbol, adds nothing if a finding about the function says so.
fn find_alone(
    found: &mut Findings<'_>,
    manager: &mut Manager,
    patch: PatchId,
    tally: &mut Tally,
) -> Result<(), AllocError>
    ensures starts { IfOk result (λ done. StartsUnlessReported (setting_of manager.old.managed)
        manager.old.managed.state patch found.new) }
    ensures adds { IfOk result (λ done. AddsTrue (standing manager.old) found.old found.new) }
    ensures kept { IfOk result (λ done. IsAsBefore manager.old manager.new) }
{
    if manager.enabled(patch).is_some() {
        return Ok(());
    }
    let tried = try_now(&found.linted, manager, patch);
    let has_started = tried.outcome.is_started();
    tally.add(has_started);
    if has_started {
        let linted = found.linted;
        return found.add_some(staying(&linted, manager, patch, tried.end));
    }
    if is_reported(found, patch, tried.outcome) {
        return Ok(());
    }
    let why = why_not_started(&found.linted, manager, patch, tried.outcome);
    found.add(Finding::Load(patch, LoadFinding::NotStarted { why }))
}

/// Loads each patch that isn't installed, alone. Adds those that can't be loaded, and those that stay in transition. If no
/// finding makes the status 3, each patch can be loaded, or is installed.
pub(crate) fn find_each_alone(
    found: &mut Findings<'_>,
    manager: &mut Manager,
    tally: &mut Tally,
) -> Result<(), AllocError>
    ensures starts { IfOk result (λ done. length found.old.linted.patches.now ≤ 256
        → (patch : ℕ) → patch < length found.old.linted.patches.now
        → StartsUnlessReported (setting_of manager.old.managed) manager.old.managed.state patch found.new) }
    ensures adds { IfOk result (λ done. AddsTrue (standing manager.old) found.old found.new) }
    ensures kept { IfOk result (λ done. IsAsBefore manager.old manager.new) }
{
    for number in 0..found.linted.patches.len() {
        find_alone(found, manager, patch_id(number), tally)?;
    }
    Ok(())
}
