//! Finds out what happens to patches that are loaded over others. Each patch is loaded alone, over one other patch, and
//! over two others.
ghost use Rattle.std.specs.Prelude.{◌≡◌, ℕ, ◌<◌, ◌≤◌, length, None, IfOk, IfSome};
ghost use Rattle.klp_manager_state.specs.Managed.{setting_of};
ghost use Rattle.klp_lint_findings.specs.Claims.{IsTrue, AddsTrue};
ghost use Rattle.klp_lint_findings.specs.Standing.{standing};
ghost use Rattle.klp_lint_together.specs.Kept.{IsAsBefore};
ghost use Rattle.klp_lint_together.specs.Starting.{StartsUnlessReported};

use crate::hiding::find_same_functions;
use crate::loading::{LoadOutcome, Outcomes, all_but, try_all, try_each};
use crate::orders::count_orders;
use crate::replacing::find_replacing;
use crate::starting::find_each_alone;
use crate::why::why_of;
use klp_core::Manager;
use klp_lint_findings::{
    CountFinding, Finding, Findings, Linted, LoadFinding, PatchList, Tally, Together,
};
use klp_types::PatchId;
use std::alloc::{AllocError, Global};

/// The finding that a patch can't be loaded over the patches in `below`. `None` if it can.
#[tactic(auto, unfolding(klp_lint_findings::specs::Claims::IsTrue))]
fn not_loaded(
    linted: &Linted<'_>,
    manager: &Manager,
    below: &[PatchId],
    patch: PatchId,
    outcome: LoadOutcome,
) -> Option<Finding>
    ensures { IfSome result (IsTrue linted.now (standing manager.now)) }
{
    let why = why_of(linted, manager, below, patch, outcome)?;
    let below = PatchList::of(below);
    Some(Finding::Load(patch, LoadFinding::NotOver { below, why }))
}

/// The finding that a patch can't be loaded over another one. `None` if it can, or if the outcome is the same alone.
fn over_one(
    linted: &Linted<'_>,
    manager: &Manager,
    outcomes: &Outcomes,
    below: PatchId,
    patch: PatchId,
    tally: &mut Tally,
) -> Option<Finding>
    ensures { IfSome result (IsTrue linted.now (standing manager.now)) }
{
    let alone = outcomes.over(None, patch)?;
    let over = outcomes.over(Some(below), patch)?;
    tally.add(over.outcome == LoadOutcome::Started);
    if over.outcome == alone.outcome {
        return None;
    }
    not_loaded(linted, manager, &[below], patch, over.outcome)
}

/// Adds what happens to a patch over each other one.
fn find_for(
    found: &mut Findings<'_>,
    manager: &Manager,
    outcomes: &Outcomes,
    patch: PatchId,
    tally: &mut Tally,
) -> Result<(), AllocError>
    ensures { IfOk result (λ done. AddsTrue (standing manager.now) found.old found.new) }
{
    let linted = found.linted;
    for below in outcomes.free.as_slice() {
        found.add_some(over_one(&linted, manager, outcomes, *below, patch, tally))?;
    }
    Ok(())
}

/// Whether two patches stay loaded together: the second is loaded over the first, and doesn't replace it.
fn is_pair(linted: &Linted<'_>, outcomes: &Outcomes, first: PatchId, second: PatchId) -> bool {
    let replaces = match linted.patch(second) {
        Some(own) => own.replace,
        None => true,
    };
    !replaces && outcomes.stands(None, first) && outcomes.stands(Some(first), second)
}

/// Whether a patch has this outcome over `below` alone.
fn has_outcome(outcomes: &Outcomes, below: PatchId, patch: PatchId, outcome: &LoadOutcome) -> bool {
    match outcomes.over(Some(below), patch) {
        Some(tried) => tried.outcome == *outcome,
        None => false,
    }
}

/// The finding that a patch can't be loaded over a pair of others. `None` if it can, or if the outcome is the same over one
/// of the two.
fn over_pair(
    linted: &Linted<'_>,
    manager: &Manager,
    outcomes: &Outcomes,
    pair: &PatchList,
    patch: PatchId,
    outcome: LoadOutcome,
) -> Option<Finding>
    ensures { IfSome result (IsTrue linted.now (standing manager.now)) }
{
    let below = pair.as_slice();
    if below
        .iter()
        .any(|it| has_outcome(outcomes, *it, patch, &outcome))
    {
        return None;
    }
    not_loaded(linted, manager, below, patch, outcome)
}

/// Loads each other patch over a pair of patches, if these stay loaded together. Adds those that can't be loaded, unless
/// the outcome is the same over one of the two.
#[tactic(auto, using(klp_lint_findings::proofs::SayLemmas::adds_still))]
fn find_over_pair(
    alloc: Global,
    found: &mut Findings<'_>,
    manager: &mut Manager,
    outcomes: &Outcomes,
    first: PatchId,
    second: PatchId,
    tally: &mut Tally,
) -> Result<(), AllocError>
    ensures adds { IfOk result (λ done. AddsTrue (standing manager.old) found.old found.new) }
    ensures kept { IfOk result (λ done. IsAsBefore manager.old manager.new) }
{
    let linted = found.linted;
    if !is_pair(&linted, outcomes, first, second) {
        return Ok(());
    }
    let pair = PatchList::of(&[first, second]);
    let others = all_but(&outcomes.free, pair.as_slice());
    let row = try_each(alloc, &linted, manager, pair.as_slice(), &others)?;
    for (patch, tried) in others.as_slice().iter().zip(row.as_slice().iter()) {
        tally.add(tried.outcome == LoadOutcome::Started);
        found.add_some(over_pair(&linted, manager, outcomes, &pair, *patch, tried.outcome))?;
    }
    Ok(())
}

/// Loads each patch over each pair of other patches that stay loaded together.
fn find_over_pairs(
    alloc: Global,
    found: &mut Findings<'_>,
    manager: &mut Manager,
    outcomes: &Outcomes,
    tally: &mut Tally,
) -> Result<(), AllocError>
    ensures adds { IfOk result (λ done. AddsTrue (standing manager.old) found.old found.new) }
    ensures kept { IfOk result (λ done. IsAsBefore manager.old manager.new) }
{
    for first in outcomes.free.as_slice() {
        for second in outcomes.free.as_slice() {
            find_over_pair(alloc, found, manager, outcomes, *first, *second, tally)?;
        }
    }
    Ok(())
}

/// Adds what happens to each patch over each other one.
fn find_over_ones(
    alloc: Global,
    found: &mut Findings<'_>,
    manager: &mut Manager,
    outcomes: &Outcomes,
    tally: &mut Tally,
) -> Result<(), AllocError>
    ensures adds { IfOk result (λ done. AddsTrue (standing manager.old) found.old found.new) }
    ensures kept { IfOk result (λ done. IsAsBefore manager.old manager.new) }
{
    for patch in outcomes.free.as_slice() {
        find_for(found, manager, outcomes, *patch, tally)?;
        find_same_functions(found, manager, outcomes, *patch)?;
        find_replacing(alloc, found, manager, outcomes, *patch)?;
    }
    Ok(())
}

/// Loads all patches that aren't installed in each order, if there are several. Adds how many were loaded.
fn find_orders(
    found: &mut Findings<'_>,
    manager: &mut Manager,
    outcomes: &Outcomes,
    mut together: Together,
) -> Result<(), AllocError>
    ensures adds { IfOk result (λ done. AddsTrue (standing manager.old) found.old found.new) }
    ensures kept { IfOk result (λ done. IsAsBefore manager.old manager.new) }
{
    if outcomes.free.as_slice().len() < 2 {
        return Ok(());
    }
    together.orders = count_orders(&found.linted, manager, outcomes);
    found.add(Finding::Count(CountFinding::Together(together)))
}

/// Loads each patch that isn't installed: alone, over each other such patch, and over each pair of such patches that
/// stay loaded together. Also loads all such patches in each order. Adds what is found, and at the end how many were
/// loaded. If no patch is in transition, and no finding makes the status 3, each patch can be loaded, or is installed.
/// All that is loaded is taken back.
pub fn judge_together(
    alloc: Global,
    found: &mut Findings<'_>,
    manager: &mut Manager,
) -> Result<(), AllocError>
    ensures starts { IfOk result (λ done. manager.old.managed.state.moving ≡ None
        → length found.old.linted.patches.now ≤ 256
        → (patch : ℕ) → patch < length found.old.linted.patches.now
        → StartsUnlessReported (setting_of manager.old.managed) manager.old.managed.state patch found.new) }
    ensures adds { IfOk result (λ done. AddsTrue (standing manager.old) found.old found.new) }
    ensures kept { IfOk result (λ done. IsAsBefore manager.old manager.new) }
{
    if manager.moving().is_some() {
        return found.add(Finding::Count(CountFinding::Moving));
    }
    let mut together = Together {
        alone: Tally::none(),
        over_one: Tally::none(),
        over_two: Tally::none(),
        orders: None,
    };
    find_each_alone(found, manager, &mut together.alone)?;
    let outcomes = try_all(alloc, &found.linted, manager)?;
    find_over_ones(alloc, found, manager, &outcomes, &mut together.over_one)?;
    find_over_pairs(alloc, found, manager, &outcomes, &mut together.over_two)?;
    find_orders(found, manager, &outcomes, together)?;
    Ok(())
}
