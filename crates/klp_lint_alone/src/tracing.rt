//! Judges each patch by itself: whether it could be enabled now, and withdrawn later, without leaving a trace.
ghost use Rattle.std.specs.Prelude.{◌≡◌, ◌⊎◌, ℕ, ◌<◌, ◌≤◌, Bool, true, false, [], length, IfSome, IfNone, IfOk, MatchOption};
ghost use Rattle.std.specs.List.{list_any};
ghost use Rattle.klp_manager_state.specs.Managed.{setting_of};
ghost use Rattle.klp_model.specs.State.{is_installed, is_loaded};
ghost use Rattle.klp_model.specs.Company.{IsFairStart};
ghost use Rattle.klp_lint.specs.Premises.{ArePatchesOf, Fails, HoldEverywhere};
ghost use Rattle.klp_lint.specs.declared.premise.Premise.TheVariants.{NotUndone};
ghost use Rattle.klp_lint_findings.specs.Claims.{ClaimsTrace, IsTrue, AddsTrue};
ghost use Rattle.klp_lint_findings.specs.Deciding.{is_unknown};
ghost use Rattle.klp_lint_findings.specs.Listed.{is_fault, Lists};
ghost use Rattle.klp_lint_findings.specs.Saying.{is_said_of, Adds};
ghost use Rattle.klp_lint_findings.specs.Sound.{Grows, Vouches, VouchesBelow};
ghost use Rattle.klp_lint_findings.specs.Standing.{standing};
ghost use Rattle.klp_lint_findings.specs.Targets.{target_at, callbacks_for};
ghost use Rattle.klp_lint_alone.specs.Judged.{IsPartOf, IsNotUnderstood, IsMaybeCumulative};

use crate::idle::{find_idle, find_unpicked};
use crate::limits::{alike, find_near, room};
use klp_catalog_text::{PlanCallback, PlanTarget};
use klp_core::Manager;
use klp_lint::{Pair, Premise, found_by, holds_everywhere, leaves_no_trace, left_behind};
use klp_lint_findings::{
    Finding, Findings, KINDS, Linted, MarkWord, MarkedCallback, TraceFinding, World, callback_mark,
    first_marked, is_understood, mark_at, patch_id,
};
use klp_types::{PatchId, ShadowKey, Which};
use std::alloc::AllocError;

/// The callbacks of a patch for a target. There are none if there is no such target.
fn callbacks_at<'a>(linted: &Linted<'a>, patch: PatchId, place: usize) -> &'a [PlanCallback]
    ensures { result.now ≡ callbacks_for (target_at linted.now.patches.now patch place) }
{
    match linted.target(patch, place) {
        Some(target) => &target.callbacks,
        None => &[],
    }
}

/// The finding about a pair of callbacks that don't undo each other.
fn not_undone(
    linted: &Linted<'_>,
    manager: &Manager,
    patch: PatchId,
    place: usize,
    pair: Pair,
    key: ShadowKey,
) -> TraceFinding
    ensures fault { is_fault result ≡ true }
    ensures claims { Fails (setting_of manager.now.managed) patch manager.now.managed.state (NotUndone place pair key)
        → ClaimsTrace linted.now (standing manager.now) patch result }
{
    let callbacks = callbacks_at(linted, patch, place);
    let found = found_by(callbacks, pair, key, manager.shadow_get(key));
    let left = left_behind(callbacks, pair, key, manager.shadow_get(key));
    TraceFinding::NotUndone {
        place,
        pair,
        key,
        found,
        left,
    }
}

/// The finding about a premise that fails.
fn failing(linted: &Linted<'_>, manager: &Manager, patch: PatchId, premise: Premise) -> TraceFinding
    ensures claims { Fails (setting_of manager.now.managed) patch manager.now.managed.state premise
        → ClaimsTrace linted.now (standing manager.now) patch result }
    ensures listed { Fails (setting_of manager.now.managed) patch manager.now.managed.state premise
        → (is_installed manager.now.managed.state patch ≡ true) ⊎ (is_fault result ≡ true) }
{
    match premise {
        Premise::Moving => TraceFinding::Moving,
        Premise::Installed => TraceFinding::Installed,
        Premise::NotUndone { place, pair, key } => {
            not_undone(linted, manager, patch, place, pair, key)
        }
        Premise::NotApart { first, second, key } => TraceFinding::NotApart { first, second, key },
    }
}

/// Whether the object of a target is loaded.
fn is_loaded(manager: &Manager, target: &PlanTarget) -> bool
    ensures { result ≡ is_loaded manager.now.managed.state target.now.object }
{
    manager.modules().is_loaded(target.object)
}

/// Whether an object has callbacks that aren't judged, since the object isn't loaded.
fn is_left_out(manager: &Manager, target: &PlanTarget) -> bool
    ensures { result ≡ true → (is_loaded manager.now.managed.state target.now.object ≡ false)
        × (target.now.callbacks ≡ [] → ⊥) }
{
    if is_loaded(manager, target) {
        return false;
    }
    !target.callbacks.is_empty()
}

/// The targets of a patch are judged unless they aren't loaded. Returns whether all that have callbacks are loaded.
fn are_all_judged(linted: &Linted<'_>, manager: &Manager, patch: PatchId) -> bool {
    match linted.patch(patch) {
        Some(own) => own
            .targets
            .iter()
            .all(|target| !is_left_out(manager, target)),
        None => true,
    }
}

/// Whether the premises hold for a patch in each world that has none of its variables.
fn is_clean_everywhere(linted: &Linted<'_>, manager: &Manager, patch: PatchId) -> bool
    ensures { ArePatchesOf (setting_of manager.now.managed) linted.now.patches.now
        → result ≡ true → HoldEverywhere (setting_of manager.now.managed) patch manager.now.managed.state }
{
    holds_everywhere(manager, linted.patches, patch).is_ok()
}

/// What is found about a patch whose premises hold: that it leaves no trace, or that it leaves none if guesses are
/// right. `None` if a callback isn't understood.
fn trace_without_fault(
    linted: &Linted<'_>,
    manager: &Manager,
    patch: PatchId,
    is_scripted: bool,
) -> Option<TraceFinding>
    ensures claims { ArePatchesOf (setting_of manager.now.managed) linted.now.patches.now
        → IsFairStart (setting_of manager.now.managed) patch manager.now.managed.state
        → IfSome result (ClaimsTrace linted.now (standing manager.now) patch) }
    ensures unknown { IfNone result (list_any is_unknown linted.now.marks.now ≡ true) }
{
    if !is_understood(linted, manager, patch) {
        return None;
    }
    if let Some(guessed) = first_marked(linted, manager, patch, MarkWord::Guessed) {
        let MarkedCallback { place, mark } = guessed;
        return Some(TraceFinding::Guessed { place, mark });
    }
    Some(TraceFinding::Clean {
        is_everywhere: is_clean_everywhere(linted, manager, patch),
        is_partial: is_scripted && !are_all_judged(linted, manager, patch),
    })
}

/// Whether the patch would leave a trace. `None` if a callback isn't understood, and no premise fails otherwise.
fn trace_of(
    linted: &Linted<'_>,
    manager: &Manager,
    patch: PatchId,
    is_scripted: bool,
) -> Option<TraceFinding>
    ensures claims { ArePatchesOf (setting_of manager.now.managed) linted.now.patches.now
        → IfSome result (ClaimsTrace linted.now (standing manager.now) patch) }
    ensures listed { ArePatchesOf (setting_of manager.now.managed) linted.now.patches.now
        → MatchOption result (IsFairStart (setting_of manager.now.managed) patch manager.now.managed.state)
        (λ trace. IsFairStart (setting_of manager.now.managed) patch manager.now.managed.state
        ⊎ ((is_installed manager.now.managed.state patch ≡ true) ⊎ (is_fault trace ≡ true))) }
    ensures unknown { IfNone result (list_any is_unknown linted.now.marks.now ≡ true) }
{
    match leaves_no_trace(manager, linted.patches, patch) {
        Ok(()) => trace_without_fault(linted, manager, patch, is_scripted),
        Err(premise) => Some(failing(linted, manager, patch, premise)),
    }
}

/// The finding that callbacks for a target aren't judged, since its object isn't loaded. `None` if it is loaded, or has no
/// callbacks.
fn not_loaded(
    linted: &Linted<'_>,
    manager: &Manager,
    patch: PatchId,
    place: usize,
) -> Option<Finding>
    ensures { IfSome result (IsTrue linted.now (standing manager.now)) }
{
    let target = linted.target(patch, place)?;
    if is_left_out(manager, target) {
        Some(Finding::Trace(patch, TraceFinding::NotLoaded { place }))
    } else {
        None
    }
}

/// Whether it is asked what the callbacks of a patch for objects that aren't loaded do. Without a script, they are judged in the
/// other world. Nothing of a patch is judged that is installed, or during a transition.
fn is_asked_about(world: World, manager: &Manager, patch: PatchId) -> bool {
    world == World::Each && manager.enabled(patch).is_none() && manager.moving().is_none()
}

/// Behind a script, adds the objects of a patch whose callbacks aren't judged, since they aren't loaded.
fn find_unjudged(
    found: &mut Findings<'_>,
    manager: &Manager,
    patch: PatchId,
) -> Result<(), AllocError>
    ensures { IfOk result (λ done. AddsTrue (standing manager.now) found.old found.new) }
{
    let linted = found.linted;
    let Some(own) = linted.patch(patch) else {
        return Ok(());
    };
    if !is_asked_about(found.world, manager, patch) {
        return Ok(());
    }
    for place in 0..own.targets.len() {
        found.add_some(not_loaded(&linted, manager, patch, place))?;
    }
    Ok(())
}

/// The finding that the callback of this kind for a target isn't understood. `None` if no mark says so.
fn not_understood(
    linted: &Linted<'_>,
    target: &PlanTarget,
    patch: PatchId,
    place: usize,
    which: Which,
) -> Option<Finding>
    ensures { IfSome result (IsNotUnderstood linted.now patch place) }
{
    let mark = callback_mark(linted, target, which, MarkWord::Unknown)?;
    Some(Finding::Trace(patch, TraceFinding::NotUnderstood { place, mark }))
}

/// Adds the callbacks for a target that aren't understood.
fn find_unknown_for(
    found: &mut Findings<'_>,
    patch: PatchId,
    place: usize,
    target: &PlanTarget,
) -> Result<(), AllocError>
    ensures { IfOk result (λ done. Adds (IsNotUnderstood found.old.linted patch place) found.old found.new) }
{
    let linted = found.linted;
    for which in KINDS {
        found.add_some(not_understood(&linted, target, patch, place, which))?;
    }
    Ok(())
}

/// Adds the callbacks for the object at this place of a patch that aren't understood, if the object is loaded.
fn find_unknown_at(
    found: &mut Findings<'_>,
    manager: &Manager,
    patch: PatchId,
    place: usize,
) -> Result<(), AllocError>
    ensures { IfOk result (λ done. AddsTrue (standing manager.now) found.old found.new) }
{
    let linted = found.linted;
    let Some(target) = linted.target(patch, place) else {
        return Ok(());
    };
    if !is_loaded(manager, target) {
        return Ok(());
    }
    find_unknown_for(found, patch, place, target)
}

/// The finding that it isn't known whether a patch is cumulative. `None` if no mark with this word is about its line.
fn maybe_cumulative(
    linted: &Linted<'_>,
    patch: PatchId,
    line: u64,
    word: MarkWord,
) -> Option<Finding>
    ensures { IfSome result (IsMaybeCumulative linted.now patch word) }
{
    let mark = mark_at(linted.marks, word, line)?;
    Some(Finding::Trace(patch, TraceFinding::MaybeCumulative { mark }))
}

/// Adds the callbacks of a patch for loaded objects that aren't understood. Also adds that it isn't known whether the
/// patch is cumulative.
fn find_unknown(
    found: &mut Findings<'_>,
    manager: &Manager,
    patch: PatchId,
) -> Result<(), AllocError>
    ensures { IfOk result (λ done. AddsTrue (standing manager.now) found.old found.new) }
{
    let linted = found.linted;
    let Some(own) = linted.patch(patch) else {
        return Ok(());
    };
    found.add_some(maybe_cumulative(&linted, patch, own.line, MarkWord::Unknown))?;
    found.add_some(maybe_cumulative(&linted, patch, own.line, MarkWord::Guessed))?;
    for place in 0..own.targets.len() {
        find_unknown_at(found, manager, patch, place)?;
    }
    Ok(())
}

/// Adds whether a patch would leave a trace. Adds nothing if that isn't known, since a callback isn't understood.
fn find_answer(
    found: &mut Findings<'_>,
    manager: &Manager,
    patch: PatchId,
) -> Result<(), AllocError>
    ensures vouches { IfOk result
        (λ done. Vouches (setting_of manager.now.managed) manager.now.managed.state patch found.new) }
    ensures listed { IfOk result (λ done. (full : Bool) → is_said_of found.old.world full ≡ true
        → Lists (setting_of manager.now.managed) manager.now.managed.state patch full found.new) }
    ensures adds { IfOk result (λ done. AddsTrue (standing manager.now) found.old found.new) }
{
    let is_scripted = found.world == World::Each;
    match trace_of(&found.linted, manager, patch, is_scripted) {
        Some(trace) => found.add(Finding::Trace(patch, trace)),
        None => Ok(()),
    }
}

/// Adds whether a patch would leave a trace, and what isn't judged.
fn find_trace(found: &mut Findings<'_>, manager: &Manager, patch: PatchId) -> Result<(), AllocError>
    ensures vouches { IfOk result
        (λ done. Vouches (setting_of manager.now.managed) manager.now.managed.state patch found.new) }
    ensures listed { IfOk result (λ done. (full : Bool) → is_said_of found.old.world full ≡ true
        → Lists (setting_of manager.now.managed) manager.now.managed.state patch full found.new) }
    ensures adds { IfOk result (λ done. AddsTrue (standing manager.now) found.old found.new) }
{
    find_answer(found, manager, patch)?;
    find_unknown(found, manager, patch)?;
    find_unjudged(found, manager, patch)?;
    Ok(())
}

/// Adds what is found about the parts of a patch, whatever the state is.
fn find_parts(found: &mut Findings<'_>, patch: PatchId) -> Result<(), AllocError>
    ensures { IfOk result (λ done. Adds (IsPartOf patch) found.old found.new) }
{
    find_idle(found, patch)?;
    find_unpicked(found, patch)?;
    find_near(found, patch)?;
    let linted = found.linted;
    found.add_some(room(&linted, patch))?;
    found.add_some(alike(&linted, patch))?;
    Ok(())
}

/// Judges each patch by itself. Each patch leaves no trace, or is installed, or the list says that a premise fails. If the
/// list makes the status 0, each patch leaves no trace, or is installed.
pub fn judge_alone(found: &mut Findings<'_>, manager: &Manager) -> Result<(), AllocError>
    ensures vouches { IfOk result (λ done. length found.old.linted.patches.now ≤ 256
        → VouchesBelow (setting_of manager.now.managed) manager.now.managed.state
        (length found.old.linted.patches.now) found.new) }
    ensures listed { IfOk result (λ done. length found.old.linted.patches.now ≤ 256
        → (full : Bool) → is_said_of found.old.world full ≡ true
        → (patch : ℕ) → patch < length found.old.linted.patches.now
        → Lists (setting_of manager.now.managed) manager.now.managed.state patch full found.new) }
    ensures grows { IfOk result (λ done. Grows found.old found.new) }
    ensures adds { IfOk result (λ done. AddsTrue (standing manager.now) found.old found.new) }
{
    for number in 0..found.linted.patches.len() {
        let patch = patch_id(number);
        find_trace(found, manager, patch)?;
        find_parts(found, patch)?;
    }
    Ok(())
}
