//! Finds what a cumulative patch does to the patches that it takes out.
ghost use Rattle.std.specs.Prelude.{◌≡◌, true, IfOk, IfSome};
ghost use Rattle.klp_lint_findings.specs.Claims.{replacing, withdrawing, IsThereBehind, StaysSo, IsTrue, AddsTrue};
ghost use Rattle.klp_lint_findings.specs.Standing.{standing};
ghost use Rattle.klp_lint_together.specs.Kept.{IsAsBefore};
ghost use Rattle.klp_lint_together.specs.Lost.{IsValueLost};

use crate::loading::{End, Outcomes, end_of, run, take_back};
use crate::twice::{TwiceAdded, is_there, twice_added};
use klp_catalog_text::PlanPatch;
use klp_core::Manager;
use klp_lint_changes::{Change, change_of, keys_changed, lost_functions};
use klp_lint_findings::{
    Finding, Findings, Linted, PatchList, ReplaceFinding, is_understood, names_state,
};
use klp_model::Event;
use klp_types::{PatchId, ShadowKey};
use std::alloc::{AllocError, Global};

/// A cumulative patch: its number, and its part of the plan.
#[derive(Clone, Copy)]
struct Cumulative<'a> {
    patch: PatchId,
    plan: &'a PlanPatch,
}

/// The value that a system state of a patch would have once the patch is loaded. `None` if it isn't installed then, or doesn't
/// name the state.
fn state_loaded(manager: &mut Manager, patch: PatchId, id: u64) -> Option<u64>
    ensures value { IsValueLost (standing manager.old) patch id result }
    ensures kept { IsAsBefore manager.old manager.new }
{
    let mark = manager.mark();
    run(manager, &[Event::Enable(patch), Event::Poll]);
    let value = manager.state_of(patch, id);
    let _for_its_clause = manager.mark();
    take_back(manager, mark);
    value
}

/// The patches that this one takes out. They are the installed ones if it is loaded now, and each one that isn't
/// installed and over which it is loaded.
fn patches_taken_out(manager: &Manager, outcomes: &Outcomes, patch: PatchId) -> PatchList {
    let mut gone = PatchList::new();
    if outcomes.stands(None, patch) {
        gone = PatchList::of(manager.installed().as_slice());
    }
    for below in outcomes.free.as_slice() {
        if outcomes.stands(Some(*below), patch) {
            gone.push(*below);
        }
    }
    gone
}

/// Whether a patch that is taken out is the one whose value the cumulative patch takes over: no newer installed patch
/// names the state.
fn is_newest_with(
    linted: &Linted<'_>,
    manager: &Manager,
    outcomes: &Outcomes,
    other: PatchId,
    id: u64,
) -> bool {
    if outcomes.free.contains(other) {
        return true;
    }
    let installed = manager.installed();
    let newest = installed
        .as_slice()
        .iter()
        .rev()
        .find(|it| match linted.patch(**it) {
            Some(patch) => names_state(patch, id),
            None => false,
        });
    newest == Some(&other)
}

/// The value that a system state of `other` has when a cumulative patch takes `other` out.
fn value_lost(manager: &mut Manager, outcomes: &Outcomes, other: PatchId, id: u64) -> Option<u64>
    ensures value { IsValueLost (standing manager.old) other id result }
    ensures kept { IsAsBefore manager.old manager.new }
{
    if !outcomes.free.contains(other) {
        return manager.state_of(other, id);
    }
    state_loaded(manager, other, id)
}

/// Whether all callbacks of both patches for loaded objects are understood.
fn are_understood(linted: &Linted<'_>, manager: &Manager, patch: PatchId, other: PatchId) -> bool {
    is_understood(linted, manager, patch) && is_understood(linted, manager, other)
}

/// The finding that a cumulative patch takes over the value that a patch which it takes out has of a system state. `None` if
/// a newer installed patch names the state.
#[tactic(auto, unfolding(klp_lint_findings::specs::Claims::IsTrue))]
fn takes_over(
    linted: &Linted<'_>,
    manager: &Manager,
    outcomes: &Outcomes,
    patch: PatchId,
    other: PatchId,
    id: u64,
) -> Option<Finding>
    ensures { IfSome result (IsTrue linted.now (standing manager.now)) }
{
    if !is_newest_with(linted, manager, outcomes, other, id) {
        return None;
    }
    Some(Finding::Replace(patch, ReplaceFinding::TakesOver { other, id }))
}

/// The finding that a cumulative patch forgets the value that a patch which it takes out has of a system state. `None` if the
/// value is 0.
fn forgets(
    linted: &Linted<'_>,
    manager: &mut Manager,
    outcomes: &Outcomes,
    patch: PatchId,
    other: PatchId,
    id: u64,
) -> Option<Finding>
    ensures claims { IfSome result (IsTrue linted.now (standing manager.old)) }
    ensures kept { IsAsBefore manager.old manager.new }
{
    let is_sure = are_understood(linted, manager, patch, other);
    if value_lost(manager, outcomes, other, id).unwrap_or(0) == 0 {
        return None;
    }
    Some(Finding::Replace(patch, ReplaceFinding::Forgets { other, id, is_sure }))
}

/// What becomes of a system state of a patch that is taken out: it is taken over, or forgotten. It is forgotten if the patch
/// has changed it from 0, and no callback of the cumulative patch changes it. `None` if neither.
fn state_lost(
    linted: &Linted<'_>,
    manager: &mut Manager,
    outcomes: &Outcomes,
    own: &Cumulative<'_>,
    other: PatchId,
    id: u64,
) -> Option<Finding>
    ensures claims { IfSome result (IsTrue linted.now (standing manager.old)) }
    ensures kept { IsAsBefore manager.old manager.new }
{
    let Cumulative { patch, plan } = *own;
    if !names_state(plan, id) {
        return None;
    }
    match change_of(manager, plan, id) {
        Change::TakesOver => takes_over(linted, manager, outcomes, patch, other, id),
        Change::Nothing => forgets(linted, manager, outcomes, patch, other, id),
        Change::Sets => None,
    }
}

/// The finding that a cumulative patch doesn't change functions of a target of a patch that it takes out. `None` if it changes
/// all of them.
fn functions_lost(
    linted: &Linted<'_>,
    manager: &Manager,
    patch: PatchId,
    other: PatchId,
    place: usize,
) -> Option<Finding>
    ensures { IfSome result (IsTrue linted.now (standing manager.now)) }
{
    let functions = lost_functions(linted, manager, other, place, patch);
    if functions.count() == 0 {
        return None;
    }
    let loses = ReplaceFinding::LosesFunctions {
        other,
        place,
        functions,
    };
    Some(Finding::Replace(patch, loses))
}

/// Adds the functions of a patch that is taken out which the cumulative patch doesn't change, by object.
fn find_lost_functions(
    found: &mut Findings<'_>,
    manager: &Manager,
    patch: PatchId,
    other: PatchId,
) -> Result<(), AllocError>
    ensures { IfOk result (λ done. AddsTrue (standing manager.now) found.old found.new) }
{
    let linted = found.linted;
    let Some(gone) = linted.patch(other) else {
        return Ok(());
    };
    for place in 0..gone.targets.len() {
        found.add_some(functions_lost(&linted, manager, patch, other, place))?;
    }
    Ok(())
}

/// How many events load a patch and complete its transition.
const LOADED: usize = 2;

/// Events that load `other`, load `patch` over it, and then withdraw `patch`.
fn events_replacing(other: PatchId, patch: PatchId) -> [Event; 6]
    ensures { result ≡ replacing other patch }
{
    [
        Event::Enable(other),
        Event::Poll,
        Event::Enable(patch),
        Event::Poll,
        Event::SetEnabled(patch, false),
        Event::Poll,
    ]
}

/// Events that load a patch and take it out by itself.
fn events_withdrawing(patch: PatchId) -> [Event; 4]
    ensures { result ≡ withdrawing patch }
{
    [
        Event::Enable(patch),
        Event::Poll,
        Event::SetEnabled(patch, false),
        Event::Poll,
    ]
}

/// Whether a variable is there after these events, if `is_wanted`, or else missing.
fn is_so(manager: &mut Manager, events: &[Event], key: ShadowKey, is_wanted: bool) -> bool
    ensures so { result ≡ true → IsThereBehind (standing manager.old) events.now key is_wanted }
    ensures kept { IsAsBefore manager.old manager.new }
{
    let has_it = is_there(manager, events, key);
    if is_wanted { has_it } else { !has_it }
}

/// Whether a variable is there, or missing, all the time from the end of the first patch's transition to the end of the
/// events.
fn stays_so(manager: &mut Manager, events: &[Event], key: ShadowKey, is_wanted: bool) -> bool
    ensures stays { result ≡ true → StaysSo (standing manager.old) events.now key is_wanted }
    ensures kept { IsAsBefore manager.old manager.new }
{
    for count in LOADED..events.len() + 1 {
        if !is_so(manager, &events[..count], key, is_wanted) {
            return false;
        }
    }
    true
}

/// A cumulative patch, and one that it takes out.
#[derive(Clone, Copy)]
struct Replacing {
    patch: PatchId,
    other: PatchId,
    /// Whether all callbacks of both are understood.
    is_sure: bool,
}

/// What becomes of a variable that a patch changes, if another patch takes it out and is then itself taken out. `None`
/// if it is as before, or not as the first patch left it.
fn variable_lost(
    linted: &Linted<'_>,
    manager: &mut Manager,
    replacing: &Replacing,
    key: ShadowKey,
) -> Option<Finding>
    ensures claims { IfSome result (IsTrue linted.now (standing manager.old)) }
    ensures kept { IsAsBefore manager.old manager.new }
{
    let Replacing {
        patch,
        other,
        is_sure,
    } = *replacing;
    let was_there = manager.shadow_get(key).is_some();
    let events = events_replacing(other, patch);
    if !stays_so(manager, &events, key, !was_there) {
        return None;
    }
    if !was_there {
        let leaves = ReplaceFinding::Leaves {
            other,
            key,
            is_sure,
        };
        return Some(Finding::Replace(patch, leaves));
    }
    let alone = events_withdrawing(other);
    if !is_there(manager, &alone, key) {
        return None;
    }
    let loses = ReplaceFinding::Loses {
        other,
        key,
        is_sure,
    };
    Some(Finding::Replace(patch, loses))
}

/// The finding that a patch which was taken out can't be loaded again after these events, since a variable is left that its
/// pre-patch adds. `None` if it can.
#[tactic(auto, unfolding(klp_lint_findings::specs::Claims::IsTrue))]
fn not_again(linted: &Linted<'_>, manager: &mut Manager, replacing: &Replacing) -> Option<Finding>
    ensures claims { IfSome result (IsTrue linted.now (standing manager.old)) }
    ensures kept { IsAsBefore manager.old manager.new }
{
    let Replacing { patch, other, .. } = *replacing;
    let TwiceAdded { key, .. } = twice_added(
        linted,
        manager,
        &events_replacing(other, patch),
        other,
    )?;
    Some(Finding::Replace(patch, ReplaceFinding::NotAgain { other, key }))
}

/// Adds the variables that a patch changes, and that stay changed since its own callbacks don't run when it is taken
/// out. Adds nothing if the patch is installed already, or if the cumulative patch can't be removed.
#[tactic(auto, using(klp_lint_findings::proofs::SayLemmas::adds_still))]
fn find_lost_variables(
    alloc: Global,
    found: &mut Findings<'_>,
    manager: &mut Manager,
    outcomes: &Outcomes,
    patch: PatchId,
    other: PatchId,
    gone: &PlanPatch,
) -> Result<(), AllocError>
    ensures adds { IfOk result (λ done. AddsTrue (standing manager.old) found.old found.new) }
    ensures kept { IfOk result (λ done. IsAsBefore manager.old manager.new) }
{
    if !outcomes.free.contains(other) {
        return Ok(());
    }
    let linted = found.linted;
    // the last event is the poll that `end_of` does
    let events = events_replacing(other, patch);
    if end_of(manager, &events[..events.len() - 1]) != End::Completed {
        return Ok(());
    }
    let is_sure = are_understood(&linted, manager, patch, other);
    let replacing = Replacing {
        patch,
        other,
        is_sure,
    };
    let keys = keys_changed(alloc, manager, gone)?;
    for key in keys.as_slice() {
        found.add_some(variable_lost(&linted, manager, &replacing, *key))?;
    }
    found.add_some(not_again(&linted, manager, &replacing))?;
    Ok(())
}

/// Adds what is lost of a patch that is taken out.
fn find_lost(
    alloc: Global,
    found: &mut Findings<'_>,
    manager: &mut Manager,
    outcomes: &Outcomes,
    own: &Cumulative<'_>,
    other: PatchId,
) -> Result<(), AllocError>
    ensures adds { IfOk result (λ done. AddsTrue (standing manager.old) found.old found.new) }
    ensures kept { IfOk result (λ done. IsAsBefore manager.old manager.new) }
{
    let linted = found.linted;
    let Some(gone) = linted.patch(other) else {
        return Ok(());
    };
    for state in gone.states.iter() {
        found.add_some(state_lost(&linted, manager, outcomes, own, other, state.id))?;
    }
    find_lost_functions(found, manager, own.patch, other)?;
    find_lost_variables(alloc, found, manager, outcomes, own.patch, other, gone)?;
    Ok(())
}

/// Adds which patches a cumulative patch takes out, and what is lost of them.
#[tactic(auto, using(klp_lint_findings::proofs::SayLemmas::adds_still))]
pub(crate) fn find_replacing(
    alloc: Global,
    found: &mut Findings<'_>,
    manager: &mut Manager,
    outcomes: &Outcomes,
    patch: PatchId,
) -> Result<(), AllocError>
    ensures adds { IfOk result (λ done. AddsTrue (standing manager.old) found.old found.new) }
    ensures kept { IfOk result (λ done. IsAsBefore manager.old manager.new) }
{
    let linted = found.linted;
    let Some(own) = linted.patch(patch) else {
        return Ok(());
    };
    if !own.replace {
        return Ok(());
    }
    let gone = patches_taken_out(manager, outcomes, patch);
    if gone.as_slice().is_empty() {
        return Ok(());
    }
    found.add(Finding::Replace(patch, ReplaceFinding::TakesOut { gone }))?;
    let own = Cumulative { patch, plan: own };
    for other in gone.as_slice() {
        find_lost(alloc, found, manager, outcomes, &own, *other)?;
    }
    Ok(())
}
