//! The patches that a catalog can't have.
ghost use Rattle.std.specs.Prelude.{◌≡◌, position};
ghost use Rattle.klp_module_fit.specs.Fit.{count_fault, first_unfit, fit_fault, has_bad_name, is_unfit, object_fault, patch_fault, state_fault};

use crate::NamedPatch;
use crate::again::{object_twice, patch_twice, state_twice};
use crate::fault::{FitFault, PatchFault};
use crate::functions::{function_fault, have_too_many};
use klp_module_matrix::name_of_row;
use klp_tables::{Object, State};
use klp_types::{MAX_PATCHES, MAX_STATES, MAX_TARGETS};
use klp_words::is_name;

/// Returns what a patch has too many of.
fn count_fault(objects: &[Object<'_>], states: &[State]) -> Option<PatchFault>
    ensures { result ≡ count_fault objects.now states.now }
{
    if MAX_TARGETS < objects.len() {
        return Some(PatchFault::TooManyObjects);
    }
    if have_too_many(objects) {
        return Some(PatchFault::TooManyFunctions);
    }
    if MAX_STATES < states.len() {
        return Some(PatchFault::TooManyStates);
    }
    None
}

fn has_bad_name(object: &Object<'_>) -> bool
    ensures { result ≡ has_bad_name object.now }
{
    !is_name(name_of_row(&object.row))
}

fn bad_object(objects: &[Object<'_>]) -> Option<usize>
    ensures { result ≡ position has_bad_name objects.now }
{
    objects.iter().position(|object| has_bad_name(object))
}

/// Returns the first object that a catalog can't have.
fn object_fault(objects: &[Object<'_>]) -> Option<PatchFault>
    ensures { result ≡ object_fault objects.now }
{
    if let Some(number) = bad_object(objects) {
        return Some(PatchFault::BadObject(number));
    }
    match object_twice(objects) {
        Some(number) => Some(PatchFault::ObjectTwice(number)),
        None => None,
    }
}

fn state_fault(states: &[State]) -> Option<PatchFault>
    ensures { result ≡ state_fault states.now }
{
    match state_twice(states) {
        Some(number) => Some(PatchFault::StateTwice(number)),
        None => None,
    }
}

/// Returns why a catalog can't have a patch.
fn patch_fault(named: &NamedPatch<'_, '_>) -> Option<PatchFault>
    ensures { result ≡ patch_fault named.now }
{
    if !is_name(named.name) {
        return Some(PatchFault::BadName);
    }
    let patch = named.patch;
    if let Some(fault) = count_fault(&patch.objects, &patch.states) {
        return Some(fault);
    }
    if let Some(fault) = object_fault(&patch.objects) {
        return Some(fault);
    }
    if let Some(fault) = function_fault(&patch.objects) {
        return Some(fault);
    }
    state_fault(&patch.states)
}

fn is_unfit(named: &NamedPatch<'_, '_>) -> bool
    ensures { result ≡ is_unfit named.now }
{
    patch_fault(named).is_some()
}

fn unfit_number(patches: &[NamedPatch<'_, '_>]) -> Option<usize>
    ensures { result ≡ position is_unfit patches.now }
{
    patches.iter().position(|named| is_unfit(named))
}

/// Returns the first patch that a catalog can't have.
fn first_unfit(patches: &[NamedPatch<'_, '_>]) -> Option<FitFault>
    ensures { result ≡ first_unfit patches.now }
{
    let number = unfit_number(patches)?;
    let named = patches.get(number)?;
    match patch_fault(named) {
        Some(fault) => Some(FitFault::Patch { number, fault }),
        None => None,
    }
}

/// Returns the first reason why a catalog can't have these patches. The cost is a step for each two objects, and each two
/// states, of a patch.
pub fn fit_fault(patches: &[NamedPatch<'_, '_>]) -> Option<FitFault>
    ensures { result ≡ fit_fault patches.now }
{
    if MAX_PATCHES < patches.len() {
        return Some(FitFault::TooManyPatches);
    }
    if let Some(fault) = first_unfit(patches) {
        return Some(fault);
    }
    match patch_twice(patches) {
        Some(number) => Some(FitFault::PatchTwice(number)),
        None => None,
    }
}
