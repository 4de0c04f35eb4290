//! The functions of a patch that a catalog can't have.
ghost use Rattle.std.specs.Prelude.{◌≡◌, nat_lt, position};
ghost use Rattle.klp_types.specs.declared.limits.TheConstants.{MAX_FUNCTIONS};
ghost use Rattle.klp_module_fit.specs.Fit.{function_count, function_fault, has_bad_function, has_far_function, is_bad_function, has_far_position};

use crate::fault::PatchFault;
use klp_tables::{Function, Object};
use klp_types::{MAX_FUNCTIONS, MAX_SITES};
use klp_words::is_symbol_name;

/// Whether no symbol of a catalog can have the name of the function that this one replaces.
fn is_bad_function(function: &Function<'_>) -> bool
    ensures { result ≡ is_bad_function function.now }
{
    !is_symbol_name(function.old_name)
}

/// Whether no symbol of a catalog can have the position of this function: it is above [`MAX_SITES`], the most symbols
/// that all objects together may have.
fn has_far_position(function: &Function<'_>) -> bool
    ensures { result ≡ has_far_position function.now }
{
    (MAX_SITES as u64) < function.position
}

fn has_bad_function(object: &Object<'_>) -> bool
    ensures { result ≡ has_bad_function object.now }
{
    object
        .functions
        .iter()
        .any(|function| is_bad_function(function))
}

fn has_far_function(object: &Object<'_>) -> bool
    ensures { result ≡ has_far_function object.now }
{
    object
        .functions
        .iter()
        .any(|function| has_far_position(function))
}

/// Whether some objects have more functions together than a patch of a catalog.
pub(crate) fn have_too_many(objects: &[Object<'_>]) -> bool
    ensures { result ≡ nat_lt MAX_FUNCTIONS (function_count objects.now) }
{
    let mut rest = objects;
    let mut room = MAX_FUNCTIONS;
    while let [object, behind @ ..] = rest {
        if room < object.functions.len() {
            return true;
        }
        room -= object.functions.len();
        rest = behind;
    }
    false
}

fn first_bad(objects: &[Object<'_>]) -> Option<usize>
    ensures { result ≡ position has_bad_function objects.now }
{
    objects.iter().position(|object| has_bad_function(object))
}

fn first_far(objects: &[Object<'_>]) -> Option<usize>
    ensures { result ≡ position has_far_function objects.now }
{
    objects.iter().position(|object| has_far_function(object))
}

/// Returns the first object with a function that a catalog can't have.
pub(crate) fn function_fault(objects: &[Object<'_>]) -> Option<PatchFault>
    ensures { result ≡ function_fault objects.now }
{
    if let Some(object) = first_bad(objects) {
        return Some(PatchFault::BadFunction(object));
    }
    match first_far(objects) {
        Some(object) => Some(PatchFault::FarPosition(object)),
        None => None,
    }
}
