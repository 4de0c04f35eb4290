//! Whether a patch is another one, with some of it left out.
ghost use Rattle.std.specs.Prelude.{◌≡◌, ◌+◌, ◌==◌, ◌<◌, ◌≤◌, ◌^◌, true, MatchOption};
ghost use Rattle.std.specs.List.{list_any};
ghost use Rattle.klp_module_fit.specs.Fit.{function_count};
ghost use Rattle.klp_module_cut.specs.Cut.{are_among, are_parts_of, are_same_callbacks, are_same_states, counts_left_out, has_callbacks};
ghost use Rattle.klp_module_cut.specs.Cut.{is_cut_of, is_part_of, is_same_function, is_same_replacing, is_same_state, is_shared, must_stay};

use klp_module_fit::NamedPatch;
use klp_module_matrix::{Changed, is_changed_too, name_of_row};
use klp_tables::{Callbacks, Function, Object, ObjectRow, Replaces, State};

fn is_same_replacing(one: Replaces, other: Replaces) -> bool
    ensures { result ≡ is_same_replacing one other }
{
    match (one, other) {
        (Replaces::Yes, Replaces::Yes) => true,
        (Replaces::No, Replaces::No) => true,
        (Replaces::Unknown, Replaces::Unknown) => true,
        _ => false,
    }
}

fn is_same_state(one: &State, other: &State) -> bool
    ensures { result ≡ is_same_state one.now other.now }
{
    one.id == other.id && one.version == other.version
}

fn are_same_states(states: &[State], others: &[State]) -> bool
    ensures { result ≡ are_same_states states.now others.now }
{
    match states {
        [] => others.is_empty(),
        [one, rest @ ..] => match others {
            [] => false,
            [other, behind @ ..] => is_same_state(one, other) && are_same_states(rest, behind),
        },
    }
}

fn is_same_function(one: &Function<'_>, other: &Function<'_>) -> bool
    ensures { result ≡ is_same_function one.now other.now }
{
    one.old_name == other.old_name
        && one.position == other.position
        && one.new_name == other.new_name
}

fn are_same_callbacks(one: Callbacks, other: Callbacks) -> bool
    ensures { result ≡ are_same_callbacks one other }
{
    one.pre_patch == other.pre_patch
        && one.post_patch == other.post_patch
        && one.pre_unpatch == other.pre_unpatch
        && one.post_unpatch == other.post_unpatch
}

/// Whether an object has one of the four callbacks.
fn has_callbacks(callbacks: Callbacks) -> bool
    ensures { result ≡ has_callbacks callbacks }
{
    callbacks.pre_patch || callbacks.post_patch || callbacks.pre_unpatch || callbacks.post_unpatch
}

/// Whether one of these changes is of the function of an object, too.
pub(crate) fn is_shared(
    others: &[Changed<'_>],
    row: &ObjectRow<'_>,
    function: &Function<'_>,
) -> bool
    ensures { result ≡ is_shared others.now row.now function.now }
{
    let changed = Changed {
        object: row.name,
        name: function.old_name,
        position: function.position,
    };
    is_changed_too(others, &changed)
}

/// Whether some functions of an object are among others, in their order, and each one that others change too is there.
fn are_among(
    others: &[Changed<'_>],
    row: &ObjectRow<'_>,
    kept: &[Function<'_>],
    all: &[Function<'_>],
) -> bool
    ensures { result ≡ are_among others.now row.now kept.now all.now }
{
    match all {
        [] => match kept {
            [] => true,
            _ => false,
        },
        [other, behind @ ..] => match kept {
            [one, rest @ ..] if is_same_function(one, other) => are_among(
                others, row, rest, behind,
            ),
            _ => !is_shared(others, row, other) && are_among(others, row, kept, behind),
        },
    }
}

fn is_part_of(others: &[Changed<'_>], part: &Object<'_>, whole: &Object<'_>) -> bool
    ensures { result ≡ is_part_of others.now part.now whole.now }
{
    name_of_row(&part.row) == name_of_row(&whole.row)
        && are_same_callbacks(part.row.callbacks, whole.row.callbacks)
        && are_among(others, &whole.row, &part.functions, &whole.functions)
}

/// Whether an object has a function that others change too.
fn has_shared(others: &[Changed<'_>], object: &Object<'_>) -> bool
    ensures { result ≡ list_any (is_shared others.now object.now.row) object.now.functions.items }
{
    object
        .functions
        .iter()
        .any(|function| is_shared(others, &object.row, function))
}

/// Whether an object has callbacks, or a function that others change too.
pub(crate) fn must_stay(others: &[Changed<'_>], object: &Object<'_>) -> bool
    ensures { result ≡ must_stay others.now object.now }
{
    has_callbacks(object.row.callbacks) || has_shared(others, object)
}

/// Whether some objects are parts of others, in their order, and each one that must stay is there.
fn are_parts_of(others: &[Changed<'_>], parts: &[Object<'_>], wholes: &[Object<'_>]) -> bool
    ensures { result ≡ are_parts_of others.now parts.now wholes.now }
{
    match wholes {
        [] => match parts {
            [] => true,
            _ => false,
        },
        [whole, behind @ ..] => match parts {
            [part, rest @ ..] if is_part_of(others, part, whole) => {
                are_parts_of(others, rest, behind)
            }
            _ => !must_stay(others, whole) && are_parts_of(others, parts, behind),
        },
    }
}

/// Returns how many functions some objects have together. Returns `None` if that is no `usize`.
pub(crate) fn count_functions(objects: &[Object<'_>]) -> Option<usize>
    ensures { MatchOption result (2 ^ 64 ≤ function_count objects.now) (λ count. count ≡ function_count objects.now) }
{
    match objects {
        [] => Some(0),
        [object, rest @ ..] => object.functions.len().checked_add(count_functions(rest)?),
    }
}

/// Whether two numbers are as much as a third one.
fn is_sum(one: usize, other: usize, sum: usize) -> bool
    ensures { result ≡ (one + other == sum) }
{
    one <= sum && other == sum - one
}

/// Whether a patch has as many objects and functions as some objects, with those that are left out.
fn counts_left_out(cut: &NamedPatch<'_, '_>, wholes: &[Object<'_>]) -> bool
    ensures yes { result ≡ true → counts_left_out cut.now wholes.now ≡ true }
    ensures exact { function_count cut.now.patch.now.objects.items < 2 ^ 64 → function_count wholes.now < 2 ^ 64
        → result ≡ counts_left_out cut.now wholes.now }
{
    let parts = &cut.patch.objects;
    let (Some(kept), Some(all)) = (count_functions(parts), count_functions(wholes)) else {
        return false;
    };
    is_sum(parts.len(), cut.left_out.objects, wholes.len())
        && is_sum(kept, cut.left_out.functions, all)
}

/// Whether a patch is another one, without some of its functions and without some of its objects that have no callbacks,
/// and says how many are left out. `others` are the functions that other patches change: none of these is left out. False
/// also if one of the patches has more functions than a `usize` counts.
pub fn is_cut_of(
    others: &[Changed<'_>],
    cut: &NamedPatch<'_, '_>,
    whole: &NamedPatch<'_, '_>,
) -> bool
    ensures yes { result ≡ true → is_cut_of others.now cut.now whole.now ≡ true }
    ensures exact { function_count cut.now.patch.now.objects.items < 2 ^ 64 → function_count whole.now.patch.now.objects.items < 2 ^ 64
        → result ≡ is_cut_of others.now cut.now whole.now }
{
    cut.name == whole.name
        && is_same_replacing(cut.patch.replaces, whole.patch.replaces)
        && are_same_states(&cut.patch.states, &whole.patch.states)
        && are_parts_of(others, &cut.patch.objects, &whole.patch.objects)
        && counts_left_out(cut, &whole.patch.objects)
}
