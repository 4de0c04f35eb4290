//! What is there twice.
ghost use Rattle.std.specs.Prelude.{◌≡◌, count_by};
ghost use Rattle.klp_module_fit.specs.Fit.{first_twice, is_same_object, is_same_patch, is_same_state, is_twice};

use crate::NamedPatch;
use klp_module_matrix::name_of_row;
use klp_tables::{Object, State};

/// Whether two tables are of one object.
fn is_same_object(one: &Object<'_>, other: &Object<'_>) -> bool
    ensures { result ≡ is_same_object one.now other.now }
{
    name_of_row(&one.row) == name_of_row(&other.row)
}

fn is_same_state(one: &State, other: &State) -> bool
    ensures { result ≡ is_same_state one.now other.now }
{
    one.id == other.id
}

fn is_same_patch(one: &NamedPatch<'_, '_>, other: &NamedPatch<'_, '_>) -> bool
    ensures { result ≡ is_same_patch one.now other.now }
{
    one.name == other.name
}

fn count_of_object(objects: &[Object<'_>], one: &Object<'_>) -> usize
    ensures { result ≡ count_by (is_same_object one.now) objects.now }
{
    let mut count: usize = 0;
    for other in objects {
        if is_same_object(one, other) {
            count += 1;
        }
    }
    count
}

fn is_object_twice(objects: &[Object<'_>], one: &Object<'_>) -> bool
    ensures { result ≡ is_twice is_same_object objects.now one.now }
{
    1 < count_of_object(objects, one)
}

/// Returns the number of the first object that has several tables.
pub(crate) fn object_twice(objects: &[Object<'_>]) -> Option<usize>
    ensures { result ≡ first_twice is_same_object objects.now }
{
    objects.iter().position(|one| is_object_twice(objects, one))
}

fn count_of_state(states: &[State], one: &State) -> usize
    ensures { result ≡ count_by (is_same_state one.now) states.now }
{
    let mut count: usize = 0;
    for other in states {
        if is_same_state(one, other) {
            count += 1;
        }
    }
    count
}

fn is_state_twice(states: &[State], one: &State) -> bool
    ensures { result ≡ is_twice is_same_state states.now one.now }
{
    1 < count_of_state(states, one)
}

/// Returns the number of the first state whose id several states have.
pub(crate) fn state_twice(states: &[State]) -> Option<usize>
    ensures { result ≡ first_twice is_same_state states.now }
{
    states.iter().position(|one| is_state_twice(states, one))
}

fn count_of_patch(patches: &[NamedPatch<'_, '_>], one: &NamedPatch<'_, '_>) -> usize
    ensures { result ≡ count_by (is_same_patch one.now) patches.now }
{
    let mut count: usize = 0;
    for other in patches {
        if is_same_patch(one, other) {
            count += 1;
        }
    }
    count
}

fn is_patch_twice(patches: &[NamedPatch<'_, '_>], one: &NamedPatch<'_, '_>) -> bool
    ensures { result ≡ is_twice is_same_patch patches.now one.now }
{
    1 < count_of_patch(patches, one)
}

/// Returns the number of the first patch whose name several patches have.
pub(crate) fn patch_twice(patches: &[NamedPatch<'_, '_>]) -> Option<usize>
    ensures { result ≡ first_twice is_same_patch patches.now }
{
    patches.iter().position(|one| is_patch_twice(patches, one))
}
