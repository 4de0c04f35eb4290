//! Cuts a patch down.
ghost use Rattle.std.specs.Prelude.{◌≡◌, ◌++◌, map, IfOk};
ghost use Rattle.klp_module_matrix.specs.Changes.{meaning};
ghost use Rattle.klp_module_cut.specs.Cut.{changed_by_all, changed_by_others};

use crate::check::count_functions;
use crate::choice::Choice;
use klp_module_fit::{LeftOut, NamedPatch};
use klp_module_matrix::{Changed, append_changed};
use klp_tables::{Object, Patch};
use std::alloc::{AllocError, Global};

/// How much of a patch may stay.
#[derive(Clone, Copy)]
pub struct CutRoom {
    /// At most so many functions stay, or those that another patch changes too if there are more of them.
    pub functions: usize,
    /// At most so many objects stay, or those that must if there are more of them: with callbacks, or with a function that
    /// another patch changes too.
    pub objects: usize,
}

/// What a cut leaves of a patch, and how much it leaves out.
#[derive(Drop)]
pub struct Cut<'p, 'a> {
    pub name: &'p [u8],
    pub patch: Patch<'a>,
    pub left_out: LeftOut,
}

impl<'p, 'a> Cut<'p, 'a> {
    /// Returns the patch that is left, with its name and what is left out.
    pub fn named<'c>(&'c self) -> NamedPatch<'c, 'a> {
        NamedPatch {
            name: self.name,
            patch: &self.patch,
            left_out: self.left_out,
        }
    }
}

/// Returns an object with those of its functions that stay.
fn part_of<'c, 'a>(
    alloc: Global,
    object: &Object<'a>,
    choice: &mut Choice<'c, 'a>,
) -> Result<Object<'a>, AllocError> {
    let mut functions = Vec::new(alloc);
    for function in &object.functions {
        if choice.takes(object, function) {
            functions.push(*function)?;
        }
    }
    Ok(Object {
        row: object.row,
        functions,
    })
}

/// Returns how many are left out.
fn left_out(objects: &[Object<'_>], parts: &[Object<'_>]) -> LeftOut {
    let all = count_functions(objects).unwrap_or(usize::MAX);
    let kept = count_functions(parts).unwrap_or(usize::MAX);
    LeftOut {
        functions: all.saturating_sub(kept),
        objects: objects.len().saturating_sub(parts.len()),
    }
}

/// Adds all functions that some patches change. Returns `Err` if memory runs out; then some may have been added.
fn append_all<'a>(
    changed: &mut Vec<Changed<'a>>,
    patches: &[NamedPatch<'_, 'a>],
) -> Result<(), AllocError>
    ensures { IfOk result (λ _. map meaning changed.new.items ≡ map meaning changed.old.items ++ changed_by_all patches.now) }
{
    for named in patches {
        append_changed(changed, &named.patch.objects)?;
    }
    Ok(())
}

/// Returns all functions that patches other than the one of this number change. Numbers count from 0.
pub fn changed_by_others<'a>(
    alloc: Global,
    patches: &[NamedPatch<'_, 'a>],
    number: usize,
) -> Result<Vec<Changed<'a>>, AllocError>
    ensures { IfOk result (λ changed. map meaning changed.items ≡ changed_by_others patches.now number) }
{
    let mut changed = Vec::new(alloc);
    let (front, rest) = patches.split_at(number.min(patches.len()));
    append_all(&mut changed, front)?;
    if let [_own, behind @ ..] = rest {
        append_all(&mut changed, behind)?;
    }
    Ok(changed)
}

/// Returns a patch without what there is no room for. `others` are the functions that other patches change. These stay, as
/// callbacks and system states do; of other functions and objects the first ones of the tables stay.
///
/// Returns `Err` if memory runs out. The cost is a step for each function of this patch with each one of the others.
/// [`is_cut_of`](crate::is_cut_of) decides whether the result is a cut.
pub fn cut_patch<'p, 'a>(
    alloc: Global,
    others: &[Changed<'a>],
    named: &NamedPatch<'p, 'a>,
    room: CutRoom,
) -> Result<Cut<'p, 'a>, AllocError> {
    let whole = named.patch;
    let mut choice = Choice::new(alloc, others, &whole.objects, room)?;
    let mut objects = Vec::new(alloc);
    for (place, object) in whole.objects.iter().enumerate() {
        if choice.has_object(place) {
            objects.push(part_of(alloc, object, &mut choice)?)?;
        }
    }
    let mut states = Vec::new(alloc);
    for state in &whole.states {
        states.push(*state)?;
    }
    let left_out = left_out(&whole.objects, &objects);
    Ok(Cut {
        name: named.name,
        patch: Patch {
            objects,
            states,
            replaces: whole.replaces,
        },
        left_out,
    })
}
