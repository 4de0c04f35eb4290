//! Which functions two patches change.
ghost use Rattle.std.specs.Prelude.{◌≡◌, ◌++◌, map, option_map, IfOk};
ghost use Rattle.klp_module_matrix.specs.Changes.{changed_by, changed_in, is_alike, is_changed_too, is_same_object, lost_of, meaning, shared_of, symbol_of};

use klp_tables::{Function, Object};
use std::alloc::{AllocError, Global};

/// A function that a patch changes, with its object.
#[derive(Clone, Copy)]
pub struct Changed<'a> {
    /// The name of the module. The kernel's image has none.
    pub object: Option<&'a [u8]>,
    pub name: &'a [u8],
    /// The number of the symbol among those of its name.
    pub position: u64,
}

fn is_same_object(one: Option<&[u8]>, other: Option<&[u8]>) -> bool
    ensures { result ≡ is_same_object (option_map (λ n. n.now) one.entry) (option_map (λ n. n.now) other.entry) }
{
    match (one, other) {
        (Some(one), Some(other)) => one == other,
        (None, None) => true,
        _ => false,
    }
}

/// Returns the number of a symbol. It is the first one of its name, if none is given.
fn symbol_of(position: u64) -> u64
    ensures { result ≡ symbol_of position }
{
    position.max(1)
}

/// Whether two patches change the same function.
fn is_alike(one: &Changed<'_>, other: &Changed<'_>) -> bool
    ensures { result ≡ is_alike one.now other.now }
{
    is_same_object(one.object, other.object)
        && one.name == other.name
        && symbol_of(one.position) == symbol_of(other.position)
}

/// Whether one of these functions is this one.
pub fn is_changed_too(changed: &[Changed<'_>], function: &Changed<'_>) -> bool
    ensures { result ≡ is_changed_too changed.now function.now }
{
    changed.iter().any(|other| is_alike(function, other))
}

fn append_functions<'a>(
    changed: &mut Vec<Changed<'a>>,
    object: Option<&'a [u8]>,
    functions: &[Function<'a>],
) -> Result<(), AllocError>
    ensures { IfOk result (λ _. map meaning changed.new.items
        ≡ map meaning changed.old.items ++ map (changed_in (option_map (λ n. n.now) object.entry)) functions.now) }
{
    for function in functions {
        let Function {
            old_name,
            position,
            ..
        } = *function;
        changed.push(Changed {
            object,
            name: old_name,
            position,
        })?;
    }
    Ok(())
}

/// Adds all functions that a patch changes, in the order of its tables. `objects` are the patch's tables. Returns `Err`
/// if memory runs out; then some functions may have been added.
pub fn append_changed<'a>(
    changed: &mut Vec<Changed<'a>>,
    objects: &[Object<'a>],
) -> Result<(), AllocError>
    ensures { IfOk result (λ _. map meaning changed.new.items ≡ map meaning changed.old.items ++ changed_by objects.now) }
{
    for object in objects {
        append_functions(changed, object.row.name, &object.functions)?;
    }
    Ok(())
}

/// Returns all functions that a patch changes, in the order of its tables.
pub fn changed_by<'a>(alloc: Global, objects: &[Object<'a>]) -> Result<Vec<Changed<'a>>, AllocError>
    ensures { IfOk result (λ changed. map meaning changed.items ≡ changed_by objects.now) }
{
    let mut changed = Vec::new(alloc);
    append_changed(&mut changed, objects)?;
    Ok(changed)
}

/// Returns the functions that only the older patch changes. If it is taken out, their originals run again.
pub(crate) fn lost<'a>(
    alloc: Global,
    older: &[Changed<'a>],
    newer: &[Changed<'_>],
) -> Result<Vec<Changed<'a>>, AllocError>
    ensures { IfOk result (λ lost. lost.items ≡ lost_of older.now newer.now) }
{
    let mut lost = Vec::new(alloc);
    for function in older {
        if !is_changed_too(newer, function) {
            lost.push(*function)?;
        }
    }
    Ok(lost)
}

/// Returns the functions of the older patch that the newer one changes too.
pub(crate) fn shared<'a>(
    alloc: Global,
    older: &[Changed<'a>],
    newer: &[Changed<'_>],
) -> Result<Vec<Changed<'a>>, AllocError>
    ensures { IfOk result (λ shared. shared.items ≡ shared_of older.now newer.now) }
{
    let mut shared = Vec::new(alloc);
    for function in older {
        if is_changed_too(newer, function) {
            shared.push(*function)?;
        }
    }
    Ok(shared)
}
