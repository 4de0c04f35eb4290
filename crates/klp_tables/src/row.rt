//! The rows of a livepatch's tables.
ghost use Rattle.std.specs.Prelude.{◌≡◌, ◌==◌, Some, None, Ok, Err, option_map, MatchResult};
ghost use Rattle.klp_tables.specs.Rows.{callbacks_at, function_at, function_meaning, function_name_to, has_size, is_null, is_set, name_to, named_function, named_object, number_in, object_at, object_meaning, object_name_to, pointer_in, rows_to, state_at};

use crate::fault::TableFault;
use crate::layout::{CallbackPlaces, FunctionLayout, ObjectLayout, StateLayout};
use crate::patch::{Callbacks, Function, ObjectRow, State};
use crate::place::moved;
use klp_elf::{Elf, Place, Pointer};

pub(crate) fn pointer(elf: &Elf<'_>, place: Place) -> Result<Pointer, TableFault>
    ensures { result ≡ pointer_in elf.now place }
{
    match elf.pointer(place) {
        Ok(pointer) => Ok(pointer),
        Err(fault) => Err(TableFault::Look(fault)),
    }
}

pub(crate) fn number64(elf: &Elf<'_>, place: Place) -> Result<u64, TableFault>
    ensures { result ≡ number_in 8 elf.now place }
{
    match elf.number64(place) {
        Ok(number) => Ok(number),
        Err(fault) => Err(TableFault::Look(fault)),
    }
}

pub(crate) fn number32(elf: &Elf<'_>, place: Place) -> Result<u32, TableFault>
    ensures { result ≡ number_in 4 elf.now place }
{
    match elf.number32(place) {
        Ok(number) => Ok(number),
        Err(fault) => Err(TableFault::Look(fault)),
    }
}

fn is_null(pointer: Pointer) -> bool
    ensures { result ≡ is_null pointer }
{
    matches!(pointer, Pointer::Null)
}

/// Returns the name to which the pointer at a place points.
pub(crate) fn name_to<'a>(
    elf: &Elf<'a>,
    at: Place,
    pointer: Pointer,
) -> Result<&'a [u8], TableFault>
    ensures { MatchResult result (λ name. name_to elf.now at pointer ≡ Ok name.now) (λ fault. name_to elf.now at pointer ≡ Err fault) }
{
    match pointer {
        Pointer::To(place) => match elf.string(place) {
            Ok(name) => Ok(name),
            Err(fault) => Err(TableFault::Look(fault)),
        },
        _ => Err(TableFault::NoName(at)),
    }
}

/// Returns the name of the function to which the pointer at a place points.
pub(crate) fn function_name_to<'a>(
    elf: &Elf<'a>,
    at: Place,
    pointer: Pointer,
) -> Result<&'a [u8], TableFault>
    ensures { MatchResult result (λ name. function_name_to elf.now at pointer ≡ Ok name.now)
        (λ fault. function_name_to elf.now at pointer ≡ Err fault) }
{
    match pointer {
        Pointer::To(place) => match elf.function_at(place) {
            Some(symbol) => Ok(elf.symbol_name(symbol)),
            None => Err(TableFault::NoFunction(at)),
        },
        _ => Err(TableFault::NoFunction(at)),
    }
}

/// Returns the function of a row with these pointers and this position.
fn named_function<'a>(
    elf: &Elf<'a>,
    layout: FunctionLayout,
    place: Place,
    old: Pointer,
    new: Pointer,
    position: u64,
) -> Result<Function<'a>, TableFault>
    ensures { MatchResult result (λ function. named_function elf.now layout place old new position ≡ Ok (function_meaning function))
        (λ fault. named_function elf.now layout place old new position ≡ Err fault) }
{
    let old_name = name_to(elf, moved(place, layout.old_name as u64), old)?;
    let new_name = function_name_to(elf, moved(place, layout.new_function as u64), new)?;
    Ok(Function {
        old_name,
        position,
        new_name,
    })
}

/// Reads the row of a function. Returns `None` if it is empty.
pub(crate) fn function_at<'a>(
    elf: &Elf<'a>,
    layout: FunctionLayout,
    place: Place,
) -> Result<Option<Function<'a>>, TableFault>
    ensures { MatchResult result (λ row. function_at elf.now layout place ≡ Ok (option_map function_meaning row))
        (λ fault. function_at elf.now layout place ≡ Err fault) }
{
    let old = pointer(elf, moved(place, layout.old_name as u64))?;
    let new = pointer(elf, moved(place, layout.new_function as u64))?;
    let position = number64(elf, moved(place, layout.position as u64))?;
    if is_null(old) && is_null(new) && position == 0 {
        return Ok(None);
    }
    let function = named_function(elf, layout, place, old, new, position)?;
    Ok(Some(function))
}

/// Returns the name of an object. The kernel's image has none.
fn object_name_to<'a>(
    elf: &Elf<'a>,
    at: Place,
    pointer: Pointer,
) -> Result<Option<&'a [u8]>, TableFault>
    ensures { MatchResult result (λ name. object_name_to elf.now at pointer ≡ Ok (option_map (λ n. n.now) name))
        (λ fault. object_name_to elf.now at pointer ≡ Err fault) }
{
    match pointer {
        Pointer::Null => Ok(None),
        Pointer::To(place) => match elf.string(place) {
            Ok(name) => Ok(Some(name)),
            Err(fault) => Err(TableFault::Look(fault)),
        },
        Pointer::Outside(_) => Err(TableFault::NoName(at)),
    }
}

fn rows_to(at: Place, pointer: Pointer) -> Result<Option<Place>, TableFault>
    ensures { result ≡ rows_to at pointer }
{
    match pointer {
        Pointer::Null => Ok(None),
        Pointer::To(place) => Ok(Some(place)),
        Pointer::Outside(_) => Err(TableFault::NoRows(at)),
    }
}

/// Whether the pointer at a place points to something.
fn is_set(elf: &Elf<'_>, place: Place) -> Result<bool, TableFault>
    ensures { result ≡ is_set elf.now place }
{
    let pointer = pointer(elf, place)?;
    Ok(!is_null(pointer))
}

/// Reads which of the four callbacks an object has.
fn callbacks_at(
    elf: &Elf<'_>,
    places: CallbackPlaces,
    place: Place,
) -> Result<Callbacks, TableFault>
    ensures { result ≡ callbacks_at elf.now places place }
{
    let pre_patch = is_set(elf, moved(place, places.pre_patch as u64))?;
    let post_patch = is_set(elf, moved(place, places.post_patch as u64))?;
    let pre_unpatch = is_set(elf, moved(place, places.pre_unpatch as u64))?;
    let post_unpatch = is_set(elf, moved(place, places.post_unpatch as u64))?;
    Ok(Callbacks {
        pre_patch,
        post_patch,
        pre_unpatch,
        post_unpatch,
    })
}

/// Returns the object of a row with these pointers.
pub(crate) fn named_object<'a>(
    elf: &Elf<'a>,
    layout: ObjectLayout,
    place: Place,
    name: Pointer,
    functions: Pointer,
) -> Result<ObjectRow<'a>, TableFault>
    ensures { MatchResult result (λ row. named_object elf.now layout place name functions ≡ Ok (object_meaning row))
        (λ fault. named_object elf.now layout place name functions ≡ Err fault) }
{
    let name = object_name_to(elf, moved(place, layout.name as u64), name)?;
    let functions = rows_to(moved(place, layout.functions as u64), functions)?;
    let callbacks = callbacks_at(elf, layout.callbacks, place)?;
    Ok(ObjectRow {
        name,
        functions,
        callbacks,
    })
}

/// Reads the row of a `struct klp_object`. Returns `None` if it is empty.
pub(crate) fn object_at<'a>(
    elf: &Elf<'a>,
    layout: ObjectLayout,
    place: Place,
) -> Result<Option<ObjectRow<'a>>, TableFault>
    ensures { MatchResult result (λ row. object_at elf.now layout place ≡ Ok (option_map object_meaning row))
        (λ fault. object_at elf.now layout place ≡ Err fault) }
{
    let name = pointer(elf, moved(place, layout.name as u64))?;
    let functions = pointer(elf, moved(place, layout.functions as u64))?;
    if is_null(name) && is_null(functions) {
        return Ok(None);
    }
    let row = named_object(elf, layout, place, name, functions)?;
    Ok(Some(row))
}

/// Reads the row of a `struct klp_state`. Returns `None` if it is empty.
pub(crate) fn state_at(
    elf: &Elf<'_>,
    layout: StateLayout,
    place: Place,
) -> Result<Option<State>, TableFault>
    ensures { result ≡ state_at elf.now layout place }
{
    let id = number64(elf, moved(place, layout.id as u64))?;
    if id == 0 {
        return Ok(None);
    }
    let version = number32(elf, moved(place, layout.version as u64))?;
    Ok(Some(State { id, version }))
}

/// Whether the variable that begins at a place, if there is one, has this size.
pub(crate) fn has_size(elf: &Elf<'_>, place: Place, size: u64) -> bool
    ensures { result ≡ has_size elf.now place size }
{
    match elf.object_at(place) {
        Some(symbol) => symbol.size == size,
        None => true,
    }
}
