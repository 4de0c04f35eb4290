//! The tables of klp-build.
ghost use Rattle.std.specs.Prelude.{◌≡◌, ◌⊎◌, ◌≤◌, length, map, Some, None, Ok, Err, IfOk, MatchResult};
ghost use Rattle.klp_tables.specs.Counted.{rows_below, target_meaning};
ghost use Rattle.klp_tables.specs.KlpBuild.{built_function_row, built_functions, built_object_at, built_target_at, built_target_row, built_targets, counted_in, target_count};
ghost use Rattle.klp_tables.specs.Rows.{function_meaning, object_meaning};
ghost use Rattle.klp_tables.specs.declared.fault.TableFault.TheVariants.{NoMemory};

use crate::counted::{at_most, function_by, rows_in, section_size};
use crate::fault::TableFault;
use crate::layout::{CallbackPlaces, ObjectLayout};
use crate::limits::{MAX_FUNCTIONS, MAX_OBJECTS};
use crate::patch::{Function, Object, ObjectRow};
use crate::place::{moved, row_place};
use crate::row::{named_object, number32, pointer};
use klp_elf::{Elf, Place};
use std::alloc::Global;

/// A `struct klp_object_ext`. Behind the callbacks it has the number of functions.
pub(crate) const EXTERNAL: ObjectLayout = ObjectLayout {
    size: 64,
    name: 0,
    functions: 8,
    callbacks: CallbackPlaces {
        pre_patch: 16,
        post_patch: 24,
        pre_unpatch: 32,
        post_unpatch: 40,
    },
};

/// The bytes of a `struct klp_func_ext` and a `struct klp_object_ext`.
const FUNCTION: u64 = 24;

const OBJECT: u64 = 64;

/// Reads so many functions.
fn built_function_rows<'a>(
    alloc: Global,
    elf: &Elf<'a>,
    table: Place,
    count: usize,
) -> Result<Vec<Function<'a>>, TableFault>
    requires { count ≤ MAX_FUNCTIONS }
    ensures { MatchResult result
        (λ functions. (rows_below (built_function_row elf.now table) count ≡ Ok (map function_meaning functions.items))
        × (length functions.items ≤ count))
        (λ fault. (fault ≡ NoMemory) ⊎ (rows_below (built_function_row elf.now table) count ≡ Err fault)) }
{
    let mut functions = Vec::new(alloc);
    for k in 0..count {
        let place = row_place(table, FUNCTION, k as u64);
        match function_by(elf, place, moved(place, 8), moved(place, 16)) {
            Ok(function) => functions.push(function)?,
            Err(fault) => return Err(fault),
        }
    }
    Ok(functions)
}

/// Reads so many functions, to which the pointer at a place points.
fn built_functions<'a>(
    alloc: Global,
    elf: &Elf<'a>,
    at: Place,
    table: Option<Place>,
    count: usize,
) -> Result<Vec<Function<'a>>, TableFault>
    requires { count ≤ MAX_FUNCTIONS }
    ensures { MatchResult result
        (λ functions. (built_functions elf.now at table count ≡ Ok (map function_meaning functions.items)) × (length functions.items ≤ count))
        (λ fault. (fault ≡ NoMemory) ⊎ (built_functions elf.now at table count ≡ Err fault)) }
{
    match table {
        Some(table) => built_function_rows(alloc, elf, table, count),
        None if count == 0 => Ok(Vec::new(alloc)),
        None => Err(TableFault::NoRows(at)),
    }
}

/// Reads the row of an object, without its functions.
fn built_object_at<'a>(elf: &Elf<'a>, place: Place) -> Result<ObjectRow<'a>, TableFault>
    ensures { MatchResult result (λ row. built_object_at elf.now place ≡ Ok (object_meaning row))
        (λ fault. built_object_at elf.now place ≡ Err fault) }
{
    let name = pointer(elf, moved(place, EXTERNAL.name as u64))?;
    let functions = pointer(elf, moved(place, EXTERNAL.functions as u64))?;
    named_object(elf, EXTERNAL, place, name, functions)
}

/// Reads a number of functions, for which there is room.
fn counted_in(elf: &Elf<'_>, at: Place, room: usize) -> Result<usize, TableFault>
    ensures is { result ≡ counted_in elf.now at room }
    ensures within { IfOk result (λ n. n ≤ room) }
{
    let count = number32(elf, at)?;
    at_most(room, TableFault::TooManyFunctions, count as u64)
}

/// Reads an object with its functions, for which there is room.
fn built_target_at<'a>(
    alloc: Global,
    elf: &Elf<'a>,
    place: Place,
    room: usize,
) -> Result<Object<'a>, TableFault>
    requires { room ≤ MAX_FUNCTIONS }
    ensures { MatchResult result
        (λ object. (built_target_at elf.now place room ≡ Ok (target_meaning object)) × (length object.functions.items ≤ room))
        (λ fault. (fault ≡ NoMemory) ⊎ (built_target_at elf.now place room ≡ Err fault)) }
{
    let row = match built_object_at(elf, place) {
        Ok(row) => row,
        Err(fault) => return Err(fault),
    };
    let count = match counted_in(elf, moved(place, 56), room) {
        Ok(count) => count,
        Err(fault) => return Err(fault),
    };
    match built_functions(alloc, elf, moved(place, 8), row.functions, count) {
        Ok(functions) => Ok(Object { row, functions }),
        Err(fault) => Err(fault),
    }
}

/// Reads so many objects, each with its functions.
fn built_target_rows<'a>(
    alloc: Global,
    elf: &Elf<'a>,
    table: Place,
    count: usize,
) -> Result<Vec<Object<'a>>, TableFault>
    requires { count ≤ MAX_OBJECTS }
    ensures { MatchResult result (λ objects. rows_below (built_target_row elf.now table) count ≡ Ok (map target_meaning objects.items))
        (λ fault. (fault ≡ NoMemory) ⊎ (rows_below (built_target_row elf.now table) count ≡ Err fault)) }
{
    let mut objects = Vec::new(alloc);
    let mut room = MAX_FUNCTIONS;
    for k in 0..count {
        match built_target_at(alloc, elf, row_place(table, OBJECT, k as u64), room) {
            Ok(object) => {
                room -= object.functions.len();
                objects.push(object)?;
            }
            Err(fault) => return Err(fault),
        }
    }
    Ok(objects)
}

/// Returns how many objects there are.
fn target_count(elf: &Elf<'_>, table: Place) -> Result<usize, TableFault>
    ensures is { result ≡ target_count elf.now table }
    ensures within { IfOk result (λ n. n ≤ MAX_OBJECTS) }
{
    let count = rows_in(table, OBJECT, section_size(elf, table))?;
    at_most(MAX_OBJECTS, TableFault::TooManyObjects, count)
}

/// Reads the objects of a patch, which begin here.
pub(crate) fn built_targets<'a>(
    alloc: Global,
    elf: &Elf<'a>,
    table: Place,
) -> Result<Vec<Object<'a>>, TableFault>
    ensures { MatchResult result (λ objects. built_targets elf.now table ≡ Ok (map target_meaning objects.items))
        (λ fault. (fault ≡ NoMemory) ⊎ (built_targets elf.now table ≡ Err fault)) }
{
    match target_count(elf, table) {
        Ok(count) => built_target_rows(alloc, elf, table, count),
        Err(fault) => Err(fault),
    }
}
