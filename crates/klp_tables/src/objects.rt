//! All objects of a patch, each with its functions.
ghost use Rattle.std.specs.Prelude.{◌≡◌, ◌⊎◌, ◌≤◌, ◌<◌, true, map, length, Some, None, Ok, MatchOption, MatchResult};
ghost use Rattle.std.specs.List.{All};
ghost use Rattle.klp_tables.specs.Faults.{FailsAtObject, HasMoreRows, IsObjectFault, IsObjectTableFault};
ghost use Rattle.klp_tables.specs.Rows.{has_functions, object_at, object_row, row_of, IsObjectTable, IsTable};
ghost use Rattle.klp_tables.specs.declared.fault.TableFault.TheVariants.{NoMemory, TooManyObjects};

use crate::fault::TableFault;
use crate::layout::Layout;
use crate::limits::{MAX_FUNCTIONS, MAX_OBJECTS};
use crate::patch::Object;
use crate::place::{bytes_of_rows, row_place};
use crate::row::{has_size, object_at};
use crate::rows::functions_of;
use klp_elf::{Elf, Place};
use std::alloc::Global;

/// Reads the object of a row with its functions, for which there is room. Returns `None` if the row is empty.
fn object_with_functions<'a>(
    alloc: Global,
    elf: &Elf<'a>,
    layout: Layout,
    place: Place,
    room: usize,
) -> Result<Option<Object<'a>>, TableFault>
    requires { room ≤ MAX_FUNCTIONS }
    ensures { MatchResult result
        (λ object. MatchOption object (object_at elf.now layout.object place ≡ Ok None)
        (λ o. (object_at elf.now layout.object place ≡ Ok (Some (row_of o))) × has_functions elf.now layout.function o
        × (length o.functions.items ≤ room)))
        (λ fault. (fault ≡ NoMemory) ⊎ IsObjectFault elf.now layout place room fault) }
{
    let row = match object_at(elf, layout.object, place) {
        Ok(Some(row)) => row,
        Ok(None) => return Ok(None),
        Err(fault) => return Err(fault),
    };
    match functions_of(alloc, elf, layout.function, row.functions, room) {
        Ok(functions) => Ok(Some(Object { row, functions })),
        Err(fault) => Err(fault),
    }
}

/// Reads objects up to the first empty row.
fn objects_to_end<'a>(
    alloc: Global,
    elf: &Elf<'a>,
    layout: Layout,
    table: Place,
) -> Result<Vec<Object<'a>>, TableFault>
    ensures { MatchResult result
        (λ objects. IsTable (object_row elf.now layout.object table) (map row_of objects.items)
        × All (has_functions elf.now layout.function) objects.items × (length objects.items ≤ MAX_OBJECTS))
        (λ fault. (fault ≡ NoMemory) ⊎ (FailsAtObject elf.now layout table fault
        ⊎ ((fault ≡ TooManyObjects) × HasMoreRows (object_row elf.now layout.object table) MAX_OBJECTS))) }
{
    let mut objects = Vec::new(alloc);
    let mut room = MAX_FUNCTIONS;
    for k in 0..MAX_OBJECTS + 1 {
        let place = row_place(table, layout.object.size as u64, k as u64);
        match object_with_functions(alloc, elf, layout, place, room) {
            Ok(Some(object)) => {
                room -= object.functions.len();
                objects.push(object)?;
            }
            Ok(None) => return Ok(objects),
            Err(fault) => return Err(fault),
        }
    }
    Err(TableFault::TooManyObjects)
}

/// Reads the objects of a table. Returns `Err` if its variable has another size.
pub(crate) fn object_table<'a>(
    alloc: Global,
    elf: &Elf<'a>,
    layout: Layout,
    table: Place,
) -> Result<Vec<Object<'a>>, TableFault>
    ensures { MatchResult result (λ objects. IsObjectTable elf.now layout table objects.items)
        (λ fault. (fault ≡ NoMemory) ⊎ IsObjectTableFault elf.now layout table fault) }
{
    let objects = match objects_to_end(alloc, elf, layout, table) {
        Ok(objects) => objects,
        Err(fault) => return Err(fault),
    };
    let wanted = bytes_of_rows(layout.object.size, objects.len());
    if has_size(elf, table, wanted) {
        Ok(objects)
    } else {
        Err(TableFault::Layout { table, wanted })
    }
}
