//! Tables that fill a section or have a number of rows: no empty row ends them.
ghost use Rattle.std.specs.Prelude.{◌≡◌, ◌≤◌, Some, None, Ok, Err, IfOk, MatchResult, slice_get};
ghost use Rattle.klp_tables.specs.Counted.{at_most, function_by, function_name_at, name_at, place_of_section, rows_in, section_place, section_size, size_of};
ghost use Rattle.klp_tables.specs.Rows.{function_meaning};

use crate::fault::TableFault;
use crate::patch::Function;
use crate::row::{function_name_to, name_to, number64, pointer};
use klp_elf::{Elf, Place};

/// Returns where a section begins, if its number fits into a place.
fn place_of_section(number: Option<usize>) -> Option<Place>
    ensures { result ≡ place_of_section number }
{
    match number {
        Some(number) if number < 65536 => Some(Place {
            section: number as u16,
            offset: 0,
        }),
        _ => None,
    }
}

/// Returns where the first section of a name begins.
pub(crate) fn section_place(elf: &Elf<'_>, name: &[u8]) -> Option<Place>
    ensures { result ≡ section_place elf.now name.now }
{
    place_of_section(elf.section_named(name))
}

/// Returns the bytes of a place's section.
pub(crate) fn section_size(elf: &Elf<'_>, table: Place) -> u64
    ensures { result ≡ section_size elf.now table }
{
    match elf.sections.get(table.section as usize) {
        Some(section) => section.size,
        None => 0,
    }
}

/// Returns a number if it is at most so large, and else the fault.
pub(crate) fn at_most(limit: usize, fault: TableFault, count: u64) -> Result<usize, TableFault>
    ensures is { result ≡ at_most limit fault count }
    ensures within { IfOk result (λ n. n ≤ limit) }
{
    if (limit as u64) < count {
        Err(fault)
    } else {
        Ok(count as usize)
    }
}

/// Returns how many rows of so many bytes fill a section with so many bytes.
pub(crate) fn rows_in(table: Place, width: u64, size: u64) -> Result<u64, TableFault>
    requires { 1 ≤ width }
    ensures { result ≡ rows_in table width size }
{
    if size % width == 0 {
        Ok(size / width)
    } else {
        Err(TableFault::Ragged { table, width })
    }
}

/// Returns the name to which the pointer at a place points.
pub(crate) fn name_at<'a>(elf: &Elf<'a>, at: Place) -> Result<&'a [u8], TableFault>
    ensures { MatchResult result (λ name. name_at elf.now at ≡ Ok name.now) (λ fault. name_at elf.now at ≡ Err fault) }
{
    let pointer = pointer(elf, at)?;
    name_to(elf, at, pointer)
}

/// Returns the name of the function to which the pointer at a place points.
pub(crate) fn function_name_at<'a>(elf: &Elf<'a>, at: Place) -> Result<&'a [u8], TableFault>
    ensures { MatchResult result (λ name. function_name_at elf.now at ≡ Ok name.now) (λ fault. function_name_at elf.now at ≡ Err fault) }
{
    let pointer = pointer(elf, at)?;
    function_name_to(elf, at, pointer)
}

/// Returns a function by where the pointers to its old name and to its new version, and its position are.
pub(crate) fn function_by<'a>(
    elf: &Elf<'a>,
    old: Place,
    new: Place,
    position: Place,
) -> Result<Function<'a>, TableFault>
    ensures { MatchResult result (λ function. function_by elf.now old new position ≡ Ok (function_meaning function))
        (λ fault. function_by elf.now old new position ≡ Err fault) }
{
    let old_name = name_at(elf, old)?;
    let new_name = function_name_at(elf, new)?;
    let position = number64(elf, position)?;
    Ok(Function {
        old_name,
        position,
        new_name,
    })
}
