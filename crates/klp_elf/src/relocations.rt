//! The relocations of a file, and what is wrong with them.
ghost use Rattle.std.specs.Prelude.{◌≡◌, ◌⊎◌, ◌≤◌, ◌<◌, ◌*◌, ◌++◌, length, position, slice_get, Some, None, IfOk, MatchResult};
ghost use Rattle.std.specs.List.{find, flat_map};
ghost use Rattle.std.specs.Option.{option_copied};
ghost use Rattle.klp_elf.specs.Faults.{is_ragged_table, many_fault, names_no_symbol, relocations_fault};
ghost use Rattle.klp_elf.specs.Rows.{relocation_at};
ghost use Rattle.klp_elf.specs.Tables.{is_applied, relocations_by, relocations_in, rows_of};
ghost use Rattle.klp_elf.specs.declared.fault.ElfFault.TheVariants.{NoMemory, TooManyRelocations};

use crate::elf::MAX_RELOCATIONS;
use crate::fault::ElfFault;
use crate::row::{Relocation, Section, SectionKind, relocation_at};
use crate::table::{ROW, bytes_of, is_ragged};
use std::alloc::Global;

/// Whether a table has relocations of a section that is loaded. A kernel leaves the others out.
fn is_applied(sections: &[Section], table: &Section) -> bool
    ensures { result ≡ is_applied sections.now table.now }
{
    match (table.kind, sections.get(table.info as usize)) {
        (SectionKind::Relocations, Some(changed)) => changed.is_loaded(),
        _ => false,
    }
}

fn is_ragged_table(sections: &[Section], table: &Section) -> bool
    ensures { result ≡ is_ragged_table sections.now table.now }
{
    is_applied(sections, table) && is_ragged(table)
}

/// Returns the number of the first section whose relocations haven't 24 bytes each.
fn ragged_table(sections: &[Section]) -> Option<usize>
    ensures { result ≡ position (is_ragged_table sections.now) sections.now }
{
    sections
        .iter()
        .position(|table| is_ragged_table(sections, table))
}

/// Appends the rows of a table of relocations of this section. Appends none if there were too many then.
fn append_rows(
    relocations: &mut Vec<Relocation>,
    section: u32,
    table: &[u8],
) -> Result<(), ElfFault>
    requires { length relocations.old.items ≤ MAX_RELOCATIONS }
    ensures { MatchResult result
        (λ _. (relocations.new.items ≡ relocations.old.items ++ rows_of 24 (relocation_at section) table.now)
        × (length relocations.new.items ≤ MAX_RELOCATIONS))
        (λ fault. (fault ≡ NoMemory) ⊎ ((fault ≡ TooManyRelocations)
        × (MAX_RELOCATIONS < length (relocations.old.items ++ rows_of 24 (relocation_at section) table.now)))) }
{
    if MAX_RELOCATIONS - relocations.len() < table.len() / ROW {
        return Err(ElfFault::TooManyRelocations);
    }
    for k in 0..table.len() / ROW {
        relocations.push(relocation_at(section, table, ROW * k))?;
    }
    Ok(())
}

/// Appends the relocations of a table, if they are of a section that is loaded.
fn append_table(
    relocations: &mut Vec<Relocation>,
    bytes: &[u8],
    sections: &[Section],
    table: &Section,
) -> Result<(), ElfFault>
    requires { length relocations.old.items ≤ MAX_RELOCATIONS }
    ensures { MatchResult result
        (λ _. (relocations.new.items ≡ relocations.old.items ++ relocations_by bytes.now sections.now table.now)
        × (length relocations.new.items ≤ MAX_RELOCATIONS))
        (λ fault. (fault ≡ NoMemory) ⊎ ((fault ≡ TooManyRelocations)
        × (MAX_RELOCATIONS < length (relocations.old.items ++ relocations_by bytes.now sections.now table.now)))) }
{
    if !is_applied(sections, table) {
        return Ok(());
    }
    append_rows(relocations, table.info, bytes_of(bytes, table))
}

/// Reads all relocations of a file with these sections.
fn all_rows(alloc: Global, bytes: &[u8], sections: &[Section]) -> Result<Vec<Relocation>, ElfFault>
    ensures { MatchResult result
        (λ relocations. (relocations.items ≡ relocations_in bytes.now sections.now)
        × (many_fault (relocations_in bytes.now sections.now) ≡ None))
        (λ fault. (fault ≡ NoMemory) ⊎ (many_fault (relocations_in bytes.now sections.now) ≡ Some fault)) }
{
    let mut relocations = Vec::new(alloc);
    for table in sections {
        if let Err(fault) = append_table(&mut relocations, bytes, sections, table) {
            return Err(fault);
        }
    }
    Ok(relocations)
}

fn names_no_symbol(relocation: &Relocation, count: usize) -> bool
    ensures { result ≡ names_no_symbol count relocation.now }
{
    count <= relocation.symbol as usize
}

/// Returns the first relocation that doesn't name one of so many symbols.
fn first_without_symbol(relocations: &[Relocation], count: usize) -> Option<&Relocation>
    ensures { option_copied result ≡ find (names_no_symbol count) relocations.now }
{
    relocations
        .iter()
        .find(|relocation| names_no_symbol(relocation, count))
}

/// Reads the relocations of a file with these sections and so many symbols. Returns as `Err` what is wrong with them.
pub(crate) fn relocations_in(
    alloc: Global,
    bytes: &[u8],
    sections: &[Section],
    count: usize,
) -> Result<Vec<Relocation>, ElfFault>
    ensures { MatchResult result
        (λ relocations. (relocations.items ≡ relocations_in bytes.now sections.now)
        × (relocations_fault bytes.now sections.now count ≡ None))
        (λ fault. (fault ≡ NoMemory) ⊎ (relocations_fault bytes.now sections.now count ≡ Some fault)) }
{
    if let Some(number) = ragged_table(sections) {
        return Err(ElfFault::RelocationSize(number));
    }
    let relocations = all_rows(alloc, bytes, sections)?;
    match first_without_symbol(&relocations, count) {
        Some(relocation) => Err(ElfFault::RelocationSymbol {
            section: relocation.section,
            offset: relocation.offset,
        }),
        None => Ok(relocations),
    }
}
