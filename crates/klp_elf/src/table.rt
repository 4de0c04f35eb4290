//! The sections and symbols of a file, and what is wrong with them.
ghost use Rattle.std.specs.Prelude.{◌≡◌, ◌⊎◌, ◌+◌, ◌*◌, ◌/◌, ◌<◌, ◌≤◌, length, drop, position, slice_get, Some, None, IfOk, MatchResult};
ghost use Rattle.std.specs.Option.{option_copied};
ghost use Rattle.std.specs.List.{before_first};
ghost use Rattle.klp_elf.specs.Parts.{bytes_in, bytes_of, is_closed, is_zero, text_at};
ghost use Rattle.klp_elf.specs.Rows.{section_at, symbol_at};
ghost use Rattle.klp_elf.specs.Tables.{header_of, rows_of, sections_of, symbol_table_of, symbols_in, symbol_names_in};
ghost use Rattle.klp_elf.specs.Faults.{has_no_name, is_homeless, is_misplaced, is_nameless, is_outside, is_ragged, names_fault, names_nothing};
ghost use Rattle.klp_elf.specs.Faults.{rows_fault, sections_fault, sections_fault_in, symbol_table_fault, symbols_fault};
ghost use Rattle.klp_elf.specs.Whole.{IsSymbolTable};
ghost use Rattle.klp_elf.specs.declared.fault.ElfFault.TheVariants.{NoMemory};

use crate::elf::MAX_SYMBOLS;
use crate::fault::ElfFault;
use crate::header::{Header, is_inside, part};
use crate::row::{Section, SectionKind, Symbol, SymbolSection, section_at, symbol_at};
use std::alloc::{AllocError, Global};

/// The bytes of a section header, and of a symbol or a relocation.
const SECTION: usize = 64;

pub(crate) const ROW: usize = 24;

/// Returns the bytes of a section. Returns nothing if they aren't in the file.
pub(crate) fn bytes_of<'a>(bytes: &'a [u8], section: &Section) -> &'a [u8]
    ensures { result.now ≡ bytes_of bytes.now section.now }
{
    match section.kind {
        SectionKind::NoBytes => &[],
        _ => part(bytes, section.offset, section.size),
    }
}

/// Returns the bytes of the section with this number. Returns nothing if there is no such section.
pub(crate) fn bytes_in<'a>(bytes: &'a [u8], sections: &[Section], number: usize) -> &'a [u8]
    ensures { result.now ≡ bytes_in bytes.now sections.now number }
{
    match sections.get(number) {
        Some(section) => bytes_of(bytes, section),
        None => &[],
    }
}

/// Whether each of some names has an end.
fn is_closed(names: &[u8]) -> bool
    ensures { result ≡ is_closed names.now }
{
    names.ends_with(&[0])
}

/// Returns where the first 0 is.
pub(crate) fn first_zero(bytes: &[u8]) -> Option<usize>
    ensures { result ≡ position is_zero bytes.now }
{
    bytes.iter().position(|b| *b == 0)
}

/// Returns the bytes from a place on.
pub(crate) fn rest_from(bytes: &[u8], at: u64) -> &[u8]
    ensures { result.now ≡ drop at bytes.now }
{
    if at < bytes.len() as u64 {
        &bytes[at as usize..]
    } else {
        &[]
    }
}

fn before_zero(bytes: &[u8]) -> &[u8]
    ensures { result.now ≡ before_first is_zero bytes.now }
{
    match first_zero(bytes) {
        Some(end) => &bytes[..end],
        None => bytes,
    }
}

/// Returns the text that begins at a place, up to the first 0.
pub(crate) fn text_at(names: &[u8], at: u32) -> &[u8]
    ensures { result.now ≡ text_at names.now at }
{
    before_zero(rest_from(names, at as u64))
}

fn is_nameless(names: &[u8], name: u32) -> bool
    ensures { result ≡ is_nameless names.now name }
{
    names.len() <= name as usize
}

fn is_outside(bytes: &[u8], section: &Section) -> bool
    ensures { result ≡ is_outside bytes.now section.now }
{
    match section.kind {
        SectionKind::NoBytes => false,
        _ => !is_inside(bytes, section.offset, section.size),
    }
}

fn section_rows(alloc: Global, table: &[u8]) -> Result<Vec<Section>, AllocError>
    ensures { IfOk result (λ sections. sections.items ≡ rows_of 64 section_at table.now) }
{
    let mut sections = Vec::new(alloc);
    for k in 0..table.len() / SECTION {
        sections.push(section_at(table, SECTION * k))?;
    }
    Ok(sections)
}

fn symbol_rows(alloc: Global, table: &[u8]) -> Result<Vec<Symbol>, AllocError>
    ensures { IfOk result (λ symbols. symbols.items ≡ rows_of 24 symbol_at table.now) }
{
    let mut symbols = Vec::new(alloc);
    for k in 0..table.len() / ROW {
        symbols.push(symbol_at(table, ROW * k))?;
    }
    Ok(symbols)
}

/// Returns the number of the first section that ends behind the file.
fn first_outside(bytes: &[u8], sections: &[Section]) -> Option<usize>
    ensures { result ≡ position (is_outside bytes.now) sections.now }
{
    sections
        .iter()
        .position(|section| is_outside(bytes, section))
}

/// Returns the number of the first section whose name isn't among these names.
fn nameless_section(names: &[u8], sections: &[Section]) -> Option<usize>
    ensures { result ≡ position (has_no_name names.now) sections.now }
{
    sections
        .iter()
        .position(|section| is_nameless(names, section.name))
}

fn names_fault(names: &[u8], sections: &[Section]) -> Option<ElfFault>
    ensures { result ≡ names_fault names.now sections.now }
{
    if !is_closed(names) {
        return Some(ElfFault::NoSectionNames);
    }
    match nameless_section(names, sections) {
        Some(number) => Some(ElfFault::SectionName(number)),
        None => None,
    }
}

/// Returns the first fault of the section headers, whose names are these.
fn sections_fault(bytes: &[u8], sections: &[Section], names: usize) -> Option<ElfFault>
    ensures { result ≡ sections_fault_in bytes.now sections.now names }
{
    match first_outside(bytes, sections) {
        Some(number) => Some(ElfFault::SectionOutside(number)),
        None => names_fault(bytes_in(bytes, sections, names), sections),
    }
}

/// Reads the section headers of a file. Returns as `Err` what is wrong with them.
pub(crate) fn sections_in(
    alloc: Global,
    bytes: &[u8],
    header: Header,
) -> Result<Vec<Section>, ElfFault>
    requires { header ≡ header_of bytes.now }
    ensures { MatchResult result
        (λ sections. (sections.items ≡ sections_of bytes.now) × (sections_fault bytes.now ≡ None))
        (λ fault. (fault ≡ NoMemory) ⊎ (sections_fault bytes.now ≡ Some fault)) }
{
    let table = part(bytes, header.sections, 64 * header.count as u64);
    let sections = section_rows(alloc, table)?;
    match sections_fault(bytes, &sections, header.names as usize) {
        Some(fault) => Err(fault),
        None => Ok(sections),
    }
}

/// Returns the symbol table. A file has one at most.
fn symbol_table(sections: &[Section]) -> Option<&Section>
    ensures { option_copied result ≡ symbol_table_of sections.now }
{
    sections
        .iter()
        .find(|section| matches!(section.kind, SectionKind::Symbols))
}

/// Whether the rows of a table haven't 24 bytes each.
pub(crate) fn is_ragged(table: &Section) -> bool
    ensures { result ≡ is_ragged table.now }
{
    table.entry_size != 24 || table.size % 24 != 0
}

/// Returns what is wrong with the symbol table, before its rows are read.
fn symbol_table_fault(names: &[u8], table: &Section) -> Option<ElfFault>
    ensures { result ≡ symbol_table_fault names.now (Some table.now) }
{
    if is_ragged(table) {
        Some(ElfFault::SymbolSize)
    } else if 24 * (MAX_SYMBOLS as u64) < table.size {
        Some(ElfFault::TooManySymbols)
    } else if !is_closed(names) {
        Some(ElfFault::NoSymbolNames)
    } else {
        None
    }
}

fn is_misplaced(section: SymbolSection, count: usize) -> bool
    ensures { result ≡ is_misplaced count section }
{
    match section {
        SymbolSection::In(number) => count <= number as usize,
        _ => false,
    }
}

/// Returns the number of the first symbol whose name isn't among these names.
fn nameless_symbol(names: &[u8], symbols: &[Symbol]) -> Option<usize>
    ensures { result ≡ position (names_nothing names.now) symbols.now }
{
    symbols
        .iter()
        .position(|symbol| is_nameless(names, symbol.name))
}

/// Returns the number of the first symbol that isn't in one of so many sections.
fn misplaced_symbol(symbols: &[Symbol], count: usize) -> Option<usize>
    ensures { result ≡ position (is_homeless count) symbols.now }
{
    symbols
        .iter()
        .position(|symbol| is_misplaced(symbol.section, count))
}

/// Returns what is wrong with the rows of the symbol table.
fn symbol_rows_fault(names: &[u8], count: usize, symbols: &[Symbol]) -> Option<ElfFault>
    ensures { result ≡ rows_fault names.now count symbols.now }
{
    match nameless_symbol(names, symbols) {
        Some(number) => Some(ElfFault::SymbolName(number)),
        None => match misplaced_symbol(symbols, count) {
            Some(number) => Some(ElfFault::SymbolSection(number)),
            None => None,
        },
    }
}

/// The symbols of a file, with the section that has their names.
pub(crate) struct SymbolTable<'a> {
    pub(crate) symbols: Vec<Symbol>,
    pub(crate) names: &'a [u8],
}

/// Reads the symbols of a file with these sections. Returns as `Err` what is wrong with them.
pub(crate) fn symbols_in<'a>(
    alloc: Global,
    bytes: &'a [u8],
    sections: &[Section],
) -> Result<SymbolTable<'a>, ElfFault>
    ensures { MatchResult result
        (λ table. IsSymbolTable bytes.now sections.now table × (symbols_fault bytes.now sections.now ≡ None))
        (λ fault. (fault ≡ NoMemory) ⊎ (symbols_fault bytes.now sections.now ≡ Some fault)) }
{
    let Some(table) = symbol_table(sections) else {
        return Err(ElfFault::NoSymbols);
    };
    let names = bytes_in(bytes, sections, table.link as usize);
    if let Some(fault) = symbol_table_fault(names, table) {
        return Err(fault);
    }
    let symbols = symbol_rows(alloc, bytes_of(bytes, table))?;
    match symbol_rows_fault(names, sections.len(), &symbols) {
        Some(fault) => Err(fault),
        None => Ok(SymbolTable { symbols, names }),
    }
}
