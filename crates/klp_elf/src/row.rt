//! The rows of a file's tables: sections, symbols and relocations.
ghost use Rattle.std.specs.Prelude.{◌≡◌, ◌≤◌, ◌<◌, ◌+◌, ◌^◌, length, Some};
ghost use Rattle.klp_elf.specs.Rows.{relocation_at, section_at, section_kind, symbol_at, symbol_kind, symbol_section};
ghost use Rattle.klp_elf.specs.Rows.{relocation_kind};
ghost use Rattle.klp_elf.specs.Tables.{is_loaded};

use crate::number::{u16_at, u32_at, u64_at};

/// What a section holds, as far as this crate reads it.
#[derive(Clone, Copy)]
pub enum SectionKind {
    Symbols,
    Relocations,
    /// The section takes room in memory, and none in the file.
    NoBytes,
    /// Code, data, strings, or what else has bytes.
    Bytes,
}

/// A row of the section headers.
#[derive(Clone, Copy)]
pub struct Section {
    /// Where the name begins in the section with the sections' names.
    pub name: u32,
    pub kind: SectionKind,
    pub flags: u64,
    /// Where the bytes begin in the file.
    pub offset: u64,
    pub size: u64,
    /// Of symbols: the number of the section with their names.
    pub link: u32,
    /// Of relocations: the number of the section that they change.
    pub info: u32,
    pub entry_size: u64,
}

/// The flag of a section that is loaded.
const ALLOC: u64 = 2;

impl Section {
    /// Whether the section is in memory once the module is loaded.
    pub fn is_loaded(&self) -> bool
        ensures { result ≡ is_loaded (Some self.now) }
    {
        self.flags & ALLOC != 0
    }
}

/// What a symbol stands for, as far as this crate reads it.
#[derive(Clone, Copy)]
pub enum SymbolKind {
    Object,
    Function,
    Other,
}

/// Where a symbol is defined.
#[derive(Clone, Copy)]
pub enum SymbolSection {
    /// In another file: the kernel looks the symbol up when it loads the module.
    Undefined,
    /// In the section with this number.
    In(u16),
    /// In the object that the symbol's name names: livepatching looks the symbol up when that object is there.
    Livepatch,
    /// The symbol is a number, or room without a section.
    Nowhere,
}

/// A row of the symbol table.
#[derive(Clone, Copy)]
pub struct Symbol {
    /// Where the name begins in the section with the symbols' names.
    pub name: u32,
    pub kind: SymbolKind,
    pub section: SymbolSection,
    /// Where the symbol begins in its section.
    pub value: u64,
    pub size: u64,
}

/// What is written over a place when the module is loaded.
#[derive(Clone, Copy)]
pub enum RelocationKind {
    /// The eight bytes of an address.
    Address,
    /// The four lower bytes of an address.
    ShortAddress,
    /// The four bytes of a distance from the place, as in an instruction.
    Distance,
    Other,
}

/// A row of a relocation table.
#[derive(Clone, Copy)]
pub struct Relocation {
    /// The number of the section that is changed.
    pub section: u32,
    /// Where it is changed.
    pub offset: u64,
    pub kind: RelocationKind,
    /// The number of the symbol whose address is written.
    pub symbol: u32,
    /// What is added to that address.
    pub addend: u64,
}

fn section_kind(code: u32) -> SectionKind
    ensures { result ≡ section_kind code }
{
    match code {
        2 => SectionKind::Symbols,
        4 => SectionKind::Relocations,
        0 | 8 => SectionKind::NoBytes,
        _ => SectionKind::Bytes,
    }
}

fn symbol_kind(info: u8) -> SymbolKind
    ensures { result ≡ symbol_kind info }
{
    match info % 16 {
        1 => SymbolKind::Object,
        2 => SymbolKind::Function,
        _ => SymbolKind::Other,
    }
}

fn symbol_section(number: u16) -> SymbolSection
    ensures { result ≡ symbol_section number }
{
    if number == 0 {
        SymbolSection::Undefined
    } else if number < 0xff00 {
        SymbolSection::In(number)
    } else if number == 0xff20 {
        SymbolSection::Livepatch
    } else {
        SymbolSection::Nowhere
    }
}

fn relocation_kind(code: u32) -> RelocationKind
    ensures { result ≡ relocation_kind code }
{
    match code {
        1 => RelocationKind::Address,
        2 | 4 => RelocationKind::Distance,
        10 | 11 => RelocationKind::ShortAddress,
        _ => RelocationKind::Other,
    }
}

/// Reads the header of a section, which begins at this place.
pub(crate) fn section_at(bytes: &[u8], at: usize) -> Section
    requires { at + 64 ≤ length bytes.now }
    ensures { result ≡ section_at at bytes.now }
{
    Section {
        name: u32_at(bytes, at),
        kind: section_kind(u32_at(bytes, at + 4)),
        flags: u64_at(bytes, at + 8),
        offset: u64_at(bytes, at + 24),
        size: u64_at(bytes, at + 32),
        link: u32_at(bytes, at + 40),
        info: u32_at(bytes, at + 44),
        entry_size: u64_at(bytes, at + 56),
    }
}

/// Reads the symbol that begins at this place.
pub(crate) fn symbol_at(bytes: &[u8], at: usize) -> Symbol
    requires { at + 24 ≤ length bytes.now }
    ensures { result ≡ symbol_at at bytes.now }
{
    Symbol {
        name: u32_at(bytes, at),
        kind: symbol_kind(bytes[at + 4]),
        section: symbol_section(u16_at(bytes, at + 6)),
        value: u64_at(bytes, at + 8),
        size: u64_at(bytes, at + 16),
    }
}

/// Reads the relocation that begins at this place, in a table for this section.
pub(crate) fn relocation_at(section: u32, bytes: &[u8], at: usize) -> Relocation
    requires { at + 24 ≤ length bytes.now }
    ensures { result ≡ relocation_at section at bytes.now }
{
    Relocation {
        section,
        offset: u64_at(bytes, at),
        kind: relocation_kind(u32_at(bytes, at + 8)),
        symbol: u32_at(bytes, at + 12),
        addend: u64_at(bytes, at + 16),
    }
}
