//! A file that was read.
ghost use Rattle.std.specs.Prelude.{◌≡◌, ◌⊎◌, Some, None, MatchResult};
ghost use Rattle.klp_elf.specs.Faults.{fault_of};
ghost use Rattle.klp_elf.specs.Whole.{IsElf};
ghost use Rattle.klp_elf.specs.declared.fault.ElfFault.TheVariants.{NoMemory};

use crate::fault::ElfFault;
use crate::header::header_in;
use crate::relocations::relocations_in;
use crate::row::{Relocation, Section, Symbol};
use crate::table::{SymbolTable, bytes_in, sections_in, symbols_in};
use std::alloc::Global;

/// How many symbols a file may have.
pub const MAX_SYMBOLS: usize = 262_144;

/// How many relocations the sections may have that are loaded.
pub const MAX_RELOCATIONS: usize = 262_144;

/// A relocatable file, with what its bytes say.
#[derive(Drop)]
pub struct Elf<'a> {
    pub bytes: &'a [u8],
    pub sections: Vec<Section>,
    pub section_names: &'a [u8],
    pub symbols: Vec<Symbol>,
    pub symbol_names: &'a [u8],
    /// The relocations of sections that are loaded.
    pub relocations: Vec<Relocation>,
}

impl<'a> Elf<'a> {
    /// Reads a file. Returns as `Err` its first fault, or that memory ran out.
    pub fn read(alloc: Global, bytes: &'a [u8]) -> Result<Elf<'a>, ElfFault>
        ensures { MatchResult result
            (λ elf. IsElf bytes.now elf × (fault_of bytes.now ≡ None))
            (λ fault. (fault ≡ NoMemory) ⊎ (fault_of bytes.now ≡ Some fault)) }
    {
        let header = match header_in(bytes) {
            Ok(header) => header,
            Err(fault) => return Err(fault),
        };
        let sections = match sections_in(alloc, bytes, header) {
            Ok(sections) => sections,
            Err(fault) => return Err(fault),
        };
        let SymbolTable { symbols, names } = match symbols_in(alloc, bytes, &sections) {
            Ok(table) => table,
            Err(fault) => return Err(fault),
        };
        let relocations = match relocations_in(alloc, bytes, &sections, symbols.len()) {
            Ok(relocations) => relocations,
            Err(fault) => return Err(fault),
        };
        let section_names = bytes_in(bytes, &sections, header.names as usize);
        Ok(Elf {
            bytes,
            sections,
            section_names,
            symbols,
            symbol_names: names,
            relocations,
        })
    }
}
