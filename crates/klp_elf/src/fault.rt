//! What is wrong with a file, and why nothing can be told of a place.
ghost use Rattle.std.specs.Prelude.{◌≡◌};
ghost use Rattle.klp_elf.specs.declared.fault.ElfFault.TheVariants.{NoMemory};

use crate::look::Place;
use std::alloc::{AllocError, AllocFailed};
use thiserror::Error;

/// The first fault of a file. Its parts are checked in the order of these variants.
#[derive(Clone, Copy, Debug, Error)]
pub enum ElfFault {
    #[error("it isn't an ELF file")]
    NotElf,
    #[error("it isn't a 64-bit little-endian ELF file")]
    NotLittle64,
    #[error("it isn't for x86-64")]
    NotX86,
    #[error("it isn't relocatable, as a module is")]
    NotRelocatable,
    #[error("its section headers haven't 64 bytes each")]
    HeaderSize,
    #[error("its section headers end behind the file")]
    HeadersOutside,
    /// The bytes of the section with this number aren't all in the file.
    #[error("section {0} ends behind the file")]
    SectionOutside(usize),
    #[error("the sections' names don't end with a 0")]
    NoSectionNames,
    /// The name of the section with this number begins behind the sections' names.
    #[error("the name of section {0} begins behind the sections' names")]
    SectionName(usize),
    #[error("it has no symbols, so no kernel loads it")]
    NoSymbols,
    #[error("its symbols haven't 24 bytes each")]
    SymbolSize,
    #[error("it has over 262144 symbols")]
    TooManySymbols,
    #[error("the symbols' names don't end with a 0")]
    NoSymbolNames,
    /// The name of the symbol with this number begins behind the symbols' names.
    #[error("the name of symbol {0} begins behind the symbols' names")]
    SymbolName(usize),
    /// The symbol with this number is in a section that isn't there.
    #[error("symbol {0} is in a section that isn't there")]
    SymbolSection(usize),
    /// The rows of the relocations in the section with this number have another size.
    #[error("the relocations in section {0} haven't 24 bytes each")]
    RelocationSize(usize),
    #[error("it has over 262144 relocations")]
    TooManyRelocations,
    /// The relocation at this place names a symbol that isn't there.
    #[error("the relocation at {offset} of section {section} names a symbol that isn't there")]
    RelocationSymbol { section: u32, offset: u64 },
    #[error("NoMemory")]
    NoMemory,
}

impl From<AllocError> for ElfFault {
    ghost from_gives = { λ _ fault. fault ≡ NoMemory };

    fn from(_: AllocError) -> ElfFault {
        ElfFault::NoMemory
    }
}

impl<T: Drop> From<AllocFailed<T>> for ElfFault {
    ghost from_gives = { λ _ fault. fault ≡ NoMemory };

    fn from(_: AllocFailed<T>) -> ElfFault {
        ElfFault::NoMemory
    }
}

/// Why nothing can be told of a place.
#[derive(Clone, Copy)]
pub enum LookFault {
    /// The bytes aren't all in the section.
    Outside(Place),
    /// No 0 ends the string within its section.
    NoEnd(Place),
    /// Several relocations change the place.
    Several(Place),
    /// What is written over the place isn't an address of eight bytes.
    NoAddress(Place),
    /// A number other than 0 stands where a pointer is expected.
    Number(Place),
}
