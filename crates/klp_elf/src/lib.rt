//! A relocatable ELF file for x86-64, as a kernel module is one: its sections, symbols, relocations and strings.
//!
//! [`Elf::read`] answers any bytes. It returns the file if all that its headers promise is inside, and else the first
//! fault with its place (`specs/Faults`). The sections, symbols and relocations are exactly those of the bytes, in the
//! file's order (`specs/Rows`). [`Elf::pointer`], [`Elf::number`] and [`Elf::string`] look at a place, which is an
//! offset into a section (`specs/Looks`). They say what stands there, or why nothing can be told.
#![tactic(auto)]

mod elf;
mod fault;
mod header;
mod look;
mod number;
mod relocations;
mod row;
mod table;

pub use elf::{Elf, MAX_RELOCATIONS, MAX_SYMBOLS};
pub use fault::{ElfFault, LookFault};
pub use look::{Place, Pointer};
pub use row::{
    Relocation, RelocationKind, Section, SectionKind, Symbol, SymbolKind, SymbolSection,
};
