//! Looks at places of a file.
ghost use Rattle.std.specs.Prelude.{◌≡◌, ◌≤◌, ◌+◌, length, position, slice_get, take, filter, Some, None, Ok, Err, MatchResult};
ghost use Rattle.std.specs.List.{find};
ghost use Rattle.std.specs.Option.{option_copied};
ghost use Rattle.klp_elf.specs.Parts.{bytes_in};
ghost use Rattle.klp_elf.specs.Looks.{and_by, begins_function, begins_object, bytes_at, has_name, is_address, is_at, is_blank, is_in, is_room, number_of};
ghost use Rattle.klp_elf.specs.Looks.{place_in, pointer_at, relocated_at, relocated_by, section_name, section_named, string_at, symbol_name, target_of, written};

use crate::elf::Elf;
use crate::fault::LookFault;
use crate::number::{u8_at, u32_at, u64_at};
use crate::row::{
    Relocation, RelocationKind, Section, SectionKind, Symbol, SymbolKind, SymbolSection,
};
use crate::table::{bytes_in, first_zero, rest_from, text_at};

/// An offset into the section with this number.
#[derive(Clone, Copy, Debug)]
pub struct Place {
    pub section: u16,
    pub offset: u64,
}

/// What eight bytes point to once the module is loaded.
#[derive(Clone, Copy)]
pub enum Pointer {
    Null,
    To(Place),
    /// To the symbol with this number, which isn't in a section of the file.
    Outside(u32),
}

/// The relocations of one place.
#[derive(Clone, Copy)]
pub(crate) enum Relocated {
    Never,
    By(Relocation),
    Several,
}

fn is_at(relocation: &Relocation, place: Place) -> bool
    ensures { result ≡ is_at place relocation.now }
{
    relocation.section == place.section as u32 && relocation.offset == place.offset
}

/// Returns the relocations of a place, after the next one is found.
fn and_by(found: Relocated, relocation: Relocation) -> Relocated
    ensures { result ≡ and_by found relocation }
{
    match found {
        Relocated::Never => Relocated::By(relocation),
        _ => Relocated::Several,
    }
}

/// Returns the relocations of a place.
fn relocated_in(relocations: &[Relocation], place: Place) -> Relocated
    ensures { result ≡ relocated_by (filter (is_at place) relocations.now) }
{
    let mut found = Relocated::Never;
    for relocation in relocations {
        if is_at(relocation, place) {
            found = and_by(found, *relocation);
        }
    }
    found
}

/// Returns where a symbol's address is, with what a relocation adds to it.
fn place_in(relocation: &Relocation, section: SymbolSection, value: u64) -> Pointer
    ensures { result ≡ place_in relocation.now section value }
{
    match section {
        SymbolSection::In(section) => Pointer::To(Place {
            section,
            offset: value.wrapping_add(relocation.addend),
        }),
        _ => Pointer::Outside(relocation.symbol),
    }
}

/// Whether a symbol with this section and value begins at a place.
fn is_in(place: Place, section: SymbolSection, value: u64) -> bool
    ensures { result ≡ is_in place section value }
{
    match section {
        SymbolSection::In(section) => section == place.section && value == place.offset,
        _ => false,
    }
}

fn begins_function(symbol: &Symbol, place: Place) -> bool
    ensures { result ≡ begins_function place symbol.now }
{
    match symbol.kind {
        SymbolKind::Function => is_in(place, symbol.section, symbol.value),
        _ => false,
    }
}

fn begins_object(symbol: &Symbol, place: Place) -> bool
    ensures { result ≡ begins_object place symbol.now }
{
    match symbol.kind {
        SymbolKind::Object => is_in(place, symbol.section, symbol.value),
        _ => false,
    }
}

/// Whether a section has so many bytes at an offset once the module is loaded, and none in the file. They are 0 then.
fn is_room(section: &Section, offset: u64, width: u64) -> bool
    ensures { result ≡ is_room width offset (Some section.now) }
{
    match section.kind {
        SectionKind::NoBytes => width <= section.size && offset <= section.size - width,
        _ => false,
    }
}

impl<'a> Elf<'a> {
    /// Whether so many bytes at a place are 0 once the module is loaded, and not in the file.
    fn is_blank(&self, place: Place, width: u64) -> bool
        ensures { result ≡ is_blank width self.now place }
    {
        match self.sections.get(place.section as usize) {
            Some(section) => is_room(section, place.offset, width),
            None => false,
        }
    }

    /// Returns the bytes of a place's section, from the place on.
    fn bytes_at(&self, place: Place) -> &'a [u8]
        ensures { result.now ≡ bytes_at self.now place }
    {
        rest_from(
            bytes_in(self.bytes, &self.sections, place.section as usize),
            place.offset,
        )
    }

    /// Returns the number of eight bytes at a place.
    pub fn number64(&self, place: Place) -> Result<u64, LookFault>
        ensures { result ≡ number_of 8 self.now place }
    {
        if self.is_blank(place, 8) {
            return Ok(0);
        }
        let bytes = self.bytes_at(place);
        if bytes.len() < 8 {
            return Err(LookFault::Outside(place));
        }
        Ok(u64_at(bytes, 0))
    }

    /// Returns the number of four bytes at a place.
    pub fn number32(&self, place: Place) -> Result<u32, LookFault>
        ensures { result ≡ number_of 4 self.now place }
    {
        if self.is_blank(place, 4) {
            return Ok(0);
        }
        let bytes = self.bytes_at(place);
        if bytes.len() < 4 {
            return Err(LookFault::Outside(place));
        }
        Ok(u32_at(bytes, 0))
    }

    /// Returns the byte at a place.
    pub fn byte(&self, place: Place) -> Result<u8, LookFault>
        ensures { result ≡ number_of 1 self.now place }
    {
        if self.is_blank(place, 1) {
            return Ok(0);
        }
        let bytes = self.bytes_at(place);
        if bytes.is_empty() {
            return Err(LookFault::Outside(place));
        }
        Ok(u8_at(bytes, 0))
    }

    /// Returns the string at a place, up to the first 0 in its section.
    pub fn string(&self, place: Place) -> Result<&'a [u8], LookFault>
        ensures { MatchResult result (λ text. string_at self.now place ≡ Ok text.now) (λ fault. string_at self.now place ≡ Err fault) }
    {
        let bytes = self.bytes_at(place);
        match first_zero(bytes) {
            Some(end) => Ok(&bytes[..end]),
            None => Err(LookFault::NoEnd(place)),
        }
    }

    /// Returns what a relocation's symbol and addend point to.
    fn target(&self, relocation: &Relocation) -> Pointer
        ensures { result ≡ target_of relocation.now (slice_get self.now.symbols.items relocation.now.symbol) }
    {
        match self.symbols.get(relocation.symbol as usize) {
            Some(symbol) => place_in(relocation, symbol.section, symbol.value),
            None => Pointer::Outside(relocation.symbol),
        }
    }

    /// Returns what is written over the eight bytes of a place, which have this number.
    fn written(&self, place: Place, number: u64) -> Result<Pointer, LookFault>
        ensures { result ≡ written self.now place number (relocated_at self.now place) }
    {
        match relocated_in(&self.relocations, place) {
            Relocated::Never if number == 0 => Ok(Pointer::Null),
            Relocated::Never => Err(LookFault::Number(place)),
            Relocated::By(relocation) => match relocation.kind {
                RelocationKind::Address => Ok(self.target(&relocation)),
                _ => Err(LookFault::NoAddress(place)),
            },
            Relocated::Several => Err(LookFault::Several(place)),
        }
    }

    /// Returns what the eight bytes at a place point to.
    pub fn pointer(&self, place: Place) -> Result<Pointer, LookFault>
        ensures { result ≡ pointer_at self.now place }
    {
        match self.number64(place) {
            Ok(number) => self.written(place, number),
            Err(fault) => Err(fault),
        }
    }

    /// Returns the first symbol of a function that begins at a place.
    pub fn function_at(&self, place: Place) -> Option<&Symbol>
        ensures { option_copied result ≡ find (begins_function place) self.now.symbols.items }
    {
        self.symbols
            .iter()
            .find(|symbol| begins_function(symbol, place))
    }

    /// Returns the first symbol of a variable that begins at a place.
    pub fn object_at(&self, place: Place) -> Option<&Symbol>
        ensures { option_copied result ≡ find (begins_object place) self.now.symbols.items }
    {
        self.symbols
            .iter()
            .find(|symbol| begins_object(symbol, place))
    }

    pub fn symbol_name(&self, symbol: &Symbol) -> &'a [u8]
        ensures { result.now ≡ symbol_name self.now symbol.now }
    {
        text_at(self.symbol_names, symbol.name)
    }

    /// Returns the name of a section. It is empty if the table of names doesn't have it.
    pub fn section_name(&self, section: &Section) -> &'a [u8]
        ensures { result.now ≡ section_name self.now section.now }
    {
        text_at(self.section_names, section.name)
    }

    fn has_name(&self, section: &Section, name: &[u8]) -> bool
        ensures { result ≡ has_name self.now name.now section.now }
    {
        self.section_name(section) == name
    }

    /// Returns the number of the first section of this name.
    pub fn section_named(&self, name: &[u8]) -> Option<usize>
        ensures { result ≡ section_named self.now name.now }
    {
        self.sections
            .iter()
            .position(|section| self.has_name(section, name))
    }

    /// Returns the bytes of the section with this number.
    pub fn section_bytes(&self, number: usize) -> &'a [u8]
        ensures { result.now ≡ bytes_in self.now.bytes.now self.now.sections.items number }
    {
        bytes_in(self.bytes, &self.sections, number)
    }
}
