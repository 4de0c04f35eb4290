//! Where the tables of a livepatch are.
ghost use Rattle.std.specs.Prelude.{◌≡◌, ◌+◌, ◌%◌, ◌^◌, ◌<◌, codes, filter, slice_get, Some, None};
ghost use Rattle.std.specs.List.{find, list_any};
ghost use Rattle.std.specs.Option.{option_copied};
ghost use Rattle.klp_elf.specs.Looks.{is_object};
ghost use Rattle.klp_tables.specs.Finding.{and_found, distance, found_by, is_behind, is_changed, is_code, is_module_symbol, is_same_place, lag, module_place, is_patch, names_inside, names_module, patch_of, patches_of, place_of, points_to};
ghost use Rattle.klp_tables.specs.Counted.{section_place};
ghost use Rattle.klp_tables.specs.Forms.{built_form, form_of, kpatch_form};

use crate::counted::section_place;
use crate::fault::TableFault;
use crate::layout::PatchLayout;
use crate::place::moved;
use klp_elf::{Elf, Place, Pointer, Relocation, RelocationKind, Symbol, SymbolKind, SymbolSection};

/// The flag of a section with code.
const CODE: u64 = 4;

/// Returns where a symbol begins, if it is in a section of the file.
fn place_of(symbol: &Symbol) -> Option<Place>
    ensures { result ≡ place_of symbol.now }
{
    match symbol.section {
        SymbolSection::In(section) => Some(Place {
            section,
            offset: symbol.value,
        }),
        _ => None,
    }
}

fn is_same_place(one: Place, other: Place) -> bool
    ensures { result ≡ is_same_place one other }
{
    one.section == other.section && one.offset == other.offset
}

fn is_module_symbol(elf: &Elf<'_>, symbol: &Symbol) -> bool
    ensures { result ≡ is_module_symbol elf.now symbol.now }
{
    elf.symbol_name(symbol) == b"__this_module".as_slice()
}

/// Returns the symbol of the module itself.
fn module_symbol<'b>(elf: &'b Elf<'_>) -> Option<&'b Symbol>
    ensures { option_copied result ≡ find (is_module_symbol elf.now) elf.now.symbols.items }
{
    elf.symbols
        .iter()
        .find(|symbol| is_module_symbol(elf, symbol))
}

/// Returns the place of the module itself.
fn module_place(elf: &Elf<'_>) -> Option<Place>
    ensures { result ≡ module_place elf.now }
{
    match module_symbol(elf) {
        Some(symbol) => place_of(symbol),
        None => None,
    }
}

/// Whether the pointer at a place points to another place.
fn points_to(elf: &Elf<'_>, at: Place, wanted: Place) -> bool
    ensures { result ≡ points_to elf.now at wanted }
{
    match elf.pointer(at) {
        Ok(Pointer::To(place)) => is_same_place(place, wanted),
        _ => false,
    }
}

/// Whether the word so many bytes behind a place points to the module itself.
fn names_module(elf: &Elf<'_>, own: Place, by: u16, place: Option<Place>) -> bool
    ensures { result ≡ names_module elf.now own by place }
{
    match place {
        Some(place) => points_to(elf, moved(place, by as u64), own),
        None => false,
    }
}

fn is_object(kind: SymbolKind) -> bool
    ensures { result ≡ is_object kind }
{
    matches!(kind, SymbolKind::Object)
}

/// Whether a symbol looks like a `struct klp_patch` of the module that begins at this place.
fn is_patch(elf: &Elf<'_>, layout: PatchLayout, own: Place, symbol: &Symbol) -> bool
    ensures { result ≡ is_patch elf.now layout own symbol.now }
{
    is_object(symbol.kind)
        && (symbol.size == layout.size as u64
            && names_module(elf, own, layout.module, place_of(symbol)))
}

/// What looks like a `struct klp_patch` in a file.
#[derive(Clone, Copy)]
pub(crate) enum Found {
    Nothing,
    One(Symbol),
    Several,
}

/// Returns what is found after one more.
fn and_found(found: Found, symbol: Symbol) -> Found
    ensures { result ≡ and_found found symbol }
{
    match found {
        Found::Nothing => Found::One(symbol),
        _ => Found::Several,
    }
}

/// Looks for a `struct klp_patch` of the module that begins at this place.
fn patches_among(elf: &Elf<'_>, layout: PatchLayout, own: Place, symbols: &[Symbol]) -> Found
    ensures { result ≡ found_by (filter (is_patch elf.now layout own) symbols.now) }
{
    let mut found = Found::Nothing;
    for symbol in symbols {
        if is_patch(elf, layout, own, symbol) {
            found = and_found(found, *symbol);
        }
    }
    found
}

fn patches_of(elf: &Elf<'_>, layout: PatchLayout) -> Found
    ensures { result ≡ patches_of elf.now layout (module_place elf.now) }
{
    match module_place(elf) {
        Some(own) => patches_among(elf, layout, own, &elf.symbols),
        None => Found::Nothing,
    }
}

/// Returns where the `struct klp_patch` of a file begins.
fn patch_of(elf: &Elf<'_>, layout: PatchLayout) -> Result<Place, TableFault>
    ensures { result ≡ patch_of elf.now layout }
{
    match patches_of(elf, layout) {
        Found::One(symbol) => match place_of(&symbol) {
            Some(place) => Ok(place),
            None => Err(TableFault::NoPatch),
        },
        Found::Nothing => Err(TableFault::NoPatch),
        Found::Several => Err(TableFault::SeveralPatches),
    }
}

/// In which form the tables of a livepatch are, and where they begin.
#[derive(Clone, Copy)]
pub(crate) enum Form {
    /// A `struct klp_patch` that the compiler lays out begins here.
    Static(Place),
    /// The functions of kpatch-build begin here.
    Kpatch(Place),
    /// The objects of klp-build begin here.
    KlpBuild(Place),
}

/// Returns the form of a file with neither a `struct klp_patch` nor a section of kpatch-build.
fn built_form(elf: &Elf<'_>) -> Result<Form, TableFault>
    ensures { result ≡ built_form (section_place elf.now (codes ".init.klp_objects")) }
{
    match section_place(elf, b".init.klp_objects".as_slice()) {
        Some(table) => Ok(Form::KlpBuild(table)),
        None => Err(TableFault::NoPatch),
    }
}

/// Returns the form of a file without a `struct klp_patch`.
fn section_form(elf: &Elf<'_>) -> Result<Form, TableFault>
    ensures { result ≡ kpatch_form elf.now (section_place elf.now (codes ".kpatch.funcs")) }
{
    match section_place(elf, b".kpatch.funcs".as_slice()) {
        Some(table) => Ok(Form::Kpatch(table)),
        None => built_form(elf),
    }
}

/// Returns in which form the tables of a file are: a `struct klp_patch`, if it has one, or else the section of a tool.
pub(crate) fn form_of(elf: &Elf<'_>, layout: PatchLayout) -> Result<Form, TableFault>
    ensures { result ≡ form_of elf.now layout }
{
    match patch_of(elf, layout) {
        Ok(place) => Ok(Form::Static(place)),
        Err(TableFault::NoPatch) => section_form(elf),
        Err(fault) => Err(fault),
    }
}

fn is_code(elf: &Elf<'_>, number: usize) -> bool
    ensures { result ≡ is_code (slice_get elf.now.sections.items number) }
{
    match elf.sections.get(number) {
        Some(section) => section.flags & CODE != 0,
        None => false,
    }
}

/// Returns from where a distance is counted, behind the place of its relocation.
fn lag(kind: RelocationKind) -> u64
    ensures { result ≡ lag kind }
{
    match kind {
        RelocationKind::Distance => 4,
        _ => 0,
    }
}

/// Returns how far a place is behind another.
fn distance(to: u64, from: u64) -> u64
    ensures { result ≡ distance to from }
{
    to.wrapping_sub(from)
}

/// Returns where a relocation points to, if its symbol has this value.
fn target_value(relocation: &Relocation, value: u64) -> u64
    ensures { result ≡ (value + relocation.now.addend + lag relocation.now.kind) % 2 ^ 64 }
{
    value
        .wrapping_add(relocation.addend)
        .wrapping_add(lag(relocation.kind))
}

/// Whether a value in a section is inside of a struct of so many bytes, behind its first one.
fn is_behind(patch: Place, size: u16, to: u64, section: SymbolSection) -> bool
    ensures { result ≡ is_behind patch size to section }
{
    match section {
        SymbolSection::In(section) => {
            let by = distance(to, patch.offset);
            section == patch.section && 0 < by && by < size as u64
        }
        _ => false,
    }
}

/// Whether an instruction names a field of a struct of so many bytes, behind its first one.
fn names_inside(elf: &Elf<'_>, patch: Place, size: u16, relocation: &Relocation) -> bool
    ensures { result ≡ names_inside elf.now patch size relocation.now }
{
    match elf.symbols.get(relocation.symbol as usize) {
        Some(symbol) => {
            is_code(elf, relocation.section as usize)
                && is_behind(
                    patch,
                    size,
                    target_value(relocation, symbol.value),
                    symbol.section,
                )
        }
        None => false,
    }
}

/// Whether code may change a struct before it is passed on.
pub(crate) fn is_changed(elf: &Elf<'_>, layout: PatchLayout, patch: Place) -> bool
    ensures { result ≡ is_changed elf.now layout patch }
{
    elf.relocations.iter().any(|relocation| names_inside(elf, patch, layout.size, relocation))
}
