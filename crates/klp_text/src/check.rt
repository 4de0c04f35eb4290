ghost use Rattle.std.specs.Prelude.{◌≡◌, ◌+◌, ◌++◌, [], nat_lt, length, bytes_eq};
ghost use Rattle.std.specs.List.{list_any};
ghost use Rattle.klp_types.specs.Image.{Object, symbols_of};
ghost use Rattle.klp_text.specs.Faults as faults;

use crate::entry_site::{can_reach, entry_offset};
use crate::fault::ImageFault;
use klp_types::{ENTRY_SITE_LEN, MAX_BODY, MAX_OBJECTS, MAX_SITES, ObjectText, SymbolText};

/// The name of the first object, which is the kernel itself. All other objects are modules.
const KERNEL: &str = "vmlinux";

/// Returns the first fault because of which no image can be made of these objects. Returns `None` if there is no fault.
/// The limits are checked first, since they bound the cost of the other checks.
pub fn image_fault(handler: u64, objects: &[ObjectText]) -> Option<ImageFault>
    ensures { result ≡ faults.image_fault handler objects.now }
{
    if is_too_many(objects) {
        Some(ImageFault::TooMany)
    } else if !begins_with_kernel(objects) {
        Some(ImageFault::NoKernel)
    } else if has_duplicate(objects) {
        Some(ImageFault::DuplicateObject)
    } else {
        symbols_fault(handler, objects)
    }
}

/// Whether there are too many objects or sites, or a body is too long.
fn is_too_many(objects: &[ObjectText]) -> bool
    ensures { result ≡ faults.is_too_many objects.now }
{
    objects.len() > MAX_OBJECTS || has_too_many_sites(objects) || has_long_body(objects)
}

/// Whether all objects together have more symbols than an image may have sites.
fn has_too_many_sites(objects: &[ObjectText]) -> bool
    ensures { result ≡ nat_lt 256 (length (symbols_of objects.now)) }
{
    let mut sites = 0;
    for object in objects {
        if object.symbols.len() > MAX_SITES - sites {
            return true;
        }
        sites += object.symbols.len();
    }
    false
}

/// Whether a symbol of any object has a body that is too long.
fn has_long_body(objects: &[ObjectText]) -> bool
    ensures { result ≡ list_any faults.is_long (symbols_of objects.now) }
{
    for object in objects {
        if has_long_symbol(object.symbols.as_slice()) {
            return true;
        }
    }
    false
}

/// Whether one of the symbols has a body that is too long.
fn has_long_symbol(symbols: &[SymbolText]) -> bool
    ensures { result ≡ list_any faults.is_long symbols.now }
{
    symbols.iter().any(|symbol| symbol.body.len() > MAX_BODY)
}

/// Whether the first object is `vmlinux`. False if there is no object.
fn begins_with_kernel(objects: &[ObjectText]) -> bool
    ensures { result ≡ faults.begins_with_kernel objects.now }
{
    match objects {
        [] => false,
        [first, ..] => first.name.as_str() == KERNEL,
    }
}

/// Whether two objects have the same name.
fn has_duplicate(objects: &[ObjectText]) -> bool
    ensures { result ≡ faults.has_duplicate objects.now }
{
    for (i, object) in objects.iter().enumerate() {
        if has_name(&objects[i + 1..], object.name.as_str()) {
            return true;
        }
    }
    false
}

/// Whether one of the objects has this name.
fn has_name(objects: &[ObjectText], name: &str) -> bool
    ensures { result ≡ list_any (λ (other : Object). bytes_eq other.name name.now) objects.now }
{
    objects.iter().any(|object| object.name.as_str() == name)
}

/// Returns the fault of the first faulty symbol. Symbols are checked in the image's order, so that the report names the
/// first line at fault.
fn symbols_fault(handler: u64, objects: &[ObjectText]) -> Option<ImageFault>
    ensures { result ≡ faults.first_fault (faults.symbols_tests handler [] (symbols_of objects.now)) }
{
    for (i, object) in objects.iter().enumerate() {
        if let Some(fault) = object_fault(handler, &objects[..i], object.symbols.as_slice()) {
            return Some(fault);
        }
    }
    None
}

/// Returns the fault of an object's first faulty symbol. `earlier` are the objects before this object. They are needed
/// because a symbol may share an address with a symbol of an earlier object.
fn object_fault(handler: u64, earlier: &[ObjectText], symbols: &[SymbolText]) -> Option<ImageFault>
    ensures { result ≡ faults.first_fault (faults.symbols_tests handler (symbols_of earlier.now) symbols.now) }
{
    for (i, symbol) in symbols.iter().enumerate() {
        if let Some(fault) = symbol_fault(handler, earlier, &symbols[..i], symbol) {
            return Some(fault);
        }
    }
    None
}

/// Returns the fault of `symbol`, if it has one. `objects` are the objects before the symbol's object, and `symbols`
/// are the symbols before it in its own object. The symbol may share an address with a symbol of either.
fn symbol_fault(
    handler: u64,
    objects: &[ObjectText],
    symbols: &[SymbolText],
    symbol: &SymbolText,
) -> Option<ImageFault>
    ensures { result ≡ faults.first_fault (faults.symbol_tests handler
        (symbols_of objects.now ++ symbols.now) symbol.now) }
{
    let offset = entry_offset(symbol.body.as_slice());
    if symbol.body.len() < offset + ENTRY_SITE_LEN {
        Some(ImageFault::ShortSymbol)
    } else if !can_reach(handler, u128::from(symbol.address) + offset as u128) {
        Some(ImageFault::Displacement)
    } else if is_in_the_way(objects, symbols, symbol) {
        Some(ImageFault::Overlap)
    } else {
        None
    }
}

/// Whether a symbol ends beyond the last address, or shares an address with an earlier symbol.
///
/// Each symbol is compared with all symbols before it. An image has at most 256 * 255 / 2 such comparisons. The symbols
/// aren't sorted by address, since sorting takes memory and would lose their order in the image (docs/DECISIONS.md,
/// "Overlaps by pairs").
fn is_in_the_way(objects: &[ObjectText], symbols: &[SymbolText], symbol: &SymbolText) -> bool
    ensures { result ≡ faults.is_in_the_way (symbols_of objects.now ++ symbols.now) symbol.now }
{
    // The address after a symbol must fit in 64 bits. So a symbol that ends exactly at 2^64 is refused too
    // (docs/DECISIONS.md, "The last address").
    end_of(symbol) > u128::from(u64::MAX)
        || lies_on_objects(objects, symbol)
        || lies_on_symbols(symbols, symbol)
}

/// Whether a symbol shares an address with a symbol of one of these objects.
fn lies_on_objects(objects: &[ObjectText], symbol: &SymbolText) -> bool
    ensures { result ≡ list_any (faults.share_address symbol.now) (symbols_of objects.now) }
{
    for object in objects {
        if lies_on_symbols(object.symbols.as_slice(), symbol) {
            return true;
        }
    }
    false
}

/// Whether a symbol shares an address with one of these symbols.
fn lies_on_symbols(symbols: &[SymbolText], symbol: &SymbolText) -> bool
    ensures { result ≡ list_any (faults.share_address symbol.now) symbols.now }
{
    symbols.iter().any(|other| share_address(symbol, other))
}

/// Whether two symbols share an address.
pub fn share_address(a: &SymbolText, b: &SymbolText) -> bool
    ensures { result ≡ faults.share_address a.now b.now }
{
    u128::from(a.address) < end_of(b) && u128::from(b.address) < end_of(a)
}

/// Returns the address after a symbol. It may not fit in 64 bits, so the result has 128 bits.
pub fn end_of(symbol: &SymbolText) -> u128
    ensures { result ≡ symbol.now.address + length symbol.now.body }
{
    u128::from(symbol.address) + symbol.body.len() as u128
}
