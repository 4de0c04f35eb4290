//! Finds the symbol at fault, or the two symbols, among objects of which no image can be made.

use crate::wrong::{NamedSymbol, Wrong};
use klp_text::{ImageFault, can_reach, end_of, entry_bytes, entry_offset, share_address};
use klp_types::{ObjectText, SymbolText};

/// Whether a call at the symbol's entry site can reach the handler, which has the address `handler`.
fn is_in_reach(handler: u64, symbol: &SymbolText) -> bool {
    let offset = entry_offset(symbol.body.as_slice());
    can_reach(handler, u128::from(symbol.address) + offset as u128)
}

/// Returns the names of a symbol and of its object.
fn symbol_names<'a>(object: &'a ObjectText, symbol: &'a SymbolText) -> NamedSymbol<'a> {
    NamedSymbol {
        symbol: symbol.name.as_str(),
        object: object.name.as_str(),
    }
}

/// Returns the words that say what is wanted of a symbol, if the symbol by itself has this fault. Returns `None` if it
/// doesn't have the fault, or shares an address with another symbol.
fn wanted_of(fault: ImageFault, handler: u64, symbol: &SymbolText) -> Option<&'static str> {
    match fault {
        ImageFault::ShortSymbol if entry_bytes(symbol.body.as_slice()).is_none() => {
            Some("are 5 bytes for a call, behind an ENDBR64 if it begins with one")
        }
        ImageFault::Displacement if !is_in_reach(handler, symbol) => {
            Some("is a handler within 2 GiB of its entry")
        }
        ImageFault::Overlap if end_of(symbol) > u128::from(u64::MAX) => {
            Some("is an end before the last address of 64 bits")
        }
        _ => None,
    }
}

/// Returns the first of an object's first `before` symbols that shares an address with `symbol`. Returns `None` if none
/// of them does.
fn first_sharing<'a>(
    object: &'a ObjectText,
    before: usize,
    symbol: &SymbolText,
) -> Option<NamedSymbol<'a>> {
    for other in object.symbols.iter().take(before) {
        if share_address(other, symbol) {
            return Some(symbol_names(object, other));
        }
    }
    None
}

/// Returns the first symbol that precedes `symbol` in the catalog and shares an address with it. `symbol` has the index
/// `place` in the last of `objects`. Returns `None` if there is no such symbol.
fn earlier_sharing<'a>(
    objects: &'a [ObjectText],
    place: usize,
    symbol: &SymbolText,
) -> Option<NamedSymbol<'a>> {
    let (last, earlier) = objects.split_last()?;
    for object in earlier {
        if let Some(other) = first_sharing(object, object.symbols.len(), symbol) {
            return Some(other);
        }
    }
    first_sharing(last, place, symbol)
}

/// Returns what is wrong with a symbol if it has this fault, by itself or with a symbol that precedes it. `symbol` has
/// the index `place` in the last of `objects`. Returns `None` if it doesn't have the fault.
fn wrong_symbol<'a>(
    objects: &'a [ObjectText],
    place: usize,
    symbol: &'a SymbolText,
    handler: u64,
    fault: ImageFault,
) -> Option<Wrong<'a>> {
    let own = symbol_names(objects.last()?, symbol);
    if let Some(wanted) = wanted_of(fault, handler, symbol) {
        return Some(Wrong::Symbol(own, wanted));
    }
    match fault {
        ImageFault::Overlap => {
            let other = earlier_sharing(objects, place, symbol)?;
            Some(Wrong::SharedAddress(own, other))
        }
        _ => None,
    }
}

/// Returns what is wrong with the first symbol of a catalog's objects that has this fault. Returns `None` if no symbol
/// has it.
fn first_wrong_symbol<'a>(
    objects: &'a [ObjectText],
    handler: u64,
    fault: ImageFault,
) -> Option<Wrong<'a>> {
    for (number, object) in objects.iter().enumerate() {
        for (place, symbol) in object.symbols.iter().enumerate() {
            let so_far = &objects[..=number];
            let wrong = wrong_symbol(so_far, place, symbol, handler, fault);
            if wrong.is_some() {
                return wrong;
            }
        }
    }
    None
}

/// Returns what is wrong with a catalog's objects, if no image can be made of them because of this fault: a symbol, two
/// symbols, or a first object that isn't the kernel. Other faults point at no symbol: two objects have one name, there
/// are too many objects, memory ran out, or there is no object. For such a fault, returns `None`.
pub fn wrong_of<'a>(
    objects: &'a [ObjectText],
    handler: u64,
    fault: ImageFault,
) -> Option<Wrong<'a>> {
    match (fault, objects) {
        (ImageFault::NoKernel, [first, ..]) => Some(Wrong::First(first.name.as_str())),
        _ => first_wrong_symbol(objects, handler, fault),
    }
}
