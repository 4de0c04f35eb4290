//! The objects of a catalog with their symbols.
ghost use Rattle.std.specs.Prelude.{◌≡◌, ◌++◌, bytes_eq, filter, map, replicate, IfOk};
ghost use Rattle.std.specs.List.{flat_map, list_any};
ghost use Rattle.klp_module_symbols.specs.declared.rows.KernelRow.{KernelRow};
ghost use Rattle.klp_module_matrix.specs.Changes.{meaning};
ghost use Rattle.klp_module_symbols.specs.Kernel.{row_meaning};
ghost use Rattle.klp_module_symbols.specs.Symbols.{highest_of, is_known, is_of, is_row_of, known_symbol, made_up, named_once, object_meaning, object_of, objects_of, symbol_meaning, symbols_named, symbols_of};

use crate::rows::KernelRow;
use crate::uses::{highest_of, named_once, object_names, uses_of};
use klp_module_fit::NamedPatch;
use klp_module_matrix::{Changed, object_name};
use std::alloc::{AllocError, Global};

/// A symbol of a catalog.
#[derive(Clone, Copy)]
pub struct CatalogSymbol<'a> {
    pub name: &'a [u8],
    /// Its address in the kernel. One that is made up or of a module's file has none.
    pub address: Option<u64>,
    pub is_function: bool,
}

/// An object of a catalog with its symbols.
#[derive(Drop)]
pub struct ObjectSymbols<'a> {
    pub name: &'a [u8],
    /// Whether the kernel has no symbol of it, so that all of its symbols are made up.
    pub is_made_up: bool,
    pub symbols: Vec<CatalogSymbol<'a>>,
}

pub(crate) fn is_row_of(symbol: &Changed<'_>, row: &KernelRow<'_>) -> bool
    ensures { result ≡ is_row_of (meaning symbol.now) (row_meaning row.now) }
{
    row.object == object_name(symbol.object) && row.name == symbol.name
}

fn is_of(object: &[u8], symbol: &Changed<'_>) -> bool
    ensures { result ≡ is_of object.now (meaning symbol.now) }
{
    object_name(symbol.object) == object
}

fn has_object(rows: &[KernelRow<'_>], object: &[u8]) -> bool
    ensures { result ≡ list_any (λ (r : KernelRow). bytes_eq r.object.now object.now) rows.now }
{
    rows.iter().any(|row| row.object == object)
}

/// Whether a kernel has any symbol of an object.
pub(crate) fn is_known(rows: &[KernelRow<'_>], object: &[u8]) -> bool
    ensures { result ≡ is_known (map row_meaning rows.now) object.now }
{
    has_object(rows, object)
}

/// Adds the symbols of a name that the kernel has.
fn add_known<'a>(
    symbols: &mut Vec<CatalogSymbol<'a>>,
    rows: &[KernelRow<'a>],
    symbol: &Changed<'_>,
) -> Result<(), AllocError>
    ensures { IfOk result (λ _. map symbol_meaning symbols.new.items
        ≡ map symbol_meaning symbols.old.items ++ map known_symbol (filter (is_row_of (meaning symbol.now)) (map row_meaning rows.now))) }
{
    for row in rows {
        if is_row_of(symbol, row) {
            symbols.push(CatalogSymbol {
                name: row.name,
                address: row.address,
                is_function: row.is_function,
            })?;
        }
    }
    Ok(())
}

/// Adds so many made-up symbols of a name.
fn add_made_up<'a>(
    symbols: &mut Vec<CatalogSymbol<'a>>,
    count: u64,
    symbol: &Changed<'a>,
) -> Result<(), AllocError>
    ensures { IfOk result (λ _. map symbol_meaning symbols.new.items
        ≡ map symbol_meaning symbols.old.items ++ replicate count (made_up (meaning symbol.now))) }
{
    for position in 0..count {
        symbols.push(CatalogSymbol {
            name: symbol.name,
            address: None,
            is_function: true,
        })?;
    }
    Ok(())
}

/// The symbols of a kernel, and what patches name.
#[derive(Clone, Copy)]
struct Known<'k, 'a> {
    rows: &'k [KernelRow<'a>],
    uses: &'k [Changed<'a>],
}

/// Adds the symbols of a name.
fn add_named<'a>(
    symbols: &mut Vec<CatalogSymbol<'a>>,
    is_known: bool,
    from: Known<'_, 'a>,
    symbol: &Changed<'a>,
) -> Result<(), AllocError>
    ensures { IfOk result (λ _. map symbol_meaning symbols.new.items
        ≡ map symbol_meaning symbols.old.items
        ++ symbols_named is_known (map row_meaning from.entry.rows.now) (map meaning from.entry.uses.now) (meaning symbol.now)) }
{
    if is_known {
        add_known(symbols, from.rows, symbol)
    } else {
        add_made_up(symbols, highest_of(from.uses, symbol), symbol)
    }
}

/// Adds the symbols of those names that are of an object.
fn add_all<'a>(
    symbols: &mut Vec<CatalogSymbol<'a>>,
    from: Known<'_, 'a>,
    named: &[Changed<'a>],
    object: &[u8],
) -> Result<(), AllocError>
    ensures { IfOk result (λ _. map symbol_meaning symbols.new.items
        ≡ map symbol_meaning symbols.old.items
        ++ flat_map (symbols_named (is_known (map row_meaning from.entry.rows.now) object.now) (map row_meaning from.entry.rows.now) (map meaning from.entry.uses.now))
        (filter (is_of object.now) (map meaning named.now))) }
{
    let is_known = is_known(from.rows, object);
    for symbol in named {
        if is_of(object, symbol) {
            add_named(symbols, is_known, from, symbol)?;
        }
    }
    Ok(())
}

/// Returns the objects of a catalog of these patches over a kernel with these symbols, in the order in which the patches
/// name them, the kernel's image first. The cost is a step for each symbol of the kernel and each name.
pub fn objects_of<'a>(
    alloc: Global,
    rows: &[KernelRow<'a>],
    patches: &[NamedPatch<'_, 'a>],
) -> Result<Vec<ObjectSymbols<'a>>, AllocError>
    ensures { IfOk result (λ objects. map object_meaning objects.items ≡ objects_of (map row_meaning rows.now) patches.now) }
{
    let uses = uses_of(alloc, patches)?;
    let named = named_once(alloc, &uses)?;
    let from = Known { rows, uses: &uses };
    let names = object_names(alloc, patches)?;
    let mut objects = Vec::new(alloc);
    for name in &names {
        let mut symbols = Vec::new(alloc);
        add_all(&mut symbols, from, &named, name)?;
        objects.push(ObjectSymbols {
            name: *name,
            is_made_up: !is_known(rows, name),
            symbols,
        })?;
    }
    Ok(objects)
}
