//! The tables for look-ups. Each table is made once from the objects, which never change.

ghost use Rattle.std.specs.Prelude.{◌≡◌, ◌+◌, ◌≤◌, ◌<◌, ◌++◌, ◌==◌, [], length, count_by, IfOk, OnOk};
ghost use Rattle.klp_types.specs.declared.limits.TheConstants.{MAX_OBJECTS, MAX_SITES};
ghost use Rattle.klp_modules.specs.Kept.{symbol_count};
ghost use Rattle.klp_modules.specs.declared.numbered.NumberedSymbol.{NumberedSymbol as NumberedSymbolValue};
ghost use Rattle.std.specs.List.{All};
ghost use Rattle.klp_modules.specs.Tables.{HasSites, AreTabled, placed, placed_symbols};

use crate::named_sites::{NamedSite, NamedSites};
use crate::numbered::{NumberedObject, NumberedSymbol};
use klp_types::{ObjId, Site};
use std::alloc::{AllocError, Global};

/// The tables for objects with numbered names.
#[derive(Drop)]
pub struct Tables {
    /// By the number of a name, the symbols of that name.
    pub sites: Vec<NamedSites>,
    /// By site, its symbol.
    pub symbols: Vec<NumberedSymbol>,
}

impl Tables {
    /// Makes the tables for these objects, whose names are numbers below `names`. Returns `Err` if memory is refused.
    pub fn new(
        alloc: Global,
        names: usize,
        objects: &[NumberedObject],
    ) -> Result<Tables, AllocError>
        requires few_objects { length objects.now ≤ MAX_OBJECTS }
        requires few_symbols { symbol_count objects.now ≤ MAX_SITES }
        requires names { All (λ (s : NumberedSymbolValue). s.name < names) (placed_symbols 0 objects.now) }
        ensures { IfOk result (AreTabled names objects.now) }
    {
        let symbols = symbols_by_site(alloc, objects)?;
        let sites = sites_by_name(alloc, names, &symbols)?;
        Ok(Tables { sites, symbols })
    }
}

/// Makes `names` empty lists: one for each name.
fn without_sites(alloc: Global, names: usize) -> Result<Vec<NamedSites>, AllocError>
    ensures count { IfOk result (λ sites. length sites.items ≡ names) }
    ensures sites { IfOk result (λ sites. HasSites [] sites.items) }
{
    let mut sites = Vec::with_capacity(alloc, names)?;
    for _ in 0..names {
        sites.push(NamedSites::new(alloc))?;
    }
    Ok(sites)
}

/// Makes `names` lists: one for each name. The list of a name has the symbols with that name, of all objects in order.
/// The number of each symbol's name must be below `names`.
fn sites_by_name(
    alloc: Global,
    names: usize,
    symbols: &[NumberedSymbol],
) -> Result<Vec<NamedSites>, AllocError>
    requires names { All (λ (s : NumberedSymbolValue). s.name < names) symbols.now }
    requires few { length symbols.now ≤ MAX_SITES }
    ensures count { IfOk result (λ sites. length sites.items ≡ names) }
    ensures sites { IfOk result (λ sites. HasSites symbols.now sites.items) }
{
    let mut sites = without_sites(alloc, names)?;
    for (place, symbol) in symbols.iter().enumerate() {
        sites[symbol.name].push(NamedSite {
            object: symbol.object,
            site: Site(place as u16),
        })?;
    }
    Ok(sites)
}

/// Returns how many symbols the objects have together.
fn symbol_count(objects: &[NumberedObject]) -> usize
    requires { symbol_count objects.now ≤ MAX_SITES }
    ensures { result ≡ symbol_count objects.now }
{
    let mut count = 0;
    for object in objects {
        count += object.symbols.len();
    }
    count
}

/// Makes a table with the symbol of each site. The table is needed because an administrator names a site by its symbol.
fn symbols_by_site(
    alloc: Global,
    objects: &[NumberedObject],
) -> Result<Vec<NumberedSymbol>, AllocError>
    requires few_objects { length objects.now ≤ MAX_OBJECTS }
    requires few_symbols { symbol_count objects.now ≤ MAX_SITES }
    ensures { IfOk result (λ table. table.items ≡ placed_symbols 0 objects.now) }
{
    let mut table = Vec::with_capacity(alloc, symbol_count(objects))?;
    for (place, object) in objects.iter().enumerate() {
        add_symbols(&mut table, ObjId(place as u8), &object.symbols)?;
    }
    Ok(table)
}

/// Adds the symbols of an object to the table. The position of each symbol is counted over the symbols before it. This
/// takes quadratic time, but is done only once.
fn add_symbols(
    table: &mut Vec<NumberedSymbol>,
    object: ObjId,
    symbols: &[usize],
) -> Result<(), AllocError>
    requires { length symbols.now ≤ MAX_SITES }
    ensures { OnOk result (table.new.items ≡ table.old.items ++ placed object 0 symbols.now symbols.now) }
{
    for (place, name) in symbols.iter().enumerate() {
        let position = count(&symbols[..place + 1], *name) as u32;
        table.push(NumberedSymbol {
            object,
            name: *name,
            position,
        })?;
    }
    Ok(())
}

/// Returns how many of the symbols have the name with this number. If the last symbol has this name, the result is the
/// position of the last symbol, from 1.
fn count(symbols: &[usize], number: usize) -> usize
    ensures { result ≡ count_by (λ other. other == number) symbols.now }
{
    symbols.iter().filter(|other| **other == number).count()
}
