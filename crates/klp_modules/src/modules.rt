ghost use Rattle.std.specs.Prelude.{◌≡◌, ◌<◌, length, slice_set, slice_get, slice_index_or, false, option_map, IfOk};
ghost use Rattle.std.specs.Prelude.{IfSome, ◌==◌, ◌+◌, position};
ghost use Rattle.klp_types.specs.Image.{symbols_of};
ghost use Rattle.klp_modules.specs.declared.numbered.NumberedObject.{NumberedObject as NumberedObjectValue};
ghost use Rattle.klp_modules.specs.Names.{ObjectNames, names_of_object, Named, opening, object_named, resolved};
ghost use Rattle.klp_modules.specs.Names.{symbol_at_site};
ghost use Rattle.klp_modules.specs.Kept.{texts_of, text_at, AddsName, AddsObject, AreNumbered};
ghost use Rattle.klp_modules.specs.Undo.{put_back};

use crate::fault::SymbolFault;
use crate::named_sites::pick;
use crate::numbered::NumberedObject;
use crate::tables::Tables;
use indexmap::IndexSet;
use klp_text::Image;
use klp_types::{ObjId, Record, Site};
use std::alloc::{AllocError, Global};
use std::marker::Model;
use std::mem::replace;

/// The names of all objects and symbols, loaded or not, and which objects are loaded.
///
/// Each name is stored once, in a table. A look-up first searches this table. Then it walks over the few objects, or
/// over the symbols that have the name. Only `new` takes memory.
#[derive(Drop)]
pub struct Modules {
    /// Every name of an object or a symbol. A name's index in this set is its number.
    names: IndexSet<String>,
    objects: Vec<NumberedObject>,
    /// By object, whether the object is loaded.
    loaded: Vec<bool>,
    tables: Tables,
}

impl Model for Modules {
    ghost use Rattle.klp_modules.specs.Names.{ModuleTable};
    ghost use Rattle.klp_modules.specs.Kept.{names_from, texts_of};
    ghost use Rattle.klp_modules.specs.Tables.{IsTabled};

    ghost Value = { ModuleTable };

    ghost view = { λ m. record {
      names = names_from (texts_of m.names.keys) m.objects.items;
      loaded = m.loaded.items;
    } };

    ghost invariant = { λ m. IsTabled (texts_of m.names.keys) m.objects.items m.loaded.items m.tables };
}

impl Modules {
    /// Makes the names of an image, and all tables. At first only object 0 is loaded. Each symbol is compared with the
    /// symbols before it in its object. Returns `Err` if memory is refused.
    pub fn new(alloc: Global, image: &Image) -> Result<Modules, AllocError>
        ensures { IfOk result (λ modules. modules ≡ opening image.now.image.objects) }
    {
        let mut loaded = vec![in alloc; false; usize::from(image.objects())]?;
        loaded[0] = true;
        let (names, objects) = numbered_objects(alloc, image)?;
        let tables = Tables::new(alloc, names.len(), &objects)?;
        Ok(Modules {
            names,
            objects,
            loaded,
            tables,
        })
    }

    /// Returns the number of the object with this name. If several objects have the name, returns the first. Returns
    /// `None` if there is no such object. The cost is one look-up, and a walk over the few objects.
    pub fn object(&self, name: &str) -> Option<ObjId>
        ensures { result ≡ object_named self.now.names name.now }
    {
        let Some(number) = self.names.get_index_of(name) else {
            return None;
        };
        let place = place_of(&self.objects, number)?;
        Some(ObjId(place as u8))
    }

    /// Returns the name of an object. Returns `None` if there is no such object.
    pub fn object_name(&self, object: ObjId) -> Option<&str>
        ensures { option_map (λ name. name.now) result
            ≡ option_map (λ (found : ObjectNames). found.name) (slice_get self.now.names object) }
    {
        let object = self.objects.get(usize::from(object.0))?;
        Some(text(&self.names, object.name))
    }

    /// Returns how many symbols an object has. Returns `None` if there is no such object.
    pub fn symbols(&self, object: ObjId) -> Option<u16>
        ensures { result ≡ option_map (λ (found : ObjectNames). length found.symbols)
            (slice_get self.now.names object) }
    {
        let object = self.objects.get(usize::from(object.0))?;
        Some(object.symbols.len() as u16)
    }

    /// Whether an object is loaded. False if there is no such object.
    pub fn is_loaded(&self, object: ObjId) -> bool
        ensures { result ≡ slice_index_or self.now.loaded object false }
    {
        self.loaded
            .get(usize::from(object.0))
            .copied()
            .unwrap_or(false)
    }

    /// Sets an object's loaded flag, and returns the undo record, which has the old flag.
    pub fn set_loaded(&mut self, object: ObjId, loaded: bool) -> Record
        requires { object < length self.old.loaded }
        ensures flag { self.new ≡ record self.old { loaded = slice_set self.old.loaded object loaded } }
        ensures was { result ≡ Record.LoadedFlag object (slice_index_or self.old.loaded object false) }
        ensures undo { put_back self.new result ≡ self.old }
    {
        let was = replace(&mut self.loaded[usize::from(object.0)], loaded);
        Record::LoadedFlag { object, was }
    }

    /// Restores the loaded flag that the record names. Does nothing if the record is of another kind, or if its object
    /// doesn't exist.
    pub fn put_back(&mut self, row: Record)
        ensures { self.new ≡ put_back self.old row }
    {
        if let Record::LoadedFlag { object, was } = row {
            if let Some(loaded) = self.loaded.get_mut(usize::from(object.0)) {
                *loaded = was;
            }
        }
    }

    /// Returns the site of the symbol that a name and a position pick in an object, loaded or not. Position 0 picks the
    /// only symbol of that name, and position n picks the n-th symbol of that name in the object's order (livepatch,
    /// Metadata). If no symbol is picked, returns the reason as `Err`. If there is no such object, the reason is
    /// `Missing`.
    ///
    /// The cost is one look-up, and a walk over the symbols of that name.
    pub fn resolve(&self, object: ObjId, name: &str, position: u32) -> Result<Site, SymbolFault>
        ensures { result ≡ resolved self.now.names object name.now position }
    {
        let Some(number) = self.names.get_index_of(name) else {
            return Err(SymbolFault::Missing);
        };
        let Some(sites) = self.tables.sites.get(number) else {
            return Err(SymbolFault::Missing);
        };
        pick(sites, object, position)
    }

    /// Returns the symbol of a site: its object, its name, and its position, from 1, among the symbols of that name in
    /// the object. Returns `None` if there is no such site. A table has the symbol of each site, so no name is looked
    /// up.
    pub fn symbol(&self, site: Site) -> Option<(ObjId, &str, u32)>
        ensures object { option_map (λ found. found.0) result
            ≡ option_map (λ (s : Named). s.object) (symbol_at_site self.now.names site) }
        ensures name { option_map (λ found. found.1.now) result
            ≡ option_map (λ (s : Named). s.name) (symbol_at_site self.now.names site) }
        ensures position { option_map (λ found. found.2) result
            ≡ option_map (λ (s : Named). s.position) (symbol_at_site self.now.names site) }
    {
        let symbol = self.tables.symbols.get(usize::from(site.0))?;
        Some((
            symbol.object,
            text(&self.names, symbol.name),
            symbol.position,
        ))
    }
}

/// Returns the name with this number.
fn text(names: &IndexSet<String>, number: usize) -> &str
    requires { number < length names.now.keys }
    ensures { result.now ≡ text_at (texts_of names.now.keys) number }
{
    names.as_slice()[number].as_str()
}

/// Returns the index of the first object whose name has this number. Returns `None` if there is no such object.
fn place_of(objects: &[NumberedObject], name: usize) -> Option<usize>
    ensures { result ≡ position (λ (object : NumberedObjectValue). object.name == name) objects.now }
{
    objects.iter().position(|object| object.name == name)
}

/// Returns how many names an image has: one for each object and each symbol. Equal names are counted separately.
fn name_count(image: &Image) -> usize
    ensures { result ≡ length image.now.image.objects + length (symbols_of image.now.image.objects) }
{
    let mut count = usize::from(image.objects());
    for number in 0..image.objects() {
        count += usize::from(image.symbols(ObjId(number)).unwrap());
    }
    count
}

/// Returns the set of all names of an image, and the image's objects. In the objects, each name is replaced by its
/// number in the set.
fn numbered_objects(
    alloc: Global,
    image: &Image,
) -> Result<(IndexSet<String>, Vec<NumberedObject>), AllocError>
    ensures { IfOk result (λ made. AreNumbered (texts_of made.0.keys) made.1.items image.now.image.objects) }
{
    let mut names = IndexSet::with_capacity(alloc, name_count(image))?;
    let mut objects = Vec::with_capacity(alloc, usize::from(image.objects()))?;
    for number in 0..image.objects() {
        objects.push(numbered(alloc, &mut names, image, ObjId(number))?)?;
    }
    Ok((names, objects))
}

/// Adds the names of an object to the set, and returns the object with the numbers of its names.
fn numbered(
    alloc: Global,
    names: &mut IndexSet<String>,
    image: &Image,
    object: ObjId,
) -> Result<NumberedObject, AllocError>
    requires { object < length image.now.image.objects }
    ensures { IfOk result (λ numbered. IfSome (slice_get image.now.image.objects object) (λ given.
        AddsObject (texts_of names.old.keys) (texts_of names.new.keys) (names_of_object given) numbered)) }
{
    let name = number_of(alloc, names, image.object_name(object).unwrap())?;
    let count = image.symbols(object).unwrap();
    let mut symbols = Vec::with_capacity(alloc, usize::from(count))?;
    for k in 0..count {
        let (symbol, _) = image.symbol(object, k).unwrap();
        symbols.push(number_of(alloc, names, symbol)?)?;
    }
    Ok(NumberedObject { name, symbols })
}

/// Returns the number of a name. If the name isn't in the set yet, adds it.
fn number_of(alloc: Global, names: &mut IndexSet<String>, name: &str) -> Result<usize, AllocError>
    ensures { IfOk result (λ number. AddsName (texts_of names.old.keys) (texts_of names.new.keys) name.now number) }
{
    if let Some(number) = names.get_index_of(name) {
        return Ok(number);
    }
    let (number, _) = names.insert_full(String::from_str(alloc, name)?)?;
    Ok(number)
}
