ghost use Rattle.std.specs.Prelude.{◌≡◌, ◌+◌, ◌^◌, ◌<◌, ◌≤◌, ◌⊎◌, true, false, length, slice_get, slice_set};
ghost use Rattle.std.specs.Prelude.{slice_index_or, option_map, IfOk, IfErr, OnOk, None};
ghost use Rattle.klp_types.specs.Image.{Symbol, Object, given_symbol, symbol_of, symbols_of};
ghost use Rattle.klp_types.specs.Bytes.{entry_address};
ghost use Rattle.klp_text.specs.TextImage.{opening, bytes_at, site_count, IsWithinLimits};
ghost use Rattle.std.specs.List.{All, AllZip};
ghost use Rattle.klp_types.specs.declared.limits.TheConstants.{ENTRY_SITE_LEN, MAX_SITES};
ghost use Rattle.klp_text.specs.Faults as faults;
ghost use Rattle.klp_text.specs.Kept.{IsInRange, IsLong, IsNear, IsResting, first_sites_from};
ghost use Rattle.klp_text.specs.declared.fault.ImageFault.TheVariants.{NoMemory};

use crate::check::image_fault;
use crate::fault::ImageFault;
use crate::stored::StoredSymbol;
use klp_types::{ObjId, ObjectText, Site};
use std::alloc::{AllocError, Global};
use std::marker::Model;

/// The text of all objects, loaded or not: their names and symbols, and the present bytes of each body.
///
/// Sites are numbered over all objects in order. The objects never change. Only the loaded flags and the hooks change.
/// Only `new` takes memory. The cost of every other call is independent of the number of sites.
#[derive(Drop)]
pub struct Image {
    handler: u64,
    /// The objects as the caller passed them. Contracts describe the image by these objects (docs/DECISIONS.md, "Bodies
    /// as they were given").
    objects: Vec<ObjectText>,
    /// By object, whether the object is loaded. `bytes` returns `None` for an object that isn't loaded.
    loaded: Vec<bool>,
    /// By object, the site of its first symbol, so that a symbol's site is found without counting.
    first_sites: Vec<u16>,
    /// By site, the symbol with its present bytes.
    sites: Vec<StoredSymbol>,
}

impl Model for Image {
    ghost use Rattle.klp_text.specs.TextImage.{TextImage};
    ghost use Rattle.klp_text.specs.Kept.{IsKept, hooked_of};

    ghost Value = { TextImage };

    ghost view = { λ i. record {
      image = record { handler = i.handler; objects = i.objects.items };
      loaded = i.loaded.items;
      hooked = hooked_of i.sites.items;
    } };

    ghost invariant = { λ i. IsKept i.handler i.objects.items i.loaded.items i.first_sites.items i.sites.items };
}

impl Image {
    /// Makes an image of these objects. `handler` is the address that hooked sites call. At first only object 0 is
    /// loaded and no site is hooked. So each entry site has the NOP, whatever bytes the given body has there.
    ///
    /// Faults are checked in this order: `TooMany`, `NoKernel`, `DuplicateObject`, and then, symbol by symbol,
    /// `ShortSymbol`, `Displacement` and `Overlap`. `NoMemory` may be reported in place of any other fault. If there is
    /// a fault, the objects are dropped.
    ///
    /// Each symbol is compared with all symbols before it, and each body is copied.
    pub fn new(alloc: Global, objects: Vec<ObjectText>, handler: u64) -> Result<Image, ImageFault>
        ensures ok { IfOk result (λ image.
            (faults.image_fault handler objects.items ≡ None) × (image ≡ opening handler objects.items)) }
        ensures fault { IfErr result
            (λ fault. (fault ≡ NoMemory) ⊎ (faults.image_fault handler objects.items ≡ Some fault)) }
        ensures limits { OnOk result (IsWithinLimits objects.items) }
    {
        if let Some(fault) = image_fault(handler, objects.as_slice()) {
            return Err(fault);
        }
        let mut loaded = vec![in alloc; false; objects.len()]?;
        loaded[0] = true;
        let first_sites = first_sites(alloc, objects.as_slice())?;
        let sites = stored_symbols(alloc, objects.as_slice(), handler)?;
        Ok(Image {
            handler,
            objects,
            loaded,
            first_sites,
            sites,
        })
    }

    /// Writes a call of the handler to an entry site, in one write of five bytes. Hooking a hooked site is allowed, and
    /// writes the same bytes again (docs/DECISIONS.md, "Hooking twice").
    pub fn hook(&mut self, site: Site)
        requires { site < site_count self.old.image }
        ensures { self.new ≡ record self.old { hooked = slice_set self.old.hooked site true } }
    {
        self.set_hooked(site, true);
    }

    /// Writes the NOP to an entry site, in one write of five bytes. From then on, a call runs the original again.
    /// Unhooking a site that isn't hooked is allowed.
    pub fn unhook(&mut self, site: Site)
        requires { site < site_count self.old.image }
        ensures { self.new ≡ record self.old { hooked = slice_set self.old.hooked site false } }
    {
        self.set_hooked(site, false);
    }

    /// Writes either a call of the handler or the NOP to an entry site.
    fn set_hooked(&mut self, site: Site, hooked: bool)
        requires { site < site_count self.old.image }
        ensures { self.new ≡ record self.old { hooked = slice_set self.old.hooked site hooked } }
    {
        self.sites[usize::from(site.0)].set_hooked(hooked);
    }

    /// Marks an object as loaded. From now on, `bytes` returns the bodies of its symbols. The hooks of its sites don't
    /// change, because hooks depend on entries and not on modules. The call writes one flag, however many symbols the
    /// object has. Loading a loaded object is allowed.
    pub fn load(&mut self, object: ObjId)
        requires { object < length self.old.image.objects }
        ensures { self.new ≡ record self.old { loaded = slice_set self.old.loaded object true } }
    {
        self.loaded[usize::from(object.0)] = true;
    }

    /// Marks an object as not loaded. From now on, `bytes` returns `None` for its symbols. The hooks of its sites don't
    /// change, so the caller must unhook the sites first. The call writes one flag, however many symbols the object
    /// has. Unloading an object that isn't loaded is allowed. The caller must not unload `vmlinux`.
    pub fn unload(&mut self, object: ObjId)
        requires { object < length self.old.image.objects }
        ensures { self.new ≡ record self.old { loaded = slice_set self.old.loaded object false } }
    {
        self.loaded[usize::from(object.0)] = false;
    }

    /// Whether an object is loaded. False if there is no such object, so that the function has a result for every
    /// number (docs/DECISIONS.md, "Numbers out of range").
    pub fn is_loaded(&self, object: ObjId) -> bool
        ensures { result ≡ slice_index_or self.now.loaded object false }
    {
        self.loaded
            .get(usize::from(object.0))
            .copied()
            .unwrap_or(false)
    }

    /// Returns the bytes of a symbol of a loaded object, as a processor would run them. `number` counts the symbols of
    /// the object, from 0. Returns `None` if the object isn't loaded or has no such symbol (docs/DECISIONS.md, "Numbers
    /// out of range").
    pub fn bytes(&self, object: ObjId, number: u16) -> Option<&[u8]>
        ensures { option_map (λ b. b.now) result ≡ bytes_at self.now object number }
    {
        let object = usize::from(object.0);
        if !*self.loaded.get(object)? {
            return None;
        }
        if usize::from(number) >= self.objects[object].symbols.len() {
            return None;
        }
        let site = usize::from(self.first_sites[object]) + usize::from(number);
        Some(self.sites[site].body.as_slice())
    }

    /// Returns the address of an entry site. It is the symbol's address, or the address four bytes further if the body
    /// begins with ENDBR64.
    pub fn address(&self, site: Site) -> u64
        requires { site < site_count self.now.image }
        ensures value { option_map entry_address (symbol_of self.now.image site) ≡ Some result }
        // The entry site is within 64 bits. The address after the entry site is within 64 bits too, so the handler can
        // jump there to run the original.
        ensures end { result + ENTRY_SITE_LEN < 2 ^ 64 }
    {
        self.sites[usize::from(site.0)].address
    }

    /// Returns how many objects there are, loaded or not. Loading or unloading an object doesn't change its number.
    pub fn objects(&self) -> u8
        ensures count { result ≡ length self.now.image.objects }
        // Every image is within these limits. So code that builds tables in crates above needn't check the limits.
        ensures limits { IsWithinLimits self.now.image.objects }
    {
        self.objects.len() as u8
    }

    /// Returns how many symbols an object has, loaded or not, since a catalog is resolved before modules are loaded.
    /// Returns `None` if there is no such object.
    pub fn symbols(&self, object: ObjId) -> Option<u16>
        ensures { result ≡ option_map (λ (found : Object). length found.symbols)
            (slice_get self.now.image.objects object) }
    {
        let object = self.objects.get(usize::from(object.0))?;
        Some(object.symbols.len() as u16)
    }

    /// Returns the name of an object, loaded or not, as in the catalog's text. Returns `None` if there is no such
    /// object.
    pub fn object_name(&self, object: ObjId) -> Option<&str>
        ensures { option_map (λ name. name.now) result
            ≡ option_map (λ (found : Object). found.name) (slice_get self.now.image.objects object) }
    {
        let object = self.objects.get(usize::from(object.0))?;
        Some(object.name.as_str())
    }

    /// Returns the name and the address of a symbol, whether the symbol's object is loaded or not. `number` counts the
    /// symbols of the object, from 0. A name isn't enough to find a symbol, since several symbols may have the same
    /// name. Returns `None` if there is no such symbol.
    pub fn symbol(&self, object: ObjId, number: u16) -> Option<(&str, u64)>
        ensures name { option_map (λ found. found.0.now) result
            ≡ option_map (λ (s : Symbol). s.name) (given_symbol self.now.image object number) }
        ensures address { option_map (λ found. found.1) result
            ≡ option_map (λ (s : Symbol). s.address) (given_symbol self.now.image object number) }
    {
        let Some(object) = self.objects.get(usize::from(object.0)) else {
            return None;
        };
        let Some(symbol) = object.symbols.get(usize::from(number)) else {
            return None;
        };
        Some((symbol.name.as_str(), symbol.address))
    }
}

/// Makes a list with the site of each object's first symbol. 16 bits are enough, since there are at most 256 sites.
fn first_sites(alloc: Global, objects: &[ObjectText]) -> Result<Vec<u16>, AllocError>
    requires { length (symbols_of objects.now) ≤ MAX_SITES }
    ensures { IfOk result (λ sites. sites.items ≡ first_sites_from 0 objects.now) }
{
    let mut sites = Vec::with_capacity(alloc, objects.len())?;
    let mut site = 0;
    for object in objects {
        sites.push(site)?;
        site += object.symbols.len() as u16;
    }
    Ok(sites)
}

/// Returns how many symbols the objects have together.
fn symbol_count(objects: &[ObjectText]) -> usize
    requires { length (symbols_of objects.now) ≤ MAX_SITES }
    ensures { result ≡ length (symbols_of objects.now) }
{
    let mut count = 0;
    for object in objects {
        count += object.symbols.len();
    }
    count
}

/// Makes a list of all symbols, by site. At its entry site, each symbol has a NOP, whatever bytes the given body has
/// there. Each symbol also stores the bytes of its call of the handler.
fn stored_symbols(
    alloc: Global,
    objects: &[ObjectText],
    handler: u64,
) -> Result<Vec<StoredSymbol>, AllocError>
    requires few { length (symbols_of objects.now) ≤ MAX_SITES }
    requires long { All IsLong (symbols_of objects.now) }
    requires near { All (IsNear handler) (symbols_of objects.now) }
    requires range { All IsInRange (symbols_of objects.now) }
    ensures { IfOk result (λ sites. AllZip (IsResting handler) sites.items (symbols_of objects.now)) }
{
    let mut sites = Vec::with_capacity(alloc, symbol_count(objects))?;
    for object in objects {
        for symbol in &object.symbols {
            sites.push(StoredSymbol::new(alloc, symbol, handler)?)?;
        }
    }
    Ok(sites)
}
