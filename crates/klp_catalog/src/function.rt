ghost use Rattle.std.specs.Prelude.{◌≡◌};

use klp_types::{ObjId, Site};
use std::marker::Model;

/// A new function of a catalog's patch: the content of its line, and the site of the symbol that the function replaces.
#[derive(Drop)]
pub struct CatalogFunction {
    pub(crate) object: ObjId,
    pub(crate) symbol: String,
    pub(crate) sympos: u32,
    pub(crate) site: Option<Site>,
    pub(crate) new_name: String,
    pub(crate) address: u64,
}

impl Model for CatalogFunction {
    ghost use Rattle.std.specs.Prelude.{string_bytes};
    ghost use Rattle.klp_catalog.specs.Catalog.{CatalogFunction};

    ghost Value = { CatalogFunction };

    ghost view = { λ f. record {
      object = f.object;
      symbol = string_bytes f.symbol;
      sympos = f.sympos;
      site = f.site;
      new_name = string_bytes f.new_name;
      address = f.address;
    } };
}

impl CatalogFunction {
    /// Returns the object that the function changes. The function's site, if it has one, is in this object.
    pub fn object(&self) -> ObjId
        ensures { result ≡ self.now.object }
    {
        self.object
    }

    /// Returns the name of the symbol that the function replaces. The name is stored so that the console can print it.
    pub fn symbol(&self) -> &str
        ensures { result.now ≡ self.now.symbol }
    {
        self.symbol.as_str()
    }

    /// Returns the position of the replaced symbol among the object's symbols of the same name, from 1. 0 means that
    /// only one symbol of the object may have the name (livepatch, Metadata).
    pub fn sympos(&self) -> u32
        ensures { result ≡ self.now.sympos }
    {
        self.sympos
    }

    /// Returns the site of the replaced symbol. Returns `None` if the object has no such symbol, or if it has several
    /// and the position is 0. If the function has no site, the patch can't be enabled while the object is loaded.
    pub fn site(&self) -> Option<Site>
        ensures { result ≡ self.now.site }
    {
        self.site
    }

    /// Returns the function's own name.
    pub fn new_name(&self) -> &str
        ensures { result.now ≡ self.now.new_name }
    {
        self.new_name.as_str()
    }

    /// Returns the address of the function's code.
    pub fn address(&self) -> u64
        ensures { result ≡ self.now.address }
    {
        self.address
    }
}
