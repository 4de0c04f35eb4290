ghost use Rattle.std.specs.Prelude.{◌≡◌, slice_get};
ghost use Rattle.klp_modules.specs.Names.{picked};
ghost use Rattle.klp_modules.specs.NamedSites.{sites_of};

use crate::fault::SymbolFault;
use klp_types::{ObjId, Site};
use smallvec::SmallVec;

/// One of the symbols that have the same name: its object, and its site.
#[derive(Clone, Copy, Default)]
pub struct NamedSite {
    pub object: ObjId,
    pub site: Site,
}

/// The symbols that have the same name, of all objects in order. The list takes memory only if a name has at least two
/// symbols, which few names have.
pub type NamedSites = SmallVec<NamedSite, 1>;

/// Returns the site of one of the object's symbols in the list. `number` counts the object's symbols in the list, from
/// 0. Returns `None` if the list has no such symbol.
fn site_of(sites: &[NamedSite], object: ObjId, number: usize) -> Option<Site>
    ensures { result ≡ slice_get (sites_of object sites.now) number }
{
    let mut left = number;
    for named in sites {
        if named.object == object {
            if left == 0 {
                return Some(named.site);
            }
            left -= 1;
        }
    }
    None
}

/// Picks one of the object's symbols by its position. Position 0 picks the only symbol, and position n picks the n-th.
pub fn pick(sites: &[NamedSite], object: ObjId, position: u32) -> Result<Site, SymbolFault>
    ensures { result ≡ picked (sites_of object sites.now) position }
{
    let Some(first) = site_of(sites, object, 0) else {
        return Err(SymbolFault::Missing);
    };
    if position > 0 {
        return match site_of(sites, object, position as usize - 1) {
            Some(site) => Ok(site),
            None => Err(SymbolFault::NoPosition),
        };
    }
    match site_of(sites, object, 1) {
        Some(_) => Err(SymbolFault::Ambiguous),
        None => Ok(first),
    }
}
