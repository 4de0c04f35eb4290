//! The sites that a change covers: those of one object, or of all loaded objects.
ghost use Rattle.std.specs.Prelude.{◌≡◌, ℕ, ◌<◌, ◌&&◌, length, IfSome};
ghost use Rattle.klp_types.specs.Setting.{is_at};
ghost use Rattle.klp_modules.specs.Names.{names_of};
ghost use Rattle.klp_catalog.specs.Assembled.{LiesInObject};
ghost use Rattle.klp_patch.specs.Covered as covered;

use klp_catalog::CatalogFunction;
use klp_sites::Sites;
use klp_text::Image;
use klp_types::{ObjId, Site};

/// Whether a change covers this object. If `only` is an object, the change covers only that object, loaded or not. If
/// `only` is `None`, the change covers each loaded object.
pub(crate) fn is_in_scope(image: &Image, only: Option<ObjId>, object: ObjId) -> bool
    ensures { result ≡ covered.is_in_scope only image.now.loaded object }
{
    match only {
        Some(own) => object == own,
        None => image.is_loaded(object),
    }
}

/// Returns the function's site if the change covers the function's object. `in_scope` says whether the change covers
/// this object. It is a parameter so that it is computed once for each object. Returns `None` if the object isn't
/// covered, or if the function has no site.
#[inline(always)]
pub(crate) fn site_in_scope(
    sites: &Sites,
    only: &Option<ObjId>,
    in_scope: bool,
    function: &CatalogFunction,
) -> Option<Site>
    requires object { LiesInObject (names_of sites.now.image.objects) function.now }
    requires scope { in_scope ≡ covered.is_in_scope only.now sites.now.loaded function.now.object }
    ensures site { (site : ℕ)
        → is_at result site ≡ (covered.is_covered sites.now only.now site && is_at function.now.site site) }
    ensures there { IfSome result (λ site. site < length sites.now.stacks) }
{
    // called for its contract, which says that each site of the image has a stack
    let _image = sites.image();
    if in_scope { function.site() } else { None }
}

/// Whether a change covers a site. If `only` is an object, the site must be in that object. If `only` is `None`, the
/// site must be in a loaded object. Objects are searched in order, so the cost grows with the number of objects before
/// the site's own.
pub(crate) fn covers(sites: &Sites, only: &Option<ObjId>, site: Site) -> bool
    ensures { result ≡ covered.is_covered sites.now only.now site }
{
    let image = sites.image();
    let mut left = site.0;
    for object in 0..image.objects() {
        let symbols = image.symbols(ObjId(object)).unwrap_or(0);
        if left < symbols {
            return is_in_scope(image, *only, ObjId(object));
        }
        left -= symbols;
    }
    false
}
