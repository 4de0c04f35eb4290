//! What is proved of the definitions themselves. Each law is the contract of a function that does nothing. The laws
//! connect the names of an image with the image itself. A crate above may rely on the laws.
ghost use Rattle.std.specs.Prelude.{◌≡◌, ℕ, List, option_map};
ghost use Rattle.klp_types.specs.Image.{Object, object_of, first_site as first_site_in_image};
ghost use Rattle.klp_modules.specs.Names.{Named, names_of, first_site, symbol_at_site};

/// The site of an object's first symbol is the same by the names of an image and by the image itself. So the names and
/// the image number all sites alike.
pub fn first_site_as_in_image()
    ensures { (objects : List Object) (object : ℕ)
        → first_site (names_of objects) object ≡ first_site_in_image objects object }
{}

/// For each site, the symbol that the names of an image give is in the object that the image gives.
pub fn symbol_of_its_object()
    ensures { (objects : List Object) (site : ℕ)
        → option_map (λ (s : Named). s.object) (symbol_at_site (names_of objects) site) ≡ object_of objects site }
{}
