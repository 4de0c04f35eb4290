ghost use Rattle.std.specs.Prelude.{◌≡◌, length, slice_get, option_map};
ghost use Rattle.klp_types.specs.Image.{Symbol};

use klp_text::Image;
use klp_types::ObjId;
use std::marker::Model;

/// The text of one loaded object, borrowed from the manager. It has the object's symbols in order, each with the bytes
/// that a processor would run. While the view lives, no event can be done, so all bytes are of the same moment.
#[derive(Drop)]
pub struct TextView<'a> {
    image: &'a Image,
    object: ObjId,
}

impl<'a> Model for TextView<'a> {
    ghost use Rattle.std.specs.Prelude.{◌≡◌, List, true, slice_index_or, false};
    ghost use Rattle.klp_types.specs.Image.{Symbol};
    ghost use Rattle.klp_core.specs.View.{symbols_at};

    ghost Value = { List Symbol };

    ghost view = { λ v. symbols_at v.image.now v.object };

    ghost invariant = { λ v. slice_index_or v.image.now.loaded v.object false ≡ true };
}

impl<'a> TextView<'a> {
    ghost use Rattle.std.specs.Prelude.{true, false, slice_index_or};
    ghost use Rattle.klp_core.specs.View.{symbols_at};

    /// Makes the view of an object's text. The object must be loaded.
    pub(crate) fn new(image: &'a Image, object: ObjId) -> TextView<'a>
        requires { slice_index_or image.now.loaded object false ≡ true }
        ensures { result ≡ symbols_at image.now object }
    {
        TextView { image, object }
    }

    /// Returns how many symbols the object has. The image counts symbols in 16 bits, and so does this function
    /// (docs/DECISIONS.md, "Symbols of a `TextView`").
    pub fn len(&self) -> u16
        ensures { result ≡ length self.now }
    {
        match self.image.symbols(self.object) {
            Some(count) => count,
            None => 0,
        }
    }

    /// Returns a symbol's name, address and bytes. Returns `None` if there is no such symbol. `number` counts the
    /// object's symbols from 0. Symbols aren't looked up by name, since several may have the same name.
    pub fn get(&self, number: u16) -> Option<(&str, u64, &[u8])>
        ensures name { option_map (λ found. found.0.now) result
            ≡ option_map (λ (s : Symbol). s.name) (slice_get self.now number) }
        ensures address { option_map (λ found. found.1) result
            ≡ option_map (λ (s : Symbol). s.address) (slice_get self.now number) }
        ensures body { option_map (λ found. found.2.now) result
            ≡ option_map (λ (s : Symbol). s.body) (slice_get self.now number) }
    {
        let Some((name, address)) = self.image.symbol(self.object, number) else {
            return None;
        };
        let body = self.image.bytes(self.object, number)?;
        Some((name, address, body))
    }
}
