use std::marker::Model;

/// A symbol of an object: its name, the address of its first byte, and the bytes of its body. The fields are plain, and
/// in contracts the symbol is a record of lists. So a caller that takes a symbol apart gets the parts from which it was
/// made (docs/DECISIONS.md, "Texts as records of lists").
#[derive(Drop)]
pub struct SymbolText {
    pub name: String,
    pub address: u64,
    pub body: Vec<u8>,
}

impl Model for SymbolText {
    ghost use Rattle.std.specs.Prelude.{string_bytes};
    ghost use Rattle.klp_types.specs.Image.{Symbol};

    ghost Value = { Symbol };

    ghost view = { λ s. record { name = string_bytes s.name; address = s.address; body = s.body.items } };
}

/// An object of the image: its name, and its symbols in order. The object's sites have the same order as its symbols.
#[derive(Drop)]
pub struct ObjectText {
    pub name: String,
    pub symbols: Vec<SymbolText>,
}

impl Model for ObjectText {
    ghost use Rattle.std.specs.Prelude.{string_bytes};
    ghost use Rattle.klp_types.specs.Image.{Object};

    ghost Value = { Object };

    ghost view = { λ o. record { name = string_bytes o.name; symbols = o.symbols.items } };
}
