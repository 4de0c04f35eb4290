use std::marker::Model;

/// An object, by its index in the image, from 0. Object 0 is `vmlinux`, and the other objects are modules. In contracts
/// the value is just the number, so that definitions use plain numbers (docs/DECISIONS.md, "Numbers of objects, sites
/// and patches").
#[derive(Clone, Copy, Debug, Default, PartialEq, Eq)]
pub struct ObjId(pub u8);

impl Model for ObjId {
    ghost use Rattle.std.specs.Prelude.{ℕ};

    ghost Value = { ℕ };

    ghost view = { λ o. o.0 };

    ghost inverse = { λ n. record { 0 = n } };
}

/// A site: one symbol of one object. Sites are numbered from 0 over the symbols of all objects in the image's order.
/// Objects that aren't loaded count too, so a site keeps its number when modules are loaded and unloaded.
#[derive(Clone, Copy, Debug, Default, PartialEq, Eq)]
pub struct Site(pub u16);

impl Model for Site {
    ghost use Rattle.std.specs.Prelude.{ℕ};

    ghost Value = { ℕ };

    ghost view = { λ s. s.0 };

    ghost inverse = { λ n. record { 0 = n } };
}

/// A patch, by its index in the catalog, from 0. The index doesn't depend on the order in which patches are installed.
#[derive(Clone, Copy, Debug, Default, PartialEq, Eq)]
pub struct PatchId(pub u8);

impl Model for PatchId {
    ghost use Rattle.std.specs.Prelude.{ℕ};

    ghost Value = { ℕ };

    ghost view = { λ p. p.0 };

    ghost inverse = { λ n. record { 0 = n } };
}
