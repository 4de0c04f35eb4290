//! The parts of lines that a plan stores unchanged: names, functions and system states.

use std::alloc::Global;
use std::default::MadeWith;
use std::marker::Model;

/// The name of an object, a patch, a symbol or a new function, as the text spells it. The name is ASCII, so its bytes
/// are its characters.
#[derive(Drop)]
pub struct Name(pub String);

impl Model for Name {
    ghost use Rattle.std.specs.Prelude.{ℕ, List, string_bytes};

    ghost Value = { List ℕ };

    ghost view = { λ n. string_bytes n.0 };
}

/// A name as a line has it, borrowed from the line.
#[derive(Drop)]
pub struct NameWord<'a>(pub &'a str);

impl<'a> Model for NameWord<'a> {
    ghost use Rattle.std.specs.Prelude.{ℕ, List};

    ghost Value = { List ℕ };

    ghost view = { λ n. n.0.now };
}

/// A new function of a patch, as its line has it. The site of the function isn't known until the names are resolved.
#[derive(Drop)]
pub struct PlanFunction {
    /// The name of the symbol that the function replaces, in the object of its target.
    pub symbol: String,
    /// The position of the symbol among the object's symbols of that name, from 1. 0 means that only one symbol of the
    /// object may have the name.
    pub sympos: u32,
    pub new_name: String,
    pub address: u64,
    /// The number of the function's line in the text, from 1. Contracts don't see it.
    pub line: u64,
}

impl Model for PlanFunction {
    ghost use Rattle.std.specs.Prelude.{string_bytes};
    ghost use Rattle.klp_catalog_text.specs.Function.{PlanFunction};

    ghost Value = { PlanFunction };

    ghost view = { λ f. record {
      symbol = string_bytes f.symbol;
      sympos = f.sympos;
      new_name = string_bytes f.new_name;
      address = f.address;
    } };
}

/// Makes a function without names, at address 0. The unused element of a target's list has this value, and is never
/// read.
impl MadeWith<Global> for PlanFunction {
    fn made_with(alloc: Global) -> PlanFunction {
        PlanFunction {
            symbol: String::new(alloc),
            sympos: 0,
            new_name: String::new(alloc),
            address: 0,
            line: 0,
        }
    }
}

/// A system state that a patch names (system-state): its id, and the version of the state that the patch uses. The
/// versions decide which patches are compatible.
#[derive(Default, Drop)]
pub struct SystemState {
    pub id: u64,
    pub version: u32,
    /// The number of the state's line in the text, from 1. Contracts don't see it.
    pub line: u64,
}

impl Model for SystemState {
    ghost use Rattle.klp_types.specs.Compatible.{SystemState};

    ghost Value = { SystemState };

    ghost view = { λ s. record { id = s.id; version = s.version } };
}
