//! The names of the kernel's objects and their symbols, the symbol that a name and a position pick, and which modules
//! are loaded.
//!
//! A patch's function names the function that it replaces by the object, the name, and the position among the object's
//! symbols of that name, as in livepatch, Metadata. In module-elf-format the position follows a comma.
//!
//! The model is the image's names in order, and the loaded flags (`specs/Names`). `resolve` returns the site that a
//! name and a position pick, or why no site is picked. `set_loaded` changes one flag and returns the undo record of the
//! change (`specs/Undo`). Each name is stored once, and look-ups use tables (`src/tables.rt`). So a look-up walks only
//! over the symbols that have the given name (docs/DECISIONS.md, "Names kept once"). `place_in` picks a
//! symbol of an object that has no tables. `laws` connects the sites of the names with those of the image.
#![tactic(auto)]

mod fault;
pub mod laws;
mod modules;
mod named_sites;
mod numbered;
mod place;
mod tables;

pub use fault::SymbolFault;
pub use modules::Modules;
pub use place::place_in;
