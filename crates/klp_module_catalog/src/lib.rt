//! Makes a catalog of livepatches, out of the tables of their modules and the symbols of the kernel.
//!
//! [`draft_of`] writes the text. It refuses exactly what a catalog has no room for or can't spell (`specs/Refusals`).
//! [`is_catalog_of`] reads a text back. It decides whether it is a catalog that says of each patch what the tables say
//! (`specs/Said`): its name, its system states, its objects with their functions and callbacks, and whether it replaces
//! the patches before it; whether it has the symbols that it should; and whether all is marked that isn't known
//! (`specs/Marks`): what callbacks do, what code sets, made-up symbols, and what is left out (docs/LINT.md, "Marks").
#![tactic(auto)]

mod check;
mod draft;
mod fault;
mod fault_words;
mod marks;
mod names;
mod objects;

pub use check::is_catalog_of;
pub use draft::{Draft, Unknown, draft_of};
pub use fault::CatalogFault;
pub use fault_words::FaultWords;
pub use klp_module_fit::{LeftOut, NamedPatch};
