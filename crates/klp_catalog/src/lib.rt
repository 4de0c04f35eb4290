//! The catalog: the patches of an administrator's text, for the objects of the kernel.
//!
//! `klp_catalog_text` reads the text into a [`Plan`]. A [`Catalog`] is made of a plan and the kernel's objects. The
//! symbols that the plan's functions name are looked up in these objects (`specs/Assembled`). The model of a catalog
//! has the modules' names, the plan's patches with the scripts of the given callbacks, and how often each callback ran
//! (`specs/Catalog`, `Counts`).
//!
//! Each function in `functions` has the site that its name and position pick. No two functions of a patch have the same
//! site. All patches are within the limits. No patch has an object twice, a state twice, or two callbacks of one kind
//! for one object. `run` makes the edits of one script, logs the changed rows, and counts the run of that callback
//! (`specs/Runs`). `callback_runs` returns the count. `is_compatible` and `previous_state` agree with the definitions
//! (`specs/States`).
//!
//! `laws` says that a list of runs increases each count by how often its callback is in the list, and changes no other
//! count. It also says that runs add up, and that sites are in the objects of their functions.
#![tactic(auto)]

mod assemble;
mod catalog;
mod function;
pub mod laws;
mod numbers;
mod patch;
mod target;

pub use assemble::AssembleFault;
pub use catalog::Catalog;
pub use function::CatalogFunction;
pub use klp_catalog_text::{Plan, TextFault, TextFaultKind};
pub use patch::CatalogPatch;
pub use target::CatalogTarget;
