//! Which symbols a catalog of livepatches has.
//!
//! [`read_rows`] reads the symbols of a kernel (`specs/Kernel`), and [`add_file`] adds those of a module that isn't loaded,
//! by its file (`specs/Files`). [`objects_of`] returns the objects of a catalog, each with its symbols: those of the names
//! that patches name there, all that the kernel has, or, if it has none of the object, as many as the patches count
//! (`specs/Symbols`).
//!
//! A kernel refuses a patch with a change that isn't of a function, or that it can't trace. [`variables`] returns those
//! whose position is that of a variable (`specs/Variables`). [`read_traceable`] reads which functions a kernel can trace,
//! and [`untraceable`] returns the changes of others (`specs/Traceable`).
#![tactic(auto)]

mod files;
mod objects;
mod rows;
mod traceable;
mod uses;
mod variable;

pub use files::add_file;
pub use objects::{CatalogSymbol, ObjectSymbols, objects_of};
pub use rows::{KernelRow, RowsFault, is_function_letter, read_rows};
pub use traceable::{TraceableFault, TraceableRow, is_judged, read_traceable, untraceable};
pub use variable::variables;
