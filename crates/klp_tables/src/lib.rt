//! The tables of a livepatch, read from its module's file: objects, functions, callbacks and states.
//!
//! [`read`] follows the pointers of the tables by the file's relocations. It returns exactly the rows of the tables, in
//! order (`specs/Patches`). They come in three forms (`specs/Forms`).
//!
//! A static `struct klp_patch`, as the kernel's samples have it: each table ends at its first empty row (`specs/Rows`). The
//! struct is the one variable of its size whose field `mod` points to the module itself (`specs/Finding`). That init passes
//! this one to the kernel isn't checked. The layout of the structs is given: [`Layout::KNOWN`] is that of Linux 5.5 to 7.3
//! on x86-64. If the variable at a table has another size than its rows, the file is refused. If an instruction names a
//! field behind the struct's first one, `replace` is [`Replaces::Unknown`]. Whether init changes a table in another way
//! isn't checked.
//!
//! The sections of kpatch-build (`specs/Kpatch`) and of klp-build (`specs/KlpBuild`), whose rows the module's init turns into
//! the kernel's structs. A section is full of rows; no empty one ends it. Whether the patch replaces others is in init's
//! code alone, so it is [`Replaces::Unknown`]. That init passes on all of these rows isn't checked. kpatch's does so from the
//! last row to the first: the kernel then has the objects, and the functions of each, in the opposite order.
#![tactic(auto)]

mod counted;
mod fault;
mod finding;
mod klp_build;
mod kpatch;
mod layout;
mod limits;
mod objects;
mod patch;
mod place;
mod reading;
mod row;
mod rows;

pub use fault::TableFault;
pub use layout::{CallbackPlaces, FunctionLayout, Layout, ObjectLayout, PatchLayout, StateLayout};
pub use limits::{MAX_FILE, MAX_FUNCTIONS, MAX_OBJECTS, MAX_PATCHES, MAX_STATES};
pub use patch::{Callbacks, Function, Object, ObjectRow, Patch, Replaces, State};
pub use reading::read;
