//! The layout of a livepatch's structs, out of the type information that a kernel has of itself (BTF, version 1), as
//! `/sys/kernel/btf/vmlinux` has it.
//!
//! [`layout_of`] answers any bytes: with the layout, or with what is wrong with them. No contract says that the layout is
//! that of the bytes.
#![tactic(auto)]

mod fault;
mod field;
mod layout;
mod number;
mod structs;
mod types;

pub use fault::{BtfFault, FieldName, StructName};
pub use layout::layout_of;
