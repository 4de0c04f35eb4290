//! Whether a catalog can have some livepatches: its limits, and the names that it can spell.
//!
//! [`fit_fault`] returns the first reason why it can't (`specs/Fit`). `None` says that all of these hold: there are no
//! more patches than a catalog's, each has a name that a catalog can have and no other one has, and of each patch the
//! objects, functions and states are no more than a catalog's, each once, with names and positions that it can have.
#![tactic(auto)]

mod again;
mod fault;
mod functions;
mod patches;

pub use fault::{FitFault, PatchFault};
use klp_tables::Patch;
pub use patches::fit_fault;

/// How much of a livepatch is left out, since a catalog has no room for it.
#[derive(Clone, Copy)]
pub struct LeftOut {
    pub functions: usize,
    pub objects: usize,
}

/// A livepatch with the name under which a kernel lists it.
#[derive(Clone, Copy)]
pub struct NamedPatch<'p, 'a> {
    pub name: &'p [u8],
    pub patch: &'p Patch<'a>,
    pub left_out: LeftOut,
}
