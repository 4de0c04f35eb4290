//! The parts of one patch: its entries on the function stacks of its sites, and its callbacks, object by object (the
//! kernel's `patch.c`, and the callbacks of `core.c`).
//!
//! [`patch_sites`], [`unpatch_sites`] and [`drop_nops`] change the entries of many sites: of all loaded objects, or of
//! one object (livepatch, Adding and Disabling; cumulative-patches, the nops; the kernel's `klp_patch_object` and
//! `klp_unpatch_object`). `AreMade` in `specs/Changes` says which entries each site has afterwards, and `specs/Covered`
//! says which sites a change covers. These functions log only rows of sites. `Notes` bounds the number of records. It
//! also says that putting the records back undoes the change, and that each record has an effect. From these bounds an
//! event knows beforehand that there is room for its records. [`block`] makes the set of versions that block a sleeper
//! (`specs/Blocked`). It computes the set from the stacks. By a law of this crate, the state gives the same set.
//!
//! Callbacks run in the order in which the definitions list them (callbacks, "Callbacks" and "How it works";
//! `specs/Calls`, `Loaded`, `ModuleParts`):
//! - for a patch, the callbacks of one kind, for each loaded object;
//! - when a patch is enabled, pre-patch up to the first object that refuses, and then the clean-up;
//! - for a module that is loaded or unloaded, the callbacks of the installed patches, one patch after another, oldest
//!   first.
//!
//! Each run is counted. The scripts decide what the world is after a run, but the same patches stay installed. The
//! changed rows are logged, in few records. Putting these records back restores the world (`HaveRun`). The caller first
//! makes sure that there is room for the records and for shadow variables. `allocs`, `allocs_of_coming` and
//! `allocs_of_going` return how many variables the callbacks that may run add at most. By a law in `laws`, the
//! callbacks that run log no more than the callbacks that may run.
#![tactic(auto)]

mod blocked_versions;
mod callback_run;
mod covered;
mod entries;
pub mod laws;
mod module_callbacks;
mod module_parts;
mod patch_callbacks;
mod site_entry;

pub use blocked_versions::block;
pub use entries::{drop_nops, patch_sites, unpatch_sites};
pub use module_callbacks::{
    allocs_of_coming, allocs_of_going, may_run_coming, may_run_going, run_coming, run_going,
};
pub use patch_callbacks::{allocs, has_callbacks, run_callbacks, run_pre_patch};
