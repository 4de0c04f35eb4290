//! The image and the function stacks of its sites. The image and the stacks always agree: a site is hooked exactly
//! while its stack isn't empty (livepatch, Hooks; the kernel's `klp_patch_func` and `klp_unpatch_func`).
//!
//! The model is the image, the loaded flags and the entries of each site (`specs/Table`). The model has no hooks, since
//! this crate's invariant determines the hooks by the entries. So crates above don't deal with hooks. A change adds or
//! removes one entry, or sets one loaded flag. Each change logs or returns an undo record for each row that it changes,
//! including the hook (`specs/Changes`). If the records are put back newest first, the table is restored, and there is
//! room for each entry that is put back (`specs/Undo`). The image's bytes are those of the definition, with a hook at
//! exactly the sites that have an entry.
#![tactic(auto)]

mod hooked;
mod sites;

pub use sites::Sites;
