//! The world that livepatch callbacks change: the installed patches with the values of their system states, and the
//! shadow variables (system-state, shadow-vars).
//!
//! The model is the world of the definitions (`klp_types/specs/World`). Each change makes one edit, or installs or
//! removes one patch. A change logs the rows that it changes; a row that doesn't change isn't logged. If the records
//! are put back newest first, each of them changes the world, and together they restore it (`specs/Changes`, `Undo`,
//! `StoredEvent`). Only [`World::new`] takes memory. `laws` says the same of the records of scripts, and how many
//! records a script logs at most.
//!
//! Installed patches are one list, oldest first. A second list has just the patches' numbers. Shadow variables are in a
//! table without gaps (`src/shadow_table.rt`). The slots whose keys have the same hash are linked to one another
//! (`src/chains.rt`). To remove all variables of an id, their keys are sorted first (`src/sorted.rt`).
#![tactic(auto)]

mod chains;
pub mod laws;
mod patch;
mod shadow_map;
mod shadow_table;
mod sorted;
mod world;

pub use klp_types::{Edit, MAX_EDITS, MAX_PATCHES, MAX_STATES, MAX_VARIABLES, Script};
pub use shadow_table::NotAdded;
pub use world::World;
