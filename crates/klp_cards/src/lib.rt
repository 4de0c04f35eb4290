//! The cards that a row of a page shows besides its line and its answer. There is a card for each patch, task and site
//! that changed, and one for the callbacks that ran.
//!
//! A [`Chronicle`] looks at a manager after each line that did or undid an event. It compares the manager with what the
//! manager showed before, and returns what changed ([`RowParts`]). The callbacks of an event are listed in the order in
//! which they ran. Below the list, the card shows what the callbacks changed: system states, and the shadow variables
//! that the catalog's scripts name. A manager doesn't show its scripts, so call [`Chronicle::watch`] before the manager
//! is booted.
//!
//! If the name of a task is known ([`klp_names::Names`]), cards show the name.
//!
//! This crate is layout, and has no contract. All text from the catalog or the script is escaped, as everything on a
//! `Sheet` is. [`STYLE`] is the part of a page's style that cards need. It uses the colours of the page and of the
//! drawing.
#![tactic(auto)]

mod callbacks;
mod callbacks_ran;
mod cards;
mod chronicle;
mod reach;
mod shot;
mod sites;
mod style;
mod tasks;
mod watched;

pub use chronicle::{Chronicle, RowParts};
pub use style::STYLE;
