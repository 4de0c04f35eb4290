//! Finds what the patches of a catalog change, as far as the manager that was booted over it tells.
//!
//! `changes.rt` finds the shadow variables and the system states that the callbacks of a patch change, and `sites.rt` the
//! functions that patches change, and those that one patch changes and another one doesn't.
#![tactic(auto)]

mod changes;
mod sites;

pub use changes::{Change, Keys, change_of, keys_changed};
pub use sites::{changes_site, lost_functions, site_in};
