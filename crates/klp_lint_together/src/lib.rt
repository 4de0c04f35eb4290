//! Loads the patches of a catalog over each other, and finds what becomes of them.
//!
//! [`judge_together`] adds what is found to a list of findings (`klp_lint_findings`). All that it loads is taken back.
//! [`not_installed`] says which patches it loads.
//!
//! `loading.rt` loads patches over others and takes it back, `starting.rt` finds those that can't be loaded alone,
//! `together.rt` those that can't be loaded over others, `hiding.rt` functions that two patches change, `orders.rt` the
//! orders in which all are loaded, and `replacing.rt` what a cumulative patch does to the patches that it takes out.
//! `twice.rt` finds variables that a patch adds though they are there, and `why.rt` says why a patch can't be loaded.
#![tactic(auto)]

mod hiding;
mod loading;
mod orders;
mod replacing;
mod starting;
mod state_conflict;
mod together;
mod twice;
mod why;

pub use loading::not_installed;
pub use orders::MAX_LOADINGS;
pub use together::judge_together;
