//! Livepatches cut down to what a catalog has room for.
//!
//! [`cut_patch`] leaves out functions of a patch, and objects without callbacks. A function that another patch changes too is
//! never left out, since what becomes of two patches together depends on it. [`is_cut_of`] decides whether the one patch is
//! the other one, with what is left out counted (`specs/Cut`). System states and callbacks are never left out, so what
//! `klplint` says of them, and of variables, is said of the whole patch.
#![tactic(auto)]

mod check;
mod choice;
mod cut;

pub use check::is_cut_of;
pub use cut::{Cut, CutRoom, changed_by_others, cut_patch};
