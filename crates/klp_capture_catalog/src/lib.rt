//! The names in a log of a real kernel, and a catalog with the same names.
//!
//! [`Functions`] has the patches of a log and the functions that they change, if the log's frames and symbols show the
//! functions. [`Functions::catalog`] writes these names as a catalog's text. `sites` has the numbers that the
//! functions have in that catalog. `known` has what another catalog says of the patches. `transition` says which transitions a log shows, and how each ended.
//! `kernel_log` reads when a transition started, and whether it was forced, from the kernel's own log.
//!
//! `klp_capture_run` checks the trace against the rules, and compares the trace's task states and patch files with the
//! log. The names, the functions that tasks are inside of, and the time of a force aren't compared. They come from this
//! crate, which promises only what the files of patches read.
#![tactic(auto)]

mod catalog;
mod changed_functions;
mod cumulative;
mod kernel_holders;
mod kernel_log;
mod known;
mod named;
mod sites;
mod stack_order;
mod transition;

pub use kernel_holders::{KernelHolder, first_named, kernel_holders_in};
pub use kernel_log::{
    KernelLogDiffers, TransitionStart, first_forced_in, forced_in, kernel_log_differs,
    most_apart_at, since_when,
};
pub use known::KnownPatches;
pub use named::{Files, Functions, SeenFunction, SeenPatch, SeenVersion, files_in, moving_in};
pub use transition::{SeenTransition, TransitionEnd, TransitionEnding};
