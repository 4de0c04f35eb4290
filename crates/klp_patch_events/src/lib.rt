//! The events of patches and modules, each as a step of the model, on a manager's state.
//!
//! Each event has the reply and the effect that the model defines, or is refused for the reason that the model gives
//! (`TakesEvent` in `klp_manager_state/specs/Events`). The runs of the event's callbacks are counted. Putting back what
//! an event logged restores the rows before the event. For each event, a separate function returns why the event would
//! be refused, without doing the event.
//!
//! There is one file for each kind of event: `src/enabling.rt`, `enabled_file.rt`, `forcing.rt`, `completing.rt` and
//! `module.rt`. `callbacks.rt` finds out whether an event may run a callback. `replaced.rt` takes out the patches that
//! a cumulative patch replaces. `module_sites.rt` changes the sites of a module that is loaded or unloaded.
#![tactic(auto)]

mod callbacks;
mod completing;
mod enabled_file;
mod enabling;
mod forcing;
mod module;
mod module_sites;
mod replaced;

pub use callbacks::may_run;
pub use completing::{poll, poll_refusal};
pub use enabled_file::{set_enabled, set_enabled_refusal};
pub use enabling::{enable, enable_refusal};
pub use forcing::{force, force_refusal};
pub use module::{coming, coming_refusal, going, going_refusal};
