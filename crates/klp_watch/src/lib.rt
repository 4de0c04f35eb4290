//! Watching a kernel: a trace of what tasks do, checked against the consistency model.
//!
//! A trace is a list of events, calls and returns ([`klp_model::Seen`]). [`watch`] does the items of the list on a
//! manager, and stores which versions each task is inside of. If no item is at fault, the list is an honest observed
//! run (`specs/Watching`). So at every moment each task ran one version of each function, and no task was inside of
//! code that had left the function stacks (`klp_model::consistency`). If an item breaks a premise, [`watch`] returns
//! the first such item with its [`Cause`]. This item changes nothing. [`compare_whole`] also compares the kernel's
//! answers and sights with the rules (`specs/Compared`), for a trace of any length (`specs/ComparedWhole`).
#![tactic(auto)]

mod cause;
mod comparing;
mod comparing_answer;
mod comparing_sight;
mod difference;
mod event;
mod inside;
mod observed;
mod refused;
mod task;
mod watching;

pub use cause::{Cause, NotHonest};
pub use comparing::compare_whole;
pub use comparing_sight::holds_in_state;
pub use difference::{Difference, Differs};
pub use observed::{Observed, PatchFiles, Sight};
pub use refused::{FirstRefused, RefusedEvents};
pub use watching::watch;
