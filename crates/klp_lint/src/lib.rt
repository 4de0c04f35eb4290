//! Decides whether a patch would leave no trace, by the premises of the round trip (docs/ROUND_TRIP.md).
//!
//! [`leaves_no_trace`] says whether a patch of a manager is at a fair start, or which premise fails (`specs/Premises`).
//! [`holds_everywhere`] says whether the premises hold in every world that has none of the variables that the patch's
//! callbacks touch. Both functions read the scripts of the callbacks from the plan with which the manager was booted.
//!
//! `src/edits.rt` follows one variable through edits, and finds a variable that two lists of edits touch.
//! `src/undone.rt` judges the callbacks of one object by the variables that they name (`specs/Undone`). All other
//! variables stay as they are. `src/objects.rt` goes over the objects of a patch (`specs/Acting`). The code in
//! `undone.rt` and `objects.rt` doesn't depend on a manager, since a trait gives the existing variables
//! ([`variables`]).
//!
//! `src/behind.rt` finds out how a manager would answer after some events, which are all taken back (`specs/Behind`).
//!
//! `laws` says that a premise that is reported to fail does fail. It also says what `Manager::run` promises of a patch
//! at a fair start.
#![tactic(auto)]

mod behind;
mod edits;
mod judged;
pub mod laws;
mod objects;
mod premise;
mod there;
mod undone;
mod variables;

pub use behind::{reply_behind, value_behind};
pub use judged::{holds_everywhere, leaves_no_trace};
pub use premise::{Pair, Premise};
pub use undone::{found_by, left_behind};
