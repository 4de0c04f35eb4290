//! What becomes of a livepatch when another one is loaded over it, by the tables of both.
//!
//! [`judge`] says whether the newer patch is refused, takes the older one out, or stands beside it (`specs/Outcomes`). It
//! is refused by the kernel's rule for system states, `klp_is_patch_compatible` (`specs/Matrix`). If it takes the older
//! one out, the functions are listed that only that one changes, whose originals run again; and else those that both
//! change (`specs/Changes`). [`object_name`] is what objects are called (`specs/Names`). Nothing here reads a kernel, or
//! says that a module loads for other reasons.
#![tactic(auto)]

mod functions;
mod names;
mod outcome;
mod states;

pub use functions::{Changed, append_changed, changed_by, is_changed_too};
pub use names::{IMAGE, name_of_row, object_name};
pub use outcome::{Judgement, Outcome, Side, judge};
pub use states::Refusal;
