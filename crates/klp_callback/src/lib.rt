//! The callbacks of livepatches: the trait, the three kinds of this project, and the boxes in which a manager stores
//! the callbacks that it is given.
//!
//! [`Callback::run`] changes the world by the effect of the callback's script, logs records that undo this effect,
//! counts the run, and returns the script's status. The three kinds, [`Quiet`], [`Refusing`] and [`Scripted`], do the
//! same, and so does a [`Boxed`] of any kind. The count of a `Boxed` grows only when the callback in the box runs, if
//! the callback still has the script that it had when the box was made.
//!
//! [`run_script`] runs a script. Callbacks of other crates call it. Begin with `src/callback.rt`, then read
//! `src/boxed.rt` and `src/counted_box.rt`. A callback can't take memory. It is given only the world, so it sees no
//! function stack and no text. `laws` says which scripts don't affect each other.
#![tactic(auto)]

mod boxed;
mod callback;
mod counted_box;
mod edits;
pub mod laws;
mod quiet;
mod refusing;
mod scripted;

pub use boxed::Boxed;
pub use callback::Callback;
pub use edits::{allocs_of, run_script};
pub use quiet::Quiet;
pub use refusing::Refusing;
pub use scripted::Scripted;
