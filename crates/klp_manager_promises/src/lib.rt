//! What `klp_core` promises of a manager, and `klp_patch` of callbacks, restated for the gate.
//!
//! Each function passes its arguments to the manager's call of that name, and has that call's contract. So if a clause
//! of the call is weakened, the proof here fails. The wrong bodies in `must-fail/` are tried here and not in
//! `klp_core`, since a proof of this crate takes seconds (docs/GATE.md, "How an edit gets in and out").
#![tactic(auto)]

mod callbacks;
mod events;
mod undo;

pub use callbacks::run_pre_patch;
pub use events::{apply, run};
pub use undo::{make_room, records_free, rewind, seal, state_of};
