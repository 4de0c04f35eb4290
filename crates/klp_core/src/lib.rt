//! The live patching manager. It does events, replies to them, and takes them back.
//!
//! A [`Manager`] is a `ManagerState`, a catalog and a journal. In contracts it is a `Journaled` (`specs/Journaled`).
//! [`Manager::apply`] does one event. If the event is accepted, reply and state are those of the model's definition,
//! and the journal gets one more group. If the event is refused, nothing changes (`specs/Taking`). `run` does a list of
//! events. Under the premises of the round trip, a patch that isn't installed after `run` has left no trace
//! (`specs/Withdrawal`). `rewind` takes events back. Afterwards the state is the one to which the remaining events of
//! the journal lead (`specs/Rewinding`). `seal` empties the journal, so that no rewind can go back further than the
//! present state.
//!
//! `src/manager.rt` has these calls with their clauses, `src/take.rt` passes each event to the function of its step,
//! and `src/journal.rt` appends events and takes them back. `src/queries.rt` and `src/row.rt` show the state, each
//! result by a definition of the model. `src/holders.rt` shows the tasks that block a transition (`specs/Holders`).
//! [`Manager::boot`] makes the opening state, or returns why it can't (`specs/Boot`). No later call takes an allocator
//! or fails for lack of memory. `laws` says that functions are in the objects of their sites. It also says that a patch
//! that isn't installed any more leaves no trace between two managers. docs/THEOREMS.md has all laws.
#![tactic(auto)]

mod boot;
mod fault;
mod holders;
mod journal;
pub mod laws;
mod machine;
mod manager;
mod queries;
mod row;
mod take;
mod text_view;

pub use fault::{BadMark, BootFault};
pub use holders::Lag;
pub use journal::DroppedReply;
pub use machine::Machine;
pub use manager::Manager;
pub use text_view::TextView;
