//! The state of a manager, without its catalog, and what every event promises.
//!
//! [`ManagerState`] has sites, names, world, tasks, the transition, pins and undo records. The catalog is separate
//! because it has boxes, which a definition can't mention. An event has the reply and the effect that the model
//! defines, or is refused for the reason that the model gives (`TakesEvent` in `specs/Events`). The runs of the event's
//! callbacks are counted. Afterwards the state is allowed, installed patches have the states that the catalog gives
//! them, and each site has the function stack that the state defines (`specs/Invariant`).
//!
//! An accepted event logs records. Putting these records back restores the rows before the event, and each record has
//! an effect. A refused event changes nothing (`IsLogged` in `specs/Rows`). There is always room for one event's
//! records, up to 4,096. [`ManagerState::undo`] puts back what an event logged. `laws` says from which patch a callback
//! takes a state's value, which facts hold after each step, how to prove an event that changes only one kind of rows,
//! and that a record with an effect changes the rows.
//!
//! The events themselves are in two crates above: those of patches and modules in `klp_patch_events`, those of tasks
//! and shadow variables in `klp_task_shadow_events`. Read `specs/Managed`, `Events`, `Invariant` and `Rows` first.
#![tactic(auto)]

mod brief;
mod inside;
pub mod laws;
mod pins;
mod state;
mod transition;
mod undo;

pub use brief::{Brief, BriefReply};
pub use pins::Pins;
pub use state::ManagerState;
