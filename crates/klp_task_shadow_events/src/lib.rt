//! The events of tasks, and those of shadow variables. These events involve no patch, and each event changes only rows
//! of one kind.
//!
//! There are seven events of tasks (`src/tasks.rt`), each of which logs one record, and four events of shadow variables
//! (`src/shadow.rt`). Their contracts are those that `klp_manager_state` defines for events. Each event has the reply
//! and the effect that the model defines, or is refused for the reason that the model gives. Putting back what an event
//! logged restores the rows before the event. These events have a separate crate, since they don't depend on how
//! patches change. Only the frames of a sleeper refer to patches.
#![tactic(auto)]

pub mod shadow;
pub mod tasks;
