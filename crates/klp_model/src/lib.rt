//! The model: all events of the live patching manager, the step of each event, and what is proved of the events.
//!
//! Only this crate defines steps. `specs/` has the state with its tasks, transitions and pins, the step of each event,
//! the refusals, and runs of events. The definitions build on the image, the patches and the scripts of `klp_types`.
//! Begin with `specs/State`, `Refusals`, `Step`, `EventCalls`, `Blocked`, `Allowed` and `Observed`. The code is four
//! enums: [`Event`], [`Reply`], [`Refusal`] and [`Seen`].
//!
//! `laws` has what is proved of the definitions themselves:
//! - when a site has an entry, how a function of a loaded object reads, and on what the text depends;
//! - a run may be cut anywhere, and its second part continues from the state in which the first part ended;
//! - the opening state is allowed, and each step leads from an allowed state to an allowed state;
//! - an event changes a shadow variable exactly as its callbacks or the shadow event do;
//! - if no case of a refusal holds, the event is accepted, and a refused event doesn't change the state;
//! - the accepted events of a list are a legal history, which leads to the same state as the whole list.
//!
//! `consistency` has what is promised to each task, for runs in which the calls of tasks are observed.
//!
//! `round_trip` has what is proved of a patch that was enabled and isn't installed any more. `specs/Company` defines a
//! fair company of a patch: the events among which the patch's callbacks undo each other, and the conditions at the
//! start. `specs/Footprint` defines what is compared: loaded objects, text, entries, installed patches with their
//! system states, pinned patches, and the variables that the patch's callbacks touch. `specs/Rounds` defines in which
//! order callbacks run. Whenever the patch isn't installed, the footprint is that of the start, and the world is as if
//! the patch had never been installed. At every moment, all other shadow variables are changed only by shadow events.
//! The round trip is in the same crate as the steps. So if a step were wrong, the round trip couldn't be proved.
//! `klp_core/specs/Withdrawal` makes the round trip a clause of a call.
//!
//! `examples` and `round_trip_examples` compute the definitions for a small kernel:
//! - callbacks at a reversal, at a refusal, and when a module is loaded and unloaded;
//! - which tasks are blocked, which patches are pinned and replaced, and what task events leave;
//! - for each reason an event that is refused, and events that are accepted;
//! - what is lost if a premise of the round trip doesn't hold.
//!
//! `allowed_examples` has states that are allowed, and for each condition a state that breaks it.
#![tactic(auto)]

pub mod allowed_examples;
pub mod consistency;
mod event;
pub mod examples;
pub mod laws;
pub mod round_trip;
pub mod round_trip_examples;
mod seen;

pub use event::{Event, Refusal, Reply};
pub use seen::Seen;
