//! The steps of a body, and their outcomes.
ghost use Rattle.std.specs.Prelude.{◌≡◌};
ghost use Rattle.klp_live.specs.Kept.{event_kept, reply_kept};

use klp_live::{EnterFault, Kept};
use klp_model::{Event, Refusal, Reply};
use klp_types::{Site, Target};
use std::marker::Model;

/// What a task does next.
#[derive(Clone, Copy)]
pub enum Step {
    /// The task's thread submits an event. The event may also be one of another task.
    Submit(Event),
    /// The task calls the function at the site, and is afterwards inside of the version that it enters.
    Call(Site),
    /// The task returns from the innermost version that it is inside of, if there is one.
    Return,
    /// The task falls asleep inside of the versions that it has entered and from which it hasn't returned.
    Nap,
}

/// The data of a receipt: the number of an accepted event, counted from 1, the event, and its reply. The event and the
/// reply are in the form in which the receipt stored them, since a whole event and a whole reply are large.
#[derive(Drop)]
pub struct Accepted {
    number: u64,
    kept: Kept,
}

impl Model for Accepted {
    ghost use Rattle.klp_live.specs.Kept.{event_kept, reply_kept};
    ghost use Rattle.klp_live_bodies.specs.Receipts.{AcceptedValue};

    ghost Value = { AcceptedValue };

    ghost view = { λ a. record {
      number = a.number;
      event = event_kept a.kept;
      reply = reply_kept a.kept;
    } };
}

impl Accepted {
    /// Makes the data of a receipt from the receipt's parts.
    pub(crate) fn new(number: u64, kept: Kept) -> Accepted
        ensures { result ≡ record {
          number = number;
          event = event_kept kept;
          reply = reply_kept kept;
        } }
    {
        Accepted { number, kept }
    }

    /// Returns the number of the event, counted from 1.
    pub fn number(&self) -> u64
        ensures { result ≡ self.now.number }
    {
        self.number
    }

    /// Returns the event that was accepted.
    pub fn event(&self) -> Event
        ensures { result ≡ self.now.event }
    {
        self.kept.event()
    }

    /// Returns the reply to the event.
    pub fn reply(&self) -> Reply
        ensures { result ≡ self.now.reply }
    {
        self.kept.reply()
    }
}

/// The result of a step.
#[derive(Drop)]
pub enum What {
    /// The event was accepted, with this receipt.
    Receipt(Accepted),
    /// The event was refused.
    Refused(Refusal),
    /// The task entered this version, and is inside of it now.
    Entered(Target),
    /// The call found nothing to enter.
    NoEntry(EnterFault),
    /// The task has returned from the innermost version, or wasn't inside of any version.
    Returned,
    /// The task was already inside of as many versions as can be stored, so it entered no version.
    Deep,
}

/// The outcome of a step: its result, and the number of events that the task knew after the step.
#[derive(Drop)]
pub struct Outcome {
    pub known: u64,
    pub what: What,
}

/// A body allocates an outcome for each of its steps, most of which return no event. So an outcome has no room for the
/// frames of a task.
const _: () = prove!(size_of::<Outcome>() <= 40);
