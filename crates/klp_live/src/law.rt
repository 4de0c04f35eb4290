//! The rule of the history.
ghost use Rattle.std.specs.Prelude.{◌≡◌};

use klp_model::{Event, Reply};
use logbook::{Gain, Plain, Play, Rule};
use std::snapshot::Snapshot;

/// An accepted event with its reply.
pub type Accepted = (Event, Reply);

/// A row that exists in contracts alone. At run time neither its event nor its reply is copied.
#[derive(Drop)]
pub struct StoredEvent {
    pub event: Snapshot<Event>,
    pub reply: Snapshot<Reply>,
}

impl StoredEvent {
    /// Makes the row of an event with this reply.
    pub fn of(event: &Event, reply: &Reply) -> StoredEvent
        ensures event { result.event.value ≡ event.now }
        ensures reply { result.reply.value ≡ reply.now }
    {
        StoredEvent {
            event: Snapshot::of(event),
            reply: Snapshot::of(reply),
        }
    }
}

/// The rule that `logbook` enforces for the history. The word of the history is its number of rows.
pub struct Law;

impl Rule<Accepted, u64> for Law {
    ghost use Rattle.std.specs.Prelude.{[]};
    ghost use base.Fml.{ftrue};
    ghost use Rattle.klp_live.specs.Rules.{IsKept};

    ghost holds = { λ cells log. IsKept cells log };

    ghost first = { [] };

    ghost hinted = { λ n log. Unit {0} };

    ghost shows = { λ log. [] };

    ghost keeps = { λ names log. ftrue };

    ghost moves = { λ ask before after answer. Unit {0} };
}

/// The part of a step that is exchanged with the caller. It is empty, since a step gives nothing to its caller and
/// takes nothing from it.
pub struct Nothing;

impl Gain<Accepted, u64> for Nothing {
    ghost use base.Fml.{ftrue};

    ghost after = { λ names about answer. ftrue };
}

/// The step that adds a row.
pub struct Add;

impl Play<Accepted, u64> for Add {
    ghost use Rattle.klp_live.specs.Rules.{Adds};

    ghost then = { Adds };
}

/// The argument of the step is the row that it adds.
impl Plain<StoredEvent, Accepted, u64> for Add {
    ghost use Rattle.std.specs.Prelude.{None};

    ghost ask = { λ logged. (logged.event.value, logged.reply.value) };

    ghost state = { λ logged. None };
}
