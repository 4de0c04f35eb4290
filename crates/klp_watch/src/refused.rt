//! The events of a trace that the rules refuse, and whose answer the trace doesn't have.
ghost use Rattle.std.specs.Prelude.{◌≡◌, ◌<◌, ◌≤◌};
ghost use Rattle.klp_watch.specs.Refused.{no_refusal, with_refusal};

use klp_model::Refusal;

/// The first event of a trace that the rules refuse, and whose answer the trace doesn't have.
#[derive(Clone, Copy)]
pub struct FirstRefused {
    /// The number of the event's item, counted from 1.
    pub item: usize,
    pub refusal: Refusal,
}

/// The events of a trace that the rules refuse, and whose answer the trace doesn't have. They are no fault: a refused
/// event changes nothing. But somebody who wrote the trace may not know that they are refused.
#[derive(Clone, Copy)]
pub struct RefusedEvents {
    /// How many events are refused.
    pub count: usize,
    pub first: Option<FirstRefused>,
}

impl RefusedEvents {
    /// Returns the value before the first item of a trace: no event is refused yet.
    pub(crate) fn none() -> RefusedEvents
        ensures { result ≡ no_refusal }
    {
        RefusedEvents {
            count: 0,
            first: None,
        }
    }

    /// Counts the item with this number if `refusal` says why the rules refuse it, and stores the first such item. Does
    /// nothing if `refusal` is `None`. Items are added in order.
    pub(crate) fn add(&mut self, item: usize, refusal: Option<Refusal>)
        requires { self.old.count < item }
        ensures added { self.new ≡ with_refusal self.old item refusal }
        ensures few { self.new.count ≤ item }
    {
        if let Some(refusal) = refusal {
            self.count += 1;
            if self.first.is_none() {
                self.first = Some(FirstRefused { item, refusal });
            }
        }
    }
}
