//! Whether the transition under way was forced.

use crate::turn::Sign;
use klp_timeline::Fact;
use std::alloc::{AllocError, Global};

/// An event that did something to a transition: how many events the journal had with it, and whether it was a force.
#[derive(Clone, Copy)]
struct Turn {
    events: u32,
    is_force: bool,
}

/// The events that did something to a transition and weren't undone, oldest first. The transition under way was forced
/// if the last of them was a force.
#[derive(Drop)]
pub(crate) struct Forces {
    turns: Vec<Turn>,
}

impl Forces {
    /// Returns those of a run before its first line. Allocates nothing.
    pub(crate) fn new(alloc: Global) -> Forces {
        Forces {
            turns: Vec::new(alloc),
        }
    }

    /// Whether the transition under way was forced.
    pub(crate) fn is_forced(&self) -> bool {
        match self.turns.last() {
            Some(turn) => turn.is_force,
            None => false,
        }
    }

    /// Notes what a line did. `act` is what views don't show of it, `sign` what it did to the transition, and `events` how
    /// many events the journal has after it. `Err` if memory runs out.
    pub(crate) fn note(
        &mut self,
        act: Option<Fact>,
        sign: Option<Sign>,
        events: u32,
    ) -> Result<(), AllocError> {
        if let Some(Fact::Undoes(_, left)) = act {
            while self.turns.last().is_some_and(|turn| turn.events > left) {
                self.turns.pop();
            }
        } else if let Some(sign) = sign {
            let is_force = sign == Sign::Forced;
            self.turns.push(Turn { events, is_force })?;
        }
        Ok(())
    }
}
