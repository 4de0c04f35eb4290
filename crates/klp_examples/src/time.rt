//! The shortest time that some work took.

use std::time::Instant;
use std::{fmt, io};

/// The time of the shortest of some rounds, in nanoseconds. If there were several rounds, the time is written behind
/// the name of the work.
#[derive(Clone, Copy)]
pub(crate) struct Shortest {
    nanoseconds: u128,
    is_printed: bool,
}

impl Shortest {
    /// Returns the shortest time before the first of `rounds` rounds.
    pub(crate) fn of(rounds: u32) -> Self {
        Self {
            nanoseconds: u128::MAX,
            is_printed: rounds > 1,
        }
    }

    /// Counts a round that was done between these two moments.
    pub(crate) fn add(
        &mut self,
        start: io::Result<Instant>,
        end: io::Result<Instant>,
    ) -> io::Result<()> {
        let passed = end?.saturating_duration_since(start?);
        self.nanoseconds = self.nanoseconds.min(passed.as_nanos());
        Ok(())
    }
}

impl fmt::Display for Shortest {
    fn fmt<W: fmt::Write>(&self, f: &mut fmt::Formatter<W>) -> fmt::Result {
        if self.is_printed {
            write!(f, ", best {} ns", self.nanoseconds)
        } else {
            Ok(())
        }
    }
}
