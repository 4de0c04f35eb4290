//! Counts how many cases pass.

use std::io;

/// How many cases pass, and how many fail.
#[derive(Clone, Copy)]
pub(crate) struct Tally {
    held: u64,
    differing: u64,
}

impl Tally {
    pub(crate) fn new() -> Self {
        Tally {
            held: 0,
            differing: 0,
        }
    }

    /// Counts a case, which passes if `holds`.
    pub(crate) fn count(&mut self, holds: bool) {
        if holds {
            self.held = self.held.saturating_add(1);
        } else {
            self.differing = self.differing.saturating_add(1);
        }
    }

    /// Writes how many cases pass and how many fail. Returns whether all pass.
    pub(crate) fn print_tally<R: Print>(
        self,
        rt: &R,
        hold: &str,
        differ: &str,
    ) -> io::Result<bool> {
        println!(rt; "{} {hold}, {} {differ}", self.held, self.differing)?;
        Ok(self.differing == 0)
    }
}
