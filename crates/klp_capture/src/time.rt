//! Times of a log.
use std::fmt;

/// A time of a log: microseconds since the kernel booted.
#[derive(Clone, Copy, PartialEq, Eq, PartialOrd, Ord)]
pub struct BootTime(pub u64);

/// Prints a time as seconds with two decimals, as a log has it.
impl fmt::Display for BootTime {
    fn fmt<W: fmt::Write>(&self, f: &mut fmt::Formatter<W>) -> fmt::Result {
        let hundredths = self.0 / 10_000;
        write!(f, "{}.{:02}", hundredths / 100, hundredths % 100)
    }
}

/// The time between two times, the earlier one first, printed as seconds.
#[derive(Clone, Copy)]
pub struct Elapsed(pub BootTime, pub BootTime);

impl fmt::Display for Elapsed {
    fn fmt<W: fmt::Write>(&self, f: &mut fmt::Formatter<W>) -> fmt::Result {
        let elapsed = BootTime(self.1.0.saturating_sub(self.0.0));
        write!(f, "{elapsed}")
    }
}
