//! The times of a log in words: seconds since boot, and the time of day if the log has that.
use httpdate::HttpDate;
use klp_capture::{BootTime, Elapsed};
use std::fmt;

/// The microseconds in a second.
pub(crate) const SECOND: u64 = 1_000_000;

/// The seconds in a day.
const DAY: u64 = 86_400;

/// Which times of day the times of a log are.
#[derive(Clone, Copy)]
pub struct Times {
    booted: Option<u64>,
    /// The day of the log's last sample, counted from 1970.
    today: u64,
}

impl Times {
    /// Returns the times of a log. `booted` says when the machine booted, in seconds since 1970, if the log says that.
    /// `last_us` is the time of the log's last sample.
    pub fn new(booted: Option<u64>, last_us: u64) -> Times {
        let today = booted.unwrap_or(0).saturating_add(last_us / SECOND) / DAY;
        Times { booted, today }
    }

    /// Whether the log says which times of day its times are.
    pub(crate) fn are_of_day(self) -> bool {
        self.booted.is_some()
    }

    /// Returns a time of the log: microseconds since boot.
    pub fn at(self, at_us: u64) -> Moment {
        Moment { times: self, at_us }
    }
}

/// A time of a log. Printed as seconds since boot, such as `8.45 s`, and if the log says when the machine booted, as
/// `09:12:03 GMT (8.45 s)`. If that isn't the day of the last sample, the day is printed, too.
#[derive(Clone, Copy)]
pub struct Moment {
    times: Times,
    at_us: u64,
}

impl fmt::Display for Moment {
    fn fmt<W: fmt::Write>(&self, f: &mut fmt::Formatter<W>) -> fmt::Result {
        let at = BootTime(self.at_us);
        let Some(booted) = self.times.booted else {
            return write!(f, "{at} s");
        };
        let epoch = booted.saturating_add(self.at_us / SECOND);
        if epoch / DAY == self.times.today {
            let (hours, minutes, seconds) = (epoch / 3600 % 24, epoch / 60 % 60, epoch % 60);
            return write!(f, "{hours:02}:{minutes:02}:{seconds:02} GMT ({at} s)");
        }
        match HttpDate::from_unix_secs(epoch) {
            Ok(date) => write!(f, "{date} ({at} s)"),
            Err(_) => write!(f, "{at} s"),
        }
    }
}

/// From when to when something was seen, in samples that were taken at these times. Printed as `from 8.56 s to 12.22 s`, or if
/// it was seen in one sample, as `at 8.56 s (seen once)`.
#[derive(Clone, Copy)]
pub(crate) struct Seen {
    pub(crate) times: Times,
    pub(crate) from_us: u64,
    pub(crate) to_us: u64,
}

impl fmt::Display for Seen {
    fn fmt<W: fmt::Write>(&self, f: &mut fmt::Formatter<W>) -> fmt::Result {
        let (from, to) = (self.times.at(self.from_us), self.times.at(self.to_us));
        if self.from_us == self.to_us {
            write!(f, "at {from} (seen once)")
        } else {
            write!(f, "from {from} to {to}")
        }
    }
}

/// Since when something is so that is so in the last sample, and for how long. Printed as `since 8.56 s or before, for 15.32
/// s`, or if only the last sample shows it, as `since 8.56 s or before (seen once)`.
#[derive(Clone, Copy)]
pub(crate) struct SeenSince {
    pub(crate) times: Times,
    pub(crate) from_us: u64,
    pub(crate) last_us: u64,
}

impl fmt::Display for SeenSince {
    fn fmt<W: fmt::Write>(&self, f: &mut fmt::Formatter<W>) -> fmt::Result {
        let from = self.times.at(self.from_us);
        if self.from_us == self.last_us {
            return write!(f, "since {from} or before (seen once)");
        }
        let time = Elapsed(BootTime(self.from_us), BootTime(self.last_us));
        write!(f, "since {from} or before, for {time} s")
    }
}
