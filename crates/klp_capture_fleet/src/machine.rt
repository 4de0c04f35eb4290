//! A machine: its log's name, and the answer to the log.
use klp_capture_report::{HowEnded, Report, TransitionReport, VerdictReport};

/// The microseconds in a second.
pub(crate) const SECOND: u64 = 1_000_000;

/// A log, and the answer to it.
#[derive(Drop)]
pub struct Machine {
    /// The name of the log's file.
    pub file: String,
    pub report: Report,
}

impl Machine {
    /// Returns the machine's name. If the log doesn't have it, returns that of the log's file.
    pub(crate) fn name(&self) -> &str {
        match self.report.host.as_str() {
            "" | "(none)" => self.file.as_str(),
            name => name,
        }
    }

    /// Returns the transition that is under way in the last sample.
    pub(crate) fn under_way(&self) -> Option<&TransitionReport> {
        self.report.under_way()
    }

    /// Whether a transition was forced, by the kernel's own log.
    pub(crate) fn was_forced(&self) -> bool {
        self.report.first_forced_us.is_some()
            || self.report.transitions.iter().any(|transition| transition
                .end
                .is_some_and(|end| end.how == HowEnded::Forced))
    }

    /// Returns how many threads hold the transition up. Returns `None` if the log isn't explained.
    pub(crate) fn holders(&self) -> Option<u64> {
        if self.report.verdict != VerdictReport::Explained {
            return None;
        }
        let Some(under_way) = self.under_way() else {
            return Some(0);
        };
        let holding = under_way.holders.iter().filter(|holder| holder.holds_still);
        Some(holding.count() as u64)
    }

    /// Returns how many more tasks lag. Returns `None` if the log isn't explained.
    pub(crate) fn lagging(&self) -> Option<u64> {
        if self.report.verdict != VerdictReport::Explained {
            return None;
        }
        Some(self.report.lagging())
    }

    /// Returns how long the transition has been under way, in microseconds. Returns 0 without one.
    pub(crate) fn duration(&self) -> u64 {
        match self.under_way() {
            Some(moved) => moved.last_sample_us.saturating_sub(moved.since_us),
            None => 0,
        }
    }

    /// Returns a time of the log as seconds since 1970. Returns `None` if the log doesn't say when the machine booted.
    pub(crate) fn epoch(&self, at_us: u64) -> Option<u64> {
        Some(self.report.booted?.saturating_add(at_us / SECOND))
    }
}
