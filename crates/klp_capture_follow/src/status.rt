//! What stands in the last line of a terminal while a log is followed.
use crate::change::{becomes_word, printable};
use crate::follower::{Follower, UnderWay};
use klp_capture::{BootTime, Elapsed};
use klp_capture_report::Times;
use std::fmt;

/// The state after the latest sample, which was begun at this time. Printed as one line without its end.
#[derive(Clone, Copy)]
pub struct Status<'a> {
    pub follower: &'a Follower,
    pub times: Times,
    pub at: BootTime,
}

impl Status<'_> {
    /// Writes the transition that is under way, who holds it up, and how many more tasks lag:
    /// `PATCH is being enabled for at least 3.20 s; held up by billing[90]; 2 more lag`. Leaves out who holds it up if nobody is known
    /// to, and the number if it is 0.
    fn write_under_way<W: fmt::Write>(
        &self,
        under_way: &UnderWay,
        f: &mut fmt::Formatter<W>,
    ) -> fmt::Result {
        let (patch, becomes) = (printable(&under_way.patch), becomes_word(under_way.becomes));
        if under_way.from == self.at {
            write!(f, "{patch} is being {becomes} (seen once)")?;
        } else {
            let time = Elapsed(under_way.from, self.at);
            write!(f, "{patch} is being {becomes} for at least {time} s")?;
        }
        let mut separator = "; held up by ";
        for held in &self.follower.holding {
            write!(f, "{separator}{held}")?;
            separator = ", ";
        }
        match self.follower.lagging {
            0 => Ok(()),
            lagging => write!(f, "; {lagging} more lag"),
        }
    }
}

impl fmt::Display for Status<'_> {
    fn fmt<W: fmt::Write>(&self, f: &mut fmt::Formatter<W>) -> fmt::Result {
        match &self.follower.under_way {
            Some(under_way) => self.write_under_way(under_way, f),
            None => {
                let time = self.times.at(self.at.0);
                write!(f, "{time}: no patch is in transition")
            }
        }
    }
}
