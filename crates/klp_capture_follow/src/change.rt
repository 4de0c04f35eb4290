//! A change from one answer to the next, and its words.
use crate::follower::Held;
use klp_capture_report::{Becomes, HowEnded, VerdictReport};
use klp_messages::Escaped;
use std::alloc::{AllocError, Global};
use std::fmt;

/// What has changed from one answer to the next.
#[derive(Drop)]
pub enum Change {
    /// A transition is under way.
    Begins {
        patch: String,
        becomes: Becomes,
    },
    /// The transition was reversed.
    Reverses {
        patch: String,
        becomes: Becomes,
    },
    /// The transition has ended. `how` is `None` if the samples don't show how.
    Ends {
        patch: String,
        becomes: Becomes,
        how: Option<HowEnded>,
    },
    /// Threads of a process hold the transition up that didn't before.
    Holds(Held),
    /// More or fewer threads of a process hold the transition up.
    Threads(Held),
    /// No thread of a process holds the transition up any longer in this function.
    HoldsNoMore(Held),
    /// The verdict is another one than before.
    Judged {
        verdict: VerdictReport,
        why: Option<String>,
    },
}

/// Returns a copy of a text.
pub(crate) fn copied(alloc: Global, text: &String) -> Result<String, AllocError> {
    String::from_str(alloc, text.as_str())
}

/// Returns a name without bytes that would control a terminal.
pub(crate) fn printable(name: &String) -> Escaped<'_> {
    Escaped(name.as_bytes())
}

/// Who holds the transition up: a thread such as `billing[90]`, or some threads of a process.
impl fmt::Display for Held {
    fn fmt<W: fmt::Write>(&self, f: &mut fmt::Formatter<W>) -> fmt::Result {
        let (name, threads) = (printable(&self.name), self.threads);
        if threads == 1 {
            let thread = self.thread;
            write!(f, "{name}[{thread}]")
        } else {
            let process = self.process;
            write!(f, "{threads} threads of {name}[{process}]")
        }
    }
}

/// Returns what a patch is on the way to.
pub(crate) fn becomes_word(becomes: Becomes) -> &'static str {
    match becomes {
        Becomes::Enabled => "enabled",
        Becomes::Disabled => "disabled",
    }
}

/// Returns in words how a transition ended.
fn ending(becomes: Becomes, how: Option<HowEnded>) -> &'static str {
    match (how, becomes) {
        (Some(HowEnded::Complete), Becomes::Enabled) => "is enabled: the transition is complete",
        (Some(HowEnded::Complete), Becomes::Disabled) => "is disabled: the transition is complete",
        (Some(HowEnded::Reversed), Becomes::Enabled) => "is disabled again: it was reversed",
        (Some(HowEnded::Reversed), Becomes::Disabled) => "stays enabled: it was reversed",
        (Some(HowEnded::Forced), _) => "was forced",
        (None, _) => "is in transition no more",
    }
}

/// Returns a verdict in words.
fn verdict_words(verdict: VerdictReport) -> &'static str {
    match verdict {
        VerdictReport::Explained =>
            "explained again: the livepatch rules allow what this sample and the one before show",
        VerdictReport::Broken =>
            "broken: the livepatch rules don't allow what this sample and the one before show",
        VerdictReport::NotExplained => {
            "not explained: no run was found that shows this sample and the one before"
        }
        VerdictReport::NotSeen => "not seen: what a verdict needs couldn't be read",
    }
}

impl fmt::Display for Change {
    fn fmt<W: fmt::Write>(&self, f: &mut fmt::Formatter<W>) -> fmt::Result {
        match self {
            Change::Begins { patch, becomes } => {
                let (patch, becomes) = (printable(patch), becomes_word(*becomes));
                write!(f, "{patch} is being {becomes}, since this sample or before")
            }
            Change::Reverses { patch, becomes } => {
                let (patch, becomes) = (printable(patch), becomes_word(*becomes));
                write!(f, "{patch} was reversed, and is being {becomes}")
            }
            Change::Ends {
                patch,
                becomes,
                how,
            } => {
                let (patch, ending) = (printable(patch), ending(*becomes, *how));
                write!(f, "{patch} {ending}")
            }
            Change::Holds(held) => {
                let (verb, state) = (verb_of(held), printable(&held.state));
                let function = printable(&held.function);
                write!(f, "  {held} {verb} it up, asleep ({state}) in {function}")
            }
            Change::Threads(held) => {
                let (verb, function) = (verb_of(held), printable(&held.function));
                write!(f, "  now {held} {verb} it up in {function}")
            }
            Change::HoldsNoMore(held) => {
                let (verb, function) = (verb_of(held), printable(&held.function));
                write!(f, "  {held} {verb} it up no more in {function}")
            }
            Change::Judged { verdict, why } => {
                f.write_str(verdict_words(*verdict))?;
                match why {
                    Some(why) => {
                        let why = printable(why);
                        write!(f, ": {why}")
                    }
                    None => Ok(()),
                }
            }
        }
    }
}

fn verb_of(held: &Held) -> &'static str {
    if held.threads == 1 { "holds" } else { "hold" }
}
