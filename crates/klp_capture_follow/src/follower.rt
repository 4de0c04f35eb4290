//! What has changed from one answer to the next.
use crate::change::{Change, copied};
use klp_capture::BootTime;
use klp_capture_report::{
    Becomes, GroupReport, HolderReport, HowEnded, Report, TransitionReport, VerdictReport,
};
use std::alloc::{AllocError, Global};

/// A transition that is under way.
#[derive(Drop)]
pub(crate) struct UnderWay {
    pub(crate) patch: String,
    pub(crate) becomes: Becomes,
    /// When the first sample showed it.
    pub(crate) from: BootTime,
}

/// Threads of one process that hold the transition up in one function.
#[derive(Drop)]
pub struct Held {
    /// The task's name if it is alone, or else the name of the process's command.
    pub(crate) name: String,
    pub(crate) process: u64,
    /// The number of the first of these threads.
    pub(crate) thread: u64,
    pub(crate) threads: u64,
    pub(crate) function: String,
    /// The letter of the first thread's state.
    pub(crate) state: String,
    /// When a sample first showed one of them so.
    pub(crate) since: BootTime,
}

impl Held {
    /// Whether both are of the same process and sleep in the same function.
    fn is_like(&self, other: &Held) -> bool {
        self.process == other.process && self.function.as_str() == other.function.as_str()
    }

    pub(crate) fn copied(&self, alloc: Global) -> Result<Held, AllocError> {
        Ok(Held {
            name: copied(alloc, &self.name)?,
            process: self.process,
            thread: self.thread,
            threads: self.threads,
            function: copied(alloc, &self.function)?,
            state: copied(alloc, &self.state)?,
            since: self.since,
        })
    }
}

/// The latest answer, as far as the next is compared with it.
#[derive(Drop)]
pub struct Follower {
    pub(crate) under_way: Option<UnderWay>,
    pub(crate) holding: Vec<Held>,
    /// How many more tasks lag.
    pub(crate) lagging: u64,
    verdict: VerdictReport,
}

/// Returns how a transition of this patch ended. Returns `None` if the answer doesn't have its end.
fn end_of(report: &Report, patch: &str) -> Option<HowEnded> {
    let ended = report.transitions.iter().find(|transition| transition.patch.as_str() == patch
        && transition.end.is_some())?;
    Some(ended.end?.how)
}

/// Returns a group of holders as it is followed.
fn held_of(
    alloc: Global,
    group: &GroupReport,
    first: &HolderReport,
    at: BootTime,
) -> Result<Held, AllocError> {
    let name = if group.threads == 1 {
        &first.task.name
    } else {
        &group.process_name
    };
    Ok(Held {
        name: copied(alloc, name)?,
        process: group.process,
        thread: first.task.thread,
        threads: group.threads,
        function: copied(alloc, &first.function)?,
        state: copied(alloc, &first.task.state)?,
        since: at,
    })
}

/// Returns who holds a transition up in the last sample of an answer.
fn holding_in(
    alloc: Global,
    transition: &TransitionReport,
    at: BootTime,
) -> Result<Vec<Held>, AllocError> {
    let mut holding = Vec::new(alloc);
    for group in &transition.groups {
        let Some(first) = transition.holders.get(group.first_holder) else {
            continue;
        };
        if first.holds_still {
            holding.push(held_of(alloc, group, first, at)?)?;
        }
    }
    Ok(holding)
}

impl Follower {
    /// Returns a follower before the first answer.
    pub fn new(alloc: Global) -> Follower {
        Follower {
            under_way: None,
            holding: Vec::new(alloc),
            lagging: 0,
            verdict: VerdictReport::Explained,
        }
    }

    /// Takes the answer to the next sample, which was begun at this time. Returns what has changed, in order.
    pub fn see(
        &mut self,
        alloc: Global,
        report: &Report,
        at: BootTime,
    ) -> Result<Vec<Change>, AllocError> {
        let mut changes = Vec::new(alloc);
        self.see_transition(alloc, report, at, &mut changes)?;
        let holding = match report.under_way() {
            Some(transition) if report.verdict == VerdictReport::Explained => {
                holding_in(alloc, transition, at)?
            }
            // Without a run that shows the sample nobody is told to hold, or to hold no longer.
            Some(_) => return self.see_verdict(alloc, report, changes),
            None => Vec::new(alloc),
        };
        self.see_holding(alloc, holding, &mut changes)?;
        self.lagging = report.lagging();
        self.see_verdict(alloc, report, changes)
    }

    /// Adds what has become of the transition, and which one is under way now.
    fn see_transition(
        &mut self,
        alloc: Global,
        report: &Report,
        at: BootTime,
        changes: &mut Vec<Change>,
    ) -> Result<(), AllocError> {
        let now = report.under_way();
        if let Some(before) = &self.under_way {
            let is_same = now.is_some_and(|now| now.patch.as_str() == before.patch.as_str());
            if is_same && now.is_some_and(|now| now.becomes == before.becomes) {
                return Ok(());
            }
            if !is_same {
                changes.push(Change::Ends {
                    patch: copied(alloc, &before.patch)?,
                    becomes: before.becomes,
                    how: end_of(report, before.patch.as_str()),
                })?;
                self.holding.clear();
            }
            if let Some(now) = now
                && is_same
            {
                changes.push(Change::Reverses {
                    patch: copied(alloc, &now.patch)?,
                    becomes: now.becomes,
                })?;
            }
            if is_same {
                self.set_under_way(alloc, now, at)?;
                return Ok(());
            }
        }
        if let Some(now) = now {
            changes.push(Change::Begins {
                patch: copied(alloc, &now.patch)?,
                becomes: now.becomes,
            })?;
        }
        self.set_under_way(alloc, now, at)
    }

    fn set_under_way(
        &mut self,
        alloc: Global,
        now: Option<&TransitionReport>,
        at: BootTime,
    ) -> Result<(), AllocError> {
        self.under_way = match now {
            Some(now) => Some(UnderWay {
                patch: copied(alloc, &now.patch)?,
                becomes: now.becomes,
                from: at,
            }),
            None => None,
        };
        Ok(())
    }

    /// Adds who begins to hold, whose threads are more or fewer, and who holds no longer.
    fn see_holding(
        &mut self,
        alloc: Global,
        mut holding: Vec<Held>,
        changes: &mut Vec<Change>,
    ) -> Result<(), AllocError> {
        for now in holding.iter_mut() {
            match self.holding.iter().find(|before| before.is_like(now)) {
                Some(before) => {
                    now.since = before.since;
                    if before.threads != now.threads {
                        changes.push(Change::Threads(now.copied(alloc)?))?;
                    }
                }
                None => changes.push(Change::Holds(now.copied(alloc)?))?,
            }
        }
        for before in &self.holding {
            if !holding.iter().any(|now| now.is_like(before)) {
                changes.push(Change::HoldsNoMore(before.copied(alloc)?))?;
            }
        }
        self.holding = holding;
        Ok(())
    }

    /// Adds that the verdict is another one than before, and returns all changes.
    fn see_verdict(
        &mut self,
        alloc: Global,
        report: &Report,
        mut changes: Vec<Change>,
    ) -> Result<Vec<Change>, AllocError> {
        if report.verdict != self.verdict {
            self.verdict = report.verdict;
            let why = match &report.broken {
                Some(broken) => Some(format!(in alloc; "{}", broken.in_words(report.times()))?),
                None => None,
            };
            changes.push(Change::Judged {
                verdict: report.verdict,
                why,
            })?;
        }
        Ok(changes)
    }
}
