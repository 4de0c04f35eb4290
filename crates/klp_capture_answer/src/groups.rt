//! Puts those who hold a transition up into groups: the threads of one process that sleep in one function.
use klp_capture::Capture;
use klp_capture_holders::text_of;
use klp_capture_report::{GroupReport, HolderReport, TaskReport};
use std::alloc::{AllocError, Global};

/// Whether two sleeps belong together: of the same process, in the same function and the same kind of sleep, and both in
/// the past or both going on.
fn are_alike(one: &HolderReport, other: &HolderReport) -> bool {
    one.task.process == other.task.process
        && one.function == other.function
        && one.holds_still == other.holds_still
        && one.task.state == other.task.state
}

/// Returns the name of a task's process. If the log doesn't have it, this is the task's own name.
pub(crate) fn process_name(
    alloc: Global,
    capture: &Capture<'_>,
    task: &TaskReport,
) -> Result<String, AllocError> {
    match capture.process_name(task.process) {
        Some(name) => text_of(alloc, name),
        None => text_of(alloc, task.name.as_bytes()),
    }
}

/// Sleeps that belong together, as far as they are gathered.
#[derive(Drop)]
struct SleepGroup {
    /// The number of the first of them in the list of holders.
    first: usize,
    /// Their threads, each once.
    threads: Vec<u64>,
    from_us: u64,
    to_us: u64,
    named_us: Option<u64>,
}

impl SleepGroup {
    fn new(alloc: Global, place: usize, holder: &HolderReport) -> Result<SleepGroup, AllocError> {
        let mut threads = Vec::new(alloc);
        threads.push(holder.task.thread)?;
        Ok(SleepGroup {
            first: place,
            threads,
            from_us: holder.from_us,
            to_us: holder.to_us,
            named_us: holder.named_us,
        })
    }

    fn add(&mut self, holder: &HolderReport) -> Result<(), AllocError> {
        if !self.threads.contains(&holder.task.thread) {
            self.threads.push(holder.task.thread)?;
        }
        self.from_us = self.from_us.min(holder.from_us);
        self.to_us = self.to_us.max(holder.to_us);
        self.named_us = match (self.named_us, holder.named_us) {
            (Some(own), Some(other)) => Some(own.min(other)),
            (own, other) => own.or(other),
        };
        Ok(())
    }
}

/// Gathers the sleeps that belong together, in the order of the first of each. There are few groups and at most 64
/// threads, so each sleep costs no more than these, however many there are.
fn gather_groups(alloc: Global, holders: &[HolderReport]) -> Result<Vec<SleepGroup>, AllocError> {
    let mut groups: Vec<SleepGroup> = Vec::new(alloc);
    for (place, holder) in holders.iter().enumerate() {
        let known = groups.iter().position(|group| match holders.get(group.first) {
            Some(first) => are_alike(first, holder),
            None => false,
        });
        match known {
            Some(known) => {
                if let Some(group) = groups.get_mut(known) {
                    group.add(holder)?;
                }
            }
            None => groups.push(SleepGroup::new(alloc, place, holder)?)?,
        }
    }
    Ok(groups)
}

/// Returns the groups of these holders, in the order of the first of each.
pub(crate) fn groups_of(
    alloc: Global,
    capture: &Capture<'_>,
    holders: &[HolderReport],
) -> Result<Vec<GroupReport>, AllocError> {
    let mut groups = Vec::new(alloc);
    for group in &gather_groups(alloc, holders)? {
        let Some(holder) = holders.get(group.first) else {
            continue;
        };
        groups.push(GroupReport {
            process: holder.task.process,
            process_name: process_name(alloc, capture, &holder.task)?,
            threads: group.threads.len() as u64,
            first_holder: group.first,
            from_us: group.from_us,
            to_us: group.to_us,
            named_us: group.named_us,
        })?;
    }
    Ok(groups)
}
