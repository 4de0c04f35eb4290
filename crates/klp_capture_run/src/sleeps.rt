//! When which task held a transition up, by the sentences of the run's page and the times of samples.
use crate::explained::Explained;
use klp_capture::BootTime;
use klp_capture_search::{Run, ShownSample};
use klp_timeline::{Said, Sentence, Sleepers, Stay};
use klp_types::{TaskId, Transition, Version};
use std::alloc::{AllocError, Global};

/// A time in which a task held a transition up, in one function and without running.
#[derive(Clone, Copy)]
pub struct HoldingSleep {
    pub task: TaskId,
    /// The transition, by its patch and target. A log may show several of these.
    pub moving: Transition,
    /// The function that the task slept in.
    pub version: Version,
    /// When the first sample that shows the sleep was taken.
    pub from: BootTime,
    /// When the last sample that shows the sleep was taken.
    pub to: BootTime,
}

/// Returns the index of the sample that a line of the trace is about. Lines are counted from 1.
fn sample_of(run: &Run<'_>, line: u64) -> Option<usize> {
    let place = usize::try_from(line.checked_sub(1)?).ok()?;
    run.samples_of_lines.get(place).copied()
}

/// Returns how many samples were shown when this line of the trace was done. A sample is shown with its last line.
fn shown_after(run: &Run<'_>, line: u64) -> Option<usize> {
    let sample = sample_of(run, line)?;
    match run.shown_samples.get(sample) {
        Some(ShownSample { last_line, .. }) if *last_line == line => sample.checked_add(1),
        _ => Some(sample),
    }
}

/// Returns the times of the first and the last of the samples that show a stay. It begins with the line `line` of the
/// trace. Its last line is `to`, or it lasts until the end of the trace. Returns `None` if no sample shows it.
fn times_of(run: &Run<'_>, line: u64, to: Option<u64>) -> Option<(BootTime, BootTime)> {
    let first = sample_of(run, line)?;
    let behind = match to {
        Some(to) => shown_after(run, to)?,
        None => run.shown_samples.len(),
    };
    let shown = run.shown_samples.get(first..behind)?;
    Some((shown.first()?.at, shown.last()?.at))
}

/// Adds the sleeps of a sentence, if it is about tasks that hold a transition up.
fn add_sleeps(
    sleeps: &mut Vec<HoldingSleep>,
    run: &Run<'_>,
    sentence: &Sentence,
) -> Result<(), AllocError> {
    let Said::Slept(
        Sleepers {
            stay: Stay::Holds(moving, version),
            tasks,
            to,
        },
    ) = &sentence.said
    else {
        return Ok(());
    };
    let Some((from, to)) = times_of(run, sentence.line, *to) else {
        return Ok(());
    };
    for task in tasks.as_slice() {
        sleeps.push(HoldingSleep {
            task: *task,
            moving: *moving,
            version: *version,
            from,
            to,
        })?;
    }
    Ok(())
}

impl Explained<'_> {
    /// Returns the sleeps in which tasks held a transition up, in the order in which they began. They are the stays that
    /// the run's page tells of. Leaves out a stay that no sample shows. Returns `Err` if memory runs out.
    pub fn holding_sleeps(&self, alloc: Global) -> Result<Vec<HoldingSleep>, AllocError> {
        let mut sleeps = Vec::new(alloc);
        for sentence in &self.sentences {
            add_sleeps(&mut sleeps, &self.run, sentence)?;
        }
        Ok(sleeps)
    }
}
