//! Who lags in the last sample: by the run that was found, and by what the log says of each task last.
use crate::seen_tasks::seen_task_of;
use klp_capture::{Activity, Capture, FrameLine, Sample, SeenTask};
use klp_capture_holders::{task_of, text_of};
use klp_capture_lagging::{end_of, lagging_in};
use klp_capture_report::{LaggingReport, TornReport, WhyLags};
use klp_capture_search::{Followed, Run};
use klp_core::Lag;
use std::alloc::{AllocError, Global};

/// Returns the target of the transition that goes on in the last sample that the run reached. Returns `None` without one.
fn target_of(run: &Run<'_>) -> Option<bool> {
    let last = run.transitions.last()?;
    if last.end.is_none() {
        Some(last.target)
    } else {
        None
    }
}

/// Returns the samples up to the last one that the run reached.
fn reached_samples<'c>(capture: &'c Capture<'_>, run: &Run<'_>) -> &'c [Sample] {
    match run.last {
        Some(last) => capture.samples.get(..=last).unwrap_or(&[]),
        None => &[],
    }
}

/// Returns which tasks lag by what the log says of them last, up to the last sample that the run reached. Returns none if no
/// transition goes on there.
fn lags_of<'a>(
    alloc: Global,
    capture: &Capture<'a>,
    run: &Run<'_>,
) -> Result<Vec<SeenTask<'a>>, AllocError> {
    let Some(target) = target_of(run) else {
        return Ok(Vec::new(alloc));
    };
    lagging_in(alloc, capture, reached_samples(capture, run), target)
}

/// Returns why a task lags that was last read so.
fn why_of(capture: &Capture<'_>, run: &Run<'_>, seen: &SeenTask<'_>) -> WhyLags {
    let frames = seen.frames.of(&capture.frames);
    match seen.task.activity {
        Activity::Running => WhyLags::Runs,
        Activity::Ended => WhyLags::Ended,
        Activity::Asleep if !seen.task.is_stable => WhyLags::RanMeanwhile,
        Activity::Asleep if run.functions.unplaced_in(frames).is_some() => WhyLags::AsleepUnplaced,
        Activity::Asleep => WhyLags::AsleepElsewhere,
    }
}

/// Returns why a task lags that lags only by the run, by the letter of its state.
fn why_by_letter(task: &Followed<'_>) -> WhyLags {
    match task.letter {
        b'R' => WhyLags::Runs,
        b'Z' | b'X' => WhyLags::Ended,
        _ => WhyLags::AsleepElsewhere,
    }
}

/// Returns why a task lags without holding the transition up. Returns `None` if it holds it up, or if it lags neither by the
/// run nor by the log.
fn why_lags(
    capture: &Capture<'_>,
    run: &Run<'_>,
    lags: &[SeenTask<'_>],
    task: &Followed<'_>,
) -> Option<WhyLags> {
    if let Some(Lag::Holds(_)) = task.lag {
        return None;
    }
    let read = lags.iter().find(|seen| seen.task.thread == task.thread
        && seen.task.start == task.start);
    match (read, task.lag) {
        (Some(seen), _) => Some(why_of(capture, run, seen)),
        (None, Some(_)) => Some(why_by_letter(task)),
        (None, None) => None,
    }
}

/// Returns the torn samples at the log's end, if the run reached the last whole one before them.
fn torn_samples<'c>(capture: &'c Capture<'_>, run: &Run<'_>) -> &'c [Sample] {
    let end = end_of(&capture.samples);
    let place = capture.samples.len().saturating_sub(end.len());
    match run.last {
        Some(last) if last == place => end.get(1..).unwrap_or(&[]),
        _ => &[],
    }
}

/// Returns how many tasks a sample counts that lag, without naming them.
fn counted_in(sample: &Sample) -> u64 {
    let line = sample.line;
    line.running
        .saturating_add(line.sleeping)
        .saturating_add(line.inside.unwrap_or(0))
}

/// Returns the most tasks that a torn sample at the log's end counts as lagging. Returns 0 if the last whole one counts
/// some.
pub(crate) fn counted_by_torn(capture: &Capture<'_>, run: &Run<'_>) -> u64 {
    let last = run.last.and_then(|last| capture.samples.get(last));
    if last.is_some_and(|last| counted_in(last) > 0) {
        return 0;
    }
    let mut most: u64 = 0;
    for sample in torn_samples(capture, run) {
        most = most.max(counted_in(sample));
    }
    most
}

/// Returns the innermost of these frames that is in a function of a patch, or in one that a patch changes.
fn function_in<'a>(run: &Run<'_>, frames: &[FrameLine<'a>]) -> Option<&'a [u8]> {
    for frame in frames.windows(1) {
        if run.functions.is_inside(frame) {
            return Some(frame.first()?.function);
        }
    }
    None
}

/// Whether the answer has the task already: it lags or holds the transition up in the last sample that the run reached.
fn is_listed(run: &Run<'_>, lagging: &[LaggingReport], seen: &SeenTask<'_>) -> bool {
    let thread = seen.task.thread;
    let holds = run.tasks.iter().any(|task| task.thread == thread
        && task.start == seen.task.start
        && matches!(task.lag, Some(Lag::Holds(_))));
    holds || lagging.iter().any(|own| own.task.thread == thread)
}

/// Returns when the last of these samples was taken that reads a thread. Returns 0 if none does.
fn last_read_us(capture: &Capture<'_>, samples: &[Sample], thread: u64) -> u64 {
    let read = samples.iter().rfind(|sample| {
        sample
            .tasks
            .of(&capture.seen)
            .iter()
            .any(|seen| seen.task.thread == thread)
    });
    match read {
        Some(sample) => sample.line.from.0,
        None => 0,
    }
}

/// Adds the tasks that only torn samples at the log's end show as lagging. No run shows these samples, and still nobody is
/// switched who was last seen unswitched.
fn add_torn(
    alloc: Global,
    capture: &Capture<'_>,
    run: &Run<'_>,
    lagging: &mut Vec<LaggingReport>,
) -> Result<(), AllocError> {
    let Some(target) = target_of(run) else {
        return Ok(());
    };
    let torn = torn_samples(capture, run);
    for seen in &lagging_in(alloc, capture, torn, target)? {
        if is_listed(run, lagging, seen) {
            continue;
        }
        let function = function_in(run, seen.frames.of(&capture.frames));
        let (why, function) = match (why_of(capture, run, seen), function) {
            (WhyLags::AsleepElsewhere, Some(function)) => {
                (WhyLags::AsleepInside, Some(text_of(alloc, function)?))
            }
            (why, _) => (why, None),
        };
        lagging.push(LaggingReport {
            task: seen_task_of(alloc, &seen.task)?,
            why,
            torn: Some(TornReport {
                at_us: last_read_us(capture, torn, seen.task.thread),
                function,
            }),
        })?;
    }
    Ok(())
}

/// Returns the tasks that lag in the last sample without holding the transition up. Those that only a torn sample behind it
/// shows so come last.
fn lagging_of(
    alloc: Global,
    capture: &Capture<'_>,
    run: &Run<'_>,
) -> Result<Vec<LaggingReport>, AllocError> {
    let mut lagging = Vec::new(alloc);
    let lags = lags_of(alloc, capture, run)?;
    for task in &run.tasks {
        if let Some(why) = why_lags(capture, run, &lags, task) {
            let task = task_of(alloc, task)?;
            lagging.push(LaggingReport {
                task,
                why,
                torn: None,
            })?;
        }
    }
    add_torn(alloc, capture, run, &mut lagging)?;
    Ok(lagging)
}

/// Returns the same of a transition, or none if it doesn't go on.
pub(crate) fn lagging_if(
    alloc: Global,
    capture: &Capture<'_>,
    run: &Run<'_>,
    goes_on: bool,
) -> Result<Vec<LaggingReport>, AllocError> {
    if goes_on {
        lagging_of(alloc, capture, run)
    } else {
        Ok(Vec::new(alloc))
    }
}
