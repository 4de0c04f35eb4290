//! The tasks inside of functions that a patch would change, before the patch is loaded.
use crate::seen_tasks::seen_task_of;
use klp_capture::{Activity, Capture, Sample, SeenTask};
use klp_capture_holders::text_of;
use klp_capture_report::InsideReport;
use std::alloc::{AllocError, Global};

/// A task as it was last seen. Also has the number of samples in which the task was inside of a function for which
/// `klpcap` was told to look.
#[derive(Clone, Copy)]
struct LastSeen<'a> {
    task: SeenTask<'a>,
    function: Option<&'a [u8]>,
    samples: u64,
}

/// Returns the innermost function that a task is inside of, among those for which `klpcap` was told to look.
fn asked_of<'a>(capture: &Capture<'a>, seen: &SeenTask<'a>) -> Option<&'a [u8]> {
    for frame in seen.frames.of(&capture.frames) {
        if capture.asked.contains(&frame.function) {
            return Some(frame.function);
        }
    }
    None
}

/// Adds what a sample shows. A task that the sample doesn't name is inside of the same functions as before.
fn take_sample<'a>(
    capture: &Capture<'a>,
    sample: &Sample,
    all: &mut Vec<LastSeen<'a>>,
) -> Result<(), AllocError> {
    for task in sample.tasks.of(&capture.seen) {
        let function = asked_of(capture, task);
        let known = all.iter_mut().find(|own| own.task.task.thread == task.task.thread
            && own.task.task.start == task.task.start);
        match known {
            Some(own) => {
                own.task = *task;
                own.function = function;
            }
            None => all.push(LastSeen {
                task: *task,
                function,
                samples: 0,
            })?,
        }
    }
    for own in all.iter_mut() {
        if sample
            .gone
            .of(&capture.gone)
            .contains(&own.task.task.thread)
        {
            own.function = None;
        }
        if own.function.is_some() {
            own.samples = own.samples.saturating_add(1);
        }
    }
    Ok(())
}

/// Returns the tasks that the last sample shows inside of functions for which `klpcap` was told to look. If `klpcap`
/// wasn't told to look for any function, the list is empty.
pub(crate) fn inside_of(
    alloc: Global,
    capture: &Capture<'_>,
) -> Result<Vec<InsideReport>, AllocError> {
    let mut inside = Vec::new(alloc);
    let mut all = Vec::new(alloc);
    if capture.asked.is_empty() {
        return Ok(inside);
    }
    for sample in &capture.samples {
        take_sample(capture, sample, &mut all)?;
    }
    for seen in &all {
        let Some(function) = seen.function else {
            continue;
        };
        let task = seen.task.task;
        inside.push(InsideReport {
            task: seen_task_of(alloc, &task)?,
            function: text_of(alloc, function)?,
            is_asleep: task.is_stable && task.activity == Activity::Asleep,
            samples: seen.samples,
        })?;
    }
    Ok(inside)
}
