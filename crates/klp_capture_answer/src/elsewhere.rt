//! Whom the kernel's own log names as a holder, while samples show the task asleep elsewhere.
use klp_capture::{Activity, BootTime, Capture, SeenTask};
use klp_capture_catalog::{first_named, most_apart_at};
use klp_capture_lagging::slept_elsewhere;
use klp_capture_search::Run;
use std::alloc::{AllocError, Global};

/// Whether a reading shows a task asleep in no function of a patch.
fn is_elsewhere(capture: &Capture<'_>, run: &Run<'_>, seen: &SeenTask<'_>) -> bool {
    let frames = seen.frames.of(&capture.frames);
    let is_asleep = seen.task.is_stable && seen.task.activity == Activity::Asleep;
    is_asleep && !frames.is_empty() && !run.functions.is_inside(frames)
}

/// Returns for each reading of the log whether it shows its task asleep in no function of a patch.
pub(crate) fn flags_of(
    alloc: Global,
    capture: &Capture<'_>,
    run: &Run<'_>,
) -> Result<Vec<bool>, AllocError> {
    let mut flags = Vec::new(alloc);
    for seen in &capture.seen {
        flags.push(is_elsewhere(capture, run, seen))?;
    }
    Ok(flags)
}

/// Returns when the kernel's own log names a thread as a holder: the times of its lines, in the order of time.
fn times_named(
    alloc: Global,
    capture: &Capture<'_>,
    thread: u64,
) -> Result<Vec<BootTime>, AllocError> {
    let mut times = Vec::new(alloc);
    let mut from = BootTime(0);
    for _line in &capture.log {
        let Some(at) = first_named(capture, thread, from, BootTime(u64::MAX)) else {
            break;
        };
        times.push(at)?;
        from = BootTime(at.0.saturating_add(1));
    }
    Ok(times)
}

/// Whether the kernel's own log names a thread as a holder while it surely slept in no function of a patch, by samples
/// between which it didn't run. `flags` are those of [`flags_of`]. The two clocks are as far apart as they can be at the
/// log's end, and so at no sample further.
pub(crate) fn is_named_elsewhere(
    alloc: Global,
    capture: &Capture<'_>,
    thread: u64,
    flags: &[bool],
) -> Result<bool, AllocError> {
    let Some(last) = capture.samples.last() else {
        return Ok(false);
    };
    let named = times_named(alloc, capture, thread)?;
    Ok(slept_elsewhere(capture, most_apart_at(last), &named, thread, flags))
}
