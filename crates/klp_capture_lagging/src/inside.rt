//! Whether a log of `klpcap -f` says that nobody is inside of the functions for which it was told to look.
ghost use Rattle.std.specs.Prelude.{◌≡◌, ◌↔◌, true, false};
ghost use Rattle.std.specs.List.{list_any};
ghost use Rattle.klp_capture.specs.Shown.{is_settled};
ghost use Rattle.klp_capture_lagging.specs.Lagging.{end_of};
ghost use Rattle.klp_capture_lagging.specs.Inside.{is_symbol_of, is_there, lacks_some, is_asked, is_asked_frame, is_outside, is_unsure, any_unsure_of, any_unsure, counts_inside, NobodyInside};

use crate::lags::{any_is_whole, end_of, has_none, is_last};
use klp_capture::{Activity, Capture, FrameLine, Sample, SeenTask};

/// Whether the kernel has a function of this name, by the log.
fn is_there(capture: &Capture<'_>, function: &[u8]) -> bool
    ensures { result ≡ is_there capture.now function.now }
{
    for symbol in &capture.symbols {
        if symbol.name == function {
            return true;
        }
    }
    false
}

/// Whether the log doesn't say that the kernel has each function for which it was told to look.
fn lacks_some(capture: &Capture<'_>) -> bool
    ensures { result ≡ lacks_some capture.now }
{
    for number in 0..capture.asked.len() {
        if !is_there(capture, capture.asked[number]) {
            return true;
        }
    }
    false
}

/// Whether the log was told to look for this function.
fn is_asked(capture: &Capture<'_>, function: &[u8]) -> bool
    ensures { result ≡ is_asked capture.now function.now }
{
    for number in 0..capture.asked.len() {
        if capture.asked[number] == function {
            return true;
        }
    }
    false
}

/// Whether one of these frames is of a function for which the log was told to look.
fn any_asked(capture: &Capture<'_>, frames: &[FrameLine<'_>]) -> bool
    ensures { result ≡ list_any (is_asked_frame capture.now) frames.now }
{
    for frame in frames {
        if is_asked(capture, frame.function) {
            return true;
        }
    }
    false
}

/// Whether a reading shows its task outside of these functions: it has ended, or slept all the time while it was read, and its
/// stack was read.
fn is_outside(capture: &Capture<'_>, seen: &SeenTask<'_>) -> bool
    ensures { result ≡ is_outside capture.now seen.now }
{
    let frames = seen.frames.of(&capture.frames);
    match seen.task.activity {
        Activity::Running => false,
        Activity::Ended => true,
        Activity::Asleep => {
            seen.task.is_stable && !frames.is_empty() && !any_asked(capture, frames)
        }
    }
}

/// Whether a reading is the last that the log says of its thread, and doesn't show the task outside.
fn is_unsure(
    capture: &Capture<'_>,
    sample: &Sample,
    later: &[Sample],
    seen: &SeenTask<'_>,
    rest: &[SeenTask<'_>],
) -> bool
    ensures { result ≡ is_unsure capture.now sample.now later.now seen.now rest.now }
{
    !is_outside(capture, seen) && is_last(capture, sample, later, seen, rest)
}

/// Whether that is so of a reading of this sample.
fn any_unsure_of(
    capture: &Capture<'_>,
    sample: &Sample,
    later: &[Sample],
    readings: &[SeenTask<'_>],
) -> bool
    ensures { result ≡ any_unsure_of capture.now sample.now later.now readings.now }
{
    for number in 0..readings.len() {
        if is_unsure(
            capture,
            sample,
            later,
            &readings[number],
            &readings[number + 1..],
        ) {
            return true;
        }
    }
    false
}

/// Whether that is so of a reading of one of these samples.
fn any_unsure(capture: &Capture<'_>, samples: &[Sample]) -> bool
    ensures { result ≡ any_unsure capture.now samples.now }
{
    for number in 0..samples.len() {
        let sample = &samples[number];
        let readings = sample.tasks.of(&capture.seen);
        if any_unsure_of(capture, sample, &samples[number + 1..], readings) {
            return true;
        }
    }
    false
}

/// Whether a sample counts tasks that may be inside, without naming them.
fn counts_inside(sample: &Sample) -> bool
    ensures { result ≡ counts_inside sample.now }
{
    match sample.line.inside {
        Some(inside) => inside > 0,
        None => sample.line.running > 0 || sample.line.sleeping > 0,
    }
}

fn any_counts_inside(samples: &[Sample]) -> bool
    ensures { result ≡ list_any counts_inside samples.now }
{
    for sample in samples {
        if counts_inside(sample) {
            return true;
        }
    }
    false
}

/// Whether the first two are so, and the others aren't.
fn are_so(
    is_all_read: bool,
    is_any_whole: bool,
    is_any_lacking: bool,
    is_any_unsure: bool,
    are_counted: bool,
) -> bool
    ensures { (result ≡ true) ↔ ((is_all_read ≡ true) × (is_any_whole ≡ true)
        × (is_any_lacking ≡ false) × (is_any_unsure ≡ false) × (are_counted ≡ false)) }
{
    is_all_read && is_any_whole && !is_any_lacking && !is_any_unsure && !are_counted
}

/// Whether nobody is inside of the functions for which a log was told to look, as far as a log can say that: each of them is
/// there, all could be read, and by each thread's last reading it slept, or had ended, outside of them. A thread that `klpcap`
/// follows no longer was outside. Each reading that doesn't show its task outside costs a look at the samples from there to the
/// next one that says something of the thread.
pub fn nobody_inside(capture: &Capture<'_>) -> bool
    ensures { (result ≡ true) ↔ NobodyInside capture.now }
{
    let samples = capture.samples.as_slice();
    let is_all_read = has_none(&capture.missing);
    let is_any_whole = any_is_whole(samples);
    let is_any_lacking = lacks_some(capture);
    let is_any_unsure = any_unsure(capture, samples);
    let are_counted = any_counts_inside(end_of(samples));
    are_so(
        is_all_read,
        is_any_whole,
        is_any_lacking,
        is_any_unsure,
        are_counted,
    )
}
