//! Whether the kernel's own log names a thread as a holder, while the samples have it asleep elsewhere.
ghost use Rattle.std.specs.Prelude.{◌≡◌, ◌+◌, nat_le, slice_get};
ghost use Rattle.std.specs.List.{list_any};
ghost use Rattle.klp_capture.specs.Shown.{span_of};
ghost use Rattle.klp_capture_lagging.specs.Elsewhere.{is_between, any_between, is_named_meanwhile, is_named_behind, is_so, any_named_behind, slept_elsewhere};

use crate::lags::{is_about, is_read, lets_go};
use klp_capture::{BootTime, Capture, Sample, SeenTask};

/// Whether two times are in order, and at least so far apart, in microseconds.
fn is_surely_before(before: u64, after: u64, apart: u64) -> bool
    ensures { result ≡ nat_le (before + apart) after }
{
    before <= after && after - before >= apart
}

fn is_between(apart: u64, first: &Sample, last: &Sample, at: BootTime) -> bool
    ensures { result ≡ is_between apart first.now last.now at }
{
    is_surely_before(first.line.to.0, at.0, apart)
        && is_surely_before(at.0, last.line.from.0, apart)
}

fn any_between(apart: u64, named: &[BootTime], first: &Sample, last: &Sample) -> bool
    ensures { result ≡ any_between apart named.now first.now last.now }
{
    for at in named {
        if is_between(apart, first, last, *at) {
            return true;
        }
    }
    false
}

/// Whether a time is behind a sample and before one of the later ones, up to which the log says nothing of the thread.
fn is_named_meanwhile(
    capture: &Capture<'_>,
    apart: u64,
    named: &[BootTime],
    thread: u64,
    sample: &Sample,
    later: &[Sample],
) -> bool
    ensures { result ≡ is_named_meanwhile capture.now apart named.now thread sample.now later.now }
{
    for other in later {
        if is_about(capture, thread, other) {
            return false;
        }
        if any_between(apart, named, sample, other) {
            return true;
        }
    }
    false
}

/// Whether a reading shows its task elsewhere (`flag`) and is the last of the thread in its sample, and a time is while
/// nothing more is said of it.
fn is_named_behind(
    capture: &Capture<'_>,
    apart: u64,
    named: &[BootTime],
    thread: u64,
    sample: &Sample,
    later: &[Sample],
    flag: bool,
    seen: &SeenTask<'_>,
    rest: &[SeenTask<'_>],
) -> bool
    ensures { result
        ≡ is_named_behind capture.now apart named.now thread sample.now later.now flag seen.now rest.now }
{
    flag && seen.task.thread == thread
        && !(is_read(rest, thread) || lets_go(capture, thread, sample))
        && is_named_meanwhile(capture, apart, named, thread, sample, later)
}

/// Whether the flag of this number is there, and true.
fn is_flagged(flags: &[bool], number: usize) -> bool
    ensures { result ≡ is_so (slice_get flags.now number) }
{
    match flags.get(number) {
        Some(flag) => *flag,
        None => false,
    }
}

/// Whether that is so of a reading of this sample.
fn any_named_behind(
    capture: &Capture<'_>,
    apart: u64,
    named: &[BootTime],
    thread: u64,
    sample: &Sample,
    later: &[Sample],
    flags: &[bool],
    readings: &[SeenTask<'_>],
) -> bool
    ensures { result
        ≡ any_named_behind capture.now apart named.now thread sample.now later.now flags.now 0 readings.now }
{
    for number in 0..readings.len() {
        let seen = &readings[number];
        let rest = &readings[number + 1..];
        let flag = is_flagged(flags, number);
        if is_named_behind(
            capture, apart, named, thread, sample, later, flag, seen, rest,
        ) {
            return true;
        }
    }
    false
}

/// Whether the kernel's own log names a thread as a holder at one of the times `named`, while it surely slept elsewhere by
/// the samples. `flags` says of each reading of the log whether it shows its task asleep elsewhere. `apart` is the most that
/// the clocks of the kernel's log and of the samples can be apart, in microseconds. The time is that of a look at all samples
/// and times from each reading of the thread to the next one.
pub fn slept_elsewhere(
    capture: &Capture<'_>,
    apart: u64,
    named: &[BootTime],
    thread: u64,
    flags: &[bool],
) -> bool
    ensures { result
        ≡ slept_elsewhere capture.now apart named.now thread flags.now capture.now.samples.items }
{
    for number in 0..capture.samples.len() {
        let sample = &capture.samples[number];
        let later = &capture.samples[number + 1..];
        let readings = sample.tasks.of(&capture.seen);
        if any_named_behind(
            capture,
            apart,
            named,
            thread,
            sample,
            later,
            sample.tasks.of(flags),
            readings,
        ) {
            return true;
        }
    }
    false
}
