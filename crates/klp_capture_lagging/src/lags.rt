//! The tasks that weren't at the target when the log last said something of them.
ghost use Rattle.std.specs.Prelude.{◌≡◌, ◌↔◌, ◌++◌, Bool, true, false, List, [], Contains, IfOk, OnOk};
ghost use Rattle.std.specs.List.{list_any};
ghost use Rattle.klp_capture.specs.Shown.{span_of, is_settled};
ghost use Rattle.klp_capture.specs.declared.capture.Capture.{Capture};
ghost use Rattle.klp_capture.specs.declared.capture.Sample.{Sample};
ghost use Rattle.klp_capture.specs.declared.capture.SeenTask.{SeenTask};
ghost use Rattle.klp_capture_lagging.specs.Lagging.{is_off, is_of, is_same, lets_go, is_about, is_last, IsLastSaid, lagging_at, lagging_of, lagging_in, counts_some, end_of, goes_to, is_moving_to, has_moving, NobodyLags};

use klp_capture::{Capture, PatchRow, PatchedState, Sample, SeenTask};
use std::alloc::{AllocError, Global};

/// Whether this isn't the state of the tasks at the target. A task without a state doesn't lag.
fn is_off(target: bool, state: PatchedState) -> bool
    ensures { result ≡ is_off target state }
{
    match state {
        PatchedState::Undefined => false,
        PatchedState::Unpatched => target,
        PatchedState::Patched => !target,
    }
}

/// Whether one of these readings is of the thread.
pub(crate) fn is_read(readings: &[SeenTask<'_>], thread: u64) -> bool
    ensures { result ≡ list_any (is_of thread) readings.now }
{
    for seen in readings {
        if seen.task.thread == thread {
            return true;
        }
    }
    false
}

fn is_among(threads: &[u64], thread: u64) -> bool
    ensures { result ≡ list_any (is_same thread) threads.now }
{
    for own in threads {
        if *own == thread {
            return true;
        }
    }
    false
}

/// Whether a sample says that the thread has ended, or isn't followed any longer.
pub(crate) fn lets_go(capture: &Capture<'_>, thread: u64, sample: &Sample) -> bool
    ensures { result ≡ lets_go capture.now thread sample.now }
{
    is_among(sample.gone.of(&capture.gone), thread)
        || is_among(sample.left.of(&capture.left), thread)
}

/// Whether a sample says something of the thread.
pub(crate) fn is_about(capture: &Capture<'_>, thread: u64, sample: &Sample) -> bool
    ensures { result ≡ is_about capture.now thread sample.now }
{
    is_read(sample.tasks.of(&capture.seen), thread) || lets_go(capture, thread, sample)
}

/// Whether one of these samples says something of the thread.
fn is_any_about(capture: &Capture<'_>, thread: u64, samples: &[Sample]) -> bool
    ensures { result ≡ list_any (is_about capture.now thread) samples.now }
{
    for sample in samples {
        if is_about(capture, thread, sample) {
            return true;
        }
    }
    false
}

/// Whether a sample's reading is the last that the log says of its thread. `rest` are the sample's readings behind it, and
/// `later` the samples behind this one.
pub(crate) fn is_last(
    capture: &Capture<'_>,
    sample: &Sample,
    later: &[Sample],
    seen: &SeenTask<'_>,
    rest: &[SeenTask<'_>],
) -> bool
    ensures { result ≡ is_last capture.now sample.now later.now seen.now rest.now }
{
    let thread = seen.task.thread;
    !(is_read(rest, thread)
        || lets_go(capture, thread, sample)
        || is_any_about(capture, thread, later))
}

/// Adds a sample's reading if its task lags by it, and the log says nothing of the task behind it.
fn add_lagging<'a>(
    capture: &Capture<'a>,
    target: bool,
    sample: &Sample,
    later: &[Sample],
    seen: &SeenTask<'a>,
    rest: &[SeenTask<'a>],
    list: &mut Vec<SeenTask<'a>>,
) -> Result<(), AllocError>
    ensures { OnOk result (list.new.items
        ≡ list.old.items ++ lagging_at capture.now target sample.now later.now seen.now rest.now) }
{
    if is_off(target, seen.task.state) && is_last(capture, sample, later, seen, rest) {
        list.push(*seen)?;
    }
    Ok(())
}

/// Adds the tasks that lag by this sample, and of which the log says nothing behind it. `later` are the samples behind it.
fn add_lagging_of<'a>(
    capture: &Capture<'a>,
    target: bool,
    sample: &Sample,
    later: &[Sample],
    list: &mut Vec<SeenTask<'a>>,
) -> Result<(), AllocError>
    ensures { OnOk result (list.new.items ≡ list.old.items
        ++ lagging_of capture.now target sample.now later.now (span_of sample.now.tasks capture.now.seen.items)) }
{
    let readings = sample.tasks.of(&capture.seen);
    for number in 0..readings.len() {
        let rest = &readings[number + 1..];
        add_lagging(
            capture,
            target,
            sample,
            later,
            &readings[number],
            rest,
            list,
        )?;
    }
    Ok(())
}

/// Returns the tasks that lag in a transition to `target`, each with its last reading in these samples of a log. `target` is
/// true if the transition patches the tasks. A task lags if this reading isn't at the target, and the samples don't say from
/// then on that its thread has ended or isn't followed any longer. A task that was read without a state doesn't lag. Returns
/// `Err` if memory runs out. Each reading that isn't at the target costs a look at the samples from there to the next one
/// that says something of the thread.
pub fn lagging_in<'a>(
    alloc: Global,
    capture: &Capture<'a>,
    samples: &[Sample],
    target: bool,
) -> Result<Vec<SeenTask<'a>>, AllocError>
    ensures { IfOk result (λ list. list.items ≡ lagging_in capture.now target samples.now) }
{
    let mut list = Vec::new(alloc);
    for number in 0..samples.len() {
        let later = &samples[number + 1..];
        add_lagging_of(capture, target, &samples[number], later, &mut list)?;
    }
    Ok(list)
}

/// Whether a sample counts tasks that lag, without naming them.
fn counts_some(sample: &Sample) -> bool
    ensures { result ≡ counts_some sample.now }
{
    let line = sample.line;
    line.running > 0 || line.sleeping > 0 || line.inside.unwrap_or(0) > 0
}

fn any_counts_some(samples: &[Sample]) -> bool
    ensures { result ≡ list_any counts_some samples.now }
{
    for sample in samples {
        if counts_some(sample) {
            return true;
        }
    }
    false
}

/// Whether one of these samples is whole.
pub(crate) fn any_is_whole(samples: &[Sample]) -> bool
    ensures { result ≡ list_any is_settled samples.now }
{
    for sample in samples {
        if sample.is_settled() {
            return true;
        }
    }
    false
}

/// Returns the last whole sample and those behind it, which are torn: a patch changed while they were taken. Returns none if
/// no sample is whole.
pub fn end_of(samples: &[Sample]) -> &[Sample]
    ensures { result.now ≡ end_of samples.now }
{
    for place in 0..samples.len() {
        if samples[place].is_settled() && !any_is_whole(&samples[place + 1..]) {
            return &samples[place..];
        }
    }
    &[]
}

/// Whether a patch goes to this target if its file `enabled` reads so.
fn goes_to(target: bool, is_enabled: bool) -> bool
    ensures { result ≡ goes_to target is_enabled }
{
    if target { is_enabled } else { !is_enabled }
}

/// Whether a line has this patch in transition to this target.
fn is_moving_to(row: &PatchRow<'_>, patch: &[u8], target: bool) -> bool
    ensures { result ≡ is_moving_to patch.now target row.now }
{
    match row {
        PatchRow::Patch {
            name,
            is_enabled,
            is_moving,
            ..
        } => *name == patch && *is_moving && goes_to(target, *is_enabled),
        _ => false,
    }
}

fn any_is_moving_to(rows: &[PatchRow<'_>], patch: &[u8], target: bool) -> bool
    ensures { result ≡ list_any (is_moving_to patch.now target) rows.now }
{
    for row in rows {
        if is_moving_to(row, patch, target) {
            return true;
        }
    }
    false
}

/// Whether the first of these samples has this patch in transition to this target.
fn has_moving(capture: &Capture<'_>, patch: &[u8], target: bool, samples: &[Sample]) -> bool
    ensures { result ≡ has_moving capture.now patch.now target samples.now }
{
    match samples {
        [sample, ..] => any_is_moving_to(sample.patches.of(&capture.rows), patch, target),
        [] => false,
    }
}

/// Those tasks lag, and no others, of which the last that some samples say is that they aren't at the target. This function
/// does nothing: its contract is the law.
pub fn who_lags_was_last_said_so()
    ensures { (capture : Capture) (target : Bool) (samples : List Sample) (seen : SeenTask)
        → (Contains (lagging_in capture target samples) seen
        ↔ (IsLastSaid capture samples seen × (is_off target seen.task.state ≡ true))) }
{}

pub(crate) fn has_none<T>(list: &[T]) -> bool
    ensures { (result ≡ true) ↔ (list.now ≡ []) }
{
    list.is_empty()
}

/// Whether the first three are so, and the last isn't.
fn are_so(is_all_read: bool, is_moving: bool, is_none_named: bool, are_counted: bool) -> bool
    ensures { (result ≡ true)
        ↔ ((is_all_read ≡ true) × (is_moving ≡ true) × (is_none_named ≡ true) × (are_counted ≡ false)) }
{
    is_all_read && is_moving && is_none_named && !are_counted
}

/// Whether nobody is known to lag, by a whole log, in the transition of this patch to this target. Returns false if a file
/// couldn't be read, or if the last whole sample doesn't show this transition. Returns `Err` if memory runs out. The time is
/// that of [`lagging_in`] for all samples.
pub fn nobody_lags(
    alloc: Global,
    capture: &Capture<'_>,
    patch: &[u8],
    target: bool,
) -> Result<bool, AllocError>
    ensures { IfOk result (λ nobody. (nobody ≡ true) ↔ NobodyLags capture.now patch.now target) }
{
    let end = end_of(&capture.samples);
    let is_moving = has_moving(capture, patch, target, end);
    let are_counted = any_counts_some(end);
    let is_all_read = has_none(&capture.missing);
    let named = lagging_in(alloc, capture, &capture.samples, target)?;
    let is_none_named = has_none(&named);
    Ok(are_so(is_all_read, is_moving, is_none_named, are_counted))
}
