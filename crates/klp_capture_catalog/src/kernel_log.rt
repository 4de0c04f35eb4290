//! Reads the kernel's own log, which a log of `klpcap` contains. It says when a transition started, and whether it was
//! forced.
use klp_capture::{BootTime, Capture, LogLine, PatchRow, Sample};
use std::alloc::{AllocError, Global};

/// When a transition started.
#[derive(Clone, Copy, PartialEq, Eq)]
pub enum TransitionStart {
    /// The time at which the transition started, by the kernel's own log.
    Logged(BootTime),
    /// The start isn't known. It was when this sample was taken, the first of the transition, or before.
    AtOrBefore(BootTime),
}

/// The text that the kernel writes to its log when a transition is forced.
const FORCED: &[u8] = b"forcing remaining tasks";

/// How a line of the kernel's log about a patch begins. The patch's name follows.
const PATCH_LINE: &[u8] = b"livepatch: '";

/// An event of a patch's transition in the kernel's log. The text of the event follows the patch's name.
#[derive(Clone, Copy, PartialEq, Eq)]
enum Milestone {
    /// A transition with this target starts.
    Starts(bool),
    /// A transition is complete.
    Completes,
}

/// Reads what a line of the kernel's log says of a patch's transition, such as `livepatch: 'NAME': starting patching
/// transition`.
fn milestone_of(text: &[u8], patch: &[u8]) -> Option<Milestone> {
    let behind = text.strip_prefix(PATCH_LINE)?;
    let behind = behind.strip_prefix(patch)?;
    let behind = behind.strip_prefix(b"': ".as_slice())?;
    match behind {
        b"starting patching transition" => Some(Milestone::Starts(true)),
        b"starting unpatching transition" => Some(Milestone::Starts(false)),
        b"patching complete" | b"unpatching complete" => Some(Milestone::Completes),
        _ => None,
    }
}

/// How far apart the clock of the kernel's log and that of the samples usually are at most, in microseconds. This is
/// enough to find the start of a transition. To contradict the kernel's log takes a safe bound, [`most_apart_at`].
const USUALLY_APART: u64 = 200_000;

/// Whether a time of the kernel's log may be after the beginning of a sample, if the two clocks are at most
/// [`USUALLY_APART`] from each other.
fn is_behind(at: BootTime, sample: BootTime) -> bool {
    at.0.saturating_add(USUALLY_APART) >= sample.0
}

/// Returns when a transition started. `sample` is the first sample that shows the transition, and `before` is the last
/// sample that doesn't. If the kernel's log has a start before `before`, it is the start of another transition.
pub fn since_when(
    capture: &Capture<'_>,
    patch: &[u8],
    target: bool,
    sample: &Sample,
    before: Option<BootTime>,
) -> TransitionStart {
    let mut start = None;
    for line in &capture.log {
        if line.at > sample.line.to {
            break;
        }
        match milestone_of(line.text, patch) {
            Some(Milestone::Starts(own)) if own == target => start = Some(line.at),
            Some(_) => start = None,
            None => {}
        }
    }
    match start {
        Some(at) if before.is_none_or(|before| is_behind(at, before)) => TransitionStart::Logged(
            at,
        ),
        _ => TransitionStart::AtOrBefore(sample.line.from),
    }
}

/// The part of the safe bound that doesn't grow with time, in microseconds.
const MOST_APART_AT_BOOT: u64 = 2_000_000;

/// The number of microseconds since boot in which the two clocks may part by one microsecond more. While the machine runs,
/// the clock of the samples is set right, by at most this rate, and the clock of the kernel's log isn't.
const TIME_TO_PART: u64 = 2_000;

/// Returns how far apart the two clocks can be at the end of a sample, in microseconds: a safe bound. If a line of the
/// kernel's log and the sample are at least so far apart, it is sure which came first.
pub fn most_apart_at(sample: &Sample) -> u64 {
    MOST_APART_AT_BOOT.saturating_add(sample.line.to.0 / TIME_TO_PART)
}

/// A line of the kernel's log that a later sample contradicts.
#[derive(Clone, Copy)]
pub struct KernelLogDiffers<'a> {
    /// The name of the patch.
    pub patch: &'a [u8],
    /// When the kernel wrote the line.
    pub at: BootTime,
    /// Whether the line says that the transition was complete. If not, it says that the transition started.
    pub says_complete: bool,
    /// When the sample was taken.
    pub sample: BootTime,
}

/// Returns the last line about a patch's transition that the kernel wrote surely before a sample. Returns `None` if there
/// is none, or if another line follows so soon that it isn't sure which came first, the line or the sample.
fn last_before(
    lines: &[LogLine<'_>],
    patch: &[u8],
    sample: &Sample,
) -> Option<(BootTime, Milestone)> {
    let mut last = None;
    let apart = most_apart_at(sample);
    for line in lines {
        let Some(milestone) = milestone_of(line.text, patch) else {
            continue;
        };
        if line.at.0.saturating_add(apart) <= sample.line.from.0 {
            last = Some((line.at, milestone));
        } else if line.at.0 <= sample.line.to.0.saturating_add(apart) {
            return None;
        }
    }
    last
}

/// Returns the lines of the kernel's log about patches from the time of the recording. The kernel also writes lines about
/// tasks, which are many more.
fn lines_of_patches<'a>(
    alloc: Global,
    capture: &Capture<'a>,
) -> Result<Vec<LogLine<'a>>, AllocError> {
    let mut lines = Vec::new(alloc);
    let Some(first) = capture.samples.first() else {
        return Ok(lines);
    };
    for line in &capture.log {
        if line.at >= first.line.from && line.text.starts_with(PATCH_LINE) {
            lines.push(*line)?;
        }
    }
    Ok(lines)
}

/// Returns the first line of the kernel's log about a transition that a later sample contradicts. Samples after a force
/// don't count. Only lines of patches that the sample lists count, and only lines from the time of the recording.
pub fn kernel_log_differs<'a>(
    alloc: Global,
    capture: &Capture<'a>,
    forced: Option<BootTime>,
) -> Result<Option<KernelLogDiffers<'a>>, AllocError> {
    let lines = lines_of_patches(alloc, capture)?;
    for sample in &capture.samples {
        if !sample.is_judged(forced) {
            continue;
        }
        for row in sample.patches.of(&capture.rows) {
            let PatchRow::Patch {
                name,
                is_moving,
                ..
            } = row
            else {
                continue;
            };
            let Some((at, milestone)) = last_before(&lines, name, sample) else {
                continue;
            };
            let says_complete = milestone == Milestone::Completes;
            if says_complete == *is_moving {
                return Ok(Some(KernelLogDiffers {
                    patch: *name,
                    at,
                    says_complete,
                    sample: sample.line.from,
                }));
            }
        }
    }
    Ok(None)
}

/// Whether `bytes` contains `wanted`.
fn contains(bytes: &[u8], wanted: &[u8]) -> bool {
    bytes
        .windows(wanted.len().max(1))
        .any(|window| window == wanted)
}

/// Returns when a transition was first forced, by the kernel's log. This may have been before `klpcap` recorded.
pub fn first_forced_in(capture: &Capture<'_>) -> Option<BootTime> {
    let line = capture.log.iter().find(|line| contains(line.text, FORCED))?;
    Some(line.at)
}

/// Returns when a transition was forced while `klpcap` recorded, by the kernel's log. A force before the recording
/// doesn't count, even if the kernel's log has it.
pub fn forced_in(capture: &Capture<'_>) -> Option<BootTime> {
    let first = capture.samples.first()?.line.from;
    let line = capture
        .log
        .iter()
        .find(|line| line.at >= first && contains(line.text, FORCED))?;
    Some(line.at)
}
