//! The transitions that a log shows.
ghost use Rattle.std.specs.Prelude.{◌≡◌, true, None, IfOk};
ghost use Rattle.klp_capture_run.specs.Holders.{holders_in};
ghost use Rattle.klp_capture_holders.specs.Holding.{still_held, threads_of, HasAllHolders};

use crate::groups::groups_of;
use crate::lagging::lagging_if;
use klp_capture::{BootTime, Capture};
use klp_capture_catalog::{SeenTransition, TransitionEnding, TransitionStart};
use klp_capture_holders::{holders_of, task_of, text_of};
use klp_capture_report::{Becomes, EndReport, HowEnded, TransitionReport, UnplacedReport};
use klp_capture_run::{Explained, Holder, HoldingSleep};
use klp_capture_search::Run;
use std::alloc::{AllocError, Global};

fn patch_name(alloc: Global, run: &Run<'_>, patch: usize) -> Result<String, AllocError> {
    match run.functions.patches.get(patch) {
        Some(patch) => text_of(alloc, patch.name),
        None => text_of(alloc, b""),
    }
}

/// Returns the sleeps of a transition in functions that the log can't place.
fn unplaced_of(
    alloc: Global,
    run: &Run<'_>,
    transition: usize,
) -> Result<Vec<UnplacedReport>, AllocError> {
    let mut unplaced = Vec::new(alloc);
    for task in &run.tasks {
        for sleep in &task.unplaced_sleeps {
            if sleep.transition == transition {
                unplaced.push(UnplacedReport {
                    task: task_of(alloc, task)?,
                    function: text_of(alloc, sleep.function)?,
                    from_us: sleep.from.0,
                    to_us: sleep.to.0,
                })?;
            }
        }
    }
    Ok(unplaced)
}

/// Returns how a transition ended, or `None` if it hasn't ended. If the log shows a force, the force ended the last
/// transition.
fn end_of(found: &Explained<'_>, moved: &SeenTransition, is_last: bool) -> Option<EndReport> {
    if let Some(end) = moved.end {
        let how = match end.ending {
            TransitionEnding::Complete => HowEnded::Complete,
            TransitionEnding::Reversed => HowEnded::Reversed,
        };
        return Some(EndReport {
            at_us: end.at.0,
            how,
        });
    }
    match found.forced {
        Some(at) if is_last => Some(EndReport {
            at_us: at.0,
            how: HowEnded::Forced,
        }),
        _ => None,
    }
}

/// Returns the most tasks that a sample of the transition counts inside of patched functions without naming them.
fn counted_inside(capture: &Capture<'_>, moved: &SeenTransition) -> u64 {
    let mut most: u64 = 0;
    for sample in &capture.samples {
        let line = sample.line;
        if moved.from <= line.from && line.from <= moved.to {
            most = most.max(line.inside.unwrap_or(0));
        }
    }
    most
}

/// Whether a transition goes on in the last sample, by its place in the log and its end.
fn is_under_way(is_last: bool, end: &Option<EndReport>) -> bool
    ensures { is_last ≡ true → end.now ≡ None → result ≡ true }
{
    is_last && end.is_none()
}

/// Returns who holds a transition up, or nobody if it doesn't go on.
fn holding_if<'h>(goes_on: bool, holding: &'h [Holder]) -> &'h [Holder]
    ensures { goes_on ≡ true → result.now ≡ holding.now }
{
    if goes_on { holding } else { &[] }
}

fn becomes_of(moved: &SeenTransition) -> Becomes {
    if moved.target {
        Becomes::Enabled
    } else {
        Becomes::Disabled
    }
}

/// Returns when a transition began, and whether the kernel's log says so.
fn start_of(moved: &SeenTransition) -> (BootTime, bool) {
    match moved.since {
        TransitionStart::Logged(at) => (at, true),
        TransitionStart::AtOrBefore(at) => (at, false),
    }
}

/// Returns the report's entry of the transition of this number. `holding` are those who hold it up in the last sample if it
/// goes on there.
fn transition_of(
    alloc: Global,
    capture: &Capture<'_>,
    found: &Explained<'_>,
    number: usize,
    moved: &SeenTransition,
    is_last: bool,
    sleeps: &[HoldingSleep],
    holding: &[Holder],
) -> Result<TransitionReport, AllocError>
    ensures { IfOk result (λ transition. is_last ≡ true → transition.end ≡ None
        → still_held transition.holders.items ≡ threads_of found.now.run.tasks.items holding.now) }
{
    let run = &found.run;
    let end = end_of(found, moved, is_last);
    let goes_on = is_under_way(is_last, &end);
    let (since, is_start_known) = start_of(moved);
    let lagging = lagging_if(alloc, capture, run, goes_on)?;
    let holders = holders_of(
        alloc,
        capture,
        run,
        moved,
        sleeps,
        holding_if(goes_on, holding),
    )?;
    let groups = groups_of(alloc, capture, &holders)?;
    let patch = patch_name(alloc, run, moved.patch)?;
    let unplaced = unplaced_of(alloc, run, number)?;
    Ok(TransitionReport {
        patch,
        becomes: becomes_of(moved),
        since_us: since.0,
        is_start_known,
        first_sample_us: moved.from.0,
        last_sample_us: moved.to.0,
        end,
        holders,
        groups,
        unplaced,
        lagging,
        counted_inside: counted_inside(capture, moved),
    })
}

/// Returns the report's entries of all transitions but the last one.
fn earlier_transitions(
    alloc: Global,
    capture: &Capture<'_>,
    found: &Explained<'_>,
    sleeps: &[HoldingSleep],
) -> Result<Vec<TransitionReport>, AllocError> {
    let mut transitions = Vec::new(alloc);
    let last = found.run.transitions.len().saturating_sub(1);
    for (number, moved) in found.run.transitions.iter().take(last).enumerate() {
        let transition = transition_of(alloc, capture, found, number, moved, false, sleeps, &[])?;
        transitions.push(transition)?;
    }
    Ok(transitions)
}

/// Returns the report's entries of the transitions. `holding` are those who hold the last one up in the last sample.
pub(crate) fn transitions_of(
    alloc: Global,
    capture: &Capture<'_>,
    found: &Explained<'_>,
    holding: &[Holder],
) -> Result<Vec<TransitionReport>, AllocError>
    ensures { holding.now ≡ holders_in found.now.lags
        → IfOk result (λ transitions. HasAllHolders found.now transitions.items) }
{
    let sleeps = found.holding_sleeps(alloc)?;
    let Some(moved) = found.run.transitions.last() else {
        return Ok(Vec::new(alloc));
    };
    let mut transitions = earlier_transitions(alloc, capture, found, &sleeps)?;
    let number = transitions.len();
    let last = transition_of(alloc, capture, found, number, moved, true, &sleeps, holding)?;
    transitions.push(last)?;
    Ok(transitions)
}
