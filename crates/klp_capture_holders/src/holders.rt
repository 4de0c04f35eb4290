//! Who holds a transition up, and who held it up before.
ghost use Rattle.std.specs.Prelude.{◌≡◌, ◌++◌, slice_get, IfOk, OnOk};
ghost use Rattle.klp_capture_holders.specs.Holding.{still_held, thread_at, threads_of};

use crate::entries::{Times, holder_of};
use klp_capture::{BootTime, Capture};
use klp_capture_catalog::{SeenTransition, TransitionStart, first_named};
use klp_capture_report::HolderReport;
use klp_capture_run::{Holder, HoldingSleep};
use klp_capture_search::{Followed, Run};
use std::alloc::{AllocError, Global};

/// Returns when the kernel's own log first named a task as a holder of a transition, if that was before a sleep was first
/// seen. If the log doesn't have the transition's start, an earlier line may be of another transition. Returns none if the
/// list has an earlier sleep of the thread.
fn named_before(
    capture: &Capture<'_>,
    moved: &SeenTransition,
    list: &[HolderReport],
    task: &Followed<'_>,
    from: BootTime,
) -> Option<u64> {
    let TransitionStart::Logged(since) = moved.since else {
        return None;
    };
    if list.iter().any(|own| own.task.thread == task.thread) {
        return None;
    }
    let named = first_named(capture, task.thread, since, from)?;
    Some(named.0)
}

/// Whether a sleep of the task of this number held up this transition.
fn is_in(sleep: HoldingSleep, moved: &SeenTransition, number: usize) -> bool {
    usize::from(sleep.task.0) == number
        && moved.is_of(usize::from(sleep.moving.patch.0), sleep.moving.target)
        && moved.from <= sleep.from
        && sleep.from <= moved.to
}

/// Returns since when samples show the task of this number asleep up to the transition's last sample. If they don't, this is
/// the time of that sample.
fn asleep_since(sleeps: &[HoldingSleep], moved: &SeenTransition, number: usize) -> BootTime {
    let last = sleeps.iter().find(|sleep| is_in(**sleep, moved, number) && sleep.to == moved.to);
    match last {
        Some(sleep) => sleep.from,
        None => moved.to,
    }
}

/// Adds a sleep that is over.
fn add_past(
    alloc: Global,
    capture: &Capture<'_>,
    run: &Run<'_>,
    moved: &SeenTransition,
    task: &Followed<'_>,
    sleep: HoldingSleep,
    list: &mut Vec<HolderReport>,
) -> Result<(), AllocError>
    ensures { OnOk result (still_held list.new.items ≡ still_held list.old.items) }
{
    let times = Times {
        from_us: sleep.from.0,
        to_us: sleep.to.0,
        named_us: named_before(capture, moved, list, task, sleep.from),
    };
    let entry = holder_of(alloc, run, task, sleep.version, times, false)?;
    list.push(entry)?;
    Ok(())
}

/// Adds the sleeps of a task that are over. `holds_still` says whether the task holds the transition up in its last sample.
fn add_past_of(
    alloc: Global,
    capture: &Capture<'_>,
    run: &Run<'_>,
    moved: &SeenTransition,
    sleeps: &[HoldingSleep],
    number: usize,
    holds_still: bool,
    list: &mut Vec<HolderReport>,
) -> Result<(), AllocError>
    ensures { OnOk result (still_held list.new.items ≡ still_held list.old.items) }
{
    let Some(task) = run.tasks.get(number) else {
        return Ok(());
    };
    for sleep in sleeps {
        let is_past = !(holds_still && sleep.to == moved.to);
        if is_past && is_in(*sleep, moved, number) {
            add_past(alloc, capture, run, moved, task, *sleep, list)?;
        }
    }
    Ok(())
}

/// Adds all sleeps that are over, task by task.
fn add_all_past(
    alloc: Global,
    capture: &Capture<'_>,
    run: &Run<'_>,
    moved: &SeenTransition,
    sleeps: &[HoldingSleep],
    holding: &[Holder],
    list: &mut Vec<HolderReport>,
) -> Result<(), AllocError>
    ensures { OnOk result (still_held list.new.items ≡ still_held list.old.items) }
{
    for number in 0..run.tasks.len() {
        let holds_still = holding.iter().any(|holder| holder.number == number);
        add_past_of(
            alloc,
            capture,
            run,
            moved,
            sleeps,
            number,
            holds_still,
            list,
        )?;
    }
    Ok(())
}

/// Adds a task that holds the transition up still, if the run has it. Those that the log only counts aren't in the run.
fn add_still(
    alloc: Global,
    capture: &Capture<'_>,
    run: &Run<'_>,
    moved: &SeenTransition,
    sleeps: &[HoldingSleep],
    holder: Holder,
    list: &mut Vec<HolderReport>,
) -> Result<(), AllocError>
    ensures { OnOk result (still_held list.new.items
        ≡ still_held list.old.items ++ thread_at (slice_get run.now.tasks.items holder.number)) }
{
    let Some(task) = run.tasks.get(holder.number) else {
        return Ok(());
    };
    let from = asleep_since(sleeps, moved, holder.number);
    let times = Times {
        from_us: from.0,
        to_us: moved.to.0,
        named_us: named_before(capture, moved, list, task, from),
    };
    let entry = holder_of(alloc, run, task, holder.version, times, true)?;
    list.push(entry)?;
    Ok(())
}

/// Adds all that hold the transition up still.
fn add_all_still(
    alloc: Global,
    capture: &Capture<'_>,
    run: &Run<'_>,
    moved: &SeenTransition,
    sleeps: &[HoldingSleep],
    holding: &[Holder],
    list: &mut Vec<HolderReport>,
) -> Result<(), AllocError>
    ensures { OnOk result (still_held list.new.items
        ≡ still_held list.old.items ++ threads_of run.now.tasks.items holding.now) }
{
    for place in 0..holding.len() {
        add_still(alloc, capture, run, moved, sleeps, holding[place], list)?;
    }
    Ok(())
}

/// Returns the sleeps in which tasks held a transition up, task by task, and behind them those who hold it up still:
/// `holding`, as far as the run has them. `sleeps` are those that samples show. Returns `Err` if memory runs out. The time is
/// that of a look at all sleeps for each task.
pub fn holders_of(
    alloc: Global,
    capture: &Capture<'_>,
    run: &Run<'_>,
    moved: &SeenTransition,
    sleeps: &[HoldingSleep],
    holding: &[Holder],
) -> Result<Vec<HolderReport>, AllocError>
    ensures { IfOk result (λ list. still_held list.items ≡ threads_of run.now.tasks.items holding.now) }
{
    let mut list = Vec::new(alloc);
    add_all_past(alloc, capture, run, moved, sleeps, holding, &mut list)?;
    add_all_still(alloc, capture, run, moved, sleeps, holding, &mut list)?;
    Ok(list)
}
