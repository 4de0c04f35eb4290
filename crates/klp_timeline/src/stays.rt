//! The stays that begin with a line.
ghost use Rattle.std.specs.Prelude.{◌≡◌, ◌++◌, ◌∷◌, [], ◌≤◌, ◌<◌, ◌+◌, ◌^◌, length, IfOk, OnOk};
ghost use Rattle.klp_types.specs.declared.limits.TheConstants.{MAX_TASKS};
ghost use Rattle.klp_timeline.specs.Stays.{is_same_transition_as, is_same_stay_as, is_in_stay, until, sleep_of, sleeps_begun};

use crate::moment::{Moment, Sleep, Stay};
use klp_types::{MAX_TASKS, TaskId, Transition};
use std::alloc::{AllocError, Global};

/// Whether two transitions have the same patch and target.
pub(crate) fn is_same_transition_as(own: &Transition, other: &Transition) -> bool
    ensures { result ≡ is_same_transition_as own.now other.now }
{
    own.patch == other.patch && own.target == other.target
}

/// Whether two stays are the same. They must be of one kind and in one version. If they hold a transition up, its patch
/// and target must be the same, too.
pub(crate) fn is_same_stay_as(own: &Stay, other: &Stay) -> bool
    ensures { result ≡ is_same_stay_as own.now other.now }
{
    match (own, other) {
        (Stay::Holds(moving, version), Stay::Holds(other, frame)) => {
            is_same_transition_as(moving, other) && version == frame
        }
        (Stay::Outdated(version), Stay::Outdated(frame)) => version == frame,
        _ => false,
    }
}

/// Whether a task is in `stay`. `shown` is the stay that a view shows for the task, or `None` if it is in none.
pub(crate) fn is_in_stay(stay: &Stay, shown: &Option<Stay>) -> bool
    ensures { result ≡ is_in_stay stay.now shown.now }
{
    match shown {
        Some(shown) => is_same_stay_as(stay, shown),
        None => false,
    }
}

/// Returns the last line of a stay, which is the last one after which the task is still in it, or `None` if the stay
/// lasts until the end of the run. The task is in `stay` after `line`, and `rest` has the run's lines behind that one:
/// if the first of them ends the stay, its last line is `line`. The cost grows with the length of the stay.
fn until(task: usize, stay: &Stay, line: u64, rest: &[Moment]) -> Option<u64>
    requires task { task < MAX_TASKS }
    requires lines { line + length rest.now < 2 ^ 64 }
    ensures { result ≡ until task stay.now line rest.now }
{
    let mut last = line;
    for moment in rest {
        if !is_in_stay(stay, &moment.view.stays[task]) {
            return Some(last);
        }
        last += 1;
    }
    None
}

/// Appends the stay of a task that begins with `line`, together with its last line. `before` and `stay` are the task's
/// stays before and after the line. Appends nothing if the task is in no stay after the line, or was in the same stay
/// before.
fn add_sleep(
    sleeps: &mut Vec<Sleep>,
    task: usize,
    before: &Option<Stay>,
    stay: &Option<Stay>,
    line: u64,
    rest: &[Moment],
) -> Result<(), AllocError>
    requires task { task < MAX_TASKS }
    requires lines { line + length rest.now < 2 ^ 64 }
    ensures { OnOk result (sleeps.new.items ≡ sleeps.old.items ++ sleep_of task before.now stay.now line rest.now) }
{
    let Some(stay) = stay else {
        return Ok(());
    };
    if is_in_stay(stay, before) {
        return Ok(());
    }
    sleeps.push(Sleep {
        task: TaskId(task as u8),
        stay: *stay,
        to: until(task, stay, line, rest),
    })?;
    Ok(())
}

/// Returns the stays that begin with `line`, in the order of the task numbers. `before` has the stay of each task
/// before the line, and `stays` the stay of each task after it. `rest` has the run's lines from the next line on. A
/// stay in `stays` begins with the line unless the task was already in the same stay before.
pub(crate) fn sleeps_begun(
    alloc: Global,
    before: &[Option<Stay>],
    stays: &[Option<Stay>],
    line: u64,
    rest: &[Moment],
) -> Result<Vec<Sleep>, AllocError>
    requires tasks { (length before.now ≡ MAX_TASKS) × (length stays.now ≡ MAX_TASKS) }
    requires lines { line + length rest.now < 2 ^ 64 }
    ensures { IfOk result (λ sleeps. sleeps.items ≡ sleeps_begun 0 before.now stays.now line rest.now) }
{
    let mut sleeps = Vec::new(alloc);
    for task in 0..stays.len() {
        add_sleep(&mut sleeps, task, &before[task], &stays[task], line, rest)?;
    }
    Ok(sleeps)
}
