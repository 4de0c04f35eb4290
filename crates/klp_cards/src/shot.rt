//! What is stored of a task after a line, for comparison with the task after a later line.

use klp_core::Manager;
use klp_timeline::Stay;
use klp_types::{Frames, Mode, TaskId};

/// A task as it is after a line.
#[derive(Clone, Copy)]
pub(crate) struct TaskShot {
    pub mode: Mode,
    /// The patch state, as `/proc/<pid>/patch_state` shows it.
    pub state: i8,
    pub is_holding: bool,
    /// Whether the task sleeps in code that isn't called now.
    pub is_outdated: bool,
    /// The functions that the task sleeps in.
    pub frames: Frames,
}

/// Returns what a task is like now. `stay` is the stay that it is in, if any. Returns `None` if there is no such task.
pub(crate) fn task_shot(manager: &Manager, task: TaskId, stay: &Option<Stay>) -> Option<TaskShot> {
    let mode = manager.mode(task)?;
    let state = manager.patch_state(task)?;
    Some(TaskShot {
        mode,
        state,
        is_holding: matches!(stay, Some(Stay::Holds(_, _))),
        is_outdated: matches!(stay, Some(Stay::Outdated(_))),
        frames: manager.frames(task),
    })
}

/// Whether a task is like `before`. `stay` is the stay that it is in now, if any. The functions that it sleeps in
/// aren't compared, so this costs less than [`task_shot`], and is only for lines that can't change them.
pub(crate) fn is_task_as_before(
    manager: &Manager,
    task: TaskId,
    stay: &Option<Stay>,
    before: &Option<TaskShot>,
) -> bool {
    let Some(before) = before else {
        // There was no such task before.
        return manager.mode(task).is_none();
    };
    manager.mode(task) == Some(before.mode)
        && manager.patch_state(task) == Some(before.state)
        && before.is_holding == matches!(stay, Some(Stay::Holds(_, _)))
        && before.is_outdated == matches!(stay, Some(Stay::Outdated(_)))
}

/// Whether a task was switched: it went from patch state 0 to 1 or back. The beginning or end of a transition changes
/// the patch state from or to -1, which is no switch.
fn has_switched(before: &TaskShot, after: &TaskShot) -> bool {
    before.state != after.state && before.state >= 0 && after.state >= 0
}

/// Whether a task sleeps in the same functions as before.
fn are_frames_same(before: &TaskShot, after: &TaskShot) -> bool {
    // The unused places of the frames may differ.
    before.frames.as_slice() == after.frames.as_slice()
}

/// Whether a task did something, so that it has a card: it began or ended, its mode or the functions that it sleeps in
/// changed, it was switched, or a stay of it began or ended. That its patch state changes by the beginning or end of a
/// transition isn't enough.
pub(crate) fn did_something(before: &Option<TaskShot>, after: &Option<TaskShot>) -> bool {
    match (before, after) {
        (Some(before), Some(after)) => {
            before.mode != after.mode
                || before.is_holding != after.is_holding
                || before.is_outdated != after.is_outdated
                || has_switched(before, after)
                || !are_frames_same(before, after)
        }
        (None, None) => false,
        _ => true,
    }
}

/// Whether the patch state of a task changed, also by the beginning or end of a transition. False for a task that began
/// or ended.
pub(crate) fn has_other_state(before: &Option<TaskShot>, after: &Option<TaskShot>) -> bool {
    match (before, after) {
        (Some(before), Some(after)) => before.state != after.state,
        _ => false,
    }
}

/// Whether the task exists and holds the transition up.
pub(crate) fn is_holding(shot: &Option<TaskShot>) -> bool {
    match shot {
        Some(shot) => shot.is_holding,
        None => false,
    }
}
