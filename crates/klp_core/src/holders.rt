//! The tasks that lag behind a transition, and which of these tasks block it (what the kernel's `klp_try_switch_task`
//! finds out for each task).
ghost use Rattle.std.specs.Prelude.{◌≡◌, map};
ghost use Rattle.klp_model.specs.Blocked.{blocked};
ghost use Rattle.klp_model.specs.Task.{task_at};
ghost use Rattle.klp_manager_state.specs.Invariant.{Invariant};
ghost use Rattle.klp_manager_state.specs.Managed.{setting_of, setting_in, state_in};
ghost use Rattle.klp_tasks.specs.Members.{has, IsSetOf};
ghost use Rattle.klp_core.specs.Holders.{blocked_now, is_blocked, innermost_blocked_in, lag_of, lag_at, holders};

use crate::manager::Manager;
use klp_catalog::Catalog;
use klp_manager_state::ManagerState;
use klp_patch::block;
use klp_tasks::{Tasks, VersionSet, target_state};
use klp_types::{MAX_PATCHES, MAX_SITES, MAX_TASKS, Mode, Task, TaskId, Transition, Version};

/// Why a task isn't at the target of the current transition.
#[derive(Clone, Copy, PartialEq, Eq)]
pub enum Lag {
    /// The task sleeps inside of this blocked version. So the task blocks the transition, and no poll switches the
    /// task. If the task is inside of several blocked versions, this is the innermost.
    Holds(Version),
    /// Nothing blocks the task. The field is its mode. If the task is asleep, the next poll switches it. Otherwise the
    /// task switches when it next leaves the kernel.
    Waits(Mode),
}

/// Returns the versions that a transition blocks. The function that a poll calls computes them.
fn blocked(state: &ManagerState, catalog: &Catalog, moving: Transition) -> VersionSet
    requires { Invariant state.now catalog.now }
    ensures { IsSetOf result (blocked (setting_in state.now catalog.now) (state_in state.now catalog.now) moving) }
{
    klp_types::laws::entries_are_of_their_patches();
    klp_patch::laws::the_stacks_tell_what_is_blocked();
    prove!(usize::from(catalog.patches()) <= MAX_PATCHES);
    prove!(state.sites.sites() <= MAX_SITES);
    let mut blocked = VersionSet::new();
    block(&state.sites, catalog, moving, &mut blocked);
    blocked
}

/// Returns the versions that are blocked now. The set is empty if there is no transition.
fn blocked_now(state: &ManagerState, catalog: &Catalog) -> VersionSet
    requires { Invariant state.now catalog.now }
    ensures { IsSetOf result (blocked_now (setting_in state.now catalog.now) (state_in state.now catalog.now)) }
{
    match state.moving {
        Some(moving) => blocked(state, catalog, moving),
        None => VersionSet::new(),
    }
}

/// Returns the innermost of these frames that is in the set. Returns `None` if no frame is in the set. Frames are
/// outermost first.
fn innermost_blocked_in(frames: &[Version], blocked: &VersionSet) -> Option<Version>
    ensures { result ≡ innermost_blocked_in (has blocked.now) frames.now }
{
    let mut from_inside = frames.iter().rev();
    from_inside
        .find(|version| blocked.contains(**version))
        .copied()
}

/// Returns why a task lags. The task must not be at the target.
fn lag_of(task: &Task, blocked: &VersionSet) -> Lag
    ensures { result ≡ lag_of (has blocked.now) task.now }
{
    match (
        task.mode,
        innermost_blocked_in(task.frames.as_slice(), blocked),
    ) {
        (Mode::Asleep, Some(version)) => Lag::Holds(version),
        (mode, _) => Lag::Waits(mode),
    }
}

/// Returns why a task lags. Returns `None` if the task is at the target or doesn't exist, or if there is no transition.
fn lag_at(
    tasks: &Tasks,
    task: TaskId,
    moving: &Option<Transition>,
    blocked: &VersionSet,
) -> Option<Lag>
    ensures { result ≡ lag_at (has blocked.now) moving.now (task_at tasks.now task) }
{
    let Some(moving) = moving else {
        return None;
    };
    let task = tasks.get(task)?;
    if task.state == target_state(moving.target) {
        return None;
    }
    Some(lag_of(task, blocked))
}

/// Returns for each task number why the task lags, or `None` if no task with this number lags.
fn lags(
    tasks: &Tasks,
    moving: &Option<Transition>,
    blocked: &VersionSet,
) -> [Option<Lag>; MAX_TASKS]
    ensures { result ≡ map (lag_at (has blocked.now) moving.now) tasks.now }
{
    // called for its contract, which says that there is a row for each number
    let _rows = tasks.get(TaskId(0));
    let mut lags = [None; MAX_TASKS];
    for number in 0..MAX_TASKS {
        lags[number] = lag_at(tasks, TaskId(number as u8), moving, blocked);
    }
    lags
}

impl Manager {
    /// Whether the current transition blocks a version. While a task sleeps inside of a blocked version, the task isn't
    /// switched. False if there is no transition. Each call computes the set of blocked versions, as a poll does.
    pub fn blocks(&self, version: Version) -> bool
        ensures { result ≡ is_blocked (setting_of self.now.managed) self.now.managed.state version }
    {
        blocked_now(&self.state, &self.catalog).contains(version)
    }

    /// Returns for each task number why the task isn't at the target of the current transition. For a task that blocks
    /// the transition, the reason is the version that the task sleeps inside of. For a task that waits, the reason is
    /// the task's mode. The element is `None` for a task that is at the target, and for a number without a task. If
    /// there is no transition, all elements are `None`. A poll decides by the same rule
    /// (`laws::a_poll_tells_how_many_are_left`).
    ///
    /// The cost is that of a poll that switches no task. No memory is allocated.
    pub fn holders(&self) -> [Option<Lag>; MAX_TASKS]
        ensures { result ≡ holders (setting_of self.now.managed) self.now.managed.state }
    {
        let blocked = blocked_now(&self.state, &self.catalog);
        lags(&self.state.tasks, &self.state.moving, &blocked)
    }
}
