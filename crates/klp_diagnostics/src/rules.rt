//! Finds in the state of a manager what the rules have in place of something else that a kernel shows, and why.

use crate::named::{NamedVersion, patch_name};
use klp_core::{Lag, Manager};
use klp_types::{MAX_TASKS, Mode, PatchId, Site, TaskId, Version};
use klp_watch::{PatchFiles, Sight};
use std::alloc::{AllocError, Global};

/// How many tasks are named at most, of those that aren't at the target of a transition.
const NAMED: usize = 3;

/// Why a task isn't at the target of a transition.
#[derive(Drop)]
pub enum LagReason {
    /// The task sleeps in a version that the patch in transition changes, or withdraws if it is the patch's own.
    Holds {
        version: NamedVersion,
        patch: String,
        is_own: bool,
    },
    /// The task is in user space.
    InUserSpace,
    /// The task runs in the kernel.
    Runs,
    /// The task sleeps in no function that holds this patch up.
    SleepsElsewhere(String),
}

/// A task that isn't at the target of a transition.
#[derive(Drop)]
pub struct LaggingTask {
    pub task: TaskId,
    pub reason: LagReason,
}

/// The tasks that aren't at the target of a transition. Those that block it come first.
#[derive(Drop)]
pub struct LaggingTasks {
    /// The first tasks. There are at most three.
    pub first: Vec<LaggingTask>,
    /// How many tasks follow these.
    pub more: usize,
}

/// Why the rules give an answer to an event.
#[derive(Drop)]
pub enum AnswerReason {
    /// These tasks aren't at the target of the transition.
    Lag(LaggingTasks),
    /// Every task is switched.
    AllSwitched,
    /// This patch is in transition.
    InTransition(String),
    /// The answer tells its reason itself.
    Itself,
}

/// Why a task has its patch state.
#[derive(Drop)]
pub enum StateReason {
    /// The task isn't at the target of the transition.
    Lags(LaggingTask),
    /// The task is at the target of this patch's transition.
    IsAtTarget(String),
    /// No patch is in transition.
    NoTransition,
}

/// Why a task can't call a function.
#[derive(Clone, Copy)]
pub enum NoCallReason {
    NoTask,
    NotLoaded,
}

/// A task's patch state while this patch is in transition. The version that the task gets depends on it.
#[derive(Drop)]
pub struct TaskInTransition {
    pub task: TaskId,
    pub state: i8,
    pub patch: String,
}

/// What the rules have in place of an answer or a sight, and why.
#[derive(Drop)]
pub enum RulesHave {
    /// This answer to an event, as the console writes it.
    Answer {
        text: Vec<u8>,
        reason: AnswerReason,
    },
    /// No such task.
    NoTask(TaskId),
    /// This patch state of a task.
    State {
        state: i8,
        reason: StateReason,
    },
    /// No files of this patch, which isn't installed.
    NoFiles(String),
    /// These values of a patch's files. If the patch is in transition, and the kernel shows no transition, these tasks
    /// lag.
    Files {
        files: PatchFiles,
        lagging: LaggingTasks,
    },
    /// No version, for this reason.
    NoVersion(NoCallReason),
    /// This version for a task that calls its function. Without a transition, each task gets this version.
    Version {
        version: NamedVersion,
        caller: Option<TaskInTransition>,
    },
    /// No such text.
    NoText,
    /// No text, since this object isn't loaded.
    NotLoaded(String),
    /// A plain text, which no installed patch changes.
    Plain,
    /// A hooked text, by these patches, newest first.
    Hooked(Vec<String>),
}

/// Returns the name of the patch in transition. Returns `None` if no patch is, and `Err` if memory runs out.
pub(crate) fn moving_name(alloc: Global, manager: &Manager) -> Result<Option<String>, AllocError> {
    match manager.moving() {
        Some(moving) => Ok(Some(patch_name(alloc, manager, moving.patch)?)),
        None => Ok(None),
    }
}

/// Whether this patch is in transition.
fn is_moving(manager: &Manager, patch: PatchId) -> bool {
    match manager.moving() {
        Some(moving) => moving.patch == patch,
        None => false,
    }
}

/// Returns why a task isn't at the target of the transition, with the names that a sentence needs. `lag` is the
/// manager's reason, and `patch` the name of the patch in transition.
fn lag_reason(
    alloc: Global,
    manager: &Manager,
    lag: Lag,
    patch: String,
) -> Result<LagReason, AllocError> {
    Ok(match lag {
        Lag::Holds(version) => LagReason::Holds {
            is_own: matches!(version, Version::New(own, _) if is_moving(manager, own)),
            version: NamedVersion::of(alloc, manager, version)?,
            patch,
        },
        Lag::Waits(Mode::User) => LagReason::InUserSpace,
        Lag::Waits(Mode::Kernel) => LagReason::Runs,
        Lag::Waits(Mode::Asleep) => LagReason::SleepsElsewhere(patch),
    })
}

impl LaggingTask {
    /// Returns a task with the reason why it isn't at the target of the transition. `lag` is the manager's reason.
    fn of(
        alloc: Global,
        manager: &Manager,
        task: TaskId,
        lag: Lag,
    ) -> Result<LaggingTask, AllocError> {
        let patch = match moving_name(alloc, manager)? {
            Some(patch) => patch,
            // Not reached, since a task lags only during a transition.
            None => String::from_str(alloc, "a patch")?,
        };
        let reason = lag_reason(alloc, manager, lag, patch)?;
        Ok(LaggingTask { task, reason })
    }
}

impl LaggingTasks {
    /// Returns the value without any task.
    fn none(alloc: Global) -> LaggingTasks {
        LaggingTasks {
            first: Vec::new(alloc),
            more: 0,
        }
    }

    /// Adds a task after the others, with the reason why it isn't at the target. If [`NAMED`] tasks are there already,
    /// only counts it.
    fn add(
        &mut self,
        alloc: Global,
        manager: &Manager,
        task: TaskId,
        lag: Lag,
    ) -> Result<(), AllocError> {
        if self.first.len() < NAMED {
            self.first
                .push(LaggingTask::of(alloc, manager, task, lag)?)?;
        } else {
            self.more = self.more.saturating_add(1);
        }
        Ok(())
    }

    /// Adds the tasks that aren't at the target of the transition and block it, or, if `are_blocked` is false, those
    /// that don't block it.
    fn add_all(
        &mut self,
        alloc: Global,
        manager: &Manager,
        are_blocked: bool,
    ) -> Result<(), AllocError> {
        let lags = manager.holders();
        for number in 0..MAX_TASKS as u8 {
            if let Some(lag) = lags[usize::from(number)]
                && matches!(lag, Lag::Holds(_)) == are_blocked
            {
                self.add(alloc, manager, TaskId(number), lag)?;
            }
        }
        Ok(())
    }

    /// Returns the tasks that aren't at the target of the transition, first those that block it. Returns `Err` if
    /// memory runs out.
    pub(crate) fn of(alloc: Global, manager: &Manager) -> Result<LaggingTasks, AllocError> {
        let mut tasks = LaggingTasks::none(alloc);
        tasks.add_all(alloc, manager, true)?;
        tasks.add_all(alloc, manager, false)?;
        Ok(tasks)
    }
}

/// Returns the patch state that a task has by the rules, and why. Returns `NoTask` if there is no such task.
fn state_of(alloc: Global, manager: &Manager, task: TaskId) -> Result<RulesHave, AllocError> {
    let Some(state) = manager.patch_state(task) else {
        return Ok(RulesHave::NoTask(task));
    };
    // No element stands for a number that no task can have.
    let lag = manager
        .holders()
        .get(usize::from(task.0))
        .copied()
        .unwrap_or(None);
    let reason = match (lag, moving_name(alloc, manager)?) {
        (Some(lag), _) => StateReason::Lags(LaggingTask::of(alloc, manager, task, lag)?),
        (None, Some(patch)) => StateReason::IsAtTarget(patch),
        (None, None) => StateReason::NoTransition,
    };
    Ok(RulesHave::State { state, reason })
}

/// Returns the values that a patch's files have by the rules. `seen` are the values that the kernel showed. If by the
/// rules the patch is in transition, and the kernel didn't show that, also returns which tasks aren't at the target.
/// Returns `NoFiles` if the patch isn't installed.
fn files_of(
    alloc: Global,
    manager: &Manager,
    patch: PatchId,
    seen: Option<PatchFiles>,
) -> Result<RulesHave, AllocError> {
    let (Some(enabled), Some(transition)) = (manager.enabled(patch), manager.transition(patch))
    else {
        return Ok(RulesHave::NoFiles(patch_name(alloc, manager, patch)?));
    };
    let is_shown = match seen {
        Some(seen) => seen.transition == transition,
        None => false,
    };
    let lagging = if transition && !is_shown {
        LaggingTasks::of(alloc, manager)?
    } else {
        LaggingTasks::none(alloc)
    };
    let files = PatchFiles {
        enabled,
        transition,
    };
    Ok(RulesHave::Files { files, lagging })
}

/// Returns a task's patch state and the patch in transition. Returns `None` if no patch is in transition, or if there
/// is no such task.
fn in_transition(
    alloc: Global,
    manager: &Manager,
    task: TaskId,
) -> Result<Option<TaskInTransition>, AllocError> {
    match (manager.patch_state(task), moving_name(alloc, manager)?) {
        (Some(state), Some(patch)) => Ok(Some(TaskInTransition { task, state, patch })),
        _ => Ok(None),
    }
}

/// Returns the version that a task runs by the rules if it calls a site now, and the transition on which that depends.
/// If the task can't call the site, returns why.
fn version_of(
    alloc: Global,
    manager: &Manager,
    task: TaskId,
    site: Site,
) -> Result<RulesHave, AllocError> {
    let Some(target) = manager.pick(task, site) else {
        return Ok(RulesHave::NoVersion(match manager.mode(task) {
            Some(_) => NoCallReason::NotLoaded,
            None => NoCallReason::NoTask,
        }));
    };
    Ok(RulesHave::Version {
        version: NamedVersion::of(alloc, manager, target.version)?,
        caller: in_transition(alloc, manager, task)?,
    })
}

/// Returns the names of the patches that have an entry on a site, newest entry first.
fn hooks_of(alloc: Global, manager: &Manager, site: Site) -> Result<Vec<String>, AllocError> {
    let mut patches = Vec::new(alloc);
    let entries = manager.stack(site);
    for entry in entries.as_slice() {
        patches.push(patch_name(alloc, manager, entry.patch)?)?;
    }
    Ok(patches)
}

/// Returns whether a site is plain or hooked by the rules, and which patches hook it. Returns `NotLoaded` if the site's
/// object isn't loaded, and `NoText` if there is no such site.
fn text_of(alloc: Global, manager: &Manager, site: Site) -> Result<RulesHave, AllocError> {
    let modules = manager.modules();
    let Some((object, _, _)) = modules.symbol(site) else {
        return Ok(RulesHave::NoText);
    };
    if !modules.is_loaded(object) {
        // The fallback isn't reached, since the name table has the names of all objects.
        let name = modules.object_name(object).unwrap_or("its object");
        return Ok(RulesHave::NotLoaded(String::from_str(alloc, name)?));
    }
    let patches = hooks_of(alloc, manager, site)?;
    if patches.is_empty() {
        return Ok(RulesHave::Plain);
    }
    Ok(RulesHave::Hooked(patches))
}

impl RulesHave {
    /// Returns what the manager's state has in place of a sight that a kernel showed, and why. Returns `Err` if memory
    /// runs out.
    pub(crate) fn in_place_of(
        alloc: Global,
        manager: &Manager,
        sight: &Sight,
    ) -> Result<RulesHave, AllocError> {
        match *sight {
            Sight::State(task, _) => state_of(alloc, manager, task),
            Sight::Files(patch, seen) => files_of(alloc, manager, patch, seen),
            Sight::Version(task, site, _) => version_of(alloc, manager, task, site),
            Sight::Text(site, _) => text_of(alloc, manager, site),
        }
    }
}
