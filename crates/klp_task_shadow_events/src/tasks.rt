//! The events of tasks (livepatch, Consistency model). The cost of each event doesn't depend on what is installed.
//!
//! An accepted event changes one task's row. Afterwards the log has only the old row. A refused event changes nothing.
//! For each event, a function `.._refusal` returns the reason why the event would be refused, or `None` if it would be
//! accepted. If the journal is full, only the function `.._refusal` is called, and the event isn't done.
ghost use Rattle.std.specs.Prelude.{◌≡◌, ◌<◌, not, true, false, ℕ, List, [], ◌∷◌, length, is_some, option_map, IfOk};
ghost use Rattle.std.specs.Prelude.{IfNone};
ghost use Rattle.std.specs.List.{list_any};
ghost use Rattle.klp_types.specs.declared.limits.TheConstants.{MAX_RECORDS, MAX_TASKS};
ghost use Rattle.klp_types.specs.declared.task.Task.{Task as AnyTask};
ghost use Rattle.klp_types.specs.FirstOf.{first_of};
ghost use Rattle.klp_types.specs.Frames.{frames_of};
ghost use Rattle.klp_types.specs.declared.task.Mode.TheVariants.{User, Kernel, Asleep};
ghost use Rattle.klp_model.specs.declared.event.Event.TheVariants.{NewTask, Fork, EndTask, EnterKernel, ExitToUser};
ghost use Rattle.klp_model.specs.declared.event.Event.TheVariants.{Sleep, Wake};
ghost use Rattle.klp_model.specs.declared.event.Refusal.TheVariants.{NoTask, WrongMode};
ghost use Rattle.klp_model.specs.Task.{task_at, is_in};
ghost use Rattle.klp_model.specs.TaskStep.{state_wanted};
ghost use Rattle.klp_model.specs.Frames.{is_bad};
ghost use Rattle.klp_model.specs.Refusals.{refusal};
ghost use Rattle.klp_tasks.specs.Changes.{record_of};
ghost use Rattle.klp_catalog.specs.Catalog.{Catalog as AnyCatalog};
ghost use Rattle.klp_manager_state.specs.Managed.{setting_in, refused_in};
ghost use Rattle.klp_manager_state.specs.Invariant.{Invariant};
ghost use Rattle.klp_manager_state.specs.Events.{TakesEvent, TakesEventAlone};
ghost use Rattle.klp_manager_state.specs.Rows.{IsLogged};

use klp_catalog::Catalog;
use klp_journal::Records;
use klp_manager_state::{Brief, BriefReply, ManagerState};
use klp_model::{Refusal, Reply};
use klp_tasks::{Tasks, target_state};
use klp_types::{Frames, MAX_TASKS, Mode, PatchState, TaskId, Transition, Version};

/// Begins a task in user space. If there is a transition, the new task is at its target, since the task has run nothing
/// yet.
pub fn new_task(state: &mut ManagerState, task: TaskId) -> Result<BriefReply, Refusal>
    requires room { state.old.log.room ≡ MAX_RECORDS }
    ensures taken { TakesEventAlone state.old state.new (NewTask task) result }
    ensures logged { IsLogged state.old state.new result }
    ensures one { IfOk result (λ reply. length state.new.log.logged ≡ 1) }
{
    klp_manager_state::laws::steps_keep();
    klp_manager_state::laws::changes_of_one_kind_are_taken();
    klp_manager_state::laws::what_is_logged_gives_the_rows_back();
    if let Some(refusal) = new_task_refusal(state, task) {
        return Err(refusal);
    }
    log_alone(&state.tasks, task, &mut state.log);
    state.tasks.add(task, state_wanted(state.moving));
    Ok(BriefReply(Brief::Done))
}

/// Returns why a task can't begin, or `None` if it can. The reasons are that the number is too large, or that a task
/// with this number exists.
pub fn new_task_refusal(state: &ManagerState, task: TaskId) -> Option<Refusal>
    ensures refusal { (catalog : AnyCatalog) → result ≡ refused_in state.now catalog (NewTask task) }
    ensures number { IfNone result (task < MAX_TASKS) }
    ensures within { IfNone result (task < length state.now.tasks) }
    ensures free { IfNone result (is_some (task_at state.now.tasks task) ≡ false) }
{
    if usize::from(task.0) >= MAX_TASKS {
        Some(Refusal::NoTask)
    } else if is_there(state, task) {
        Some(Refusal::TaskThere)
    } else {
        None
    }
}

/// Makes a second task from a task that is in the kernel. Both tasks are in the middle of the same functions, so the
/// second gets the patch state of the first (the kernel's `klp_copy_process`).
pub fn fork(state: &mut ManagerState, parent: TaskId, child: TaskId) -> Result<BriefReply, Refusal>
    requires room { state.old.log.room ≡ MAX_RECORDS }
    ensures taken { TakesEventAlone state.old state.new (Fork parent child) result }
    ensures logged { IsLogged state.old state.new result }
    ensures one { IfOk result (λ reply. length state.new.log.logged ≡ 1) }
{
    klp_manager_state::laws::steps_keep();
    klp_manager_state::laws::changes_of_one_kind_are_taken();
    klp_manager_state::laws::what_is_logged_gives_the_rows_back();
    if let Some(refusal) = fork_refusal(state, parent, child) {
        return Err(refusal);
    }
    log_alone(&state.tasks, child, &mut state.log);
    state.tasks.fork(parent, child);
    Ok(BriefReply(Brief::Done))
}

/// Returns why a task can't start another task, or `None` if it can. Both numbers are checked before the mode, as in
/// other events.
pub fn fork_refusal(state: &ManagerState, parent: TaskId, child: TaskId) -> Option<Refusal>
    ensures refusal { (catalog : AnyCatalog) → result ≡ refused_in state.now catalog (Fork parent child) }
    ensures there { IfNone result (is_some (task_at state.now.tasks parent) ≡ true) }
    ensures number { IfNone result (child < MAX_TASKS) }
    ensures within { IfNone result (child < length state.now.tasks) }
    ensures free { IfNone result (is_some (task_at state.now.tasks child) ≡ false) }
{
    if !is_there(state, parent) || usize::from(child.0) >= MAX_TASKS {
        Some(Refusal::NoTask)
    } else if is_there(state, child) {
        Some(Refusal::TaskThere)
    } else if !is_in(state, parent, Mode::Kernel) {
        Some(Refusal::WrongMode)
    } else {
        None
    }
}

/// Ends a task that isn't asleep. A sleeper is inside of functions, so it must wake up first.
pub fn end_task(state: &mut ManagerState, task: TaskId) -> Result<BriefReply, Refusal>
    requires room { state.old.log.room ≡ MAX_RECORDS }
    ensures taken { TakesEventAlone state.old state.new (EndTask task) result }
    ensures logged { IsLogged state.old state.new result }
    ensures one { IfOk result (λ reply. length state.new.log.logged ≡ 1) }
{
    klp_manager_state::laws::steps_keep();
    klp_manager_state::laws::changes_of_one_kind_are_taken();
    klp_manager_state::laws::what_is_logged_gives_the_rows_back();
    if let Some(refusal) = end_task_refusal(state, task) {
        return Err(refusal);
    }
    log_alone(&state.tasks, task, &mut state.log);
    state.tasks.end(task);
    Ok(BriefReply(Brief::Done))
}

/// Returns why a task can't end, or `None` if it can. The reasons are that the task doesn't exist, or that it sleeps.
pub fn end_task_refusal(state: &ManagerState, task: TaskId) -> Option<Refusal>
    ensures refusal { (catalog : AnyCatalog) → result ≡ refused_in state.now catalog (EndTask task) }
    ensures there { IfNone result (is_some (task_at state.now.tasks task) ≡ true) }
{
    if !is_there(state, task) {
        Some(Refusal::NoTask)
    } else if is_in(state, task, Mode::Asleep) {
        Some(Refusal::WrongMode)
    } else {
        None
    }
}

/// Lets a task enter the kernel. The task's patch state doesn't change, since the task switches when it leaves the
/// kernel.
pub fn enter_kernel(state: &mut ManagerState, task: TaskId) -> Result<BriefReply, Refusal>
    requires room { state.old.log.room ≡ MAX_RECORDS }
    ensures taken { TakesEventAlone state.old state.new (EnterKernel task) result }
    ensures logged { IsLogged state.old state.new result }
    ensures one { IfOk result (λ reply. length state.new.log.logged ≡ 1) }
{
    klp_manager_state::laws::steps_keep();
    klp_manager_state::laws::changes_of_one_kind_are_taken();
    klp_manager_state::laws::what_is_logged_gives_the_rows_back();
    klp_tasks::laws::rows_change_as_the_step_says();
    if let Some(refusal) = enter_kernel_refusal(state, task) {
        return Err(refusal);
    }
    log_alone(&state.tasks, task, &mut state.log);
    state.tasks.enter(task);
    Ok(BriefReply(Brief::Done))
}

/// Returns why a task can't enter the kernel, or `None` if it can. The reasons are that the task doesn't exist, or that
/// it isn't in user space.
pub fn enter_kernel_refusal(state: &ManagerState, task: TaskId) -> Option<Refusal>
    ensures refusal { (catalog : AnyCatalog) → result ≡ refused_in state.now catalog (EnterKernel task) }
    ensures there { IfNone result (is_some (task_at state.now.tasks task) ≡ true) }
    ensures mode { IfNone result (is_in User (task_at state.now.tasks task) ≡ true) }
{
    refusal_unless_in(state, task, Mode::User)
}

/// Lets a task return to user space. If there is a transition, the task is switched to its target, because the task is
/// inside of no function any more.
pub fn exit_to_user(state: &mut ManagerState, task: TaskId) -> Result<BriefReply, Refusal>
    requires room { state.old.log.room ≡ MAX_RECORDS }
    ensures taken { TakesEventAlone state.old state.new (ExitToUser task) result }
    ensures logged { IsLogged state.old state.new result }
    ensures one { IfOk result (λ reply. length state.new.log.logged ≡ 1) }
{
    klp_manager_state::laws::steps_keep();
    klp_manager_state::laws::changes_of_one_kind_are_taken();
    klp_manager_state::laws::what_is_logged_gives_the_rows_back();
    klp_tasks::laws::rows_change_as_the_step_says();
    if let Some(refusal) = exit_to_user_refusal(state, task) {
        return Err(refusal);
    }
    log_alone(&state.tasks, task, &mut state.log);
    state.tasks.leave(task, state.moving);
    Ok(BriefReply(Brief::Done))
}

/// Returns why a task can't return to user space, or `None` if it can. A sleeper must wake up first.
pub fn exit_to_user_refusal(state: &ManagerState, task: TaskId) -> Option<Refusal>
    ensures refusal { (catalog : AnyCatalog) → result ≡ refused_in state.now catalog (ExitToUser task) }
    ensures there { IfNone result (is_some (task_at state.now.tasks task) ≡ true) }
    ensures mode { IfNone result (is_in Kernel (task_at state.now.tasks task) ≡ true) }
{
    refusal_unless_in(state, task, Mode::Kernel)
}

/// Puts a task to sleep inside of these functions. It isn't checked whether the task really is inside of these
/// functions: this is a premise of the consistency laws. The cost grows with the number of frames.
pub fn sleep(
    state: &mut ManagerState,
    catalog: &Catalog,
    task: TaskId,
    frames: &Frames,
) -> Result<BriefReply, Refusal>
    requires { Invariant state.old catalog.now }
    ensures taken { TakesEvent state.old state.new catalog.now catalog.now (Sleep task frames.now) result }
    ensures logged { IsLogged state.old state.new result }
    ensures one { IfOk result (λ reply. length state.new.log.logged ≡ 1) }
{
    klp_manager_state::laws::steps_keep();
    klp_manager_state::laws::changes_of_one_kind_are_taken();
    klp_manager_state::laws::what_is_logged_gives_the_rows_back();
    klp_tasks::laws::rows_change_as_the_step_says();
    if let Some(refusal) = sleep_refusal(state, catalog, task, frames) {
        return Err(refusal);
    }
    log_alone(&state.tasks, task, &mut state.log);
    state.tasks.sleep(task, *frames);
    Ok(BriefReply(Brief::Done))
}

/// Returns why a task can't fall asleep inside of these functions, or `None` if it can. The functions are checked last,
/// since this check costs most.
pub fn sleep_refusal(
    state: &ManagerState,
    catalog: &Catalog,
    task: TaskId,
    frames: &Frames,
) -> Option<Refusal>
    requires { Invariant state.now catalog.now }
    ensures refusal { result ≡ refused_in state.now catalog.now (Sleep task frames.now) }
    ensures there { IfNone result (is_some (task_at state.now.tasks task) ≡ true) }
    ensures mode { IfNone result (is_in Kernel (task_at state.now.tasks task) ≡ true) }
{
    if !is_there(state, task) {
        Some(Refusal::NoTask)
    } else if !is_in(state, task, Mode::Kernel) {
        Some(Refusal::WrongMode)
    } else if has_bad(state, catalog, frames) {
        Some(Refusal::BadFrame)
    } else {
        None
    }
}

/// Wakes a task up in the kernel. The reply has the functions inside of which the task slept, since they are removed
/// from the task's row.
pub fn wake(state: &mut ManagerState, task: TaskId) -> Result<Reply, Refusal>
    requires room { state.old.log.room ≡ MAX_RECORDS }
    ensures taken { TakesEventAlone state.old state.new (Wake task) result }
    ensures logged { IsLogged state.old state.new result }
    ensures one { IfOk result (λ reply. length state.new.log.logged ≡ 1) }
{
    klp_manager_state::laws::steps_keep();
    klp_manager_state::laws::changes_of_one_kind_are_taken();
    klp_manager_state::laws::what_is_logged_gives_the_rows_back();
    klp_tasks::laws::rows_change_as_the_step_says();
    if let Some(refusal) = wake_refusal(state, task) {
        return Err(refusal);
    }
    let frames = frames_of(state, task);
    log_alone(&state.tasks, task, &mut state.log);
    state.tasks.wake(task);
    Ok(Reply::Woken(frames))
}

/// Returns why a task can't wake up, or `None` if it can. The reasons are that the task doesn't exist, or that it
/// doesn't sleep.
pub fn wake_refusal(state: &ManagerState, task: TaskId) -> Option<Refusal>
    ensures refusal { (catalog : AnyCatalog) → result ≡ refused_in state.now catalog (Wake task) }
    ensures there { IfNone result (is_some (task_at state.now.tasks task) ≡ true) }
    ensures mode { IfNone result (is_in Asleep (task_at state.now.tasks task) ≡ true) }
{
    refusal_unless_in(state, task, Mode::Asleep)
}

/// Returns `None` if the task is in this mode. Returns `NoTask` if the task doesn't exist, and `WrongMode` if it is in
/// another mode.
fn refusal_unless_in(state: &ManagerState, task: TaskId, mode: Mode) -> Option<Refusal>
    ensures refusal { result
        ≡ first_of ((not (is_some (task_at state.now.tasks task)), NoTask)
        ∷ (not (is_in mode (task_at state.now.tasks task)), WrongMode) ∷ []) }
    ensures there { IfNone result (is_some (task_at state.now.tasks task) ≡ true) }
    ensures mode { IfNone result (is_in mode (task_at state.now.tasks task) ≡ true) }
{
    if !is_there(state, task) {
        Some(Refusal::NoTask)
    } else if !is_in(state, task, mode) {
        Some(Refusal::WrongMode)
    } else {
        None
    }
}

/// Empties the log, and logs the row of this task as the row is before the event. So a task event logs exactly one
/// record.
fn log_alone(tasks: &Tasks, task: TaskId, log: &mut Records)
    requires { log.old.room ≡ MAX_RECORDS }
    ensures { log.new ≡ record log.old { logged = record_of task (task_at tasks.now task) ∷ [] } }
{
    log.clear();
    tasks.log_row(task, log);
}

/// Returns the patch state to which a task switches now: that of the transition's target, or -1 if there is no
/// transition.
fn state_wanted(moving: Option<Transition>) -> PatchState
    ensures { result ≡ state_wanted moving }
{
    match moving {
        None => PatchState::UNDEFINED,
        Some(moving) => target_state(moving.target),
    }
}

/// Whether a task with this number exists.
fn is_there(state: &ManagerState, task: TaskId) -> bool
    ensures value { result ≡ is_some (task_at state.now.tasks task) }
    ensures limit { length state.now.tasks ≡ MAX_TASKS }
{
    state.tasks.get(task).is_some()
}

/// Whether a task exists and is in this mode.
fn is_in(state: &ManagerState, task: TaskId, mode: Mode) -> bool
    ensures { result ≡ is_in mode (task_at state.now.tasks task) }
{
    match state.tasks.get(task) {
        Some(row) => row.mode == mode,
        None => false,
    }
}

/// Returns a copy of a task's frames. The copy is empty if the task doesn't exist. The copy must be made before the
/// task wakes up.
fn frames_of(state: &ManagerState, task: TaskId) -> Frames
    ensures { result ≡ frames_of (task_at state.now.tasks task) }
{
    match state.tasks.get(task) {
        Some(row) => row.frames,
        None => Frames::new(),
    }
}

/// Whether a version doesn't exist, because the image has no such site or the catalog has no such function. The
/// version's object need not be loaded.
fn is_bad(state: &ManagerState, catalog: &Catalog, version: Version) -> bool
    requires { Invariant state.now catalog.now }
    ensures { result ≡ is_bad (setting_in state.now catalog.now) version }
{
    match version {
        Version::Original(site) => usize::from(site.0) >= state.sites.sites(),
        Version::New(patch, function) => { usize::from(function) >= catalog.functions(patch).len() }
    }
}

/// Whether one of these versions doesn't exist. One such version is enough to refuse the event.
fn has_bad(state: &ManagerState, catalog: &Catalog, frames: &Frames) -> bool
    requires { Invariant state.now catalog.now }
    ensures { result ≡ list_any (is_bad (setting_in state.now catalog.now)) frames.now }
{
    let versions = frames.as_slice();
    for version in versions {
        if is_bad(state, catalog, *version) {
            return true;
        }
    }
    false
}
