ghost use Rattle.std.specs.Prelude.{◌≡◌, ◌<◌, ◌≤◌, ◌++◌, ◌&&◌, not, Bool, true, false, List, [], ◌∷◌, Some, None};
ghost use Rattle.std.specs.Prelude.{length, map, replicate, is_some, option_map, option_copied, IfOk};
ghost use Rattle.std.specs.Prelude.{IfSome, IfNone};
ghost use Rattle.std.specs.List.{count_by, list_any};
ghost use Rattle.std.specs.Ordering.{int_eq};
ghost use Rattle.klp_types.specs.Records.{spare_of};
ghost use Rattle.klp_journal.specs.Small.{with_switched};
ghost use Rattle.klp_types.specs.declared.version.Version.{Version as AnyVersion};
ghost use Rattle.klp_types.specs.declared.task.Task.{Task as AnyTask};
ghost use Rattle.klp_types.specs.declared.task.Mode.TheVariants.{Kernel, Asleep};
ghost use Rattle.klp_model.specs.Task.{task_at, with_task, is_mode, at_target, in_state, all_in};
ghost use Rattle.klp_model.specs.TaskStep.{new_task, exited};
ghost use Rattle.klp_model.specs.Blocked.{switched, lags};
ghost use Rattle.klp_types.specs.Frames.{frames_of};
ghost use Rattle.klp_tasks.specs.Members.{has, IsSetOf};
ghost use Rattle.klp_tasks.specs.Changes.{Changes, changed, record_of, record_if_switched, records_switched};
ghost use Rattle.klp_tasks.specs.Changes.{IsSwitchLogged, put_back, undone, with_child};

use crate::numbers::TaskNumbers;
use crate::version_set::VersionSet;
use arrayvec::ArrayVec;
use klp_journal::{FrameWords, Records, SwitchedTask};
use klp_types::{Frames, MAX_TASKS, Mode, PatchState, Record, Task, TaskId, Transition};
use std::alloc::{AllocError, Global};
use std::marker::Model;

/// The tasks by their numbers, from 0 to [`MAX_TASKS`] - 1.
///
/// [`Tasks::new`] allocates all memory. The time to change one task doesn't depend on the number of tasks. Before each
/// change, the caller must log the old row with [`Tasks::log_row`]. A walk over the tasks costs one step for each task
/// that exists. Only [`Tasks::states`] reads all rows.
#[derive(Drop)]
pub struct Tasks {
    rows: Vec<Option<Task>>,
    /// For each number, the words of its task's frames. The words are made when the task falls asleep. So they needn't
    /// be made again when the task is logged or put back.
    frames: Vec<FrameWords>,
    /// The numbers in use. A walk over all tasks visits only these numbers.
    numbers: TaskNumbers,
}

impl Model for Tasks {
    ghost use Rattle.std.specs.Prelude.{◌≡◌, List, Option, map, vec_len};
    ghost use Rattle.klp_types.specs.declared.task.Task.{Task};
    ghost use Rattle.klp_types.specs.declared.limits.TheConstants.{MAX_TASKS};
    ghost use Rattle.klp_types.specs.Frames.{frames_of};
    ghost use Rattle.klp_tasks.specs.Numbers.{AreTaken};

    ghost Value = { List (Option Task) };

    ghost view = { λ t. t.rows.items };

    ghost invariant = { λ t. (vec_len t.rows ≡ MAX_TASKS) × (vec_len t.frames ≡ MAX_TASKS)
        × (t.frames.items ≡ map frames_of t.rows.items) × AreTaken t.numbers.bits t.rows.items };
}

/// Whether a task exists and isn't at the target yet. A number without a task never lags, so in an empty table every
/// transition can complete.
fn lags(row: &Option<Task>, target: bool) -> bool
    ensures { result ≡ lags target row.now }
{
    match row {
        None => false,
        Some(task) => task.state != target_state(target),
    }
}

/// Returns the patch state of a task that is at this target: 1 if the target is to run the patch, otherwise 0. The
/// result is never -1, which is the state outside of a transition.
pub fn target_state(target: bool) -> PatchState
    ensures { result ≡ at_target target }
{
    if target {
        PatchState::PATCHED
    } else {
        PatchState::UNPATCHED
    }
}

/// Whether a task sleeps, and isn't inside of a blocked version. False for a task that isn't asleep, since it isn't
/// known which functions the task is inside of.
fn is_free(task: &Task, blocked: &VersionSet) -> bool
    ensures { result ≡ (is_mode task.now.mode Asleep && not (list_any (has blocked.now) task.now.frames)) }
{
    task.mode == Mode::Asleep && !blocked.holds(&task.frames)
}

/// Whether a task already has this state. If so, nothing has to be changed or logged.
fn has_state(task: &Task, state: PatchState) -> bool
    ensures { result ≡ int_eq task.now.state state }
{
    task.state == state
}

/// Sets the stored words to the words of the frames in the row. A row without a task has no words.
fn set_words(words: &mut FrameWords, row: &Option<Task>)
    ensures { words.new ≡ frames_of row.now }
{
    match row {
        Some(task) => words.set(&task.frames),
        None => words.clear(),
    }
}

impl Tasks {
    /// Creates a table without tasks, with a row for each possible number. Returns `Err` if memory is refused.
    pub fn new(alloc: Global) -> Result<Self, AllocError>
        ensures { IfOk result (λ tasks. tasks ≡ replicate MAX_TASKS None) }
    {
        Ok(Self {
            rows: vec![in alloc; None; MAX_TASKS]?,
            frames: vec![in alloc; FrameWords::new(); MAX_TASKS]?,
            numbers: TaskNumbers::new(),
        })
    }

    /// Returns the task with this number. Returns `None` if there is no such task. No task has a number of
    /// [`MAX_TASKS`] or more.
    pub fn get(&self, task: TaskId) -> Option<&Task>
        ensures task { option_copied result ≡ task_at self.now task }
        ensures limit { length self.now ≡ MAX_TASKS }
    {
        self.rows.get(usize::from(task.0))?.as_ref()
    }

    /// Returns for each task number the task's patch state, as `/proc/<pid>/patch_state` shows it. An element is `None`
    /// if no task has the number. The call reads all rows.
    pub fn states(&self) -> ArrayVec<Option<i8>, MAX_TASKS>
        ensures { result.items ≡ map (option_map (λ (t : AnyTask). t.state)) self.now }
    {
        let mut states = ArrayVec::new();
        for row in &self.rows {
            states.push(match row {
                Some(task) => Some(task.state.number()),
                None => None,
            });
        }
        states
    }

    /// Returns how many tasks aren't at the target. A transition completes when this number is 0. The call reads no row
    /// without a task.
    pub fn lagging(&self, target: bool) -> u8
        ensures { result ≡ count_by (lags target) self.now }
    {
        let mut count = 0;
        let mut left = self.numbers;
        while let Some(number) = left.take_lowest() {
            if lags(&self.rows[usize::from(number)], target) {
                count += 1;
            }
        }
        count
    }

    /// Logs the row of a task number before the row changes. The row may have no task. The row is passed to the log by
    /// reference, so no copy is made before it is encoded.
    #[inline(always)]
    pub fn log_row(&self, task: TaskId, log: &mut Records)
        requires { 0 < spare_of log.old }
        ensures { log.new ≡ record log.old { logged = log.old.logged ++ record_of task (task_at self.now task) ∷ [] } }
    {
        match self.get(task) {
            Some(was) => log.note_task(task, was, self.words(task)),
            None => log.note(Record::NoTaskRow { task }),
        }
    }

    /// Adds a task, which runs in user space. The caller chooses the task's patch state, since the table doesn't know
    /// the transition.
    pub fn add(&mut self, task: TaskId, state: PatchState)
        requires number { task < MAX_TASKS }
        requires free { is_some (task_at self.old task) ≡ false }
        ensures { Changes self.old self.new task (record_of task (task_at self.old task))
            (with_task self.old task (Some (new_task state))) }
    {
        self.replace(
            task,
            Some(Task {
                state,
                mode: Mode::User,
                frames: Frames::new(),
            }),
        );
    }

    /// Adds the task `child`, which the task `parent` starts. The child gets its parent's patch state (the kernel's
    /// `klp_copy_process`). The child runs in the kernel, in the middle of the same functions as its parent.
    pub fn fork(&mut self, parent: TaskId, child: TaskId)
        requires there { is_some (task_at self.old parent) ≡ true }
        requires number { child < MAX_TASKS }
        requires free { is_some (task_at self.old child) ≡ false }
        ensures { Changes self.old self.new child (record_of child (task_at self.old child))
            (with_child self.old parent child) }
    {
        let state = self.there(parent).state;
        self.replace(
            child,
            Some(Task {
                state,
                mode: Mode::Kernel,
                frames: Frames::new(),
            }),
        );
    }

    /// Removes a task. From then on, another task can get its number.
    pub fn end(&mut self, task: TaskId)
        requires { is_some (task_at self.old task) ≡ true }
        ensures { Changes self.old self.new task (record_of task (task_at self.old task))
            (with_task self.old task None) }
    {
        self.replace(task, None);
    }

    /// Moves a task into the kernel. The task's patch state doesn't change, since a task switches when it leaves the
    /// kernel, not when it enters.
    #[inline(always)]
    pub fn enter(&mut self, task: TaskId)
        requires { is_some (task_at self.old task) ≡ true }
        ensures { Changes self.old self.new task (record_of task (task_at self.old task))
            (changed self.old task (λ (t : AnyTask). record t { mode = Kernel })) }
    {
        let Some(entered) = &mut self.rows[usize::from(task.0)] else {
            unreachable!();
        };
        entered.mode = Mode::Kernel;
    }

    /// Moves a task to user space, and switches it to the target of the transition, if there is one (kernel exit
    /// switching). In user space the task is inside of no function.
    #[inline(always)]
    pub fn leave(&mut self, task: TaskId, moving: Option<Transition>)
        requires { is_some (task_at self.old task) ≡ true }
        ensures { Changes self.old self.new task (record_of task (task_at self.old task))
            (changed self.old task (exited moving)) }
    {
        let Some(row) = &mut self.rows[usize::from(task.0)] else {
            unreachable!();
        };
        if let Some(moving) = moving {
            row.state = target_state(moving.target);
        }
        row.mode = Mode::User;
    }

    /// Puts a task to sleep inside of these frames. While the task sleeps, only these frames decide whether it can be
    /// switched.
    #[inline(always)]
    pub fn sleep(&mut self, task: TaskId, frames: Frames)
        requires { is_some (task_at self.old task) ≡ true }
        ensures { Changes self.old self.new task (record_of task (task_at self.old task))
            (changed self.old task (λ (t : AnyTask). record t { mode = Asleep; frames = frames })) }
    {
        let Some(row) = &mut self.rows[usize::from(task.0)] else {
            unreachable!();
        };
        row.mode = Mode::Asleep;
        row.frames = frames;
        self.frames[usize::from(task.0)].set(&frames);
    }

    /// Wakes a task, which then runs in the kernel. From then on, the task's frames aren't known.
    #[inline(always)]
    pub fn wake(&mut self, task: TaskId)
        requires { is_some (task_at self.old task) ≡ true }
        ensures { Changes self.old self.new task (record_of task (task_at self.old task))
            (changed self.old task (λ (t : AnyTask). record t { mode = Kernel; frames = [] })) }
    {
        let Some(row) = &mut self.rows[usize::from(task.0)] else {
            unreachable!();
        };
        row.mode = Mode::Kernel;
        row.frames = Frames::new();
        self.frames[usize::from(task.0)].clear();
    }

    /// Switches a sleeping task to the target if none of its frames is blocked (stack checking of sleeping tasks). If
    /// the task doesn't change, or if no task has the number, nothing is logged. The call reads only the task's frames.
    /// If the task is at the target, it reads no frame.
    pub fn switch_if_clear(
        &mut self,
        task: TaskId,
        blocked: &VersionSet,
        target: bool,
        log: &mut Records,
    )
        requires { 0 < spare_of log.old }
        ensures tasks { (versions : List AnyVersion) → IsSetOf blocked.now versions
            → self.new ≡ changed self.old task (switched versions target) }
        ensures logged { IsSwitchLogged self.old self.new task log.old log.new }
    {
        let state = target_state(target);
        let Some(row) = self.get(task) else {
            return;
        };
        // The patch state is checked first, since this costs less than reading the frames.
        if has_state(row, state) {
            return;
        }
        if !is_free(row, blocked) {
            return;
        }
        self.set_state(task, state, log);
    }

    /// Switches each sleeping task that isn't inside of a blocked version to the target (the kernel's
    /// `klp_try_switch_task`, for sleepers). Logs each task that changes, in the order of the task numbers. The call
    /// reads only the rows that have a task, and only the frames of sleepers that aren't at the target.
    pub fn try_all(&mut self, blocked: &VersionSet, target: bool, log: &mut Records)
        requires { length self.old ≤ spare_of log.old }
        ensures tasks { (versions : List AnyVersion) → IsSetOf blocked.now versions
            → self.new ≡ map (option_map (switched versions target)) self.old }
        ensures records { log.new ≡ record log.old { logged = log.old.logged ++ records_switched 0 self.old self.new } }
        ensures undo { undone self.new (records_switched 0 self.old self.new) ≡ self.old }
    {
        let mut left = self.numbers;
        while let Some(number) = left.take_lowest() {
            self.switch_if_clear(TaskId(number), blocked, target, log);
        }
    }

    /// Sets the patch state of every task, whatever the task is inside of. The states are set when a transition starts,
    /// when it ends, and when it is forced. Logs each task whose state changes, in the order of the task numbers. The
    /// call reads only the rows that have a task.
    pub fn set_all(&mut self, state: PatchState, log: &mut Records)
        requires { length (records_switched 0 self.old (all_in state self.old)) ≤ spare_of log.old }
        ensures tasks { self.new ≡ all_in state self.old }
        ensures records { log.new
            ≡ record log.old { logged = log.old.logged ++ records_switched 0 self.old (all_in state self.old) } }
        ensures undo { undone self.new (records_switched 0 self.old (all_in state self.old)) ≡ self.old }
    {
        let mut left = self.numbers;
        while let Some(number) = left.take_lowest() {
            self.set_state(TaskId(number), state, log);
        }
    }

    /// Restores the one row that the record names. A record of a number that no task can have changes nothing. A record
    /// of another part of the state changes nothing either. So every record can be passed to every part.
    pub fn put_back(&mut self, row: Record)
        ensures { self.new ≡ put_back self.old row }
    {
        match row {
            Record::TaskRow { task, was } => self.put(task, Some(was)),
            Record::NoTaskRow { task } => self.put(task, None),
            _ => {}
        }
    }

    /// Puts a task that is inside of nothing into the row of this number. `put_back` of the task's record has the same
    /// effect. A number that no task can have changes nothing. If the task in the row is already inside of nothing, its
    /// frames aren't written again.
    #[inline(always)]
    pub fn put_without_frames(&mut self, task: TaskId, state: PatchState, mode: Mode)
        ensures { self.new ≡ with_task self.old task (Some (record { state = state; mode = mode; frames = [] })) }
    {
        if self.has_no_frames(task) {
            self.put_switched(task, state, mode);
            return;
        }
        let was = Task {
            state,
            mode,
            frames: Frames::new(),
        };
        self.put(task, Some(was));
    }

    /// Whether there is a task with this number that is inside of nothing.
    #[inline(always)]
    fn has_no_frames(&self, task: TaskId) -> bool
        ensures { result ≡ true → (now : AnyTask) × ((task_at self.now task ≡ Some now) × (now.frames ≡ [])) }
    {
        match self.get(task) {
            Some(now) => now.frames.len() == 0,
            None => false,
        }
    }

    /// Removes the newest record from the log if it is of a task whose frames still have the same words as in the
    /// record. Returns the facts of that record that `put_switched` needs. If the call returns `None`, the log is
    /// unchanged, even if it ends with such a record.
    #[inline(always)]
    pub fn take_switched(&self, log: &mut Records) -> Option<SwitchedTask>
        ensures newest { IfSome result (λ was. (now : AnyTask) × ((task_at self.now was.task ≡ Some now)
            × (log.old ≡ with_switched log.new was now))) }
        ensures unchanged { IfNone result (log.new ≡ log.old) }
    {
        log.take_switched(&self.rows, &self.frames)
    }

    /// Restores the patch state and the mode of an existing task. If the frames didn't change, `put_back` of the task's
    /// record has the same effect.
    #[inline(always)]
    pub fn put_switched(&mut self, task: TaskId, state: PatchState, mode: Mode)
        requires { is_some (task_at self.old task) ≡ true }
        ensures { self.new ≡ changed self.old task (λ (t : AnyTask). record t { state = state; mode = mode }) }
    {
        let Some(row) = &mut self.rows[usize::from(task.0)] else {
            unreachable!();
        };
        row.state = state;
        row.mode = mode;
    }

    /// Returns a copy of a task. The precondition requires that the task exists, so the arm for a missing task is never
    /// reached.
    fn there(&self, task: TaskId) -> Task
        requires { is_some (task_at self.now task) ≡ true }
        ensures { task_at self.now task ≡ Some result }
    {
        match self.rows[usize::from(task.0)] {
            Some(row) => row,
            None => unreachable!(),
        }
    }

    /// Returns the words of an existing task's frames.
    #[inline(always)]
    fn words(&self, task: TaskId) -> &FrameWords
        requires { is_some (task_at self.now task) ≡ true }
        ensures { result.now ≡ frames_of (task_at self.now task) }
    {
        &self.frames[usize::from(task.0)]
    }

    /// Replaces the row of a number. Does nothing if no task can have the number, since the number has no row.
    fn put(&mut self, task: TaskId, row: Option<Task>)
        ensures { self.new ≡ with_task self.old task row }
    {
        let number = usize::from(task.0);
        if number < MAX_TASKS {
            self.numbers.set(task.0, row.is_some());
            set_words(&mut self.frames[number], &row);
            self.rows[number] = row;
        }
    }

    /// Replaces a row, as `put` does. In addition, the contract says that the record of the old row undoes the change.
    fn replace(&mut self, task: TaskId, row: Option<Task>)
        ensures { Changes self.old self.new task (record_of task (task_at self.old task))
            (with_task self.old task row) }
    {
        self.put(task, row);
    }

    /// Sets a task's patch state, if the task exists. Logs the old row if the state changes, since an unchanged row has
    /// no record. The row is passed to the log by reference, so no copy is made before it is encoded. `set_all` calls
    /// this function for every task, and most tasks have the state already.
    #[inline(always)]
    fn set_state(&mut self, task: TaskId, state: PatchState, log: &mut Records)
        requires { is_some (record_if_switched task (task_at self.old task)
            (task_at (changed self.old task (in_state state)) task)) ≡ true → 0 < spare_of log.old }
        ensures tasks { self.new ≡ changed self.old task (in_state state) }
        ensures logged { IsSwitchLogged self.old self.new task log.old log.new }
    {
        let Some(was) = self.get(task) else {
            return;
        };
        if has_state(was, state) {
            return;
        }
        log.note_task(task, was, self.words(task));
        self.put_state(task, state);
    }

    /// Sets the patch state of an existing task, without logging.
    fn put_state(&mut self, task: TaskId, state: PatchState)
        requires { is_some (task_at self.old task) ≡ true }
        ensures { self.new ≡ changed self.old task (in_state state) }
    {
        let Some(row) = &mut self.rows[usize::from(task.0)] else {
            unreachable!();
        };
        row.state = state;
    }
}
