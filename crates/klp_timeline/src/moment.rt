use crate::task_list::TaskList;
use arrayvec::ArrayVec;
use klp_types::{MAX_PATCHES, MAX_TASKS, Mode, ObjId, PatchId, TaskId, Transition, Version};

/// A stay of a task: the version inside of which the task sleeps, and why this matters.
#[derive(Clone, Copy)]
pub enum Stay {
    /// The task sleeps in this version, which the transition blocks, and isn't at the target. So the transition can't
    /// complete.
    Holds(Transition, Version),
    /// The task sleeps in this version, but its calls would run another version now. There are two possible reasons.
    /// The version was replaced while the task slept, which only a force does. Or the task was put to sleep in a
    /// version that its calls don't run yet.
    Outdated(Version),
}

/// The state that the manager shows after a line. The arrays have an element for each task number.
#[derive(Drop)]
pub struct View {
    pub moving: Option<Transition>,
    /// The installed patches, oldest first.
    pub installed: ArrayVec<PatchId, MAX_PATCHES>,
    pub stays: [Option<Stay>; MAX_TASKS],
    /// The modes of the tasks that lag without blocking the transition.
    pub waits: [Option<Mode>; MAX_TASKS],
}

/// A fact: something that a line did.
#[derive(Clone, Copy)]
pub enum Fact {
    /// The transition was forced.
    Forces(Transition),
    /// The pre-patch callback of this patch for this object returned this status. So the event had no other effect.
    PreFailed(PatchId, ObjId, i32),
    /// The module was loaded.
    Comes(ObjId),
    /// The module was unloaded.
    Goes(ObjId),
    /// Events were undone. The first number is how many events the journal had before, and the second is how many it
    /// has afterwards.
    Undoes(u32, u32),
    Starts(Transition),
    /// The transition was reversed. The field is the reversed transition.
    Reverses(Transition),
    /// The transition completed. Afterwards this many tasks still sleep inside of code that their calls wouldn't run.
    Completes(Transition, usize),
    /// The patch isn't installed any more, since a cumulative patch replaced it.
    Leaves(PatchId),
}

/// A line of a run.
#[derive(Drop)]
pub struct Moment {
    /// The effect of the line, if the views before and after don't show it.
    pub act: Option<Fact>,
    pub view: View,
}

/// A task whose stay begins with a line.
#[derive(Clone, Copy)]
pub(crate) struct Sleep {
    pub task: TaskId,
    pub stay: Stay,
    /// The last line of the stay. `None` if the stay lasts until the end of the run.
    pub to: Option<u64>,
}

/// Tasks with the same stay, which begins with the same line and ends with the same line for all of them.
#[derive(Drop)]
pub struct Sleepers {
    pub stay: Stay,
    /// The tasks. There is at least one.
    pub tasks: TaskList,
    /// The last line of the stay. `None` if the stay lasts until the end of the run.
    pub to: Option<u64>,
}

/// The content of a sentence.
#[derive(Drop)]
pub enum Said {
    /// A fact of the line.
    Did(Fact),
    /// Tasks whose stay begins with this line.
    Slept(Sleepers),
}

/// A sentence about a run.
#[derive(Drop)]
pub struct Sentence {
    /// The line with which the sentence begins. Lines are counted from 1.
    pub line: u64,
    pub said: Said,
}
