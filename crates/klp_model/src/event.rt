use klp_types::{Frames, ObjId, PatchId, ShadowKey, ShadowValue, TaskId};
use std::{error, fmt};

/// What may happen to the manager. Each event is one atomic step: no one sees callbacks, entries and tasks while only a
/// part of the event is done.
#[derive(Clone, Copy)]
pub enum Event {
    /// A patch is loaded and enabled: its transition starts (the kernel's `klp_enable_patch`). In a kernel, loading and
    /// enabling happen together too, since a patch module enables its patch when it is loaded.
    Enable(PatchId),
    /// A value is written to the `enabled` file of an installed patch. The event reverses the patch's transition or
    /// disables the patch (the kernel's `enabled_store`).
    SetEnabled(PatchId, bool),
    /// All tasks are switched to the target of the patch in transition, whatever they are inside of (the kernel's
    /// `klp_force_transition`).
    Force(PatchId),
    /// The transition is tried once more. It completes if all tasks are at the target. A kernel does this every second
    /// without being asked (`klp_transition_work_fn`).
    Poll,
    /// A module is loaded (the kernel's `klp_module_coming`), and the installed patches are applied to it.
    Coming(ObjId),
    /// A module is unloaded (the kernel's `klp_module_going`). The event is refused while a task sleeps inside of the
    /// module.
    Going(ObjId),
    /// A new task begins, in user space. During a transition the task is at the target from the beginning, since it
    /// runs no old code.
    NewTask(TaskId),
    /// The first task, which is in the kernel, starts the second task. The second task gets the first one's patch state
    /// (the kernel's `klp_copy_process`).
    Fork(TaskId, TaskId),
    /// A task ends. From then on the task blocks no transition.
    EndTask(TaskId),
    /// A task enters the kernel. Its patch state doesn't change, so its calls run the same versions as before.
    EnterKernel(TaskId),
    /// A task returns to user space. This switches the task to the target of the transition (the kernel's
    /// `klp_update_patch_state`).
    ExitToUser(TaskId),
    /// A task falls asleep inside of these functions. The functions decide whether the task can be switched while it
    /// sleeps.
    Sleep(TaskId, Frames),
    /// A task wakes up and runs in the kernel again. From then on its frames aren't known.
    Wake(TaskId),
    /// Adds a shadow variable with this value (`klp_shadow_alloc`).
    ShadowAlloc(ShadowKey, ShadowValue),
    /// Asks for the value of a shadow variable. If the variable doesn't exist, it is first added with this value
    /// (`klp_shadow_get_or_alloc`).
    ShadowGetOrAlloc(ShadowKey, ShadowValue),
    /// Removes a shadow variable (`klp_shadow_free`).
    ShadowFree(ShadowKey),
    /// Removes the shadow variables of this id, whatever their parent objects (`klp_shadow_free_all`).
    ShadowFreeAll(u64),
}

/// The reply to an accepted event. An accepted event may still have failed, as `PreFailed` shows.
#[derive(Clone, Copy, Debug)]
pub enum Reply {
    /// The event had its effect, and there is nothing else to report.
    Done,
    /// A transition started. Polls will complete it.
    Started,
    /// The transition was reversed. No callback ran, and the tasks keep their patch states.
    Reversed,
    /// This many tasks aren't at the target yet, so the transition goes on.
    Pending(u8),
    /// The transition to this target is complete. If the target is true, the patch is fully enabled. If it is false,
    /// the patch isn't installed any more.
    Completed(bool),
    /// The pre-patch callback of this patch for this object returned this status, which isn't 0. So the patch isn't
    /// installed if it was being enabled, and the module isn't loaded if it was being loaded.
    PreFailed(PatchId, ObjId, i32),
    /// The value of the shadow variable. If the variable existed, this is its old value. Otherwise it is the value with
    /// which the variable was added.
    Value(ShadowValue),
    /// How many shadow variables were removed. If there were none, the number is 0, which is no error.
    Freed(u16),
    /// The functions that the task was inside of when it slept, innermost last. After the event these functions aren't
    /// known any more.
    Woken(Frames),
}

/// Why an event is refused. The numbers never change. The console shows other numbers, like Linux's (docs/CONSOLE.md).
#[derive(Clone, Copy, Debug)]
pub enum Refusal {
    /// The catalog has no patch with this number. This is checked first, since the other checks need to know the patch.
    NoPatch = 1,
    /// Another patch is in transition. At most one patch can be in transition, since a task's patch state says only
    /// whether the task is at the target.
    Busy = 2,
    /// The patch is already installed, or the module is already loaded.
    AlreadyThere = 3,
    /// The patch is pinned: it was forced out, or it was installed when a cumulative patch was forced in. A task may
    /// still be inside of the functions of a pinned patch. So the patch can't be enabled again.
    Pinned = 4,
    /// The patch isn't compatible with the system states of the installed patches.
    Incompatible = 5,
    /// A function names no symbol of its object, or several symbols. It is either a function of the patch for a loaded
    /// object, or a function of an installed patch for the module that is being loaded.
    NoSymbol = 6,
    /// There is no module with this number, or the module isn't loaded and so can't be unloaded. `vmlinux` isn't a
    /// module.
    NoModule = 7,
    /// A sleeping task is inside of the module. If the module were unloaded, the task would wake up in code that
    /// doesn't exist any more.
    InUse = 8,
    /// There is no task with this number. Or the event would begin a task with a number above 63, which no task can
    /// have.
    NoTask = 9,
    /// A task with this number exists already. A number belongs to one task until that task ends.
    TaskThere = 10,
    /// The task is in the wrong mode for the event: for example, only a task in the kernel can fall asleep, and
    /// only a sleeper can wake.
    WrongMode = 11,
    /// A frame names a function that doesn't exist. Its site isn't in the image, or its new function isn't in the
    /// catalog. The function's object needn't be loaded.
    BadFrame = 12,
    /// There is no room for another shadow variable, or not for all variables that the event's callbacks may add. The
    /// room is checked before the first callback, so that no event stops half way.
    Full = 13,
    /// The journal has no room for another event. Such an event couldn't be undone, so it is refused.
    JournalFull = 14,
    /// No patch is in transition, or another patch is.
    NotMoving = 15,
    /// The shadow variable that the event should add exists already, and keeps its value.
    Exists = 16,
    /// The patch isn't installed. So it has no `enabled` file, and no transition of it can be forced.
    NotFound = 17,
    /// The `enabled` file has this value already. The kernel refuses to write the same value too (`enabled_store`).
    SameValue = 18,
}

/// Prints the refusal's name, as `Debug` does. So there is only one table of refusal names.
impl fmt::Display for Refusal {
    fn fmt<W: fmt::Write>(&self, f: &mut fmt::Formatter<W>) -> fmt::Result {
        fmt::Debug::fmt(self, f)
    }
}

impl error::Error for Refusal {}
