use crate::number::{ObjId, PatchId, Site};
use crate::shadow::{ShadowKey, ShadowValue};
use crate::task::{Task, TaskId};
use crate::version::Transition;

/// What one row of the state was before a change. Putting the record back undoes the change of that row. If the row
/// didn't exist, the record has `None` or is of a separate kind. Putting such a record back removes the row.
#[derive(Clone, Copy)]
pub enum Record {
    /// A shadow variable that existed.
    ShadowVariable {
        key: ShadowKey,
        was: ShadowValue,
    },
    /// A shadow variable that didn't exist. Putting this record back removes the variable. The reason why
    /// `ShadowVariable` and this are two kinds is explained at `TaskRow`.
    NoShadowVariable {
        key: ShadowKey,
    },
    /// The value of a system state of an installed patch. Such a change neither adds nor removes the row, so the record
    /// has no `None`.
    StateValue {
        patch: PatchId,
        id: u64,
        was: u64,
    },
    /// A system state of a patch. The record has the state's value, or `None` if the patch didn't have the state. The
    /// row of a state is added and removed together with the installed patch.
    StateRow {
        patch: PatchId,
        id: u64,
        was: Option<u64>,
    },
    /// The index of an installed patch, counted from the oldest, from 0. `None` if the patch wasn't installed.
    InstalledPatch {
        patch: PatchId,
        place: Option<u8>,
    },
    /// Whether an object was loaded. The image and the names each have such a flag. Both restore their own flag from
    /// this record.
    LoadedFlag {
        object: ObjId,
        was: bool,
    },
    /// The entry of a patch on the function stack of a site. `None` if the patch had no entry there.
    StackEntry {
        site: Site,
        patch: PatchId,
        was: Option<Place>,
    },
    /// Whether a site was hooked. A change of the hook is logged like that of any row, but putting the record back
    /// changes nothing. A site is hooked exactly while it has entries. So the record of the entry restores the hook.
    HookFlag {
        site: Site,
        was: bool,
    },
    /// A task that existed. `TaskRow` and `NoTaskRow` are two kinds because a value of an enum can't be passed on if
    /// the enum contains an option of such a struct (docs/DECISIONS.md, "Two kinds of record for a row that may be
    /// missing"). For the same reason there are two kinds for a shadow variable, and two for the transition.
    TaskRow {
        task: TaskId,
        was: Task,
    },
    /// A number that no task had. Putting this record back removes the task that has the number now.
    NoTaskRow {
        task: TaskId,
    },
    /// The patch that was in transition, and its target.
    Moving {
        was: Transition,
    },
    /// No patch was in transition. Putting this record back ends the transition that the event began.
    NothingMoving,
    /// Whether a patch was pinned. Putting this record back unpins a patch that a forced transition pinned.
    PinnedFlag {
        patch: PatchId,
        was: bool,
    },
}

/// The position of an entry on a function stack, and the function that the entry has. The record that contains a
/// `Place` names the patch and the site.
#[derive(Clone, Copy)]
pub struct Place {
    /// The entry's index, counted from the oldest entry, from 0. The index isn't counted from the newest entry, since
    /// the number of newer entries may have changed when the entry is put back.
    pub index: u8,
    /// The patch's function. `None` is a nop, and the entry is put back as a nop.
    pub func: Option<u16>,
}
