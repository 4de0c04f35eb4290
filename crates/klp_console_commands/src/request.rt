//! What a line asks for, with numbers in place of names. So the code that reads a line passes only plain values to the
//! code that does the request.

use klp_model::Event;
use klp_types::{ObjId, PatchId, ShadowKey, Site, TaskId};

/// What a line asks for. A request has numbers in place of names, so that the manager needs no names.
#[derive(Clone, Copy)]
pub enum Request {
    /// Do an event. The event may still be refused.
    Take(Event),
    /// Write 0 to the `force` file of a patch, which does nothing. The line fails if the file doesn't exist, so it is
    /// still a request.
    ForceNothing(PatchId),
    /// Undo all accepted events except the first ones, and this is how many first events stay. The manager checks
    /// whether it has that many events.
    Rewind(u32),
    /// Empty the journal, so that no earlier event can be undone.
    Seal,
    /// Show something. A query changes nothing, so it needs no room in the journal.
    Ask(Query),
}

/// What a line asks for, in a few bytes. An event may have a sleeper's frames, so it is large. The event is stored
/// separately, so that no line has the cost of moving it (docs/DECISIONS.md, "An event beside its line").
#[derive(Clone, Copy)]
pub enum Asked {
    /// [`Request::Take`] of the event that is stored separately.
    Take,
    /// [`Request::ForceNothing`].
    ForceNothing(PatchId),
    /// [`Request::Rewind`].
    Rewind(u32),
    /// [`Request::Seal`].
    Seal,
    /// [`Request::Ask`].
    Ask(Query),
}

/// What a line asks to see. A query changes nothing, so it is no event and can't be undone.
#[derive(Clone, Copy)]
pub enum Query {
    /// What the `enabled` file of a patch reads. It reads 0 while the patch is in transition to target 0, otherwise 1.
    Enabled(PatchId),
    /// What the `transition` file of a patch reads. It reads 1 while the patch is in transition, otherwise 0.
    Transition(PatchId),
    /// What the `patch_state` file of a task reads: -1, 0 or 1.
    PatchState(TaskId),
    /// The installed patches, oldest first. The directory of all patches lists them in this order.
    Patches,
    /// The contents of a patch's directory: its files, and a directory for each object that the patch changes.
    Patch(PatchId),
    /// The contents of an object's directory in a patch's directory: the functions of the object that the patch
    /// changes.
    Object(PatchId, ObjId),
    /// The value of a shadow variable, if it exists.
    Variable(ShadowKey),
    /// The text of an object. The object must be loaded.
    Text(ObjId),
    /// The function stack of a symbol, newest entry first.
    Stack(Site),
    /// What a task runs when it calls a symbol, and the address where this code begins.
    Pick(TaskId, Site),
    /// How often the callbacks of a patch for an object ran. The patch needn't be installed.
    Runs(PatchId, ObjId),
    /// How many accepted events the journal has, for a later `rewind`.
    Mark,
}
