ghost use Rattle.std.specs.Prelude.{◌≡◌, [], Bool, replicate, slice_set};
ghost use Rattle.std.specs.List.{list_any};
ghost use Rattle.klp_types.specs.declared.limits.TheConstants.{MAX_TASKS};
ghost use Rattle.klp_types.specs.declared.version.Version.{Version as AnyVersion};
ghost use Rattle.klp_model.specs.Frames.{is_object, object_of_version};
ghost use Rattle.klp_manager_state.specs.Managed.{setting_of};
ghost use Rattle.klp_watch.specs.Inside.{frames_at, are_in};

use klp_core::Manager;
use klp_types::{Frames, MAX_TASKS, ObjId, TaskId, Version};

/// The versions that each task is inside of, by the task's number. These are the versions that the task called and from
/// which it hasn't returned. The size is fixed, so watching allocates nothing.
#[derive(Drop)]
pub(crate) struct Inside {
    rows: [Frames; MAX_TASKS],
}

impl Inside {
    /// Makes the value in which no task is inside of any function.
    pub(crate) fn new() -> Self
        ensures { result.rows ≡ replicate MAX_TASKS [] }
    {
        Self {
            rows: [Frames::new(); MAX_TASKS],
        }
    }

    /// Returns the versions that a task is inside of, innermost last. The result is empty for a number that no task can
    /// have.
    pub(crate) fn frames(&self, task: TaskId) -> Frames
        ensures { result ≡ frames_at self.now.rows task }
    {
        match self.rows.get(usize::from(task.0)) {
            Some(frames) => *frames,
            None => Frames::new(),
        }
    }

    /// Stores that a task is inside of these versions from now on. Does nothing for a number that no task can have.
    pub(crate) fn put(&mut self, task: TaskId, frames: Frames)
        ensures { self.new.rows ≡ slice_set self.old.rows task frames }
    {
        let task = usize::from(task.0);
        if task < MAX_TASKS {
            self.rows[task] = frames;
        }
    }

    /// Whether any task is inside of a version that is in this object, innermost or not. Checks all versions of all
    /// tasks.
    pub(crate) fn is_entered(&self, manager: &Manager, object: ObjId) -> bool
        ensures { result ≡ list_any (are_in (setting_of manager.now.managed) object) self.now.rows }
    {
        for frames in &self.rows {
            if are_in(manager, object, frames.as_slice()) {
                return true;
            }
        }
        false
    }
}

/// Whether any of these versions, which one task is inside of, is in the object.
fn are_in(manager: &Manager, object: ObjId, frames: &[Version]) -> bool
    ensures { result ≡ are_in (setting_of manager.now.managed) object frames.now }
{
    for version in frames {
        if is_in(manager, object, *version) {
            return true;
        }
    }
    false
}

/// Whether a version is in the object. The result is false for a version that neither the image nor the catalog has.
fn is_in(manager: &Manager, object: ObjId, version: Version) -> bool
    ensures { result ≡ is_object object (object_of_version (setting_of manager.now.managed) version) }
{
    match manager.object_of(version) {
        Some(own) => own == object,
        None => false,
    }
}
