//! The facts that a manager shows of its state. Each result is a definition applied to the state, and no call changes
//! anything.
ghost use Rattle.std.specs.Prelude.{◌≡◌, ◌≤◌, ◌==◌, ◌&&◌, length, None, Some, is_some, option_map, option_and_then};
ghost use Rattle.std.specs.Prelude.{if◌then◌else◌};
ghost use Rattle.std.specs.List.{list_any};
ghost use Rattle.klp_types.specs.declared.task.Task.{Task as AnyTask};
ghost use Rattle.klp_types.specs.declared.limits.TheConstants.{MAX_TASKS};
ghost use Rattle.klp_types.specs.Setting.{state_ids};
ghost use Rattle.klp_types.specs.World.{variable, state_value};
ghost use Rattle.klp_types.specs.Pick.{moves};
ghost use Rattle.klp_world.specs.Parents.{IsNextParent, lowest_above};
ghost use Rattle.klp_model.specs.State.{is_installed, installed_patches};
ghost use Rattle.klp_model.specs.Task.{task_at};
ghost use Rattle.klp_types.specs.Frames.{frames_of};
ghost use Rattle.klp_model.specs.Frames.{object_of_version};
ghost use Rattle.klp_model.specs.Bytes.{text_of};
ghost use Rattle.klp_model.specs.Entries.{entries_of};
ghost use Rattle.klp_model.specs.Refusals.{enabled_value};
ghost use Rattle.klp_modules.specs.Names.{names_of};
ghost use Rattle.klp_catalog.specs.Runs.{objects_at, place_of, script_at, callback_runs};
ghost use Rattle.klp_manager_state.specs.Managed.{setting_of};
ghost use Rattle.klp_core.specs.Events.{may_run_some};

use crate::manager::Manager;
use crate::take::refused;
use crate::text_view::TextView;
use arrayvec::ArrayVec;
use klp_catalog::Catalog;
use klp_model::Event;
use klp_modules::Modules;
use klp_patch_events::may_run;
use klp_types::{
    Entry, Frames, MAX_PATCHES, Mode, ObjId, PatchId, ShadowKey, ShadowValue, Site, TaskId,
    Transition, Version, Which,
};

impl Manager {
    /// Returns the text of an object as a processor would run it. Returns `None` if the object isn't loaded. The text
    /// is borrowed, since it may have 64 KiB.
    pub fn text(&self, object: ObjId) -> Option<TextView<'_>>
        ensures { result ≡ text_of (setting_of self.now.managed) self.now.managed.state object }
    {
        if self.state.modules.is_loaded(object) {
            Some(TextView::new(self.state.sites.image(), object))
        } else {
            None
        }
    }

    /// Returns the function stack of a site, newest entry first. The result is empty if there is no such site. It is
    /// also empty if the site's object isn't loaded, since an object that isn't loaded has no entries.
    pub fn stack(&self, site: Site) -> ArrayVec<Entry, MAX_PATCHES>
        ensures { result.items ≡ entries_of (setting_of self.now.managed) self.now.managed.state site }
    {
        self.state.sites.stacks().entries(site)
    }

    /// Returns a copy of the list of installed patches, oldest first. A caller can go over the copy while it does
    /// events.
    pub fn installed(&self) -> ArrayVec<PatchId, MAX_PATCHES>
        ensures { result.items ≡ installed_patches self.now.managed.state }
    {
        self.state.world.installed_list()
    }

    /// Returns the value that the `enabled` file of a patch reads: false while the patch is in transition to target 0,
    /// otherwise true. Returns `None` if the patch isn't installed, since such a patch has no `enabled` file.
    pub fn enabled(&self, patch: PatchId) -> Option<bool>
        ensures { result ≡ (if is_installed self.now.managed.state patch then Some
            (enabled_value self.now.managed.state patch) else None) }
    {
        if !self.state.world.is_installed(patch) {
            return None;
        }
        Some(self.state.enabled_value(patch))
    }

    /// Returns whether the patch is in transition, as its `transition` file reads. Returns `None` if the patch isn't
    /// installed.
    pub fn transition(&self, patch: PatchId) -> Option<bool>
        ensures { result ≡ (if is_installed self.now.managed.state patch then Some
            (moves self.now.managed.state.moving patch) else None) }
    {
        if !self.state.world.is_installed(patch) {
            return None;
        }
        match self.state.moving {
            Some(moving) => Some(moving.patch == patch),
            None => Some(false),
        }
    }

    /// Returns the patch state of a task (`/proc/<pid>/patch_state`). The state is -1 if there is no transition.
    /// Returns `None` if there is no such task.
    #[inline(always)]
    pub fn patch_state(&self, task: TaskId) -> Option<i8>
        ensures { result ≡ option_map (λ (t : AnyTask). t.state) (task_at self.now.managed.state.tasks task) }
    {
        let row = self.state.tasks.get(task)?;
        Some(row.state.number())
    }

    /// Returns the mode of a task: in user space, in the kernel, or asleep. Returns `None` if there is no such task.
    pub fn mode(&self, task: TaskId) -> Option<Mode>
        ensures mode { result ≡ option_map (λ (t : AnyTask). t.mode) (task_at self.now.managed.state.tasks task) }
        ensures rows { length self.now.managed.state.tasks ≡ MAX_TASKS }
    {
        let row = self.state.tasks.get(task)?;
        Some(row.mode)
    }

    /// Returns the versions that a sleeping task is inside of, outermost first. For a task that isn't asleep the result
    /// is empty, since the task's frames aren't known. The result is also empty for a number without a task.
    pub fn frames(&self, task: TaskId) -> Frames
        ensures { result ≡ frames_of (task_at self.now.managed.state.tasks task) }
    {
        match self.state.tasks.get(task) {
            Some(row) => row.frames,
            None => Frames::new(),
        }
    }

    /// Returns the patch in transition with its target. Returns `None` if there is no transition.
    pub fn moving(&self) -> Option<Transition>
        ensures { result ≡ self.now.managed.state.moving }
    {
        self.state.moving
    }

    /// Returns the object that a version is in. For an original, this is the object of its site. For a new function, it
    /// is the function's object. Returns `None` if neither the image nor the catalog has the version.
    pub fn object_of(&self, version: Version) -> Option<ObjId>
        ensures { result ≡ object_of_version (setting_of self.now.managed) version }
    {
        self.state.object_of(&self.catalog, version)
    }

    /// Returns the value of a shadow variable (`klp_shadow_get`). Returns `None` if the variable doesn't exist. Nothing
    /// changes, so this call is no event.
    pub fn shadow_get(&self, key: ShadowKey) -> Option<ShadowValue>
        ensures { result ≡ variable self.now.managed.state.world key }
    {
        self.state.world.get(key)
    }

    /// Returns the lowest address of a parent object that is above `after` and has a shadow variable of this id. If
    /// `after` is `None`, returns the lowest address of a parent object that has one. Returns `None` if there is no
    /// such parent object. To visit all variables of an id, a caller passes each result to the next call.
    pub fn next_parent(&self, id: u64, after: Option<u64>) -> Option<u64>
        ensures { IsNextParent self.now.managed.state.world.shadow id (lowest_above after) result }
    {
        self.state.world.next_parent(id, after)
    }

    /// Returns the value of a system state of an installed patch. Returns `None` if the patch isn't installed or
    /// doesn't name the state. In these cases a kernel returns no data (`klp_get_state`).
    pub fn state_of(&self, patch: PatchId, id: u64) -> Option<u64>
        ensures value { result ≡ state_value self.now.managed.state.world patch id }
        // the existing states are exactly those that the catalog gives to installed patches
        ensures there { is_some result
            ≡ (is_installed self.now.managed.state patch
            && list_any (λ own. own == id) (state_ids (setting_of self.now.managed) patch)) }
    {
        klp_model::laws::installed_patches_have_their_states();
        self.state.world.value(patch, id)
    }

    /// Returns how often a callback of a patch ran, by its object and its kind. Returns `None` if the patch has no such
    /// callback. The count stops at the greatest number of 64 bits. `rewind` doesn't change the count, since the runs
    /// that it undoes did happen.
    pub fn callback_runs(&self, patch: PatchId, object: ObjId, which: Which) -> Option<u64>
        ensures runs { result ≡ callback_runs self.now.managed.catalog patch object which }
        ensures there { is_some result
            ≡ is_some (option_and_then (λ place. script_at self.now.managed.catalog patch place which)
            (place_of object (objects_at self.now.managed.catalog patch))) }
    {
        self.catalog.callback_runs(patch, object, which)
    }

    /// Whether an event might run a callback now. This is so if nothing refuses the event, and one of the callbacks
    /// that it might run exists. If the result is false, the event runs no callback
    /// (`laws::what_may_not_run_does_not`). The cost grows with the number of objects of the event's patch. For an
    /// event of a module, it grows with the number of objects of all installed patches. If such a callback exists, the
    /// event is also checked for refusals.
    pub fn may_run(&self, event: &Event) -> bool
        ensures { result ≡ may_run_some (setting_of self.now.managed) self.now.managed.state event.now }
    {
        may_run(&self.state, &self.catalog, event)
            && refused(&self.state, &self.catalog, event).is_none()
    }

    /// Returns the catalog with which the manager was booted, with the present counts of runs. The catalog is borrowed
    /// only for reading, since a callback that ran outside of an event couldn't be undone.
    pub fn catalog(&self) -> &Catalog
        ensures catalog { result.now ≡ self.now.managed.catalog }
        // since the names are equal, the catalog's sites are those of the image
        ensures names { self.now.managed.catalog.names ≡ names_of self.now.managed.image.objects }
    {
        &self.catalog
    }

    /// Returns the names of the image's objects and symbols, and which objects are loaded. With these names, the names
    /// in lines of the console are resolved.
    pub fn modules(&self) -> &Modules
        ensures { result.now
            ≡ record { names = names_of self.now.managed.image.objects; loaded = self.now.managed.state.loaded } }
    {
        &self.state.modules
    }
}
