//! The object that a sleeping task is inside of. A module can't be unloaded while a task sleeps inside of it.
ghost use Rattle.std.specs.Prelude.{◌≡◌, ◌<◌, ◌==◌, ◌&&◌, true, false, length, option_map, slice_get, Some, None};
ghost use Rattle.std.specs.List.{list_any};
ghost use Rattle.klp_model.specs.Frames.{is_inside, is_object, object_of_version};
ghost use Rattle.klp_model.specs.Task.{task_at};
ghost use Rattle.klp_modules.specs.Names.{Named, symbol_at_site};
ghost use Rattle.klp_catalog.specs.Catalog.{CatalogFunction as FunctionOf, catalog_functions};
ghost use Rattle.klp_manager_state.specs.Managed.{setting_in};
ghost use Rattle.klp_manager_state.specs.Invariant.{Invariant};

use crate::state::ManagerState;
use klp_catalog::Catalog;
use klp_types::{Frames, MAX_TASKS, Mode, ObjId, PatchId, Site, TaskId, Version};

/// Returns the object of a patch's function. Returns `None` if the patch has no function with this number. The object
/// is read from the catalog, since a function may have no site.
fn object_of_function(catalog: &Catalog, patch: PatchId, number: u16) -> Option<ObjId>
    ensures { result ≡ option_map (λ (f : FunctionOf). f.object) (slice_get
        (catalog_functions catalog.now patch) number) }
{
    let function = catalog.functions(patch).get(usize::from(number))?;
    Some(function.object())
}

impl ManagerState {
    /// Whether a task sleeps inside of the module: in one of the module's functions, or in a new function for one of
    /// these. Unloading the module would remove all such functions. The call checks each frame of each task.
    pub fn is_in_use(&self, catalog: &Catalog, object: ObjId) -> bool
        requires { Invariant self.now catalog.now }
        ensures { result ≡ list_any (is_inside (setting_in self.now catalog.now) object) self.now.tasks }
    {
        for number in 0..MAX_TASKS as u8 {
            if self.is_inside(catalog, object, TaskId(number)) {
                return true;
            }
        }
        false
    }

    /// Whether this task sleeps inside of the module. False for a task that doesn't sleep, since the state has no
    /// frames for it.
    fn is_inside(&self, catalog: &Catalog, object: ObjId, task: TaskId) -> bool
        requires { Invariant self.now catalog.now }
        ensures value { result ≡ is_inside (setting_in self.now catalog.now) object (task_at self.now.tasks task) }
        ensures rows { length self.now.tasks ≡ MAX_TASKS }
    {
        match self.tasks.get(task) {
            Some(row) => {
                row.mode == Mode::Asleep && self.has_inside(catalog, object, &row.frames)
            }
            None => false,
        }
    }

    /// Whether one of these frames is in the object. A task may be inside of several objects at once.
    fn has_inside(&self, catalog: &Catalog, object: ObjId, frames: &Frames) -> bool
        requires { Invariant self.now catalog.now }
        ensures { result
            ≡ list_any (λ v. is_object object (object_of_version (setting_in self.now catalog.now) v)) frames.now }
    {
        let versions = frames.as_slice();
        for version in versions {
            if self.lies_in(catalog, object, *version) {
                return true;
            }
        }
        false
    }

    /// Whether a version is in the object. False if neither the image nor the catalog has the version.
    fn lies_in(&self, catalog: &Catalog, object: ObjId, version: Version) -> bool
        requires { Invariant self.now catalog.now }
        ensures { result ≡ is_object object (object_of_version (setting_in self.now catalog.now) version) }
    {
        match self.object_of(catalog, version) {
            Some(own) => own == object,
            None => false,
        }
    }

    /// Returns the object that a version is in. For an original, this is the object of its site. For a new function, it
    /// is the function's object. Returns `None` if neither the image nor the catalog has the version.
    pub fn object_of(&self, catalog: &Catalog, version: Version) -> Option<ObjId>
        requires { Invariant self.now catalog.now }
        ensures { result ≡ object_of_version (setting_in self.now catalog.now) version }
    {
        match version {
            Version::Original(site) => self.object_of_site(site),
            Version::New(patch, function) => object_of_function(catalog, patch, function),
        }
    }

    /// Returns the object of a site. Returns `None` if the image has no such site. The site is looked up in the table
    /// of names.
    fn object_of_site(&self, site: Site) -> Option<ObjId>
        ensures { result ≡ option_map (λ (s : Named). s.object) (symbol_at_site self.now.modules.names site) }
    {
        match self.modules.symbol(site) {
            Some((object, ..)) => Some(object),
            None => None,
        }
    }
}
