//! Comparing what a kernel showed with the state of a manager.
ghost use Rattle.std.specs.Prelude.{◌≡◌, ◌↔◌, IsTrue, true, Some, option_map};
ghost use Rattle.klp_types.specs.declared.task.Task.{Task as AnyTask};
ghost use Rattle.klp_types.specs.declared.version.Target.{Target as AnyTarget};
ghost use Rattle.klp_model.specs.Entries.{is_site_loaded, is_hooked};
ghost use Rattle.klp_model.specs.Pick.{pick};
ghost use Rattle.klp_model.specs.Task.{task_at};
ghost use Rattle.klp_manager_state.specs.Managed.{setting_of};
ghost use Rattle.klp_watch.specs.Compared.{files_of, Shows, other_than};

use crate::difference::Difference;
use crate::observed::{PatchFiles, Sight};
use klp_core::Manager;
use klp_types::{PatchId, PatchState, Site, TaskId, Version};

/// Whether the manager's state shows what the kernel showed. The cost is that of a look-up. For a patch, the list of
/// installed patches is searched too.
pub fn holds_in_state(manager: &Manager, sight: &Sight) -> bool
    ensures { IsTrue result ↔ Shows (setting_of manager.now.managed) manager.now.managed.state sight.now }
{
    match sight {
        Sight::State(task, state) => is_in_state(manager, *task, *state),
        Sight::Files(patch, files) => is_reading(manager, *patch, *files),
        Sight::Version(task, site, version) => is_running(manager, *task, *site, *version),
        Sight::Text(site, hooked) => is_text(manager, *site, *hooked),
    }
}

/// Returns the difference to report if the manager's state doesn't show this sight. Each kind of sight has its own.
pub(crate) fn other_than(sight: &Sight) -> Difference
    ensures { result ≡ other_than sight.now }
{
    match sight {
        Sight::State(_, _) => Difference::State,
        Sight::Files(_, _) => Difference::Files,
        Sight::Version(_, _, _) => Difference::Version,
        Sight::Text(_, _) => Difference::Text,
    }
}

/// Whether a task has this patch state in the manager. If `state` is `None`, whether the manager has no such task.
fn is_in_state(manager: &Manager, task: TaskId, state: Option<PatchState>) -> bool
    ensures { IsTrue result
        ↔ (option_map (λ (t : AnyTask). t.state) (task_at manager.now.managed.state.tasks task) ≡ state) }
{
    match (manager.patch_state(task), state) {
        (Some(own), Some(seen)) => own == seen.number(),
        (None, None) => true,
        _ => false,
    }
}

/// Whether the files of a patch read as in `files`, by the manager's state. If `files` is `None`, whether the patch has
/// no files, because it isn't installed.
fn is_reading(manager: &Manager, patch: PatchId, files: Option<PatchFiles>) -> bool
    ensures { IsTrue result ↔ (files_of manager.now.managed.state patch ≡ files) }
{
    match (manager.enabled(patch), manager.transition(patch), files) {
        (Some(enabled), Some(transition), Some(seen)) => {
            enabled == seen.enabled && transition == seen.transition
        }
        (None, None, None) => true,
        _ => false,
    }
}

/// Whether a task would run this version if it called the site's function now. The result is false if there is no such
/// task, or if the site isn't in a loaded object.
fn is_running(manager: &Manager, task: TaskId, site: Site, version: Version) -> bool
    ensures { IsTrue result
        ↔ (option_map (λ (t : AnyTarget). t.version)
        (pick (setting_of manager.now.managed) manager.now.managed.state task site) ≡ Some version) }
{
    match manager.pick(task, site) {
        Some(target) => target.version == version,
        None => false,
    }
}

/// Whether a site is hooked if `hooked` is true, or not hooked if `hooked` is false. The result is false in both cases
/// if the site isn't in a loaded object, since the site then has no text. A site is hooked if an entry is on top of its
/// function stack.
fn is_text(manager: &Manager, site: Site, hooked: bool) -> bool
    ensures { IsTrue result
        ↔ ((is_site_loaded (setting_of manager.now.managed) manager.now.managed.state site ≡ true)
        × (is_hooked (setting_of manager.now.managed) manager.now.managed.state site ≡ hooked)) }
{
    match manager.row(site) {
        Some(row) => row.word.top.is_some() == hooked,
        None => false,
    }
}
