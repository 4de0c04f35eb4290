//! The words for what a kernel showed, and for what the rules say in its place. Both use the same words.
ghost use Rattle.std.specs.Prelude.{◌≡◌, string_bytes, Some, option_map, IfOk};
ghost use Rattle.klp_types.specs.declared.version.Target.{Target as AnyTarget};
ghost use Rattle.klp_model.specs.Entries.{is_site_loaded, is_hooked};
ghost use Rattle.klp_model.specs.Pick.{pick};
ghost use Rattle.klp_manager_state.specs.Managed.{setting_of};
ghost use Rattle.klp_watch.specs.Compared.{files_of};
ghost use Rattle.klp_trace_page.specs.Rules.{flag_text, hook_text, files_text, state_text, picked_text, text_text};
ghost use Rattle.klp_trace_page.specs.Rules.{rules_text, sight_text};

use klp_console::patch_name;
use klp_core::Manager;
use klp_types::{PatchId, PatchState, Site, TaskId, Version};
use klp_watch::{PatchFiles, Sight};
use std::alloc::{AllocError, Global};

/// Returns what a file of a patch, `enabled` or `transition`, reads for this flag.
fn flag_text(flag: bool) -> &'static str
    ensures { result.now ≡ flag_text flag }
{
    if flag { "1" } else { "0" }
}

/// Returns the word for a site that is hooked, or that isn't.
fn hook_text(is_hooked: bool) -> &'static str
    ensures { result.now ≡ hook_text is_hooked }
{
    if is_hooked { "hooked" } else { "plain" }
}

/// Returns what the two files of a patch read, as `ENABLED TRANSITION`. Returns `gone` if the files don't exist
/// (`None`). `Err` if memory runs out.
fn files_text(alloc: Global, files: Option<PatchFiles>) -> Result<String, AllocError>
    ensures { IfOk result (λ text. string_bytes text ≡ files_text files) }
{
    let Some(files) = files else {
        return String::from_str(alloc, "gone");
    };
    let mut text = String::from_str(alloc, flag_text(files.enabled))?;
    text.push_str(" ")?;
    text.push_str(flag_text(files.transition))?;
    Ok(text)
}

/// Returns what the files of a patch read by the rules. Returns `None` if the patch isn't installed, so that there are
/// no files.
fn files_of(manager: &Manager, patch: PatchId) -> Option<PatchFiles>
    ensures { result ≡ files_of manager.now.managed.state patch }
{
    Some(PatchFiles {
        enabled: manager.enabled(patch)?,
        transition: manager.transition(patch)?,
    })
}

/// Returns a task's patch state as `/proc/<pid>/patch_state` reads. Returns `no task` if there is no such task
/// (`None`). `Err` if memory runs out.
fn state_text(alloc: Global, state: Option<i8>) -> Result<String, AllocError>
    ensures { IfOk result (λ text. string_bytes text ≡ state_text state) }
{
    match state {
        Some(state) => format!(in alloc; "{state}"),
        None => String::from_str(alloc, "no task"),
    }
}

/// Returns the number of a patch state that was seen. Returns `None` if no such task was seen (`None`).
fn number_of(state: Option<PatchState>) -> Option<i8>
    ensures { result ≡ state }
{
    match state {
        Some(state) => Some(state.number()),
        None => None,
    }
}

/// Returns the words for a version that a task runs if it calls a site: `PATCH:INDEX`, or `the original`. `Err` if
/// memory runs out.
fn version_text(alloc: Global, manager: &Manager, version: Version) -> Result<String, AllocError>
    ensures { IfOk result (λ text. string_bytes text ≡ picked_text manager.now.managed.catalog (Some version)) }
{
    match version {
        Version::Original(_) => String::from_str(alloc, "the original"),
        Version::New(patch, function) => {
            let function = format!(in alloc; ":{function}")?;
            let mut text = String::from_str(alloc, patch_name(manager.catalog(), patch))?;
            text.push_str(function.as_str())?;
            Ok(text)
        }
    }
}

/// Returns the words for the version that the rules pick, as [`version_text`] does. Returns `no call` if the task can't
/// call anything at the site (`None`). `Err` if memory runs out.
fn picked_text(
    alloc: Global,
    manager: &Manager,
    version: Option<Version>,
) -> Result<String, AllocError>
    ensures { IfOk result (λ text. string_bytes text ≡ picked_text manager.now.managed.catalog version) }
{
    match version {
        Some(version) => version_text(alloc, manager, version),
        None => String::from_str(alloc, "no call"),
    }
}

/// Returns the version that the rules pick for a task at a site. Returns `None` if there is no such task, or if nothing
/// can be called there.
fn version_of(manager: &Manager, task: TaskId, site: Site) -> Option<Version>
    ensures { result ≡ option_map (λ (t : AnyTarget). t.version)
        (pick (setting_of manager.now.managed) manager.now.managed.state task site) }
{
    Some(manager.pick(task, site)?.version)
}

/// Returns the word for whether a site is hooked by the rules. If the site's object isn't loaded, returns words that
/// say so.
fn text_text(manager: &Manager, site: Site) -> &'static str
    ensures { result.now ≡ text_text
        (is_site_loaded (setting_of manager.now.managed) manager.now.managed.state site)
        (is_hooked (setting_of manager.now.managed) manager.now.managed.state site) }
{
    match manager.row(site) {
        Some(row) => hook_text(row.word.top.is_some()),
        None => "not loaded",
    }
}

/// Returns what the rules say in place of this sight, in the words that [`sight_text`] uses. `Err` if memory runs out.
pub(crate) fn rules_text(
    alloc: Global,
    manager: &Manager,
    sight: &Sight,
) -> Result<String, AllocError>
    ensures { IfOk result (λ text. string_bytes text ≡ rules_text manager.now sight.now) }
{
    match sight {
        Sight::State(task, _) => state_text(alloc, manager.patch_state(*task)),
        Sight::Files(patch, _) => files_text(alloc, files_of(manager, *patch)),
        Sight::Version(task, site, _) => {
            picked_text(alloc, manager, version_of(manager, *task, *site))
        }
        Sight::Text(site, _) => String::from_str(alloc, text_text(manager, *site)),
    }
}

/// Returns what the kernel showed in this sight, in the words that [`rules_text`] uses. `Err` if memory runs out.
pub(crate) fn sight_text(
    alloc: Global,
    manager: &Manager,
    sight: &Sight,
) -> Result<String, AllocError>
    ensures { IfOk result (λ text. string_bytes text ≡ sight_text manager.now.managed.catalog sight.now) }
{
    match sight {
        Sight::State(_, state) => state_text(alloc, number_of(*state)),
        Sight::Files(_, files) => files_text(alloc, *files),
        Sight::Version(_, _, version) => version_text(alloc, manager, *version),
        Sight::Text(_, hooked) => String::from_str(alloc, hook_text(*hooked)),
    }
}
