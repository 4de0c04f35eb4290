//! Reads what a kernel showed from the words of a line.
ghost use Rattle.std.specs.Prelude.{◌≡◌};
ghost use Rattle.klp_trace.specs.Items.{state_seen, gone_seen, files_seen, saw_of, version_seen, ran_of, text_of};

use crate::names::{flag_of, patch_of, site_of_version, state_of, task_of, version_of};
use klp_console::site_of;
use klp_core::Manager;
use klp_types::{TaskId, Version};
use klp_watch::{PatchFiles, Sight};
use klp_words::LineWords;

/// Reads `TASK STATE`: the kernel showed this patch state of the task. Returns `None` if a word is misspelled.
fn state_seen(task: &[u8], state: &[u8]) -> Option<Sight>
    ensures { result ≡ state_seen task.now state.now }
{
    let task = task_of(task)?;
    Some(Sight::State(task, Some(state_of(state)?)))
}

/// Reads `PATCH gone`: the patch has no files `enabled` and `transition` in sysfs, so it isn't installed. Returns
/// `None` if no patch has this name.
fn gone_seen(patch: &[u8], manager: &Manager) -> Option<Sight>
    ensures { result ≡ gone_seen manager.now patch.now }
{
    Some(Sight::Files(patch_of(patch, manager)?, None))
}

/// Reads `PATCH ENABLED TRANSITION`: the kernel showed these contents, `0` or `1`, of the patch's files `enabled` and
/// `transition`. Returns `None` if no patch has this name, or if a value is neither `0` nor `1`.
fn files_seen(patch: &[u8], enabled: &[u8], transition: &[u8], manager: &Manager) -> Option<Sight>
    ensures { result ≡ files_seen manager.now patch.now enabled.now transition.now }
{
    let patch = patch_of(patch, manager)?;
    let enabled = flag_of(enabled)?;
    let transition = flag_of(transition)?;
    Some(Sight::Files(
        patch,
        Some(PatchFiles {
            enabled,
            transition,
        }),
    ))
}

/// Reads the words that follow `saw`: `TASK STATE`, `PATCH gone` or `PATCH ENABLED TRANSITION`. Returns `None` if they
/// are none of these.
pub(crate) fn saw_of(words: &mut LineWords<'_>, manager: &Manager) -> Option<Sight>
    ensures { result ≡ saw_of manager.now words.old }
{
    let first = words.next()?;
    let second = words.next()?;
    let Some(third) = words.next() else {
        return if second == b"gone".as_slice() {
            gone_seen(first, manager)
        } else {
            state_seen(first, second)
        };
    };
    match words.next() {
        None => files_seen(first, second, third, manager),
        Some(_) => None,
    }
}

/// Returns the sight that a task ran this version when it called the version's site. Returns `None` if the version is a
/// new function that its patch doesn't have, or that has no site because its object has no such symbol.
fn version_seen(task: TaskId, version: Version, manager: &Manager) -> Option<Sight>
    ensures { result ≡ version_seen manager.now task version }
{
    site_of_version(version, manager).map(|site| Sight::Version(task, site, version))
}

/// Reads the words that follow `ran`: a task, and the version that it ran. Returns `None` if a word is missing,
/// misspelled or surplus, or if the version has no site.
pub(crate) fn ran_of(words: &mut LineWords<'_>, manager: &Manager) -> Option<Sight>
    ensures { result ≡ ran_of manager.now words.old }
{
    let (Some(task), Some(frame), None) = (words.next(), words.next(), words.next()) else {
        return None;
    };
    let task = task_of(task)?;
    version_seen(task, version_of(frame, manager)?, manager)
}

/// Reads the word that follows `hooked` or `plain`: the symbol whose text the kernel showed. `hooked` is true after the
/// word `hooked`. Returns `None` if there isn't exactly one word, or if it spells no symbol.
pub(crate) fn text_of(words: &mut LineWords<'_>, hooked: bool, manager: &Manager) -> Option<Sight>
    ensures { result ≡ text_of manager.now hooked words.old }
{
    let (Some(symbol), None) = (words.next(), words.next()) else {
        return None;
    };
    Some(Sight::Text(site_of(symbol, manager)?, hooked))
}
