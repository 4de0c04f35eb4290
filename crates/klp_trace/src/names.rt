//! Reads the names and numbers of a trace.
ghost use Rattle.std.specs.Prelude.{◌≡◌};
ghost use Rattle.klp_trace.specs.Names.{task_of, patch_of, object_of, new_function_of, version_of, versions_of};
ghost use Rattle.klp_trace.specs.Names.{frames_of, site_of_version, state_of, flag_of};

use klp_console::site_of;
use klp_core::Manager;
use klp_types::{Frames, MAX_TASKS, ObjId, PatchId, PatchState, Site, TaskId, Version};
use klp_words::{LineWords, cut, is_name, number64, text};

/// Reads the number of a task, which needn't exist. Returns `None` if the word is no number below [`MAX_TASKS`].
pub(crate) fn task_of(word: &[u8]) -> Option<TaskId>
    ensures { result ≡ task_of word.now }
{
    let number = number64(word)?;
    if number < MAX_TASKS as u64 {
        Some(TaskId(number as u8))
    } else {
        None
    }
}

/// Reads the name of a patch, which needn't be installed. Returns `None` if the word is no name, or if the catalog has
/// no such patch.
pub(crate) fn patch_of(word: &[u8], manager: &Manager) -> Option<PatchId>
    ensures { result ≡ patch_of manager.now word.now }
{
    if !is_name(word) {
        return None;
    }
    manager.catalog().patch(text(word))
}

/// Reads the name of an object, which needn't be loaded. Returns `None` if the word is no name, or if the catalog has
/// no such object.
pub(crate) fn object_of(word: &[u8], manager: &Manager) -> Option<ObjId>
    ensures { result ≡ object_of manager.now word.now }
{
    // For the proof only: the contract of catalog says that the catalog has the names of the image.
    let _for_its_clause = manager.catalog();
    if !is_name(word) {
        return None;
    }
    manager.modules().object(text(word))
}

/// Reads `PATCH:INDEX`, a new function of a patch. Doesn't check that the patch has this function. Returns `None` if
/// the catalog has no such patch, or if the index is no number below 65536.
fn new_function_of(word: &[u8], manager: &Manager) -> Option<Version>
    ensures { result ≡ new_function_of manager.now word.now }
{
    let (patch, index) = cut(word, b':');
    let patch = patch_of(patch, manager)?;
    let index = u16::try_from(number64(index)?).ok()?;
    Some(Version::New(patch, index))
}

/// Reads a function as `task sleep` spells it. The spelling of a symbol means its original function, and `PATCH:INDEX`
/// means a new function of a patch. Returns `None` if the word spells no function.
pub(crate) fn version_of(word: &[u8], manager: &Manager) -> Option<Version>
    ensures { result ≡ version_of manager.now word.now }
{
    match site_of(word, manager) {
        Some(site) => Some(Version::Original(site)),
        None => new_function_of(word, manager),
    }
}

/// Reads the functions that a task is inside of, innermost last. Returns `None` if a word spells no function, or if
/// there are more words than a task can have frames, 32.
pub(crate) fn frames_of(words: &mut LineWords<'_>, manager: &Manager) -> Option<Frames>
    ensures { result ≡ frames_of manager.now words.old }
{
    let mut frames = Frames::new();
    while let Some(word) = words.next() {
        if !frames.push(version_of(word, manager)?) {
            return None;
        }
    }
    Some(frames)
}

/// Returns the site at which a version is called. Returns `None` for a new function that its patch doesn't have, or
/// that has no site.
pub(crate) fn site_of_version(version: Version, manager: &Manager) -> Option<Site>
    ensures { result ≡ site_of_version manager.now version }
{
    match version {
        Version::Original(site) => Some(site),
        Version::New(patch, function) => match manager.catalog().function(patch, function) {
            Some((site, _, _)) => site,
            None => None,
        },
    }
}

/// Reads the contents of a task's `patch_state` file: `-1`, `0` or `1`. Returns `None` for any other word.
pub(crate) fn state_of(word: &[u8]) -> Option<PatchState>
    ensures { result ≡ state_of word.now }
{
    if word == b"-1".as_slice() {
        Some(PatchState::UNDEFINED)
    } else if word == b"0".as_slice() {
        Some(PatchState::UNPATCHED)
    } else if word == b"1".as_slice() {
        Some(PatchState::PATCHED)
    } else {
        None
    }
}

/// Reads a word that is `0` or `1`, such as the contents of a patch's file `enabled`. Returns `None` for any other
/// word.
pub(crate) fn flag_of(word: &[u8]) -> Option<bool>
    ensures { result ≡ flag_of word.now }
{
    if word == b"0".as_slice() {
        Some(false)
    } else if word == b"1".as_slice() {
        Some(true)
    } else {
        None
    }
}
