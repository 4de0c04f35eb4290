//! The lines that have paths of files. The paths are those of a kernel, so users of a kernel know them already.

ghost use Rattle.std.specs.Prelude.{◌≡◌};
ghost use Rattle.klp_console_commands.specs.Lines.{switch, enabled_line, force_line, echo_file, echo_line, proc_query};
ghost use Rattle.klp_console_commands.specs.Lines.{patch_query, cat_file, cat_line, directory_query, list_query};
ghost use Rattle.klp_console_commands.specs.Lines.{list_line};
ghost use Rattle.klp_model.specs.declared.event.Event.{Event};
ghost use Rattle.klp_console_commands.specs.Asked.{line_with, shown};

use crate::fault::LineFault;
use crate::names::{NameResolver, task};
use crate::request::{Asked, Query};
use crate::words::{after_prefix, end, is_console_name, is_word, number_to, only_word, word};
use klp_model::Event;
use klp_types::MAX_TASK_NUMBER;
use klp_words::{LineWords, cut};

/// The directory that has the patches' directories (livepatch, Sysfs). Listing it shows the installed patches.
const PATCHES: &[u8] = b"/sys/kernel/livepatch";

/// The prefix of the paths of patches' files. The patch's name follows it.
const BELOW_PATCHES: &[u8] = b"/sys/kernel/livepatch/";

/// The prefix of the paths of tasks' files. The task's number follows it, as in a kernel's `/proc`.
const PROC: &[u8] = b"/proc/";

/// Returns the value of the word `0` or `1`. Returns `BadValue` for any other word. The word is compared and not read
/// as a number, so other spellings such as `01` aren't accepted.
fn switch(value: &[u8]) -> Result<bool, LineFault>
    ensures { result ≡ switch value.now }
{
    match value {
        b"0" => Ok(false),
        b"1" => Ok(true),
        _ => Err(LineFault::BadValue),
    }
}

/// Reads a write to the `enabled` file of a patch, which asks for the event `SetEnabled`.
fn enabled_line(
    value: &[u8],
    patch: &[u8],
    names: &NameResolver<'_>,
    event: &mut Event,
) -> Result<Asked, LineFault>
    ensures { line_with result event.new ≡ enabled_line names.now value.now patch.now }
{
    let value = switch(value)?;
    *event = Event::SetEnabled(names.patch(patch)?, value);
    Ok(Asked::Take)
}

/// Reads a write to the `force` file of a patch. Writing 1 asks for the event `Force`; writing 0 needs no event.
fn force_line(
    value: &[u8],
    patch: &[u8],
    names: &NameResolver<'_>,
    event: &mut Event,
) -> Result<Asked, LineFault>
    ensures { line_with result event.new ≡ force_line names.now value.now patch.now }
{
    let is_forced = switch(value)?;
    let patch = names.patch(patch)?;
    if !is_forced {
        return Ok(Asked::ForceNothing(patch));
    }
    *event = Event::Force(patch);
    Ok(Asked::Take)
}

/// Reads a write of a value to a patch's file. It is checked first whether a patch has a writable file of this name,
/// and then the value.
fn echo_file(
    value: &[u8],
    file: &[u8],
    names: &NameResolver<'_>,
    event: &mut Event,
) -> Result<Asked, LineFault>
    ensures { line_with result event.new ≡ echo_file names.now value.now file.now }
{
    let (patch, file) = cut(file, b'/');
    if !is_console_name(patch) {
        return Err(LineFault::BadLine);
    }
    if is_word(file, b"enabled") {
        enabled_line(value, patch, names, event)
    } else if is_word(file, b"force") {
        force_line(value, patch, names, event)
    } else {
        Err(LineFault::BadLine)
    }
}

/// Reads the words after `echo`: a value, an arrow and a file. Only spaces separate words, so the arrow needs a space
/// on both sides.
pub(crate) fn echo_line(
    words: &mut LineWords<'_>,
    names: &NameResolver<'_>,
    event: &mut Event,
) -> Result<Asked, LineFault>
    ensures { line_with result event.new ≡ echo_line names.now words.old }
{
    let value = word(words)?;
    let arrow = word(words)?;
    let file = word(words)?;
    end(words)?;
    if !is_word(arrow, b">") {
        return Err(LineFault::BadLine);
    }
    match after_prefix(file, BELOW_PATCHES) {
        Some(file) => echo_file(value, file, names, event),
        None => Err(LineFault::BadLine),
    }
}

/// Reads the path of a task's file, below `/proc/`. Tasks have only the file `patch_state` here, so it must be this
/// file.
fn proc_query(file: &[u8]) -> Result<Query, LineFault>
    ensures { shown result ≡ proc_query file.now }
{
    let (number, file) = cut(file, b'/');
    if !is_word(file, b"patch_state") {
        return Err(LineFault::BadLine);
    }
    let number = number_to(MAX_TASK_NUMBER, number)?;
    Ok(Query::PatchState(task(number)?))
}

/// Reads the path of a patch's file that can be read: `enabled` or `transition`.
fn patch_query(file: &[u8], names: &NameResolver<'_>) -> Result<Query, LineFault>
    ensures { shown result ≡ patch_query names.now file.now }
{
    let (patch, file) = cut(file, b'/');
    if !is_console_name(patch) {
        return Err(LineFault::BadLine);
    }
    if is_word(file, b"enabled") {
        Ok(Query::Enabled(names.patch(patch)?))
    } else if is_word(file, b"transition") {
        Ok(Query::Transition(names.patch(patch)?))
    } else {
        Err(LineFault::BadLine)
    }
}

/// Reads the path of a file to be shown. The file is a task's or a patch's.
fn cat_file(file: &[u8], names: &NameResolver<'_>) -> Result<Query, LineFault>
    ensures { shown result ≡ cat_file names.now file.now }
{
    if let Some(file) = after_prefix(file, PROC) {
        return proc_query(file);
    }
    match after_prefix(file, BELOW_PATCHES) {
        Some(file) => patch_query(file, names),
        None => Err(LineFault::BadLine),
    }
}

/// Reads the word after `cat`: the path of a patch's file or of a task's.
pub(crate) fn cat_line(
    words: &mut LineWords<'_>,
    names: &NameResolver<'_>,
) -> Result<Asked, LineFault>
    ensures { (event : Event) → line_with result event ≡ cat_line names.now words.old }
{
    let file = only_word(words)?;
    Ok(Asked::Ask(cat_file(file, names)?))
}

/// Reads the directory of a patch, or of an object inside of a patch's directory. A name has no `/`, so the two kinds
/// of paths can't be confused.
fn directory_query(directory: &[u8], names: &NameResolver<'_>) -> Result<Query, LineFault>
    ensures { shown result ≡ directory_query names.now directory.now }
{
    if is_console_name(directory) {
        return Ok(Query::Patch(names.patch(directory)?));
    }
    let (patch, object) = cut(directory, b'/');
    if !is_console_name(patch) || !is_console_name(object) {
        return Err(LineFault::BadLine);
    }
    let patch = names.patch(patch)?;
    Ok(Query::Object(patch, names.object(object)?))
}

/// Reads the path of a directory: that of all patches, of one patch, or of an object inside of a patch's directory.
fn list_query(directory: &[u8], names: &NameResolver<'_>) -> Result<Query, LineFault>
    ensures { shown result ≡ list_query names.now directory.now }
{
    if is_word(directory, PATCHES) {
        return Ok(Query::Patches);
    }
    match after_prefix(directory, BELOW_PATCHES) {
        Some(directory) => directory_query(directory, names),
        None => Err(LineFault::BadLine),
    }
}

/// Reads the word after `ls`: the directory of all patches, of one patch, or of an object inside of a patch's
/// directory.
pub(crate) fn list_line(
    words: &mut LineWords<'_>,
    names: &NameResolver<'_>,
) -> Result<Asked, LineFault>
    ensures { (event : Event) → line_with result event ≡ list_line names.now words.old }
{
    let directory = only_word(words)?;
    Ok(Asked::Ask(list_query(directory, names)?))
}
