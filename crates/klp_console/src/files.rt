//! The files of patches and of tasks. As in the kernel, a patch has a directory only while it is installed.
ghost use Rattle.std.specs.Prelude.{◌≡◌, ◌==◌, ◌++◌, [], codes, filter, Ok};
ghost use Rattle.std.specs.Fmt.{decimal};
ghost use Rattle.std.specs.Result.{result_and, result_unwrap_or};
ghost use Rattle.klp_types.specs.Setting.{PatchObject};
ghost use Rattle.klp_model.specs.State.{is_installed, installed_patches};
ghost use Rattle.klp_console_io.specs.Says.{Says};
ghost use Rattle.klp_console.specs.Names.{object_name};
ghost use Rattle.klp_catalog.specs.Catalog.{CatalogFunction as FunctionValue};
ghost use Rattle.klp_catalog.specs.Runs.{objects_at};
ghost use Rattle.klp_console_commands.specs.declared.request.Query.TheVariants as query;
ghost use Rattle.klp_console.specs.Queries.{lines_of, switch_text, patch_line, object_line, directory_text};
ghost use Rattle.klp_console.specs.Queries.{position_text, functions_text, has_object, query_text};

use crate::names::{object_name, patch_name, say_name};
use klp_catalog::{Catalog, CatalogFunction};
use klp_console_io::{Answers, Sink};
use klp_core::Manager;
use klp_model::Refusal;
use klp_types::{ObjId, PatchId, TaskId};

/// Whether a patch is installed. Only installed patches have files.
pub(crate) fn is_installed(manager: &Manager, patch: PatchId) -> bool
    ensures { result ≡ is_installed manager.now.managed.state patch }
{
    manager.enabled(patch).is_some()
}

/// Whether a patch changes an object. The patch then has a directory for the object, even if the object isn't loaded.
pub(crate) fn has_object(catalog: &Catalog, patch: PatchId, object: ObjId) -> bool
    ensures { result ≡ has_object catalog.now patch object }
{
    catalog.place(patch, object).is_some()
}

/// Says a name on its own line, as `ls` prints it.
fn say_line<W: Sink>(answers: &mut Answers, writer: &mut W, name: &str)
    ensures { Says (answers.old, W.written writer.old) (answers.new, W.written writer.new) (name.now ++ codes "\n") }
{
    klp_console_io::laws::what_is_said_adds_up();
    say_name(answers, writer, name);
    answers.say(writer, b"\n");
}

/// Says 1 for true and 0 for false, as the kernel's files read.
fn say_flag<W: Sink>(answers: &mut Answers, writer: &mut W, value: bool)
    ensures { Says (answers.old, W.written writer.old) (answers.new, W.written writer.new) (switch_text value) }
{
    if value {
        answers.say(writer, b"1\n");
    } else {
        answers.say(writer, b"0\n");
    }
}

/// Says what the `enabled` file of a patch reads. If the patch isn't installed, returns `NotFound` and says nothing.
pub(crate) fn say_enabled<W: Sink>(
    answers: &mut Answers,
    writer: &mut W,
    manager: &Manager,
    patch: PatchId,
) -> Result<(), Refusal>
    ensures says { Says (answers.old, W.written writer.old) (answers.new, W.written writer.new)
        (result_unwrap_or (query_text manager.now (query.Enabled patch)) []) }
    ensures result { result ≡ result_and (query_text manager.now (query.Enabled patch)) (Ok tt) }
{
    klp_console_io::laws::what_is_said_adds_up();
    let value = manager.enabled(patch).ok_or(Refusal::NotFound)?;
    say_flag(answers, writer, value);
    Ok(())
}

/// Says what the `transition` file of a patch reads. If the patch isn't installed, returns `NotFound` and says nothing.
pub(crate) fn say_transition<W: Sink>(
    answers: &mut Answers,
    writer: &mut W,
    manager: &Manager,
    patch: PatchId,
) -> Result<(), Refusal>
    ensures says { Says (answers.old, W.written writer.old) (answers.new, W.written writer.new)
        (result_unwrap_or (query_text manager.now (query.Transition patch)) []) }
    ensures result { result ≡ result_and (query_text manager.now (query.Transition patch)) (Ok tt) }
{
    klp_console_io::laws::what_is_said_adds_up();
    let value = manager.transition(patch).ok_or(Refusal::NotFound)?;
    say_flag(answers, writer, value);
    Ok(())
}

/// Says what the `patch_state` file of a task reads. The number is signed, since it is -1 when there is no transition.
/// If there is no such task, returns `NoTask` and says nothing.
pub(crate) fn say_patch_state<W: Sink>(
    answers: &mut Answers,
    writer: &mut W,
    manager: &Manager,
    task: TaskId,
) -> Result<(), Refusal>
    ensures says { Says (answers.old, W.written writer.old) (answers.new, W.written writer.new)
        (result_unwrap_or (query_text manager.now (query.PatchState task)) []) }
    ensures result { result ≡ result_and (query_text manager.now (query.PatchState task)) (Ok tt) }
{
    klp_console_io::laws::what_is_said_adds_up();
    let state = manager.patch_state(task).ok_or(Refusal::NoTask)?;
    answers.signed(writer, i64::from(state));
    answers.say(writer, b"\n");
    Ok(())
}

/// Says the names of patches, each on its own line, as `ls` lists them.
fn say_patch_lines<W: Sink>(
    answers: &mut Answers,
    writer: &mut W,
    catalog: &Catalog,
    patches: &[PatchId],
)
    ensures { Says (answers.old, W.written writer.old) (answers.new, W.written writer.new)
        (lines_of (patch_line catalog.now) patches.now) }
{
    klp_console_io::laws::what_is_said_adds_up();
    for patch in patches {
        say_line(answers, writer, patch_name(catalog, *patch));
    }
}

/// Says the names of the installed patches in the order in which they were enabled, oldest first.
pub(crate) fn say_patches<W: Sink>(answers: &mut Answers, writer: &mut W, manager: &Manager)
    ensures { Says (answers.old, W.written writer.old) (answers.new, W.written writer.new)
        (lines_of (patch_line manager.now.managed.catalog) (installed_patches manager.now.managed.state)) }
{
    let patches = manager.installed();
    say_patch_lines(answers, writer, manager.catalog(), patches.as_slice());
}

/// Says the names of the objects that a patch changes, each on its own line, in the order of the catalog's text.
fn say_object_lines<W: Sink>(
    answers: &mut Answers,
    writer: &mut W,
    manager: &Manager,
    patch: PatchId,
)
    ensures { Says (answers.old, W.written writer.old) (answers.new, W.written writer.new)
        (lines_of (object_line manager.now.managed.catalog) (objects_at manager.now.managed.catalog patch)) }
{
    klp_console_io::laws::what_is_said_adds_up();
    let catalog = manager.catalog();
    for place in 0..catalog.target_len(patch) {
        if let Some(object) = catalog.target(patch, place) {
            say_line(answers, writer, object_name(manager.modules(), object));
        }
    }
}

/// Says the contents of a patch's directory: its files, and a directory for each object that the patch changes, even if
/// the object isn't loaded.
fn say_files<W: Sink>(answers: &mut Answers, writer: &mut W, manager: &Manager, patch: PatchId)
    ensures { Says (answers.old, W.written writer.old) (answers.new, W.written writer.new)
        (directory_text manager.now.managed.catalog patch) }
{
    klp_console_io::laws::what_is_said_adds_up();
    answers.say(writer, b"enabled\nforce\ntransition\n");
    say_object_lines(answers, writer, manager, patch);
}

/// Says the contents of a patch's directory. If the patch isn't installed, returns `NotFound` and says nothing.
pub(crate) fn say_directory<W: Sink>(
    answers: &mut Answers,
    writer: &mut W,
    manager: &Manager,
    patch: PatchId,
) -> Result<(), Refusal>
    ensures says { Says (answers.old, W.written writer.old) (answers.new, W.written writer.new)
        (result_unwrap_or (query_text manager.now (query.Patch patch)) []) }
    ensures result { result ≡ result_and (query_text manager.now (query.Patch patch)) (Ok tt) }
{
    klp_console_io::laws::what_is_said_adds_up();
    if !is_installed(manager, patch) {
        return Err(Refusal::NotFound);
    }
    say_files(answers, writer, manager, patch);
    Ok(())
}

/// Says a symbol's name and its position among the symbols of that name, with a comma between, as the kernel does.
fn say_position<W: Sink>(answers: &mut Answers, writer: &mut W, symbol: &str, position: u64)
    ensures { Says (answers.old, W.written writer.old) (answers.new, W.written writer.new)
        (symbol.now ++ codes "," ++ decimal position ++ codes "\n") }
{
    klp_console_io::laws::what_is_said_adds_up();
    say_name(answers, writer, symbol);
    answers.say(writer, b",");
    answers.number(writer, position);
    answers.say(writer, b"\n");
}

/// Says a function that a patch changes, with its position. The kernel's directory of the function has the same name.
fn say_function<W: Sink>(answers: &mut Answers, writer: &mut W, function: &CatalogFunction)
    ensures { Says (answers.old, W.written writer.old) (answers.new, W.written writer.new)
        (position_text function.now) }
{
    // position 0 means that the symbol is the only one of its name; the kernel then writes position 1
    let position = u64::from(function.sympos().max(1));
    say_position(answers, writer, function.symbol(), position);
}

/// Says those functions of the list that are in this object, with their positions. The list has all functions of a
/// patch, so each function is checked.
fn say_positions<W: Sink>(
    answers: &mut Answers,
    writer: &mut W,
    functions: &[CatalogFunction],
    object: ObjId,
)
    ensures { Says (answers.old, W.written writer.old) (answers.new, W.written writer.new)
        (lines_of position_text (filter (λ (f : FunctionValue). f.object == object) functions.now)) }
{
    klp_console_io::laws::what_is_said_adds_up();
    for function in functions {
        if function.object() == object {
            say_function(answers, writer, function);
        }
    }
}

/// Says the functions that a patch changes in an object, with their positions. If the patch isn't installed, or doesn't
/// change the object, returns `NotFound` and says nothing.
pub(crate) fn say_functions<W: Sink>(
    answers: &mut Answers,
    writer: &mut W,
    manager: &Manager,
    patch: PatchId,
    object: ObjId,
) -> Result<(), Refusal>
    ensures says { Says (answers.old, W.written writer.old) (answers.new, W.written writer.new)
        (result_unwrap_or (query_text manager.now (query.Object patch object)) []) }
    ensures result { result ≡ result_and (query_text manager.now (query.Object patch object)) (Ok tt) }
{
    klp_console_io::laws::what_is_said_adds_up();
    if !is_installed(manager, patch) || !has_object(manager.catalog(), patch, object) {
        return Err(Refusal::NotFound);
    }
    say_positions(answers, writer, manager.catalog().functions(patch), object);
    Ok(())
}
