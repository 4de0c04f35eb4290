//! The text of an object, and the entries of a site.
ghost use Rattle.std.specs.Prelude.{◌≡◌, ◌++◌, [], codes, Ok};
ghost use Rattle.std.specs.Result.{result_and, result_unwrap_or};
ghost use Rattle.klp_model.specs.Entries.{entries_of};
ghost use Rattle.klp_console_io.specs.Says.{Says};
ghost use Rattle.klp_manager_state.specs.Managed.{setting_of};
ghost use Rattle.klp_console_commands.specs.declared.request.Query.TheVariants as query;
ghost use Rattle.klp_console.specs.Queries.{lines_of, symbol_text, entry_text, stack_text, version_text, query_text};

use crate::names::{patch_name, say_name, say_new_function};
use klp_catalog::Catalog;
use klp_console_io::{Answers, Sink};
use klp_core::{Manager, TextView};
use klp_model::Refusal;
use klp_types::{Entry, ObjId, Site, Target, TaskId, Version};

/// Says a symbol's name, its address and its present bytes on one line. The bytes show whether the symbol is hooked.
fn say_symbol<W: Sink>(answers: &mut Answers, writer: &mut W, name: &str, address: u64, body: &[u8])
    ensures { Says (answers.old, W.written writer.old) (answers.new, W.written writer.new)
        (symbol_text (record { name = name.now; address = address; body = body.now })) }
{
    klp_console_io::laws::what_is_said_adds_up();
    say_name(answers, writer, name);
    answers.say(writer, b" ");
    answers.address(writer, address);
    answers.say(writer, b" ");
    answers.hex(writer, body);
    answers.say(writer, b"\n");
}

/// Says the symbols of an object in the image's order, each on its own line.
fn say_symbols<W: Sink>(answers: &mut Answers, writer: &mut W, text: &TextView<'_>)
    ensures { Says (answers.old, W.written writer.old) (answers.new, W.written writer.new)
        (lines_of symbol_text text.now) }
{
    klp_console_io::laws::what_is_said_adds_up();
    for number in 0..text.len() {
        if let Some((name, address, body)) = text.get(number) {
            say_symbol(answers, writer, name, address, body);
        }
    }
}

/// Says the text of an object. If the object isn't loaded, returns `NoModule` and says nothing.
pub(crate) fn say_text<W: Sink>(
    answers: &mut Answers,
    writer: &mut W,
    manager: &Manager,
    object: ObjId,
) -> Result<(), Refusal>
    ensures says { Says (answers.old, W.written writer.old) (answers.new, W.written writer.new)
        (result_unwrap_or (query_text manager.now (query.Text object)) []) }
    ensures result { result ≡ result_and (query_text manager.now (query.Text object)) (Ok tt) }
{
    klp_console_io::laws::what_is_said_adds_up();
    let text = manager.text(object).ok_or(Refusal::NoModule)?;
    say_symbols(answers, writer, &text);
    Ok(())
}

/// Says an entry of a function stack. A nop has no function, so it has neither name nor address.
fn say_entry<W: Sink>(answers: &mut Answers, writer: &mut W, catalog: &Catalog, entry: &Entry)
    ensures { Says (answers.old, W.written writer.old) (answers.new, W.written writer.new)
        (entry_text catalog.now entry.now) }
{
    klp_console_io::laws::what_is_said_adds_up();
    match entry.func {
        None => {
            say_name(answers, writer, patch_name(catalog, entry.patch));
            answers.say(writer, b" nop\n");
        }
        Some(function) => say_new_function(answers, writer, catalog, entry.patch, function),
    }
}

/// Says entries of a function stack, each on its own line.
fn say_entries<W: Sink>(answers: &mut Answers, writer: &mut W, catalog: &Catalog, entries: &[Entry])
    ensures { Says (answers.old, W.written writer.old) (answers.new, W.written writer.new)
        (lines_of (entry_text catalog.now) entries.now) }
{
    klp_console_io::laws::what_is_said_adds_up();
    for entry in entries {
        say_entry(answers, writer, catalog, entry);
    }
}

/// Says the entries of a site's function stack, newest first. If the stack has no entries, says `empty`, so the answer
/// always has a line.
pub(crate) fn say_stack<W: Sink>(
    answers: &mut Answers,
    writer: &mut W,
    manager: &Manager,
    site: Site,
)
    ensures { Says (answers.old, W.written writer.old) (answers.new, W.written writer.new)
        (stack_text manager.now.managed.catalog
        (entries_of (setting_of manager.now.managed) manager.now.managed.state site)) }
{
    let entries = manager.stack(site);
    if entries.is_empty() {
        answers.say(writer, b"empty\n");
    } else {
        say_entries(answers, writer, manager.catalog(), entries.as_slice());
    }
}

/// Says a version and its address. Says no name for an original, since the query already named its site.
fn say_version<W: Sink>(answers: &mut Answers, writer: &mut W, catalog: &Catalog, target: &Target)
    ensures { Says (answers.old, W.written writer.old) (answers.new, W.written writer.new)
        (version_text catalog.now target.now.version target.now.address) }
{
    klp_console_io::laws::what_is_said_adds_up();
    match target.version {
        Version::Original(_) => {
            answers.say(writer, b"original ");
            answers.address(writer, target.address);
            answers.say(writer, b"\n");
        }
        Version::New(patch, function) => {
            say_new_function(answers, writer, catalog, patch, function);
        }
    }
}

/// Says what a task runs at a site. If there is no such task, says nothing and returns `NoTask`. If the site's object
/// isn't loaded, says nothing and returns `NoModule`. The query names the task first, so the task is checked first.
pub(crate) fn say_pick<W: Sink>(
    answers: &mut Answers,
    writer: &mut W,
    manager: &Manager,
    task: TaskId,
    site: Site,
) -> Result<(), Refusal>
    ensures says { Says (answers.old, W.written writer.old) (answers.new, W.written writer.new)
        (result_unwrap_or (query_text manager.now (query.Pick task site)) []) }
    ensures result { result ≡ result_and (query_text manager.now (query.Pick task site)) (Ok tt) }
{
    klp_console_io::laws::what_is_said_adds_up();
    if manager.patch_state(task).is_none() {
        return Err(Refusal::NoTask);
    }
    let target = manager.pick(task, site).ok_or(Refusal::NoModule)?;
    say_version(answers, writer, manager.catalog(), &target);
    Ok(())
}
