//! The answers to events, in the words and names that lines use.
ghost use Rattle.std.specs.Prelude.{◌≡◌, ◌++◌, codes};
ghost use Rattle.std.specs.Fmt.{decimal, signed_decimal};
ghost use Rattle.klp_modules.specs.Names.{symbol_at_site};
ghost use Rattle.klp_console_io.specs.Says.{Says};
ghost use Rattle.klp_console.specs.Replies.{done_text, original_text, frame_text, frames_text, reply_text, answer_text};

use crate::names::{object_name, patch_name, say_name};
use crate::refusals::say_refusal;
use crate::values::say_value_line;
use klp_catalog::Catalog;
use klp_console_io::{Answers, Sink};
use klp_model::{Refusal, Reply};
use klp_modules::Modules;
use klp_types::{Frames, ObjId, PatchId, Site, Version};

/// Says `ok` for a line that was done and has no more to report. So each line with words has an answer.
pub(crate) fn say_done<W: Sink>(answers: &mut Answers, writer: &mut W)
    ensures { Says (answers.old, W.written writer.old) (answers.new, W.written writer.new) done_text }
{
    answers.say(writer, b"ok\n");
}

/// Says a word and a number on one line. The word ends with a space.
fn say_number<W: Sink>(answers: &mut Answers, writer: &mut W, word: &[u8], number: u64)
    ensures { Says (answers.old, W.written writer.old) (answers.new, W.written writer.new)
        (word.now ++ decimal number ++ codes "\n") }
{
    klp_console_io::laws::what_is_said_adds_up();
    answers.say(writer, word);
    answers.number(writer, number);
    answers.say(writer, b"\n");
}

/// Says that a patch's pre-patch callback for an object refused, and which status it returned. This is no error, since
/// the event was accepted.
fn say_pre_failed<W: Sink>(
    answers: &mut Answers,
    writer: &mut W,
    patch: &str,
    object: &str,
    status: i64,
)
    ensures { Says (answers.old, W.written writer.old) (answers.new, W.written writer.new)
        (codes "prefailed " ++ patch.now ++ codes " " ++ object.now ++ codes " " ++ signed_decimal status
        ++ codes "\n") }
{
    klp_console_io::laws::what_is_said_adds_up();
    answers.say(writer, b"prefailed ");
    say_name(answers, writer, patch);
    answers.say(writer, b" ");
    say_name(answers, writer, object);
    answers.say(writer, b" ");
    answers.signed(writer, status);
    answers.say(writer, b"\n");
}

/// Says a symbol of an object, with its position among the symbols of that name, from 1. A line may name the symbol by
/// this text.
fn say_symbol<W: Sink>(
    answers: &mut Answers,
    writer: &mut W,
    object: &str,
    symbol: &str,
    position: u64,
)
    ensures { Says (answers.old, W.written writer.old) (answers.new, W.written writer.new)
        (codes " .klp.sym." ++ object.now ++ codes "." ++ symbol.now ++ codes "," ++ decimal position) }
{
    klp_console_io::laws::what_is_said_adds_up();
    answers.say(writer, b" .klp.sym.");
    say_name(answers, writer, object);
    answers.say(writer, b".");
    say_name(answers, writer, symbol);
    answers.say(writer, b",");
    answers.number(writer, position);
}

/// Says the original function of a site. Says nothing if there is no such site, as in the definition.
fn say_original<W: Sink>(answers: &mut Answers, writer: &mut W, modules: &Modules, site: Site)
    ensures { Says (answers.old, W.written writer.old) (answers.new, W.written writer.new)
        (original_text modules.now.names (symbol_at_site modules.now.names site)) }
{
    klp_console_io::laws::what_is_said_adds_up();
    if let Some((object, symbol, position)) = modules.symbol(site) {
        say_symbol(
            answers,
            writer,
            object_name(modules, object),
            symbol,
            u64::from(position),
        );
    }
}

/// Says a new function by its patch and its index among the patch's functions. Its name isn't enough, since other
/// functions may have the same name.
fn say_new<W: Sink>(answers: &mut Answers, writer: &mut W, patch: &str, function: u64)
    ensures { Says (answers.old, W.written writer.old) (answers.new, W.written writer.new)
        (codes " " ++ patch.now ++ codes ":" ++ decimal function) }
{
    klp_console_io::laws::what_is_said_adds_up();
    answers.say(writer, b" ");
    say_name(answers, writer, patch);
    answers.say(writer, b":");
    answers.number(writer, function);
}

/// Says a function that a task was inside of. A line may name the function by this text.
fn say_frame<W: Sink>(
    answers: &mut Answers,
    writer: &mut W,
    catalog: &Catalog,
    modules: &Modules,
    version: Version,
)
    requires { catalog.now.names ≡ modules.now.names }
    ensures { Says (answers.old, W.written writer.old) (answers.new, W.written writer.new)
        (frame_text catalog.now version) }
{
    match version {
        Version::Original(site) => say_original(answers, writer, modules, site),
        Version::New(patch, function) => {
            let patch = patch_name(catalog, patch);
            say_new(answers, writer, patch, u64::from(function));
        }
    }
}

/// Says the functions that a task was inside of, outermost first, in the form of a `task sleep` line.
fn say_frames<W: Sink>(
    answers: &mut Answers,
    writer: &mut W,
    catalog: &Catalog,
    modules: &Modules,
    frames: &Frames,
)
    requires { catalog.now.names ≡ modules.now.names }
    ensures { Says (answers.old, W.written writer.old) (answers.new, W.written writer.new)
        (frames_text catalog.now frames.now) }
{
    klp_console_io::laws::what_is_said_adds_up();
    let versions = frames.as_slice();
    for place in 0..versions.len() {
        say_frame(answers, writer, catalog, modules, versions[place]);
    }
}

/// Says on one line the functions that a woken task was inside of. If the task was inside of no function, says the word
/// `woken` alone.
fn say_woken<W: Sink>(
    answers: &mut Answers,
    writer: &mut W,
    catalog: &Catalog,
    modules: &Modules,
    frames: &Frames,
)
    requires { catalog.now.names ≡ modules.now.names }
    ensures { Says (answers.old, W.written writer.old) (answers.new, W.written writer.new)
        (reply_text catalog.now (Reply.Woken frames.now)) }
{
    klp_console_io::laws::what_is_said_adds_up();
    answers.say(writer, b"woken");
    say_frames(answers, writer, catalog, modules, frames);
    answers.say(writer, b"\n");
}

/// Says the answer to an event. The answer to an accepted event is the word of its reply, followed by the reply's names
/// and numbers. The answer to a refused event is the reason of the refusal.
///
/// A function that a task was inside of is spelled as a livepatch symbol, with its position from 1 (livepatch module
/// ELF format, livepatch symbols). A new function is spelled as `PATCH:INDEX`, where `INDEX` counts from 0 over the
/// functions of all the patch's objects. The time is linear in the length of the answer. No name is looked up.
pub(crate) fn say_answer<W: Sink>(
    answers: &mut Answers,
    writer: &mut W,
    catalog: &Catalog,
    modules: &Modules,
    answer: &Result<Reply, Refusal>,
)
    // a manager's catalog was made with the names of the manager's objects, so the names agree
    requires { catalog.now.names ≡ modules.now.names }
    ensures { Says (answers.old, W.written writer.old) (answers.new, W.written writer.new)
        (answer_text catalog.now answer.now) }
{
    match *answer {
        Ok(Reply::Done) => say_done(answers, writer),
        Ok(Reply::Started) => answers.say(writer, b"started\n"),
        Ok(Reply::Reversed) => answers.say(writer, b"reversed\n"),
        Ok(Reply::Pending(tasks)) => say_number(answers, writer, b"pending ", u64::from(tasks)),
        Ok(Reply::Completed(true)) => answers.say(writer, b"completed 1\n"),
        Ok(Reply::Completed(false)) => answers.say(writer, b"completed 0\n"),
        Ok(Reply::PreFailed(patch, object, status)) => {
            let patch = patch_name(catalog, patch);
            let object = object_name(modules, object);
            say_pre_failed(answers, writer, patch, object, i64::from(status));
        }
        Ok(Reply::Value(ref value)) => say_value_line(answers, writer, value),
        Ok(Reply::Freed(count)) => say_number(answers, writer, b"freed ", u64::from(count)),
        Ok(Reply::Woken(ref frames)) => say_woken(answers, writer, catalog, modules, frames),
        Err(refusal) => say_refusal(answers, writer, refusal),
    }
}
