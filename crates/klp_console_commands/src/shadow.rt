//! The lines of shadow variables. The words of these lines are numbers and values, so no name can be unknown.

ghost use Rattle.std.specs.Prelude.{◌≡◌};
ghost use Rattle.klp_console_commands.specs.Lines.{key_of, variable_of, alloc_line, get_or_alloc_line, free_line};
ghost use Rattle.klp_console_commands.specs.Lines.{free_all_line, get_line, shadow_line};
ghost use Rattle.klp_model.specs.declared.event.Event.{Event};
ghost use Rattle.klp_console_commands.specs.Asked.{line_with};

use crate::fault::LineFault;
use crate::request::{Asked, Query};
use crate::words::{end, is_word, number, only_word, two_words, value, word};
use klp_model::Event;
use klp_types::{ShadowKey, ShadowValue};
use klp_words::LineWords;

/// Reads the last two words as the key of a variable: its parent object and its id. The words are counted before the
/// numbers are read.
fn key(words: &mut LineWords<'_>) -> Result<ShadowKey, LineFault>
    ensures { result ≡ key_of words.old }
{
    let (obj, id) = two_words(words)?;
    let obj = number(obj)?;
    let id = number(id)?;
    Ok(ShadowKey { obj, id })
}

/// Reads the last three words as a key and a value.
fn variable(words: &mut LineWords<'_>) -> Result<(ShadowKey, ShadowValue), LineFault>
    ensures { result ≡ variable_of words.old }
{
    let obj = word(words)?;
    let id = word(words)?;
    let bytes = word(words)?;
    end(words)?;
    let obj = number(obj)?;
    let id = number(id)?;
    Ok((ShadowKey { obj, id }, value(bytes)?))
}

/// Reads the rest of `shadow alloc OBJ ID VALUE`, which asks for the event `ShadowAlloc`.
fn alloc_line(words: &mut LineWords<'_>, event: &mut Event) -> Result<Asked, LineFault>
    ensures { line_with result event.new ≡ alloc_line words.old }
{
    let (key, value) = variable(words)?;
    *event = Event::ShadowAlloc(key, value);
    Ok(Asked::Take)
}

/// Reads the rest of `shadow getalloc OBJ ID VALUE`, which asks for the event `ShadowGetOrAlloc`.
fn get_or_alloc_line(words: &mut LineWords<'_>, event: &mut Event) -> Result<Asked, LineFault>
    ensures { line_with result event.new ≡ get_or_alloc_line words.old }
{
    let (key, value) = variable(words)?;
    *event = Event::ShadowGetOrAlloc(key, value);
    Ok(Asked::Take)
}

/// Reads the rest of `shadow free OBJ ID`, which asks for the event `ShadowFree`.
fn free_line(words: &mut LineWords<'_>, event: &mut Event) -> Result<Asked, LineFault>
    ensures { line_with result event.new ≡ free_line words.old }
{
    *event = Event::ShadowFree(key(words)?);
    Ok(Asked::Take)
}

/// Reads the rest of `shadow freeall ID`, which asks for the event `ShadowFreeAll`.
fn free_all_line(words: &mut LineWords<'_>, event: &mut Event) -> Result<Asked, LineFault>
    ensures { line_with result event.new ≡ free_all_line words.old }
{
    let id = only_word(words)?;
    *event = Event::ShadowFreeAll(number(id)?);
    Ok(Asked::Take)
}

/// Reads the rest of `shadow get OBJ ID`, which asks to see a variable.
fn get_line(words: &mut LineWords<'_>) -> Result<Asked, LineFault>
    ensures { (event : Event) → line_with result event ≡ get_line words.old }
{
    Ok(Asked::Ask(Query::Variable(key(words)?)))
}

/// Reads the words after `shadow`: a verb, and the words that the verb needs. A key is two numbers, the number of the
/// parent object and the id. A value may follow the key.
pub(crate) fn shadow_line(words: &mut LineWords<'_>, event: &mut Event) -> Result<Asked, LineFault>
    ensures { line_with result event.new ≡ shadow_line words.old }
{
    let verb = word(words)?;
    if is_word(verb, b"alloc") {
        alloc_line(words, event)
    } else if is_word(verb, b"getalloc") {
        get_or_alloc_line(words, event)
    } else if is_word(verb, b"free") {
        free_line(words, event)
    } else if is_word(verb, b"freeall") {
        free_all_line(words, event)
    } else if is_word(verb, b"get") {
        get_line(words)
    } else {
        Err(LineFault::BadLine)
    }
}
