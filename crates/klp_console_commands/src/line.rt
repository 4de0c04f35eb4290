//! Reading a line of the console.

ghost use Rattle.std.specs.Prelude.{◌≡◌, length};
ghost use Rattle.klp_console_commands.specs.Names.{names_of};
ghost use Rattle.klp_console_commands.specs.Lines.{keyword_of, load_line, insmod_line, rmmod_line, alone, text_line};
ghost use Rattle.klp_console_commands.specs.Lines.{stack_line, pick_line, runs_line, rewind_line, line_of, request_of};
ghost use Rattle.klp_console_commands.specs.Asked.{asked_with, line_with, request_with};
ghost use Rattle.klp_console_commands.specs.declared.request.Request.TheVariants.{Take};
ghost use Rattle.klp_model.specs.declared.event.Event.{Event};
ghost use Rattle.klp_model.specs.declared.event.Event.TheVariants.{Poll};

use crate::fault::LineFault;
use crate::files::{cat_line, echo_line, list_line};
use crate::names::{NameResolver, task};
use crate::request::{Asked, Query};
use crate::shadow::shadow_line;
use crate::tasks::task_line;
use crate::words::{end, is_console_name, number_to, only_name, only_word, two_words};
use klp_catalog::Catalog;
use klp_model::Event;
use klp_modules::Modules;
use klp_types::{MAX_MARK, MAX_TASK_NUMBER};
use klp_words::{LineWords, Separators, spelling_of};

/// The first word of a line.
#[derive(Clone, Copy)]
pub(crate) enum Keyword {
    Load,
    Insmod,
    Rmmod,
    Poll,
    Echo,
    Cat,
    List,
    Task,
    Shadow,
    Text,
    Stack,
    Pick,
    Runs,
    Mark,
    Rewind,
    Seal,
}

/// Returns the keyword that a word of four bytes spells. Returns `None` if the word spells no keyword. Most keywords
/// have four bytes.
fn keyword_of_four(word: &[u8]) -> Option<Keyword>
    requires { length word.now ≡ 4 }
    ensures { result ≡ keyword_of word.now }
{
    match word {
        b"task" => Some(Keyword::Task),
        b"poll" => Some(Keyword::Poll),
        b"echo" => Some(Keyword::Echo),
        b"load" => Some(Keyword::Load),
        b"text" => Some(Keyword::Text),
        b"pick" => Some(Keyword::Pick),
        b"runs" => Some(Keyword::Runs),
        b"mark" => Some(Keyword::Mark),
        b"seal" => Some(Keyword::Seal),
        _ => None,
    }
}

/// Returns the keyword that a word spells. Returns `None` if the word spells no keyword. Patterns are compared byte by
/// byte, so no keyword costs a call.
fn keyword_of(word: &[u8]) -> Option<Keyword>
    ensures { result ≡ keyword_of word.now }
{
    match word {
        [_, _, _, _] => keyword_of_four(word),
        b"shadow" => Some(Keyword::Shadow),
        b"cat" => Some(Keyword::Cat),
        b"insmod" => Some(Keyword::Insmod),
        b"rmmod" => Some(Keyword::Rmmod),
        b"ls" => Some(Keyword::List),
        b"stack" => Some(Keyword::Stack),
        b"rewind" => Some(Keyword::Rewind),
        _ => None,
    }
}

/// Reads the rest of `load PATCH`, which asks for the event `Enable`.
fn load_line(
    words: &mut LineWords<'_>,
    names: &NameResolver<'_>,
    event: &mut Event,
) -> Result<Asked, LineFault>
    ensures { line_with result event.new ≡ load_line names.now words.old }
{
    let patch = only_name(words)?;
    *event = Event::Enable(names.patch(patch)?);
    Ok(Asked::Take)
}

/// Reads the rest of `insmod MODULE`, which asks for the event `Coming`.
fn insmod_line(
    words: &mut LineWords<'_>,
    names: &NameResolver<'_>,
    event: &mut Event,
) -> Result<Asked, LineFault>
    ensures { line_with result event.new ≡ insmod_line names.now words.old }
{
    let object = only_name(words)?;
    *event = Event::Coming(names.object(object)?);
    Ok(Asked::Take)
}

/// Reads the rest of `rmmod MODULE`, which asks for the event `Going`.
fn rmmod_line(
    words: &mut LineWords<'_>,
    names: &NameResolver<'_>,
    event: &mut Event,
) -> Result<Asked, LineFault>
    ensures { line_with result event.new ≡ rmmod_line names.now words.old }
{
    let object = only_name(words)?;
    *event = Event::Going(names.object(object)?);
    Ok(Asked::Take)
}

/// Returns `asked` for a line that must have only one word. Returns `BadLine` if another word follows.
fn alone(asked: Asked, words: &mut LineWords<'_>) -> Result<Asked, LineFault>
    ensures { (event : Event) → line_with result event ≡ alone (request_with asked event) words.old }
{
    end(words)?;
    Ok(asked)
}

/// Reads the rest of `poll`, which asks for the event `Poll`.
fn poll_line(words: &mut LineWords<'_>, event: &mut Event) -> Result<Asked, LineFault>
    ensures { line_with result event.new ≡ alone (Take Poll) words.old }
{
    end(words)?;
    *event = Event::Poll;
    Ok(Asked::Take)
}

/// Reads the rest of `text OBJECT`, which asks to see an object's text.
fn text_line(words: &mut LineWords<'_>, names: &NameResolver<'_>) -> Result<Asked, LineFault>
    ensures { (event : Event) → line_with result event ≡ text_line names.now words.old }
{
    let object = only_name(words)?;
    Ok(Asked::Ask(Query::Text(names.object(object)?)))
}

/// Reads the rest of `stack SYMBOL`, which asks to see a symbol's function stack.
fn stack_line(words: &mut LineWords<'_>, names: &NameResolver<'_>) -> Result<Asked, LineFault>
    ensures { (event : Event) → line_with result event ≡ stack_line names.now words.old }
{
    let symbol = only_word(words)?;
    let spelling = spelling_of(symbol).ok_or(LineFault::BadLine)?;
    Ok(Asked::Ask(Query::Stack(names.site(&spelling)?)))
}

/// Reads the rest of `pick TASK SYMBOL`, which asks to see what a task runs at a symbol.
fn pick_line(words: &mut LineWords<'_>, names: &NameResolver<'_>) -> Result<Asked, LineFault>
    ensures { (event : Event) → line_with result event ≡ pick_line names.now words.old }
{
    let (number, symbol) = two_words(words)?;
    let number = number_to(MAX_TASK_NUMBER, number)?;
    let spelling = spelling_of(symbol).ok_or(LineFault::BadLine)?;
    let task = task(number)?;
    Ok(Asked::Ask(Query::Pick(task, names.site(&spelling)?)))
}

/// Reads the rest of `runs PATCH OBJECT`, which asks to see how often callbacks ran.
fn runs_line(words: &mut LineWords<'_>, names: &NameResolver<'_>) -> Result<Asked, LineFault>
    ensures { (event : Event) → line_with result event ≡ runs_line names.now words.old }
{
    let (patch, object) = two_words(words)?;
    if !is_console_name(patch) || !is_console_name(object) {
        return Err(LineFault::BadLine);
    }
    let patch = names.patch(patch)?;
    Ok(Asked::Ask(Query::Runs(patch, names.object(object)?)))
}

/// Reads the rest of `rewind MARK`, which asks to undo all events but the first MARK.
fn rewind_line(words: &mut LineWords<'_>) -> Result<Asked, LineFault>
    ensures { (event : Event) → line_with result event ≡ rewind_line words.old }
{
    let mark = only_word(words)?;
    Ok(Asked::Rewind(number_to(MAX_MARK, mark)? as u32))
}

/// Reads the words after the first one, in the form of the keyword. If `keyword` is `None`, returns `BadLine`.
fn line_of(
    keyword: Option<Keyword>,
    words: &mut LineWords<'_>,
    names: &NameResolver<'_>,
    event: &mut Event,
) -> Result<Asked, LineFault>
    ensures { line_with result event.new ≡ line_of names.now keyword words.old }
{
    match keyword {
        Some(Keyword::Load) => load_line(words, names, event),
        Some(Keyword::Insmod) => insmod_line(words, names, event),
        Some(Keyword::Rmmod) => rmmod_line(words, names, event),
        Some(Keyword::Poll) => poll_line(words, event),
        Some(Keyword::Echo) => echo_line(words, names, event),
        Some(Keyword::Cat) => cat_line(words, names),
        Some(Keyword::List) => list_line(words, names),
        Some(Keyword::Task) => task_line(words, names, event),
        Some(Keyword::Shadow) => shadow_line(words, event),
        Some(Keyword::Text) => text_line(words, names),
        Some(Keyword::Stack) => stack_line(words, names),
        Some(Keyword::Pick) => pick_line(words, names),
        Some(Keyword::Runs) => runs_line(words, names),
        Some(Keyword::Mark) => alone(Asked::Ask(Query::Mark), words),
        Some(Keyword::Rewind) => rewind_line(words),
        Some(Keyword::Seal) => alone(Asked::Seal, words),
        None => Err(LineFault::BadLine),
    }
}

/// Reads what a line asks for. `line` has no line feed. A line without words gets no answer, and the result is `None`.
/// If the line asks for an event, the result is `Take`, and the event is written to `event`. If the line asks for
/// anything else, `event` means nothing afterwards. The time is linear in the length of the line, with one look-up for
/// each name.
pub fn read_request(
    line: &[u8],
    catalog: &Catalog,
    modules: &Modules,
    event: &mut Event,
) -> Option<Result<Asked, LineFault>>
    ensures { asked_with result event.new ≡ request_of (names_of catalog.now modules.now) line.now }
{
    // only spaces separate words, so a tab or a carriage return is a byte of a word; no name has such a byte
    // (docs/DECISIONS.md, "Words and bytes of names")
    let mut words = LineWords::new(line, Separators::Spaces);
    let first = words.next()?;
    let names = NameResolver { catalog, modules };
    Some(line_of(keyword_of(first), &mut words, &names, event))
}
