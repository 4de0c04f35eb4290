//! The lines that say what tasks do. In a kernel nobody types such lines. In the console they replace the scheduler.

ghost use Rattle.std.specs.Prelude.{◌≡◌, ◌≤◌, length};
ghost use Rattle.klp_console_commands.specs.Words.{words_of};
ghost use Rattle.klp_console_commands.specs.Names.{is_frame, are_frames, versions_of};
ghost use Rattle.klp_console_commands.specs.Lines.{sleep_line, fork_line, plain_event, plain_line, task_line};
ghost use Rattle.klp_console_commands.specs.Asked.{line_with};

use crate::fault::LineFault;
use crate::names::{NameResolver, task};
use crate::request::Asked;
use crate::words::{end, is_console_name, is_word, number_to, only_word, word};
use klp_model::Event;
use klp_types::{Frames, MAX_FRAMES, MAX_INDEX, MAX_TASK_NUMBER};
use klp_words::{LineWords, cut, spelling_of};

/// Whether a word spells a function that a task may be inside of. The form of a line is checked before its names, so
/// the function needn't exist.
fn is_frame(word: &[u8]) -> bool
    ensures { result ≡ is_frame word.now }
{
    if spelling_of(word).is_some() {
        return true;
    }
    let (patch, index) = cut(word, b':');
    is_console_name(patch) && number_to(MAX_INDEX, index).is_ok()
}

/// Whether each word spells a function, and there are at most as many words as a task can be inside of functions. The
/// words are read again later for their names, so that no list of half-read frames is needed (docs/DECISIONS.md,
/// "Frames read twice").
fn are_frames(words: &LineWords<'_>) -> bool
    ensures { result ≡ are_frames words.now }
{
    let mut left = words.again();
    let mut count = 0;
    while let Some(word) = left.next() {
        if count == MAX_FRAMES || !is_frame(word) {
            return false;
        }
        count += 1;
    }
    true
}

/// Returns the functions that the words spell, or the fault of the first name that can't be found. The caller has
/// checked that there are at most `MAX_FRAMES` words. So each `push` succeeds, and its result is ignored.
fn frames(words: &LineWords<'_>, names: &NameResolver<'_>) -> Result<Frames, LineFault>
    requires { length words.now ≤ MAX_FRAMES }
    ensures { result ≡ versions_of names.now words.now }
{
    let mut left = words.again();
    let mut frames = Frames::new();
    while let Some(word) = left.next() {
        let _ = frames.push(names.version(word)?);
    }
    Ok(frames)
}

/// Reads the words after `task sleep TASK`: the functions that the task is inside of, innermost last. The list of
/// functions may be empty.
fn sleep_line(
    number: u64,
    words: &mut LineWords<'_>,
    names: &NameResolver<'_>,
    event: &mut Event,
) -> Result<Asked, LineFault>
    ensures { line_with result event.new ≡ sleep_line names.now number words.old }
{
    if !are_frames(words) {
        return Err(LineFault::BadLine);
    }
    let task = task(number)?;
    *event = Event::Sleep(task, frames(words, names)?);
    Ok(Asked::Take)
}

/// Reads the word after `task fork TASK`: the number of the new task. The form of this word is checked before either
/// task is looked up.
fn fork_line(number: u64, words: &mut LineWords<'_>, event: &mut Event) -> Result<Asked, LineFault>
    ensures { line_with result event.new ≡ fork_line number words.old }
{
    let child = only_word(words)?;
    let child = number_to(MAX_TASK_NUMBER, child)?;
    let parent = task(number)?;
    *event = Event::Fork(parent, task(child)?);
    Ok(Asked::Take)
}

/// Sets the event of a verb that needs no word but the task. An unknown verb makes the line bad, whatever the task is.
fn plain_event(verb: &[u8], number: u64, event: &mut Event) -> Result<Asked, LineFault>
    ensures { line_with result event.new ≡ plain_event verb.now number }
{
    match verb {
        b"new" => *event = Event::NewTask(task(number)?),
        b"end" => *event = Event::EndTask(task(number)?),
        b"enter" => *event = Event::EnterKernel(task(number)?),
        b"exit" => *event = Event::ExitToUser(task(number)?),
        b"wake" => *event = Event::Wake(task(number)?),
        _ => return Err(LineFault::BadLine),
    }
    Ok(Asked::Take)
}

/// Reads the rest of a `task` line whose verb needs no word but the task.
fn plain_line(
    verb: &[u8],
    number: u64,
    words: &mut LineWords<'_>,
    event: &mut Event,
) -> Result<Asked, LineFault>
    ensures { line_with result event.new ≡ plain_line verb.now number words.old }
{
    end(words)?;
    plain_event(verb, number, event)
}

/// Reads the words after `task`: a verb, a task, and the words that the verb needs. Every verb has a task, so the
/// task's number is read before the verb is known.
pub(crate) fn task_line(
    words: &mut LineWords<'_>,
    names: &NameResolver<'_>,
    event: &mut Event,
) -> Result<Asked, LineFault>
    ensures { line_with result event.new ≡ task_line names.now words.old }
{
    let verb = word(words)?;
    let word = word(words)?;
    let number = number_to(MAX_TASK_NUMBER, word)?;
    if is_word(verb, b"sleep") {
        sleep_line(number, words, names, event)
    } else if is_word(verb, b"fork") {
        fork_line(number, words, event)
    } else {
        plain_line(verb, number, words, event)
    }
}
