//! Reads the item of a line, without the line's time.
ghost use Rattle.std.specs.Prelude.{◌≡◌, IfOk};
ghost use Rattle.klp_console.specs.Asked.{event_of};
ghost use Rattle.klp_trace.specs.Items.{call_of, return_of, item_alone, event_answered, item_answered, item_of};

use crate::answer::answer_of;
use crate::line::item_and_answer;
use crate::names::task_of;
use crate::sight::{ran_of, saw_of, text_of};
use klp_console::{event_of, site_of};
use klp_core::Manager;
use klp_model::{Event, Seen};
use klp_watch::Observed;
use klp_words::{LineWords, Separators};
use std::alloc::{AllocError, Global};

/// Reads the words that follow `call`: a task, and the symbol that it calls. Returns `None` if a word is missing,
/// misspelled or surplus, or if there is no such symbol.
fn call_of(words: &mut LineWords<'_>, manager: &Manager) -> Option<Observed>
    ensures { result ≡ call_of manager.now words.old }
{
    let (Some(task), Some(symbol), None) = (words.next(), words.next(), words.next()) else {
        return None;
    };
    let task = task_of(task)?;
    Some(Observed::Seen(Seen::Call(task, site_of(symbol, manager)?)))
}

/// Reads the word that follows `return`: the task that returns. Returns `None` if there isn't exactly one word, or if
/// it is no task's number.
fn return_of(words: &mut LineWords<'_>) -> Option<Observed>
    ensures { result ≡ return_of words.old }
{
    let (Some(task), None) = (words.next(), words.next()) else {
        return None;
    };
    Some(Observed::Seen(Seen::Return(task_of(task)?)))
}

/// Reads an item that has no answer: a call, a return, a sight or an event. `event` is the event that the text asks for
/// as a console line, if it asks for one. Returns `None` if the text is no item. Looks names up in the manager's
/// catalog, and doesn't use the manager's state.
fn item_alone(text: &[u8], event: Option<Event>, manager: &Manager) -> Option<Observed>
    requires { event ≡ event_of manager.now text.now }
    ensures { result ≡ item_alone manager.now text.now }
{
    let mut words = LineWords::new(text, Separators::Spaces);
    let first = words.next()?;
    if first == b"call".as_slice() {
        call_of(&mut words, manager)
    } else if first == b"return".as_slice() {
        return_of(&mut words)
    } else if first == b"saw".as_slice() {
        Some(Observed::Saw(saw_of(&mut words, manager)?))
    } else if first == b"ran".as_slice() {
        Some(Observed::Saw(ran_of(&mut words, manager)?))
    } else if first == b"hooked".as_slice() {
        Some(Observed::Saw(text_of(&mut words, true, manager)?))
    } else if first == b"plain".as_slice() {
        Some(Observed::Saw(text_of(&mut words, false, manager)?))
    } else {
        Some(Observed::Seen(Seen::Event(event?)))
    }
}

/// Reads the kernel's answer to an event, and returns the event with it as an item. If the answer is `?`, it isn't
/// known, and the item is the event alone. Returns `None` if the console writes no such answer, and `Err` if memory
/// runs out.
fn event_answered(
    alloc: Global,
    event: Event,
    answer: &[u8],
    manager: &Manager,
) -> Result<Option<Observed>, AllocError>
    ensures { IfOk result (λ item. item ≡ event_answered manager.now answer.now event) }
{
    if answer == b"?".as_slice() {
        return Ok(Some(Observed::Seen(Seen::Event(event))));
    }
    let answer = answer_of(alloc, answer, manager)?;
    Ok(answer.map(|answer| Observed::Answered(event, answer)))
}

/// Reads an event from `text` and the kernel's answer to it from `answer`. Returns `None` if `text` asks for no event
/// or if `answer` isn't an answer, and `Err` if memory runs out.
fn item_answered(
    alloc: Global,
    text: &[u8],
    answer: &[u8],
    manager: &Manager,
) -> Result<Option<Observed>, AllocError>
    ensures { IfOk result (λ item. item ≡ item_answered manager.now text.now answer.now) }
{
    match event_of(text, manager) {
        Some(event) => event_answered(alloc, event, answer, manager),
        None => Ok(None),
    }
}

/// Reads the item of a line, with its answer if it has one. `text` is the line without its time. Returns `None` if the
/// text is no item, and `Err` if memory runs out.
pub(crate) fn item_of(
    alloc: Global,
    text: &[u8],
    manager: &Manager,
) -> Result<Option<Observed>, AllocError>
    ensures { IfOk result (λ item. item ≡ item_of manager.now text.now) }
{
    match item_and_answer(text) {
        (line, Some(answer)) => item_answered(alloc, line, answer, manager),
        (line, None) => Ok(item_alone(line, event_of(line, manager), manager)),
    }
}
