//! The kernel's answer to an event, as a line of a trace spells it.
ghost use Rattle.std.specs.Prelude.{◌≡◌, ◌^◌, IfOk, option_map};
ghost use Rattle.klp_model.specs.declared.event.Reply.TheVariants.{Pending, Completed, Value, Freed, Woken};
ghost use Rattle.klp_words.specs.Words.{decimal_of, shadow_value_of};
ghost use Rattle.klp_words.specs.Split.{separates, words_between};
ghost use Rattle.klp_words.specs.declared.split.Separators.TheVariants.{Spaces};
ghost use Rattle.klp_trace.specs.Names.{frames_of, flag_of};
ghost use Rattle.klp_trace.specs.Answers.{next_as, pre_failed_of, reply_with, reply_in, is_line_of, as_written};
ghost use Rattle.klp_trace.specs.Answers.{refusal_of, answer_of};

use crate::names::{flag_of, frames_of, object_of, patch_of};
use klp_console::{all_refusals, answer_text, refusal_line};
use klp_core::Manager;
use klp_model::{Refusal, Reply};
use klp_words::{LineWords, Separators, number64, shadow_value, signed};
use std::alloc::{AllocError, Global};

/// Reads the word after `pending`: how many tasks aren't at the target, a number below 256. Returns `None` if there is
/// no such word.
fn pending_of(words: &mut LineWords<'_>) -> Option<Reply>
    ensures { result ≡ option_map Pending (next_as (decimal_of (2 ^ 8)) words.old) }
{
    let tasks = u8::try_from(number64(words.next()?)?).ok()?;
    Some(Reply::Pending(tasks))
}

/// Reads the word after `completed`: `1` if the patch was enabled, `0` if it was disabled. Returns `None` if there is
/// no such word.
fn completed_of(words: &mut LineWords<'_>) -> Option<Reply>
    ensures { result ≡ option_map Completed (next_as flag_of words.old) }
{
    Some(Reply::Completed(flag_of(words.next()?)?))
}

/// Reads the words after `prefailed`: the patch and the object whose callback failed, and the callback's status.
/// Returns `None` if a word is missing or misspelled, or if the catalog has no such patch or object.
fn pre_failed_of(words: &mut LineWords<'_>, manager: &Manager) -> Option<Reply>
    ensures { result ≡ pre_failed_of manager.now words.old }
{
    let (Some(patch), Some(object), Some(status)) = (words.next(), words.next(), words.next())
    else {
        return None;
    };
    let patch = patch_of(patch, manager)?;
    let object = object_of(object, manager)?;
    Some(Reply::PreFailed(patch, object, signed(status)?))
}

/// Reads the word after `value`: the value of a shadow variable. Returns `None` if there is no such word.
fn value_of(words: &mut LineWords<'_>) -> Option<Reply>
    ensures { result ≡ option_map Value (next_as shadow_value_of words.old) }
{
    Some(Reply::Value(shadow_value(words.next()?)?))
}

/// Reads the word after `freed`: how many shadow variables were freed, a number below 65536. Returns `None` if there is
/// no such word.
fn freed_of(words: &mut LineWords<'_>) -> Option<Reply>
    ensures { result ≡ option_map Freed (next_as (decimal_of (2 ^ 16)) words.old) }
{
    let count = u16::try_from(number64(words.next()?)?).ok()?;
    Some(Reply::Freed(count))
}

/// Reads the words after `woken`: the functions that the woken task was inside of, innermost last. Returns `None` if a
/// word spells no function, or if there are more words than a task can have frames.
fn woken_of(words: &mut LineWords<'_>, manager: &Manager) -> Option<Reply>
    ensures { result ≡ option_map Woken (frames_of manager.now words.old) }
{
    Some(Reply::Woken(frames_of(words, manager)?))
}

/// Reads a reply: its first word, and from `words` what must follow it. Returns `None` if they spell no reply. Ignores
/// surplus words, since `as_written` compares the whole text with what the console writes for the reply.
fn reply_with(first: &[u8], words: &mut LineWords<'_>, manager: &Manager) -> Option<Reply>
    ensures { result ≡ reply_with manager.now first.now words.old }
{
    if first == b"ok".as_slice() {
        Some(Reply::Done)
    } else if first == b"started".as_slice() {
        Some(Reply::Started)
    } else if first == b"reversed".as_slice() {
        Some(Reply::Reversed)
    } else if first == b"pending".as_slice() {
        pending_of(words)
    } else if first == b"completed".as_slice() {
        completed_of(words)
    } else if first == b"prefailed".as_slice() {
        pre_failed_of(words, manager)
    } else if first == b"value".as_slice() {
        value_of(words)
    } else if first == b"freed".as_slice() {
        freed_of(words)
    } else if first == b"woken".as_slice() {
        woken_of(words, manager)
    } else {
        None
    }
}

/// Reads the reply that a text spells, even if the text has surplus words, spaces or zeros. Returns `None` if the text
/// spells no reply. `as_written` compares the text with what the console writes.
fn reply_in(text: &[u8], manager: &Manager) -> Option<Reply>
    ensures { result ≡ reply_in manager.now (words_between (separates Spaces) text.now) }
{
    let mut words = LineWords::new(text, Separators::Spaces);
    let first = words.next()?;
    reply_with(first, &mut words, manager)
}

/// Whether `line` is `text` followed by a line feed.
fn is_line_of(text: &[u8], line: &[u8]) -> bool
    ensures { result ≡ is_line_of text.now line.now }
{
    match line.strip_suffix(b"\n".as_slice()) {
        Some(front) => front == text,
        None => false,
    }
}

/// Returns the reply as an answer if the console writes exactly this text for it. Returns `None` if the console writes
/// another text or there is no reply, and `Err` if memory runs out.
fn as_written(
    alloc: Global,
    text: &[u8],
    reply: Option<Reply>,
    manager: &Manager,
) -> Result<Option<Result<Reply, Refusal>>, AllocError>
    ensures { IfOk result (λ answer. answer ≡ as_written manager.now text.now reply) }
{
    let Some(reply) = reply else {
        return Ok(None);
    };
    let answer = Ok(reply);
    let line = answer_text(alloc, manager, &answer)?;
    if is_line_of(text, &line) {
        Ok(Some(answer))
    } else {
        Ok(None)
    }
}

/// Returns the refusal for which the console writes exactly this text. Returns `None` if there is no such refusal.
/// Tries each refusal, since there are few.
fn refusal_of(text: &[u8]) -> Option<Refusal>
    ensures { result ≡ refusal_of text.now }
{
    let mut all = all_refusals().iter();
    all.find(|refusal| is_line_of(text, refusal_line(**refusal)))
        .copied()
}

/// Reads a kernel's answer: a refusal, or a reply. Returns the answer for which the console writes exactly this text.
/// Returns `None` if there is no such answer, and `Err` if memory runs out.
pub(crate) fn answer_of(
    alloc: Global,
    text: &[u8],
    manager: &Manager,
) -> Result<Option<Result<Reply, Refusal>>, AllocError>
    ensures { IfOk result (λ answer. answer ≡ answer_of manager.now text.now) }
{
    match refusal_of(text) {
        Some(refusal) => Ok(Some(Err(refusal))),
        None => as_written(alloc, text, reply_in(text, manager), manager),
    }
}
