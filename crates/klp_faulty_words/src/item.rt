//! Reads lines of a trace that are about one task, or that are no items. Also reads lines of a script that may be
//! misspelled.

use crate::names::{CatalogNames, WordKind, wrong_word};
use crate::stray::{is_query, is_reported_elsewhere};
use crate::wrong::Wrong;
use klp_messages::word_at;
use klp_trace::LineParts;
use klp_types::MAX_FRAMES;
use klp_words::{LineWords, Separators, microseconds, number64};

/// The forms of items. A word in capital letters means any word of its kind, and `..` means further words of the kind
/// before it. The lines of shadow variables have no names that could be wrong, so they are left out.
static FORMS: [&str; 19] = [
    "call TASK SYMBOL",
    "return TASK",
    "saw TASK STATE",
    "saw PATCH gone",
    "ran TASK FRAME",
    "hooked SYMBOL",
    "plain SYMBOL",
    "load PATCH",
    "insmod OBJECT",
    "rmmod OBJECT",
    "poll",
    "echo SWITCH > FILE",
    "task new TASK",
    "task end TASK",
    "task enter TASK",
    "task exit TASK",
    "task wake TASK",
    "task fork TASK TASK",
    "task sleep TASK FRAME ..",
];

/// The form of an item that says what was read in a patch's files. Other items begin with `saw` too, so this form isn't
/// in [`FORMS`].
const FILES: &str = "saw PATCH ENABLED TRANSITION";

/// The first words of items that are no events.
const OF_NO_EVENT: [&[u8]; 6] = [b"call", b"return", b"saw", b"ran", b"hooked", b"plain"];

/// For each word in capital letters, its kind.
static KINDS: [(&str, WordKind); 10] = [
    ("PATCH", WordKind::Patch),
    ("OBJECT", WordKind::Object),
    ("SYMBOL", WordKind::Symbol),
    ("FRAME", WordKind::Frame),
    ("FILE", WordKind::File),
    ("TASK", WordKind::Task),
    ("SWITCH", WordKind::Switch),
    ("ENABLED", WordKind::Switch),
    ("TRANSITION", WordKind::Switch),
    ("STATE", WordKind::State),
];

/// What is wanted in place of a line that has none of these forms. It is also wanted in place of a console line that
/// asks for no event.
const ITEM: &str =
    "is call, return, saw, ran, hooked, plain, or a line of the console that asks for an event";

/// What is wanted in place of a line that begins with `saw` and says neither what a task's file read nor what those of a
/// patch did.
const SAW: &str = "is saw TASK STATE, saw PATCH ENABLED TRANSITION, or saw PATCH gone";

/// What is wanted in place of a line with an answer whose item isn't an event.
const ANSWERED: &str = "is a line without =>, behind which an event's answer stands";

/// What is wanted after `=>`.
const ANSWER: &str =
    "is ?, or an answer as the console writes it, like ok, pending 2 or error 16 Busy";

/// What is wanted after `@`.
const TIME: &str = "is seconds, with 6 decimals at most, and an item behind a space";

/// What is wanted in place of a script's line that has none of the console's forms.
const LINE: &str = "is a line of the console";

/// What is wanted in place of a typed line that has none of the console's forms.
const TYPED: &str = "is a line of the console: help lists them";

/// What is wanted in place of a typed line with a tab, which the console takes for a part of a word.
const TABS: &str = "is a space in place of each tab";

/// What a line of a trace says about a task, or about a module that is unloaded. Other lines have no item of this type.
#[derive(Clone, Copy)]
pub enum Item<'a> {
    /// The task calls the function with this spelling.
    Call(u64, &'a [u8]),
    Return(u64),
    Sleep(u64),
    Exit(u64),
    End(u64),
    Going(&'a [u8]),
}

/// Returns the words of a line.
fn words_of(line: &[u8]) -> LineWords<'_> {
    LineWords::new(line, Separators::Spaces)
}

/// Returns the word with this number, counted from 1. If the line has fewer words, the result is empty.
fn word(line: &[u8], number: usize) -> &[u8] {
    word_at(words_of(line), number)
}

/// Returns what a line `task VERB TASK` says about a task, if the verb is `sleep`, `exit` or `end`. `verb` and `task`
/// are the second and third words of the line. Returns `None` for any other verb, or if `task` is no number.
fn task_item<'a>(verb: &[u8], task: &[u8]) -> Option<Item<'a>> {
    let task = number64(task)?;
    if verb == b"sleep".as_slice() {
        Some(Item::Sleep(task))
    } else if verb == b"exit".as_slice() {
        Some(Item::Exit(task))
    } else if verb == b"end".as_slice() {
        Some(Item::End(task))
    } else {
        None
    }
}

impl<'a> Item<'a> {
    /// Reads what a line of a trace says about a task or about a module that is unloaded, even if the line has surplus
    /// words. Returns `None` for any other line.
    pub fn read(line: &'a [u8]) -> Option<Item<'a>> {
        let item = LineParts::of(line).item;
        let (first, second, third) = (word(item, 1), word(item, 2), word(item, 3));
        if first == b"call".as_slice() {
            Some(Item::Call(number64(second)?, third))
        } else if first == b"return".as_slice() {
            Some(Item::Return(number64(second)?))
        } else if first == b"task".as_slice() {
            task_item(second, third)
        } else if first == b"rmmod".as_slice() {
            Some(Item::Going(second))
        } else {
            None
        }
    }
}

/// Whether a line begins as a form does. Compares the first words. If the form has a verb, as `task new TASK` does,
/// compares the second words too. A verb has small letters.
fn begins_as(form: &[u8], line: &[u8]) -> bool {
    let (first, second) = (word(form, 1), word(form, 2));
    let has_verb = second.iter().any(u8::is_ascii_lowercase);
    first == word(line, 1) && (!has_verb || second == word(line, 2))
}

/// Returns the kind that this part of a form wants, if the word isn't of this kind. Returns `None` if the word is of
/// this kind, or if the part isn't a word in capital letters, so it wants no kind.
fn wanted_kind(part: &[u8], word: &[u8], names: &CatalogNames<'_>) -> Option<WordKind> {
    let (_, kind) = KINDS.iter().find(|row| row.0.as_bytes() == part)?;
    (!names.has(*kind, word)).then_some(*kind)
}

/// Returns what is wrong with a line that should have this form. If a word isn't of the wanted kind, the first such
/// word is wrong. Otherwise the whole line is wrong, if it has too few words or too many. Returns `None` if the line
/// has the form. `names` and `catalog` are the names and the text of the same catalog.
fn wrong_in<'a>(
    form: &'static str,
    line: &'a [u8],
    names: &CatalogNames<'_>,
    catalog: &'a [u8],
) -> Option<Wrong<'a>> {
    let (mut parts, mut words) = (words_of(form.as_bytes()), words_of(line));
    let mut part = parts.next();
    // The form ends with `FRAME ..`, which means any number of frames, also none.
    let has_more = form.ends_with("..");
    // A line has at most as many words as bytes, so the loop never ends by its bound.
    for _ in 0..=line.len() {
        match (part, words.next()) {
            (Some(part), Some(word)) => {
                if let Some(kind) = wanted_kind(part, word, names) {
                    return Some(wrong_word(kind, word, catalog));
                }
            }
            (None, None) => return None,
            (Some(b"FRAME"), None) if has_more => return None,
            _ => break,
        }
        if !has_more || part != Some(b"FRAME".as_slice()) {
            part = parts.next();
        }
    }
    Some(Wrong::Form(line, form))
}

/// Returns what is wrong with a line without an answer that has a form of [`FORMS`], but still isn't an item. Reports
/// too many frames if the form ends with `..`, a function that its patch lacks if the form ends with one frame, and
/// else the whole line.
fn wrong_though_fitting<'a>(form: &'static str, line: &'a [u8]) -> Wrong<'a> {
    if form.ends_with("..") {
        Wrong::Most(line, MAX_FRAMES, "functions")
    } else if form.ends_with("FRAME") {
        Wrong::Word(word(line, 3), "is a function that the patch has")
    } else {
        Wrong::Word(line, ITEM)
    }
}

/// Returns what is wrong with a line that has none of the forms: it is empty, the word after `task` is wrong, or the
/// whole line is. `wanted` is the phrase for what is wanted in place of the whole line.
fn wrong_without_form<'a>(line: &'a [u8], wanted: &'static str) -> Wrong<'a> {
    let first = word(line, 1);
    if first.is_empty() {
        Wrong::Lacking("is an item on each line")
    } else if first == b"task".as_slice() {
        Wrong::Word(
            word(line, 2),
            "is new, end, enter, exit, wake, fork or sleep",
        )
    } else {
        Wrong::Word(line, wanted)
    }
}

/// Whether a line begins with `saw`, and neither names a task by its number nor has as many words as are needed to say
/// what the files of a patch read.
fn is_no_sight(line: &[u8]) -> bool {
    let (first, second, third, fourth) = (
        word(line, 1),
        word(line, 2),
        word(line, 3),
        word(line, 4),
    );
    let is_short = third.is_empty() || (third != b"gone".as_slice() && fourth.is_empty());
    first == b"saw".as_slice() && number64(second).is_none() && is_short
}

/// Returns the form that a line should have, by the words with which it begins. If the first word is `saw`, the third
/// and fourth words decide. Returns `None` if no form begins so.
fn form_of(line: &[u8]) -> Option<&'static str> {
    if word(line, 1) == b"saw".as_slice() {
        return Some(match (word(line, 3), word(line, 4)) {
            (b"gone", b"") => "saw PATCH gone",
            (_, b"") => "saw TASK STATE",
            _ => FILES,
        });
    }
    let form = FORMS.iter().find(|form| begins_as(form.as_bytes(), line))?;
    Some(*form)
}

/// Returns what is wrong with a line of a trace whose item has this form, so that none of the item's words is wrong. If
/// the line has an answer, the answer is wrong, or there mustn't be one, since the item is no event. Otherwise the item
/// is wrong.
fn wrong_answer<'a>(parts: LineParts<'a>, form: &'static str) -> Wrong<'a> {
    match parts.answer {
        Some(_) if is_of_no_event(parts.item) => Wrong::Word(parts.text, ANSWERED),
        Some(answer) => Wrong::Word(answer, ANSWER),
        None => wrong_though_fitting(form, parts.item),
    }
}

/// Whether an item begins with a word that no event begins with, so that it can have no answer.
fn is_of_no_event(item: &[u8]) -> bool {
    OF_NO_EVENT.iter().any(|first| *first == word(item, 1))
}

/// Returns what is wrong with a line of a trace that has no item: its time, its item or its answer. `names` and
/// `catalog` are the names and the text of the same catalog.
pub fn wrong_of<'a>(line: &'a [u8], names: &CatalogNames<'_>, catalog: &'a [u8]) -> Wrong<'a> {
    let parts = LineParts::of(line);
    if let Some(time) = parts.time
        && microseconds(time).is_none()
    {
        return Wrong::Word(time, TIME);
    }
    if parts.answer.is_none() && is_no_sight(parts.item) {
        return Wrong::Word(parts.item, SAW);
    }
    match form_of(parts.item) {
        Some(form) => {
            wrong_in(form, parts.item, names, catalog).unwrap_or_else(|| wrong_answer(parts, form))
        }
        None => match parts.answer {
            Some(answer) if word(parts.item, 1) == b"shadow".as_slice() => Wrong::Word(
                answer, ANSWER,
            ),
            _ => wrong_without_form(parts.item, ITEM),
        },
    }
}

/// Returns what may be misspelled in a line that was typed for the console, as [`misspelled_in`] does, also for a line
/// with a tab or a carriage return, or one that begins as a comment or as a line of a trace does.
pub fn mistyped_in<'a>(
    line: &'a [u8],
    names: &CatalogNames<'_>,
    catalog: &'a [u8],
) -> Option<Wrong<'a>> {
    if line.contains(&b'\t') {
        return Some(Wrong::Word(line, TABS));
    }
    let first = word(line, 1);
    if first.is_empty() || first == b"shadow".as_slice() || is_query(line) {
        return None;
    }
    match form_of(line) {
        Some(form) if !is_of_no_event(line) => wrong_in(form, line, names, catalog),
        _ => Some(wrong_without_form(line, TYPED)),
    }
}

/// Returns what may be misspelled in a line of a script: the line, if it has none of the console's forms, or a name
/// that the catalog lacks. Returns `None` if nothing seems misspelled, and for a line that isn't checked: one that asks
/// for no event, or that [`is_reported_elsewhere`] skips. `names` and `catalog` are the names and the text of the same
/// catalog.
pub fn misspelled_in<'a>(
    line: &'a [u8],
    names: &CatalogNames<'_>,
    catalog: &'a [u8],
) -> Option<Wrong<'a>> {
    if is_reported_elsewhere(line) || is_query(line) {
        return None;
    }
    match form_of(line) {
        Some(form) => wrong_in(form, line, names, catalog),
        None => Some(wrong_without_form(line, LINE)),
    }
}
