//! Finds the word at fault in a faulty line of a catalog, and says what is wanted in its place.

use crate::form::{Form, Part};
use crate::stray::BYTE_ORDER_MARK;
use crate::wrong::Wrong;
use klp_catalog_text::{CatalogLine, Lines, TextFault, TextFaultKind, words_of};
use klp_messages::{line_at, word_at};
use klp_types::{MAX_BODY, MAX_LINE};
use klp_words::{
    LineWords, hexadecimal, is_name, is_symbol_name, number32, number64, signed, spelling_of,
};
use std::alloc::Global;

/// The two byte-order marks of UTF-16, one of which may stand in front of a text.
const UTF16_MARKS: [[u8; 2]; 2] = [[0xfe, 0xff], [0xff, 0xfe]];

/// How many hexadecimal digits of a body spell one byte.
const DIGITS: usize = 2;

/// Whether a text begins as a catalog must. The first line that has a word and isn't a comment must be the line of a
/// handler or an object.
pub fn begins_as_catalog(text: &[u8]) -> bool {
    let mut lines = Lines::new(text);
    // No later line has a word, since each earlier line takes at least one byte.
    for _ in 0..text.len() {
        let line = lines.next().unwrap_or(&[]);
        let first = word_at(words_of(line), 1);
        if !first.is_empty() && line.first() != Some(&b'#') {
            return first == b"handler".as_slice() || first == b"object".as_slice();
        }
    }
    false
}

/// Whether the first two bytes of a text mark it as UTF-16.
pub fn begins_as_utf16(text: &[u8]) -> bool {
    UTF16_MARKS.iter().any(|mark| text.starts_with(mark))
}

/// Returns the first two words of a line, without a carriage return at the line's end. If the line lacks a word, the
/// empty word is returned in its place.
pub(crate) fn first_words(line: &[u8]) -> (&[u8], &[u8]) {
    let mut words = words_of(line.strip_suffix(b"\r").unwrap_or(line));
    let first = words.next().unwrap_or(&[]);
    (first, words.next().unwrap_or(&[]))
}

/// Whether a word spells the bytes of a body: pairs of hexadecimal digits.
fn is_body(word: &[u8]) -> bool {
    word.len() % DIGITS == 0 && word.iter().all(u8::is_ascii_hexdigit)
}

/// Whether a word is an edit of a callback. The catalog's reader decides this, from the words of a `pre` line with the
/// status 0 and this word. The result is true also if memory runs out, so that no good word is reported.
fn is_edit(alloc: Global, word: &[u8]) -> bool {
    let mut script = Vec::new(alloc);
    if script.extend_from_slice(b"0 ").is_err() || script.extend_from_slice(word).is_err() {
        return true;
    }
    let mut words = words_of(&script);
    let read = CatalogLine::read(alloc, None, 1, &script, b"pre", &mut words);
    !matches!(read, Err(TextFaultKind::BadEdit))
}

/// Whether a word is spelled as this part of a catalog's line must be. Doesn't check whether the catalog has what the
/// word names.
fn is_spelled(alloc: Global, part: Part, word: &[u8]) -> bool {
    match part {
        Part::Name => is_name(word),
        Part::SymbolName => is_symbol_name(word),
        Part::Address => hexadecimal(word).is_some(),
        Part::Body => is_body(word),
        Part::Symbol => spelling_of(word).is_some(),
        Part::Status => signed(word).is_some(),
        Part::Id => number64(word).is_some(),
        Part::Version => number32(word).is_some(),
        Part::Edit => is_edit(alloc, word),
    }
}

/// Returns the first of these words that isn't an edit, as the wrong word. `most` is at least the number of words.
fn bad_edit<'a>(alloc: Global, mut words: LineWords<'a>, most: usize) -> Wrong<'a> {
    let mut word = words.next().unwrap_or(&[]);
    for _ in 0..most {
        if !is_edit(alloc, word) {
            break;
        }
        word = words.next().unwrap_or(&[]);
    }
    Wrong::Word(word, Part::Edit.wanted())
}

/// Returns as the wrong word the first word of a line that isn't spelled as the line's form says. If all words are
/// spelled so, the line is a function's, and the second word is wrong: it spells a symbol of another object than the
/// target's.
fn bad_word<'a>(alloc: Global, form: &Form, line: &'a [u8]) -> Wrong<'a> {
    let mut words = words_of(line);
    words.next();
    for part in form.parts {
        if let Part::Edit = *part {
            // A line has at most as many words as bytes.
            return bad_edit(alloc, words, line.len());
        }
        let word = words.next().unwrap_or(&[]);
        if !is_spelled(alloc, *part, word) {
            return Wrong::Word(word, part.wanted());
        }
    }
    Wrong::Word(word_at(words_of(line), 2), Part::Symbol.wanted())
}

/// Returns what is wrong with a line that repeats an earlier line of its form. The wrong word is the name or the id
/// that the earlier line has already. In a form that has neither, it is the line's first word.
fn twice<'a>(form: &Form, line: &'a [u8]) -> Wrong<'a> {
    let number = match form.parts {
        [Part::Name | Part::Id, ..] => 2,
        _ => 1,
    };
    Wrong::Word(word_at(words_of(line), number), form.once)
}

/// Returns what is wrong with a line that exceeds a limit: its body is too long, or there are too many lines of its
/// form or edits in it.
fn too_many<'a>(form: &Form, line: &'a [u8]) -> Wrong<'a> {
    let body = word_at(words_of(line), 4);
    match form.parts {
        [.., Part::Body] if body.len() > DIGITS * MAX_BODY => {
            Wrong::Most(body, MAX_BODY, "bytes of a body")
        }
        _ => Wrong::Most(line, form.most, form.of_these),
    }
}

/// Returns what is wrong with a line that has an unknown word. If no line of a catalog begins with the line's first
/// word, this word is wrong. Otherwise it is a patch's line, and the third word is wrong, which may only be `replace`.
fn unknown_word(line: &[u8]) -> Wrong<'_> {
    let first = word_at(words_of(line), 1);
    match Form::of(first) {
        Some(_) => Wrong::Word(word_at(words_of(line), 3), "is replace, or nothing"),
        None => Wrong::Word(
            first,
            "is handler, object, symbol, patch, target, func, pre, post, preun, postun or state",
        ),
    }
}

/// Returns what is wrong with a faulty line of a catalog. `form` is the form of the lines that begin with its first
/// word, and `kind` is the kind of its fault.
fn wrong_with<'a>(alloc: Global, form: &Form, kind: TextFaultKind, line: &'a [u8]) -> Wrong<'a> {
    match kind {
        TextFaultKind::WrongCount => Wrong::Word(line, form.written),
        TextFaultKind::OutOfPlace => Wrong::Word(line, form.place),
        TextFaultKind::Twice => twice(form, line),
        TextFaultKind::UnknownObject => {
            Wrong::Word(
                word_at(words_of(line), 2),
                "is an object of the lines above",
            )
        }
        TextFaultKind::TooMany => too_many(form, line),
        _ => bad_word(alloc, form, line),
    }
}

/// Returns what is wrong with the line of a catalog at which this fault was found, and what is wanted in its place. If
/// something is missing, says what is wanted.
pub fn wrong_of(alloc: Global, catalog: &[u8], fault: TextFault) -> Wrong<'_> {
    let line = line_at(catalog, fault.line);
    match fault.kind {
        TextFaultKind::Missing => Wrong::Lacking("are a handler and an object"),
        TextFaultKind::NoMemory => Wrong::Lacking("is more memory"),
        TextFaultKind::NotAscii if begins_as_utf16(catalog) => {
            Wrong::Word(line, "is ASCII alone, and this is UTF-16")
        }
        TextFaultKind::NotAscii if line.starts_with(&BYTE_ORDER_MARK) => {
            Wrong::Word(line, "is ASCII alone, and no byte-order mark in front")
        }
        TextFaultKind::NotAscii => Wrong::Word(line, "is ASCII alone"),
        TextFaultKind::LineTooLong => Wrong::Most(line, MAX_LINE, "bytes"),
        TextFaultKind::UnknownWord => unknown_word(line),
        kind => match Form::of(word_at(words_of(line), 1)) {
            Some(form) => wrong_with(alloc, form, kind, line),
            None => unknown_word(line),
        },
    }
}
