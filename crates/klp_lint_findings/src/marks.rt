//! The marks of a catalog: lines that say how well the line before them is known.
//!
//! A mark is a line that begins with `#? `. It is about the last line before it that is no comment. A catalog that was
//! made from a module's file has marks, since the file doesn't show what each callback does. All other programs pass
//! over marks, as over each comment.

ghost use Rattle.std.specs.Prelude.{◌≡◌, ◌||◌, true, false, IfOk, IfSome, MatchOption, bytes_eq, codes, drop, nat_eq};
ghost use Rattle.std.specs.List.{list_any, starts_with};
ghost use Rattle.klp_catalog_text.specs.Lines.{words_of};
ghost use Rattle.klp_lint_findings.specs.Deciding.{is_unknown_word, is_unknown};
ghost use Rattle.klp_lint_findings.specs.Marking.{begins_unknown, is_unknown_line, has_unknown, IsMarked};

use klp_catalog_text::{Lines, words_of};
use klp_messages::word_at;
use std::alloc::{AllocError, Global};

/// The bytes with which a mark begins.
pub const MARK_PREFIX: &[u8] = b"#? ";

/// What a mark says.
#[derive(Clone, Copy, PartialEq, Eq)]
pub enum MarkWord {
    /// What the callback does, or whether the patch is cumulative, is guessed.
    Guessed,
    /// It isn't known.
    Unknown,
    /// The callback adds variables by calls that fail if the variable is there.
    FailsIfThere,
    /// The object, or the symbol, was made up.
    Assumed,
    /// This many functions and targets of the patch aren't in the catalog.
    LeftOut { functions: u64, targets: u64 },
    /// The symbol is a variable.
    Data,
}

/// A mark of a catalog.
#[derive(Clone, Copy, PartialEq, Eq)]
pub struct Mark {
    pub word: MarkWord,
    /// The number of the mark's own line, from 1.
    pub line: u64,
    /// The number of the line that the mark is about.
    pub about: u64,
    /// The number of the last object of the catalog before the mark, from 0.
    pub object: usize,
    /// The number of the last symbol of this object before the mark, from 0.
    pub symbol: usize,
}

/// What is wrong with a mark.
#[derive(Clone, Copy, PartialEq, Eq)]
pub enum MarkFaultKind {
    /// No mark has this form.
    NoForm,
    /// The mark can't be about the line before it.
    Misplaced,
}

/// A faulty mark.
#[derive(Clone, Copy)]
pub struct MarkFault {
    pub kind: MarkFaultKind,
    pub line: u64,
}

/// Why the marks can't be read.
#[derive(Clone, Copy)]
pub enum NoMarks {
    NoMemory,
    Fault(MarkFault),
}

impl From<AllocError> for NoMarks {
    fn from(_error: AllocError) -> NoMarks {
        NoMarks::NoMemory
    }
}

/// The number that a word spells in decimal digits. `None` if it spells none, or one that is too large.
fn number_of(word: &[u8]) -> Option<u64> {
    let mut number = 0u64;
    if word.is_empty() {
        return None;
    }
    for byte in word {
        if !byte.is_ascii_digit() {
            return None;
        }
        let digit = u64::from(byte.saturating_sub(b'0'));
        number = number.checked_mul(10)?.checked_add(digit)?;
    }
    Some(number)
}

/// Whether two words are equal, byte by byte.
fn is_word(word: &[u8], other: &[u8]) -> bool
    ensures { result ≡ bytes_eq word.now other.now }
{
    word == other
}

/// What `left out N functions, M targets` says. `None` if the words have another form.
fn left_out(words: &[u8]) -> Option<MarkWord>
    ensures { IfSome result (λ word. is_unknown_word word ≡ false) }
{
    let word = |number: usize| word_at(words_of(words), number);
    let is_form = is_word(word(2), b"out")
        && is_word(word(4), b"functions,")
        && is_word(word(6), b"targets")
        && word(7).is_empty();
    let (functions, targets) = (number_of(word(3))?, number_of(word(5))?);
    if is_form {
        Some(MarkWord::LeftOut { functions, targets })
    } else {
        None
    }
}

/// Whether the first word of a mark is `unknown`.
fn begins_unknown(words: &[u8]) -> bool
    ensures { result ≡ begins_unknown (words_of words.now) }
{
    match words_of(words).next() {
        Some(first) => is_word(first, b"unknown"),
        None => false,
    }
}

/// What the words of a mark say whose first word isn't `unknown`. `None` if no such mark has this form.
fn known_meaning_of(words: &[u8]) -> Option<MarkWord>
    ensures { IfSome result (λ word. is_unknown_word word ≡ false) }
{
    let first = word_at(words_of(words), 1);
    let is_alone = word_at(words_of(words), 2).is_empty();
    if is_word(first, b"guessed") && !is_alone {
        Some(MarkWord::Guessed)
    } else if is_word(first, b"assumed") && !is_alone {
        Some(MarkWord::Assumed)
    } else if is_word(first, b"data") && is_alone {
        Some(MarkWord::Data)
    } else if is_word(first, b"left") {
        left_out(words)
    } else if is_word(words, b"fails if there") {
        Some(MarkWord::FailsIfThere)
    } else {
        None
    }
}

/// What the words of a mark say. `None` if no mark has this form.
fn meaning_of(words: &[u8]) -> Option<MarkWord>
    ensures { IfSome result (λ word. is_unknown_word word ≡ begins_unknown (words_of words.now)) }
{
    if !begins_unknown(words) {
        return known_meaning_of(words);
    }
    let is_alone = word_at(words_of(words), 2).is_empty();
    if is_alone {
        None
    } else {
        Some(MarkWord::Unknown)
    }
}

/// Whether a line of a catalog that begins with this word is a callback.
fn is_callback(word: &[u8]) -> bool {
    is_word(word, b"pre")
        || is_word(word, b"post")
        || is_word(word, b"preun")
        || is_word(word, b"postun")
}

/// Whether a mark may be about a line that begins with this word.
fn fits(mark: MarkWord, word: &[u8]) -> bool {
    match mark {
        MarkWord::Guessed | MarkWord::Unknown => is_callback(word) || is_word(word, b"patch"),
        MarkWord::FailsIfThere => is_callback(word),
        MarkWord::Assumed => is_word(word, b"object") || is_word(word, b"symbol"),
        MarkWord::LeftOut { .. } => is_word(word, b"patch"),
        MarkWord::Data => is_word(word, b"symbol"),
    }
}

/// Where a walk over the lines of a catalog is.
#[derive(Clone, Copy)]
struct Place<'a> {
    /// The number of the line, from 1.
    number: u64,
    /// The last line that is no comment, and its number. The line is empty if there is none.
    last: &'a [u8],
    about: u64,
    /// How many objects came before.
    objects: usize,
    /// How many symbols of the last object came before.
    symbols: usize,
}

/// The words of a mark: what is behind [`MARK_PREFIX`]. `None` if the line is no mark.
fn words_in(line: &[u8]) -> Option<&[u8]>
    ensures { MatchOption result (starts_with nat_eq line.now (codes "#? ") ≡ false)
        (λ words. (starts_with nat_eq line.now (codes "#? ") ≡ true) × (words.now ≡ drop 3 line.now)) }
{
    line.strip_prefix(MARK_PREFIX)
}

/// The mark of a line. `None` if the line is no mark.
fn mark_in(line: &[u8], place: &Place<'_>) -> Result<Option<Mark>, MarkFault>
    ensures { IfOk result (λ found. MatchOption found (is_unknown_line line.now ≡ false)
        (λ mark. is_unknown mark ≡ is_unknown_line line.now)) }
{
    let Some(words) = words_in(line) else {
        return Ok(None);
    };
    let number = place.number;
    let Some(word) = meaning_of(words) else {
        return Err(MarkFault {
            kind: MarkFaultKind::NoForm,
            line: number,
        });
    };
    if !fits(word, word_at(words_of(place.last), 1)) {
        return Err(MarkFault {
            kind: MarkFaultKind::Misplaced,
            line: number,
        });
    }
    Ok(Some(Mark {
        word,
        line: number,
        about: place.about,
        object: place.objects.saturating_sub(1),
        symbol: place.symbols.saturating_sub(1),
    }))
}

/// Adds the mark of a line, if the line is one.
fn add_mark(marks: &mut Vec<Mark>, line: &[u8], place: &Place<'_>) -> Result<(), NoMarks>
    ensures { IfOk result (λ done. list_any is_unknown marks.new.items
        ≡ (list_any is_unknown marks.old.items || is_unknown_line line.now)) }
{
    match mark_in(line, place) {
        Ok(Some(mark)) => {
            marks.push(mark).map_err(AllocError::from)?;
            Ok(())
        }
        Ok(None) => Ok(()),
        Err(fault) => Err(NoMarks::Fault(fault)),
    }
}

/// The place behind a line. A comment changes nothing.
fn behind<'a>(place: Place<'a>, line: &'a [u8]) -> Place<'a> {
    if line.first() == Some(&b'#') {
        return place;
    }
    let first = word_at(words_of(line), 1);
    let (objects, symbols) = if is_word(first, b"object") {
        (place.objects.saturating_add(1), 0)
    } else if is_word(first, b"symbol") {
        (place.objects, place.symbols.saturating_add(1))
    } else {
        (place.objects, place.symbols)
    };
    Place {
        number: place.number,
        last: line,
        about: place.number,
        objects,
        symbols,
    }
}

/// Reads the marks of a catalog, in the order of the text. A mark says that something isn't known exactly if a line of the
/// text does. `Err` has the first faulty mark.
pub fn read_marks(alloc: Global, text: &[u8]) -> Result<Vec<Mark>, NoMarks>
    ensures { IfOk result (λ marks. list_any is_unknown marks.items ≡ has_unknown text.now) }
{
    let mut marks = Vec::new(alloc);
    let mut place = Place {
        number: 0,
        last: &[],
        about: 0,
        objects: 0,
        symbols: 0,
    };
    let mut rest = Lines::new(text);
    while let Some(line) = rest.next() {
        place.number = place.number.saturating_add(1);
        add_mark(&mut marks, line, &place)?;
        place = behind(place, line);
    }
    Ok(marks)
}

/// The first of these marks that says this about a line of the catalog. `None` if no mark does.
pub fn mark_at(marks: &[Mark], word: MarkWord, line: u64) -> Option<Mark>
    ensures { IfSome result (IsMarked marks.now word) }
{
    let found = marks.iter().find(|it| it.word == word && it.about == line);
    found.copied()
}

/// Whether the object with this number, or one of its symbols, was made up.
pub fn is_assumed(marks: &[Mark], object: usize) -> bool {
    marks
        .iter()
        .any(|it| it.word == MarkWord::Assumed && it.object == object)
}

/// Whether the symbol with this number of an object is a variable, by a mark.
pub fn is_data(marks: &[Mark], object: usize, symbol: usize) -> bool {
    marks.iter().any(|it| {
        it.word == MarkWord::Data && it.object == object && it.symbol == symbol
    })
}

/// How many functions and targets were left out of the catalog, by its marks.
pub fn left_out_by(marks: &[Mark]) -> (u64, u64) {
    let (mut all_functions, mut all_targets) = (0u64, 0u64);
    for mark in marks {
        if let MarkWord::LeftOut { functions, targets } = mark.word {
            all_functions = all_functions.saturating_add(functions);
            all_targets = all_targets.saturating_add(targets);
        }
    }
    (all_functions, all_targets)
}
