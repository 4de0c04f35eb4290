//! The message for people about a faulty line of a text of names.

use crate::fault::{NamesFault, NamesFaultKind};
use klp_messages::{Escaped, Quoted};
use klp_words::cut;
use std::fmt;

/// A fault of a file of names, for people. It is printed as `FILE: line 3: BadTask: '64': wanted is a task's number, 0
/// to 63`. It has no contract.
#[derive(Clone, Copy)]
pub struct Misread<'a> {
    /// The name of the file.
    pub file: &'a str,
    pub text: &'a [u8],
    pub fault: NamesFault,
}

/// Returns the line with this number, counted from 1, without its line feed. A carriage return at its end stays, since
/// it may be the fault. If there are fewer lines, the result is empty.
fn whole_line_at(text: &[u8], number: u64) -> &[u8] {
    let mut rest = text;
    for _line in 1..number {
        rest = cut(rest, b'\n').1;
    }
    cut(rest, b'\n').0
}

/// Returns the part of a faulty line that has the fault `kind`, and the words that say what is wanted in its place.
fn part_of(line: &[u8], kind: NamesFaultKind) -> (&[u8], &'static str) {
    let (word, rest) = cut(line, b' ');
    let (number, last) = cut(rest, b' ');
    match kind {
        NamesFaultKind::UnknownWord => (word, "wanted is 'task' or 'line'"),
        NamesFaultKind::BadTask => (number, "wanted is a task's number, 0 to 63"),
        NamesFaultKind::BadName => (
            last,
            "wanted is a name of 1 to 64 bytes without control characters",
        ),
        NamesFaultKind::BadLine => (number, "wanted is a line's number, from 1 on"),
        NamesFaultKind::BadTime => (
            last,
            "wanted are seconds, with up to six decimals behind a point",
        ),
        NamesFaultKind::NamedTwice => (number, "the task has a name already"),
        NamesFaultKind::LineFalls => (number, "wanted is a later line than the one before"),
        NamesFaultKind::TimeFalls => (
            last,
            "wanted is a time that is no earlier than the one before",
        ),
        NamesFaultKind::NoMemory => (b"", "there is no memory left"),
    }
}

impl<'a> fmt::Display for Misread<'a> {
    fn fmt<W: fmt::Write>(&self, f: &mut fmt::Formatter<W>) -> fmt::Result {
        let (word, wanted) = part_of(whole_line_at(self.text, self.fault.line), self.fault.kind);
        let (file, line) = (Escaped(self.file.as_bytes()), self.fault.line);
        write!(
            f,
            "{file}: line {line}: {}: {}: {wanted}",
            self.fault.kind,
            Quoted(word)
        )
    }
}
