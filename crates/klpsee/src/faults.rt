//! What is wrong with a log, in words.
use klp_capture::{CaptureFault, CaptureFaultKind, form_of};
use klp_messages::{Quoted, line_at};
use klp_words::cut;
use std::fmt;

/// A faulty line of a log, printed with the line's number, the word at fault, and what was wanted.
#[derive(Clone, Copy)]
pub(crate) struct FaultyLine<'a> {
    pub(crate) fault: CaptureFault,
    /// The log, or only its faulty line.
    pub(crate) log: &'a [u8],
    /// How many lines of the log stand before `log`.
    pub(crate) before: u64,
}

impl FaultyLine<'_> {
    /// Writes what is wrong with the first line of a text that is no log.
    fn write_heading<W: fmt::Write>(&self, first: &[u8], f: &mut fmt::Formatter<W>) -> fmt::Result {
        if self.log.is_empty() {
            return f.write_str("the file is empty: wanted is `klpcap 2`, the first line of a log");
        }
        let word = Quoted(first);
        write!(
            f,
            "{word}: this is no log of klpcap, which begins with `klpcap 2`"
        )
    }

    /// Writes what is wrong with a line that can't be read. If its first word is known, quotes the line, and says which
    /// form it should have. Otherwise quotes only the first word, with which no line of a log begins.
    fn write_bad_line<W: fmt::Write>(
        &self,
        line: &[u8],
        first: &[u8],
        f: &mut fmt::Formatter<W>,
    ) -> fmt::Result {
        match form_of(first) {
            Some(form) => write!(f, "{}: wanted is {form}", Quoted(line)),
            None => write!(f, "{}: no line of a log begins so", Quoted(first)),
        }
    }
}

/// Returns which line must stand before a line that begins with this word.
fn line_before(first: &[u8]) -> &'static str {
    match first {
        b"patch" => "a line `patches` of the same sample",
        b"object" => "a line `patch` of the same sample",
        b"loaded" | b"function" => "a line `object` of the same sample",
        b"frame" => "a line `task` of the same sample",
        b"frames" => "an earlier line `task` of the same thread",
        b"klpcap" => "no line: it is the first of a log",
        _ => "no line `end`, which is the last of a log",
    }
}

impl fmt::Display for FaultyLine<'_> {
    fn fmt<W: fmt::Write>(&self, f: &mut fmt::Formatter<W>) -> fmt::Result {
        let number = self.fault.line;
        let line = line_at(self.log, number.saturating_sub(self.before));
        let (first, _rest) = cut(line, b' ');
        write!(f, "line {number}: ")?;
        match self.fault.kind {
            CaptureFaultKind::NoHeading => self.write_heading(first, f),
            CaptureFaultKind::Newer => write!(
                f,
                "{}: a newer klpcap wrote this log: read it with the klpsee that came with it",
                Quoted(line)
            ),
            CaptureFaultKind::BadLine => self.write_bad_line(line, first, f),
            CaptureFaultKind::Stray => {
                let before = line_before(first);
                write!(f, "{}: wanted before it is {before}", Quoted(first))
            }
            CaptureFaultKind::OutOfOrder => write!(
                f,
                "{}: wanted is a sample that ends after it began, and begins after the one before it",
                Quoted(line)
            ),
            CaptureFaultKind::NoMemory => f.write_str("memory ran out"),
        }
    }
}
