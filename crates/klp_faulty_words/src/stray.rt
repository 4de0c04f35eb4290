//! Words and bytes that mean something in files of other kinds, but nothing in this file. They aren't faults.

use crate::catalog_fault::{begins_as_catalog, begins_as_utf16, first_words};
use klp_types::MAX_CONSOLE_LINE;

/// The bytes of a byte-order mark.
pub(crate) const BYTE_ORDER_MARK: [u8; 3] = [0xef, 0xbb, 0xbf];

/// The kind of the file that is given beside the catalog.
#[derive(Clone, Copy)]
pub enum FileKind {
    Script,
    Trace,
}

/// Words or bytes that mean something in a file of another kind, but nothing in this file.
#[derive(Clone, Copy)]
pub enum Stray {
    /// The whole file is a catalog.
    Catalog,
    /// The whole file is a script, since it has a line that asks for no event.
    Script,
    /// The whole file is a trace, since it has a line that a script can't have.
    Trace,
    /// The whole file is a log of klpcap, by its first word.
    Log,
    /// The whole file is UTF-16.
    Utf16,
    /// A byte-order mark before the first line.
    ByteOrderMark,
    CarriageReturn,
    Tab,
    /// A `#` at the beginning of a line.
    Comment,
}

/// All strays, in the order in which they are looked for. If the file is UTF-16, no other stray is reported.
pub const STRAYS: [Stray; 9] = [
    Stray::Utf16,
    Stray::Catalog,
    Stray::Log,
    Stray::Script,
    Stray::Trace,
    Stray::ByteOrderMark,
    Stray::CarriageReturn,
    Stray::Tab,
    Stray::Comment,
];

/// The first words of those lines of a script that ask for no event.
const QUERIES: [&str; 9] = [
    "cat", "ls", "text", "stack", "pick", "runs", "mark", "rewind", "seal",
];

/// Whether a line begins as a console line that asks for no event, such as `cat`. A script may have such a line, but a
/// trace may not.
pub(crate) fn is_query(line: &[u8]) -> bool {
    match first_words(line) {
        (b"shadow", second) => second == b"get".as_slice(),
        (first, _) => QUERIES.iter().any(|own| own.as_bytes() == first),
    }
}

/// Whether a text begins as a log of klpcap does.
pub fn begins_as_log(text: &[u8]) -> bool {
    let first = text.split(|b| *b == b'\n').next().unwrap_or(&[]);
    first_words(first).0 == b"klpcap".as_slice()
}

/// Whether a line begins in a way in which only lines of a trace do: with a time, or with the first word of an item
/// that is no event.
fn is_of_trace(line: &[u8]) -> bool {
    let (first, _) = first_words(line);
    let is_timed = first.first() == Some(&b'@');
    is_timed
        || matches!(
            first,
            b"call" | b"return" | b"saw" | b"ran" | b"hooked" | b"plain"
        )
}

/// Whether the check of a script's spelling skips this line. It skips a line without words, a line about a shadow
/// variable, which has no names, and a line that another message is about: one with a stray, or one that is too long.
pub(crate) fn is_reported_elsewhere(line: &[u8]) -> bool {
    let (first, _) = first_words(line);
    let has_stray = line.iter().any(|b| matches!(*b, b'\r' | b'\t'));
    let is_marked = line.first() == Some(&b'#') || line.starts_with(&BYTE_ORDER_MARK);
    let is_known = first.is_empty() || first == b"shadow".as_slice() || is_of_trace(line);
    has_stray || is_marked || is_known || line.len() > MAX_CONSOLE_LINE
}

impl Stray {
    /// Whether this stray is in `line`. For UTF-16, a catalog, a log and a byte-order mark, `line` is the whole text, whose
    /// beginning decides.
    fn is_in(self, line: &[u8]) -> bool {
        match self {
            Stray::Catalog => begins_as_catalog(line),
            Stray::Script => is_query(line),
            Stray::Trace => is_of_trace(line),
            Stray::Log => begins_as_log(line),
            Stray::Utf16 => begins_as_utf16(line),
            Stray::ByteOrderMark => line.starts_with(&BYTE_ORDER_MARK),
            Stray::CarriageReturn => line.contains(&b'\r'),
            Stray::Tab => line.contains(&b'\t'),
            Stray::Comment => line.first() == Some(&b'#'),
        }
    }

    /// Returns the number, counted from 1, of the first line of a text that has this stray. Returns `None` if no line
    /// has the stray.
    pub fn first_line(self, text: &[u8]) -> Option<usize> {
        let mut lines = text.split(|b| *b == b'\n');
        let place = match self {
            Stray::Utf16 | Stray::Catalog | Stray::Log | Stray::ByteOrderMark => self
                .is_in(text)
                .then_some(0),
            _ => lines.position(|line| self.is_in(line)),
        };
        Some(place?.saturating_add(1))
    }

    /// Returns the words of the hint at this stray in a file of this kind. Returns `None` if files of this kind may
    /// have the stray, so that it is none.
    pub fn hint(self, kind: FileKind) -> Option<&'static str> {
        Some(match (self, kind) {
            (Stray::Catalog, FileKind::Script) => "a catalog, where a script is wanted",
            (Stray::Catalog, FileKind::Trace) => "a catalog, where a trace is wanted",
            (Stray::Log, _) => "a log of klpcap, which klpsee takes: klpsee LOG",
            (Stray::Script, FileKind::Trace) => {
                "a line of a script, where a trace is wanted: klppage takes scripts"
            }
            (Stray::Trace, FileKind::Script) => {
                "a line of a trace, where a script is wanted: klpwatch takes traces"
            }
            (Stray::Script | Stray::Comment, FileKind::Script) | (Stray::Trace, FileKind::Trace) =>
                return None,
            (Stray::Utf16, _) => "UTF-16, by its first two bytes: wanted is ASCII or UTF-8",
            (Stray::ByteOrderMark, _) => "a byte-order mark, which is part of the first word",
            (Stray::CarriageReturn, FileKind::Script) =>
                "a carriage return, which is part of a word",
            (Stray::CarriageReturn, FileKind::Trace) => {
                "a carriage return, which is dropped at the end of a line, and else is part of a word"
            }
            (Stray::Tab, _) => "a tab, which is part of a word: spaces separate words",
            (Stray::Comment, FileKind::Trace) =>
                "a line that begins with #, and is no comment here",
        })
    }
}
