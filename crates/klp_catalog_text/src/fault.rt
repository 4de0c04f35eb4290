ghost use Rattle.std.specs.Prelude.{◌≡◌};
ghost use Rattle.klp_catalog_text.specs.declared.fault.TextFaultKind.TheVariants.{NoMemory};

use std::alloc::{AllocError, AllocFailed};
use std::{error, fmt};
use thiserror::Error;

/// What is wrong with a line of a catalog's text. The numbers are this project's own. They never change, since scripts
/// may test for them.
///
/// If a line has several faults, the first in this order is reported: `NotAscii`, `LineTooLong`, `UnknownWord`,
/// `WrongCount`, then the words from left to right (`BadNumber` to `BadEdit`), then `OutOfPlace`, `UnknownObject`,
/// `Twice` and `TooMany`.
#[derive(Clone, Copy, Debug, PartialEq, Eq)]
pub enum TextFaultKind {
    /// A line that isn't a comment has a byte that isn't ASCII. This is checked first, so that every word can then be
    /// read as text.
    NotAscii = 1,
    /// The line has more than [`MAX_LINE`](klp_types::MAX_LINE) bytes. A comment may have any number of bytes.
    LineTooLong = 2,
    /// The line begins with an unknown word, or the name of a patch is followed by a word other than `replace`.
    UnknownWord = 3,
    /// The line has too few words or too many, or edits follow a status other than 0.
    WrongCount = 4,
    /// A status, or the id or version of a system state, isn't a decimal number, or is out of range.
    BadNumber = 5,
    /// An address isn't 1 to 16 hexadecimal digits, or a body isn't pairs of hexadecimal digits.
    BadHex = 6,
    /// A name is too long, or has a byte that names of its kind may not have. The name of a symbol may have bytes that
    /// other names may not have, since compilers choose symbols' names.
    BadName = 7,
    /// The symbol of a function isn't spelled `.klp.sym.objname.symbol_name,sympos`, or its object isn't that of the
    /// open target.
    BadSymbol = 8,
    /// An edit of a callback is misspelled, or a number in it is out of range.
    BadEdit = 9,
    /// The line may not occur at this place. For example, a symbol precedes any object, or a function occurs while no
    /// target is open.
    OutOfPlace = 10,
    /// The line repeats an item that may occur only once: the handler, a name, a target, a state or a kind of callback.
    Twice = 11,
    /// A target names an object that no earlier line has. So no function of the target could have a site.
    UnknownObject = 12,
    /// The line would exceed a limit (`klp_types::limits`).
    TooMany = 13,
    /// The text has no handler or no object, but an image needs both. No line is at fault, so the fault is reported at
    /// line 0.
    Missing = 14,
    /// Memory ran out. This fault may be reported in place of any fault of this line or a later one.
    NoMemory = 15,
}

/// Prints the fault's name, as `Debug` does, so that there is only one table of fault names.
impl fmt::Display for TextFaultKind {
    fn fmt<W: fmt::Write>(&self, f: &mut fmt::Formatter<W>) -> fmt::Result {
        fmt::Debug::fmt(self, f)
    }
}

impl error::Error for TextFaultKind {}

impl From<AllocError> for TextFaultKind {
    ghost from_gives = { λ _ e. e ≡ NoMemory };

    fn from(_e: AllocError) -> TextFaultKind {
        TextFaultKind::NoMemory
    }
}

impl<T: Drop> From<AllocFailed<T>> for TextFaultKind {
    ghost from_gives = { λ _ e. e ≡ NoMemory };

    fn from(_e: AllocFailed<T>) -> TextFaultKind {
        TextFaultKind::NoMemory
    }
}

/// The first faulty line of a catalog's text, printed as `line 3: BadHex`. Later faults aren't reported, since a faulty
/// line may change the meaning of the lines after it.
#[derive(Clone, Copy, Debug, PartialEq, Eq, Error)]
#[error("line {line}: {kind}")]
pub struct TextFault {
    /// The number of the line in the text, from 1. The number is 0 for a fault of the whole text.
    pub line: u64,
    pub kind: TextFaultKind,
}
