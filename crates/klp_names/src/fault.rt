//! What is wrong with a text of names.
ghost use Rattle.std.specs.Prelude.{◌≡◌};
ghost use Rattle.klp_names.specs.declared.fault.NamesFaultKind.TheVariants.{NoMemory};

use std::alloc::{AllocError, AllocFailed};
use std::{error, fmt};
use thiserror::Error;

/// What is wrong with a line of a text of names. If a line has several faults, the first in this order is reported.
/// `NoMemory` may be reported in place of any other fault.
#[derive(Clone, Copy, Debug, PartialEq, Eq)]
pub enum NamesFaultKind {
    /// The line begins neither with `task` nor with `line`.
    UnknownWord,
    /// A task's number isn't a number from 0 to 63.
    BadTask,
    /// A name is empty, has more than 64 bytes, or has a control character.
    BadName,
    /// A line's number isn't a positive number.
    BadLine,
    /// A time isn't seconds with up to six decimals.
    BadTime,
    /// The line names a task that has a name already.
    NamedTwice,
    /// A line gets a time, but this line or a later line already has a time.
    LineFalls,
    /// A line's time is earlier than the time of an earlier line.
    TimeFalls,
    NoMemory,
}

/// Prints the fault's name, as `Debug` does.
impl fmt::Display for NamesFaultKind {
    fn fmt<W: fmt::Write>(&self, f: &mut fmt::Formatter<W>) -> fmt::Result {
        fmt::Debug::fmt(self, f)
    }
}

impl error::Error for NamesFaultKind {}

impl From<AllocError> for NamesFaultKind {
    ghost from_gives = { λ _ e. e ≡ NoMemory };

    fn from(_e: AllocError) -> NamesFaultKind {
        NamesFaultKind::NoMemory
    }
}

impl<T: Drop> From<AllocFailed<T>> for NamesFaultKind {
    ghost from_gives = { λ _ e. e ≡ NoMemory };

    fn from(_e: AllocFailed<T>) -> NamesFaultKind {
        NamesFaultKind::NoMemory
    }
}

/// The first faulty line of a text of names, printed as `line 3: BadName`.
#[derive(Clone, Copy, Debug, PartialEq, Eq, Error)]
#[error("line {line}: {kind}")]
pub struct NamesFault {
    /// The number of the line, counted from 1.
    pub line: u64,
    pub kind: NamesFaultKind,
}
