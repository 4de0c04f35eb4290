//! What is wrong with a log.
use std::alloc::{AllocError, AllocFailed};
use std::{error, fmt};
use thiserror::Error;

/// What is wrong with a line of a log.
#[derive(Clone, Copy, Debug, PartialEq, Eq)]
pub enum CaptureFaultKind {
    /// The first line isn't `klpcap` with the version of the format, so the text is no log.
    NoHeading,
    /// The log has a version that isn't known: a newer `klpcap` wrote it.
    Newer,
    /// The line begins with an unknown word, or its other words have a wrong form.
    BadLine,
    /// The line belongs to an object, a patch or a task, but no earlier line of its sample names one. The fault is also
    /// reported for a second heading, and for a line behind the last line, `end`.
    Stray,
    /// A sample began before the sample before it had ended.
    OutOfOrder,
    NoMemory,
}

/// Prints the fault's name, as `Debug` does.
impl fmt::Display for CaptureFaultKind {
    fn fmt<W: fmt::Write>(&self, f: &mut fmt::Formatter<W>) -> fmt::Result {
        fmt::Debug::fmt(self, f)
    }
}

impl error::Error for CaptureFaultKind {}

impl From<AllocError> for CaptureFaultKind {
    fn from(_e: AllocError) -> CaptureFaultKind {
        CaptureFaultKind::NoMemory
    }
}

impl<T: Drop> From<AllocFailed<T>> for CaptureFaultKind {
    fn from(_e: AllocFailed<T>) -> CaptureFaultKind {
        CaptureFaultKind::NoMemory
    }
}

/// The first faulty line of a log, printed as `line 3: BadLine`.
#[derive(Clone, Copy, Debug, PartialEq, Eq, Error)]
#[error("line {line}: {kind}")]
pub struct CaptureFault {
    /// The number of the line, from 1.
    pub line: u64,
    pub kind: CaptureFaultKind,
}
