ghost use Rattle.std.specs.Prelude.{◌≡◌};
ghost use Rattle.klp_trace.specs.declared.fault.TraceFaultKind.TheVariants.{NoMemory};

use std::alloc::{AllocError, AllocFailed};
use std::{error, fmt};
use thiserror::Error;

/// What is wrong with a line of a trace. If a line is both `BadItem` and `OutOfOrder`, `BadItem` is reported.
#[derive(Clone, Copy, Debug, PartialEq, Eq)]
pub enum TraceFaultKind {
    /// The line has no item, names an impossible name, symbol or task, or has a misspelled time.
    BadItem,
    /// The time of the line is before that of an earlier line, as happens if two logs are joined.
    OutOfOrder,
    /// Memory ran out. This may be reported in place of a fault of this line or of a later one.
    NoMemory,
}

/// Writes the fault's name, as `Debug` does. Both use one table of names.
impl fmt::Display for TraceFaultKind {
    fn fmt<W: fmt::Write>(&self, f: &mut fmt::Formatter<W>) -> fmt::Result {
        fmt::Debug::fmt(self, f)
    }
}

impl error::Error for TraceFaultKind {}

/// The first line of a trace that is at fault.
#[derive(Clone, Copy, Debug, PartialEq, Eq, Error)]
#[error("trace line {line}: {kind}")]
pub struct TraceFault {
    /// The number of the line, from 1.
    pub line: u64,
    pub kind: TraceFaultKind,
}

impl From<AllocError> for TraceFaultKind {
    ghost from_gives = { λ _ kind. kind ≡ NoMemory };

    fn from(_error: AllocError) -> TraceFaultKind {
        TraceFaultKind::NoMemory
    }
}

impl<T: Drop> From<AllocFailed<T>> for TraceFaultKind {
    ghost from_gives = { λ _ kind. kind ≡ NoMemory };

    fn from(_error: AllocFailed<T>) -> TraceFaultKind {
        TraceFaultKind::NoMemory
    }
}
