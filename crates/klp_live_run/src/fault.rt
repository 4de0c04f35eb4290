//! The reasons why the steps of two tasks can't be run.

ghost use Rattle.std.specs.Prelude.{◌≡◌};
ghost use Rattle.klp_live_run.specs.declared.fault.ReadFault.TheVariants.{NoMemory};
ghost use Rattle.klp_live_run.specs.declared.fault.LiveFault.TheVariants.{Program, NoMemory as OutOfMemory};
ghost use Rattle.klp_live_run.specs.Living.{IsRunFault, start_fault, read_fault};

use klp_boot::Fault;
use klp_live::StartCause;
use std::alloc::{AllocError, AllocFailed};
use thiserror::Error;

/// What is wrong with a line of the steps.
#[derive(Clone, Copy, Debug, Error)]
pub enum StepsFaultKind {
    /// The line isn't a step of task 1 or 2, or it has an unknown name.
    #[error("BadStep")]
    BadStep,
    /// The task of this line already has as many steps as are allowed.
    #[error("TooMany")]
    TooMany,
}

/// The first faulty line of the steps.
#[derive(Clone, Copy, Debug, Error)]
#[error("line {line}: {kind}")]
pub struct StepsFault {
    /// The line's number, counted from 1. Lines without words count too.
    pub line: u64,
    pub kind: StepsFaultKind,
}

/// Why steps couldn't be read.
#[derive(Clone, Copy, Debug, Error)]
pub enum ReadFault {
    #[error("NoMemory")]
    NoMemory,
    #[error(transparent)]
    Steps(StepsFault),
}

impl<T: Drop> From<AllocFailed<T>> for ReadFault {
    ghost from_gives = { λ _ fault. fault ≡ NoMemory };

    fn from(_error: AllocFailed<T>) -> ReadFault {
        ReadFault::NoMemory
    }
}

/// Why the run of two tasks failed.
#[derive(Clone, Copy, Debug, Error)]
pub enum LiveFault {
    /// No manager can be booted with the catalog's text, or the output couldn't be written.
    #[error(transparent)]
    Program(Fault),
    /// The text of the steps has a faulty line.
    #[error(transparent)]
    Steps(StepsFault),
    #[error("NoMemory")]
    NoMemory,
    /// `left_right` had no place for a task's reader.
    #[error("NoPlace")]
    NoPlace,
}

impl LiveFault {
    /// Returns the fault that reports this cause of a failed start.
    pub(crate) fn of_start(cause: StartCause) -> LiveFault
        ensures value { result ≡ start_fault cause }
        ensures fault { IsRunFault result }
    {
        match cause {
            StartCause::NoMemory => LiveFault::NoMemory,
            StartCause::NoPlace => LiveFault::NoPlace,
        }
    }

    /// Returns the fault that reports why steps couldn't be read.
    pub(crate) fn of_reading(fault: ReadFault) -> LiveFault
        ensures { result ≡ read_fault fault }
    {
        match fault {
            ReadFault::NoMemory => LiveFault::NoMemory,
            ReadFault::Steps(fault) => LiveFault::Steps(fault),
        }
    }
}

impl From<Fault> for LiveFault {
    ghost from_gives = { λ fault own. own ≡ Program fault };

    fn from(fault: Fault) -> LiveFault {
        LiveFault::Program(fault)
    }
}

impl From<AllocError> for LiveFault {
    ghost from_gives = { λ _ fault. fault ≡ OutOfMemory };

    fn from(_error: AllocError) -> LiveFault {
        LiveFault::NoMemory
    }
}

impl<T: Drop> From<AllocFailed<T>> for LiveFault {
    ghost from_gives = { λ _ fault. fault ≡ OutOfMemory };

    fn from(_error: AllocFailed<T>) -> LiveFault {
        LiveFault::NoMemory
    }
}
