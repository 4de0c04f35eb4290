ghost use Rattle.std.specs.Prelude.{◌≡◌};
ghost use Rattle.klp_core.specs.declared.fault.BootFault.TheVariants.{NoMemory};

use std::alloc::AllocError;
use thiserror::Error;

/// Why a manager can't be booted. The numbers are this project's own, and never change.
#[derive(Clone, Copy, Debug, PartialEq, Eq, Error)]
pub enum BootFault {
    /// Image, modules and catalog don't have the same number of symbols for each object. So they weren't made from one
    /// plan.
    #[error("Mismatch")]
    Mismatch = 1,
    /// Memory ran out. Once a manager is booted, this can't happen any more.
    #[error("NoMemory")]
    NoMemory = 2,
}

impl From<AllocError> for BootFault {
    ghost from_gives = { λ _ fault. fault ≡ NoMemory };

    fn from(_: AllocError) -> BootFault {
        BootFault::NoMemory
    }
}

/// The error that the journal has fewer groups than the mark says. `rewind` is no event, so this isn't a refusal of an
/// event.
#[derive(Clone, Copy, Debug, Error)]
#[error("BadMark")]
pub struct BadMark;
