//! Why a booted manager shows no page.
ghost use Rattle.std.specs.Prelude.{◌≡◌};
ghost use Rattle.klp_page.specs.declared.unshown.Unshown.TheVariants.{NoMemory};
ghost use Rattle.klp_page.specs.Over.{fault_of};

use klp_boot::Fault;
use klp_console::ServeFault;
use klp_trace::TraceFault;
use std::alloc::{AllocError, AllocFailed};

/// Why there is no page of a run, though a manager was booted for the run.
#[derive(Clone, Copy)]
pub enum Unshown {
    /// Memory ran out.
    NoMemory,
    /// A line of the script is too long.
    LongLine,
    /// A line of the trace is faulty.
    BadTrace(TraceFault),
}

impl From<AllocError> for Unshown {
    ghost from_gives = { λ _ why. why ≡ NoMemory };

    fn from(_error: AllocError) -> Unshown {
        Unshown::NoMemory
    }
}

impl<T: Drop> From<AllocFailed<T>> for Unshown {
    ghost from_gives = { λ _ why. why ≡ NoMemory };

    fn from(_error: AllocFailed<T>) -> Unshown {
        Unshown::NoMemory
    }
}

/// Returns the fault with which a program ends if a run shows no page for this reason.
pub(crate) fn fault_of(why: Unshown) -> Fault
    ensures { result ≡ fault_of why }
{
    match why {
        Unshown::NoMemory => Fault::NoMemory,
        Unshown::LongLine => Fault::Serve(ServeFault::LineTooLong),
        Unshown::BadTrace(fault) => Fault::Trace(fault),
    }
}
