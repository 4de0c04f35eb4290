ghost use Rattle.std.specs.Prelude.{◌≡◌};
ghost use Rattle.klp_boot.specs.declared.fault.Fault.TheVariants.{NoMemory, Text, Image, Assemble, Boot, Serve};
ghost use Rattle.klp_boot.specs.declared.fault.Fault.TheVariants.{Trace};

use klp_catalog::{AssembleFault, TextFault};
use klp_console::ServeFault;
use klp_core::BootFault;
use klp_text::ImageFault;
use klp_trace::TraceFault;
use std::alloc::{AllocError, AllocFailed};
use thiserror::Error;

/// Why the program ends before its input does.
#[derive(Clone, Copy, Debug, PartialEq, Eq, Error)]
pub enum Fault {
    /// The catalog's file can't be read.
    #[error("CannotRead")]
    CannotRead,
    #[error("NoMemory")]
    NoMemory,
    /// The catalog's text has a faulty line.
    #[error(transparent)]
    Text(TextFault),
    #[error(transparent)]
    Image(ImageFault),
    #[error(transparent)]
    Assemble(AssembleFault),
    #[error(transparent)]
    Boot(BootFault),
    /// The input or the output failed, or a line of the input is too long.
    #[error(transparent)]
    Serve(ServeFault),
    /// The trace has a faulty line.
    #[error(transparent)]
    Trace(TraceFault),
}

// These conversions aren't derived, since a derived conversion has no clause. `boot` and `over_text` promise which
// fault they return.
impl From<TextFault> for Fault {
    ghost from_gives = { λ fault own. own ≡ Text fault };

    fn from(fault: TextFault) -> Fault {
        Fault::Text(fault)
    }
}

impl From<ServeFault> for Fault {
    ghost from_gives = { λ fault own. own ≡ Serve fault };

    fn from(fault: ServeFault) -> Fault {
        Fault::Serve(fault)
    }
}

impl From<ImageFault> for Fault {
    ghost from_gives = { λ fault own. own ≡ Image fault };

    fn from(fault: ImageFault) -> Fault {
        Fault::Image(fault)
    }
}

impl From<AssembleFault> for Fault {
    ghost from_gives = { λ fault own. own ≡ Assemble fault };

    fn from(fault: AssembleFault) -> Fault {
        Fault::Assemble(fault)
    }
}

impl From<BootFault> for Fault {
    ghost from_gives = { λ fault own. own ≡ Boot fault };

    fn from(fault: BootFault) -> Fault {
        Fault::Boot(fault)
    }
}

impl From<TraceFault> for Fault {
    ghost from_gives = { λ fault own. own ≡ Trace fault };

    fn from(fault: TraceFault) -> Fault {
        Fault::Trace(fault)
    }
}

impl From<AllocError> for Fault {
    ghost from_gives = { λ _ fault. fault ≡ NoMemory };

    fn from(_error: AllocError) -> Fault {
        Fault::NoMemory
    }
}

impl<T: Drop> From<AllocFailed<T>> for Fault {
    ghost from_gives = { λ _ fault. fault ≡ NoMemory };

    fn from(_error: AllocFailed<T>) -> Fault {
        Fault::NoMemory
    }
}
