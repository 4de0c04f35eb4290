ghost use Rattle.std.specs.Prelude.{◌≡◌};
ghost use Rattle.klp_text.specs.declared.fault.ImageFault.TheVariants.{NoMemory};

use std::alloc::AllocError;
use thiserror::Error;

/// Why no image can be made of the given objects. The numbers are this project's own, and don't change.
#[derive(Clone, Copy, Debug, PartialEq, Eq, Error)]
pub enum ImageFault {
    /// A symbol shares an address with an earlier symbol of any object. Or the address after the symbol's last byte
    /// doesn't fit in 64 bits.
    #[error("Overlap")]
    Overlap = 1,
    /// A body ends before its entry site does, so a call would overwrite bytes after the body.
    #[error("ShortSymbol")]
    ShortSymbol = 2,
    /// A call at the symbol's entry site can't reach the handler with a displacement of 32 bits.
    #[error("Displacement")]
    Displacement = 3,
    /// Two objects have the same name. Targets and modules are found by name, so the names must differ.
    #[error("DuplicateObject")]
    DuplicateObject = 4,
    /// There are too many objects or sites, or a body is too long. This is checked first, since these limits bound the
    /// cost of all other checks.
    #[error("TooMany")]
    TooMany = 5,
    /// Memory for the image ran out. Contracts allow this in place of any other fault.
    #[error("NoMemory")]
    NoMemory = 6,
    /// There is no object, or the first object isn't `vmlinux`. The first object must be the kernel, since it alone is
    /// loaded from the start.
    #[error("NoKernel")]
    NoKernel = 7,
}

impl From<AllocError> for ImageFault {
    ghost from_gives = { λ _ fault. fault ≡ NoMemory };

    fn from(_: AllocError) -> ImageFault {
        ImageFault::NoMemory
    }
}
