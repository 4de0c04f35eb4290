//! Why no catalog is written.
ghost use Rattle.std.specs.Prelude.{◌≡◌};
ghost use Rattle.klp_module_catalog.specs.declared.fault.CatalogFault.TheVariants.{NoMemory};

use klp_module_fit::FitFault;
use std::alloc::{AllocError, AllocFailed};

/// Why no catalog is written of some patches.
#[derive(Clone, Copy)]
pub enum CatalogFault {
    /// A catalog can't have the patches.
    Unfit(FitFault),
    /// The patches change more than `klp_types::MAX_OBJECTS` objects, with the kernel's image.
    TooManyObjects,
    /// There are more than `klp_types::MAX_SITES` symbols of the names that the patches name.
    TooManySymbols,
    NoMemory,
}

impl CatalogFault {
    /// Returns the number of the patch that is at fault, from 0. `None` if it is all of them together.
    pub fn patch(self) -> Option<usize> {
        match self {
            CatalogFault::Unfit(FitFault::Patch { number, .. } | FitFault::PatchTwice(number)) => {
                Some(number)
            }
            _ => None,
        }
    }
}

impl From<AllocError> for CatalogFault {
    ghost from_gives = { λ _ fault. fault ≡ NoMemory };

    fn from(_: AllocError) -> CatalogFault {
        CatalogFault::NoMemory
    }
}

impl<T: Drop> From<AllocFailed<T>> for CatalogFault {
    ghost from_gives = { λ _ fault. fault ≡ NoMemory };

    fn from(_: AllocFailed<T>) -> CatalogFault {
        CatalogFault::NoMemory
    }
}
