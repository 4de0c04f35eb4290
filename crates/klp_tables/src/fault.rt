//! Why a livepatch's tables can't be read.
ghost use Rattle.std.specs.Prelude.{◌≡◌};
ghost use Rattle.klp_tables.specs.declared.fault.TableFault.TheVariants.{Look, NoMemory};

use klp_elf::{LookFault, Place};
use std::alloc::{AllocError, AllocFailed};

#[derive(Clone, Copy)]
pub enum TableFault {
    /// A place of a table can't be read.
    Look(LookFault),
    /// A row has no pointer to a name here.
    NoName(Place),
    /// A row has no pointer to a function of the file here.
    NoFunction(Place),
    /// A row has no pointer to rows of the file here.
    NoRows(Place),
    /// A table begins here and has another size than its rows by the layout.
    Layout { table: Place, wanted: u64 },
    /// No variable looks like a struct klp_patch of this module, and it has no section of a tool.
    NoPatch,
    /// Several variables look like it.
    SeveralPatches,
    /// Rows of so many bytes don't fill the section that begins here.
    Ragged { table: Place, width: u64 },
    /// The callback in this row is its object's second one of a kind.
    ExtraCallback(Place),
    TooManyCallbacks,
    TooManyFunctions,
    TooManyObjects,
    TooManyStates,
    NoMemory,
}

impl From<AllocError> for TableFault {
    ghost from_gives = { λ _ fault. fault ≡ NoMemory };

    fn from(_: AllocError) -> TableFault {
        TableFault::NoMemory
    }
}

impl<T: Drop> From<AllocFailed<T>> for TableFault {
    ghost from_gives = { λ _ fault. fault ≡ NoMemory };

    fn from(_: AllocFailed<T>) -> TableFault {
        TableFault::NoMemory
    }
}
