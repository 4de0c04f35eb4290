use thiserror::Error;

/// Why a name and a position pick no symbol of an object, as in the kernel's `klp_find_object_symbol`. The numbers are
/// this project's own, and never change.
#[derive(Clone, Copy, Debug, PartialEq, Eq, Error)]
pub enum SymbolFault {
    /// No symbol of the object has the name, whatever the position.
    #[error("Missing")]
    Missing = 1,
    /// Several symbols have the name, and the position is 0, which picks only a unique symbol.
    #[error("Ambiguous")]
    Ambiguous = 2,
    /// The position is greater than the number of symbols with the name. Positions count from 1, as in kallsyms.
    #[error("NoPosition")]
    NoPosition = 3,
}
