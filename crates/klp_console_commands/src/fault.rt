//! Why a line is faulty. A faulty line asks for nothing. The manager isn't called for a faulty line, so nothing
//! changes.

use klp_model::Refusal;

/// Why a line is faulty. A faulty line asks for nothing. The form of the whole line is checked before its names. So if
/// a line has several faults, `BadLine` is reported before `BadValue`. `BadValue` is reported before an unknown name,
/// and the first unknown name from the left is reported (docs/DECISIONS.md, "The shape of a line before its names").
#[derive(Clone, Copy)]
pub enum LineFault {
    /// The line matches no form: its first word is unknown, or it has wrong words, numbers or spellings.
    BadLine,
    /// A value other than `0` or `1` is written to the `enabled` or `force` file of a patch. The value `01` is refused
    /// too.
    BadValue,
    /// A name is unknown: `NoPatch`, `NoModule`, `NoSymbol`, or `NoTask` for a number that no task can have. The
    /// manager has the same refusals, so a fault has the same error wherever it is found.
    Refused(Refusal),
}
