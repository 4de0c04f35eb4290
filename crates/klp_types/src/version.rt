ghost use Rattle.std.specs.Prelude.{◌≡◌};
ghost use Rattle.klp_types.specs.Pick.{moves};

use crate::number::{PatchId, Site};

/// The code that a call of a function runs. A version names code and not an entry, so the version of a nop is the
/// original.
#[derive(Clone, Copy, Debug, PartialEq, Eq)]
pub enum Version {
    /// The function that the site was built with. The version names its site, so a frame shows at which site the call
    /// was.
    Original(Site),
    /// A new function of a patch, by its index among all functions of the patch, from 0.
    New(PatchId, u16),
}

/// A version with the address to which a call jumps. A handler needs exactly these two.
#[derive(Clone, Copy, PartialEq, Eq)]
pub struct Target {
    pub version: Version,
    /// The address of a new function, or the address after the entry site of an original. The jump to an original skips
    /// the entry site so that it doesn't call the handler again.
    pub address: u64,
}

/// An entry of a function stack. It says what one installed patch does at a site.
#[derive(Clone, Copy, Default, PartialEq, Eq)]
pub struct Entry {
    pub patch: PatchId,
    /// The patch's function, which replaces the site's original. `None` is a nop, with which a cumulative patch
    /// restores the original.
    pub func: Option<u16>,
}

/// The patch in transition. There is at most one (the kernel's `klp_transition_patch`).
#[derive(Clone, Copy, PartialEq, Eq)]
pub struct Transition {
    pub patch: PatchId,
    /// The target to which tasks are switched. If it is `true`, tasks are switched so that they run the patch. If it is
    /// `false`, tasks are switched so that they don't run the patch. A reversal changes only this field.
    pub target: bool,
}

/// Whether this patch is in transition. At most one patch is.
pub fn is_in_transition(transition: &Option<Transition>, patch: PatchId) -> bool
    ensures { result ≡ moves transition.now patch }
{
    match transition {
        Some(own) => own.patch == patch,
        None => false,
    }
}
