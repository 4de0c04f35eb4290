//! Why a catalog can't have some livepatches.

/// Why a catalog can't have some livepatches. All numbers count from 0.
#[derive(Clone, Copy)]
pub enum FitFault {
    /// There are more than `klp_types::MAX_PATCHES`.
    TooManyPatches,
    /// Another patch has the name of this one.
    PatchTwice(usize),
    /// This patch doesn't fit.
    Patch { number: usize, fault: PatchFault },
}

/// Why a catalog can't have a livepatch.
#[derive(Clone, Copy)]
pub enum PatchFault {
    /// A catalog's patch can't have its name.
    BadName,
    /// It changes more than `klp_types::MAX_TARGETS` objects.
    TooManyObjects,
    /// It changes more than `klp_types::MAX_FUNCTIONS` functions.
    TooManyFunctions,
    /// It has more than `klp_types::MAX_STATES` system states.
    TooManyStates,
    /// A catalog's object can't have the name of this one.
    BadObject(usize),
    /// Another table is of this object too.
    ObjectTwice(usize),
    /// A catalog's symbol can't have the name of some function of this object.
    BadFunction(usize),
    /// The position of some function of this object is above `klp_types::MAX_SITES`.
    FarPosition(usize),
    /// Another state has the id of this one.
    StateTwice(usize),
}
