use crate::shadow::{ShadowKey, ShadowValue};

/// One step of a script. An edit is made for the patch whose callback runs the script. A kernel has no edits, since its
/// callbacks are code. Edits stand for what such code does to shadow variables and system states.
#[derive(Clone, Copy, PartialEq, Eq)]
pub enum Edit {
    /// Adds a shadow variable with this value. Does nothing if the variable exists.
    Alloc(ShadowKey, ShadowValue),
    /// Removes a shadow variable. Does nothing if the variable doesn't exist, as `klp_shadow_free`.
    Free(ShadowKey),
    /// Removes the shadow variables of this id, whatever their parent objects.
    FreeAll(u64),
    /// Sets the patch's system state with this id to the value. Does nothing if the patch doesn't name the state, since
    /// scripts aren't checked against their patches.
    SetData(u64, u64),
    /// Sets the patch's system state with this id to the state's value in the newest older patch that names it. Does
    /// nothing if no older patch names the state.
    TakePrev(u64),
}

/// Returns an edit that removes the variable with parent object 0 and id 0. The unused elements of an array of edits
/// have this value, and are never read.
impl Default for Edit {
    fn default() -> Self {
        Edit::Free(ShadowKey::default())
    }
}
