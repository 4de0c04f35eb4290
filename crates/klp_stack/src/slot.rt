//! One slot of the pool, and how many slots there are.

use klp_types::{Entry, MAX_FUNCTIONS, MAX_PATCHES, MAX_SITES};

/// How many entries all stacks may have together. For all patches but one, each function may have an entry. In
/// addition, each site may have one entry of the newest patch, since only the newest patch may have nops in addition to
/// its functions.
pub const MAX_ENTRIES: usize = (MAX_PATCHES - 1) * MAX_FUNCTIONS + MAX_SITES;

/// A slot of the pool. A slot is either on one stack or in the free list.
#[derive(Clone, Copy)]
pub(crate) struct Slot {
    /// The slot's entry. The field means nothing while the slot is free.
    pub(crate) entry: Entry,
    /// The number of the slot with the next older entry. For a free slot, it is the number of the next free slot. The
    /// field means nothing in the oldest slot of a stack and in the last free slot. No end mark is needed, since the
    /// lengths of the stacks and of the free list are stored.
    pub(crate) older: u16,
}
