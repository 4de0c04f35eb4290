//! Short lists that are copied as a whole: patches in an order, and some of a target's functions.
ghost use Rattle.std.specs.Prelude.{◌≡◌, ◌⊎◌, ℕ, true, false};
ghost use Rattle.klp_lint_findings.specs.Targets.{has_function};

use klp_types::{MAX_FUNCTIONS, MAX_PATCHES, PatchId};

/// Patches in an order.
#[derive(Clone, Copy, PartialEq, Eq)]
pub struct PatchList {
    items: [PatchId; MAX_PATCHES],
    len: usize,
}

impl PatchList {
    /// A list without patches.
    pub fn new() -> PatchList {
        PatchList {
            items: [PatchId(0); MAX_PATCHES],
            len: 0,
        }
    }

    /// A list of these patches.
    pub fn of(patches: &[PatchId]) -> PatchList {
        let mut list = PatchList::new();
        for patch in patches {
            list.push(*patch);
        }
        list
    }

    /// Appends a patch. Does nothing if the list has [`MAX_PATCHES`] patches already.
    pub fn push(&mut self, patch: PatchId) {
        if let Some(place) = self.items.get_mut(self.len) {
            *place = patch;
            self.len = self.len.saturating_add(1);
        }
    }

    /// Takes the last patch off the list. Returns `None` if the list has no patches.
    pub fn pop(&mut self) -> Option<PatchId> {
        let last = self.len.checked_sub(1)?;
        self.len = last;
        self.items.get(last).copied()
    }

    /// The patches, in their order.
    pub fn as_slice(&self) -> &[PatchId] {
        self.items.get(..self.len).unwrap_or(&[])
    }

    /// Whether the patch is in the list.
    pub fn contains(&self, patch: PatchId) -> bool {
        self.as_slice().contains(&patch)
    }
}

/// Some of a target's functions, by their numbers among its functions.
#[derive(Clone, Copy, PartialEq, Eq)]
pub struct FunctionSet {
    flags: [bool; MAX_FUNCTIONS],
}

impl FunctionSet {
    /// A set without functions.
    pub fn new() -> FunctionSet
        ensures { (number : ℕ) → has_function result number ≡ false }
    {
        FunctionSet {
            flags: [false; MAX_FUNCTIONS],
        }
    }

    /// Adds the function with this number. A target has no function with a number of [`MAX_FUNCTIONS`] or more.
    pub fn insert(&mut self, number: usize)
        ensures { (other : ℕ) → has_function self.new other ≡ true
            → (has_function self.old other ≡ true) ⊎ (other ≡ number) }
    {
        if number < MAX_FUNCTIONS {
            self.flags[number] = true;
        }
    }

    /// Adds the function with this number, if it belongs there.
    pub fn insert_if(&mut self, number: usize, belongs: bool)
        ensures { (other : ℕ) → has_function self.new other ≡ true
            → (has_function self.old other ≡ true) ⊎ ((other ≡ number) × (belongs ≡ true)) }
    {
        if belongs {
            self.insert(number);
        }
    }

    /// Adds the functions of another set.
    pub fn insert_all(&mut self, other: &FunctionSet) {
        for (number, flag) in other.flags.iter().enumerate() {
            if *flag {
                self.insert(number);
            }
        }
    }

    /// Whether the function with this number is in the set.
    pub fn contains(&self, number: usize) -> bool {
        self.flags.get(number).copied().unwrap_or(false)
    }

    /// How many functions the set has.
    pub fn count(&self) -> usize {
        self.flags.iter().filter(|flag| **flag).count()
    }
}
