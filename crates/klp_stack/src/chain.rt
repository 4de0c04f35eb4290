//! Reads the stack of one site. The entries of a stack are slots of the pool, linked from newest to oldest.
ghost use Rattle.std.specs.Prelude.{◌≡◌, ◌+◌, ◌-◌, ◌<◌, ◌≤◌, ◌==◌, ◌&&◌, not, nat_lt, find, length, slice_get, is_some};
ghost use Rattle.std.specs.Prelude.{option_map, IfSome};
ghost use Rattle.std.specs.Option.{option_to_list};
ghost use Rattle.klp_types.specs.declared.version.Entry.{Entry as AnyEntry};
ghost use Rattle.klp_model.specs.Blocked.{blocked_among};
ghost use Rattle.klp_model.specs.Rows.{word_of};
ghost use Rattle.klp_types.specs.declared.limits.TheConstants.{MAX_PATCHES};
ghost use Rattle.klp_stack.specs.Stack.{has_entry, place_of};
ghost use Rattle.klp_stack.specs.Pool.{IsLinked, entries_from, entries_below, slot_below};

use crate::picks::version_of;
use crate::slot::Slot;
use arrayvec::ArrayVec;
use klp_types::{Entry, MAX_PATCHES, PatchId, Place, Site, SiteWord, Transition, Version};

/// The function stack of one site (the kernel's `func_stack`). Its entries are linked newest first. The newest entry is
/// that of the patch that was enabled last. The newest entry hides the older entries.
#[derive(Clone, Copy)]
pub(crate) struct Chain {
    /// The number of the slot with the newest entry. The field means nothing while `len` is 0.
    pub(crate) newest: u16,
    /// How many entries the stack has. A site with 0 entries isn't hooked.
    pub(crate) len: u16,
}

/// An entry below the newest one, with the number of the slot just above it. That slot must be relinked when the
/// entry is taken out.
#[derive(Clone, Copy)]
pub(crate) struct Lower {
    pub(crate) above: u16,
    pub(crate) place: Place,
}

impl Chain {
    /// Returns the number of the slot that has `newer` entries above it. The cost is proportional to `newer`.
    pub(crate) fn slot(self, slots: &[Slot], newer: u16) -> u16
        requires linked { IsLinked slots.now self.len self.newest }
        requires within { newer < self.len }
        ensures value { result ≡ slot_below slots.now newer self.newest }
        ensures there { result < length slots.now }
    {
        let mut number = self.newest;
        for _ in 0..newer {
            number = slots[usize::from(number)].older;
        }
        number
    }

    /// Returns the entry that has `newer` entries above it. Returns `None` if the stack has at most `newer` entries.
    pub(crate) fn entry_below(self, slots: &[Slot], newer: u16) -> Option<Entry>
        requires { IsLinked slots.now self.len self.newest }
        ensures { result ≡ slice_get (entries_from slots.now self.len self.newest) newer }
    {
        if newer < self.len {
            let number = self.slot(slots, newer);
            Some(slots[usize::from(number)].entry)
        } else {
            None
        }
    }

    /// Returns the place of the patch's entry: its index counted from the oldest entry, and the function that the entry
    /// has. Returns `None` if the patch has no entry on this stack. A patch has at most one entry on a stack, so the
    /// search ends at the first entry that it finds.
    pub(crate) fn place(self, slots: &[Slot], patch: PatchId) -> Option<Place>
        requires linked { IsLinked slots.now self.len self.newest }
        requires few { self.len ≤ MAX_PATCHES }
        ensures { result ≡ place_of patch (entries_from slots.now self.len self.newest) }
    {
        let mut number = self.newest;
        for index in (0..self.len).rev() {
            let Slot { entry, older } = slots[usize::from(number)];
            if entry.patch == patch {
                return Some(Place {
                    index: index as u8,
                    func: entry.func,
                });
            }
            number = older;
        }
        None
    }

    /// Returns the place of the patch's entry, and the slot above it. Returns `None` if the patch has no entry on this
    /// stack, or if its entry is the newest.
    pub(crate) fn lower(self, slots: &[Slot], patch: PatchId) -> Option<Lower>
        requires linked { IsLinked slots.now self.len self.newest }
        requires some { 0 < self.len }
        requires few { self.len ≤ MAX_PATCHES }
        ensures place { option_map (λ lower. lower.place) result ≡ place_of patch (entries_below slots.now self) }
        ensures above { IfSome result
            (λ lower. (lower.place.index + 1 < self.len)
            × (lower.above ≡ slot_below slots.now (self.len - 2 - lower.place.index) self.newest)) }
    {
        let mut above = self.newest;
        for index in (0..self.len - 1).rev() {
            let number = slots[usize::from(above)].older;
            let entry = slots[usize::from(number)].entry;
            if entry.patch == patch {
                let place = Place {
                    index: index as u8,
                    func: entry.func,
                };
                return Some(Lower { above, place });
            }
            above = number;
        }
        None
    }

    /// Returns the slot just below which an entry of the patch must be put to have the position `index`, counted from
    /// the oldest. The returned slot has `index` older entries below it. Returns `None` if the stack has at most
    /// `index` entries, or if the patch has an entry already.
    pub(crate) fn above(self, slots: &[Slot], patch: PatchId, index: u8) -> Option<u16>
        requires linked { IsLinked slots.now self.len self.newest }
        requires few { self.len ≤ MAX_PATCHES }
        ensures may { is_some result
            ≡ (not (has_entry patch (entries_from slots.now self.len self.newest)) && nat_lt index self.len) }
        ensures above { IfSome result
            (λ above. (index < self.len) × (above ≡ slot_below slots.now (self.len - 1 - index) self.newest)) }
    {
        if u16::from(index) >= self.len {
            return None;
        }
        let mut above = self.newest;
        let mut number = self.newest;
        for left in (0..self.len).rev() {
            let slot = slots[usize::from(number)];
            if slot.entry.patch == patch {
                return None;
            }
            if left == u16::from(index) {
                above = number;
            }
            number = slot.older;
        }
        Some(above)
    }

    /// Copies the entries into an array, newest first, so that the caller needn't borrow the stack.
    pub(crate) fn entries(self, slots: &[Slot]) -> ArrayVec<Entry, MAX_PATCHES>
        requires linked { IsLinked slots.now self.len self.newest }
        requires few { self.len ≤ MAX_PATCHES }
        ensures { result.items ≡ entries_from slots.now self.len self.newest }
    {
        let mut entries = ArrayVec::new();
        let mut number = self.newest;
        for _index in (0..self.len).rev() {
            let Slot { entry, older } = slots[usize::from(number)];
            entries.push(entry);
            number = older;
        }
        entries
    }

    /// Returns the entry of a patch, wherever it is on the stack. Returns `None` if the patch has no entry on this
    /// stack.
    pub(crate) fn entry(self, slots: &[Slot], patch: PatchId) -> Option<Entry>
        requires linked { IsLinked slots.now self.len self.newest }
        requires few { self.len ≤ MAX_PATCHES }
        ensures { result ≡ find (λ (e : AnyEntry). e.patch == patch) (entries_from slots.now self.len self.newest) }
    {
        let Some(Place { index: _, func }) = self.place(slots, patch) else {
            return None;
        };
        Some(Entry { patch, func })
    }

    /// Returns the two newest entries, and whether the newest entry's patch is in transition. The patches of older
    /// entries aren't checked. Even if an older entry's patch were in transition, every task would run the newest
    /// entry.
    pub(crate) fn word(self, slots: &[Slot], moving: Option<PatchId>) -> SiteWord
        requires { IsLinked slots.now self.len self.newest }
        ensures { result ≡ word_of moving (entries_from slots.now self.len self.newest) }
    {
        let top = self.entry_below(slots, 0);
        let moves = match (top, moving) {
            (Some(entry), Some(patch)) => patch == entry.patch,
            _ => false,
        };
        SiteWord {
            top,
            below: self.entry_below(slots, 1),
            moves,
        }
    }

    /// Returns the version that blocks a sleeper at this site (the kernel's `klp_check_stack_func`). While the patch is
    /// being disabled, its own version blocks a sleeper. While the patch is being enabled, the version below its entry
    /// blocks a sleeper: the version of the next older entry, or the original if there is no older entry. Returns
    /// `None` if the patch has no entry on this stack.
    pub(crate) fn blocked(self, slots: &[Slot], site: Site, moving: Transition) -> Option<Version>
        requires linked { IsLinked slots.now self.len self.newest }
        requires few { self.len ≤ MAX_PATCHES }
        ensures { option_to_list result ≡ blocked_among site moving (entries_from slots.now self.len self.newest) }
    {
        let Some(Place { index, func }) = self.place(slots, moving.patch) else {
            return None;
        };
        let entry = if !moving.target {
            Some(Entry {
                patch: moving.patch,
                func,
            })
        } else {
            self.entry_below(slots, self.len - u16::from(index))
        };
        Some(version_of(site, entry))
    }

    /// Whether the patch has an entry on this stack.
    #[inline(always)]
    pub(crate) fn has(self, slots: &[Slot], patch: PatchId) -> bool
        requires linked { IsLinked slots.now self.len self.newest }
        requires few { self.len ≤ MAX_PATCHES }
        ensures { result ≡ has_entry patch (entries_from slots.now self.len self.newest) }
    {
        self.len > 0 && self.place(slots, patch).is_some()
    }
}
