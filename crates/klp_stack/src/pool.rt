//! The pool of all entries. Its functions put entries of stacks into free slots, and free slots when entries are taken
//! out.
ghost use Rattle.std.specs.Prelude.{◌≡◌, ◌+◌, ◌-◌, ◌<◌, ◌≤◌, ◌&&◌, not, nat_lt, length, is_some, option_map, IfSome};
ghost use Rattle.std.specs.Prelude.{IfNone};
ghost use Rattle.klp_stack.specs.Stack.{has_entry, place_of};
ghost use Rattle.klp_stack.specs.Undo.{may_be_at};
ghost use Rattle.klp_stack.specs.Pool.{IsLinked, slot_at, entries_of, entries_below};
ghost use Rattle.klp_stack.specs.Linking.{IsPutInto, IsTakenOut, filled, linked_to};

use crate::chain::{Chain, Lower};
use crate::slot::{MAX_ENTRIES, Slot};
use klp_types::{Entry, MAX_PATCHES, PatchId, Place};

/// The slots of all stacks. The slots that aren't used by a stack are linked into a free list.
#[derive(Drop)]
pub(crate) struct Pool {
    /// All slots, by number. From the start there are [`MAX_ENTRIES`] slots, so no later call takes memory.
    pub(crate) slots: Vec<Slot>,
    /// The number of the first free slot. The field means nothing while `spare` is 0.
    pub(crate) free: u16,
    /// How many slots are free.
    pub(crate) spare: u16,
}

impl Pool {
    /// Puts an entry into the first slot of the free list, and links this slot to the slot `older`, which is below it
    /// on the stack. Returns the number of the filled slot.
    #[inline(always)]
    fn fill(&mut self, entry: Entry, older: u16) -> u16
        requires spare { 0 < self.old.spare }
        requires there { self.old.free < length self.old.slots.items }
        ensures number { result ≡ self.old.free }
        ensures slots { self.new.slots.items ≡ filled self.old.slots.items self.old.free entry older }
        ensures free { self.new.free ≡ (slot_at self.old.slots.items self.old.free).older }
        ensures spare { self.new.spare ≡ self.old.spare - 1 }
    {
        let number = self.free;
        self.free = self.slots[usize::from(number)].older;
        self.slots[usize::from(number)] = Slot { entry, older };
        self.spare -= 1;
        number
    }

    /// Puts a slot back at the front of the free list.
    #[inline(always)]
    fn release(&mut self, number: u16)
        requires spare { self.old.spare < MAX_ENTRIES }
        requires there { number < length self.old.slots.items }
        ensures slots { self.new.slots.items ≡ linked_to self.old.slots.items number self.old.free }
        ensures free { self.new.free ≡ number }
        ensures spare { self.new.spare ≡ self.old.spare + 1 }
    {
        self.slots[usize::from(number)].older = self.free;
        self.free = number;
        self.spare += 1;
    }

    /// Puts an entry on top of a stack, and returns the changed stack.
    #[inline(always)]
    pub(crate) fn push(&mut self, chain: Chain, entry: Entry) -> Chain
        requires spare { 0 < self.old.spare }
        requires there { self.old.free < length self.old.slots.items }
        requires few { chain.len < MAX_ENTRIES }
        ensures chain { result ≡ record { newest = self.old.free; len = chain.len + 1 } }
        ensures slots { self.new.slots.items ≡ filled self.old.slots.items self.old.free entry chain.newest }
        ensures free { self.new.free ≡ (slot_at self.old.slots.items self.old.free).older }
        ensures spare { self.new.spare ≡ self.old.spare - 1 }
    {
        let newest = self.fill(entry, chain.newest);
        Chain {
            newest,
            len: chain.len + 1,
        }
    }

    /// Inserts an entry just below the slot `above`, on top of the entries that were below `above` before.
    fn put_below(&mut self, above: u16, entry: Entry)
        requires spare { 0 < self.old.spare }
        requires there { self.old.free < length self.old.slots.items }
        requires above { above < length self.old.slots.items }
        ensures slots { self.new.slots.items
            ≡ linked_to (filled self.old.slots.items self.old.free entry (slot_at self.old.slots.items above).older)
            above self.old.free }
        ensures free { self.new.free ≡ (slot_at self.old.slots.items self.old.free).older }
        ensures spare { self.new.spare ≡ self.old.spare - 1 }
    {
        let older = self.slots[usize::from(above)].older;
        let number = self.fill(entry, older);
        self.slots[usize::from(above)].older = number;
    }

    /// Takes the newest entry off a stack, and returns the stack that is left.
    #[inline(always)]
    fn pop(&mut self, chain: Chain) -> Chain
        requires spare { self.old.spare < MAX_ENTRIES }
        requires some { 0 < chain.len }
        requires there { chain.newest < length self.old.slots.items }
        ensures chain { result
            ≡ record { newest = (slot_at self.old.slots.items chain.newest).older; len = chain.len - 1 } }
        ensures slots { self.new.slots.items ≡ linked_to self.old.slots.items chain.newest self.old.free }
        ensures free { self.new.free ≡ chain.newest }
        ensures spare { self.new.spare ≡ self.old.spare + 1 }
    {
        let newest = self.slots[usize::from(chain.newest)].older;
        self.release(chain.newest);
        Chain {
            newest,
            len: chain.len - 1,
        }
    }

    /// Takes out the entry just below the slot `above`, and links `above` to the next older entry.
    fn take_below(&mut self, above: u16)
        requires spare { self.old.spare < MAX_ENTRIES }
        requires above { above < length self.old.slots.items }
        requires there { (slot_at self.old.slots.items above).older < length self.old.slots.items }
        ensures slots { let number = (slot_at self.old.slots.items above).older in
            self.new.slots.items ≡ linked_to
            (linked_to self.old.slots.items above (slot_at self.old.slots.items number).older) number self.old.free }
        ensures free { self.new.free ≡ (slot_at self.old.slots.items above).older }
        ensures spare { self.new.spare ≡ self.old.spare + 1 }
    {
        let number = self.slots[usize::from(above)].older;
        let older = self.slots[usize::from(number)].older;
        self.slots[usize::from(above)].older = older;
        self.release(number);
    }

    /// Takes the entry of a patch out of a stack. Returns the entry's place and the stack that is left. Returns `None`
    /// if the patch has no entry there. The newest entry is tried first, since most entries are on top when they are
    /// taken out.
    #[inline(always)]
    pub(crate) fn take(&mut self, chain: Chain, patch: PatchId) -> Option<(Place, Chain)>
        requires linked { IsLinked self.old.slots.items chain.len chain.newest }
        requires few { chain.len ≤ MAX_PATCHES }
        requires spare { 0 < chain.len → self.old.spare < MAX_ENTRIES }
        ensures place { option_map (λ taken. taken.0) result
            ≡ place_of patch (entries_of self.old.slots.items chain) }
        ensures taken { IfSome result (λ taken. IsTakenOut self.old self.new chain taken.0.index taken.1) }
        ensures unchanged { IfNone result (self.new ≡ self.old) }
    {
        if chain.len == 0 {
            return None;
        }
        let newest = self.slots[usize::from(chain.newest)].entry;
        if newest.patch != patch {
            return self.take_lower(chain, patch);
        }
        let place = Place {
            index: (chain.len - 1) as u8,
            func: newest.func,
        };
        Some((place, self.pop(chain)))
    }

    /// Does the same as `take`, for a stack whose newest entry is another patch's. The cost is the number of entries
    /// above the patch's entry.
    #[cold]
    fn take_lower(&mut self, chain: Chain, patch: PatchId) -> Option<(Place, Chain)>
        requires linked { IsLinked self.old.slots.items chain.len chain.newest }
        requires some { 0 < chain.len }
        requires few { chain.len ≤ MAX_PATCHES }
        requires spare { self.old.spare < MAX_ENTRIES }
        ensures place { option_map (λ taken. taken.0) result
            ≡ place_of patch (entries_below self.old.slots.items chain) }
        ensures taken { IfSome result (λ taken. IsTakenOut self.old self.new chain taken.0.index taken.1) }
        ensures unchanged { IfNone result (self.new ≡ self.old) }
    {
        let Lower { above, place } = chain.lower(&self.slots, patch)?;
        self.take_below(above);
        let left = Chain {
            newest: chain.newest,
            len: chain.len - 1,
        };
        Some((place, left))
    }

    /// Inserts an entry into a stack with `index` older entries below it, and returns the changed stack. Returns `None`
    /// and changes nothing if the stack has fewer entries, if the patch has one already, or if the patch's number is
    /// out of range. In undo these cases never happen. The checks keep the stack valid for any other caller.
    #[inline(always)]
    pub(crate) fn put(&mut self, chain: Chain, index: u8, entry: Entry) -> Option<Chain>
        requires linked { IsLinked self.old.slots.items chain.len chain.newest }
        requires few { chain.len ≤ MAX_PATCHES }
        requires spare { 0 < self.old.spare }
        requires there { self.old.free < length self.old.slots.items }
        ensures may { is_some result ≡ may_be_at entry.patch index (entries_of self.old.slots.items chain) }
        ensures put { IfSome result (λ grown. IsPutInto self.old self.new chain index entry grown) }
        ensures unchanged { IfNone result (self.new ≡ self.old) }
    {
        if usize::from(entry.patch.0) >= MAX_PATCHES {
            return None;
        }
        if u16::from(index) != chain.len {
            return self.put_lower(chain, index, entry);
        }
        if chain.has(&self.slots, entry.patch) {
            return None;
        }
        Some(self.push(chain, entry))
    }

    /// Does the same as `put`, for an entry that isn't put on top. The cost is the stack's height.
    #[cold]
    fn put_lower(&mut self, chain: Chain, index: u8, entry: Entry) -> Option<Chain>
        requires linked { IsLinked self.old.slots.items chain.len chain.newest }
        requires few { chain.len ≤ MAX_PATCHES }
        requires spare { 0 < self.old.spare }
        requires there { self.old.free < length self.old.slots.items }
        ensures may { is_some result
            ≡ (not (has_entry entry.patch (entries_of self.old.slots.items chain)) && nat_lt index chain.len) }
        ensures put { IfSome result (λ grown. IsPutInto self.old self.new chain index entry grown) }
        ensures unchanged { IfNone result (self.new ≡ self.old) }
    {
        let above = chain.above(&self.slots, entry.patch, index)?;
        self.put_below(above, entry);
        Some(Chain {
            newest: chain.newest,
            len: chain.len + 1,
        })
    }
}
