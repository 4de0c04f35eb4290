//! The slots of the shadow variables. Each bucket has one linked list of its slots.
ghost use Rattle.std.specs.Prelude.{◌≡◌, ◌≢◌, ℕ, ◌+◌, ◌<◌, ◌≤◌, [], Some, None, length, vec_capacity, IfOk};
ghost use Rattle.klp_world.specs.Chained.{IsChained, IsAbove, IsRehomed, bucket_at, is_in, pointed, with_newest};
ghost use Rattle.klp_world.specs.Chained.{with_links};

use klp_types::MAX_VARIABLES;
use std::alloc::{AllocError, Global};

/// How many buckets there are. The number is a power of two, since the hash is the top bits of a product.
pub(crate) const BUCKETS: usize = 64;

/// The list node of a slot: its bucket, and the next slot of that bucket.
#[derive(Clone, Copy)]
pub(crate) struct Link {
    /// The next older slot of the bucket, if there is one. An older slot has a lower number.
    pub(crate) older: Option<u16>,
    pub(crate) bucket: u8,
}

/// For each slot its bucket, and for each bucket a list of its slots, newest first. In each list the slot numbers fall.
/// So the buckets of the slots determine all links.
#[derive(Drop)]
pub(crate) struct Chains {
    /// By bucket, the newest slot of the bucket. `None` if the bucket is empty.
    pub(crate) newest: Vec<Option<u16>>,
    /// By slot, the slot's list node.
    pub(crate) links: Vec<Link>,
}

impl Chains {
    /// Creates the lists without slots, and allocates memory for [`MAX_VARIABLES`] slots. So no later call takes
    /// memory.
    pub(crate) fn new(alloc: Global) -> Result<Self, AllocError>
        ensures chained { IfOk result IsChained }
        ensures none { IfOk result (λ chains. chains.links.items ≡ []) }
    {
        Ok(Self {
            newest: vec![in alloc; None; BUCKETS]?,
            links: Vec::with_capacity(alloc, MAX_VARIABLES)?,
        })
    }

    /// Returns the lowest slot of a bucket whose number is above `slot`. The slot `slot` needn't be in the bucket. If
    /// it is, the returned slot is the one that links to it. Returns `None` if the bucket has no slot above `slot`.
    fn above(&self, bucket: u8, slot: u16) -> Option<u16>
        requires chained { IsChained self.now }
        requires bucket { bucket < BUCKETS }
        ensures { IsAbove (is_in self.now.links.items bucket) slot (length self.now.links.items) result }
    {
        let mut above = None;
        let mut next = self.newest[usize::from(bucket)];
        while let Some(newer) = next {
            if newer <= slot {
                return above;
            }
            above = next;
            next = self.links[usize::from(newer)].older;
        }
        above
    }

    /// Returns the slot that the slot `above` links to. If `above` is `None`, returns the newest slot of the
    /// bucket.
    fn below(&self, bucket: u8, above: Option<u16>) -> Option<u16>
        requires bucket { bucket < length self.now.newest.items }
        requires above { (slot : ℕ) → above ≡ Some slot → slot < length self.now.links.items }
        ensures { result ≡ pointed self.now bucket above }
    {
        match above {
            Some(slot) => self.links[usize::from(slot)].older,
            None => self.newest[usize::from(bucket)],
        }
    }

    /// Makes the slot `above` link to `to`. If `above` is `None`, makes `to` the newest slot of the bucket.
    fn point(&mut self, bucket: u8, above: Option<u16>, to: Option<u16>)
        requires bucket { bucket < length self.old.newest.items }
        requires above { (slot : ℕ) → above ≡ Some slot → slot < length self.old.links.items }
        ensures newest { self.new.newest.items ≡ with_newest self.old.newest.items bucket above to }
        ensures links { self.new.links.items ≡ with_links self.old.links.items above to }
        ensures room { vec_capacity self.new.links ≡ vec_capacity self.old.links }
    {
        match above {
            Some(slot) => self.links[usize::from(slot)].older = to,
            None => self.newest[usize::from(bucket)] = to,
        }
    }

    /// Adds the slot with the next number to a bucket, as the newest slot there.
    pub(crate) fn push(&mut self, bucket: u8)
        requires chained { IsChained self.old }
        requires few { length self.old.links.items < MAX_VARIABLES }
        requires bucket { bucket < BUCKETS }
        ensures chained { IsChained self.new }
        ensures len { length self.new.links.items ≡ length self.old.links.items + 1 }
        ensures last { bucket_at self.new (length self.old.links.items) ≡ bucket }
        ensures others { (slot : ℕ) → slot < length self.old.links.items
            → bucket_at self.new slot ≡ bucket_at self.old slot }
    {
        let older = self.newest[usize::from(bucket)];
        self.newest[usize::from(bucket)] = Some(self.links.len() as u16);
        let _ = self.links.push(Link { older, bucket });
    }

    /// Removes the slot with the highest number, and returns its bucket. This slot is the newest of its bucket.
    fn pop(&mut self) -> Option<u8>
        requires chained { IsChained self.old }
        requires some { 0 < length self.old.links.items }
        ensures chained { IsChained self.new }
        ensures len { length self.new.links.items + 1 ≡ length self.old.links.items }
        ensures was { result ≡ Some (bucket_at self.old (length self.new.links.items)) }
        ensures others { (slot : ℕ) → slot < length self.new.links.items
            → bucket_at self.new slot ≡ bucket_at self.old slot }
    {
        let Link { older, bucket } = self.links.pop()?;
        self.newest[usize::from(bucket)] = older;
        Some(bucket)
    }

    /// Moves a slot from the list of its bucket into the list of another bucket.
    fn rehome(&mut self, slot: u16, to: u8)
        requires chained { IsChained self.old }
        requires there { slot < length self.old.links.items }
        requires bucket { to < BUCKETS }
        ensures chained { IsChained self.new }
        ensures rehomed { IsRehomed self.old self.new slot to }
    {
        let Link { older, bucket } = self.links[usize::from(slot)];
        if bucket == to {
            return;
        }
        let left = self.above(bucket, slot);
        let entered = self.above(to, slot);
        let next = self.below(to, entered);
        self.point(bucket, left, older);
        self.point(to, entered, Some(slot));
        self.links[usize::from(slot)] = Link {
            older: next,
            bucket: to,
        };
    }

    /// Removes a slot. If it isn't the last slot, the last slot gets the number of the removed slot.
    pub(crate) fn swap_remove(&mut self, slot: u16)
        requires chained { IsChained self.old }
        requires there { slot < length self.old.links.items }
        ensures chained { IsChained self.new }
        ensures len { length self.new.links.items + 1 ≡ length self.old.links.items }
        ensures moved { slot < length self.new.links.items
            → bucket_at self.new slot ≡ bucket_at self.old (length self.new.links.items) }
        ensures others { (other : ℕ) → other ≢ slot → other < length self.new.links.items
            → bucket_at self.new other ≡ bucket_at self.old other }
    {
        let Some(bucket) = self.pop() else {
            return;
        };
        if usize::from(slot) < self.links.len() {
            self.rehome(slot, bucket);
        }
    }
}
