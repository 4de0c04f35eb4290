ghost use Rattle.std.specs.Prelude.{◌≡◌, ◌<◌, ◌≤◌, ◌==◌, ◌&&◌, not, find, true, false, [], ◌∷◌, length, replicate};
ghost use Rattle.std.specs.Prelude.{slice_set, Some, None, is_some, option_map, IfOk, IfSome, IfNone};
ghost use Rattle.std.specs.Option.{option_to_list};
ghost use Rattle.klp_model.specs.Blocked.{blocked_among};
ghost use Rattle.klp_model.specs.Rows.{word_of};
ghost use Rattle.klp_types.specs.declared.version.Entry.{Entry as AnyEntry};
ghost use Rattle.klp_types.specs.Entries.{is_empty};
ghost use Rattle.klp_stack.specs.Stack.{IsStack, entries_at, has_entry, entries_of_others, place_of};
ghost use Rattle.klp_stack.specs.Pool.{IsFree};
ghost use Rattle.klp_stack.specs.Spare.{spare_in};
ghost use Rattle.klp_stack.specs.Undo.{put_back, takes_room};
ghost use Rattle.klp_stack.specs.Changes.{Changes};

use crate::chain::Chain;
use crate::pool::Pool;
use crate::slot::{MAX_ENTRIES, Slot};
use arrayvec::ArrayVec;
use klp_types::{
    Entry, MAX_PATCHES, MAX_SITES, PatchId, Place, Record, Site, SiteWord, Transition, Version,
};
use std::alloc::{AllocError, Global};
use std::marker::Model;

/// The function stacks of all sites (the kernel's `func_stack` of each `klp_ops`).
///
/// [`Stacks::new`] allocates all memory, for [`MAX_ENTRIES`] entries of all sites together. Each change concerns one
/// entry, and has a record of the entry before the change. If the records of several changes are put back newest first,
/// the stacks are restored.
#[derive(Drop)]
pub struct Stacks {
    pool: Pool,
    /// The stack of each site, by the site's number.
    chains: Vec<Chain>,
}

/// The entry that `take` took out of a stack, and whether the stack is empty.
#[derive(Clone, Copy)]
pub struct Taken {
    /// The place and the function that the entry had.
    pub place: Place,
    /// Whether the stack is empty now.
    pub is_last: bool,
}

impl Model for Stacks {
    ghost use Rattle.std.specs.Prelude.{List, map};
    ghost use Rattle.klp_types.specs.declared.version.Entry.{Entry};
    ghost use Rattle.klp_stack.specs.Pool.{IsPool, entries_of};

    ghost Value = { List (List Entry) };

    ghost view = { λ s. map (entries_of s.pool.slots.items) s.chains.items };

    ghost invariant = { λ s. IsPool s.pool.slots.items s.chains.items s.pool.free s.pool.spare };
}

/// Creates the pool with all its slots in the free list, each linked to the next.
fn free_pool(alloc: Global) -> Result<Pool, AllocError>
    ensures { IfOk result (λ pool. IsFree pool.slots.items pool.free pool.spare) }
{
    let mut slots = Vec::with_capacity(alloc, MAX_ENTRIES)?;
    for number in 0..MAX_ENTRIES as u16 {
        slots.push(Slot {
            entry: Entry::default(),
            older: number + 1,
        })?;
    }
    Ok(Pool {
        slots,
        free: 0,
        spare: MAX_ENTRIES as u16,
    })
}

impl Stacks {
    /// Creates an empty stack for each of `sites` sites, and allocates the whole pool, so that no later call takes
    /// memory. Returns `Err` if memory is refused.
    pub fn new(alloc: Global, sites: usize) -> Result<Self, AllocError>
        ensures { IfOk result (λ stacks. stacks ≡ replicate sites []) }
    {
        let pool = free_pool(alloc)?;
        let mut chains = Vec::with_capacity(alloc, sites)?;
        for _ in 0..sites {
            chains.push(Chain { newest: 0, len: 0 })?;
        }
        Ok(Self { pool, chains })
    }

    /// Returns how many more entries fit. The result is the number of free slots, at a constant cost.
    pub fn spare(&self) -> u16
        ensures { result ≡ spare_in self.now }
    {
        self.pool.spare
    }

    /// Puts an entry on top of a site's stack, at a constant cost. Returns whether the entry is now the only entry
    /// there. The undo record of this change says that the patch had no entry at the site.
    #[inline(always)]
    pub fn push(&mut self, site: Site, entry: Entry) -> bool
        requires there { site < length self.old }
        requires fresh { has_entry entry.patch (entries_at self.old site) ≡ false }
        requires number { entry.patch < MAX_PATCHES }
        requires room { 0 < spare_in self.old }
        ensures first { result ≡ is_empty (entries_at self.old site) }
        ensures changes { Changes self.old self.new (Record.StackEntry site entry.patch None)
            (slice_set self.old site (entry ∷ entries_at self.old site)) }
    {
        let number = usize::from(site.0);
        let chain = self.chains[number];
        self.chains[number] = self.pool.push(chain, entry);
        chain.len == 0
    }

    /// Takes the entry of a patch out of a site's stack, even if there are newer entries above. Returns `None` if the
    /// patch has no entry there. The undo record has the entry's place, so that the entry can be put back below the
    /// newer ones. The cost is the number of newer entries.
    #[inline(always)]
    pub fn take(&mut self, site: Site, patch: PatchId) -> Option<Taken>
        ensures place { option_map (λ taken. taken.place) result ≡ place_of patch (entries_at self.old site) }
        ensures last { IfSome result
            (λ taken. taken.is_last ≡ is_empty (entries_of_others patch (entries_at self.old site))) }
        ensures changes { Changes self.old self.new
            (Record.StackEntry site patch (place_of patch (entries_at self.old site)))
            (slice_set self.old site (entries_of_others patch (entries_at self.old site))) }
        ensures unchanged { IfNone result (self.new ≡ self.old) }
        // `put` can use the slot that becomes free. So there is room to put the entry back.
        ensures room { is_some result ≡ true → 0 < spare_in self.new }
    {
        let number = usize::from(site.0);
        let chain = *self.chains.get(number)?;
        let (place, left) = self.pool.take(chain, patch)?;
        self.chains[number] = left;
        Some(Taken {
            place,
            is_last: left.len == 0,
        })
    }

    /// Puts an entry of the patch back at its place, counted from the oldest. Returns whether the entry is now the only
    /// entry of the site. If the entry doesn't fit there, changes nothing and returns false. If records are put back
    /// newest first, every entry fits. The cost is at most the stack's height.
    #[inline(always)]
    pub fn put(&mut self, site: Site, patch: PatchId, place: Place) -> bool
        requires { 0 < spare_in self.old }
        ensures first { result ≡ is_empty (entries_at self.old site) && not (is_empty (entries_at self.new site)) }
        ensures stacks { self.new ≡ put_back self.old (Record.StackEntry site patch (Some place)) }
    {
        let number = usize::from(site.0);
        let Some(&chain) = self.chains.get(number) else {
            return false;
        };
        let Place { index, func } = place;
        let Some(grown) = self.pool.put(chain, index, Entry { patch, func }) else {
            return false;
        };
        self.chains[number] = grown;
        chain.len == 0
    }

    /// Restores the one entry that the record names. A record of another kind changes nothing.
    pub fn put_back(&mut self, row: Record)
        requires { takes_room row ≡ true → 0 < spare_in self.old }
        ensures { self.new ≡ put_back self.old row }
    {
        let Record::StackEntry { site, patch, was } = row else {
            return;
        };
        match was {
            Some(place) => {
                self.put(site, patch, place);
            }
            None => {
                self.take(site, patch);
            }
        }
    }

    /// Whether a site has entries, but none of the patch. Only then does a nop of the patch change what a call at the
    /// site runs. False for a site that doesn't exist. The cost is at most the stack's height.
    pub fn has_only_others(&self, site: Site, patch: PatchId) -> bool
        ensures { result
            ≡ (not (is_empty (entries_at self.now site)) && not (has_entry patch (entries_at self.now site))) }
    {
        match self.chains.get(usize::from(site.0)) {
            Some(chain) => chain.len > 0 && !chain.has(&self.pool.slots, patch),
            None => false,
        }
    }

    /// Returns how many sites the stacks were made for, at a constant cost.
    pub fn sites(&self) -> usize
        ensures { result ≡ length self.now }
    {
        self.chains.len()
    }

    /// Returns the entry of a patch on a site's stack. Returns `None` if the patch has no entry there. The cost is the
    /// number of newer entries.
    pub fn entry(&self, site: Site, patch: PatchId) -> Option<Entry>
        ensures value { result ≡ find (λ (e : AnyEntry). e.patch == patch) (entries_at self.now site) }
        // This clause holds of every stack. It is stated so that callers needn't prove it.
        ensures stack { IsStack (entries_at self.now site) }
    {
        match self.chains.get(usize::from(site.0)) {
            Some(chain) => chain.entry(&self.pool.slots, patch),
            None => None,
        }
    }

    /// Returns what a call at a site needs to know, at a constant cost. `moving` is the patch in transition, if there
    /// is one. The stacks don't store this patch, since it is the same for all sites.
    pub fn word(&self, site: Site, moving: Option<PatchId>) -> SiteWord
        ensures { result ≡ word_of moving (entries_at self.now site) }
    {
        match self.chains.get(usize::from(site.0)) {
            Some(chain) => chain.word(&self.pool.slots, moving),
            None => SiteWord {
                top: None,
                below: None,
                moves: false,
            },
        }
    }

    /// Copies the entries of a site into an array, newest first, so that the caller needn't borrow the stacks. The cost
    /// is the stack's height.
    pub fn entries(&self, site: Site) -> ArrayVec<Entry, MAX_PATCHES>
        ensures { result.items ≡ entries_at self.now site }
    {
        match self.chains.get(usize::from(site.0)) {
            Some(chain) => chain.entries(&self.pool.slots),
            None => ArrayVec::new(),
        }
    }

    /// Returns the version at a site that blocks a task. A task inside of this version can't be switched (the kernel's
    /// `klp_check_stack_func` looks for such a version). Returns `None` if the patch in transition has no entry there.
    /// The cost is the number of entries above the patch's entry.
    pub fn blocked(&self, site: Site, moving: Transition) -> Option<Version>
        ensures { option_to_list result ≡ blocked_among site moving (entries_at self.now site) }
    {
        match self.chains.get(usize::from(site.0)) {
            Some(chain) => chain.blocked(&self.pool.slots, site, moving),
            None => None,
        }
    }
}
