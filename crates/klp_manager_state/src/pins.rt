ghost use Rattle.std.specs.Prelude.{◌≡◌, ◌+◌, ◌<◌, ◌≤◌, false, true, not, ◌==◌, length, replicate, filter};
ghost use Rattle.std.specs.Prelude.{slice_index_or, slice_set, IfOk};
ghost use Rattle.klp_types.specs.Records.{spare_of};
ghost use Rattle.klp_model.specs.Forcing.{pin_all};
ghost use Rattle.klp_manager_state.specs.Rows.{put_pinned, PinsGoBack};

use klp_journal::Records;
use klp_types::{PatchId, Record};
use std::alloc::{AllocError, Global};
use std::marker::Model;

/// Which patches are pinned, as a flag for each patch. After a forced transition, tasks may still be inside of a pinned
/// patch's functions (livepatch, Force). Only undo clears a flag. [`Pins::new`] allocates all memory.
#[derive(Drop)]
pub struct Pins {
    flags: Vec<bool>,
}

impl Model for Pins {
    ghost use Rattle.std.specs.Prelude.{List, Bool};

    ghost Value = { List Bool };

    ghost view = { λ p. p.flags.items };
}

impl Pins {
    /// Makes a flag for each of the catalog's `patches`. No patch is pinned. An error means that memory ran out.
    pub fn new(alloc: Global, patches: u8) -> Result<Self, AllocError>
        ensures { IfOk result (λ pins. pins ≡ replicate patches false) }
    {
        Ok(Self {
            flags: vec![in alloc; false; usize::from(patches)]?,
        })
    }

    /// Whether a patch is pinned, and so can't be enabled again. False for a patch that the catalog doesn't have.
    pub fn is_pinned(&self, patch: PatchId) -> bool
        ensures { result ≡ slice_index_or self.now patch false }
    {
        self.flags
            .get(usize::from(patch.0))
            .copied()
            .unwrap_or(false)
    }

    /// Pins a patch, and logs that it wasn't pinned. Does nothing if the patch is pinned already, since an unchanged
    /// row gets no record. Does nothing either if the catalog has no such patch.
    pub fn pin(&mut self, patch: PatchId, log: &mut Records)
        requires { 0 < spare_of log.old }
        ensures flags { self.new ≡ slice_set self.old patch true }
        ensures logged { PinsGoBack self.old self.new log.old log.new }
        ensures records { length log.new.logged ≤ length log.old.logged + 1 }
        ensures room { log.new.room ≡ log.old.room }
    {
        let place = usize::from(patch.0);
        if place < self.flags.len() && !self.flags[place] {
            self.flags[place] = true;
            log.note(Record::PinnedFlag { patch, was: false });
        }
    }

    /// Pins all of these patches except `patch`. `patch` is the forced cumulative patch, which replaces the others.
    pub fn pin_others(&mut self, patches: &[PatchId], patch: PatchId, log: &mut Records)
        requires { length patches.now ≤ spare_of log.old }
        ensures flags { self.new ≡ pin_all (filter (λ p. not (p == patch)) patches.now) self.old }
        ensures logged { PinsGoBack self.old self.new log.old log.new }
        ensures room { log.new.room ≡ log.old.room }
    {
        for &other in patches {
            if other != patch {
                self.pin(other, log);
            }
        }
    }

    /// Restores the flag that the record names. Does nothing for a record of another kind, as the definition.
    pub fn put_back(&mut self, row: Record)
        ensures { self.new ≡ put_pinned self.old row }
    {
        if let Record::PinnedFlag { patch, was } = row {
            if let Some(flag) = self.flags.get_mut(usize::from(patch.0)) {
                *flag = was;
            }
        }
    }
}
