ghost use Rattle.std.specs.Prelude.{◌≡◌, ℕ, ◌<◌, ◌≤◌, true, false, length, replicate, option_map, slice_index_or};
ghost use Rattle.std.specs.Prelude.{slice_set, is_some, IfOk, IfSome, IfNone, MatchOption};
ghost use Rattle.klp_types.specs.declared.limits.TheConstants.{MAX_SITES};
ghost use Rattle.klp_types.specs.Entries.{is_empty};
ghost use Rattle.klp_types.specs.Records.{spare_of};
ghost use Rattle.klp_text.specs.TextImage.{site_count};
ghost use Rattle.klp_stack.specs.Spare.{spare_in};
ghost use Rattle.klp_stack.specs.Stack.{entries_at, has_entry, entries_of_others, place_of};
ghost use Rattle.klp_stack.specs.Undo as of_stacks;
ghost use Rattle.klp_sites.specs.Table.{image_of, is_hooked_at, opening};
ghost use Rattle.klp_sites.specs.Hooked.{IsNextHooked};
ghost use Rattle.klp_sites.specs.Changes.{Changes, pushed, taken, rows_of_push, rows_of_take};
ghost use Rattle.klp_sites.specs.Undo.{put_back, put_loaded, is_due};

use crate::hooked::HookedSites;
use klp_journal::Records;
use klp_stack::{Stacks, Taken};
use klp_text::Image;
use klp_types::{Entry, MAX_PATCHES, ObjId, PatchId, Place, Record, Site};
use std::alloc::{AllocError, Global};
use std::marker::Model;

/// The image and the function stacks of its sites.
///
/// [`Sites::new`] allocates all memory. Each change logs or returns an undo record for every row that it changes. If
/// these records are put back newest first, the table is as it was before the changes.
#[derive(Drop)]
pub struct Sites {
    image: Image,
    stacks: Stacks,
    /// The sites that have an entry. A walk over these sites costs nothing for sites without an entry.
    hooked: HookedSites,
}

impl Model for Sites {
    ghost use Rattle.std.specs.Prelude.{◌≤◌, length};
    ghost use Rattle.klp_types.specs.declared.limits.TheConstants.{MAX_SITES};
    ghost use Rattle.klp_sites.specs.Table.{SiteTable, IsInStep};
    ghost use Rattle.klp_sites.specs.Hooked.{AreHooked};

    ghost Value = { SiteTable };

    ghost view = { λ s. record { image = s.image.image; loaded = s.image.loaded; stacks = s.stacks } };

    ghost invariant = { λ s. IsInStep s.image s.stacks × (length s.stacks ≤ MAX_SITES)
        × AreHooked s.hooked.words s.stacks };
}

/// Counts the sites of all objects of an image, loaded or not, since each site needs a stack from the start.
fn count_sites(image: &Image) -> usize
    ensures value { result ≡ site_count image.now.image }
    ensures few { result ≤ MAX_SITES }
{
    let mut sites = 0;
    for object in 0..image.objects() {
        sites += usize::from(image.symbols(ObjId(object)).unwrap_or(0));
    }
    sites
}

impl Sites {
    /// Makes the table of an image without hooks, with an empty stack for each of its sites. If memory is refused,
    /// returns `Err` and drops the image.
    pub fn new(alloc: Global, image: Image) -> Result<Self, AllocError>
        requires { image.hooked ≡ replicate (site_count image.image) false }
        ensures { IfOk result (λ sites. sites ≡ opening image) }
    {
        let stacks = Stacks::new(alloc, count_sites(&image))?;
        let hooked = HookedSites::new();
        Ok(Self {
            image,
            stacks,
            hooked,
        })
    }

    /// Puts an entry on top of a site's stack, at a constant cost. The first entry of a site also hooks the site, as
    /// the kernel registers its `ftrace_ops` with the first function of a stack.
    #[inline(always)]
    pub fn push(&mut self, site: Site, entry: Entry, log: &mut Records)
        requires there { site < length self.old.stacks }
        requires fresh { has_entry entry.patch (entries_at self.old.stacks site) ≡ false }
        requires number { entry.patch < MAX_PATCHES }
        requires room { 0 < spare_in self.old.stacks }
        requires records { length (rows_of_push self.old site entry) ≤ spare_of log.old }
        ensures changes { Changes self.old self.new log.old log.new (pushed self.old site entry)
            (rows_of_push self.old site entry) }
    {
        // An entry that is a nop hooks the site too, because the handler has to run for a nop.
        let Entry { patch, func: _ } = entry;
        let is_first = self.stacks.push(site, entry);
        log.note(Record::StackEntry {
            site,
            patch,
            was: None,
        });
        if is_first {
            self.image.hook(site);
            self.hooked.insert(site);
            log.note(Record::HookFlag { site, was: false });
        }
    }

    /// Takes the entry of a patch out of a site's stack, if the patch has one there. Taking the last entry of a site
    /// also unhooks the site, so that a call of an unpatched function costs nothing extra. The cost is the number of
    /// entries above the patch's entry.
    #[inline(always)]
    pub fn take(&mut self, site: Site, patch: PatchId, log: &mut Records)
        requires records { length (rows_of_take self.old site patch) ≤ spare_of log.old }
        ensures changes { Changes self.old self.new log.old log.new (taken self.old site patch)
            (rows_of_take self.old site patch) }
    {
        let Some(Taken { place, is_last }) = self.take_out(site, patch) else {
            return;
        };
        log.note(Record::StackEntry {
            site,
            patch,
            was: Some(place),
        });
        if is_last {
            log.note(Record::HookFlag { site, was: true });
        }
    }

    /// Does the same as `take`, but logs nothing. Undo uses this function too.
    #[inline(always)]
    fn take_out(&mut self, site: Site, patch: PatchId) -> Option<Taken>
        ensures place { option_map (λ taken. taken.place) result
            ≡ place_of patch (entries_at self.old.stacks site) }
        ensures last { IfSome result
            (λ taken. taken.is_last ≡ is_empty (entries_of_others patch (entries_at self.old.stacks site))) }
        ensures table { self.new ≡ taken self.old site patch }
        ensures undo { put_back self.new
            (Record.StackEntry site patch (place_of patch (entries_at self.old.stacks site))) ≡ self.old }
        ensures unchanged { IfNone result (self.new ≡ self.old) }
        ensures room { is_some result ≡ true → 0 < spare_in self.new.stacks }
    {
        let taken = self.stacks.take(site, patch)?;
        if taken.is_last {
            self.image.unhook(site);
            self.hooked.remove(site);
        }
        Some(taken)
    }

    /// Marks an object as loaded, and returns the undo record, which says whether the object was loaded before. The
    /// hooks of the object's sites don't change. The caller puts the entries of a module on its sites by separate
    /// calls. The cost is constant.
    pub fn load(&mut self, object: ObjId) -> Record
        requires { object < length self.old.image.objects }
        ensures row { result ≡ Record.LoadedFlag object (slice_index_or self.old.loaded object false) }
        ensures table { self.new ≡ record self.old { loaded = slice_set self.old.loaded object true } }
        ensures undo { put_back self.new result ≡ self.old }
    {
        self.set_loaded(object, true)
    }

    /// Marks an object as not loaded, and returns the undo record, which says whether the object was loaded before. The
    /// hooks of the object's sites don't change. The caller takes the entries out by separate calls. The cost is
    /// constant.
    pub fn unload(&mut self, object: ObjId) -> Record
        requires { object < length self.old.image.objects }
        ensures row { result ≡ Record.LoadedFlag object (slice_index_or self.old.loaded object false) }
        ensures table { self.new ≡ record self.old { loaded = slice_set self.old.loaded object false } }
        ensures undo { put_back self.new result ≡ self.old }
    {
        self.set_loaded(object, false)
    }

    /// Restores the one row that the record names: an entry, with its site's hook, or an object's loaded flag. Does
    /// nothing if there is no such site or object, or if the record is of another kind. The record of a hook changes
    /// nothing either. The record of the site's entry is put back right after the hook's record, and restores the hook
    /// too (docs/DECISIONS.md, "Hooks in undo"). The cost is at most the stack's height.
    pub fn put_back(&mut self, row: Record)
        requires due { is_due self.old row ≡ true }
        ensures { self.new ≡ put_back self.old row }
    {
        match row {
            Record::StackEntry { site, patch, was } => self.put_entry(site, patch, was),
            Record::LoadedFlag { object, was } => self.put_loaded(object, was),
            _ => {}
        }
    }

    /// Puts a patch's entry back at its place `was`, or takes the entry out if `was` is `None`. `put_back` of the
    /// entry's record has the same effect. The hook is written only if the site gets its first entry or loses its last
    /// one. The cost is at most the stack's height.
    #[inline(always)]
    pub fn put_entry(&mut self, site: Site, patch: PatchId, was: Option<Place>)
        requires { is_some was ≡ true → 0 < spare_in self.old.stacks }
        ensures { let row = Record.StackEntry site patch was in
            self.new ≡ record self.old { stacks = of_stacks.put_back self.old.stacks row } }
    {
        match was {
            Some(place) => {
                if self.stacks.put(site, patch, place) {
                    self.image.hook(site);
                    self.hooked.insert(site);
                }
            }
            None => {
                self.take_out(site, patch);
            }
        }
    }

    /// Sets an object's loaded flag back to `was`. Does nothing if there is no such object.
    fn put_loaded(&mut self, object: ObjId, was: bool)
        ensures { self.new ≡ put_loaded self.old object was }
    {
        if object.0 < self.image.objects() {
            self.set_loaded(object, was);
        }
    }

    /// Sets an object's loaded flag, and returns the undo record, which has the old flag. Both changes and undo use
    /// this function.
    fn set_loaded(&mut self, object: ObjId, loaded: bool) -> Record
        requires { object < length self.old.image.objects }
        ensures row { result ≡ Record.LoadedFlag object (slice_index_or self.old.loaded object false) }
        ensures table { self.new ≡ record self.old { loaded = slice_set self.old.loaded object loaded } }
        ensures undo { put_back self.new result ≡ self.old }
    {
        let was = self.is_loaded(object);
        if loaded {
            self.image.load(object);
        } else {
            self.image.unload(object);
        }
        Record::LoadedFlag { object, was }
    }

    /// Borrows the image: its names, its addresses, and its bytes with the hooks. A caller can't change the image,
    /// since a hook that a caller wrote wouldn't match the stacks.
    pub fn image(&self) -> &Image
        ensures value { result.now ≡ image_of self.now }
        ensures sites { length self.now.stacks ≡ site_count self.now.image }
    {
        &self.image
    }

    /// Whether an object is loaded. False if there is no such object.
    pub fn is_loaded(&self, object: ObjId) -> bool
        ensures { result ≡ slice_index_or self.now.loaded object false }
    {
        self.image.is_loaded(object)
    }

    /// Returns the lowest site, numbered `from` or higher, that has an entry and so is hooked. A walk over all hooked
    /// sites costs one step for each hooked site, and one step for each 64 sites.
    pub fn next_hooked(&self, from: usize) -> Option<Site>
        ensures { MatchOption result ((other : ℕ) → from ≤ other → is_hooked_at self.now.stacks other ≡ false)
            (λ site. IsNextHooked self.now.stacks from site) }
    {
        self.hooked.next(from)
    }

    /// Returns how many sites there are, at a constant cost. There is one site for each symbol of the image.
    pub fn sites(&self) -> usize
        ensures value { result ≡ length self.now.stacks }
        ensures image { result ≡ site_count self.now.image }
    {
        self.stacks.sites()
    }

    /// Borrows the function stacks: which entries a site has, and which version runs there. A caller can't change the
    /// stacks, as it can't change the image.
    pub fn stacks(&self) -> &Stacks
        ensures { result.now ≡ self.now.stacks }
    {
        &self.stacks
    }
}
