//! The image, the function stacks of its sites, and both in step.
ghost use Rattle.std.specs.Prelude.{◌≡◌, ◌<◌, ◌≤◌, ◌&&◌, not, true, false, None, Some, ◌∷◌, length, slice_set};
ghost use Rattle.std.specs.Prelude.{is_some, option_map, IfSome, IfNone};
ghost use Rattle.std.specs.Option.{option_to_list};
ghost use Rattle.klp_types.specs.declared.limits.TheConstants.{MAX_PATCHES};
ghost use Rattle.klp_types.specs.Entries.{is_empty};
ghost use Rattle.klp_types.specs.Records.{spare_of};
ghost use Rattle.klp_text.specs.TextImage.{bytes_at};
ghost use Rattle.klp_model.specs.Blocked.{blocked_among};
ghost use Rattle.klp_stack.specs.Changes.{Changes as ChangesStacks};
ghost use Rattle.klp_stack.specs.Pick.{picked};
ghost use Rattle.klp_stack.specs.Spare.{spare_in};
ghost use Rattle.klp_stack.specs.Stack.{entries_at, has_entry, entries_of_others, place_of};
ghost use Rattle.klp_stack.specs.Undo.{put_back};
ghost use Rattle.klp_sites.specs.Changes.{Changes, pushed, taken, rows_of_push, rows_of_take};

use klp_journal::Records;
use klp_sites::Sites;
use klp_stack::{Stacks, Taken};
use klp_text::Image;
use klp_types::{Entry, ObjId, PatchId, Place, Record, Site, SiteWord, Transition, Version};

/// Returns the bytes of a symbol of a loaded object, as [`Image::bytes`] does.
pub fn bytes(image: &Image, object: ObjId, number: u16) -> Option<&[u8]>
    ensures { option_map (λ b. b.now) result ≡ bytes_at image.now object number }
{
    image.bytes(object, number)
}

/// Returns the version that a task runs at a site, as [`klp_stack::pick`] does.
pub fn pick(site: Site, word: SiteWord, state: i8) -> Version
    ensures { result ≡ picked site word state }
{
    klp_stack::pick(site, word, state)
}

/// Puts an entry on top of a stack, as [`Stacks::push`] does.
pub fn push_entry(stacks: &mut Stacks, site: Site, entry: Entry) -> bool
    requires there { site < length stacks.old }
    requires fresh { has_entry entry.patch (entries_at stacks.old site) ≡ false }
    requires number { entry.patch < MAX_PATCHES }
    requires room { 0 < spare_in stacks.old }
    ensures first { result ≡ is_empty (entries_at stacks.old site) }
    ensures changes { ChangesStacks stacks.old stacks.new (Record.StackEntry site entry.patch None)
        (slice_set stacks.old site (entry ∷ entries_at stacks.old site)) }
{
    stacks.push(site, entry)
}

/// Takes the entry of a patch out of a stack, as [`Stacks::take`] does.
pub fn take_entry(stacks: &mut Stacks, site: Site, patch: PatchId) -> Option<Taken>
    ensures place { option_map (λ taken. taken.place) result ≡ place_of patch (entries_at stacks.old site) }
    ensures last { IfSome result
        (λ taken. taken.is_last ≡ is_empty (entries_of_others patch (entries_at stacks.old site))) }
    ensures changes { ChangesStacks stacks.old stacks.new
        (Record.StackEntry site patch (place_of patch (entries_at stacks.old site)))
        (slice_set stacks.old site (entries_of_others patch (entries_at stacks.old site))) }
    ensures unchanged { IfNone result (stacks.new ≡ stacks.old) }
    ensures room { is_some result ≡ true → 0 < spare_in stacks.new }
{
    stacks.take(site, patch)
}

/// Puts an entry back at its place, as [`Stacks::put`] does.
pub fn put_entry(stacks: &mut Stacks, site: Site, patch: PatchId, place: Place) -> bool
    requires { 0 < spare_in stacks.old }
    ensures first { result ≡ is_empty (entries_at stacks.old site) && not (is_empty (entries_at stacks.new site)) }
    ensures stacks { stacks.new ≡ put_back stacks.old (Record.StackEntry site patch (Some place)) }
{
    stacks.put(site, patch, place)
}

/// Returns the version at a site that blocks a task, as [`Stacks::blocked`] does.
pub fn blocked(stacks: &Stacks, site: Site, moving: Transition) -> Option<Version>
    ensures { option_to_list result ≡ blocked_among site moving (entries_at stacks.now site) }
{
    stacks.blocked(site, moving)
}

/// Puts an entry on top of a site's stack and hooks the site, as [`Sites::push`] does.
pub fn push(sites: &mut Sites, site: Site, entry: Entry, log: &mut Records)
    requires there { site < length sites.old.stacks }
    requires fresh { has_entry entry.patch (entries_at sites.old.stacks site) ≡ false }
    requires number { entry.patch < MAX_PATCHES }
    requires room { 0 < spare_in sites.old.stacks }
    requires records { length (rows_of_push sites.old site entry) ≤ spare_of log.old }
    ensures changes { Changes sites.old sites.new log.old log.new (pushed sites.old site entry)
        (rows_of_push sites.old site entry) }
{
    sites.push(site, entry, log);
}

/// Takes an entry out of a site's stack and unhooks a site without entries, as [`Sites::take`] does.
pub fn take(sites: &mut Sites, site: Site, patch: PatchId, log: &mut Records)
    requires records { length (rows_of_take sites.old site patch) ≤ spare_of log.old }
    ensures changes { Changes sites.old sites.new log.old log.new (taken sites.old site patch)
        (rows_of_take sites.old site patch) }
{
    sites.take(site, patch, log);
}
