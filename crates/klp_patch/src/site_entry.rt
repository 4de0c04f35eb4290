//! Changes of the stack of one site: the entry of a patch is put on it, or taken out. Changes of many sites, and the
//! proofs of these changes, are built from the functions of this module.
ghost use Rattle.std.specs.Prelude.{◌≡◌, ℕ, ◌+◌, ◌<◌, ◌≤◌, ◌==◌, false, ◌∷◌, length};
ghost use Rattle.klp_types.specs.Records.{spare_of};
ghost use Rattle.klp_stack.specs.Spare.{spare_in};
ghost use Rattle.klp_stack.specs.Stack.{entries_at, has_entry, entries_of_others};
ghost use Rattle.klp_patch.specs.Changes.{AreMade, Notes, with_nop, without_nop, hooked_count};

use klp_journal::Records;
use klp_sites::Sites;
use klp_types::{Entry, MAX_PATCHES, MAX_SITES, PatchId, Site};

/// Puts an entry on top of a site's stack. The contract's clauses on records have a form that can be added up by loops
/// over sites.
#[inline(always)]
pub(crate) fn put(sites: &mut Sites, site: Site, entry: Entry, log: &mut Records)
    requires there { site < length sites.old.stacks }
    requires sites { length sites.old.stacks ≤ MAX_SITES }
    requires fresh { has_entry entry.patch (entries_at sites.old.stacks site) ≡ false }
    requires number { entry.patch < MAX_PATCHES }
    requires room { 0 < spare_in sites.old.stacks }
    requires records { 1 + MAX_SITES ≤ spare_of log.old + hooked_count sites.old }
    ensures entries { AreMade sites.old sites.new (λ other. site == other) (λ other entries. entry ∷ entries) }
    ensures notes { Notes sites.old sites.new log.old log.new 1 (hooked_count sites.old) (hooked_count sites.new) }
{
    sites.push(site, entry, log);
}

/// Puts a nop of the patch on top of a site's stack if the stack has entries but no entry of the patch. A site without
/// entries needs no nop, since calls there run the original anyway.
#[tactic(auto, using(crate::proofs::SiteLemmas::none_of_sites))]
pub(crate) fn put_nop(sites: &mut Sites, site: Site, patch: PatchId, log: &mut Records)
    requires there { site < length sites.old.stacks }
    requires sites { length sites.old.stacks ≤ MAX_SITES }
    requires number { patch < MAX_PATCHES }
    requires room { let entries = entries_at sites.old.stacks site in
        length entries < length (with_nop patch entries) → 0 < spare_in sites.old.stacks }
    requires records { 1 + MAX_SITES ≤ spare_of log.old + hooked_count sites.old }
    ensures entries { AreMade sites.old sites.new (λ other. site == other) (λ other entries. with_nop patch entries) }
    ensures notes { Notes sites.old sites.new log.old log.new 1 (hooked_count sites.old) (hooked_count sites.new) }
{
    if sites.stacks().has_only_others(site, patch) {
        put(sites, site, Entry { patch, func: None }, log);
    }
}

/// Takes the entry of a patch out of a site's stack. Does nothing if the patch has no entry there, since loops over all
/// sites also call this function for such sites.
#[inline(always)]
pub(crate) fn take(sites: &mut Sites, site: Site, patch: PatchId, log: &mut Records)
    requires { 1 + hooked_count sites.old ≤ spare_of log.old }
    ensures entries { AreMade sites.old sites.new (λ other. site == other)
        (λ other entries. entries_of_others patch entries) }
    ensures notes { Notes sites.old sites.new log.old log.new 1 (hooked_count sites.new) (hooked_count sites.old) }
{
    sites.take(site, patch, log);
}

/// Takes the patch's entry out of a site's stack if that entry is a nop. An entry that is a function stays.
#[tactic(auto, using(crate::proofs::SiteLemmas::none_of_sites))]
pub(crate) fn take_nop(sites: &mut Sites, site: Site, patch: PatchId, log: &mut Records)
    requires { 1 + hooked_count sites.old ≤ spare_of log.old }
    ensures entries { AreMade sites.old sites.new (λ other. site == other)
        (λ other entries. without_nop patch entries) }
    ensures notes { Notes sites.old sites.new log.old log.new 1 (hooked_count sites.new) (hooked_count sites.old) }
{
    let stacks = sites.stacks();
    let Some(entry) = stacks.entry(site, patch) else {
        return;
    };
    if entry.func.is_none() {
        take(sites, site, patch, log);
    }
}
