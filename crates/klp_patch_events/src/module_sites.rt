//! Putting the entries of all installed patches on the sites of a module, and taking them out. The proofs of this
//! module also bound how many records these changes log.
ghost use Rattle.std.specs.Prelude.{◌≡◌, ℕ, ◌+◌, ◌*◌, ◌∷◌, ◌<◌, ◌≤◌, true, [], length, reverse, Some, if◌then◌else◌};
ghost use Rattle.std.specs.List.{All, count_by};
ghost use Rattle.klp_types.specs.declared.limits.TheConstants.{MAX_FUNCTIONS, MAX_PATCHES, MAX_RECORDS, MAX_SITES};
ghost use Rattle.klp_types.specs.declared.limits.TheConstants.{RECORDS_BEFORE_SITES};
ghost use Rattle.klp_types.specs.Entries.{entries_from};
ghost use Rattle.klp_model.specs.Allowed.{AreDistinct};
ghost use Rattle.klp_text.specs.TextImage.{site_count};
ghost use Rattle.klp_modules.specs.Names.{names_of};
ghost use Rattle.klp_catalog.specs.Catalog.{patches_of};
ghost use Rattle.klp_catalog.specs.States.{is_cumulative};
ghost use Rattle.klp_stack.specs.Stack.{entries_at};
ghost use Rattle.klp_patch.specs.Changes.{hooked_count, most_entries};
ghost use Rattle.klp_patch.specs.Room.{HasRoom};
ghost use Rattle.klp_patch.specs.Covered.{is_covered};
ghost use Rattle.klp_manager_state.specs.Rows.{SitesGoBack};
ghost use Rattle.klp_patch_events.specs.Installed.{AreInstalled};

use klp_catalog::Catalog;
use klp_journal::Records;
use klp_patch::{patch_sites, unpatch_sites};
use klp_sites::Sites;
use klp_types::{MAX_PATCHES, ObjId, PatchId};

/// Shows that there are at most `MAX_SITES` stacks, one for each site. `sites` is called for its contract.
fn stacks_are_few(sites: &Sites)
    requires { site_count sites.now.image ≤ MAX_SITES }
    ensures stacks { length sites.now.stacks ≤ MAX_SITES }
    ensures count { length sites.now.stacks ≡ site_count sites.now.image }
    ensures hooked { hooked_count sites.now ≤ MAX_SITES }
{
    let _sites = sites.sites();
}

/// Bounds the number of a patch's entries: a patch has few functions, and only a cumulative patch has nops. `functions`
/// is called for its contract.
fn entries_are_few(sites: &Sites, catalog: &Catalog, patch: PatchId)
    requires { length sites.now.stacks ≤ MAX_SITES }
    ensures { most_entries catalog.now patch sites.now
        ≤ MAX_FUNCTIONS + MAX_SITES * count_by (is_cumulative catalog.now) (patch ∷ []) }
{
    let _functions = catalog.functions(patch);
}

/// Puts the entries of these patches on the sites of one object, which have no entries yet. Goes from the oldest patch
/// to the newest. So the entries of each stack are in the order in which the patches were enabled.
pub(crate) fn patch_object(
    sites: &mut Sites,
    catalog: &Catalog,
    patches: &[PatchId],
    object: ObjId,
    log: &mut Records,
)
    requires installed { AreInstalled catalog.now sites.old patches.now }
    requires bare { (site : ℕ) → is_covered sites.old (Some object) site ≡ true
        → entries_at sites.old.stacks site ≡ [] }
    requires fit { HasRoom sites.old (is_covered sites.old (Some object))
        (λ site entries. entries_from (record { image = sites.old.image; patches = patches_of catalog.now }) site
        (reverse patches.now)) }
    requires records { length log.old.logged ≤ RECORDS_BEFORE_SITES }
    requires room { log.old.room ≡ MAX_RECORDS }
    ensures image { sites.new.image ≡ sites.old.image }
    ensures loaded { sites.new.loaded ≡ sites.old.loaded }
    ensures entries { (site : ℕ) → entries_at sites.new.stacks site
        ≡ (if is_covered sites.old (Some object) site
        then entries_from (record { image = sites.old.image; patches = patches_of catalog.now }) site
        (reverse patches.now)
        else entries_at sites.old.stacks site) }
    ensures logged { SitesGoBack sites.old sites.new log.old log.new }
    ensures room { log.new.room ≡ MAX_RECORDS }
{
    klp_types::laws::the_newest_entry_is_on_top();
    klp_types::laws::entries_are_of_their_patches();
    stacks_are_few(sites);
    for &patch in patches {
        stacks_are_few(sites);
        entries_are_few(sites, catalog, patch);
        patch_sites(sites, catalog, patch, Some(object), log);
    }
}

/// Takes the entries of these patches out of the sites of one object. No other patch has entries at these sites, so no
/// entry is left.
pub(crate) fn unpatch_object(
    sites: &mut Sites,
    catalog: &Catalog,
    patches: &[PatchId],
    object: ObjId,
    log: &mut Records,
)
    requires installed { AreInstalled catalog.now sites.old patches.now }
    requires own { (site : ℕ) → is_covered sites.old (Some object) site ≡ true
        → entries_at sites.old.stacks site ≡ entries_from
        (record { image = sites.old.image; patches = patches_of catalog.now }) site (reverse patches.now) }
    requires records { length log.old.logged ≤ RECORDS_BEFORE_SITES }
    requires room { log.old.room ≡ MAX_RECORDS }
    ensures image { sites.new.image ≡ sites.old.image }
    ensures loaded { sites.new.loaded ≡ sites.old.loaded }
    ensures entries { (site : ℕ) → entries_at sites.new.stacks site
        ≡ (if is_covered sites.old (Some object) site then [] else entries_at sites.old.stacks site) }
    ensures logged { SitesGoBack sites.old sites.new log.old log.new }
    ensures records { length log.new.logged < MAX_RECORDS }
    ensures room { log.new.room ≡ MAX_RECORDS }
{
    klp_types::laws::entries_are_of_their_patches();
    stacks_are_few(sites);
    for &patch in patches {
        stacks_are_few(sites);
        entries_are_few(sites, catalog, patch);
        unpatch_sites(sites, catalog, patch, Some(object), log);
    }
}
