//! The patches that a cumulative patch replaces when its transition completes (cumulative-patches).
ghost use Rattle.std.specs.Prelude.{◌≡◌, ℕ, ◌+◌, ◌*◌, ◌≤◌, true, None, Some, not, ◌==◌, length, map, slice_get};
ghost use Rattle.std.specs.Prelude.{if◌then◌else◌};
ghost use Rattle.std.specs.List.{filter, count_by};
ghost use Rattle.klp_types.specs.declared.limits.TheConstants.{MAX_RECORDS, MAX_SITES, RECORDS_AFTER_CALLBACKS};
ghost use Rattle.klp_types.specs.declared.limits.TheConstants.{RECORDS_AFTER_LIST, RECORDS_AFTER_SITES};
ghost use Rattle.klp_types.specs.declared.version.Entry.{Entry};
ghost use Rattle.klp_types.specs.World.{Installed};
ghost use Rattle.klp_model.specs.Allowed.{is_one_of};
ghost use Rattle.klp_model.specs.Completing.{without_older};
ghost use Rattle.klp_text.specs.TextImage.{site_count};
ghost use Rattle.klp_modules.specs.Names.{names_of};
ghost use Rattle.klp_catalog.specs.States.{installed_before, is_cumulative};
ghost use Rattle.klp_stack.specs.Stack.{entries_at};
ghost use Rattle.klp_patch.specs.Covered.{is_covered};
ghost use Rattle.klp_patch.specs.Changes.{hooked_count};
ghost use Rattle.klp_patch_events.specs.Complete.{AreOwn};
ghost use Rattle.klp_manager_state.specs.Rows.{WorldGoesBack, SitesGoBack};

use klp_catalog::Catalog;
use klp_journal::Records;
use klp_patch::unpatch_sites;
use klp_sites::Sites;
use klp_types::{MAX_FUNCTIONS, MAX_SITES, PatchId};
use klp_world::World;

/// Returns the patches that are before `patch` in the list. If `patch` isn't in the list, returns the whole list. If a
/// cumulative patch was disabled and enabled again, there may be no patches before it. In this case there may be newer
/// patches after it, which stay (docs/DECISIONS.md, "Cumulative patches below newer ones").
pub(crate) fn older_than(patch: PatchId, installed: &[PatchId]) -> &[PatchId]
    ensures { result.now ≡ installed_before patch installed.now }
{
    for place in 0..installed.len() {
        if installed[place] == patch {
            return &installed[..place];
        }
    }
    installed
}

/// Takes the entries of these patches out of the stacks of all loaded sites. The order of the patches affects only the
/// records, and not the stacks that are left.
pub(crate) fn unpatch_each(
    sites: &mut Sites,
    catalog: &Catalog,
    patches: &[PatchId],
    log: &mut Records,
)
    requires sites { site_count sites.old.image ≤ MAX_SITES }
    requires names { catalog.now.names ≡ names_of sites.old.image.objects }
    requires own { AreOwn catalog.now sites.old.stacks }
    requires records { length log.old.logged + hooked_count sites.old + MAX_FUNCTIONS * length patches.now
        + MAX_SITES * count_by (is_cumulative catalog.now) patches.now ≤ RECORDS_AFTER_SITES }
    requires log { log.old.room ≡ MAX_RECORDS }
    ensures image { sites.new.image ≡ sites.old.image }
    ensures loaded { sites.new.loaded ≡ sites.old.loaded }
    ensures entries { (site : ℕ) → entries_at sites.new.stacks site
        ≡ (if is_covered sites.old None site then filter (λ (e : Entry). not (is_one_of e.patch patches.now))
        (entries_at sites.old.stacks site) else entries_at sites.old.stacks site) }
    ensures logged { SitesGoBack sites.old sites.new log.old log.new }
    ensures records { length log.new.logged + hooked_count sites.new
        ≤ length log.old.logged + hooked_count sites.old + MAX_FUNCTIONS * length patches.now
        + MAX_SITES * count_by (is_cumulative catalog.now) patches.now }
    ensures log { log.new.room ≡ MAX_RECORDS }
{
    for &patch in patches {
        prove!(sites.sites() <= MAX_SITES);
        prove!(catalog.functions(patch).len() <= MAX_FUNCTIONS);
        unpatch_sites(sites, catalog, patch, None, log);
    }
}

/// Returns the number of the oldest installed patch. Returns `None` if no patch is installed. The number is a copy,
/// since the caller changes the world next.
fn oldest(world: &World) -> Option<PatchId>
    ensures { result ≡ slice_get (map (λ (i : Installed). i.patch) world.now.installed) 0 }
{
    world.installed().first().copied()
}

/// Takes the patches before `patch` out of the list, oldest first. So the next patch to take out is always the first of
/// the list.
pub(crate) fn drop_older(world: &mut World, patch: PatchId, log: &mut Records)
    requires records { length log.old.logged ≤ RECORDS_AFTER_CALLBACKS }
    requires log { log.old.room ≡ MAX_RECORDS }
    ensures world { world.new ≡ without_older true world.old patch }
    ensures logged { WorldGoesBack world.old world.new log.old log.new }
    ensures records { length log.new.logged ≤ RECORDS_AFTER_LIST }
    ensures log { log.new.room ≡ MAX_RECORDS }
{
    klp_world::laws::what_is_logged_is_of_the_world();
    for _dropped in 0..world.installed().len() {
        let Some(oldest) = oldest(world) else {
            return;
        };
        if oldest == patch {
            return;
        }
        prove!(world.drop_records(oldest) <= log.spare());
        world.drop_states(oldest, log);
    }
}
