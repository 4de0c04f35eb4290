//! Which versions a transition blocks. `Tasks::switch_if_clear` (klp_tasks) decides whether a task sleeps inside of a
//! blocked version.
ghost use Rattle.std.specs.Prelude.{◌≡◌, ℕ, ◌≤◌, ◌++◌, true, List, [], length, is_some};
ghost use Rattle.klp_types.specs.declared.version.Version.{Version as AnyVersion};
ghost use Rattle.klp_types.specs.Setting.{function_for};
ghost use Rattle.klp_model.specs.Blocked.{blocked_among};
ghost use Rattle.klp_modules.specs.Names.{names_of};
ghost use Rattle.klp_stack.specs.Stack.{entries_at, has_entry};
ghost use Rattle.klp_tasks.specs.Members.{IsSetOf};
ghost use Rattle.klp_patch.specs.Covered.{functions_in, MayHaveEntry};
ghost use Rattle.klp_patch.specs.Blocked.{blocked_at, AreFunctions};

use klp_catalog::Catalog;
use klp_sites::Sites;
use klp_tasks::VersionSet;
use klp_types::{MAX_SITES, Site, Transition};

/// Adds the version that the transition blocks at one site to the set. Does nothing if it blocks no version there.
fn block_at(sites: &Sites, site: Site, moving: &Transition, blocked: &mut VersionSet)
    requires number { AreFunctions (entries_at sites.now.stacks site) }
    requires sites { length sites.now.stacks ≤ MAX_SITES }
    ensures { (versions : List AnyVersion) → IsSetOf blocked.old versions
        → IsSetOf blocked.new (versions ++ blocked_among site moving.now (entries_at sites.now.stacks site)) }
{
    // If the patch has no entry at a site, the transition doesn't change what tasks run there. So such a site blocks no
    // task.
    let stacks = sites.stacks();
    if stacks.entry(site, moving.patch).is_none() {
        return;
    }
    if let Some(version) = stacks.blocked(site, *moving) {
        blocked.insert(version);
    }
}

/// Adds the versions that the transition of a cumulative patch blocks to the empty set. Goes over all sites that have
/// entries, because a cumulative patch also has nops at sites for which it has no function.
fn block_all(sites: &Sites, moving: &Transition, blocked: &mut VersionSet)
    requires empty { IsSetOf blocked.old [] }
    requires number { (site : ℕ) → AreFunctions (entries_at sites.now.stacks site) }
    requires sites { length sites.now.stacks ≤ MAX_SITES }
    ensures { IsSetOf blocked.new (blocked_at 0 moving.now sites.now.stacks) }
{
    let mut from = 0;
    while let Some(site) = sites.next_hooked(from) {
        block_at(sites, site, moving, blocked);
        from = usize::from(site.0) + 1;
    }
}

/// Adds the versions that the transition of a patch that isn't cumulative blocks to the empty set. Goes only over the
/// sites of the patch's functions, because the patch has no other entries.
fn block_functions(sites: &Sites, catalog: &Catalog, moving: &Transition, blocked: &mut VersionSet)
    requires empty { IsSetOf blocked.old [] }
    requires number { (site : ℕ) → AreFunctions (entries_at sites.now.stacks site) }
    requires sites { length sites.now.stacks ≤ MAX_SITES }
    requires own { (site : ℕ) → has_entry moving.now.patch (entries_at sites.now.stacks site) ≡ true
        → is_some (function_for (functions_in catalog.now moving.now.patch) site) ≡ true }
    ensures { IsSetOf blocked.new (blocked_at 0 moving.now sites.now.stacks) }
{
    let functions = catalog.functions(moving.patch);
    for number in 0..functions.len() {
        if let Some(site) = functions[number].site() {
            block_at(sites, site, moving, blocked);
        }
    }
}

/// Replaces the content of the set by the versions that block sleepers. A task inside of a blocked version can't switch
/// to the target of the transition. When a transition is tried, one set is used for all tasks. The kernel instead goes
/// over the patch's functions for each frame (`klp_check_stack`).
///
/// For a patch that isn't cumulative, the cost grows with the number of its functions. For a cumulative patch, it grows
/// with the number of sites that have entries.
pub fn block(sites: &Sites, catalog: &Catalog, moving: Transition, blocked: &mut VersionSet)
    requires number { (site : ℕ) → AreFunctions (entries_at sites.now.stacks site) }
    requires sites { length sites.now.stacks ≤ MAX_SITES }
    requires names { catalog.now.names ≡ names_of sites.now.image.objects }
    // only a cumulative patch has entries at sites for which it has no function
    requires own { (site : ℕ) → MayHaveEntry catalog.now moving.patch sites.now.stacks site }
    ensures { IsSetOf blocked.new (blocked_at 0 moving sites.now.stacks) }
{
    blocked.clear();
    if catalog.is_cumulative(moving.patch) {
        block_all(sites, &moving, blocked);
    } else {
        block_functions(sites, catalog, &moving, blocked);
    }
}
