//! The entries that a patch has on many sites: one for each of its functions and, if it is cumulative, its nops.
//! Functions of this module put these entries on function stacks and take them out. `site_entry` changes the stack of
//! one site.
ghost use Rattle.std.specs.Prelude.{◌≡◌, ℕ, ◌+◌, ◌<◌, ◌≤◌, ◌&&◌, ◌++◌, true, false, length, map, is_some};
ghost use Rattle.std.specs.List.{All};
ghost use Rattle.klp_types.specs.Setting.{function_for};
ghost use Rattle.klp_types.specs.Entries.{entry_of};
ghost use Rattle.klp_types.specs.Records.{spare_of};
ghost use Rattle.klp_modules.specs.Names.{names_of};
ghost use Rattle.klp_catalog.specs.Catalog.{CatalogFunction as FunctionValue, setting_function, has_same_site};
ghost use Rattle.klp_catalog.specs.Assembled.{LiesInObject};
ghost use Rattle.klp_catalog.specs.Patch.{objects_in_order};
ghost use Rattle.klp_stack.specs.Stack.{entries_at, has_entry, entries_of_others};
ghost use Rattle.klp_patch.specs.Covered.{is_covered, MayHaveEntry};
ghost use Rattle.klp_patch.specs.Room.{HasRoom};
ghost use Rattle.klp_patch.specs.Changes.{AreMade, Notes, with_entry, with_nop, without_nop, hooked_count};
ghost use Rattle.klp_patch.specs.Changes.{most_entries};

use crate::covered::{covers, is_in_scope, site_in_scope};
use crate::site_entry::{put, put_nop, take, take_nop};
use klp_catalog::{Catalog, CatalogFunction, CatalogTarget};
use klp_journal::Records;
use klp_sites::Sites;
use klp_types::{Entry, MAX_FUNCTIONS, MAX_PATCHES, MAX_SITES, ObjId, PatchId};

/// Puts the functions of a patch on top of the stacks of their sites, for the objects that the change covers. No two
/// functions of the patch have the same site, so each stack gets at most one entry. Whether an object is covered is
/// computed once for each object.
fn put_functions(
    sites: &mut Sites,
    functions: &[CatalogFunction],
    targets: &[CatalogTarget],
    patch: PatchId,
    only: &Option<ObjId>,
    log: &mut Records,
)
    requires number { patch < MAX_PATCHES }
    requires sites { length sites.old.stacks ≤ MAX_SITES }
    requires few { length functions.now ≤ MAX_FUNCTIONS }
    requires distinct { has_same_site functions.now ≡ false }
    requires in_object { All (LiesInObject (names_of sites.old.image.objects)) functions.now }
    requires in_order { map (λ (f : FunctionValue). f.object) functions.now ≡ objects_in_order targets.now }
    requires fresh { (site : ℕ) → is_covered sites.old only.now site ≡ true
        → has_entry patch (entries_at sites.old.stacks site) ≡ false }
    requires room { HasRoom sites.old (is_covered sites.old only.now)
        (λ site entries. entry_of patch (function_for (map setting_function functions.now) site) false ++ entries) }
    requires records { length functions.now + MAX_SITES ≤ spare_of log.old + hooked_count sites.old }
    ensures entries { AreMade sites.old sites.new (is_covered sites.old only.now)
        (λ site entries. entry_of patch (function_for (map setting_function functions.now) site) false ++ entries) }
    ensures notes { Notes sites.old sites.new log.old log.new (length functions.now) (hooked_count sites.old)
        (hooked_count sites.new) }
{
    let mut start = 0;
    for target in targets {
        let in_scope = is_in_scope(sites.image(), *only, target.object());
        let end = start + target.functions();
        prove!(end <= functions.len());
        for number in start..end {
            if let Some(site) = site_in_scope(sites, only, in_scope, &functions[number]) {
                let func = Some(number as u16);
                put(sites, site, Entry { patch, func }, log);
            }
        }
        start = end;
    }
}

/// Puts a nop of a patch on each covered site that has entries but no entry of the patch. So calls at these sites run
/// the original, and not the functions of older patches. The patch's own functions must be on their stacks already.
fn put_nops(sites: &mut Sites, patch: PatchId, only: &Option<ObjId>, log: &mut Records)
    requires number { patch < MAX_PATCHES }
    requires sites { length sites.old.stacks ≤ MAX_SITES }
    requires room { HasRoom sites.old (is_covered sites.old only.now) (λ site entries. with_nop patch entries) }
    requires records { length sites.old.stacks + MAX_SITES ≤ spare_of log.old + hooked_count sites.old }
    ensures entries { AreMade sites.old sites.new (is_covered sites.old only.now)
        (λ site entries. with_nop patch entries) }
    ensures notes { Notes sites.old sites.new log.old log.new (length sites.old.stacks) (hooked_count sites.old)
        (hooked_count sites.new) }
{
    let mut from = 0;
    while let Some(site) = sites.next_hooked(from) {
        if covers(sites, only, site) {
            put_nop(sites, site, patch, log);
        }
        from = usize::from(site.0) + 1;
    }
}

/// Takes the entries of a patch that isn't cumulative out of the stacks of its functions' sites. Such a patch has no
/// other entries.
fn take_functions(
    sites: &mut Sites,
    functions: &[CatalogFunction],
    targets: &[CatalogTarget],
    patch: PatchId,
    only: &Option<ObjId>,
    log: &mut Records,
)
    requires few { length functions.now ≤ MAX_FUNCTIONS }
    requires distinct { has_same_site functions.now ≡ false }
    requires in_object { All (LiesInObject (names_of sites.old.image.objects)) functions.now }
    requires in_order { map (λ (f : FunctionValue). f.object) functions.now ≡ objects_in_order targets.now }
    requires records { length functions.now + hooked_count sites.old ≤ spare_of log.old }
    ensures entries { AreMade sites.old sites.new
        (λ site. is_covered sites.old only.now site && is_some (function_for (map setting_function functions.now) site))
        (λ site entries. entries_of_others patch entries) }
    ensures notes { Notes sites.old sites.new log.old log.new (length functions.now) (hooked_count sites.new)
        (hooked_count sites.old) }
{
    let mut start = 0;
    for target in targets {
        let in_scope = is_in_scope(sites.image(), *only, target.object());
        let end = start + target.functions();
        prove!(end <= functions.len());
        for number in start..end {
            if let Some(site) = site_in_scope(sites, only, in_scope, &functions[number]) {
                take(sites, site, patch, log);
            }
        }
        start = end;
    }
}

/// Takes the entries of a cumulative patch out of all covered stacks, since its nops may be at any site that has
/// entries.
fn take_all(sites: &mut Sites, patch: PatchId, only: &Option<ObjId>, log: &mut Records)
    requires sites { length sites.old.stacks ≤ MAX_SITES }
    requires records { length sites.old.stacks + hooked_count sites.old ≤ spare_of log.old }
    ensures entries { AreMade sites.old sites.new (is_covered sites.old only.now)
        (λ site entries. entries_of_others patch entries) }
    ensures notes { Notes sites.old sites.new log.old log.new (length sites.old.stacks) (hooked_count sites.new)
        (hooked_count sites.old) }
{
    let mut from = 0;
    while let Some(site) = sites.next_hooked(from) {
        if covers(sites, only, site) {
            take(sites, site, patch, log);
        }
        from = usize::from(site.0) + 1;
    }
}

/// Puts a patch's entries on top of the stacks of its sites. If `only` is an object, only the sites of that object are
/// covered. If `only` is `None`, the sites of all loaded objects are covered. A cumulative patch also gets a nop on
/// each other covered site that has entries (the kernel's `klp_add_nops`).
///
/// The cost grows with the number of the patch's functions. For a cumulative patch, it also grows with the number of
/// sites that have entries.
pub fn patch_sites(
    sites: &mut Sites,
    catalog: &Catalog,
    patch: PatchId,
    only: Option<ObjId>,
    log: &mut Records,
)
    requires number { patch < MAX_PATCHES }
    requires sites { length sites.old.stacks ≤ MAX_SITES }
    requires names { catalog.now.names ≡ names_of sites.old.image.objects }
    requires fresh { (site : ℕ) → is_covered sites.old only site ≡ true
        → has_entry patch (entries_at sites.old.stacks site) ≡ false }
    requires room { HasRoom sites.old (is_covered sites.old only) (with_entry catalog.now patch) }
    requires records { most_entries catalog.now patch sites.old + MAX_SITES ≤ spare_of log.old }
    ensures entries { AreMade sites.old sites.new (is_covered sites.old only) (with_entry catalog.now patch) }
    ensures notes { Notes sites.old sites.new log.old log.new (most_entries catalog.now patch sites.old)
        (hooked_count sites.old) (hooked_count sites.new) }
{
    let Some(found) = catalog.get(patch) else {
        return;
    };
    put_functions(sites, found.functions(), found.targets(), patch, &only, log);
    if found.is_cumulative() {
        put_nops(sites, patch, &only, log);
    }
}

/// Takes a patch's entries out of the stacks of its sites. If `only` is an object, only the sites of that object are
/// covered. If `only` is `None`, the sites of all loaded objects are covered.
///
/// For a patch that isn't cumulative, the cost grows with the number of its functions. For a cumulative patch, it grows
/// with the number of sites that have entries.
pub fn unpatch_sites(
    sites: &mut Sites,
    catalog: &Catalog,
    patch: PatchId,
    only: Option<ObjId>,
    log: &mut Records,
)
    requires sites { length sites.old.stacks ≤ MAX_SITES }
    requires names { catalog.now.names ≡ names_of sites.old.image.objects }
    // only a cumulative patch has entries at sites for which it has no function
    requires own { (site : ℕ) → is_covered sites.old only site ≡ true
        → MayHaveEntry catalog.now patch sites.old.stacks site }
    requires records { most_entries catalog.now patch sites.old + MAX_SITES ≤ spare_of log.old }
    ensures entries { AreMade sites.old sites.new (is_covered sites.old only)
        (λ site entries. entries_of_others patch entries) }
    ensures notes { Notes sites.old sites.new log.old log.new (most_entries catalog.now patch sites.old)
        (hooked_count sites.new) (hooked_count sites.old) }
{
    let Some(found) = catalog.get(patch) else {
        return;
    };
    if found.is_cumulative() {
        take_all(sites, patch, &only, log);
    } else {
        take_functions(sites, found.functions(), found.targets(), patch, &only, log);
    }
}

/// Takes the nops of a patch out of all stacks. If there are no older entries below a nop, calls run the original even
/// without it, so the nop has no purpose. The cost grows with the number of sites that have entries.
pub fn drop_nops(sites: &mut Sites, patch: PatchId, log: &mut Records)
    requires sites { length sites.old.stacks ≤ MAX_SITES }
    requires records { length sites.old.stacks + MAX_SITES ≤ spare_of log.old }
    ensures entries { AreMade sites.old sites.new (λ site. true) (λ site entries. without_nop patch entries) }
    ensures notes { Notes sites.old sites.new log.old log.new (length sites.old.stacks) (hooked_count sites.new)
        (hooked_count sites.old) }
{
    let mut from = 0;
    while let Some(site) = sites.next_hooked(from) {
        take_nop(sites, site, patch, log);
        from = usize::from(site.0) + 1;
    }
}
