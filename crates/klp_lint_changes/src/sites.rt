//! Finds the functions that patches change. A function is known by its site: the symbol that it replaces.
ghost use Rattle.std.specs.Prelude.{◌≡◌, ℕ, true};
ghost use Rattle.klp_types.specs.Setting.{is_at};
ghost use Rattle.klp_types.specs.Entries.{patches_site};
ghost use Rattle.klp_modules.specs.Names.{names_of};
ghost use Rattle.klp_catalog.specs.Catalog.{site_of};
ghost use Rattle.klp_manager_state.specs.Managed.{setting_of};
ghost use Rattle.klp_lint_findings.specs.Claims.{IsLost};
ghost use Rattle.klp_lint_findings.specs.Standing.{standing};
ghost use Rattle.klp_lint_findings.specs.Targets.{target_at, site_at, has_function};

use klp_catalog_text::{PlanFunction, PlanTarget};
use klp_core::Manager;
use klp_lint_findings::{FunctionSet, Linted};
use klp_types::{PatchId, Site};

/// Whether a function's site is this one. False if the function has no site.
fn is_at(own: Option<Site>, site: Site) -> bool
    ensures { result ≡ is_at own site }
{
    match own {
        Some(own) => own == site,
        None => false,
    }
}

/// Whether a patch changes a site.
pub fn changes_site(manager: &Manager, patch: PatchId, site: Site) -> bool
    ensures { result ≡ patches_site (setting_of manager.now.managed) site patch }
{
    for number in 0..manager.functions(patch) {
        if is_at(manager.site_of(patch, number), site) {
            return true;
        }
    }
    false
}

/// The site that a function of a target replaces. `None` if its name and position pick no symbol.
fn site_for(manager: &Manager, target: &PlanTarget, function: &PlanFunction) -> Option<Site>
    ensures { result ≡ site_of (names_of manager.now.managed.image.objects) target.now.object function.now }
{
    let modules = manager.modules();
    modules
        .resolve(target.object, function.symbol.as_str(), function.sympos)
        .ok()
}

/// The site that a function of a target replaces. `None` if there is no such function, or if its name and position pick
/// no symbol.
pub fn site_in(
    linted: &Linted<'_>,
    manager: &Manager,
    patch: PatchId,
    place: usize,
    function: usize,
) -> Option<Site>
    ensures { result ≡ site_at (names_of manager.now.managed.image.objects)
        (target_at linted.now.patches.now patch place) function }
{
    let target = linted.target(patch, place)?;
    let own = linted.function(patch, place, function)?;
    site_for(manager, target, own)
}

/// Whether a function of a target of `gone` replaces a symbol that another patch doesn't change.
fn is_lost(
    linted: &Linted<'_>,
    manager: &Manager,
    gone: PatchId,
    place: usize,
    function: usize,
    by: PatchId,
) -> bool
    ensures { result ≡ true → IsLost linted.now (standing manager.now) by gone place function }
{
    match site_in(linted, manager, gone, place, function) {
        Some(site) => !changes_site(manager, by, site),
        None => false,
    }
}

/// Those functions of a target of `gone` that another patch doesn't change.
pub fn lost_functions(
    linted: &Linted<'_>,
    manager: &Manager,
    gone: PatchId,
    place: usize,
    by: PatchId,
) -> FunctionSet
    ensures { (number : ℕ) → has_function result number ≡ true
        → IsLost linted.now (standing manager.now) by gone place number }
{
    let mut lost = FunctionSet::new();
    let Some(target) = linted.target(gone, place) else {
        return lost;
    };
    for number in 0..target.functions.len() {
        lost.insert_if(number, is_lost(linted, manager, gone, place, number, by));
    }
    lost
}
