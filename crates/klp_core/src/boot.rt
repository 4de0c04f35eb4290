ghost use Rattle.std.specs.Prelude.{◌≡◌, IsTrue, IfOk, IfErr, false, true, [], length, slice_set, replicate};
ghost use Rattle.klp_types.specs.declared.limits.TheConstants.{MAX_RECORDS};
ghost use Rattle.klp_text.specs.TextImage.{IsWithinLimits, opening};
ghost use Rattle.klp_model.specs.Opening.{opening_state};
ghost use Rattle.klp_manager_state.specs.Managed.{managed_of, setting_in};
ghost use Rattle.klp_manager_state.specs.Invariant.{Invariant};
ghost use Rattle.klp_core.specs.Boot.{IsMatch, AreNamed, IsFaultOf};

use crate::fault::BootFault;
use klp_catalog::Catalog;
use klp_journal::Journal;
use klp_manager_state::ManagerState;
use klp_modules::Modules;
use klp_text::Image;
use klp_types::ObjId;
use std::alloc::Global;

// Whether image, modules and catalog have the same number of symbols for each object. The loop also checks the number
// after the image's last object: modules and catalog mustn't have an object with that number. Nothing else is compared,
// since the caller must know that the names are the same (docs/DECISIONS.md, "Image, modules and catalog as they
// came"). Image, modules and catalog are borrowed, so that neither return drops anything (docs/DECISIONS.md, "One way
// out for an owner").
fn is_match(image: &Image, modules: &Modules, catalog: &Catalog) -> bool
    ensures matches { IsTrue result → IsMatch image.now.image modules.now catalog.now }
    ensures differs { result ≡ false → IsMatch image.now.image modules.now catalog.now → ⊥ }
    // every image is within the limits, so object numbers fit in 8 bits
    ensures limits { IsWithinLimits image.now.image.objects }
{
    let objects = image.objects();
    for number in 0..=objects {
        let object = ObjId(number);
        let symbols = image.symbols(object);
        if modules.symbols(object) != symbols || catalog.symbols(object) != symbols {
            return false;
        }
    }
    true
}

/// Makes the state and the journal of a manager that has just opened. Returns `Mismatch` if image, modules and catalog
/// don't match, and `NoMemory` if memory runs out. Moves image and modules into the state. The state is so deep that
/// dropping it would cost more than everything else. So the journal is made before the state, and then no return of
/// this function drops the state.
pub(crate) fn parts_over(
    alloc: Global,
    image: Image,
    modules: Modules,
    catalog: &Catalog,
) -> Result<(ManagerState, Journal), BootFault>
    requires image { image ≡ opening image.image.handler image.image.objects }
    requires modules { modules.loaded ≡ slice_set (replicate (length modules.names) false) 0 true }
    requires names { IsMatch image.image modules catalog.now → AreNamed image.image modules catalog.now }
    ensures matches { IfOk result (λ made. IsMatch image.image modules catalog.now) }
    ensures kept { IfOk result (λ made. Invariant made.0 catalog.now) }
    ensures opening { IfOk result (λ made. managed_of made.0 catalog.now ≡ record {
      image = image.image;
      catalog = catalog.now;
      state = opening_state (setting_in made.0 catalog.now);
    }) }
    ensures log { IfOk result (λ made. made.0.log ≡ record { logged = []; room = MAX_RECORDS; older = [] }) }
    ensures journal { IfOk result (λ made. made.1 ≡ []) }
    ensures fault { IfErr result (λ fault. IsFaultOf image.image modules catalog.now fault) }
{
    if !is_match(&image, &modules, catalog) {
        return Err(BootFault::Mismatch);
    }
    let journal = Journal::new(alloc)?;
    let state = ManagerState::new(alloc, image, modules, catalog)?;
    Ok((state, journal))
}
