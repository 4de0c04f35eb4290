ghost use Rattle.std.specs.Prelude.{◌≡◌, [], false, length, map, None, OnOk, IfOk, IfErr};
ghost use Rattle.klp_text.specs.Faults.{image_fault};
ghost use Rattle.klp_text.specs.TextImage.{opening as image_over};
ghost use Rattle.klp_modules.specs.Names.{names_of, opening as names_over};
ghost use Rattle.klp_catalog_text.specs.Scripts.{scripts_of};
ghost use Rattle.klp_catalog_text.specs.Within.{AreTargetsWithin};
ghost use Rattle.klp_catalog.specs.Catalog.{some_same_site};
ghost use Rattle.klp_boot.specs.Booted.{IsBootedOver, IsBootFault, IsImageFault, never_ran};

use crate::fault::Fault;
use klp_callback::Boxed;
use klp_catalog::Catalog;
use klp_catalog_text::Plan;
use klp_core::Manager;
use klp_modules::Modules;
use klp_text::Image;
use std::alloc::Global;

/// Takes the objects out of a plan, and makes an image and a table of names of these objects. The plan has no objects
/// afterwards. Returns `Err` if no image can be made of the objects, or if memory runs out.
pub fn opened(alloc: Global, plan: &mut Plan) -> Result<(Image, Modules), Fault>
    ensures rest { plan.new ≡ record plan.old { objects = [] } }
    ensures sound { OnOk result (image_fault plan.old.handler plan.old.objects ≡ None) }
    ensures opened { IfOk result (λ made. (made.0 ≡ image_over plan.old.handler plan.old.objects)
        × (made.1 ≡ names_over plan.old.objects)) }
    ensures fault { IfErr result (λ fault. IsImageFault plan.old fault) }
{
    let objects = plan.take_objects();
    let image = Image::new(alloc, objects, plan.handler())?;
    let modules = Modules::new(alloc, &image)?;
    Ok((image, modules))
}

/// Boots a manager over a plan. The manager's text is the image of the plan's objects. The manager's catalog has the
/// plan's patches, and no patch is installed. If several things are wrong, a fault of the image is returned first, then
/// a fault of the catalog, then a fault of the manager.
///
/// The caller makes the callbacks: one for each script of the plan, in the order of the text. The check can't follow a
/// box that a function makes and returns, so the callbacks aren't made in a function of their own. Only a caller that
/// must own its manager, as threads do, calls this function. All others call [`over_text`](crate::over_text) or
/// [`over_plan`](crate::over_plan).
pub fn boot(alloc: Global, mut plan: Plan, callbacks: Vec<Boxed>) -> Result<Manager, Fault>
    requires targets { AreTargetsWithin (length plan.objects) plan.patches }
    requires callbacks { callbacks.items ≡ map never_ran (scripts_of plan.patches) }
    ensures booted { IfOk result (λ manager. IsBootedOver plan manager) }
    ensures sound { OnOk result
        ((image_fault plan.handler plan.objects ≡ None)
        × (some_same_site (names_of plan.objects) plan.patches ≡ false)) }
    ensures fault { IfErr result (λ fault. IsBootFault plan fault) }
{
    let (image, modules) = opened(alloc, &mut plan)?;
    let catalog = Catalog::assemble(alloc, &modules, plan, callbacks)?;
    Ok(Manager::boot(alloc, image, modules, catalog)?)
}

/// Takes a manager and drops it. It is costly to prove that a manager may be dropped. So each function that owns a
/// manager calls this function before it returns, and the proof is done only here.
pub fn close(_manager: Manager) {}
