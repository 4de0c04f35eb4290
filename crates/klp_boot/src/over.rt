//! Boots a manager over a plan or a text, for what uses it.
ghost use Rattle.std.specs.Prelude.{◌≡◌, ◌≤◌, [], length};
ghost use Rattle.klp_catalog_text.specs.Within.{AreTargetsWithin};
ghost use Rattle.klp_boot.specs.Over.{UsesOver, UsesOverText};

use crate::booted::{boot, close};
use crate::fault::Fault;
use crate::kind::{CallbackKind, callback_of};
use crate::manager_use::ManagerUse;
use klp_callback::Boxed;
use klp_catalog::Catalog;
use klp_catalog_text::Plan;
use klp_core::Manager;
use std::alloc::Global;

/// Lends a manager that no event was done with to `user`, then drops the manager. Returns what the use returned.
fn used<U: ManagerUse>(alloc: Global, mut manager: Manager, user: &mut U) -> U::Done
    requires { manager.groups ≡ [] }
    ensures { U.comes_to user.old user.new manager result }
{
    let done = user.run(alloc, &mut manager);
    close(manager);
    done
}

/// Boots a manager over a plan, lends it to `user`, closes it, and returns what the use returned. Returns `Err` if no
/// manager can be booted; then `user` is lent none.
///
/// Each script of the plan gets a callback of the simplest kind that can run the script. If a function makes a box and
/// returns it, what is proved of the box is lost (docs/PROVING.md, "Boxes"). So the boxes are made here, and neither a
/// box nor a manager is returned.
pub fn over_plan<U: ManagerUse>(alloc: Global, plan: Plan, user: &mut U) -> Result<U::Done, Fault>
    requires { AreTargetsWithin (length plan.objects) plan.patches }
    ensures { UsesOver U.comes_to plan user.old user.new result }
{
    let mut callbacks = Vec::new(alloc);
    // The number of the next script is how many callbacks were made.
    while let Some(kind) = callback_of(alloc, &plan, callbacks.len())? {
        let callback = match kind {
            CallbackKind::Scripted(callback) => Boxed::new(callback),
            CallbackKind::Refusing(callback) => Boxed::new(callback),
            CallbackKind::Quiet(callback) => Boxed::new(callback),
        };
        callbacks.push(callback)?;
    }
    let manager = boot(alloc, plan, callbacks)?;
    Ok(used(alloc, manager, user))
}

/// Reads a catalog's text, boots a manager over its plan, lends it to `user`, closes it, and returns what the use
/// returned. Returns `Err` if the text has a fault, or if no manager can be booted; then `user` is lent none.
pub fn over_text<U: ManagerUse>(
    alloc: Global,
    catalog: &[u8],
    user: &mut U,
) -> Result<U::Done, Fault>
    ensures { UsesOverText U.comes_to catalog.now user.old user.new result }
{
    let plan = Catalog::read(alloc, catalog)?;
    over_plan(alloc, plan, user)
}
