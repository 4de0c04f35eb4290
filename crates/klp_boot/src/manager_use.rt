//! What is done with a manager that was booted for it.
ghost use Rattle.std.specs.Prelude.{◌≡◌, []};
ghost use Rattle.klp_core.specs.Journaled.{Journaled};

use klp_core::Manager;
use std::alloc::Global;

/// Something that is done with a manager that was just booted, for example serving a console. The use borrows the
/// manager, so it can't leave the manager unclosed.
pub trait ManagerUse {
    /// What the use returns. It has the use's own faults too.
    type Done;

    /// What the use comes to: of itself before and after, of the manager as it was booted, and of what is returned.
    ghost comes_to: { Self → Self → Journaled → Self.Done → Type 0 };

    /// Uses the manager. No event was done with it yet.
    fn run(&mut self, alloc: Global, manager: &mut Manager) -> Self::Done
        requires unused { manager.old.groups ≡ [] }
        ensures { comes_to self.old self.new manager.old result };
}
