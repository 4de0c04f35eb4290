//! Doing events.
ghost use Rattle.std.specs.Prelude.{◌≡◌, IfOk};
ghost use Rattle.klp_model.specs.Step.{callbacks_of};
ghost use Rattle.klp_manager_state.specs.Managed.{setting_of};
ghost use Rattle.klp_core.specs.Events.{AreCounted};
ghost use Rattle.klp_core.specs.Journaled.{IsWellFormed};
ghost use Rattle.klp_core.specs.Taking.{IsTaken, AreTaken};
ghost use Rattle.klp_core.specs.Withdrawal.{LeavesNoTrace};

use klp_core::Manager;
use klp_model::{Event, Refusal, Reply};

/// Does one event, as [`Manager::apply`] does.
pub fn apply(manager: &mut Manager, event: Event) -> Result<Reply, Refusal>
    requires { IsWellFormed manager.old }
    ensures taken { IsTaken manager.old manager.new event result }
    ensures counts { IfOk result
        (λ reply. AreCounted manager.old.managed.catalog manager.new.managed.catalog
        (callbacks_of (setting_of manager.old.managed) manager.old.managed.state event)) }
    ensures setting { setting_of manager.new.managed ≡ setting_of manager.old.managed }
    ensures well_formed { IsWellFormed manager.new }
{
    manager.apply(event)
}

/// Does events in order, as [`Manager::run`] does. Returns how many were accepted, and how many were refused.
pub fn run(manager: &mut Manager, events: &[Event]) -> (u64, u64)
    requires { IsWellFormed manager.old }
    ensures taken { AreTaken manager.old manager.new events.now result }
    ensures withdrawn { LeavesNoTrace manager.old manager.new }
    ensures setting { setting_of manager.new.managed ≡ setting_of manager.old.managed }
    ensures well_formed { IsWellFormed manager.new }
{
    manager.run(events)
}
