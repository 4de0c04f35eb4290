//! Whether a patch leaves no trace, and what a manager would answer after some events.
ghost use Rattle.std.specs.Prelude.{◌≡◌};
ghost use Rattle.klp_manager_state.specs.Managed.{setting_of};
ghost use Rattle.klp_core.specs.Journaled.{IsWellFormed};
ghost use Rattle.klp_lint.specs.Behind.{IsAnsweredBehind, IsSeenBehind};
ghost use Rattle.klp_lint.specs.Premises.{ArePatchesOf, Judges, JudgesEverywhere};

use klp_catalog_text::PlanPatch;
use klp_core::Manager;
use klp_lint::Premise;
use klp_model::{Event, Refusal, Reply};
use klp_types::{PatchId, ShadowKey, ShadowValue};

/// Whether a patch that is enabled now and withdrawn later leaves no trace, as [`klp_lint::leaves_no_trace`] says.
pub fn leaves_no_trace(
    manager: &Manager,
    patches: &[PlanPatch],
    patch: PatchId,
) -> Result<(), Premise>
    ensures { ArePatchesOf (setting_of manager.now.managed) patches.now
        → Judges (setting_of manager.now.managed) patch manager.now.managed.state result }
{
    klp_lint::leaves_no_trace(manager, patches, patch)
}

/// Whether the premises hold in each world without the patch's variables, as [`klp_lint::holds_everywhere`] says.
pub fn holds_everywhere(
    manager: &Manager,
    patches: &[PlanPatch],
    patch: PatchId,
) -> Result<(), Premise>
    ensures { ArePatchesOf (setting_of manager.now.managed) patches.now
        → JudgesEverywhere (setting_of manager.now.managed) patch manager.now.managed.state result }
{
    klp_lint::holds_everywhere(manager, patches, patch)
}

/// Returns the reply to an event after other events, as [`klp_lint::reply_behind`] does.
pub fn reply_behind(
    manager: &mut Manager,
    events: &[Event],
    event: &Event,
) -> Result<Reply, Refusal>
    requires { IsWellFormed manager.old }
    ensures answered { IsAnsweredBehind manager.old manager.new events.now event.now result }
    ensures setting { setting_of manager.new.managed ≡ setting_of manager.old.managed }
    ensures well_formed { IsWellFormed manager.new }
{
    klp_lint::reply_behind(manager, events, event)
}

/// Returns the value of a shadow variable after some events, as [`klp_lint::value_behind`] does.
pub fn value_behind(manager: &mut Manager, events: &[Event], key: ShadowKey) -> Option<ShadowValue>
    requires { IsWellFormed manager.old }
    ensures seen { IsSeenBehind manager.old manager.new events.now key result }
    ensures setting { setting_of manager.new.managed ≡ setting_of manager.old.managed }
    ensures well_formed { IsWellFormed manager.new }
{
    klp_lint::value_behind(manager, events, key)
}
