//! The answers that a manager would give after some events. All these events are taken back before the call returns.
ghost use Rattle.std.specs.Prelude.{◌≡◌};
ghost use Rattle.klp_core.specs.Journaled.{IsWellFormed};
ghost use Rattle.klp_manager_state.specs.Managed.{setting_of};
ghost use Rattle.klp_lint.specs.Behind.{IsAnsweredBehind, IsSeenBehind};

use klp_core::Manager;
use klp_model::{Event, Refusal, Reply};
use klp_types::{ShadowKey, ShadowValue};

/// Does the events in order, and then one more event. Then takes all these events back. Returns the reply to the last
/// event, or why it was refused. A refused event changes nothing.
///
/// Afterwards the manager is as before, except for the counts of the callbacks that ran, since no call reduces a count.
/// So the manager should be one that was booted only for this call, and not one whose counts somebody reads.
pub fn reply_behind(
    manager: &mut Manager,
    events: &[Event],
    event: &Event,
) -> Result<Reply, Refusal>
    requires { IsWellFormed manager.old }
    ensures answered { IsAnsweredBehind manager.old manager.new events.now event.now result }
    ensures setting { setting_of manager.new.managed ≡ setting_of manager.old.managed }
    ensures well_formed { IsWellFormed manager.new }
{
    let mark = manager.mark();
    let _ = manager.run(events);
    let reply = manager.apply_lent(event);
    let _ = manager.rewind(mark);
    reply
}

/// Does the events in order, and takes all of them back, as [`reply_behind`] does. Returns the value that a shadow
/// variable had after the events.
pub fn value_behind(manager: &mut Manager, events: &[Event], key: ShadowKey) -> Option<ShadowValue>
    requires { IsWellFormed manager.old }
    ensures seen { IsSeenBehind manager.old manager.new events.now key result }
    ensures setting { setting_of manager.new.managed ≡ setting_of manager.old.managed }
    ensures well_formed { IsWellFormed manager.new }
{
    let start = manager.mark();
    let _ = manager.run(events);
    let value = manager.shadow_get(key);
    let _ = manager.rewind(start);
    value
}
