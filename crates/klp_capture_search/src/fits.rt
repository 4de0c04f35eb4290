//! Whether the events among some items lead to what the other items say was seen.
ghost use Rattle.klp_core.specs.Journaled.{IsWellFormed};

use klp_core::Manager;
use klp_model::Seen;
use klp_watch::{Observed, holds_in_state};

/// Passes an event to the manager, or compares what was seen with what the manager shows. Returns whether the manager
/// accepts the event, or shows the same.
fn holds(manager: &mut Manager, item: &Observed) -> bool
    requires { IsWellFormed manager.old }
{
    match item {
        Observed::Seen(Seen::Event(event)) | Observed::Answered(event, _) => {
            manager.apply_without_reply(event).is_ok()
        }
        Observed::Seen(Seen::Call(..) | Seen::Return(_)) => true,
        Observed::Saw(sight) => holds_in_state(manager, sight),
    }
}

/// Passes the events of these items to a manager. Returns whether the manager accepts them, and shows between the
/// events what the other items say. The manager's replies aren't compared. Of a call, the version that ran is compared.
/// Events that were accepted stay done.
pub(crate) fn fits(manager: &mut Manager, items: &[Observed]) -> bool
    requires { IsWellFormed manager.old }
{
    for item in items {
        // For the proof only: the contract of mark says that the manager is well-formed.
        let _for_its_clause = manager.mark();
        if !holds(manager, item) {
            return false;
        }
    }
    true
}
