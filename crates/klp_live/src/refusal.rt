//! Why the book refuses an event.
ghost use Rattle.std.specs.Prelude.{◌<◌, length};
ghost use Rattle.klp_types.specs.Setting.{Setting};
ghost use Rattle.klp_model.specs.declared.event.Event.{Event};
ghost use Rattle.klp_model.specs.Legal.{History};
ghost use Rattle.klp_model.specs.State.{State};
ghost use Rattle.klp_live.specs.Admitting.{FindsNoRoom};

use klp_model::Refusal;

/// Why an event isn't admitted.
#[derive(Clone, Copy, Debug)]
pub enum LiveRefusal {
    /// The manager refuses the event.
    Refused(Refusal),
    /// There was no memory to publish the event, so the event was taken back. The event may be submitted again.
    NoMemory,
}

/// Three events never fill a journal. If the journal has no room after a history, the history has more than three
/// events. The function does nothing: its contract is the law.
pub fn few_events_leave_room()
    ensures { (setting : Setting) (base : State) (list : History) (event : Event)
        → FindsNoRoom setting base list event → 3 < length list }
{}
