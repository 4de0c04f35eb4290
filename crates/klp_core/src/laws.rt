//! Laws about managers and their calls. A function of this module does nothing: its contract is the law.
ghost use Rattle.std.specs.Prelude.{◌≡◌, ◌↔◌, true, false, is_ok, Some, Err, List, [], ◌∷◌, ◌++◌, count_by};
ghost use Rattle.klp_types.specs.Setting.{Setting};
ghost use Rattle.klp_types.specs.declared.version.Transition.{Transition};
ghost use Rattle.klp_model.specs.Blocked.{pending};
ghost use Rattle.klp_model.specs.declared.event.Event.{Event};
ghost use Rattle.klp_model.specs.declared.event.Refusal.TheVariants.{JournalFull};
ghost use Rattle.klp_model.specs.Run.{answer};
ghost use Rattle.klp_model.specs.State.{State};
ghost use Rattle.klp_model.specs.Step.{callbacks_of};
ghost use Rattle.klp_journal.specs.Journal.{Group, has_room};
ghost use Rattle.klp_model.specs.InPlace.{IsInPlace};
ghost use Rattle.klp_modules.specs.Names.{names_of};
ghost use Rattle.klp_manager_state.specs.Managed.{Managed, setting_of};
ghost use Rattle.klp_manager_state.specs.Events.{after_event};
ghost use Rattle.klp_core.specs.Events.{after_events, may_run_some};
ghost use Rattle.klp_core.specs.Holders.{holders, is_left};
ghost use Rattle.klp_core.specs.Journaled.{Journaled, IsWellFormed};
ghost use Rattle.klp_core.specs.Taking.{answer_in};
ghost use Rattle.klp_core.specs.Withdrawal.{GoesOn, LeavesNoTrace};

use klp_model::round_trip::{gone_at_the_end, only_shadow_events_outside};

/// If a function of a patch has a site, the site is in the function's object. The catalog must have the image's names,
/// as `Manager::catalog` promises of every manager. The laws of what tasks run (`klp_model`) need this law, since
/// nothing else says in which object a function's site is (docs/DECISIONS.md, "The object of a function").
pub fn functions_are_in_their_objects()
    ensures { (managed : Managed) → managed.catalog.names ≡ names_of managed.image.objects
        → IsInPlace (setting_of managed) }
{
    klp_catalog::laws::sites_lie_in_their_objects();
}

/// Suppose a later manager results from an earlier one by any calls, and both have the same base and the same setting.
/// Suppose also that the events appended in between are a fair company of a patch. If the patch isn't installed in the
/// later manager, it has left no trace since the earlier one. Events that were taken back, and counts of runs, make no
/// difference.
pub fn what_is_withdrawn_leaves_no_trace()
    ensures { (earlier later : Journaled) → IsWellFormed earlier → IsWellFormed later → GoesOn earlier later
        → setting_of later.managed ≡ setting_of earlier.managed → LeavesNoTrace earlier later }
{
    gone_at_the_end();
    only_shadow_events_outside();
}

/// If `may_run_some` is false for an event, the event runs no callback. So the event changes no count of runs, and
/// taking it back restores everything.
pub fn what_may_not_run_does_not()
    ensures { (setting : Setting) (state : State) (event : Event) → may_run_some setting state event ≡ false
        → callbacks_of setting state event ≡ [] }
{}

/// Doing a list of events and then one more event leads to the same manager as doing the longer list. So a call that
/// does events one by one can have a clause about its whole list.
pub fn events_go_on_where_they_end()
    ensures { (managed : Managed) (events : List Event) (event : Event)
        → after_event (after_events managed events) event ≡ after_events managed (events ++ event ∷ []) }
{
    klp_catalog::laws::runs_add_up();
}

/// A poll that doesn't complete the transition replies with the number of tasks that still lag. The result of `holders`
/// before the poll gives the same number. It counts the tasks that block the transition, and the waiting tasks that
/// aren't asleep. So `holders` and a poll agree on how many tasks still lag after the poll.
pub fn a_poll_tells_how_many_are_left()
    ensures { (setting : Setting) (state : State) (move : Transition) → state.moving ≡ Some move
        → pending setting state move ≡ count_by is_left (holders setting state) }
{}

/// An event is refused with `JournalFull` exactly if the journal has no room and nothing else refuses the event. The
/// rules of the events themselves never refuse an event with `JournalFull`.
pub fn the_journal_alone_is_full()
    ensures { (setting : Setting) (state : State) (groups : List Group) (event : Event)
        → (answer_in setting state groups event ≡ Err JournalFull)
        ↔ ((is_ok (answer setting state event) ≡ true) × (has_room groups ≡ false)) }
{}
