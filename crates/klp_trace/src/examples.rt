//! Worked examples of the definitions, proved by computation. A function here does nothing: its contract is the
//! example, and its proof fails if a definition gives something else.
ghost use Rattle.std.specs.Prelude.{◌≡◌, pos, negsuc, true, false, codes, Some, None, Ok, Err};
ghost use Rattle.klp_model.specs.declared.event.Event.TheVariants.{Poll};
ghost use Rattle.klp_model.specs.declared.event.Refusal.TheVariants.{Busy};
ghost use Rattle.klp_model.specs.declared.event.Reply.TheVariants.{Done, Pending, Completed, Freed};
ghost use Rattle.klp_model.specs.declared.seen.Seen.TheVariants.{Event as Happens, Return as Returns};
ghost use Rattle.klp_watch.specs.declared.observed.Observed.TheVariants.{Seen as Item, Answered, Saw};
ghost use Rattle.klp_watch.specs.declared.observed.Sight.TheVariants.{State as StateSeen};
ghost use Rattle.klp_core.specs.Journaled.{Journaled};
ghost use Rattle.klp_trace.specs.Answers.{answer_of};
ghost use Rattle.klp_trace.specs.Items.{item_of};
ghost use Rattle.klp_trace.specs.Traces.{entry_of};

/// An answer is spelled exactly as the console spells it.
pub fn answers_are_spelled_as_on_the_console()
    ensures done { (manager : Journaled) → answer_of manager (codes "ok") ≡ Some (Ok Done) }
    ensures upper_case { (manager : Journaled) → answer_of manager (codes "Ok") ≡ None }
    ensures more_behind { (manager : Journaled) → answer_of manager (codes "ok ") ≡ None }
    ensures number { (manager : Journaled) → answer_of manager (codes "pending 2") ≡ Some (Ok (Pending 2)) }
    ensures zero_in_front { (manager : Journaled) → answer_of manager (codes "pending 02") ≡ None }
    ensures too_great { (manager : Journaled) → answer_of manager (codes "pending 256") ≡ None }
    ensures enabled { (manager : Journaled) → answer_of manager (codes "completed 1") ≡ Some (Ok (Completed true)) }
    ensures disabled { (manager : Journaled) → answer_of manager (codes "completed 0") ≡ Some (Ok (Completed false)) }
    ensures neither { (manager : Journaled) → answer_of manager (codes "completed 2") ≡ None }
    ensures freed { (manager : Journaled) → answer_of manager (codes "freed 0") ≡ Some (Ok (Freed 0)) }
    ensures refusal { (manager : Journaled) → answer_of manager (codes "error 16 Busy") ≡ Some (Err Busy) }
    ensures other_number { (manager : Journaled) → answer_of manager (codes "error 17 Busy") ≡ None }
    ensures no_number { (manager : Journaled) → answer_of manager (codes "error Busy") ≡ None }
{}

/// The item of a line is an event with or without its answer, a return, or something that was seen.
pub fn lines_are_items()
    ensures event { (manager : Journaled) → item_of manager (codes "poll") ≡ Some (Item (Happens Poll)) }
    ensures answered { (manager : Journaled) → item_of manager (codes "poll => pending 1")
        ≡ Some (Answered Poll (Ok (Pending 1))) }
    ensures refused { (manager : Journaled) → item_of manager (codes "poll => error 16 Busy")
        ≡ Some (Answered Poll (Err Busy)) }
    ensures unknown { (manager : Journaled) → item_of manager (codes "poll => ?") ≡ Some (Item (Happens Poll)) }
    ensures no_answer { (manager : Journaled) → item_of manager (codes "poll => yes") ≡ None }
    ensures no_event { (manager : Journaled) → item_of manager (codes "return 1 => ok") ≡ None }
    ensures returned { (manager : Journaled) → item_of manager (codes "return 1") ≡ Some (Item (Returns 1)) }
    ensures none { (manager : Journaled) → item_of manager (codes "saw 1 -1")
        ≡ Some (Saw (StateSeen 1 (Some (negsuc 0)))) }
    ensures unpatched { (manager : Journaled) → item_of manager (codes "saw 1 0")
        ≡ Some (Saw (StateSeen 1 (Some (pos 0)))) }
    ensures patched { (manager : Journaled) → item_of manager (codes "saw 1 1")
        ≡ Some (Saw (StateSeen 1 (Some (pos 1)))) }
    ensures no_state { (manager : Journaled) → item_of manager (codes "saw 1 2") ≡ None }
    ensures no_task { (manager : Journaled) → item_of manager (codes "saw 64 0") ≡ None }
{}

/// A line may begin with `@`, a time in seconds and a space. Its item follows.
pub fn a_line_may_have_its_time()
    ensures time { (manager : Journaled) → entry_of manager (codes "@12.345 poll")
        ≡ Some (record { item = Item (Happens Poll); time = Some 12_345_000 }) }
    ensures none { (manager : Journaled) → entry_of manager (codes "poll")
        ≡ Some (record { item = Item (Happens Poll); time = None }) }
    ensures no_seconds { (manager : Journaled) → entry_of manager (codes "@ poll") ≡ None }
    ensures unit { (manager : Journaled) → entry_of manager (codes "@12s poll") ≡ None }
    ensures alone { (manager : Journaled) → entry_of manager (codes "@12") ≡ None }
    ensures not_in_front { (manager : Journaled) → entry_of manager (codes " @12 poll") ≡ None }
{}
