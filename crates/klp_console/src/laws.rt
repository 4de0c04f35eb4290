//! A law about the manager after serving. A function here does nothing: its contract is the law.
ghost use Rattle.std.specs.Prelude.{◌≡◌, ℕ, List, Some};
ghost use mathlib.Core.List.{IsPrefix};
ghost use Rattle.klp_console.specs.Alike.{AreAlike, NoneIsFull};
ghost use Rattle.klp_console.specs.Served.{Console, HasWriteFailed};

/// After a failed write, the bytes that were written determine which lines are done. Take two servings of the same
/// lines by one manager, and let both sinks accept the same bytes. Then both servings have done the same lines, and
/// both leave the same manager except for its undo records. It makes no difference how reads cut the input, or which
/// lines were done before earlier answers were written. The journal must have room for the lines. Contracts say little
/// of an event's undo records: only that they are few and undo the event.
pub fn what_stands_is_sent_by_what_was_written()
    ensures { (before after other : Console) (all : List (List ℕ)) (taken : List ℕ)
        → (one : HasWriteFailed before after) → (two : HasWriteFailed before other)
        → IsPrefix one.lines all → IsPrefix two.lines all
        → before.written.taken ≡ Some taken → after.written.taken ≡ other.written.taken
        → NoneIsFull one.answers → NoneIsFull two.answers
        → (one.lines ≡ two.lines) × AreAlike after.manager other.manager }
{}
