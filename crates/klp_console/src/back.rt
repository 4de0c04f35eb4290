//! Undoing lines whose answers weren't written. Answers are gathered, so a line may be done before earlier answers are
//! written. If a write fails, the events of all lines behind the one whose answer was cut off are undone
//! (docs/DECISIONS.md, "Lines ahead of their answers").
ghost use Rattle.std.specs.Prelude.{◌≡◌, ℕ, ◌-◌, ◌<◌, ◌≤◌, ◌⊎◌, true, false, List, [], ◌∷◌, ◌++◌, length};
ghost use Rattle.klp_console.specs.Back as back;
ghost use Rattle.klp_console.specs.Back.{IsTakenBack};
ghost use Rattle.klp_console.specs.Said.{serving_of, Ahead, Comes, Serving};
ghost use Rattle.klp_console.specs.declared.served.Served.{Served};
ghost use Rattle.klp_console_commands.specs.Asked.{asked_with};
ghost use Rattle.klp_console_io.specs.Marks.{events_at_cut};
ghost use Rattle.klp_console_io.specs.declared.marks.TheConstants.{MARKS_ROOM};

use klp_console_commands::{Asked, LineFault};
use klp_console_io::{Answers, Mark, Marks, Sink};
use klp_core::Manager;
use klp_model::Event;

/// Whether a line can be undone, so that it may be done before earlier answers are written. False for an event that may
/// run a callback, since the count of its runs can't be undone. False also for `seal` and `rewind`, which remove events
/// from the journal.
#[inline(always)]
pub(crate) fn can_be_taken_back(
    manager: &Manager,
    asked: &Option<Result<Asked, LineFault>>,
    event: &Event,
) -> bool
    ensures { result ≡ back.can_be_taken_back manager.now (asked_with asked.now event.now) }
{
    match *asked {
        Some(Ok(Asked::Take)) => !manager.may_run(event),
        Some(Ok(Asked::Rewind(_) | Asked::Seal)) => false,
        _ => true,
    }
}

/// Undoes the events of all lines behind the one whose answer was cut off. `gathered` is how many bytes were gathered
/// before the last line. If all these bytes are written, the last line's own answer was cut off, and nothing is undone.
pub(crate) fn take_back(manager: &mut Manager, marks: &Marks, answers: &Answers, gathered: usize)
    requires { answers.now.held ≤ gathered }
    ensures { IsTakenBack manager.old manager.new (events_at_cut (gathered - answers.now.held) marks.now) }
{
    if let Some(events) = marks.events_at_cut(gathered - answers.held()) {
        // no line after the mark removed an event, so the journal has at least this many
        let _ = manager.rewind(events);
    }
}

/// Marks the line that was answered last. If all answers before that line's answer are written, the earlier marks are
/// dropped first.
pub(crate) fn mark_line(marks: &mut Marks, answers: &Answers, events: u32)
    requires { length marks.old < MARKS_ROOM }
    ensures { marks.new ≡ back.marks_on answers.now.held marks.old
        (record { end = length answers.now.bytes; events = events }) }
{
    if answers.held() == 0 {
        marks.clear();
    }
    marks.push(Mark {
        end: answers.len(),
        events,
    });
}

/// Writes all gathered answers. If a write fails, undoes the lines behind the one whose answer was cut off.
pub(crate) fn write_out<W: Sink>(
    manager: &mut Manager,
    answers: &mut Answers,
    marks: &mut Marks,
    writer: &mut W,
)
    requires still { answers.old.has_failed ≡ false }
    ensures comes { (before : Serving) (lines : List (List ℕ)) (served : Served)
        → Ahead before (serving_of manager.old served answers.old (W.written writer.old) marks.old) lines
        → Comes before (serving_of manager.new served answers.new (W.written writer.new) marks.new) lines }
    ensures empty { answers.new.has_failed ≡ false → (answers.new.bytes ≡ []) × (marks.new ≡ [])
        × (manager.new ≡ manager.old) }
{
    let gathered = answers.hold();
    answers.flush(writer);
    if answers.has_failed() {
        take_back(manager, marks, answers, gathered);
    } else {
        marks.clear();
    }
}

/// Writes all gathered answers if the next line can't be undone, or if there is no room for another mark. So a line
/// that can't be undone is done only after all earlier answers are written.
pub(crate) fn make_ready<W: Sink>(
    manager: &mut Manager,
    is_ahead: bool,
    answers: &mut Answers,
    marks: &mut Marks,
    writer: &mut W,
)
    requires still { answers.old.has_failed ≡ false }
    ensures comes { (before : Serving) (lines : List (List ℕ)) (served : Served)
        → Ahead before (serving_of manager.old served answers.old (W.written writer.old) marks.old) lines
        → Comes before (serving_of manager.new served answers.new (W.written writer.new) marks.new) lines }
    ensures same { answers.new.has_failed ≡ false → manager.new ≡ manager.old }
    ensures back { answers.new.has_failed ≡ false → (is_ahead ≡ true) ⊎ (marks.new ≡ []) }
    ensures room { answers.new.has_failed ≡ false → length marks.new < MARKS_ROOM }
{
    if !is_ahead || marks.is_full() {
        write_out(manager, answers, marks, writer);
    }
}
