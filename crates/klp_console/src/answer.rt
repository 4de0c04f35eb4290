//! Does one line and answers it. The request of the line is read before it is done, since reading borrows the manager.
ghost use Rattle.std.specs.Prelude.{◌≡◌, ℕ, ◌+◌, ◌<◌, ◌≤◌, ◌^◌, ◌⊎◌, true, false, cond, List, [], ◌∷◌, ◌++◌, length};
ghost use Rattle.std.specs.Prelude.{is_err};
ghost use Rattle.klp_types.specs.declared.limits.TheConstants.{MAX_CONSOLE_LINE};
ghost use Rattle.klp_console_io.specs.declared.marks.TheConstants.{MARKS_ROOM};
ghost use Rattle.klp_console_commands.specs.Asked.{asked_with};
ghost use Rattle.klp_console_commands.specs.Lines.{request_of};
ghost use Rattle.klp_core.specs.Taking.{IsTaken};
ghost use Rattle.klp_console.specs.Answered.{IsRewoundAs, IsTakenAs, IsDoneIf, IsAnswered, names_in};
ghost use Rattle.klp_console.specs.Outcomes.{is_refusal, IsEventOutcome, IsOutcome};
ghost use Rattle.klp_console.specs.Back as back;
ghost use Rattle.klp_console.specs.Said.{serving_of, Serving, IsSaid, AnswersLine, Ahead, Comes};

use crate::back::{can_be_taken_back, make_ready, mark_line, take_back};
use crate::outcome::{LineOutcome, other_outcome};
use crate::queries::{say_force_nothing, say_query};
use crate::refusals::{say_bad_mark, say_fault};
use crate::replies::{say_answer, say_done};
use crate::served::Served;
use klp_console_commands::{Asked, LineFault, read_request};
use klp_console_io::{Answers, Failed, Marks, Sink};
use klp_core::Manager;
use klp_model::{Event, Refusal, Reply};

/// Undoes all events but the first `mark`, and answers `ok`. Returns whether the line was refused: if the journal has
/// fewer than `mark` events, nothing is undone, the answer is `BadMark`, and the result is true.
fn rewind<W: Sink>(manager: &mut Manager, mark: u32, answers: &mut Answers, writer: &mut W) -> bool
    requires { answers.old.has_failed ≡ false }
    ensures { IsSaid (IsRewoundAs manager.old manager.new mark) (answers.old, W.written writer.old)
        (answers.new, W.written writer.new) result }
{
    match manager.rewind(mark) {
        Ok(()) => {
            say_done(answers, writer);
            false
        }
        Err(_) => {
            say_bad_mark(answers, writer);
            true
        }
    }
}

/// Passes an event to the manager, says the manager's reply or refusal, and also returns the reply or refusal. The
/// function is inlined, so that callers who drop the reply don't pay for a copy of it.
#[inline(always)]
fn answer_event<W: Sink>(
    manager: &mut Manager,
    event: &Event,
    answers: &mut Answers,
    writer: &mut W,
) -> Result<Reply, Refusal>
    requires { answers.old.has_failed ≡ false }
    ensures said { IsSaid (IsTakenAs manager.old manager.new event.now) (answers.old, W.written writer.old)
        (answers.new, W.written writer.new) (is_err result) }
    ensures taken { IsTaken manager.old manager.new event.now result }
{
    let reply = manager.apply_lent(event);
    let catalog = manager.catalog();
    say_answer(answers, writer, catalog, manager.modules(), &reply);
    reply
}

/// Passes an event to the manager, says its reply or refusal, and returns the outcome.
fn take<W: Sink>(
    manager: &mut Manager,
    event: &Event,
    answers: &mut Answers,
    writer: &mut W,
) -> LineOutcome
    requires { answers.old.has_failed ≡ false }
    ensures said { IsSaid (IsTakenAs manager.old manager.new event.now) (answers.old, W.written writer.old)
        (answers.new, W.written writer.new) (is_refusal result) }
    ensures outcome { IsEventOutcome manager.old manager.new event.now result }
{
    LineOutcome::Answered(*event, answer_event(manager, event, answers, writer))
}

/// Does what a line asks for, and says the answer. Returns whether the line was refused, so that refused lines can be
/// counted. A refused line changes nothing. A line without words does nothing and has no answer, so scripts may have
/// empty lines. A line at fault is refused.
fn done<W: Sink>(
    manager: &mut Manager,
    asked: &Option<Result<Asked, LineFault>>,
    event: &Event,
    answers: &mut Answers,
    writer: &mut W,
) -> bool
    requires { answers.old.has_failed ≡ false }
    ensures { IsSaid (IsDoneIf manager.old manager.new (asked_with asked.now event.now))
        (answers.old, W.written writer.old) (answers.new, W.written writer.new) result }
{
    klp_console_io::laws::what_is_said_adds_up();
    match *asked {
        None => false,
        Some(Err(ref fault)) => {
            say_fault(answers, writer, fault);
            true
        }
        Some(Ok(Asked::Take)) => { answer_event(manager, event, answers, writer).is_err() }
        Some(Ok(Asked::Rewind(mark))) => rewind(manager, mark, answers, writer),
        Some(Ok(Asked::ForceNothing(patch))) => {
            say_force_nothing(answers, writer, manager, patch).is_err()
        }
        Some(Ok(Asked::Ask(ref query))) => say_query(answers, writer, manager, query).is_err(),
        Some(Ok(Asked::Seal)) => {
            manager.seal();
            say_done(answers, writer);
            false
        }
    }
}

/// Does what a line asks for, says the answer, and returns the outcome of the line.
fn do_request<W: Sink>(
    manager: &mut Manager,
    asked: &Option<Result<Asked, LineFault>>,
    event: &Event,
    answers: &mut Answers,
    writer: &mut W,
) -> LineOutcome
    requires { answers.old.has_failed ≡ false }
    ensures said { IsSaid (IsDoneIf manager.old manager.new (asked_with asked.now event.now))
        (answers.old, W.written writer.old) (answers.new, W.written writer.new) (is_refusal result) }
    ensures outcome { IsOutcome manager.old manager.new (asked_with asked.now event.now) result }
{
    match *asked {
        Some(Ok(Asked::Take)) => take(manager, event, answers, writer),
        _ => other_outcome(asked, done(manager, asked, event, answers, writer)),
    }
}

/// Reads what a line asks for, does it, says the answer, and returns the outcome.
fn take_line<W: Sink>(
    manager: &mut Manager,
    line: &[u8],
    answers: &mut Answers,
    writer: &mut W,
) -> LineOutcome
    requires { answers.old.has_failed ≡ false }
    ensures said { IsSaid (IsAnswered manager.old manager.new line.now) (answers.old, W.written writer.old)
        (answers.new, W.written writer.new) (is_refusal result) }
    ensures outcome { IsOutcome manager.old manager.new (request_of (names_in manager.old) line.now) result }
{
    let mut event = Event::Poll;
    let asked = read_request(line, manager.catalog(), manager.modules(), &mut event);
    let outcome = do_request(manager, &asked, &event, answers, writer);
    let _for_its_clause = manager.mark();
    outcome
}

/// Does one line, without its line feed, by the same function as `serve`, and writes its answer. Returns the outcome of
/// the line. `Err` means that the sink failed or accepted no byte. Even then the line is done, but the end of its
/// answer is missing.
///
/// The line may have any length. The cost grows with its words and with what it asks for. No memory is allocated.
pub fn answer_line<W: Sink>(
    manager: &mut Manager,
    line: &[u8],
    writer: &mut W,
) -> Result<LineOutcome, Failed>
    ensures { AnswersLine manager.old manager.new line.now (W.written writer.old) (W.written writer.new) result }
{
    klp_console_io::laws::what_is_said_adds_up();
    let mut answers = Answers::new();
    let outcome = take_line(manager, line, &mut answers, writer);
    answers.flush(writer);
    if answers.has_failed() {
        return Err(Failed);
    }
    Ok(outcome)
}

/// Counts a line, and also counts it as refused if `is_refused`.
fn count(served: &mut Served, is_refused: bool)
    requires room { served.old.lines + 1 < 2 ^ 64 }
    requires few { served.old.refused ≤ served.old.lines }
    ensures lines { served.new.lines ≡ served.old.lines + 1 }
    ensures refused { served.new.refused ≡ served.old.refused + cond is_refused 1 0 }
    ensures few { served.new.refused ≤ served.new.lines }
{
    served.lines += 1;
    if is_refused {
        served.refused += 1;
    }
}

/// Does what a line asks for, and gathers its answer. If the sink fails to write an earlier answer, this line is undone
/// again. So if an earlier answer is gathered, the line must be one that can be undone.
fn gather<W: Sink>(
    manager: &mut Manager,
    asked: &Option<Result<Asked, LineFault>>,
    event: &Event,
    served: &mut Served,
    answers: &mut Answers,
    marks: &mut Marks,
    writer: &mut W,
)
    requires still { answers.old.has_failed ≡ false }
    requires room { served.old.lines + 1 < 2 ^ 64 }
    requires few { served.old.refused ≤ served.old.lines }
    requires marks { length marks.old < MARKS_ROOM }
    requires back { (back.can_be_taken_back manager.old (asked_with asked.now event.now) ≡ true) ⊎ (marks.old ≡ []) }
    ensures comes { (before : Serving) (lines : List (List ℕ)) (line : List ℕ)
        → (asked_with asked.now event.now) ≡ request_of (names_in manager.old) line → length line ≤ MAX_CONSOLE_LINE
        → Ahead before (serving_of manager.old served.old answers.old (W.written writer.old) marks.old) lines
        → Comes before (serving_of manager.new served.new answers.new (W.written writer.new) marks.new)
        (lines ++ line ∷ []) }
    ensures few { served.new.refused ≤ served.new.lines }
    ensures lines { served.new.lines ≡ served.old.lines + 1 }
{
    let gathered = answers.hold();
    let is_refused = done(manager, asked, event, answers, writer);
    let events = manager.mark();
    count(served, is_refused);
    if answers.has_failed() {
        take_back(manager, marks, answers, gathered);
    } else {
        mark_line(marks, answers, events);
    }
}

/// Answers a line and counts it. A line that can be undone is done at once, and its answer is gathered behind the
/// answers that aren't written yet. Before a line that can't be undone is done, all gathered answers are written.
pub(crate) fn serve_line<W: Sink>(
    manager: &mut Manager,
    line: &[u8],
    served: &mut Served,
    answers: &mut Answers,
    marks: &mut Marks,
    writer: &mut W,
)
    requires still { answers.old.has_failed ≡ false }
    requires room { served.old.lines + 1 < 2 ^ 64 }
    requires few { served.old.refused ≤ served.old.lines }
    requires short { length line.now ≤ MAX_CONSOLE_LINE }
    ensures comes { (before : Serving) (lines : List (List ℕ))
        → Ahead before (serving_of manager.old served.old answers.old (W.written writer.old) marks.old) lines
        → Comes before (serving_of manager.new served.new answers.new (W.written writer.new) marks.new)
        (lines ++ line.now ∷ []) }
    ensures few { served.new.refused ≤ served.new.lines }
    ensures lines { served.new.lines ≤ served.old.lines + 1 }
{
    let mut event = Event::Poll;
    let asked = read_request(line, manager.catalog(), manager.modules(), &mut event);
    let is_ahead = can_be_taken_back(manager, &asked, &event);
    make_ready(manager, is_ahead, answers, marks, writer);
    if answers.has_failed() {
        return;
    }
    gather(manager, &asked, &event, served, answers, marks, writer);
}
