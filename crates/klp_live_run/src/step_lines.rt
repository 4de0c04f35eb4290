//! Reads the steps of two tasks from a text. Each line is a step of one task. A line has the task's number, `1` or `2`,
//! and behind it `call SYMBOL`, `return`, `nap`, or a console line that asks for an event.
ghost use Rattle.std.specs.Prelude.{◌≡◌, ◌<◌, ◌≤◌, ◌==◌, not, ◌++◌, [], ◌∷◌, length, position, MatchResult};
ghost use Rattle.std.specs.Str.Lines.{lines};
ghost use Rattle.klp_live_run.specs.Steps.{unindented, call_of, alone, step_of, half_of, task_step, count_of, AreSteps};
ghost use Rattle.klp_live_run.specs.Steps.{IsReadFault};
ghost use Rattle.klp_live_run.specs.Reading.{IsFull, IsAdded};

use crate::fault::{ReadFault, StepsFault, StepsFaultKind};
use klp_catalog_text::Lines;
use klp_console::{event_of, site_of};
use klp_core::Manager;
use klp_live_bodies::Step;
use klp_model::Event;
use klp_types::MAX_CONSOLE_LINE;
use klp_words::{LineWords, Separators, cut};
use std::alloc::Global;

/// The most steps that a task may have.
pub const MAX_STEPS: usize = 1_000;

/// The steps of both tasks.
#[derive(Drop)]
pub struct Steps {
    /// The steps of task 1, in the order of their lines.
    pub first: Vec<Step>,
    /// The steps of task 2, in the order of their lines.
    pub second: Vec<Step>,
}

/// One of the two tasks.
#[derive(Clone, Copy)]
enum Half {
    First,
    Second,
}

/// Returns the index of the first byte that isn't a space. Returns `None` if there is no such byte.
fn start_of(line: &[u8]) -> Option<usize>
    ensures { result ≡ position (λ b. not (b == 32)) line.now }
{
    line.iter().position(|b| *b != b' ')
}

/// Returns the line without its leading spaces.
fn unindented(line: &[u8]) -> &[u8]
    ensures { result.now ≡ unindented line.now }
{
    match start_of(line) {
        Some(start) => &line[start..],
        None => &[],
    }
}

/// Reads the symbol behind `call`. Returns `None` if a further word follows it, or if there is no such symbol.
fn call_of(words: &mut LineWords<'_>, manager: &Manager) -> Option<Step>
    ensures { result ≡ call_of manager.now words.old }
{
    let (Some(symbol), None) = (words.next(), words.next()) else {
        return None;
    };
    Some(Step::Call(site_of(symbol, manager)?))
}

/// Returns the step if no word follows its name. Otherwise returns `None`.
fn alone(step: Step, words: &mut LineWords<'_>) -> Option<Step>
    ensures { result ≡ alone step words.old }
{
    match words.next() {
        None => Some(step),
        Some(_) => None,
    }
}

/// Reads a step from the part of a line that follows the task's number. Returns `None` if this part isn't a step. Names
/// are looked up in the manager, but the manager's state makes no difference.
fn step_of(line: &[u8], manager: &Manager) -> Option<Step>
    ensures { result ≡ step_of manager.now line.now }
{
    let mut words = LineWords::new(line, Separators::Spaces);
    let first = words.next()?;
    if first == b"call".as_slice() {
        call_of(&mut words, manager)
    } else if first == b"return".as_slice() {
        alone(Step::Return, &mut words)
    } else if first == b"nap".as_slice() {
        alone(Step::Nap, &mut words)
    } else if line.len() > MAX_CONSOLE_LINE {
        None
    } else {
        let event: Event = event_of(line, manager)?;
        Some(Step::Submit(event))
    }
}

/// Returns the task that has this number. Returns `None` for any other word.
fn half_of(number: &[u8]) -> Option<Half>
    ensures { result ≡ half_of number.now }
{
    if number == b"1".as_slice() {
        Some(Half::First)
    } else if number == b"2".as_slice() {
        Some(Half::Second)
    } else {
        None
    }
}

/// Reads the task's number and the step from a line. Returns `None` if the number or the step is missing.
fn task_step(line: &[u8], manager: &Manager) -> Option<(Half, Step)>
    ensures { result ≡ task_step manager.now line.now }
{
    let (number, rest) = cut(unindented(line), b' ');
    let half = half_of(number)?;
    let step = step_of(unindented(rest), manager)?;
    Some((half, step))
}

/// Appends a step. If the list is full, returns `TooMany`. The proof doesn't depend on what a step is, so the function
/// is generic.
fn push<T: Copy>(steps: &mut Vec<T>, step: T, line: u64) -> Result<(), ReadFault>
    requires { length steps.old.items ≤ MAX_STEPS }
    ensures { MatchResult result
        (λ _. (steps.new.items ≡ steps.old.items ++ step ∷ []) × (length steps.old.items < MAX_STEPS))
        (λ fault. IsFull (length steps.old.items) line fault) }
{
    if steps.len() >= MAX_STEPS {
        return Err(ReadFault::Steps(StepsFault {
            line,
            kind: StepsFaultKind::TooMany,
        }));
    }
    steps.push(step)?;
    Ok(())
}

impl Steps {
    /// Appends a step to the list of its task. If the list is full, returns `TooMany`. `line` is the number of the
    /// step's line.
    fn add(&mut self, half: Half, step: Step, line: u64) -> Result<(), ReadFault>
        requires first { length self.old.first.items ≤ MAX_STEPS }
        requires second { length self.old.second.items ≤ MAX_STEPS }
        ensures { MatchResult result
            (λ _. IsAdded half step self.old.first.items self.old.second.items self.new.first.items
            self.new.second.items)
            (λ fault. IsFull (count_of half self.old.first.items self.old.second.items) line fault) }
    {
        match half {
            Half::First => push(&mut self.first, step, line),
            Half::Second => push(&mut self.second, step, line),
        }
    }
}

/// Reads the steps of both tasks. The text may have any bytes. Its lines end as those of a catalog do. If a line is
/// faulty, returns the fault of the first such line. A bad step is reported as `BadStep`, even if its task has no room
/// for more steps. Only the manager's names are used. The time is linear in the length of the text.
pub fn steps_of(alloc: Global, text: &[u8], manager: &Manager) -> Result<Steps, ReadFault>
    ensures { MatchResult result
        (λ steps. AreSteps manager.now (lines text.now) steps.first.items steps.second.items)
        (λ fault. IsReadFault manager.now (lines text.now) fault) }
{
    let mut steps = Steps {
        first: Vec::new(alloc),
        second: Vec::new(alloc),
    };
    let mut lines = Lines::new(text);
    let mut number = 0;
    while let Some(line) = lines.next() {
        number += 1;
        if unindented(line).is_empty() {
            continue;
        }
        let Some((half, step)) = task_step(line, manager) else {
            return Err(ReadFault::Steps(StepsFault {
                line: number,
                kind: StepsFaultKind::BadStep,
            }));
        };
        steps.add(half, step, number)?;
    }
    Ok(steps)
}
