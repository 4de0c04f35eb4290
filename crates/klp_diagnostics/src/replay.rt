//! Replays a trace: a manager does the trace's events again. The replay shows which versions a task is inside of, and
//! what the rules have at a line.
ghost use Rattle.klp_core.specs.Journaled.{IsWellFormed};

use crate::differing::{Sides, sides_at};
use klp_boot::{ManagerUse, over_text};
use klp_catalog_text::{Lines, PlanFunction, PlanPatch};
use klp_console::{event_of, site_of};
use klp_core::Manager;
use klp_faulty_words::item::Item;
use klp_messages::{Escaped, line_at, word_at};
use klp_trace::LineParts;
use klp_types::{TaskId, Version};
use klp_words::{LineWords, Separators, cut};
use std::alloc::{AllocError, Global};
use std::io;
use std::io::Write;

/// How many versions are written at most, of those that a task is inside of.
const REPORTED: usize = 4;

/// A version that a task called, and from which it hasn't returned.
#[derive(Clone, Copy)]
struct Entered {
    task: u64,
    /// The line of the call.
    line: u64,
    /// The position of the called symbol.
    position: u32,
    version: Version,
}

/// The versions that tasks called, and from which they haven't returned, oldest first.
#[derive(Drop)]
pub(crate) struct EnteredVersions {
    open: Vec<Entered>,
}

/// Returns the function with this number, counted from 0 over all targets of a patch. Returns `None` if the patch has
/// no function with this number.
fn function_at(patch: &PlanPatch, number: u16) -> Option<&PlanFunction> {
    // The function's index in the next target, if that target has so many functions.
    let mut left = usize::from(number);
    for target in &patch.targets {
        if let Some(function) = target.functions.get(left) {
            return Some(function);
        }
        left = left.saturating_sub(target.functions.len());
    }
    None
}

/// Returns the symbol that a `call` line of a trace calls, as the line spells it, but without its position.
fn symbol_in(line: &[u8]) -> &[u8] {
    let words = LineWords::new(LineParts::of(line).item, Separators::Spaces);
    let (symbol, _) = cut(word_at(words, 3), b',');
    symbol
}

impl Entered {
    /// Writes a space and the version, as a console line spells it. If the version is a new function, adds its name.
    /// `trace` and `patches` are the trace and the catalog's patches, which have the names.
    fn write<E: Write>(&self, trace: &[u8], patches: &[PlanPatch], err: &mut E) -> io::Result<()> {
        match self.version {
            Version::Original(_) => {
                let symbol = Escaped(symbol_in(line_at(trace, self.line)));
                write!(err, " {symbol},{}", self.position)
            }
            Version::New(patch, number) => match patches.get(usize::from(patch.0)) {
                Some(patch) => write_new(patch, number, err),
                None => Ok(()),
            },
        }
    }
}

/// Writes a space and a new function of a patch as `PATCH:INDEX`. Adds its name if the patch has such a function.
fn write_new<E: Write>(patch: &PlanPatch, number: u16, err: &mut E) -> io::Result<()> {
    write!(err, " {}:{number}", patch.name)?;
    match function_at(patch, number) {
        Some(function) => write!(err, " ({})", function.new_name),
        None => Ok(()),
    }
}

/// Returns the version that a task gets if it calls a symbol now, and the symbol's position. Returns `None` if the task
/// can't call the symbol.
fn version_called(manager: &Manager, task: u64, symbol: &[u8]) -> Option<(Version, u32)> {
    let number = u8::try_from(task).ok()?;
    let site = site_of(symbol, manager)?;
    let target = manager.pick(TaskId(number), site)?;
    match manager.modules().symbol(site) {
        Some((_, _, position)) => Some((target.version, position)),
        None => None,
    }
}

/// Does the event that a line of a trace asks for, whatever the kernel answered. Does nothing for a line that asks for
/// no event.
fn do_event_in(manager: &mut Manager, text: &[u8])
    requires { IsWellFormed manager.old }
    ensures { IsWellFormed manager.new }
{
    if let Some(event) = event_of(LineParts::of(text).item, manager) {
        manager.make_room();
        let _ = manager.apply(event);
    }
}

/// Does the events of the first `lines` lines of a trace, or of all its lines if there are fewer.
fn do_first_events(manager: &mut Manager, trace: &[u8], lines: u64)
    requires { IsWellFormed manager.old }
{
    let mut rest = Lines::new(trace);
    for _ in 0..lines {
        // For the proof only: the contract of mark says that the manager is well-formed.
        let _for_its_clause = manager.mark();
        let Some(text) = rest.next() else {
            break;
        };
        do_event_in(manager, text);
    }
}

impl EnteredVersions {
    /// Adds the version that a task enters when it calls a symbol in this line. Adds nothing if the task can't call the
    /// symbol. Returns `Err` if memory runs out.
    fn enter(
        &mut self,
        manager: &Manager,
        line: u64,
        task: u64,
        symbol: &[u8],
    ) -> Result<(), AllocError> {
        if let Some((version, position)) = version_called(manager, task, symbol) {
            self.open.push(Entered {
                task,
                line,
                position,
                version,
            })?;
        }
        Ok(())
    }

    /// Removes the version that a task entered last, when the task returns from it. Does nothing if there is none.
    fn leave(&mut self, task: u64) {
        if let Some(place) = self.open.iter().rposition(|own| own.task == task) {
            self.open.remove(place);
        }
    }

    /// Follows one line of a trace: does its event on the manager, or adds or removes the version of its call or
    /// return. Returns `Err` if memory runs out.
    fn follow_line(
        &mut self,
        manager: &mut Manager,
        line: u64,
        text: &[u8],
    ) -> Result<(), AllocError>
        requires { IsWellFormed manager.old }
        ensures { IsWellFormed manager.new }
    {
        match Item::read(text) {
            Some(Item::Call(task, symbol)) => self.enter(manager, line, task, symbol)?,
            Some(Item::Return(task)) => self.leave(task),
            _ => do_event_in(manager, text),
        }
        Ok(())
    }

    /// Follows the first `lines` lines of a trace, or all its lines if there are fewer. Returns `Err` if memory runs
    /// out.
    fn follow_lines(
        &mut self,
        manager: &mut Manager,
        trace: &[u8],
        lines: u64,
    ) -> Result<(), AllocError>
        requires { IsWellFormed manager.old }
    {
        let mut rest = Lines::new(trace);
        for number in 0..lines {
            // For the proof only: the contract of mark says that the manager is well-formed.
            let _for_its_clause = manager.mark();
            let Some(text) = rest.next() else {
                break;
            };
            self.follow_line(manager, number.saturating_add(1), text)?;
        }
        Ok(())
    }

    /// Ends a line of `err` with the versions that the task is inside of, outermost first. If there are more than
    /// [`REPORTED`] versions, writes the first [`REPORTED`] and `..`.
    pub(crate) fn write_versions<E: Write>(
        &self,
        task: u64,
        trace: &[u8],
        patches: &[PlanPatch],
        err: &mut E,
    ) -> io::Result<()> {
        let mut count: usize = 0;
        for entered in &self.open {
            if entered.task == task && count < REPORTED {
                entered.write(trace, patches, err)?;
            }
            count = count.saturating_add(usize::from(entered.task == task));
        }
        match count {
            0 => writeln!(err, " none"),
            1..=REPORTED => writeln!(err),
            _ => writeln!(err, " .."),
        }
    }
}

/// The first `lines` lines of a trace. A manager does them, which shows which versions tasks are then inside of.
#[derive(Drop)]
struct FirstLines<'a> {
    trace: &'a [u8],
    lines: u64,
}

impl ManagerUse for FirstLines<'_> {
    /// `None` if memory runs out.
    type Done = Option<EnteredVersions>;

    ghost comes_to = { λ _ _ _ _. Unit {0} };

    /// Does the lines on the manager, and returns the versions that tasks are inside of afterwards. Returns `None` if
    /// memory runs out.
    fn run(&mut self, alloc: Global, manager: &mut Manager) -> Option<EnteredVersions> {
        let mut entered = EnteredVersions {
            open: Vec::new(alloc),
        };
        // For the proof only: the contract of mark says that the manager is well-formed.
        let _for_its_clause = manager.mark();
        match entered.follow_lines(manager, self.trace, self.lines) {
            Ok(()) => Some(entered),
            Err(_) => None,
        }
    }
}

/// A line of a trace, by its number from 1. A manager does the lines before it, which shows what the rules have at it.
#[derive(Drop)]
struct LineInTrace<'a> {
    trace: &'a [u8],
    line: u64,
}

impl ManagerUse for LineInTrace<'_> {
    /// `None` if the rules can't differ from the line, or if memory runs out.
    type Done = Option<Sides>;

    ghost comes_to = { λ _ _ _ _. Unit {0} };

    /// Does the events of all earlier lines on the manager, and returns what the kernel and the rules have at the line.
    /// Returns `None` if the rules can't differ from the line, or if memory runs out.
    fn run(&mut self, alloc: Global, manager: &mut Manager) -> Option<Sides> {
        // For the proof only: the contract of mark says that the manager is well-formed.
        let _for_its_clause = manager.mark();
        do_first_events(manager, self.trace, self.line.saturating_sub(1));
        // For the proof only: the contract of mark says that the manager is well-formed.
        let _for_its_clause = manager.mark();
        sides_at(alloc, manager, line_at(self.trace, self.line))
    }
}

/// Returns the versions that tasks are inside of after the first `lines` lines of a trace over a catalog's text. A
/// manager must have been booted with this text before, so that it has no fault. Then `None` only means that memory ran
/// out.
pub(crate) fn versions_after(
    alloc: Global,
    catalog: &[u8],
    trace: &[u8],
    lines: u64,
) -> Option<EnteredVersions> {
    over_text(alloc, catalog, &mut FirstLines { trace, lines }).ok()?
}

/// Returns what the kernel and the rules have at line `line` of a trace, counted from 1. Returns `None` if the line has
/// neither an answer nor a sight, if the catalog's text has a fault, or if memory runs out. So `None` only means that
/// memory ran out if a manager was booted with the text before, and the kernel differs at the line. Boots a manager, and
/// does the events of all earlier lines.
pub fn sides_in(alloc: Global, catalog: &[u8], trace: &[u8], line: u64) -> Option<Sides> {
    over_text(alloc, catalog, &mut LineInTrace { trace, line }).ok()?
}
