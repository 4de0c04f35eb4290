//! Boots a manager with a catalog's text, and runs the steps of another text over the manager, in two task threads.
ghost use Rattle.std.specs.Prelude.{◌≡◌, ◌≤◌, ◌++◌, [], false, length, vec_len, slice_get, slice_index_or, IfOk, IfErr};
ghost use Rattle.std.specs.Prelude.{OnOk, MatchResult};
ghost use Rattle.std.specs.Str.Lines.{lines};
ghost use Rattle.klp_types.specs.declared.limits.TheConstants.{MAX_GROUPS};
ghost use Rattle.klp_catalog_text.specs.Within.{AreTargetsWithin};
ghost use Rattle.klp_core.specs.Journaled.{Journaled};
ghost use Rattle.klp_live_run.specs.declared.step_lines.TheConstants.{MAX_STEPS};
ghost use Rattle.klp_live_run.specs.Racing.{IsPrepared, HaveRunBoth};
ghost use Rattle.klp_live_run.specs.Shown.{asks_for_texts, asks_if, counts_text, IsAnsweredBehind, IsShown, IsShownOn};
ghost use Rattle.klp_live_run.specs.Steps.{AreSteps, IsReadFault};
ghost use Rattle.klp_live_run.specs.Living.{IsRunFault, LivesBy, LivesPlan, Lives, Exits};

use crate::fault::{LiveFault, ReadFault};
use crate::race::{Done, FIRST, SECOND, run_and_rewind};
use crate::step_lines::{Steps, steps_of};
use klp_boot::{Fault, boot};
use klp_callback::{Boxed, Scripted};
use klp_catalog::Catalog;
use klp_catalog_text::Plan;
use klp_console::{ServeFault, serve};
use klp_console_io::{Feed, OverWrite};
use klp_core::{Machine, Manager};
use klp_model::Event;
use klp_modules::Modules;
use klp_types::{MAX_OBJECTS, ObjId, READ_ROOM};
use std::alloc::{AllocError, Global};
use std::io;
use std::io::Write;
use std::marker::Brand;
use std::sync::Wait;
use std::sync::ledger::{Blank, Ledger};
use std::thread::Threads;

/// Adds the console line that asks for the text of an object. Adds nothing if the object isn't loaded.
fn add_ask(
    alloc: Global,
    modules: &Modules,
    object: ObjId,
    lines: &mut Vec<u8>,
) -> Result<(), AllocError>
    ensures { OnOk result (lines.new.items ≡ lines.old.items ++ asks_if (slice_get modules.now.names object)
        (slice_index_or modules.now.loaded object false)) }
{
    let Some(name) = modules.object_name(object) else {
        return Ok(());
    };
    if !modules.is_loaded(object) {
        return Ok(());
    }
    let line = format!(in alloc; "text {name}\n")?;
    lines.extend_from_slice(line.as_bytes())?;
    Ok(())
}

/// Returns the console lines that ask for the texts of all loaded objects.
fn texts(alloc: Global, manager: &Manager) -> Result<Vec<u8>, AllocError>
    ensures { IfOk result (λ lines. lines.items ≡ asks_for_texts manager.now) }
{
    let modules = manager.modules();
    let mut lines = Vec::new(alloc);
    for number in 0..MAX_OBJECTS as u8 {
        add_ask(alloc, modules, ObjId(number), &mut lines)?;
    }
    Ok(lines)
}

/// Returns two lines, which say how many steps each task has done.
fn counts(alloc: Global, done: &Done) -> io::Result<Vec<u8>>
    ensures { IfOk result (λ text. text.items
        ≡ counts_text (length done.now.first.items) (length done.now.second.items)) }
{
    let mut text = Vec::new(alloc);
    let (first, second) = (done.first.len(), done.second.len());
    writeln!(text, "task 1 {first}\ntask 2 {second}")?;
    Ok(text)
}

/// Returns `front`, with the console's answers to these lines behind it.
fn answered<L: Ledger, M: Ledger>(
    manager: &mut Manager,
    lines: &[u8],
    front: Vec<u8>,
    reads: Blank,
    writes: Blank,
) -> Result<Vec<u8>, ServeFault>
    requires reads { (reads.name ≡ L.name) × (reads.parts ≡ L.parts) × (3 ≤ reads.parts) }
    requires writes { (writes.name ≡ M.name) × (writes.parts ≡ M.parts) × (2 ≤ writes.parts) }
    ensures { IfOk result (λ text. IsAnsweredBehind manager.old lines.now front.items text.items) }
{
    let mut source = Feed::<'_, L>::new(lines, READ_ROOM, None, reads);
    let mut sink = OverWrite::<Vec<u8>, M>::new(front, writes);
    let ended = serve(&mut source, &mut sink, manager);
    let text = sink.into_inner();
    match ended {
        Ok(_) => Ok(text),
        Err(fault) => Err(fault),
    }
}

/// Returns the lines that say how many steps each task has done, and the text of each loaded object. `Err` if memory
/// runs out. The lines to serve are made here, and no line is cut off or too long, so serving can't fail in another
/// way.
fn shown(alloc: Global, manager: &mut Manager, done: &Done) -> Result<Vec<u8>, AllocError>
    ensures { IfOk result (λ text. IsShown manager.old done.now text.items) }
{
    let lines = texts(alloc, manager)?;
    let front = counts(alloc, done).map_err(|_| AllocError)?;
    answered::<Brand, Brand>(manager, &lines, front, Blank::new(3), Blank::new(2)).map_err(
        |_| AllocError,
    )
}

/// The work that is done with a manager before its tasks run, and after they ran. The functions that run tasks don't
/// name the manager's type, so this is a trait. A library can't pass a manager to a function that needs a trait of it
/// (docs/DECISIONS.md, "A manager that runs tasks").
trait Runs: Machine {
    /// Reads the steps from a text. Names are looked up in the manager.
    fn steps(&self, alloc: Global, text: &[u8]) -> Result<Steps, ReadFault>
        ensures steps { MatchResult result
            (λ steps. AreSteps (Self.journaled self.now) (lines text.now) steps.first.items steps.second.items)
            (λ fault. IsReadFault (Self.journaled self.now) (lines text.now) fault) };

    /// Begins both tasks, and then seals the journal. So a rewind doesn't undo the beginning of the tasks.
    fn prepare(&mut self)
        requires room { length (Self.journaled self.old).groups ≤ MAX_GROUPS }
        ensures prepared { IsPrepared (Self.journaled self.old) (Self.journaled self.new) };

    /// Writes how many steps each task has done, and the text of each loaded object.
    fn show<W: Write>(&mut self, alloc: Global, done: &Done, out: &mut W) -> Result<(), LiveFault>
        requires room { length (Self.journaled self.old).groups ≤ MAX_GROUPS }
        ensures shown { OnOk result (IsShownOn (Self.journaled self.old) done.now (W.contents out.old)
            (W.contents out.new)) }
        ensures fault { IfErr result IsRunFault };
}

impl Runs for Manager {
    fn steps(&self, alloc: Global, text: &[u8]) -> Result<Steps, ReadFault> {
        steps_of(alloc, text, self)
    }

    fn prepare(&mut self) {
        let _ = self.run(&[Event::NewTask(FIRST), Event::NewTask(SECOND)]);
        self.seal();
    }

    fn show<W: Write>(&mut self, alloc: Global, done: &Done, out: &mut W) -> Result<(), LiveFault> {
        let Ok(text) = shown(alloc, self, done) else {
            return Err(LiveFault::NoMemory);
        };
        match out.write_all(&text) {
            Ok(()) => Ok(()),
            Err(_) => Err(LiveFault::Program(Fault::Serve(ServeFault::Write))),
        }
    }
}

/// Runs the steps of both tasks, and undoes all accepted events. After all events are undone, writes how many steps
/// each task has done, and the text of each loaded object. At the end the machine is dropped.
fn race<M: Runs + Drop + Send, W: Write, R: Threads + Wait + Sync>(
    rt: &R,
    alloc: Global,
    machine: M,
    steps: Steps,
    out: &mut W,
) -> Result<Done, LiveFault>
    requires empty { (M.journaled machine).groups ≡ [] }
    requires first { vec_len steps.first ≤ MAX_STEPS }
    requires second { vec_len steps.second ≤ MAX_STEPS }
    ensures done { IfOk result (λ done. (left : Journaled)
        × HaveRunBoth (M.journaled machine) left steps.first.items steps.second.items done
        × IsShownOn left done (W.contents out.old) (W.contents out.new)) }
    ensures fault { IfErr result IsRunFault }
{
    match run_and_rewind::<M, R>(rt, alloc, machine, steps) {
        Ok((machine, done)) => {
            let mut machine = machine;
            let _for_its_clause = machine.mark();
            machine.show(alloc, &done, out)?;
            Ok(done)
        }
        Err(fault) => Err(fault),
    }
}

/// Reads the steps from a text, runs them, and undoes all events. After all events are undone, writes how many steps
/// were done, and the text of each loaded object.
fn live_over_manager<M: Runs + Drop + Send, W: Write, R: Threads + Wait + Sync>(
    rt: &R,
    alloc: Global,
    machine: M,
    text: &[u8],
    out: &mut W,
) -> Result<Done, LiveFault>
    ensures { LivesBy (M.journaled machine) text.now (W.contents out.old) (W.contents out.new) result }
{
    let mut machine = machine;
    match machine.steps(alloc, text) {
        Ok(steps) => {
            let _for_its_clause = machine.mark();
            machine.prepare();
            race(rt, alloc, machine, steps, out)
        }
        Err(fault) => Err(LiveFault::of_reading(fault)),
    }
}

// Boots a manager over a plan, and runs the steps of both tasks over the manager. Threads own their manager, so it can't
// be lent by `klp_boot::over_plan` (docs/DECISIONS.md, "A manager that runs tasks"). The callbacks are made here, and all
// are of one kind.
fn live_over_plan<W: Write, R: Threads + Wait + Sync>(
    rt: &R,
    alloc: Global,
    plan: Plan,
    text: &[u8],
    out: &mut W,
) -> Result<Done, LiveFault>
    requires { AreTargetsWithin (length plan.objects) plan.patches }
    ensures { LivesPlan plan text.now (W.contents out.old) (W.contents out.new) result }
{
    let mut callbacks = Vec::new(alloc);
    while let Some(script) = plan.script(callbacks.len()) {
        let callback = Box::new(alloc, Scripted::new(script.copy()))?;
        callbacks.push(Boxed::new(callback))?;
    }
    let manager = boot(alloc, plan, callbacks)?;
    live_over_manager::<Manager, W, R>(rt, alloc, manager, text, out)
}

/// Boots a manager with the catalog's text, and runs the steps of the other text. Task 1 and task 2 have a thread each.
/// If a second thread can be made, both run at the same time. After the steps, undoes all accepted events. When all
/// events are undone, writes how many steps each task has done, and the text of each loaded object.
pub(crate) fn live_over_text<W: Write, R: Threads + Wait + Sync>(
    rt: &R,
    alloc: Global,
    catalog: &[u8],
    text: &[u8],
    out: &mut W,
) -> Result<Done, LiveFault>
    ensures { Lives catalog.now text.now (W.contents out.old) (W.contents out.new) result }
{
    match Catalog::read(alloc, catalog) {
        Ok(plan) => live_over_plan(rt, alloc, plan, text, out),
        Err(fault) => Err(LiveFault::Program(Fault::Text(fault))),
    }
}

/// Does what `live_over_text` does, and returns the exit status. The status is 0, or 1 after a fault. After a fault, a
/// line about the fault is written to `err`.
pub fn live<W: Write, E: Write, R: Threads + Wait + Sync>(
    rt: &R,
    alloc: Global,
    catalog: &[u8],
    text: &[u8],
    out: &mut W,
    err: &mut E,
) -> u8
    ensures { Exits catalog.now text.now (W.contents out.old) (W.contents out.new) result }
{
    match live_over_text(rt, alloc, catalog, text, out) {
        Ok(_) => 0,
        Err(fault) => {
            let _ = writeln!(err, "klpsim: {fault}");
            1
        }
    }
}
