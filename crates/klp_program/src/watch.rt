//! Boots a manager over a catalog's text, and compares the kernel of a trace with the manager.
ghost use Rattle.std.specs.Prelude.{◌≡◌, ◌≤◌, OnOk, MatchResult};
ghost use Rattle.std.specs.Io.KnownBytes.{Appends};
ghost use Rattle.klp_program.specs.declared.verdict.Verdict.TheVariants.{Honest, Dishonest, Differs};
ghost use Rattle.klp_program.specs.Printed.{cause_text, difference_text, verdict_text, verdict_status, Prints};
ghost use Rattle.klp_program.specs.Watches.{counted, reported, WatchesBy, Watches};

use crate::verdict::{Counts, Verdict};
use klp_boot::{Fault, ManagerUse, over_text};
use klp_console::ServeFault;
use klp_core::Manager;
use klp_model::Seen;
use klp_trace::Trace;
use klp_watch::{Cause, Difference, Differs, NotHonest, Observed, RefusedEvents, compare_whole};
use std::alloc::Global;
use std::io;
use std::io::Write;

/// The exit status for an honest trace whose kernel does as the rules say. `REFUTED` is the exit status for any other
/// trace.
const HONEST: u8 = 0;

const REFUTED: u8 = 3;

/// Returns how many items of each kind there are. Stores `refused` with the counts: the events among the items that the
/// rules refuse, and whose answer the trace doesn't have.
fn counted(items: &[Observed], refused: RefusedEvents) -> Counts
    ensures { result ≡ counted items.now refused }
{
    let mut counts = Counts {
        events: 0,
        calls: 0,
        returns: 0,
        compared: 0,
        refused,
    };
    for item in items {
        match item {
            Observed::Seen(Seen::Event(_)) => counts.events += 1,
            Observed::Seen(Seen::Call(_, _)) => counts.calls += 1,
            Observed::Seen(Seen::Return(_)) => counts.returns += 1,
            Observed::Answered(_, _) => {
                counts.events += 1;
                counts.compared += 1;
            }
            Observed::Saw(_) => counts.compared += 1,
        }
    }
    counts
}

/// Returns the verdict on a trace whose comparison ended at an item, `differs`: `Dishonest` if the item breaks a
/// premise, and `Differs` if the kernel differs from the rules there.
fn reported(differs: Differs) -> Verdict
    ensures { result ≡ reported differs }
{
    match differs.cause {
        Difference::Premise(cause) => Verdict::Dishonest(NotHonest {
            item: differs.item,
            cause,
        }),
        _ => Verdict::Differs(differs),
    }
}

/// Returns the verdict on `items`. `ended` is what [`compare_whole`] returned for them.
pub fn verdict_of(ended: Result<RefusedEvents, Differs>, items: &[Observed]) -> Verdict
    ensures { MatchResult ended (λ refused. result ≡ Honest (counted items.now refused))
        (λ differs. result ≡ reported differs) }
{
    match ended {
        Ok(refused) => Verdict::Honest(counted(items, refused)),
        Err(differs) => reported(differs),
    }
}

/// A trace that is compared with a manager.
#[derive(Drop)]
struct Watched<'a> {
    trace: &'a [u8],
}

impl ManagerUse for Watched<'_> {
    type Done = Result<Verdict, Fault>;

    ghost comes_to = { λ before _ booted ended. WatchesBy booted before.trace.now ended };

    /// Reads the trace with the names of the manager's catalog, compares it with the manager, and returns the verdict.
    /// Returns `Err` if the trace has a fault, or if memory runs out.
    fn run(&mut self, alloc: Global, manager: &mut Manager) -> Result<Verdict, Fault> {
        let trace = Trace::read(alloc, self.trace, manager)?;
        let ended = compare_whole(manager, &trace.items);
        Ok(verdict_of(ended, &trace.items))
    }
}

/// Boots a manager with the catalog's text, and judges a trace by what that manager does. Two questions are answered:
/// whether each item keeps the premises of the consistency model, and whether the kernel answered and showed what the
/// rules say. No event is refused because the journal is full, so the verdict is on the whole trace, even on a long
/// one. Returns `Err` if the catalog or the trace has a fault, or if memory runs out.
pub fn watch_over_text(alloc: Global, catalog: &[u8], trace: &[u8]) -> Result<Verdict, Fault>
    ensures { Watches catalog.now trace.now result }
{
    over_text(alloc, catalog, &mut Watched { trace })?
}

/// Returns the word by which klpwatch prints a premise that is broken.
fn name_of(cause: Cause) -> &'static str
    ensures { result.now ≡ cause_text cause }
{
    match cause {
        Cause::NotOpening => "NotOpening",
        Cause::Frames => "Frames",
        Cause::FramesLeft => "FramesLeft",
        Cause::ModuleInUse => "ModuleInUse",
        Cause::Forced => "Forced",
        Cause::NoCall => "NoCall",
        Cause::NoReturn => "NoReturn",
        Cause::Deep => "Deep",
    }
}

/// Returns the word by which klpwatch prints a difference between the kernel and the rules, or a premise that is
/// broken.
fn name_of_difference(difference: Difference) -> &'static str
    ensures { result.now ≡ difference_text difference }
{
    match difference {
        Difference::Premise(cause) => name_of(cause),
        Difference::Answer => "Answer",
        Difference::State => "State",
        Difference::Files => "Files",
        Difference::Version => "Version",
        Difference::Text => "Text",
    }
}

/// Writes the verdict as one line. For an honest trace: `honest`, and how many events, calls and returns there are,
/// then how many answers and sights were compared, if there are any. For another trace: the number and the fault of the
/// item.
fn print<W: Write>(verdict: Verdict, out: &mut W) -> io::Result<()>
    ensures { OnOk result (Appends (W.contents out.old) (W.contents out.new) (verdict_text verdict)) }
{
    match verdict {
        Verdict::Honest(counts) if counts.compared == 0 => writeln!(
            out,
            "honest {} {} {}",
            counts.events, counts.calls, counts.returns
        ),
        Verdict::Honest(counts) => writeln!(
            out,
            "honest {} {} {} {}",
            counts.events, counts.calls, counts.returns, counts.compared
        ),
        Verdict::Dishonest(fault) => writeln!(out, "line {}: {}", fault.item, name_of(fault.cause)),
        Verdict::Differs(differs) => writeln!(
            out,
            "line {}: {}",
            differs.item,
            name_of_difference(differs.cause)
        ),
    }
}

/// Returns the exit status of a verdict. The status is 0 if the trace is honest and the kernel does as the rules say,
/// otherwise 3.
pub fn status_of(verdict: Verdict) -> u8
    ensures { result ≡ verdict_status verdict }
{
    match verdict {
        Verdict::Honest(_) => HONEST,
        Verdict::Dishonest(_) | Verdict::Differs(_) => REFUTED,
    }
}

/// Judges a trace over a catalog's text, writes the verdict to `out` as one line, and returns it. Returns `Err` if
/// there is no verdict, or if the line can't be written.
pub fn watch_trace<W: Write>(
    alloc: Global,
    catalog: &[u8],
    trace: &[u8],
    out: &mut W,
) -> Result<Verdict, Fault>
    ensures { Prints catalog.now trace.now (W.contents out.old) (W.contents out.new) result }
{
    let verdict = match watch_over_text(alloc, catalog, trace) {
        Ok(verdict) => verdict,
        Err(fault) => return Err(fault),
    };
    match print(verdict, out) {
        Ok(()) => Ok(verdict),
        Err(_) => Err(Fault::Serve(ServeFault::Write)),
    }
}
