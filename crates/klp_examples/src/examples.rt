//! Runs each example. A script must print its output and nothing else. It must do so even if a read gives only a few
//! bytes, and a write accepts only a few. It must also do so if no memory is left once a manager is booted. An example
//! without cut reads and writes may take five seconds at most. ./tests tries traces and refused input, with the
//! programs that the gate has built.

use crate::case::Case;
use crate::few::Few;
use crate::starved;
use crate::tally::Tally;
use klp_program::console;
use std::alloc::Global;
use std::io;
use std::rt::{Clock, Files};
use std::time::Instant;

/// The most seconds that an example may take.
const SECONDS: u64 = 5;

/// The way in which an example is run.
#[derive(Clone, Copy)]
enum Way {
    /// Reads and writes aren't cut. The run may take five seconds at most.
    AtOnce,
    /// A read gives at most the first number of bytes, and a write accepts at most the second.
    Cut(usize, usize),
    /// No memory is left once a manager is booted.
    Starved,
}

/// All ways in which an example is run. Each way has the text that is written if the example fails.
const WAYS: [(Way, &str); 6] = [
    (Way::AtOnce, "differs, or takes more than five seconds"),
    (Way::Cut(1, usize::MAX), "differs, read byte by byte"),
    (Way::Cut(usize::MAX, 1), "differs, written byte by byte"),
    (Way::Cut(3, 3), "differs, three bytes at a time"),
    (Way::Cut(8, 8), "differs, eight bytes at a time"),
    (Way::Starved, "differs, without memory"),
];

/// Whether the script prints its output if a read gives at most `read` bytes, and a write accepts at most `written`.
fn is_served(alloc: Global, case: &Case, read: usize, written: usize) -> bool {
    let mut input = Few::new(case.input.as_slice(), read);
    let mut out = Vec::new(alloc);
    let mut err = Vec::new(alloc);
    let mut few = Few::new(&mut out, written);
    let (status, ..) = console(alloc, &case.catalog, &mut input, &mut few, &mut err);
    case.is_met(status, &out, &err)
}

/// Whether the script prints its output in time, with reads and writes that aren't cut.
fn is_quick<R: Clock>(rt: &R, alloc: Global, case: &Case) -> io::Result<bool> {
    let start = Instant::now(rt)?;
    let is_served = is_served(alloc, case, usize::MAX, usize::MAX);
    let passed = Instant::now(rt)?.saturating_duration_since(start);
    Ok(is_served && passed.as_secs() < SECONDS)
}

/// Whether the example prints its output if it is run in this way.
fn holds<R: Clock>(rt: &R, alloc: Global, case: &Case, way: Way) -> io::Result<bool> {
    match way {
        Way::AtOnce => is_quick(rt, alloc, case),
        Way::Cut(read, written) => Ok(is_served(alloc, case, read, written)),
        Way::Starved => Ok(starved::is_served(alloc, case)?),
    }
}

/// Whether the example of this line prints its output in all ways. Writes each way in which it doesn't. If the function
/// owned the example, each return would drop the example, so it borrows it.
fn holds_all<R: Clock + Print + AllocGlobal>(rt: &R, line: &str, case: &Case) -> io::Result<bool> {
    let mut all = true;
    for (way, fault) in &WAYS {
        if !holds(rt, rt.alloc(), case, *way)? {
            all = false;
            println!(rt; "{line}: {fault}")?;
        }
    }
    Ok(all)
}

/// Reads the example of this line from its files. Returns whether it prints its output in all ways.
fn holds_line<R: Clock + Files + Print + AllocGlobal>(rt: &R, line: &str) -> io::Result<bool> {
    let case = Case::read(rt, line)?;
    holds_all(rt, line, &case)
}

/// Runs the examples of an index, and counts those that print their output. Each line of the index has a name, for
/// `NAME.script` and `NAME.output`. If the catalog has another name, the line also has this name, for
/// `CATALOG.catalog`. A line that begins with `#` says what the lines behind it show.
pub(crate) fn run<R: Clock + Files + Print + AllocGlobal>(
    rt: &R,
    index: &str,
    tally: &mut Tally,
) -> io::Result<()> {
    for line in index.lines() {
        if !line.starts_with('#') {
            tally.count(holds_line(rt, line)?);
        }
    }
    Ok(())
}
