//! Boots a manager with a catalog's text, and serves the console with the manager.
ghost use Rattle.std.specs.Prelude.{◌≡◌, ◌≤◌};
ghost use Rattle.klp_program.specs.Runs.{Exits, Runs, RunsOver, ServesBy};

use crate::arguments::report_fault;
use klp_boot::{Fault, ManagerUse};
use klp_console::{Served, serve};
use klp_console_io::{OverRead, OverWrite, Sink, Source};
use klp_core::Manager;
use std::alloc::Global;
use std::io::{Read, Write};
use std::marker::Brand;
use std::sync::ledger::{Blank, Ledger};

/// The console between a reader and a writer.
#[derive(Drop)]
struct Session<'a, R, W> {
    reader: &'a mut R,
    writer: &'a mut W,
}

impl<R: Source, W: Sink> ManagerUse for Session<'_, R, W> {
    type Done = Result<Served, Fault>;

    ghost comes_to = { λ before after booted ended.
        (after.reader.ghost_name ≡ before.reader.ghost_name) × (after.writer.ghost_name ≡ before.writer.ghost_name)
        × ServesBy booted (record { supply = R.supply before.reader.now; written = W.written before.writer.now })
        (record { supply = R.supply after.reader.now; written = W.written after.writer.now }) ended };

    /// Serves the console with the manager until the input ends. Returns `Err` if the input or the output fails, or if
    /// a line is too long.
    fn run(&mut self, _alloc: Global, manager: &mut Manager) -> Result<Served, Fault> {
        match serve(self.reader, self.writer, manager) {
            Ok(served) => Ok(served),
            Err(fault) => Err(Fault::Serve(fault)),
        }
    }
}

/// Boots a manager over the catalog's text, and serves the console with it until the input ends. If the text has a
/// fault, nothing is read or written.
pub fn over_text<R: Source, W: Sink>(
    alloc: Global,
    catalog: &[u8],
    reader: &mut R,
    writer: &mut W,
) -> Result<Served, Fault>
    ensures { Runs catalog.now (record { supply = R.supply reader.old; written = W.written writer.old })
        (record { supply = R.supply reader.new; written = W.written writer.new }) result }
{
    let mut session = Session { reader, writer };
    klp_boot::over_text(alloc, catalog, &mut session)?
}

/// Serves the console with a catalog's text between two streams of std, and returns the streams with the result. For
/// the proof only: `reads` and `writes` are tokens by which contracts know all that was read and written.
fn over_std<R: Read, W: Write, L: Ledger, M: Ledger>(
    alloc: Global,
    catalog: &[u8],
    input: R,
    out: W,
    reads: Blank,
    writes: Blank,
) -> (Result<Served, Fault>, R, W)
    requires reads { (reads.name ≡ L.name) × (reads.parts ≡ L.parts) × (3 ≤ reads.parts) }
    requires writes { (writes.name ≡ M.name) × (writes.parts ≡ M.parts) × (2 ≤ writes.parts) }
    ensures { RunsOver catalog.now (record { left = R.remaining input; taken = W.contents out })
        (record { left = R.remaining result.1; taken = W.contents result.2 }) result.0 }
{
    let mut reader = OverRead::<R, L>::new(input, reads);
    let mut writer = OverWrite::<W, M>::new(out, writes);
    let ended = over_text(alloc, catalog, &mut reader, &mut writer);
    (ended, reader.into_inner(), writer.into_inner())
}

/// Serves the console with a catalog's text until the input ends. Returns the exit status: 0, or 1 after a fault.
/// Writes a line about the fault to `err`. If the catalog has a fault, reads nothing and writes nothing to `out`.
/// Returns both streams too, so that contracts know what the streams have afterwards, if they knew it before.
pub fn console<R: Read, W: Write, E: Write>(
    alloc: Global,
    catalog: &[u8],
    input: R,
    out: W,
    err: &mut E,
) -> (u8, R, W)
    ensures { Exits catalog.now (record { left = R.remaining input; taken = W.contents out })
        (record { left = R.remaining result.1; taken = W.contents result.2 }) result.0 }
{
    // For the proof only: a reader needs a blank with three parts, and a writer one with two.
    let reads = Blank::new(3);
    let writes = Blank::new(2);
    let (ended, input, out) = over_std::<R, W, Brand, Brand>(
        alloc, catalog, input, out, reads, writes,
    );
    let status = match ended {
        Ok(_) => 0,
        Err(fault) => report_fault(fault, err),
    };
    (status, input, out)
}
