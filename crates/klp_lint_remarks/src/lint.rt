//! Judges the patches of a catalog, and writes what is found.
ghost use Rattle.std.specs.Prelude.{◌≡◌, true, IfOk};
ghost use Rattle.klp_lint_worlds.specs.Whole.{IsCleanText};

use crate::mark_words::MarkFaultWords;
use crate::writing::{Form, write_findings};
use klp_boot::Fault;
use klp_console::ServeFault;
use klp_lint_findings::{LintInput, MarkFault};
use klp_lint_worlds::{LintFault, LintPlan, find_all};
use klp_messages::Escaped;
use std::alloc::Global;
use std::io;
use std::io::Write;

/// Why findings weren't written.
fn write_fault(error: &io::Error) -> Fault {
    if error.kind() == io::ErrorKind::OutOfMemory {
        Fault::NoMemory
    } else {
        Fault::Serve(ServeFault::Write)
    }
}

/// Judges the patches of a catalog, and writes what is found. Returns whether no finding makes the status 3. If so, each
/// patch of the text is ready in the worlds that are judged: it can be loaded, and leaves no trace.
pub fn lint_over_text<W: Write>(
    alloc: Global,
    input: LintInput<'_>,
    form: Form,
    out: &mut W,
) -> Result<bool, LintFault>
    ensures { IfOk result (λ clean. clean ≡ true → IsCleanText input.entry.catalog.bytes.now input.entry.script) }
{
    let plan = LintPlan::read(alloc, input.catalog.bytes)?;
    let found = find_all(alloc, input, &plan)?;
    match write_findings(alloc, form, &found, out) {
        Ok(()) => Ok(found.is_clean()),
        Err(error) => Err(LintFault::Program(write_fault(&error))),
    }
}

/// Writes which mark of the catalog is faulty, and what is wanted in its place. `program` is the name by which the
/// program calls itself. What can't be written is left out.
pub fn print_mark_fault<E: Write>(
    program: &str,
    input: LintInput<'_>,
    fault: MarkFault,
    err: &mut E,
) {
    let name = Escaped(input.catalog.name.as_bytes());
    let words = MarkFaultWords {
        text: input.catalog.bytes,
        fault,
    };
    let _ = writeln!(err, "{program}: {name}: {words}");
}
