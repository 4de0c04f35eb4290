//! The program `klpwatch`. It boots a manager over a catalog, and judges a trace with it. The verdict goes to standard
//! output: that the trace is honest and the kernel does as the rules say, or the first line at which one of the two
//! fails. What is wrong in that line goes to standard error.
#![tactic(auto)]

use klp_arguments::{Program, WatchWords, given_words, watch_words};
use klp_diagnostics::{FileKind, FileText, Inputs, file_in, only_one_input};
use klp_program::{status_of, watch_trace};
use std::alloc::Global;
use std::io;
use std::io::{Input, Write};

const NAME: &str = "klpwatch";

/// Judges the trace, writes the verdict to `out`, and writes hints and what is wrong to `err`. Returns the exit status.
fn watch<W: Write, E: Write>(alloc: Global, inputs: &Inputs<'_>, out: &mut W, err: &mut E) -> u8 {
    inputs.hint(err);
    match watch_trace(alloc, inputs.catalog.bytes, inputs.second.bytes, out) {
        Ok(verdict) => {
            inputs.print_verdict(alloc, verdict, err);
            status_of(verdict)
        }
        Err(fault) => inputs.print_fault(alloc, fault, err),
    }
}

/// Reads the arguments and the two files, and judges the trace. Returns the exit status. Returns it as `Err` if the
/// trace isn't judged: help was asked for, the arguments are refused, or a file can't be read.
fn status_in(rt: &HostRuntime) -> Result<u8, u8> {
    let (mut out, mut err) = (io::writer(rt), rt.stderr());
    let given = given_words(rt, Program::Klpwatch, &mut out, &mut err)?;
    let WatchWords { catalog, trace } = watch_words(rt.alloc(), &given, &mut out, &mut err)?;
    only_one_input(NAME, catalog, trace, &mut err)?;
    let first = file_in(rt, NAME, catalog, &mut err)?;
    let second = file_in(rt, NAME, trace, &mut err)?;
    let inputs = Inputs {
        program: NAME,
        catalog: FileText {
            name: catalog,
            bytes: &first,
        },
        second: FileText {
            name: trace,
            bytes: &second,
        },
        kind: FileKind::Trace,
    };
    Ok(watch(rt.alloc(), &inputs, &mut out, &mut err))
}

/// Runs klpwatch with the arguments of the process, and returns the exit status.
pub fn run(rt: &HostRuntime) -> u8 {
    let (Ok(status) | Err(status)) = status_in(rt);
    status
}
