//! The program `klppage`. It boots a manager over a catalog, serves a script or plays a trace, and writes a page of the
//! run to standard output. A file of names may say what tasks are called, and when lines were. What is wrong, and where,
//! goes to standard error.
#![tactic(auto)]

use klp_arguments::{PageWords, Program, given_words, page_words};
use klp_boot::Fault;
use klp_diagnostics::{FileKind, FileText, Inputs, STANDARD_INPUT, file_in, only_one_input};
use klp_names::{Misread, Names, NamesFault};
use klp_page::write_page;
use klp_trace_page::{timed_names, write_trace_page};
use std::alloc::{AllocError, Global};
use std::io;
use std::io::{Input, Write};

/// The name of the program in its messages.
const NAME: &str = "klppage";

/// The exit status if a file is faulty or can't be read.
const FAULT: u8 = 1;

/// Returns the part of a path after its last slash. Standard input has a name in words.
fn file_name(path: &str) -> &str {
    if path == STANDARD_INPUT {
        return "standard input";
    }
    match path.rsplit_once('/') {
        Some((_, name)) => name,
        None => path,
    }
}

/// Returns a script in which each line that begins with `#` is empty, so that the console skips it, and all other lines
/// keep their numbers. Returns `Err` if memory runs out.
fn without_comments(alloc: Global, script: &[u8]) -> Result<Vec<u8>, AllocError> {
    let mut served = Vec::new(alloc);
    for (place, line) in script.split(|b| *b == b'\n').enumerate() {
        if place > 0 {
            served.push(b'\n')?;
        }
        if line.first() != Some(&b'#') {
            served.extend_from_slice(line)?;
        }
    }
    Ok(served)
}

/// Writes the page of the second file, a script or a trace, to `out`. The page's title is the name of that file.
fn write<W: Write>(
    alloc: Global,
    inputs: &Inputs<'_>,
    names: &Names,
    out: &mut W,
) -> Result<(), Fault> {
    let name = file_name(inputs.second.name).as_bytes();
    let (catalog, run) = (inputs.catalog.bytes, inputs.second.bytes);
    match inputs.kind {
        FileKind::Script => {
            let served = without_comments(alloc, run)?;
            write_page(alloc, catalog, name, names, &served, out)
        }
        FileKind::Trace => write_trace_page(alloc, catalog, name, names, run, out),
    }
}

/// Writes hints at the inputs to `err`, and the page to `out`. If there is a fault, writes to `err` what is wrong and
/// where. Returns the exit status.
fn show<W: Write, E: Write>(
    alloc: Global,
    inputs: &Inputs<'_>,
    names: &Names,
    out: &mut W,
    err: &mut E,
) -> u8 {
    inputs.hint(err);
    if matches!(inputs.kind, FileKind::Script) {
        inputs.hint_misspelled(alloc, err);
    }
    match write(alloc, inputs, names, out) {
        Ok(()) => 0,
        Err(fault) => inputs.print_fault(alloc, fault, err),
    }
}

/// Reads the text of a file of names. If there is a trace, adds the times of its lines, unless they can't be read.
/// Returns the first faulty line of the text as `Err`.
fn names_of(alloc: Global, text: &[u8], trace: Option<&[u8]>) -> Result<Names, NamesFault> {
    let names = Names::read(alloc, text)?;
    match trace {
        Some(trace) => Ok(timed_names(alloc, text, trace).unwrap_or(names)),
        None => Ok(names),
    }
}

/// Reads the file of names, if one is given, and adds the times of the trace, if there is one. Without a file, there
/// are no names. If the file can't be read or has a faulty line, says so on `err`, and returns the exit status as
/// `Err`.
fn names_in<E: Write>(
    rt: &HostRuntime,
    file: Option<&str>,
    trace: Option<&[u8]>,
    err: &mut E,
) -> Result<Names, u8> {
    let (file, text) = match file {
        Some(file) => (file, file_in(rt, NAME, file, err)?),
        None => ("", Vec::new(rt.alloc())),
    };
    match names_of(rt.alloc(), &text, trace) {
        Ok(names) => Ok(names),
        Err(fault) => {
            let misread = Misread {
                file,
                text: &text,
                fault,
            };
            let _ = writeln!(err, "{NAME}: {misread}");
            Err(FAULT)
        }
    }
}

/// Returns the kind of the second file: a script or a trace.
fn kind_of(files: PageWords<'_>) -> FileKind {
    if files.is_trace {
        FileKind::Trace
    } else {
        FileKind::Script
    }
}

/// Reads the arguments and the files, writes the page, and returns the exit status. If it doesn't come to a page, since
/// the arguments are refused or ask for help, or a file can't be read, returns the status as `Err`, so that `?` ends the
/// function.
fn status_in(rt: &HostRuntime) -> Result<u8, u8> {
    let (mut out, mut err) = (io::writer(rt), rt.stderr());
    let given = given_words(rt, Program::Klppage, &mut out, &mut err)?;
    let files = page_words(rt.alloc(), &given, &mut out, &mut err)?;
    // At most one of the three files is standard input. The name that stands for no file of names isn't that of it.
    let names_file = files.names.unwrap_or("");
    only_one_input(NAME, files.catalog, files.run, &mut err)?;
    only_one_input(NAME, files.catalog, names_file, &mut err)?;
    only_one_input(NAME, files.run, names_file, &mut err)?;
    let catalog = file_in(rt, NAME, files.catalog, &mut err)?;
    let run = file_in(rt, NAME, files.run, &mut err)?;
    let trace = if files.is_trace {
        Some(run.as_slice())
    } else {
        None
    };
    // A trace gives its lines their times.
    let names = names_in(rt, files.names, trace, &mut err)?;
    let inputs = Inputs {
        program: NAME,
        catalog: FileText {
            name: files.catalog,
            bytes: &catalog,
        },
        second: FileText {
            name: files.run,
            bytes: &run,
        },
        kind: kind_of(files),
    };
    Ok(show(rt.alloc(), &inputs, &names, &mut out, &mut err))
}

/// Runs the program, and returns its exit status.
pub fn run(rt: &HostRuntime) -> u8 {
    let (Ok(status) | Err(status)) = status_in(rt);
    status
}
