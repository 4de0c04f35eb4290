//! The program `klpsee`. It reads a log of `klpcap`, and says what is in transition since when, who holds it up, and
//! whether some run of the rules shows what was recorded. It says this in words, or for programs. If a folder is given,
//! it also writes a catalog, a trace, the names of the tasks and a page there. It follows a log that still grows, and
//! answers for the logs of many machines, in a line for each or in numbers for Prometheus.
#![tactic(auto)]

mod faults;
mod files;
mod fleet;
mod follow;
mod known;
mod log;

use crate::files::{Source, write_files};
use crate::fleet::answer_for_all;
use crate::follow::follow;
use crate::known::{known_in, tell_unknown};
use crate::log::{explain_log, no_memory, read_log, report_on};
use klp_arguments::{Program, SeeWords, given_words, see_words};
use klp_capture_catalog::KnownPatches;
use klp_capture_report::{Report, print_json, print_report};
use klp_diagnostics::{STANDARD_INPUT, file_in, only_one_input};
use klp_messages::Escaped;
use std::alloc::Global;
use std::io;
use std::io::{Input, Write};

const NAME: &str = "klpsee";

/// The exit status of faulty files and lines, and if the answer can't be written.
const FAULTY: u8 = 1;

/// What is told of a log for whose answer there is no memory.
const NO_MEMORY: &str = "memory ran out";

/// Writes the report in the form that is asked for.
fn print<W: Write>(alloc: Global, is_json: bool, report: &Report, out: &mut W) -> io::Result<()> {
    if is_json {
        print_json(alloc, report, out)
    } else {
        print_report(report, out)
    }
}

/// Returns the exit status of an answer that was written. If it couldn't be written, writes why to `err`, and returns
/// that of this fault.
fn status_of<E: Write>(status: u8, written: io::Result<()>, err: &mut E) -> u8 {
    match written {
        Ok(()) => status,
        Err(error) => {
            let _ = writeln!(err, "{NAME}: standard output: {error}");
            FAULTY
        }
    }
}

/// Explains a log and writes what it shows. Returns the exit status, as `Err` if the log is faulty, or a file can't be
/// written. A log that was made before a patch was loaded has no transition to explain.
fn see<W: Write, E: Write>(
    rt: &HostRuntime,
    words: &SeeWords<'_>,
    known: &KnownPatches,
    path: &str,
    log: &[u8],
    out: &mut W,
    err: &mut E,
) -> Result<u8, u8> {
    let alloc = rt.alloc();
    let capture = read_log(alloc, path, log, err)?;
    let found = explain_log(alloc, path, &capture, known, err)?;
    tell_unknown(words.catalog, known, &found, err);
    let source = Source {
        file: path,
        capture: &capture,
    };
    if let Some(folder) = words.folder
        && let Err(error) = write_files(rt, folder, source, &found)
    {
        let folder = Escaped(folder.as_bytes());
        let _ = writeln!(err, "{NAME}: {folder}: {error}");
        return Err(FAULTY);
    }
    let mut report = report_on(alloc, path, &capture, &found, err)?;
    if let Some(catalog) = words.catalog {
        match String::from_str(alloc, catalog) {
            Ok(catalog) => report.catalog = Some(catalog),
            Err(_) => return Err(no_memory(path, err)),
        }
    }
    let written = print(alloc, words.is_json, &report, out);
    Ok(status_of(report.status(), written, err))
}

/// Returns the program's exit status. Returns it as `Err` if the arguments are refused, or if a file can't be read.
fn status_in(rt: &HostRuntime) -> Result<u8, u8> {
    let (mut out, mut err) = (io::writer(rt), rt.stderr());
    let given = given_words(rt, Program::Klpsee, &mut out, &mut err)?;
    let words = see_words(rt.alloc(), &given, &mut out, &mut err)?;
    if 1 < words
        .logs
        .iter()
        .chain(&words.catalog)
        .filter(|path| **path == STANDARD_INPUT)
        .count()
    {
        only_one_input(NAME, STANDARD_INPUT, STANDARD_INPUT, &mut err)?;
    }
    let known = known_in(rt, words.catalog, &mut err)?;
    match words.logs.as_slice() {
        [path] if words.follows => Ok(follow(rt, path, &known, &mut out, &mut err)),
        [path] if !words.is_metrics => {
            let log = file_in(rt, NAME, path, &mut err)?;
            see(rt, &words, &known, path, &log, &mut out, &mut err)
        }
        _ => Ok(answer_for_all(rt, &words, &known, &mut out, &mut err)),
    }
}

/// Runs the program, and returns the exit status.
pub fn run(rt: &HostRuntime) -> u8 {
    let (Ok(status) | Err(status)) = status_in(rt);
    status
}
