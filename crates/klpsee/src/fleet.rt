//! Answers for the logs of many machines.
use crate::log::{explain_log, no_memory, read_log, report_on};
use crate::{FAULTY, NAME, status_of};
use klp_arguments::SeeWords;
use klp_capture_catalog::KnownPatches;
use klp_capture_fleet::{Machine, print_metrics, print_overview};
use klp_diagnostics::file_in;
use std::io::Write;

/// Returns the answer to a log. If there is none, writes why to `err`, and returns the exit status as `Err`.
fn machine_of<E: Write>(
    rt: &HostRuntime,
    path: &str,
    known: &KnownPatches,
    err: &mut E,
) -> Result<Machine, u8> {
    let alloc = rt.alloc();
    let log = file_in(rt, NAME, path, err)?;
    let capture = read_log(alloc, path, &log, err)?;
    let found = explain_log(alloc, path, &capture, known, err)?;
    let report = report_on(alloc, path, &capture, &found, err)?;
    match String::from_str(alloc, path) {
        Ok(file) => Ok(Machine { file, report }),
        Err(_) => Err(no_memory(path, err)),
    }
}

/// Answers for all logs that can be read: a line for each machine, or numbers. Returns the worst exit status of all logs,
/// or 1 if a log can't be read or the answer can't be written.
pub(crate) fn answer_for_all<W: Write, E: Write>(
    rt: &HostRuntime,
    words: &SeeWords<'_>,
    known: &KnownPatches,
    out: &mut W,
    err: &mut E,
) -> u8 {
    let mut machines = Vec::new(rt.alloc());
    let (mut worst, mut is_whole): (u8, bool) = (0, true);
    for path in &words.logs {
        match machine_of(rt, path, known, err) {
            Ok(machine) => {
                worst = worst.max(machine.report.status());
                if machines.push(machine).is_err() {
                    is_whole = false;
                    no_memory(path, err);
                }
            }
            Err(_) => is_whole = false,
        }
    }
    let written = if words.is_metrics {
        print_metrics(rt.alloc(), &machines, out)
    } else {
        print_overview(rt.alloc(), machines.as_mut_slice(), out)
    };
    let status = if is_whole { worst } else { FAULTY };
    status_of(status, written, err)
}
