//! Reads a log, explains it and reports on it. What is at fault is written to standard error.
use crate::faults::FaultyLine;
use crate::{FAULTY, NAME, NO_MEMORY};
use klp_boot::Fault;
use klp_capture::Capture;
use klp_capture_answer::report_of;
use klp_capture_catalog::KnownPatches;
use klp_capture_report::Report;
use klp_capture_run::{Explained, explain};
use klp_messages::Escaped;
use std::alloc::Global;
use std::io::Write;

/// Reads a log's lines. If a line is at fault, writes which one and why to `err`, and returns the exit status as `Err`.
pub(crate) fn read_log<'a, E: Write>(
    alloc: Global,
    path: &str,
    log: &'a [u8],
    err: &mut E,
) -> Result<Capture<'a>, u8> {
    match Capture::read(alloc, log) {
        Ok(capture) => Ok(capture),
        Err(fault) => {
            let name = Escaped(path.as_bytes());
            let faulty = FaultyLine {
                fault,
                log,
                before: 0,
            };
            let _ = writeln!(err, "{NAME}: {name}: {faulty}");
            Err(FAULTY)
        }
    }
}

/// Looks for a run of the rules that shows what a log shows. If the log makes no catalog, or if memory runs out, writes
/// so to `err`, and returns the exit status as `Err`.
pub(crate) fn explain_log<'a, E: Write>(
    alloc: Global,
    path: &str,
    capture: &Capture<'a>,
    known: &'a KnownPatches,
    err: &mut E,
) -> Result<Explained<'a>, u8> {
    match explain(alloc, capture, known) {
        Ok(found) => Ok(found),
        Err(Fault::NoMemory) => Err(no_memory(path, err)),
        Err(fault) => {
            let name = Escaped(path.as_bytes());
            let _ = writeln!(err, "{NAME}: {name}: the log makes no catalog: {fault}");
            Err(FAULTY)
        }
    }
}

/// Writes to `err` that there was no memory for a log's answer, and returns the exit status.
pub(crate) fn no_memory<E: Write>(path: &str, err: &mut E) -> u8 {
    let name = Escaped(path.as_bytes());
    let _ = writeln!(err, "{NAME}: {name}: {NO_MEMORY}");
    FAULTY
}

/// Reports on a log. If memory runs out, writes so to `err`, and returns the exit status as `Err`.
pub(crate) fn report_on<E: Write>(
    alloc: Global,
    path: &str,
    capture: &Capture<'_>,
    found: &Explained<'_>,
    err: &mut E,
) -> Result<Report, u8> {
    match report_of(alloc, capture, found) {
        Ok(report) => Ok(report),
        Err(_) => Err(no_memory(path, err)),
    }
}
