//! Writes the files of a run to a folder.
use httpdate::{HttpDate, fmt_http_date};
use klp_boot::Fault;
use klp_capture::{Capture, Clock, Text};
use klp_capture_run::Explained;
use klp_messages::Escaped;
use klp_names::Names;
use klp_trace_page::{page_over_trace, timed_names};
use std::alloc::{AllocError, Global};
use std::fs::OpenOptions;
use std::io;
use std::io::Write;
use std::os::unix::fs::OpenOptionsExt;

/// The mode of each file, which only its owner may read: a log, and what is made of it, has addresses of a running
/// kernel.
const MODE: u32 = 0o600;

/// Where a page of a run comes from: a log, and the name of its file.
#[derive(Clone, Copy)]
pub(crate) struct Source<'l, 'a> {
    pub(crate) file: &'l str,
    pub(crate) capture: &'l Capture<'a>,
}

/// Adds by the time of day when the kernel's clock stood at the time that the log gives beside it. Adds nothing if the
/// time of day is past the year 9999.
fn add_time_of_day(alloc: Global, clock: Clock, title: &mut String) -> Result<(), AllocError> {
    let Ok(date) = HttpDate::from_unix_secs(clock.epoch) else {
        return Ok(());
    };
    let date = fmt_http_date(alloc, date)?;
    let uptime = clock.uptime;
    write!(title, ", begun {uptime} s after boot, on {date}")
}

/// Returns the title of the page: which log it shows, of which machine and kernel, and by which time of day the kernel's
/// clock is read.
fn title_of(alloc: Global, source: Source<'_, '_>) -> Result<String, AllocError> {
    let capture = source.capture;
    let (file, kernel) = (Escaped(source.file.as_bytes()), Text(capture.kernel));
    let mut title = format!(in alloc; "{file}: kernel {kernel}")?;
    if !capture.host.is_empty() {
        let host = Text(capture.host);
        write!(title, " on {host}")?;
    }
    if let Some(clock) = capture.clock {
        add_time_of_day(alloc, clock, &mut title)?;
    }
    Ok(title)
}

/// Writes a file that only its owner can read.
fn write_file(rt: &HostRuntime, folder: &str, name: &str, bytes: &[u8]) -> io::Result<()> {
    let path = format!(in rt.alloc(); "{folder}/{name}")?;
    let mut options = OpenOptions::new();
    options.write(true).create(true).truncate(true).mode(MODE);
    let mut file = options.open(rt, path.as_str())?;
    file.write_all(bytes)
}

/// Reads the names of the run's tasks, and adds the times of the run's lines. Returns `None` if memory runs out.
fn names_of(alloc: Global, names: &str, trace: &[u8]) -> Option<Names> {
    timed_names(alloc, names.as_bytes(), trace)
}

/// Returns the page of the run. `Err` if memory runs out.
fn page_of(
    alloc: Global,
    source: Source<'_, '_>,
    found: &Explained<'_>,
    names: &str,
) -> Result<Vec<u8>, Fault> {
    let trace = found.trace().as_bytes();
    let title = title_of(alloc, source)?;
    match names_of(alloc, names, trace) {
        Some(names) => page_over_trace(
            alloc,
            found.catalog.as_bytes(),
            title.as_bytes(),
            &names,
            found.run.set_up(),
            trace,
        ),
        None => Err(Fault::from(AllocError)),
    }
}

/// Writes the catalog, the trace, the names of the tasks, and last a page of the run. If there is no memory for the
/// page, the other files are still written.
pub(crate) fn write_files(
    rt: &HostRuntime,
    folder: &str,
    source: Source<'_, '_>,
    found: &Explained<'_>,
) -> io::Result<()> {
    let names = found.names(rt.alloc())?;
    write_file(rt, folder, "run.catalog", found.catalog.as_bytes())?;
    write_file(rt, folder, "run.trace", found.trace().as_bytes())?;
    write_file(rt, folder, "run.names", names.as_bytes())?;
    match page_of(rt.alloc(), source, found, names.as_str()) {
        Ok(page) => write_file(rt, folder, "run.html", &page),
        Err(_) => Err(io::Error::from(io::ErrorKind::OutOfMemory)),
    }
}
