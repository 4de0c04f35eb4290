//! Follows a log while it grows.
use crate::faults::FaultyLine;
use crate::{FAULTY, NAME, NO_MEMORY};
use klp_capture_catalog::KnownPatches;
use klp_capture_follow::{Feed, FollowFault};
use klp_diagnostics::STANDARD_INPUT;
use klp_messages::Escaped;
use std::io::{Input, IsTerminal, Read, Write};
use std::time::Duration;
use std::{fs, io, thread};

/// How long a file is left alone that has no more bytes yet, in milliseconds.
const PAUSE: u64 = 200;

/// The file that standard input is, where the system has such files.
const STANDARD_INPUT_FILE: &str = "/dev/stdin";

/// How many bytes are read at once.
const CHUNK: usize = 1 << 16;

/// Why a log isn't followed any further.
#[derive(Drop)]
enum Stop {
    /// The log can't be read.
    Read(io::Error),
    Follow(FollowFault),
}

impl From<io::Error> for Stop {
    fn from(e: io::Error) -> Stop {
        Stop::Read(e)
    }
}

impl From<FollowFault> for Stop {
    fn from(e: FollowFault) -> Stop {
        Stop::Follow(e)
    }
}

/// Reads a log as it comes, and tells each change, until the log has its last line. If the log doesn't grow, such as a
/// pipe, it also ends where its bytes end.
fn follow_bytes<L: Read, W: Write>(
    rt: &HostRuntime,
    log: &mut L,
    may_grow: bool,
    feed: &mut Feed<'_>,
    out: &mut W,
) -> Result<(), Stop> {
    let mut buffer = Vec::new(rt.alloc());
    buffer
        .resize(CHUNK, 0u8)
        .map_err(|_| io::Error::from(io::ErrorKind::OutOfMemory))?;
    for _round in 0..u64::MAX {
        let count = log.read(buffer.as_mut_slice())?;
        if count > 0 {
            feed.take(buffer.get(..count).unwrap_or(&[]), out)?;
        }
        if feed.has_ended() || (count == 0 && !may_grow) {
            break;
        }
        if count == 0 {
            thread::sleep(rt, Duration::from_millis(PAUSE));
        }
    }
    feed.close(out)?;
    Ok(())
}

/// Follows a log that is a file, a pipe, or standard input. Standard input is read where it is, since a small system has
/// no `/dev/stdin`; there it is taken for a pipe.
fn follow_in<W: Write>(
    rt: &HostRuntime,
    path: &str,
    feed: &mut Feed<'_>,
    out: &mut W,
) -> Result<(), Stop> {
    if path == STANDARD_INPUT {
        let may_grow = match fs::metadata(rt, STANDARD_INPUT_FILE) {
            Ok(about) => about.is_file(),
            Err(_) => false,
        };
        return follow_bytes(rt, &mut rt.reader(), may_grow, feed, out);
    }
    let mut log = fs::open(rt, path)?;
    let may_grow = fs::metadata(rt, path)?.is_file();
    follow_bytes(rt, &mut log, may_grow, feed, out)
}

/// Writes why a log isn't followed any further.
fn tell<E: Write>(path: &str, stop: &Stop, err: &mut E) {
    let name = Escaped(path.as_bytes());
    let _ = match stop {
        Stop::Read(error) => writeln!(err, "{NAME}: {name}: {error}"),
        Stop::Follow(FollowFault::Write(error)) => {
            writeln!(err, "{NAME}: standard output: {error}")
        }
        Stop::Follow(FollowFault::NoMemory) => writeln!(err, "{NAME}: {name}: {NO_MEMORY}"),
        Stop::Follow(FollowFault::Catalog(fault)) => {
            writeln!(err, "{NAME}: {name}: the log makes no catalog: {fault}")
        }
        Stop::Follow(FollowFault::Line(fault, line)) => {
            let faulty = FaultyLine {
                fault: *fault,
                log: line,
                before: fault.line.saturating_sub(1),
            };
            writeln!(err, "{NAME}: {name}: {faulty}")
        }
    };
}

/// Follows a log, and returns the exit status: that of the latest two samples, or 1 if the log can't be followed to its
/// end.
pub(crate) fn follow<W: Write, E: Write>(
    rt: &HostRuntime,
    path: &str,
    known: &KnownPatches,
    out: &mut W,
    err: &mut E,
) -> u8 {
    let mut feed = Feed::new(rt.alloc(), known, rt.stdout().is_terminal());
    match follow_in(rt, path, &mut feed, out) {
        Ok(()) => feed.status(),
        Err(stop) => {
            tell(path, &stop, err);
            FAULTY
        }
    }
}
