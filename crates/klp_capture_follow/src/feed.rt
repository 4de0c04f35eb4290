//! Takes the bytes of a log as they come, and tells each change.
use crate::follower::Follower;
use crate::status::Status;
use crate::window::{Taken, Window};
use klp_boot::Fault;
use klp_capture::{BootTime, Capture, CaptureFault};
use klp_capture_answer::report_of;
use klp_capture_catalog::KnownPatches;
use klp_capture_report::Times;
use klp_capture_run::explain;
use std::alloc::{AllocError, AllocFailed, Global};
use std::io;
use std::io::Write;

/// How wide a status may be at a terminal, in letters.
const COLUMNS: usize = 79;

/// What a terminal needs to write over its last line: the line's begin, and to clear it.
const OVER: &str = "\r\u{1b}[K";

/// Why a log isn't followed any further.
#[derive(Drop)]
pub enum FollowFault {
    /// A line of the log is faulty. It is given along.
    Line(CaptureFault, Vec<u8>),
    /// The names of the log make no catalog.
    Catalog(Fault),
    NoMemory,
    /// A change couldn't be written.
    Write(io::Error),
}

impl From<AllocError> for FollowFault {
    fn from(_e: AllocError) -> FollowFault {
        FollowFault::NoMemory
    }
}

impl<T: Drop> From<AllocFailed<T>> for FollowFault {
    fn from(_e: AllocFailed<T>) -> FollowFault {
        FollowFault::NoMemory
    }
}

impl From<io::Error> for FollowFault {
    fn from(e: io::Error) -> FollowFault {
        FollowFault::Write(e)
    }
}

impl From<Fault> for FollowFault {
    fn from(e: Fault) -> FollowFault {
        FollowFault::Catalog(e)
    }
}

/// A log that is followed.
#[derive(Drop)]
pub struct Feed<'k> {
    alloc: Global,
    known: &'k KnownPatches,
    window: Window,
    follower: Follower,
    /// The bytes of a line that isn't whole yet.
    line: Vec<u8>,
    /// When the latest sample was begun. `None` before the first sample.
    at: Option<BootTime>,
    /// Which times of day the times of the latest sample are.
    times: Times,
    /// Whether the answers go to a terminal, whose last line is the state after the latest sample.
    is_terminal: bool,
    /// Whether the terminal's last line has a status.
    has_status: bool,
    /// Whether the log has its last line.
    has_ended: bool,
    status: u8,
}

impl<'k> Feed<'k> {
    /// Returns a feed before the first byte of a log. `known` has what the log doesn't show of its patches.
    pub fn new(alloc: Global, known: &'k KnownPatches, is_terminal: bool) -> Feed<'k> {
        Feed {
            alloc,
            known,
            window: Window::new(alloc),
            follower: Follower::new(alloc),
            line: Vec::new(alloc),
            at: None,
            times: Times::new(None, 0),
            is_terminal,
            has_status: false,
            has_ended: false,
            status: 0,
        }
    }

    /// Whether the log has its last line.
    pub fn has_ended(&self) -> bool {
        self.has_ended
    }

    /// Returns the exit status of `klpsee` for the latest two samples.
    pub fn status(&self) -> u8 {
        self.status
    }

    /// Takes more bytes of the log, and tells each change that they bring. A line is looked at once it is whole.
    pub fn take<W: Write>(&mut self, bytes: &[u8], out: &mut W) -> Result<(), FollowFault> {
        for byte in bytes {
            if self.has_ended {
                break;
            }
            if *byte == b'\n' {
                self.take_line(out)?;
                self.line.clear();
            } else {
                self.line.push(*byte)?;
            }
        }
        Ok(())
    }

    fn take_line<W: Write>(&mut self, out: &mut W) -> Result<(), FollowFault> {
        match self.window.take(&self.line) {
            Ok(Taken::Part) => Ok(()),
            Ok(Taken::Sample) => self.judge(out),
            Ok(Taken::End) => {
                self.has_ended = true;
                Ok(())
            }
            Err(fault) => Err(self.faulty(fault)?),
        }
    }

    /// Returns the fault of the latest line, with the line.
    fn faulty(&self, fault: CaptureFault) -> Result<FollowFault, AllocError> {
        let mut line = Vec::new(self.alloc);
        line.extend_from_slice(&self.line)?;
        let fault = CaptureFault {
            line: self.window.lines(),
            kind: fault.kind,
        };
        Ok(FollowFault::Line(fault, line))
    }

    /// Answers for the sample that is whole now and the one before, and tells what has changed.
    fn judge<W: Write>(&mut self, out: &mut W) -> Result<(), FollowFault> {
        let text = self.window.text()?;
        let capture = match Capture::read(self.alloc, &text) {
            Ok(capture) => capture,
            Err(fault) => return Err(self.faulty(fault)?),
        };
        let Some(last) = capture.samples.last() else {
            return Ok(());
        };
        let at = last.line.from;
        let found = explain(self.alloc, &capture, self.known)?;
        let report = report_of(self.alloc, &capture, &found)?;
        self.status = report.status();
        self.times = report.times();
        let time = self.times.at(at.0);
        let changes = self.follower.see(self.alloc, &report, at)?;
        for change in &changes {
            self.clear_status(out)?;
            writeln!(out, "{time}: {change}")?;
        }
        self.at = Some(at);
        self.window.step()?;
        self.write_status(at, out)
    }

    /// Clears the terminal's last line if it has a status.
    fn clear_status<W: Write>(&mut self, out: &mut W) -> Result<(), FollowFault> {
        if self.has_status {
            out.write_all(OVER.as_bytes())?;
            self.has_status = false;
        }
        Ok(())
    }

    /// Writes the state after a sample into a terminal's last line, as far as there is room.
    fn write_status<W: Write>(&mut self, at: BootTime, out: &mut W) -> Result<(), FollowFault> {
        if !self.is_terminal {
            return Ok(());
        }
        let status = Status {
            follower: &self.follower,
            times: self.times,
            at,
        };
        let words = format!(in self.alloc; "{status}")?;
        let mut line = String::new(self.alloc);
        line.push_str(OVER)?;
        for letter in words.as_str().chars().take(COLUMNS) {
            line.push(letter)?;
        }
        out.write_all(line.as_bytes())?;
        self.has_status = true;
        Ok(())
    }

    /// Tells that the log has ended, or was cut off.
    pub fn close<W: Write>(&mut self, out: &mut W) -> Result<(), FollowFault> {
        self.clear_status(out)?;
        let ending = if self.has_ended {
            "the log ends"
        } else {
            "the log was cut off: it has no last line"
        };
        match self.at {
            Some(at) => {
                let time = self.times.at(at.0);
                writeln!(out, "{time}: {ending}")?;
            }
            None => writeln!(out, "{ending}, and it has no sample")?,
        }
        Ok(())
    }
}
