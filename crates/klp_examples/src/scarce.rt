//! Tests lack of memory before a manager is booted. Catalogs are tried with little memory left, from none to enough. So
//! if an allocation needs more than all earlier ones, it is refused in its turn.

use crate::hoard::Hoard;
use crate::starved::Room;
use crate::tally::Tally;
use klp_program::console;
use std::alloc::{AllocError, Global};
use std::rt::Files;
use std::{fs, io, mem};

/// A file of catalogs that are refused. In front of each catalog is a line with a mark, and with the text that is
/// written to standard error. The line feed in front of a mark isn't part of a catalog. So a catalog's last line ends
/// with a line feed only if an empty line follows.
const CATALOGS: &str = "refused.catalogs";

const CATALOG_MARK: &str = "\n=== ";

/// The most memory that is left free. It is more than the largest catalog needs.
const SPAN: usize = 10_752 * 1024;

/// The input of the console.
const INPUT: &[u8] = b"mark\n";

/// How much memory is left for two catalogs. Each pair has a number of steps, and by how many bytes each step leaves
/// more. Memory grows by 16 bytes at least. The small catalog is tried in such steps for all that is read of its text
/// and for all tables of names. It is then tried in steps of 4,096 bytes, which is less than any table of a manager.
/// The largest catalog is tried in steps of 128 bytes for its first lines, and then of 20 kilobytes, since smaller
/// steps would take minutes.
const SCARCITIES: [(&str, [(u16, usize); 2]); 2] = [
    ("k1.catalog", [(1024, 16), (2044, 4096)]),
    ("largest.catalog", [(256, 128), (510, 20480)]),
];

/// The steps for each catalog that is refused.
const FAULTY_STEPS: [(u16, usize); 1] = [(128, 256)];

// How a run ended.
#[derive(Clone, Copy)]
enum Ended {
    // There was enough memory.
    Enough,
    // A lack of memory was reported for a line of the catalog.
    NoMemoryAtLine,
    // A lack of memory was reported, but for no line.
    NoMemory,
    // The run ended in another way. No run may end so.
    Unexpected,
}

// How the runs over a catalog ended.
#[derive(Clone, Copy)]
struct Seen {
    lines: bool,
    others: bool,
    // Whether there was enough memory in the last run.
    is_enough: bool,
}

impl Seen {
    // Counts how a run with one amount of memory ended.
    fn add(&mut self, ended: Ended, tally: &mut Tally) {
        self.is_enough = false;
        let holds = match ended {
            Ended::Enough => {
                self.is_enough = true;
                true
            }
            Ended::NoMemoryAtLine => {
                self.lines = true;
                true
            }
            Ended::NoMemory => {
                self.others = true;
                true
            }
            Ended::Unexpected => false,
        };
        tally.count(holds);
    }
}

// All memory of the process. Only a little of it is left free while the console runs.
#[derive(Drop)]
struct Siege {
    alloc: Global,
    // One piece of memory, which is free only while the console runs. Nothing must be placed inside of this piece. So
    // it is allocated again before the small blocks are, while all other memory is free.
    span: Option<Vec<u8>>,
    // Small blocks. An allocator stores small freed blocks separately. The small blocks are freed before all other
    // blocks. So the allocator keeps the small ones, and joins the others into larger blocks again.
    few: Hoard,
    // All other memory, and the text that the console writes.
    room: Room,
}

impl Siege {
    fn new(alloc: Global) -> Result<Siege, AllocError> {
        let span = Vec::with_capacity(alloc, SPAN)?;
        let mut few = Hoard::small(alloc)?;
        few.take_few(alloc);
        let room = Room::new(alloc, 0)?;
        Ok(Siege {
            alloc,
            span: Some(span),
            few,
            room,
        })
    }

    // Runs the console over a catalog with `left` bytes of memory left, in one piece. Returns the exit status, and how
    // many bytes of the input weren't read. Afterwards the siege has the same memory as before.
    fn run(&mut self, catalog: &[u8], left: usize) -> Result<(u8, usize), AllocError> {
        self.room.out.clear();
        self.room.err.clear();
        self.room.hoard.take_all(self.alloc);
        self.span = None;
        let rest: Vec<u8> = Vec::with_capacity(self.alloc, SPAN.saturating_sub(left))?;
        let out = mem::replace(&mut self.room.out, Vec::new(self.alloc));
        let (status, unread, out) = console(self.alloc, catalog, INPUT, out, &mut self.room.err);
        self.room.out = out;
        drop(rest);
        self.room.hoard.take_all(self.alloc);
        self.few.clear();
        self.room.hoard.clear();
        self.span = Some(Vec::with_capacity(self.alloc, SPAN)?);
        self.few.take_few(self.alloc);
        Ok((status, unread.len()))
    }

    // Whether there was enough memory, so that the input was answered.
    fn is_answered(&self, (status, unread): (u8, usize)) -> bool {
        status == 0
            && unread == 0
            && self.room.err.is_empty()
            && self.room.out.as_slice() == b"0\n".as_slice()
    }

    // The text that was reported, if no input was read and no answer was written. Otherwise the result is empty.
    fn fault_text(&self, (status, unread): (u8, usize)) -> &[u8] {
        if status == 1 && unread == INPUT.len() && self.room.out.is_empty() {
            &self.room.err
        } else {
            b""
        }
    }

    // How a run ended. The catalog of the run has this fault, or no fault.
    fn ended(&self, ran: (u8, usize), fault: Option<&str>) -> Ended {
        let fault_text = self
            .fault_text(ran)
            .strip_prefix(b"klpsim: ")
            .unwrap_or(b"");
        match fault_text.strip_suffix(b"NoMemory\n") {
            Some(b"") => Ended::NoMemory,
            Some(line) if line.starts_with(b"line ") && line.ends_with(b": ") =>
                Ended::NoMemoryAtLine,
            _ => self.ended_with_enough(ran, fault),
        }
    }

    fn ended_with_enough(&self, ran: (u8, usize), fault: Option<&str>) -> Ended {
        let is_enough = match fault {
            Some(fault) => self.fault_text(ran).strip_suffix(b"\n") == Some(fault.as_bytes()),
            None => self.is_answered(ran),
        };
        if is_enough {
            Ended::Enough
        } else {
            Ended::Unexpected
        }
    }
}

// Tries a catalog with all amounts of memory. The catalog has this fault, or no fault.
fn try_all(
    siege: &mut Siege,
    catalog: &[u8],
    fault: Option<&str>,
    steps: &[(u16, usize)],
    tally: &mut Tally,
) -> Result<Seen, AllocError> {
    let mut seen = Seen {
        lines: false,
        others: false,
        is_enough: false,
    };
    let mut left = 0usize;
    for (times, more) in steps {
        for _ in 0..*times {
            let ran = siege.run(catalog, left)?;
            seen.add(siege.ended(ran, fault), tally);
            left = left.saturating_add(*more);
        }
    }
    Ok(seen)
}

// Tries one catalog with all amounts of memory. Returns whether each of three things occurred: a lack of memory for a
// line, a lack of memory behind the text, and at last enough memory.
fn try_catalog<R: Files + AllocGlobal>(
    rt: &R,
    siege: &mut Siege,
    name: &str,
    steps: &[(u16, usize)],
    tally: &mut Tally,
) -> io::Result<bool> {
    let catalog = fs::read(rt, name)?;
    let seen = try_all(siege, &catalog, None, steps, tally)?;
    Ok(seen.lines && seen.others && seen.is_enough)
}

// Tries each refused catalog in a text. Each run must report the catalog's own fault, or a lack of memory.
fn try_faulty(siege: &mut Siege, text: &str, tally: &mut Tally) -> Result<bool, AllocError> {
    let mut all = true;
    for case in text.split(CATALOG_MARK).skip(1) {
        let (fault, catalog) = case.split_once('\n').unwrap_or((case, ""));
        let seen = try_all(siege, catalog.as_bytes(), Some(fault), &FAULTY_STEPS, tally)?;
        all = seen.is_enough && all;
    }
    Ok(all)
}

// Reads the refused catalogs from their file, and tries them.
fn try_refused<R: Files + AllocGlobal>(
    rt: &R,
    siege: &mut Siege,
    tally: &mut Tally,
) -> io::Result<bool> {
    let text = fs::read_to_string(rt, CATALOGS)?;
    Ok(try_faulty(siege, text.as_str(), tally)?)
}

fn run_siege<R: Files + Print + AllocGlobal>(rt: &R, siege: &mut Siege) -> io::Result<bool> {
    let mut tally = Tally::new();
    let mut all = true;
    for (name, steps) in &SCARCITIES {
        all = try_catalog(rt, siege, name, steps, &mut tally)? && all;
    }
    all = try_refused(rt, siege, &mut tally)? && all;
    let hold = "times too little memory is told or there is enough";
    Ok(tally.print_tally(rt, hold, "times not")? && all)
}

fn run_besieged<R: Files + Print + AllocGlobal>(rt: &R) -> io::Result<bool> {
    let mut siege = Siege::new(rt.alloc())?;
    run_siege(rt, &mut siege)
}

/// Whether a lack of memory is always reported, and nothing else fails, however much memory is left. Writes how many
/// amounts were tried.
pub(crate) fn run<R: Files + Print + AllocGlobal>(rt: &R) -> io::Result<bool> {
    let _besieged = Hoard::siege(rt.alloc())?;
    run_besieged(rt)
}
