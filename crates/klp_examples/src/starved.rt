//! Tests lack of memory once a manager is booted. All memory is allocated at the first read of the input. No call of a
//! manager allocates after boot, so each script must still be answered as always.

use crate::case::Case;
use crate::hoard::Hoard;
use klp_program::console;
use std::alloc::{AllocError, Global};
use std::io;
use std::io::Read;

/// How many bytes fit on standard error. Standard output has room for this many bytes more than must be printed.
const ROOM: usize = 256;

/// The memory that is allocated before all other memory is.
#[derive(Drop)]
pub(crate) struct Room {
    pub(crate) hoard: Hoard,
    pub(crate) out: Vec<u8>,
    pub(crate) err: Vec<u8>,
}

impl Room {
    /// Allocates room for `answers` bytes of answers, and some more room.
    pub(crate) fn new(alloc: Global, answers: usize) -> Result<Room, AllocError> {
        let hoard = Hoard::small(alloc)?;
        let out = Vec::with_capacity(alloc, answers.saturating_add(ROOM))?;
        let err = Vec::with_capacity(alloc, ROOM)?;
        Ok(Room { hoard, out, err })
    }
}

// A script, as an input. After its first read, no memory is left.
#[derive(Drop)]
struct Starving<'a> {
    script: &'a [u8],
    alloc: Global,
    hoard: Hoard,
    // Whether all memory is taken.
    is_starved: bool,
}

impl Read for Starving<'_> {
    fn read(&mut self, buf: &mut [u8]) -> io::Result<usize> {
        if !self.is_starved {
            self.hoard.take_all(self.alloc);
            self.is_starved = self.hoard.is_all(self.alloc);
        }
        self.script.read(buf)
    }
}

/// Whether the script prints its output and nothing else, although no memory is left once a manager is booted.
pub(crate) fn is_served(alloc: Global, case: &Case) -> Result<bool, AllocError> {
    let Room {
        hoard,
        mut out,
        mut err,
    } = Room::new(alloc, case.output_len())?;
    let mut input = Starving {
        script: &case.input,
        alloc,
        hoard,
        is_starved: false,
    };
    let (status, ..) = console(alloc, &case.catalog, &mut input, &mut out, &mut err);
    Ok(input.is_starved && case.is_met(status, &out, &err))
}
