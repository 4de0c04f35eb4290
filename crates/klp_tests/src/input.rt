//! Serves the console with an input and an output in memory. Reads and writes may fail.
ghost use Rattle.std.specs.Prelude.{◌≡◌, ◌≤◌};

use klp_console::{ServeFault, Served, serve};
use klp_console_io::{Feed, Taken};
use klp_core::Manager;
use std::marker::Brand;
use std::sync::ledger::{Blank, Ledger};

/// How many bytes of answers fit.
const ROOM: usize = 4096;

/// The lines that the console serves, and how its reads and writes behave.
#[derive(Clone, Copy)]
pub struct Input<'a> {
    pub lines: &'a [u8],
    /// The most bytes that a read gives. `takes` is the most bytes that a write accepts.
    pub gives: usize,
    pub takes: usize,
    /// The number of the read that fails, counted from 0. `write` is the number of the write that fails.
    pub read: Option<u32>,
    pub write: Option<u32>,
}

/// Returns an input whose lines are all read by one read, and all answered by one write.
pub fn whole(lines: &[u8]) -> Input<'_> {
    Input {
        lines,
        gives: ROOM,
        takes: ROOM,
        read: None,
        write: None,
    }
}

/// Serves the console, and adds the answers to `said`.
fn serve_over<L: Ledger, M: Ledger>(
    manager: &mut Manager,
    input: &Input<'_>,
    said: &mut Vec<u8>,
    for_reads: Blank,
    for_writes: Blank,
) -> Result<Served, ServeFault>
    requires reads { (for_reads.name ≡ L.name) × (for_reads.parts ≡ L.parts) × (3 ≤ for_reads.parts) }
    requires writes { (for_writes.name ≡ M.name) × (for_writes.parts ≡ M.parts) × (2 ≤ for_writes.parts) }
{
    let mut feed = Feed::<L>::new(input.lines, input.gives.max(1), input.read, for_reads);
    let mut taken = Taken::<ROOM, M>::new(input.takes.max(1), input.write, for_writes);
    let ended = serve(&mut feed, &mut taken, manager);
    let _ = said.extend_from_slice(taken.bytes());
    ended
}

/// Serves the console, and adds the answers to `said`.
pub fn serve_input(
    manager: &mut Manager,
    input: &Input<'_>,
    said: &mut Vec<u8>,
) -> Result<Served, ServeFault> {
    let for_reads = Blank::new(3);
    let for_writes = Blank::new(2);
    serve_over::<Brand, Brand>(manager, input, said, for_reads, for_writes)
}
