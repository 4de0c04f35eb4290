//! Measures the costs of the whole program, which reads a catalog, boots a manager with it, and serves lines.

use crate::time::Shortest;
use klp_catalog::Catalog;
use klp_program::console;
use std::alloc::Global;
use std::io;
use std::rt::Clock;
use std::time::Instant;

/// The work that is measured.
#[derive(Clone, Copy)]
pub(crate) enum Work<'a> {
    /// A catalog's text is read.
    Read(&'a [u8]),
    /// A manager is booted with a catalog's text, serves this input, and is dropped.
    Serve(&'a [u8], &'a [u8]),
}

/// Does the work once. Replaces the contents of `out` by the answers. The capacity of `out` stays.
fn done(alloc: Global, work: Work<'_>, out: &mut Vec<u8>) -> io::Result<()> {
    match work {
        Work::Read(catalog) => match Catalog::read(alloc, catalog) {
            Ok(_) => Ok(()),
            Err(_) => Err(io::Error::other("a catalog is refused")),
        },
        Work::Serve(catalog, mut input) => {
            out.clear();
            let mut err = Vec::new(alloc);
            match console(alloc, catalog, &mut input, out, &mut err).0 {
                0 => Ok(()),
                _ => Err(io::Error::other("a script isn't served")),
            }
        }
    }
}

/// Does the work `rounds` times. Returns the shortest time, and how many bytes the last answers had.
pub(crate) fn shortest<R: Clock>(
    rt: &R,
    alloc: Global,
    rounds: u32,
    work: Work<'_>,
) -> io::Result<(Shortest, usize)> {
    let mut out = Vec::new(alloc);
    let mut shortest = Shortest::of(rounds);
    for _ in 0..rounds {
        let start = Instant::now(rt);
        done(alloc, work, &mut out)?;
        shortest.add(start, Instant::now(rt))?;
    }
    Ok((shortest, out.len()))
}
