//! Tests of task threads over a real manager. They test what no contract can say.
//!
//! The first tests are about the book, starts and passes. Calls must succeed while there is memory, and a call that
//! gets no memory must change nothing. The program prints the answers that two seats got. With `rt try --fail-alloc N`,
//! one allocation of the book is refused. The program then makes the refused call again, so it must print the same
//! answers. With the argument `book`, the program does only these tests, so that each allocation can be refused in its
//! turn (`tools/hostile live`).
//!
//! The other tests are about bodies and jobs. Two threads run over one lock, and must be inside of their bodies at the
//! same time. A call must read what is published, and not only what its task was told. Events must be accepted, and
//! gates passed, where they should.
//!
//! If the argument is a number, the program measures that many rounds. It prints the costs of an event and of an entry
//! in the best round, and how many of them two bodies do in a second (docs/PERFORMANCE.md).
#![tactic(auto)]

mod bodies;
mod books;
mod booted;
mod entries;
mod gates;
mod handles;
mod measure;
mod meeting;
mod names;
mod open_starts;
mod outcomes;
mod owner;
mod pairs;
mod passes;
mod rates;
mod runs;
mod shows;
mod starts;
mod turns;

use crate::booted::{CATALOG, Fault, SMALL, large};
use crate::handles::Runtime;
use crate::meeting::show_turns;
use crate::owner::managed;
use crate::passes::Story;
use crate::runs::Work;
use std::alloc::Global;
use std::env;

/// The tests of the book, and the tests of passes at starts with various numbers of seats.
const BOOK: [Work; 7] = [
    Work::Turns,
    Work::Passes(2, Story::Heard),
    Work::Passes(2, Story::Unheard),
    Work::Passes(2, Story::Absent),
    Work::Passes(1, Story::Idle),
    Work::Passes(3, Story::Idle),
    Work::Passes(64, Story::Idle),
];

/// Runs the tests of the book. Each test has a new manager.
fn run_book<R: Runtime>(rt: &R, alloc: Global) -> Result<(), Fault> {
    for work in BOOK {
        managed(rt, alloc, CATALOG, work)?;
    }
    Ok(())
}

/// Measures `rounds` rounds of the book over a large catalog, and `rounds` rounds of two bodies.
fn measured<R: Runtime>(rt: &R, alloc: Global, rounds: u64) -> Result<(), Fault> {
    let text = large(alloc)?;
    managed(rt, alloc, text.as_str().as_bytes(), Work::Costs(rounds))?;
    managed(rt, alloc, SMALL, Work::Rates(rounds))
}

/// Does what the program's argument says: runs the tests of the book, or measures as many rounds as the argument says.
fn run_word<R: Runtime>(rt: &R, alloc: Global, word: &str) -> Result<(), Fault> {
    if word == "book" {
        return run_book(rt, alloc);
    }
    measured(rt, alloc, word.parse::<u64>().unwrap_or(1))
}

/// Runs all tests.
fn run_all<R: Runtime>(rt: &R, alloc: Global) -> Result<(), Fault> {
    run_book(rt, alloc)?;
    managed(rt, alloc, CATALOG, Work::Passes(2, Story::Long))?;
    show_turns(rt)?;
    managed(rt, alloc, SMALL, Work::Bodies)?;
    managed(rt, alloc, SMALL, Work::Entries)
}

fn main(rt: HostRuntime) -> Result<(), Fault> {
    match env::args(&rt)?.nth(1) {
        Some(word) => run_word(&rt, rt.alloc(), word.as_str()),
        None => run_all(&rt, rt.alloc()),
    }
}
