//! Opens a book over a machine, uses the book, and returns the machine. The owner of the machine chooses the kind of
//! start.
ghost use Rattle.std.specs.Prelude.{◌≡◌, ◌<◌, ◌≤◌, []};
ghost use Rattle.klp_live.specs.Opening.{IsFresh};
ghost use Rattle.klp_live.specs.Shown.{RuleIs};

use crate::entries::{self, Crowd};
use crate::handles::Runtime;
use crate::measure::{self, Times};
use crate::shows::{Shown, Shows, empty};
use crate::turns;
use crossbeam_utils::rule::Protocol;
use klp_live::{Book, Opened, Published, Seat, Start, StartCause, StartFault, View};
use std::alloc::Global;
use std::io;
use std::marker::Brand;
use std::sync::ledger::Blank;

/// The ways in which a book and its seats are used.
#[derive(Drop)]
pub(crate) enum Use<'a> {
    /// Two seats take the turns of the tests.
    Turns,
    /// One seat submits events, and their times are measured.
    Events(&'a mut Times),
    /// Seats enter functions while another seat submits events. The times of the entries are measured.
    Entries(&'a mut Crowd),
}

impl Use<'_> {
    /// How many seats this use needs.
    fn places(&self) -> usize
        ensures { (0 < result) × (result ≤ 64) }
    {
        match self {
            Use::Turns => 2,
            Use::Events(_) => 1,
            Use::Entries(_) => 5,
        }
    }
}

/// Uses the book in this way, and then ends it.
fn used<S: Start + Protocol<Published, View> + Send, M: Shows + Drop, R: Runtime>(
    rt: &R,
    alloc: Global,
    book: Book<S, M, &R>,
    seats: Vec<Seat<S>>,
    how: Use<'_>,
) -> (M, io::Result<()>) {
    let mut book = book;
    let mut seats = seats;
    match how {
        Use::Turns => {
            let came = turns::all_taken(rt, alloc, &mut book, &mut seats);
            (book.end(), came)
        }
        Use::Events(times) => match seats.pop() {
            Some(seat) => measure::admitted(rt, alloc, book, seat, times),
            None => (book.end(), Ok(())),
        },
        Use::Entries(crowd) => match seats.pop() {
            Some(seat) => {
                let machine = entries::entered(rt, alloc, book, seat, seats, crowd);
                (machine, Ok(()))
            }
            None => (book.end(), Ok(())),
        },
    }
}

/// Opens a book for this use, uses it, and returns the machine.
fn opened<S: Start + Protocol<Published, View> + Send, M: Shows + Drop, R: Runtime>(
    rt: &R,
    alloc: Global,
    machine: M,
    how: Use<'_>,
    blank: Blank,
    opened: Opened,
    places: usize,
) -> (M, Result<io::Result<()>, StartCause>)
    requires fresh { IsFresh S.setting S.base (M.journaled machine) }
    requires name { blank.name ≡ S.name }
    requires parts { (blank.parts ≡ S.parts) × (blank.parts ≡ places) }
    requires book { opened.seen.book ≡ S.book }
    requires rule { RuleIs S.holds S.first S.setting S.base S.book }
    requires places { (0 < places) × (places ≤ 64) }
{
    match Book::<S, M, &R>::pair(rt, alloc, blank, opened, machine, places) {
        Ok((book, seats)) => {
            let (machine, came) = used(rt, alloc, book, seats, how);
            (machine, Ok(came))
        }
        Err(StartFault { manager, cause }) => (manager, Err(cause)),
    }
}

/// Opens a book over a machine whose journal is empty, and uses it.
fn over<M: Shows + Drop, R: Runtime>(
    rt: &R,
    alloc: Global,
    machine: M,
    how: Use<'_>,
) -> (M, Result<io::Result<()>, StartCause>)
    requires { (M.journaled machine).groups ≡ [] }
{
    let places = how.places();
    let blank = Blank::new(places as u64);
    opened::<Brand, M, R>(rt, alloc, machine, how, blank, Opened::new(), places)
}

/// Undoes all events of a machine, opens a book over it, and uses the book. Returns the machine, and what came of the
/// use, or why there is no book. If there is none, the machine must be as before, and otherwise a line is printed.
pub(crate) fn booked<M: Shows + Drop, R: Runtime>(
    rt: &R,
    alloc: Global,
    machine: M,
    how: Use<'_>,
) -> (M, Result<io::Result<()>, StartCause>) {
    let mut machine = machine;
    empty(&mut machine);
    let before = Shown::of(&machine);
    let (machine, came) = over(rt, alloc, machine, how);
    if came.is_err() && Shown::of(&machine) != before {
        let _ = println!(rt; "another manager");
    }
    (machine, came)
}
