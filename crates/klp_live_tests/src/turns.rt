//! Lets two seats of a manager's book submit events. Checks the answer to each event, and which versions calls run
//! after the event.
use crate::books::{Use, booked};
use crate::handles::Runtime;
use crate::names::{FIRST, SECOND};
use crate::outcomes::{Answered, answer_of, show_answer};
use crate::shows::{Shown, Shows};
use crossbeam_utils::rule::Protocol;
use klp_live::{Book, LiveRefusal, Published, Seat, Start, StartCause, View};
use klp_model::Event;
use klp_types::{ObjId, PatchId, ShadowKey, ShadowValue, Site, TaskId};
use std::alloc::Global;
use std::io;
use std::sync::Wait;

/// The index of the seat that submits, and the event.
#[derive(Clone, Copy)]
struct Turn(usize, Event);

/// Events of patches, modules and tasks. The two seats submit most of them in turn.
fn first_turns() -> [Turn; 21] {
    const ALL: [Turn; 21] = [
        Turn(0, Event::NewTask(FIRST)),
        Turn(1, Event::NewTask(SECOND)),
        Turn(0, Event::Enable(PatchId(0))),
        Turn(1, Event::Enable(PatchId(1))),
        Turn(1, Event::Coming(ObjId(1))),
        Turn(0, Event::Poll),
        Turn(0, Event::EnterKernel(FIRST)),
        Turn(1, Event::ExitToUser(FIRST)),
        Turn(1, Event::Force(PatchId(0))),
        Turn(1, Event::Poll),
        Turn(0, Event::Enable(PatchId(1))),
        Turn(1, Event::SetEnabled(PatchId(1), false)),
        Turn(0, Event::SetEnabled(PatchId(1), true)),
        Turn(0, Event::Force(PatchId(1))),
        Turn(1, Event::Poll),
        Turn(0, Event::Enable(PatchId(2))),
        Turn(1, Event::EnterKernel(SECOND)),
        Turn(1, Event::Fork(SECOND, TaskId(3))),
        Turn(0, Event::EndTask(TaskId(3))),
        Turn(0, Event::Force(PatchId(2))),
        Turn(1, Event::Poll),
    ];
    ALL
}

/// The shadow variable that is added and freed.
const SHADOW: ShadowKey = ShadowKey { obj: 1, id: 9 };

/// Events that add and free a shadow variable, and an event that unloads a module. The variable's value is made by a
/// call, so the list can't be a constant.
fn last_turns() -> [Turn; 3] {
    [
        Turn(0, Event::ShadowAlloc(SHADOW, ShadowValue::of(5))),
        Turn(1, Event::ShadowFree(SHADOW)),
        Turn(0, Event::Going(ObjId(1))),
    ]
}

/// How many sites the image has.
const SITES: u16 = 3;

/// The state that a refusal with `NoMemory` must not change: the machine, the number of rows, and how many rows a seat
/// knows.
#[derive(Clone, Copy, PartialEq)]
struct Standing {
    shown: Shown,
    rows: u64,
    known: u64,
}

impl Standing {
    fn of<S: Start + Protocol<Published, View>, M: Shows + Drop, R: Wait>(
        book: &Book<S, M, &R>,
        seat: &Seat<S>,
    ) -> Standing {
        Standing {
            shown: Shown::of(book.machine()),
            rows: book.rows(),
            known: seat.rows(),
        }
    }
}

/// Admits an event, and returns the answer.
fn admitted<S: Start + Protocol<Published, View>, M: Shows + Drop, R: Wait>(
    rt: &R,
    alloc: Global,
    book: &mut Book<S, M, &R>,
    seat: &mut Seat<S>,
    event: Event,
) -> Answered {
    answer_of(book.admit(rt, alloc, seat, event))
}

/// Admits an event. If memory is refused, admits the event once more. If the refused call has changed anything, prints
/// a line that says so.
fn taken<S: Start + Protocol<Published, View>, M: Shows + Drop, R: Wait + Print>(
    rt: &R,
    alloc: Global,
    book: &mut Book<S, M, &R>,
    seat: &mut Seat<S>,
    event: Event,
) -> Answered {
    let before = Standing::of(book, seat);
    let came = admitted(rt, alloc, book, seat, event);
    if !matches!(came, Err(LiveRefusal::NoMemory)) {
        return came;
    }
    if Standing::of(book, seat) != before {
        let _ = println!(rt; "not as before");
    }
    admitted(rt, alloc, book, seat, event)
}

/// Whether a call runs the version that the manager picks.
fn is_picked<S: Start + Protocol<Published, View>, M: Shows>(
    machine: &M,
    seat: &mut Seat<S>,
    task: TaskId,
    site: Site,
) -> bool {
    seat.enter(task, site).ok() == machine.picked(task, site)
}

/// Whether all calls of both tasks run the version that the manager picks.
fn all_picked<S: Start + Protocol<Published, View>, M: Shows>(
    machine: &M,
    seat: &mut Seat<S>,
) -> bool {
    let mut all = true;
    for site in 0..SITES {
        let site = Site(site);
        all = all
            && is_picked(machine, seat, FIRST, site)
            && is_picked(machine, seat, SECOND, site);
    }
    all
}

/// Admits an event for a seat, and prints the answer. If a call then runs another version than the manager picks, also
/// prints that.
fn show_turn<S: Start + Protocol<Published, View>, M: Shows + Drop, R: Wait + Print>(
    rt: &R,
    alloc: Global,
    book: &mut Book<S, M, &R>,
    seat: &mut Seat<S>,
    event: Event,
) -> io::Result<()> {
    show_answer(rt, &taken(rt, alloc, book, seat, event))?;
    if all_picked(book.machine(), seat) {
        return Ok(());
    }
    println!(rt; "another version")
}

fn show_turns<S: Start + Protocol<Published, View>, M: Shows + Drop, R: Wait + Print>(
    rt: &R,
    alloc: Global,
    book: &mut Book<S, M, &R>,
    seats: &mut [Seat<S>],
    turns: &[Turn],
) -> io::Result<()> {
    for Turn(place, event) in turns {
        if let Some(seat) = seats.get_mut(*place) {
            show_turn(rt, alloc, book, seat, *event)?;
        }
    }
    Ok(())
}

/// Prints how many of the rows each seat knows. `rows` is the number of rows.
fn show_rows<S: Start + Protocol<Published, View>, R: Print>(
    rt: &R,
    seats: &[Seat<S>],
    rows: u64,
) -> io::Result<()> {
    for seat in seats {
        println!(rt; "{} of {rows}", seat.rows())?;
    }
    Ok(())
}

/// Lets the seats take all turns.
pub(crate) fn all_taken<S: Start + Protocol<Published, View>, M: Shows + Drop, R: Wait + Print>(
    rt: &R,
    alloc: Global,
    book: &mut Book<S, M, &R>,
    seats: &mut [Seat<S>],
) -> io::Result<()> {
    show_turns(rt, alloc, book, seats, &first_turns())?;
    show_turns(rt, alloc, book, seats, &last_turns())?;
    show_rows(rt, seats, book.rows())
}

/// Opens a book over the machine, and takes all turns. If memory was refused for the book, tries to open it once more.
pub(crate) fn twice<M: Shows + Drop, R: Runtime>(
    rt: &R,
    alloc: Global,
    machine: M,
) -> io::Result<()> {
    let (machine, came) = booked(rt, alloc, machine, Use::Turns);
    match came {
        Ok(came) => return came,
        Err(StartCause::NoMemory) => {}
        Err(StartCause::NoPlace) => return println!(rt; "another cause"),
    }
    let (_machine, came) = booked(rt, alloc, machine, Use::Turns);
    match came {
        Ok(came) => came,
        Err(cause) => println!(rt; "{cause:?}"),
    }
}
