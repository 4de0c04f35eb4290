//! Begins a start over a machine, runs something in the start, and ends it. The owner of the machine chooses the kind
//! of start.
ghost use Rattle.std.specs.Prelude.{◌≡◌, ◌<◌, ◌≤◌, []};
ghost use Rattle.klp_live.specs.Opening.{IsFresh};
ghost use Rattle.klp_live.specs.Shown.{RuleIs};

use crate::handles::Runtime;
use crate::open_starts::{OpenStart, TwoSeats};
use crate::passes::Story;
use crate::rates::Best;
use crate::shows::{Shown, Shows, prepare};
use crossbeam_utils::rule::Protocol;
use klp_core::Machine;
use klp_live::{CloseFault, Live, Opened, Published, Seat, Start, StartCause, View};
use std::alloc::Global;
use std::io;
use std::marker::Brand;
use std::sync::ledger::Blank;

/// The work that the seats of a start do.
#[derive(Drop)]
pub(crate) enum Run<'a> {
    Passes(Story),
    Bodies,
    /// The seats do one round, whose times are measured.
    Round(&'a mut Best),
}

/// The machine, and the result of the run. If the machine is lost, the value is the text that is printed about the
/// loss.
pub(crate) type HandedBack<M> = (Result<M, &'static str>, io::Result<()>);

/// Removes the last two seats, and returns them. If there are fewer than two seats, removes nothing, and returns
/// `None`.
fn take_two<S: Start + Protocol<Published, View>>(seats: &mut Vec<Seat<S>>) -> Option<TwoSeats<S>> {
    if seats.len() < 2 {
        return None;
    }
    let second = seats.pop()?;
    let first = seats.pop()?;
    Some((first, second))
}

/// Puts two seats back. There is room for both, so no push fails. If a push failed, the start couldn't end.
fn put_back<S: Start + Protocol<Published, View>>(seats: &mut Vec<Seat<S>>, two: TwoSeats<S>) {
    let _ = seats.push(two.0);
    let _ = seats.push(two.1);
}

impl<S, M, R> OpenStart<'_, '_, S, M, R>
where
    S: Start + Protocol<Published, View> + Send + Sync,
    M: Machine + Drop + Send,
    R: Runtime,
{
    /// Runs all bodies of the tests.
    fn all_bodies(&self, seats: TwoSeats<S>) -> (TwoSeats<S>, io::Result<()>) {
        let (seats, came) = self.show_bodies(seats);
        let (seats, apart) = self.show_apart(seats);
        let (seats, met) = self.show_meetings(seats);
        (seats, came.and(apart).and(met))
    }

    /// Lets two seats do what this run says.
    fn both_run(&self, seats: TwoSeats<S>, run: Run<'_>) -> (TwoSeats<S>, io::Result<()>) {
        match run {
            Run::Passes(story) => self.passed(seats, story),
            Run::Bodies => self.all_bodies(seats),
            Run::Round(best) => self.round(seats, best),
        }
    }

    /// Lets two of the seats do what this run says. Does nothing if there are fewer than two seats.
    fn all_run(&self, seats: &mut Vec<Seat<S>>, run: Run<'_>) -> io::Result<()> {
        let Some(two) = take_two(seats) else {
            return Ok(());
        };
        let (two, came) = self.both_run(two, run);
        put_back(seats, two);
        came
    }
}

/// Returns the text that is printed if there is no start. There are as many places as seats, so `NoPlace` never occurs.
fn why_no_start(cause: StartCause) -> &'static str {
    match cause {
        StartCause::NoMemory => "no start",
        StartCause::NoPlace => "another cause",
    }
}

/// Ends a start with all of its seats, after it was refused to end it with one of them missing. If it doesn't end so,
/// the machine is lost, and the result is the text that is printed about the loss.
fn ended<S: Start + Protocol<Published, View>, M: Machine + Drop, R: Runtime>(
    rt: &R,
    live: Live<S, M, &R>,
    seats: Vec<Seat<S>>,
) -> Result<M, &'static str> {
    let mut seats = seats;
    let Some(last) = seats.pop() else {
        return Err("no seat");
    };
    let Err(CloseFault { live, seats }) = live.close(rt, seats) else {
        return Err("an end without a seat");
    };
    let mut seats = seats;
    if seats.push(last).is_err() {
        return Err("no room for a seat");
    }
    live.close(rt, seats).ok().ok_or("no end")
}

/// Begins a start, does the run, and ends the start. If there is no memory for a start, or if a seat is missing at the
/// end, the machine is lost. The result is then the text that is printed about the loss.
fn opened<S: Start + Protocol<Published, View> + Send + Sync, M: Machine + Drop + Send, R: Runtime>(
    rt: &R,
    alloc: Global,
    blank: Blank,
    opened: Opened,
    machine: M,
    places: usize,
    run: Run<'_>,
) -> HandedBack<M>
    requires name { blank.name ≡ S.name }
    requires parts { (blank.parts ≡ S.parts) × (blank.parts ≡ places) }
    requires book { opened.seen.book ≡ S.book }
    requires rule { RuleIs S.holds S.first S.setting S.base S.book }
    requires fresh { IsFresh S.setting S.base (M.journaled machine) }
    requires places { (0 < places) × (places ≤ 64) }
{
    match Live::<S, M, &R>::start(rt, alloc, blank, opened, machine, places) {
        Ok((live, seats)) => {
            let mut seats = seats;
            let open = OpenStart {
                rt,
                alloc,
                live: &live,
            };
            let came = open.all_run(&mut seats, run);
            (ended(rt, live, seats), came)
        }
        Err(fault) => (Err(why_no_start(fault.cause)), Ok(())),
    }
}

/// Begins a start over a machine whose journal is empty, does the run, and ends the start. The start has from 1 to 64
/// seats.
pub(crate) fn started<M: Machine + Drop + Send, R: Runtime>(
    rt: &R,
    alloc: Global,
    machine: M,
    places: usize,
    run: Run<'_>,
) -> HandedBack<M>
    requires { (M.journaled machine).groups ≡ [] }
{
    let places = places.clamp(1, 64);
    let blank = Blank::new(places as u64);
    opened::<Brand, M, R>(rt, alloc, blank, Opened::new(), machine, places, run)
}

/// Undoes all events. Prints how many events there were, and whether the machine is as it was before its start.
fn show_end<M: Machine, R: Print>(rt: &R, machine: &mut M, before: &Shown) -> io::Result<()> {
    let standing = machine.mark();
    let is_back = machine.rewind(0).is_ok() && Shown::of(machine) == *before;
    println!(rt; "{standing} standing, taken back: {is_back}")
}

/// Does this run in a start over a machine with two tasks. At the end all events are undone, and the machine must be as
/// before.
pub(crate) fn show_start<M: Shows + Drop + Send, R: Runtime>(
    rt: &R,
    alloc: Global,
    machine: M,
    places: usize,
    run: Run<'_>,
) -> io::Result<()> {
    let mut machine = machine;
    prepare(&mut machine);
    let before = Shown::of(&machine);
    let (machine, came) = started(rt, alloc, machine, places, run);
    let ended = match machine {
        Ok(machine) => {
            let mut machine = machine;
            show_end(rt, &mut machine, &before)
        }
        Err(missing) => println!(rt; "{missing}"),
    };
    came.and(ended)
}
