//! Measures the cost of an event that is admitted by a book, and of an event that is only applied to a machine.
use crate::books::{Use, booked};
use crate::entries::{Crowd, crowds, tell_crowd};
use crate::handles::Runtime;
use crate::names::{FIRST, PATCH};
use crate::shows::{Shows, apply, empty};
use crossbeam_utils::rule::Protocol;
use klp_core::Machine;
use klp_live::{Book, Published, Seat, Start, View};
use klp_model::Event;
use std::alloc::Global;
use std::io;
use std::rt::Clock;
use std::sync::Wait;
use std::time::Instant;

/// How often a task enters and leaves the kernel.
const TURNS: u64 = 1_000;

/// How often a patch is enabled and disabled.
const CYCLES: u64 = 30;

/// Takes an event in some way, and ignores the answer.
pub(crate) trait Takes<R> {
    fn take(&mut self, rt: &R, event: Event);
}

/// A machine without a book.
#[derive(Drop)]
struct Alone<'a, M: Machine> {
    machine: &'a mut M,
}

impl<M: Machine, R> Takes<R> for Alone<'_, M> {
    fn take(&mut self, _rt: &R, event: Event) {
        apply(self.machine, event);
    }
}

/// A book, and one of its seats.
#[derive(Drop)]
pub(crate) struct Seated<S: Start + Protocol<Published, View>, M: Machine + Drop, B: Wait + Drop> {
    pub(crate) alloc: Global,
    pub(crate) book: Book<S, M, B>,
    pub(crate) seat: Seat<S>,
}

impl<S: Start + Protocol<Published, View>, M: Machine + Drop, B: Wait + Drop> Seated<S, M, B> {
    pub(crate) fn end(self) -> M {
        let Seated {
            alloc: _alloc,
            book,
            seat: _seat,
        } = self;
        book.end()
    }
}

impl<S: Start + Protocol<Published, View>, M: Machine + Drop, B: Wait + Drop, R: Wait> Takes<R>
    for Seated<S, M, B> {
    fn take(&mut self, rt: &R, event: Event) {
        let _ = self.book.admit(rt, self.alloc, &mut self.seat, event);
    }
}

/// The shortest times in nanoseconds: the time of all task events, and the time of one `Enable`.
#[derive(Clone, Copy)]
pub(crate) struct Times {
    tasks: u64,
    enable: u64,
}

impl Times {
    const NONE: Times = Times {
        tasks: u64::MAX,
        enable: u64::MAX,
    };
}

/// Returns the nanoseconds that have passed since `start`.
pub(crate) fn since<R: Clock>(rt: &R, start: Instant) -> io::Result<u64> {
    let took = Instant::now(rt)?.saturating_duration_since(start);
    Ok(u64::try_from(took.as_nanos()).unwrap_or(u64::MAX))
}

/// Lets a task enter the kernel and leave it.
pub(crate) fn turn<T: Takes<R>, R>(rt: &R, takes: &mut T) {
    takes.take(rt, Event::EnterKernel(FIRST));
    takes.take(rt, Event::ExitToUser(FIRST));
}

fn take_turns<T: Takes<R>, R: Clock>(rt: &R, takes: &mut T, best: &mut Times) -> io::Result<()> {
    takes.take(rt, Event::NewTask(FIRST));
    let start = Instant::now(rt)?;
    for _turn in 0..TURNS {
        turn(rt, takes);
    }
    best.tasks = best.tasks.min(since(rt, start)?);
    takes.take(rt, Event::EndTask(FIRST));
    Ok(())
}

fn take_cycles<T: Takes<R>, R: Clock>(rt: &R, takes: &mut T, best: &mut Times) -> io::Result<()> {
    for _cycle in 0..CYCLES {
        let start = Instant::now(rt)?;
        takes.take(rt, Event::Enable(PATCH));
        best.enable = best.enable.min(since(rt, start)?);
        takes.take(rt, Event::Poll);
        takes.take(rt, Event::SetEnabled(PATCH, false));
        takes.take(rt, Event::Poll);
    }
    Ok(())
}

fn take_all<T: Takes<R>, R: Clock>(rt: &R, takes: &mut T, best: &mut Times) -> io::Result<()> {
    take_turns(rt, takes, best)?;
    take_cycles(rt, takes, best)
}

/// Submits all events from one seat, and then ends the book.
pub(crate) fn admitted<
    S: Start + Protocol<Published, View>,
    M: Machine + Drop,
    B: Wait + Drop,
    R: Wait + Clock,
>(
    rt: &R,
    alloc: Global,
    book: Book<S, M, B>,
    seat: Seat<S>,
    best: &mut Times,
) -> (M, io::Result<()>) {
    let mut seated = Seated { alloc, book, seat };
    let came = take_all(rt, &mut seated, best);
    (seated.end(), came)
}

/// The shortest times of all rounds.
#[derive(Clone, Copy)]
struct Figures {
    applied: Times,
    admitted: Times,
    crowds: [Crowd; 4],
}

impl Figures {
    /// Returns the figures before the first round.
    fn new() -> Figures {
        Figures {
            applied: Times::NONE,
            admitted: Times::NONE,
            crowds: [Crowd::of(0), Crowd::of(1), Crowd::of(2), Crowd::of(4)],
        }
    }
}

/// Measures one round: applies all events, admits them, and enters functions. If there is no memory for a book, the
/// parts that need a book aren't counted.
fn round<M: Shows + Drop + Send, R: Runtime>(
    rt: &R,
    alloc: Global,
    machine: M,
    best: &mut Figures,
) -> (M, io::Result<()>) {
    let mut machine = machine;
    empty(&mut machine);
    let mut alone = Alone {
        machine: &mut machine,
    };
    let applied = take_all(rt, &mut alone, &mut best.applied);
    let (machine, admitted) = booked(rt, alloc, machine, Use::Events(&mut best.admitted));
    let machine = crowds(rt, alloc, machine, &mut best.crowds);
    (machine, applied.and(admitted.unwrap_or(Ok(()))))
}

/// Measures `rounds` rounds over a machine, and prints the best figures.
pub(crate) fn rounds_of<M: Shows + Drop + Send, R: Runtime>(
    rt: &R,
    alloc: Global,
    machine: M,
    rounds: u64,
) -> io::Result<()> {
    let mut machine = machine;
    let mut best = Figures::new();
    let mut ended = Ok(());
    for _round in 0..rounds {
        let (same, took) = round(rt, alloc, machine, &mut best);
        machine = same;
        ended = ended.and(took);
    }
    ended.and(print_best(rt, &best))
}

fn print_best<R: Print>(rt: &R, best: &Figures) -> io::Result<()> {
    let Figures {
        applied,
        admitted,
        crowds,
    } = best;
    println!(rt;
        "a task event: applied {} ns, admitted {} ns\n\
        an Enable of 64 functions: applied {} ns, admitted {} ns",
        applied.tasks / (2 * TURNS),
        admitted.tasks / (2 * TURNS),
        applied.enable,
        admitted.enable
    )?;
    for crowd in crowds {
        tell_crowd(rt, crowd)?;
    }
    Ok(())
}
