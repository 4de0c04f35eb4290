//! A start: the book under its one lock, and its seats. Through a start, running tasks submit events and enter
//! functions.
ghost use Rattle.std.specs.Prelude.{◌≡◌, ◌≢◌, ◌<◌, ◌≤◌, [], length, MatchResult, IfOk, IfErr, vec_len};
ghost use Rattle.std.specs.List.{All, sum_by};
ghost use mathlib.Core.List.{IsPrefix};
ghost use Rattle.klp_types.specs.declared.limits.TheConstants.{MAX_TASKS};
ghost use Rattle.klp_live.specs.Closing.{IsOutcome, IsClosed};
ghost use Rattle.klp_live.specs.Opening.{IsFresh};
ghost use Rattle.klp_live.specs.Seats.{Knows};
ghost use Rattle.klp_live.specs.Shown.{RuleIs};

use crate::book::Book;
use crate::entering::TaskPass;
use crate::history::{Front, Opened, Start, must_cover};
use crate::opening::StartFault;
use crate::published::{Published, View};
use crate::refusal::LiveRefusal;
use crate::seat::{Receipt, Seat};
use crossbeam_utils::Backoff;
use crossbeam_utils::rule::Protocol;
use klp_core::Machine;
use klp_model::Event;
use klp_types::{MAX_TASKS, TaskId};
use std::alloc::Global;
use std::marker::PhantomData;
use std::sync::ledger::{Blank, Share};
use std::sync::{Mutex, MutexGuard, Wait};

/// How many seats a start has. This is the number of parts of its ledger. The number is in a separate struct, because a
/// struct that owns the ledger can't mention it.
#[derive(Drop)]
struct Places<S: Start> {
    count: usize,
    of: PhantomData<S>,
    ghost counted: { count ≡ S.parts },
    ghost some: { 0 < count },
}

/// The book under its one lock. Submitting an event takes the lock. Entering a function doesn't take it.
#[derive(Drop)]
pub struct Live<S: Start + Protocol<Published, View>, M: Machine + Drop, R: Wait + Drop> {
    book: Mutex<Book<S, M, R>>,
    places: Places<S>,
}

/// The error that a number is too large for a task.
#[derive(Clone, Copy, Debug)]
pub struct BadTask;

/// The error that a start can't be closed because seats are missing. It has the start and the seats that the caller
/// passed.
#[derive(Drop)]
pub struct CloseFault<S: Start + Protocol<Published, View>, M: Machine + Drop, R: Wait + Drop> {
    pub live: Live<S, M, R>,
    pub seats: Vec<Seat<S>>,
}

/// How many times a thread that found the lock taken spins before it looks at the lock again. `LOOKS` is how many times
/// the thread then looks before it may sleep.
const FIRST_WAITS: u32 = 4;

const LOOKS: u32 = 6;

/// Takes the lock. If another thread has the lock, this thread spins for the time of a few events before it looks
/// again. Before each further look it spins twice as long. Meanwhile the other thread may admit several events in a
/// row, with book and journal in its processor's cache. Several events in a row cost less time than if the two threads
/// took turns.
fn locked<'b, S: Start + Protocol<Published, View>, M: Machine + Drop, R: Wait + Drop, W: Wait>(
    book: &'b Mutex<Book<S, M, R>>,
    rt: &W,
) -> MutexGuard<'b, Book<S, M, R>> {
    if let Some(guard) = book.try_lock() {
        return guard;
    }
    let backoff = Backoff::new();
    for _wait in 0..FIRST_WAITS {
        backoff.spin();
    }
    for _look in 0..LOOKS {
        if let Some(guard) = book.try_lock() {
            return guard;
        }
        backoff.spin();
    }
    book.lock(rt)
}

/// Admits an event for a seat.
fn submit<S: Start + Protocol<Published, View>, M: Machine + Drop, R: Wait + Drop, W: Wait>(
    book: &mut Book<S, M, R>,
    rt: &W,
    alloc: Global,
    seat: &mut Seat<S>,
    event: Event,
) -> Result<Receipt<S>, LiveRefusal>
    ensures { IsOutcome S.setting S.base event seat.old seat.new result }
{
    book.admit(rt, alloc, seat, event)
}

/// Returns the seat's share of the count of accepted events. First checks that `all` has all rows that the seat knows.
fn share_of<S: Start + Protocol<Published, View>, W: Wait>(
    rt: &W,
    all: &Front<S>,
    seat: Seat<S>,
) -> Share<S>
    ensures parts { result.parts ≡ 1 }
    ensures amount { result.amount ≡ seat.accepted }
    ensures known { IsPrefix seat.list all.now }
{
    must_cover(rt, all, &seat.front);
    let Seat {
        reader: _reader,
        front: _front,
        share,
    } = seat;
    share
}

/// Merges the shares of all seats into one share. There is at least one seat.
fn shares_of<S: Start + Protocol<Published, View>, W: Wait>(
    rt: &W,
    all: &Front<S>,
    mut seats: Vec<Seat<S>>,
) -> Share<S>
    requires some { 0 < vec_len seats }
    ensures parts { result.parts ≡ vec_len seats }
    ensures amount { result.amount ≡ sum_by (λ (k : Knows). k.accepted) seats.items }
    ensures known { All (λ (k : Knows). IsPrefix k.list all.now) seats.items }
{
    let Some(last) = seats.pop() else {
        unreachable!()
    };
    let mut sum = share_of(rt, all, last);
    while let Some(seat) = seats.pop() {
        sum.merge(share_of(rt, all, seat));
    }
    sum
}

impl<S: Start + Protocol<Published, View>, M: Machine + Drop, R: Wait + Drop> Live<S, M, R> {
    /// Makes a start from a manager: publishes the manager's table, and makes the seats. If this fails, returns the
    /// manager unchanged.
    pub fn start(
        rt: R,
        alloc: Global,
        blank: Blank,
        opened: Opened,
        machine: M,
        places: usize,
    ) -> Result<(Live<S, M, R>, Vec<Seat<S>>), StartFault<M>>
        requires name { blank.name ≡ S.name }
        requires parts { (blank.parts ≡ S.parts) × (blank.parts ≡ places) }
        requires book { opened.seen.book ≡ S.book }
        requires rule { RuleIs S.holds S.first S.setting S.base S.book }
        requires fresh { IsFresh S.setting S.base (M.journaled machine) }
        requires places { (0 < places) × (places ≤ 64) }
        ensures { MatchResult result
            (λ pair. (vec_len pair.1 ≡ places) × All (λ seat. seat ≡ record { list = []; accepted = 0 }) pair.1.items)
            (λ fault. fault.manager ≡ machine) }
    {
        match Book::pair(rt, alloc, blank, opened, machine, places) {
            Ok((book, seats)) => Ok((
                Live {
                    book: Mutex::new(book),
                    places: Places {
                        count: places,
                        of: PhantomData,
                    },
                },
                seats,
            )),
            Err(fault) => Err(fault),
        }
    }

    /// Gives a seat to a task, and returns the task's pass. If the number is too large, returns the seat and `BadTask`.
    /// The call doesn't check that the task exists, since a task may have its pass before it begins.
    pub fn attach(&self, seat: Seat<S>, task: TaskId) -> Result<TaskPass<S>, (Seat<S>, BadTask)>
        ensures { MatchResult result
            (λ pass. (pass ≡ record { task = task; knows = seat }) × (task < MAX_TASKS))
            (λ fault. (fault.0 ≡ seat) × (MAX_TASKS ≤ task)) }
    {
        if usize::from(task.0) >= MAX_TASKS {
            return Err((seat, BadTask));
        }
        Ok(TaskPass::new(seat, task))
    }

    /// Takes the lock, and admits an event for a seat. Any pass may submit any event.
    pub(crate) fn admit<W: Wait>(
        &self,
        rt: &W,
        alloc: Global,
        seat: &mut Seat<S>,
        event: Event,
    ) -> Result<Receipt<S>, LiveRefusal>
        ensures { IsOutcome S.setting S.base event seat.old seat.new result }
    {
        let mut book = locked(&self.book, rt);
        submit(&mut *book, rt, alloc, seat, event)
    }

    /// Ends the start and returns the manager. Returns `CloseFault` if seats are missing.
    pub fn close<W: Wait>(self, rt: &W, seats: Vec<Seat<S>>) -> Result<M, CloseFault<S, M, R>>
        ensures missing { IfErr result (λ fault. (fault.seats ≡ seats) × (vec_len seats ≢ S.parts)) }
        ensures closed { IfOk result (λ machine. (vec_len seats ≡ S.parts)
            × IsClosed S.setting S.base (M.journaled machine) seats.items) }
    {
        if seats.len() != self.places.count {
            return Err(CloseFault { live: self, seats });
        }
        let Live {
            book,
            places: _places,
        } = self;
        Ok(closed(rt, book.into_inner(), seats))
    }
}

/// Ends a book and returns its manager. The caller passes all seats, so the numbers of their accepted events add up to
/// the length of the history.
fn closed<S: Start + Protocol<Published, View>, M: Machine + Drop, R: Wait + Drop, W: Wait>(
    rt: &W,
    book: Book<S, M, R>,
    seats: Vec<Seat<S>>,
) -> M
    requires some { 0 < vec_len seats }
    requires all { vec_len seats ≡ S.parts }
    ensures { IsClosed S.setting S.base (M.journaled result) seats.items }
{
    let mut book = book;
    let mut all = shares_of(rt, book.publisher.front(), seats);
    book.publisher.audit(&mut all);
    let _rows = book.rows();
    book.end()
}
