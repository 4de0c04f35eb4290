//! Measures the cost of an entry. It is measured without other threads, and with other threads beside it while one
//! thread submits. For comparison, the cost of a look at the same table under a read lock is measured.
use crate::books::{Use, booked};
use crate::handles::Runtime;
use crate::measure::{Seated, Takes, since, turn};
use crate::names::{FIRST, PATCH, PATCHED};
use crate::shows::{Shows, apply, empty};
use crossbeam_utils::rule::Protocol;
use klp_core::Machine;
use klp_live::{Book, Published, Seat, Start, Table, View, target_of};
use klp_model::Event;
use std::alloc::Global;
use std::io;
use std::rt::Clock;
use std::sync::atomic::{AtomicU64, Ordering};
use std::sync::{RwLock, Wait};
use std::thread::{self, Threads, join};
use std::time::Instant;

/// How often each thread looks in a round. The events submitted in a round must fit into the journal.
const LOOKS: u64 = 20_000;

/// How often the submitting thread must submit two events during a round. If other programs slow the thread down, it
/// submits less often, and the round doesn't count.
const TURNS: u64 = 200;

/// The number of rounds in which entries are timed without other threads. The best round counts.
const ALONE: u64 = 20;

/// An entry that waits would cost at least this many times as much as a look under a read lock. A loop of a thousand
/// turns, for comparison, costs some twenty times as much as such a look.
const DEAR: u64 = 10;

/// The most threads that look at the same time.
const LOOKERS: usize = 4;

/// How many threads look while another one submits, and the nanoseconds of the slowest thread in the best round.
/// `seats` is the time of looks by a seat, and `lock` the time of looks under a lock. If the number of threads is 0,
/// one thread looks and none submits.
#[derive(Clone, Copy)]
pub(crate) struct Crowd {
    threads: usize,
    seats: u64,
    lock: u64,
}

impl Crowd {
    /// Returns the times before the first round.
    pub(crate) fn of(threads: usize) -> Crowd {
        Crowd {
            threads,
            seats: u64::MAX,
            lock: u64::MAX,
        }
    }
}

/// Finds which version a call of a patched function runs. The patch is in transition.
trait Looks<R> {
    fn look(&mut self, rt: &R) -> bool;
}

impl<S: Start + Protocol<Published, View>, R> Looks<R> for Seat<S> {
    fn look(&mut self, _rt: &R) -> bool {
        self.enter(FIRST, PATCHED).is_ok()
    }
}

/// Looks at a table under its read lock.
#[derive(Clone, Copy)]
struct ByLock<'a> {
    table: &'a RwLock<Table>,
}

impl<R: Wait> Looks<R> for ByLock<'_> {
    fn look(&mut self, rt: &R) -> bool {
        let table = self.table.read(rt);
        target_of(&table, FIRST, PATCHED).is_ok()
    }
}

/// Applies events to a machine. After each event, writes the task's state to the table under the table's lock.
#[derive(Drop)]
struct Writes<'a, M: Machine> {
    table: &'a RwLock<Table>,
    machine: &'a mut M,
}

impl<M: Machine, R: Wait> Takes<R> for Writes<'_, M> {
    fn take(&mut self, rt: &R, event: Event) {
        write(rt, self.table, self.machine, event);
    }
}

fn write<M: Machine, R: Wait>(rt: &R, table: &RwLock<Table>, machine: &mut M, event: Event) {
    if !apply(machine, event) {
        // The journal is full: all events are undone, the task begins again, and the patch is enabled again.
        empty(machine);
        begin(machine);
        return;
    }
    let state = machine.patch_state(FIRST);
    let mut table = table.write(rt);
    table.states[usize::from(FIRST.0)] = state;
}

/// The table of a machine.
fn table_of<M: Machine>(machine: &M) -> Table {
    let mut table = Table::empty();
    table.fill(machine);
    table
}

/// Begins the first task, and enables the patch.
fn begin<M: Machine>(machine: &mut M) {
    apply(machine, Event::NewTask(FIRST));
    apply(machine, Event::Enable(PATCH));
}

/// Returns how many nanoseconds all looks took. Returns `u64::MAX` if a look found nothing.
fn timed<L: Looks<R>, R: Clock>(rt: &R, looker: &mut L) -> io::Result<u64> {
    let start = Instant::now(rt)?;
    let mut found = 0u64;
    for _look in 0..LOOKS {
        found = found.wrapping_add(u64::from(looker.look(rt)));
    }
    let took = since(rt, start)?;
    Ok(if found == LOOKS { took } else { u64::MAX })
}

/// How many threads have finished their looks, and how long the slowest of these threads took.
#[derive(Drop)]
struct Looked {
    done: AtomicU64,
    slowest: AtomicU64,
}

fn look_often<L: Looks<R> + Drop, R: Clock>(rt: &R, looked: &Looked, looker: L) {
    let mut looker = looker;
    let took = timed(rt, &mut looker).unwrap_or(u64::MAX);
    looked.slowest.fetch_max(took, Ordering::SeqCst);
    looked.done.fetch_add(1, Ordering::SeqCst);
}

/// Lets all lookers look, each in a thread that owns its looker. If the lookers were side by side in memory, threads
/// would share the memory that they write. If there is no memory for the threads, the round doesn't count.
fn look_all<L: Looks<R> + Drop + Send, R: Threads + Clock + Sync>(
    rt: &R,
    looked: &Looked,
    lookers: Vec<L>,
) {
    let all = thread::map_vec(rt, lookers, &|looker| look_often(rt, looked, looker));
    if all.is_err() {
        looked.slowest.store(u64::MAX, Ordering::SeqCst);
        looked.done.store(u64::MAX, Ordering::SeqCst);
    }
}

/// Submits two events again and again until `wanted` threads have finished. Returns how often the two events were
/// submitted, without the last time.
fn submit_until<T: Takes<R>, R>(rt: &R, looked: &Looked, wanted: u64, takes: &mut T) -> u64 {
    let mut turns = 0;
    for count in 0..u64::MAX {
        if looked.done.load(Ordering::SeqCst) >= wanted {
            break;
        }
        turn(rt, takes);
        turns = count;
    }
    turns
}

/// Lets all lookers look while `takes` submits. Returns how long the slowest looker took. Returns `u64::MAX` if there
/// were too few submissions.
fn beside<L: Looks<R> + Drop + Send, T: Takes<R>, R: Threads + Clock + Sync>(
    rt: &R,
    lookers: Vec<L>,
    takes: &mut T,
) -> u64 {
    let wanted = lookers.len() as u64;
    let looked = Looked {
        done: AtomicU64::new(0),
        slowest: AtomicU64::new(0),
    };
    let (_, turns) = join(
        rt,
        || look_all(rt, &looked, lookers),
        || submit_until(rt, &looked, wanted, takes),
    );
    if turns < TURNS {
        return u64::MAX;
    }
    looked.slowest.load(Ordering::SeqCst)
}

/// Does what `beside` does, with the first `threads` lookers. If `threads` is 0, one looker looks and nothing is
/// submitted.
fn look_by<L: Looks<R> + Drop + Send, T: Takes<R>, R: Threads + Clock + Sync>(
    rt: &R,
    threads: usize,
    lookers: Vec<L>,
    takes: &mut T,
) -> u64 {
    let mut lookers = lookers;
    if threads == 0 {
        return match lookers.pop() {
            Some(mut looker) => timed(rt, &mut looker).unwrap_or(u64::MAX),
            None => u64::MAX,
        };
    }
    lookers.truncate(threads);
    beside(rt, lookers, takes)
}

/// Lets seats enter while another one submits, and then ends the book.
pub(crate) fn entered<
    S: Start + Protocol<Published, View> + Send,
    M: Machine + Drop,
    B: Wait + Drop,
    R: Threads + Wait + Clock + Sync,
>(
    rt: &R,
    alloc: Global,
    book: Book<S, M, B>,
    seat: Seat<S>,
    others: Vec<Seat<S>>,
    best: &mut Crowd,
) -> M {
    let mut seated = Seated { alloc, book, seat };
    seated.take(rt, Event::NewTask(FIRST));
    seated.take(rt, Event::Enable(PATCH));
    best.seats = best
        .seats
        .min(look_by(rt, best.threads, others, &mut seated));
    seated.end()
}

/// Lets threads look under a read lock while another one writes.
fn locked<M: Machine, R: Threads + Wait + Clock + Sync>(
    rt: &R,
    alloc: Global,
    machine: &mut M,
    best: &mut Crowd,
) {
    begin(machine);
    let table = RwLock::new(table_of(machine));
    let mut writes = Writes {
        table: &table,
        machine,
    };
    if let Ok(readers) = Vec::from_array(alloc, [ByLock { table: &table }; LOOKERS]) {
        let took = look_by(rt, best.threads, readers, &mut writes);
        best.lock = best.lock.min(took);
    }
}

/// One round with each number of threads.
pub(crate) fn crowds<M: Shows + Drop, R: Runtime>(
    rt: &R,
    alloc: Global,
    machine: M,
    best: &mut [Crowd; 4],
) -> M {
    let mut machine = machine;
    for crowd in best.iter_mut() {
        machine = booked(rt, alloc, machine, Use::Entries(crowd)).0;
        empty(&mut machine);
        locked(rt, alloc, &mut machine, crowd);
    }
    machine
}

/// Prints whether an entry costs so little that it can't have waited for anybody.
pub(crate) fn show_quick<M: Shows + Drop, R: Runtime>(
    rt: &R,
    alloc: Global,
    machine: M,
) -> io::Result<()> {
    let mut machine = machine;
    let mut best = Crowd::of(0);
    for _round in 0..ALONE {
        machine = booked(rt, alloc, machine, Use::Entries(&mut best)).0;
        empty(&mut machine);
        locked(rt, alloc, &mut machine, &mut best);
    }
    println!(rt;
        "entries wait for nobody: {}",
        best.seats < best.lock.saturating_mul(DEAR)
    )
}

/// Returns the nanoseconds of 1,000 looks. Returns 0 if no round counted.
fn by_thousand(took: u64) -> u64 {
    if took == u64::MAX {
        return 0;
    }
    took / (LOOKS / 1_000)
}

pub(crate) fn tell_crowd<R: Print>(rt: &R, best: &Crowd) -> io::Result<()> {
    let threads = best.threads;
    let seats = by_thousand(best.seats);
    let lock = by_thousand(best.lock);
    if threads == 0 {
        return println!(rt; "1,000 looks alone: {seats} ns by a seat, {lock} ns under a read lock");
    }
    println!(rt;
        "the same by each of {threads} threads, beside one that submits: {seats} ns, {lock} ns"
    )
}
