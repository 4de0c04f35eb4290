//! Measures how much two bodies do in a second. There are three cases: both submit events under the one lock, both
//! enter functions, or one submits while the other enters.
ghost use Rattle.std.specs.Prelude.{◌≡◌, []};

use crate::gates::Open;
use crate::handles::Runtime;
use crate::names::{FIRST, PATCHED, SECOND};
use crate::open_starts::{OpenStart, TwoSeats};
use crate::pairs::{Ran, Steps};
use crate::shows::{Shows, empty, prepare};
use crate::starts::{HandedBack, Run, started};
use crossbeam_utils::rule::Protocol;
use klp_core::Machine;
use klp_live::{Published, Start, View};
use klp_live_bodies::Step;
use klp_model::Event;
use klp_types::TaskId;
use std::alloc::{AllocError, Global};
use std::io;

/// How many events a body submits in a round. The events of two bodies fill half of the journal.
const EVENTS: u64 = 1_000;

/// How many functions a body enters and leaves in a round.
const ENTRIES: u64 = 2_500;

/// What a body does.
#[derive(Clone, Copy)]
enum Work {
    Submits,
    Enters,
}

/// The work of each of the two bodies, and how many nanoseconds they took in the best round.
#[derive(Clone, Copy)]
struct Timed {
    works: (Work, Work),
    took: u64,
}

impl Timed {
    /// Returns the time before the first round.
    fn of(first: Work, second: Work) -> Timed {
        Timed {
            works: (first, second),
            took: u64::MAX,
        }
    }
}

/// The best times of all rounds.
#[derive(Clone, Copy)]
pub(crate) struct Best([Timed; 3]);

impl Best {
    /// Returns the times before the first round.
    pub(crate) fn new() -> Best {
        Best([
            Timed::of(Work::Submits, Work::Submits),
            Timed::of(Work::Enters, Work::Enters),
            Timed::of(Work::Submits, Work::Enters),
        ])
    }
}

/// Returns the steps of a body that does this work.
fn steps_of(alloc: Global, task: TaskId, work: Work) -> Result<Vec<Step>, AllocError> {
    let (pair, times) = match work {
        Work::Submits => (
            [
                Step::Submit(Event::EnterKernel(task)),
                Step::Submit(Event::ExitToUser(task)),
            ],
            EVENTS / 2,
        ),
        Work::Enters => ([Step::Call(PATCHED), Step::Return], ENTRIES),
    };
    let mut steps = Vec::new(alloc);
    for _time in 0..times {
        steps.extend_from_slice(&pair)?;
    }
    Ok(steps)
}

fn both_steps(alloc: Global, works: (Work, Work)) -> Result<Steps, AllocError> {
    let first = steps_of(alloc, FIRST, works.0)?;
    let second = steps_of(alloc, SECOND, works.1)?;
    Ok(Steps { first, second })
}

fn keep(timed: &mut Timed, ran: io::Result<Ran>) -> io::Result<()> {
    timed.took = timed.took.min(ran?.took);
    Ok(())
}

/// Returns how many steps are done in a second, if `count` steps took `took` nanoseconds.
fn rate(count: u64, took: u64) -> u128 {
    u128::from(count) * 1_000_000_000 / u128::from(took.max(1))
}

impl<S, M, R> OpenStart<'_, '_, S, M, R>
where
    S: Start + Protocol<Published, View> + Send + Sync,
    M: Machine + Drop + Send,
    R: Runtime,
{
    /// Runs one round with the two seats. In a round, each pair of works is done once.
    pub(crate) fn round(
        &self,
        seats: TwoSeats<S>,
        best: &mut Best,
    ) -> (TwoSeats<S>, io::Result<()>) {
        let mut seats = seats;
        let mut ended = Ok(());
        for timed in best.0.iter_mut() {
            let steps = both_steps(self.alloc, timed.works);
            let (same, ran) = self.run_pair(seats, (Open, Open), steps);
            seats = same;
            ended = ended.and(keep(timed, ran));
        }
        (seats, ended)
    }
}

/// Undoes all events of a machine, and measures one round over it.
fn measured<M: Shows + Drop + Send, R: Runtime>(
    rt: &R,
    alloc: Global,
    machine: M,
    best: &mut Best,
) -> HandedBack<M> {
    let mut machine = machine;
    empty(&mut machine);
    started(rt, alloc, machine, 2, Run::Round(best))
}

/// Measures `rounds` rounds over a machine with two tasks, and prints the best times.
pub(crate) fn rounds_of<M: Shows + Drop + Send, R: Runtime>(
    rt: &R,
    alloc: Global,
    machine: M,
    rounds: u64,
) -> io::Result<()> {
    let mut machine = machine;
    let mut best = Best::new();
    let mut ended = Ok(());
    prepare(&mut machine);
    for _round in 0..rounds {
        let (same, ran) = measured(rt, alloc, machine, &mut best);
        ended = ended.and(ran);
        match same {
            Ok(same) => machine = same,
            Err(missing) => return println!(rt; "{missing}"),
        }
    }
    ended.and(print_best(rt, &best))
}

fn print_best<R: Print>(rt: &R, best: &Best) -> io::Result<()> {
    let [submit, enter, beside] = best.0;
    println!(rt;
        "both submit: {} events a second\n\
        both enter: {} entries a second\n\
        one submits, one enters: {} events and {} entries a second",
        rate(2 * EVENTS, submit.took),
        rate(2 * ENTRIES, enter.took),
        rate(EVENTS, beside.took),
        rate(ENTRIES, beside.took)
    )
}
