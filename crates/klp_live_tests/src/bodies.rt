//! Runs the bodies of two tasks in one thread, one after the other.
ghost use Rattle.std.specs.Prelude.{◌<◌, ◌^◌, length};
ghost use Rattle.klp_types.specs.declared.limits.TheConstants.{MAX_TASKS};

use crate::gates::Slow;
use crate::names::{FIRST, NOWHERE, PATCH, PATCHED, SECOND};
use crate::open_starts::{OpenStart, TwoSeats};
use crate::outcomes::{Detail, show_outcomes};
use crate::pairs::{seat_of, show_cause};
use crossbeam_utils::rule::Protocol;
use klp_core::Machine;
use klp_live::{Published, Seat, Start, View};
use klp_live_bodies::{BodyCause, Gate, Outcome, Step, TaskBody};
use klp_model::Event;
use klp_types::TaskId;
use std::alloc::Global;
use std::io;
use std::sync::Wait;
use std::sync::atomic::{AtomicU64, Ordering};

/// The steps of both tasks, and how often their shared gate refuses. Also says how much is printed of the outcomes.
/// Without a number of refusals, the gate never refuses, and nothing is printed about the gate.
#[derive(Clone, Copy)]
struct Bodies<'a>(&'a [Step], &'a [Step], Option<u64>, Detail);

/// The steps of a task. Each step is done as soon as the gate lets the task in.
#[derive(Drop)]
struct Body<'a, G> {
    task: TaskId,
    gate: G,
    steps: &'a [Step],
}

/// How a body ended: the outcomes of its steps, and the cause if it stopped early.
#[derive(Drop)]
struct Ended {
    outcomes: Vec<Outcome>,
    cause: Option<BodyCause>,
}

/// Returns the first 100 steps. No body of the tests has more.
fn few(steps: &[Step]) -> &[Step]
    ensures { length result.now < 2 ^ 32 }
{
    steps.get(..100).unwrap_or(steps)
}

/// Prints how a body with `steps` steps ended.
fn show_ended<R: Print>(rt: &R, steps: usize, ended: &Ended, detail: Detail) -> io::Result<()> {
    show_outcomes(rt, steps, &ended.outcomes, detail)?;
    show_cause(rt, ended.cause)
}

/// The first task enables a patch. It leaves the kernel once, and after that runs the patch.
fn enables() -> [Step; 5] {
    const ALL: [Step; 5] = [
        Step::Submit(Event::Enable(PATCH)),
        Step::Call(PATCHED),
        Step::Submit(Event::EnterKernel(FIRST)),
        Step::Submit(Event::ExitToUser(FIRST)),
        Step::Call(PATCHED),
    ];
    ALL
}

/// The second task isn't told that the patch was enabled. It hasn't left the kernel yet, so it first runs the original.
/// It can't enable the patch again. After it has left the kernel once, it runs the patch.
fn hears_nothing() -> [Step; 5] {
    const ALL: [Step; 5] = [
        Step::Call(PATCHED),
        Step::Submit(Event::Enable(PATCH)),
        Step::Submit(Event::EnterKernel(SECOND)),
        Step::Submit(Event::ExitToUser(SECOND)),
        Step::Call(PATCHED),
    ];
    ALL
}

/// A task falls asleep and wakes up. While it sleeps, it is inside of the versions that it entered and hasn't returned
/// from.
fn naps() -> [Step; 13] {
    const ALL: [Step; 13] = [
        Step::Return,
        Step::Nap,
        Step::Submit(Event::EnterKernel(FIRST)),
        Step::Call(PATCHED),
        Step::Submit(Event::Enable(PATCH)),
        Step::Submit(Event::Force(PATCH)),
        Step::Call(NOWHERE),
        Step::Call(PATCHED),
        Step::Call(PATCHED),
        Step::Return,
        Step::Nap,
        Step::Submit(Event::Wake(FIRST)),
        Step::Submit(Event::ExitToUser(FIRST)),
    ];
    ALL
}

/// A task calls until its list of frames is full, returns from all versions, and then returns once too often.
fn goes_deep() -> [Step; 71] {
    let mut steps = [Step::Call(PATCHED); 71];
    steps[34] = Step::Return;
    for number in 37..70 {
        steps[number] = Step::Return;
    }
    steps
}

/// Prints how often the gate was asked. Prints nothing if `refuses` is `None`.
fn show_asked<R: Print>(rt: &R, refuses: Option<u64>, asked: &AtomicU64) -> io::Result<()> {
    if refuses.is_none() {
        return Ok(());
    }
    println!(rt; "asked {}", asked.load(Ordering::SeqCst))
}

impl<S, M, R> OpenStart<'_, '_, S, M, R>
where
    S: Start + Protocol<Published, View>,
    M: Machine + Drop,
    R: Wait + Print,
{
    /// Gives a task this seat, does the task's steps, and returns the seat.
    fn run_body<G: Gate + Drop>(&self, seat: Seat<S>, body: Body<'_, G>) -> (Seat<S>, Ended)
        requires { body.task < MAX_TASKS }
    {
        let Body { task, gate, steps } = body;
        let live = self.live;
        let mut outcomes = Vec::new(self.alloc);
        let body = TaskBody::new(self.attached(seat, task), gate);
        let ended = body.run(self.rt, self.alloc, live, few(steps), &mut outcomes);
        let (seat, cause) = seat_of(ended);
        (seat, Ended { outcomes, cause })
    }

    /// Gives a task this seat, does the task's steps, prints their outcomes, and returns the seat.
    fn show_body<G: Gate + Drop>(
        &self,
        seat: Seat<S>,
        body: Body<'_, G>,
        detail: Detail,
    ) -> (Seat<S>, io::Result<()>)
        requires { body.task < MAX_TASKS }
    {
        let count = body.steps.len();
        let (seat, ended) = self.run_body(seat, body);
        (seat, show_ended(self.rt, count, &ended, detail))
    }

    /// Runs the body of the first task, then that of the second, and prints the outcomes of both.
    pub(crate) fn show_both<G: Gate + Drop>(
        &self,
        seats: TwoSeats<S>,
        gates: (G, G),
        steps: (&[Step], &[Step]),
        detail: Detail,
    ) -> (TwoSeats<S>, io::Result<()>) {
        let one = Body {
            task: FIRST,
            gate: gates.0,
            steps: steps.0,
        };
        let two = Body {
            task: SECOND,
            gate: gates.1,
            steps: steps.1,
        };
        let (first, came) = self.show_body(seats.0, one, detail);
        let (second, heard) = self.show_body(seats.1, two, detail);
        ((first, second), came.and(heard))
    }

    /// Runs bodies whose gate counts how often it is asked, and prints their outcomes.
    fn show_counted(
        &self,
        seats: TwoSeats<S>,
        bodies: &Bodies<'_>,
    ) -> (TwoSeats<S>, io::Result<()>) {
        let Bodies(first, second, refuses, detail) = *bodies;
        let asked = AtomicU64::new(0);
        let gate = Slow {
            asked: &asked,
            refuses: refuses.unwrap_or(0),
        };
        let (seats, came) = self.show_both(seats, (gate, gate), (first, second), detail);
        (seats, came.and(show_asked(self.rt, refuses, &asked)))
    }

    /// Runs each of these pairs of bodies, and prints their outcomes.
    fn show_each(&self, seats: TwoSeats<S>, all: &[Bodies<'_>]) -> (TwoSeats<S>, io::Result<()>) {
        let mut seats = seats;
        let mut came = Ok(());
        for bodies in all {
            let (same, shown) = self.show_counted(seats, bodies);
            seats = same;
            came = came.and(shown);
        }
        (seats, came)
    }

    /// Runs all these bodies. They enable a patch, nap, and call deep. Their gate lets a task in late or never.
    pub(crate) fn show_bodies(&self, seats: TwoSeats<S>) -> (TwoSeats<S>, io::Result<()>) {
        let (enables, hears_nothing) = (enables(), hears_nothing());
        let (naps, deep) = (naps(), goes_deep());
        let returns = [Step::Return; 2];
        let all = [
            Bodies(&enables, &hears_nothing, Some(0), Detail::All),
            Bodies(&naps, &[], None, Detail::All),
            Bodies(&deep, &[], None, Detail::Kinds),
            Bodies(&returns, &[], Some(999_999), Detail::Kinds),
            Bodies(&returns, &[], Some(1_000_000), Detail::Kinds),
        ];
        self.show_each(seats, &all)
    }
}
