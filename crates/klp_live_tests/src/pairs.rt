//! Jobs of two tasks, and the return of their seats. Each return of a function is proved on its own. So a function that
//! has a seat passes the seat on before any other way to return.
ghost use Rattle.std.specs.Prelude.{◌<◌, ◌^◌, IsSome, vec_len};
ghost use Rattle.klp_types.specs.declared.limits.TheConstants.{MAX_TASKS};
ghost use Rattle.klp_live_bodies.specs.Jobs.{body_of};

use crate::handles::Runtime;
use crate::measure::since;
use crate::names::{FIRST, SECOND};
use crate::open_starts::{OpenStart, TwoSeats};
use crossbeam_utils::rule::Protocol;
use klp_core::Machine;
use klp_live::{Published, Seat, Start, TaskPass, View};
use klp_live_bodies::{BodyCause, BodyFault, Gate, Job, Step, TaskBody, run_two};
use klp_types::TaskId;
use std::alloc::{AllocError, Global};
use std::io;
use std::sync::Wait;
use std::time::Instant;

/// A number of steps that no job of the tests reaches.
const STEPS: usize = 100_000;

/// The steps of both tasks.
#[derive(Drop)]
pub(crate) struct Steps {
    pub(crate) first: Vec<Step>,
    pub(crate) second: Vec<Step>,
}

/// Returns the seat of a body that has ended. If the body stopped early, also returns the cause.
pub(crate) fn seat_of<S: Start + Protocol<Published, View>>(
    ended: Result<TaskPass<S>, BodyFault<S>>,
) -> (Seat<S>, Option<BodyCause>) {
    match ended {
        Ok(pass) => (pass.detach(), None),
        Err(BodyFault { pass, cause }) => (pass.detach(), Some(cause)),
    }
}

/// Prints the cause for which a body stopped early. Prints nothing if there is none.
pub(crate) fn show_cause<R: Print>(rt: &R, cause: Option<BodyCause>) -> io::Result<()> {
    match cause {
        Some(cause) => println!(rt; "{cause:?}"),
        None => Ok(()),
    }
}

/// How two jobs ended.
#[derive(Clone, Copy)]
pub(crate) struct Ran {
    pub(crate) have_ended: bool,
    /// How many nanoseconds passed until both jobs had ended.
    pub(crate) took: u64,
}

/// Returns the seat of a job. If the job's body stopped early, also returns the cause.
fn end_of<S: Start + Protocol<Published, View>, G: Gate + Drop>(
    job: Job<S, G>,
) -> (Seat<S>, Option<BodyCause>) {
    let (ended, _outcomes) = job.end();
    seat_of(ended)
}

/// Prints the cause for each of two jobs that stopped early. Returns how the jobs ended.
fn show_ran<R: Print>(
    rt: &R,
    causes: (Option<BodyCause>, Option<BodyCause>),
    took: io::Result<u64>,
) -> io::Result<Ran> {
    show_cause(rt, causes.0)?;
    show_cause(rt, causes.1)?;
    Ok(Ran {
        have_ended: causes.0.is_none() && causes.1.is_none(),
        took: took.unwrap_or(u64::MAX),
    })
}

/// Returns the seats of two jobs, and how the jobs ended.
fn ends_of<S: Start + Protocol<Published, View>, G: Gate + Drop, R: Print>(
    rt: &R,
    one: Job<S, G>,
    two: Job<S, G>,
    took: io::Result<u64>,
) -> (TwoSeats<S>, io::Result<Ran>) {
    let (first, cause) = end_of(one);
    let (second, other) = end_of(two);
    ((first, second), show_ran(rt, (cause, other), took))
}

impl<S, M, R> OpenStart<'_, '_, S, M, R>
where
    S: Start + Protocol<Published, View>,
    M: Machine + Drop,
    R: Wait,
{
    /// Returns the job of a task, which has this seat.
    fn job_of<G: Gate + Drop>(
        &self,
        seat: Seat<S>,
        task: TaskId,
        gate: G,
        steps: Vec<Step>,
    ) -> Job<S, G>
        requires { task < MAX_TASKS }
        ensures { IsSome (body_of result) }
    {
        let pass = self.attached(seat, task);
        let mut steps = steps;
        steps.truncate(STEPS);
        Job::new(self.alloc, TaskBody::new(pass, gate), steps)
    }
}

impl<S, M, R> OpenStart<'_, '_, S, M, R>
where
    S: Start + Protocol<Published, View> + Send + Sync,
    M: Machine + Drop + Send,
    R: Runtime,
{
    /// Runs two jobs, and returns how many nanoseconds passed until both jobs had ended.
    fn run_timed<G: Gate + Drop + Send>(
        &self,
        one: &mut Job<S, G>,
        two: &mut Job<S, G>,
    ) -> io::Result<u64>
        requires first { IsSome (body_of one.old) }
        requires second { IsSome (body_of two.old) }
    {
        let rt = self.rt;
        let live = self.live;
        let start = Instant::now(rt);
        run_two(rt, self.alloc, live, one, two);
        since(rt, start?)
    }

    /// Lets both tasks do their steps, each in its own thread. If there was no memory for the steps, `steps` is `Err`,
    /// and nothing is run.
    pub(crate) fn run_pair<G: Gate + Drop + Send>(
        &self,
        seats: TwoSeats<S>,
        gates: (G, G),
        steps: Result<Steps, AllocError>,
    ) -> (TwoSeats<S>, io::Result<Ran>) {
        let Steps { first, second } = match steps {
            Ok(steps) => steps,
            Err(error) => return (seats, Err(io::Error::from(error))),
        };
        let mut one = self.job_of(seats.0, FIRST, gates.0, first);
        let mut two = self.job_of(seats.1, SECOND, gates.1, second);
        let took = self.run_timed(&mut one, &mut two);
        ends_of(self.rt, one, two, took)
    }
}
