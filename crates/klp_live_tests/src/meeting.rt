//! Runs two bodies that can pass their gates only if both bodies are running at the same time.
use crate::gates::Flags;
use crate::handles::Runtime;
use crate::names::{FIRST, SECOND};
use crate::open_starts::{OpenStart, TwoSeats};
use crate::outcomes::Detail;
use crate::pairs::{Ran, Steps};
use crossbeam_utils::rule::Protocol;
use klp_core::Machine;
use klp_live::{Published, Start, View};
use klp_live_bodies::{Gate, Step};
use klp_model::Event;
use klp_types::TaskId;
use std::alloc::{AllocError, Global};
use std::io;
use std::sync::Wait;

/// How often the two bodies are run.
const ROUNDS: u64 = 1_000;

/// Returns steps in which a task enters the kernel and leaves it.
fn turn(task: TaskId) -> [Step; 2] {
    [
        Step::Submit(Event::EnterKernel(task)),
        Step::Submit(Event::ExitToUser(task)),
    ]
}

fn turns(alloc: Global) -> Result<Steps, AllocError> {
    let first = Vec::from_array(alloc, turn(FIRST))?;
    let second = Vec::from_array(alloc, turn(SECOND))?;
    Ok(Steps { first, second })
}

impl<S, M, R> OpenStart<'_, '_, S, M, R>
where
    S: Start + Protocol<Published, View> + Send + Sync,
    M: Machine + Drop + Send,
    R: Runtime,
{
    /// Runs both tasks, each in its own thread.
    fn meet(&self, seats: TwoSeats<S>) -> (TwoSeats<S>, io::Result<Ran>) {
        let flags = Flags::new();
        self.run_pair(seats, flags.gates(), turns(self.alloc))
    }

    /// Lets the two tasks meet again and again, and prints how often they met. The tasks have met if neither body
    /// stopped early.
    pub(crate) fn show_meetings(&self, seats: TwoSeats<S>) -> (TwoSeats<S>, io::Result<()>) {
        let mut seats = seats;
        let mut count: u64 = 0;
        for _round in 0..ROUNDS {
            let (same, ran) = self.meet(seats);
            seats = same;
            let met = matches!(&ran, Ok(ran) if ran.have_ended);
            count = count.saturating_add(u64::from(met));
        }
        let rt = self.rt;
        (seats, println!(rt; "met {count} times"))
    }
}

impl<S, M, R> OpenStart<'_, '_, S, M, R>
where
    S: Start + Protocol<Published, View>,
    M: Machine + Drop,
    R: Wait + Print,
{
    /// Runs the two bodies in one thread, one after the other. The gate stops the first body, since the other body
    /// isn't running yet.
    pub(crate) fn show_apart(&self, seats: TwoSeats<S>) -> (TwoSeats<S>, io::Result<()>) {
        let flags = Flags::new();
        let steps = (turn(FIRST), turn(SECOND));
        self.show_both(seats, flags.gates(), (&steps.0, &steps.1), Detail::Kinds)
    }
}

/// Asks the two gates in turn, in one thread. The gate that is asked first never lets its task in.
pub(crate) fn show_turns<R: Print>(rt: &R) -> io::Result<()> {
    let flags = Flags::new();
    let (one, two) = flags.gates();
    let asked = [
        one.before(FIRST, 1),
        two.before(SECOND, 1),
        one.before(FIRST, 1),
        two.before(SECOND, 1),
    ];
    println!(rt; "{asked:?}")
}
