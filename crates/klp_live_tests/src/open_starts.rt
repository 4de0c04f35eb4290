//! An open start. Its methods are the tests. Each method is in the module of what it tests.
ghost use Rattle.std.specs.Prelude.{◌<◌};
ghost use Rattle.klp_types.specs.declared.limits.TheConstants.{MAX_TASKS};

use crossbeam_utils::rule::Protocol;
use klp_core::Machine;
use klp_live::{Live, Published, Seat, Start, TaskPass, View};
use klp_types::{MAX_TASKS, TaskId};
use std::alloc::Global;
use std::sync::Wait;

/// The seats of the two tasks. Each test gets both, and returns both.
pub(crate) type TwoSeats<S> = (Seat<S>, Seat<S>);

/// An open start, with the runtime and the memory for its tasks.
#[derive_where(Clone, Copy)]
pub(crate) struct OpenStart<'l, 'r, S, M, R>
where
    S: Start + Protocol<Published, View>,
    M: Machine + Drop,
    R: Wait,
{
    pub(crate) rt: &'r R,
    pub(crate) alloc: Global,
    pub(crate) live: &'l Live<S, M, &'r R>,
}

impl<S, M, R> OpenStart<'_, '_, S, M, R>
where
    S: Start + Protocol<Published, View>,
    M: Machine + Drop,
    R: Wait,
{
    /// Gives a task this seat, and returns the task's pass. Before this, a number that no task can have is refused.
    pub(crate) fn attached(&self, seat: Seat<S>, task: TaskId) -> TaskPass<S>
        requires { task < MAX_TASKS }
    {
        let live = self.live;
        let seat = match live.attach(seat, TaskId(MAX_TASKS as u8)) {
            Ok(_) => unreachable!(),
            Err((seat, _)) => seat,
        };
        match live.attach(seat, task) {
            Ok(pass) => pass,
            Err(_) => unreachable!(),
        }
    }
}
