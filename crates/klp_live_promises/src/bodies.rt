//! The bodies of task threads, and the outcomes of their steps.
ghost use Rattle.std.specs.Prelude.{◌≡◌, ◌<◌, ◌^◌, ◌++◌, List, length};
ghost use Rattle.klp_live_bodies.specs.declared.step.Outcome.{Outcome as AnyOutcome};
ghost use Rattle.klp_live_bodies.specs.Running.{Ends};

use crossbeam_utils::rule::Protocol;
use klp_core::Machine;
use klp_live::{Live, Published, Start, TaskPass, View};
use klp_live_bodies::{Accepted, BodyFault, Gate, Outcome, Step, TaskBody};
use klp_model::{Event, Reply};
use std::alloc::Global;
use std::sync::Wait;

/// Does the steps of a body, as [`TaskBody::run`] does.
pub fn run<
    S: Start + Protocol<Published, View>,
    G: Gate + Drop,
    M: Machine + Drop,
    R: Wait + Drop,
    W: Wait,
>(
    body: TaskBody<S, G>,
    rt: &W,
    alloc: Global,
    live: &Live<S, M, R>,
    steps: &[Step],
    out: &mut Vec<Outcome>,
) -> Result<TaskPass<S>, BodyFault<S>>
    requires { length steps.now < 2 ^ 32 }
    ensures { (outcomes : List AnyOutcome) × (out.new.items ≡ out.old.items ++ outcomes)
        × Ends S.setting S.base (G.answers body.gate) body.pass steps.now outcomes result }
{
    body.run(rt, alloc, live, steps, out)
}

/// Returns the number of an accepted event, as [`Accepted::number`] does.
pub fn number(accepted: &Accepted) -> u64
    ensures { result ≡ accepted.now.number }
{
    accepted.number()
}

/// Returns an accepted event, as [`Accepted::event`] does.
pub fn event(accepted: &Accepted) -> Event
    ensures { result ≡ accepted.now.event }
{
    accepted.event()
}

/// Returns the reply to an accepted event, as [`Accepted::reply`] does.
pub fn reply(accepted: &Accepted) -> Reply
    ensures { result ≡ accepted.now.reply }
{
    accepted.reply()
}
