//! Running two jobs at once. There is one function that takes the body out of a job, and another that stores how the
//! body ended. The two are separate, since each drops an old value (docs/DECISIONS.md, "One way out for an owner").
ghost use Rattle.std.specs.Prelude.{◌≡◌, ◌<◌, ◌^◌, [], length, Some, None, IsSome, IfSome, vec_len};
ghost use Rattle.klp_live_bodies.specs.Jobs.{body_of, IsRun};
ghost use Rattle.klp_live_bodies.specs.Running.{Ends};

use crate::body::TaskBody;
use crate::fault::BodyFault;
use crate::gate::Gate;
use crate::job::Job;
use crate::step::{Outcome, Step};
use crossbeam_utils::rule::Protocol;
use klp_core::Machine;
use klp_live::{Live, Published, Start, TaskPass, View};
use std::alloc::Global;
use std::sync::Wait;
use std::thread::{Threads, join};

/// Runs a body from its beginning, and returns how it ended, with the outcomes of its steps.
fn go<
    S: Start + Protocol<Published, View>,
    G: Gate + Drop,
    M: Machine + Drop,
    R: Wait + Drop,
    W: Wait,
>(
    rt: &W,
    alloc: Global,
    live: &Live<S, M, R>,
    body: TaskBody<S, G>,
    steps: &[Step],
) -> (Result<TaskPass<S>, BodyFault<S>>, Vec<Outcome>)
    requires { length steps.now < 2 ^ 32 }
    ensures { Ends S.setting S.base (G.answers body.gate) body.pass steps.now result.1.items result.0 }
{
    let mut outcomes = Vec::new(alloc);
    let ended = body.run(rt, alloc, live, steps, &mut outcomes);
    (ended, outcomes)
}

/// Takes the body out of a job that hasn't run.
fn taken<S: Start + Protocol<Published, View>, G: Gate + Drop>(
    body: &mut Option<TaskBody<S, G>>,
) -> TaskBody<S, G>
    requires { IsSome body.old }
    ensures body { body.old ≡ Some result }
    ensures left { body.new ≡ None }
{
    match body.take() {
        Some(body) => body,
        None => unreachable!(),
    }
}

/// Stores in a job how its body ended, with the outcomes of its steps.
fn keep<S: Start + Protocol<Published, View>>(
    ended: &mut Option<Result<TaskPass<S>, BodyFault<S>>>,
    outcomes: &mut Vec<Outcome>,
    end: Result<TaskPass<S>, BodyFault<S>>,
    answered: Vec<Outcome>,
)
    ensures ended { ended.new ≡ Some end }
    ensures outcomes { outcomes.new ≡ answered }
{
    *ended = Some(end);
    *outcomes = answered;
}

/// Runs the bodies of two jobs, and waits for both. If a second thread can be made, the bodies run at the same time.
/// Otherwise they run one after the other.
pub fn run_two<
    S: Start + Protocol<Published, View> + Send + Sync,
    G: Gate + Drop + Send,
    M: Machine + Drop + Send,
    R: Wait + Drop + Send,
    W: Threads + Wait + Sync,
>(rt: &W, alloc: Global, live: &Live<S, M, R>, a: &mut Job<S, G>, b: &mut Job<S, G>)
    requires first { IsSome (body_of a.old) }
    requires second { IsSome (body_of b.old) }
    ensures first { IfSome (body_of a.old) (λ body. IsRun S.setting S.base G.answers body a.old a.new) }
    ensures second { IfSome (body_of b.old) (λ body. IsRun S.setting S.base G.answers body b.old b.new) }
{
    let (first, second) = (taken(&mut a.body), taken(&mut b.body));
    let (mine, other) = (a.steps.as_slice(), b.steps.as_slice());
    let ((one, answered), (two, heard)) = join(
        rt,
        || go(rt, alloc, live, first, mine),
        || go(rt, alloc, live, second, other),
    );
    keep(&mut a.ended, &mut a.outcomes, one, answered);
    keep(&mut b.ended, &mut b.outcomes, two, heard);
}
