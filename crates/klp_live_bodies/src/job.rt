//! Jobs: bodies with their steps, as they are passed to a thread and back.
ghost use Rattle.std.specs.Prelude.{◌≡◌, ◌<◌, ◌^◌, ◌||◌, true, is_some, vec_len};

use crate::body::TaskBody;
use crate::fault::BodyFault;
use crate::gate::Gate;
use crate::step::{Outcome, Step};
use crossbeam_utils::rule::Protocol;
use klp_live::{Published, Start, TaskPass, View};
use std::alloc::Global;

/// A body with its steps. Once the body has run, the job also has the outcomes of the steps.
#[derive(Drop)]
pub struct Job<S: Start + Protocol<Published, View>, G: Gate + Drop> {
    pub(crate) steps: Vec<Step>,
    pub(crate) outcomes: Vec<Outcome>,
    /// The body. `None` once the body has run.
    pub(crate) body: Option<TaskBody<S, G>>,
    /// How the body ended. `None` until the body has run.
    pub(crate) ended: Option<Result<TaskPass<S>, BodyFault<S>>>,
    ghost few: { vec_len steps < 2 ^ 32 },
    ghost there: { (is_some body || is_some ended) ≡ true },
}

impl<S: Start + Protocol<Published, View>, G: Gate + Drop> Job<S, G> {
    ghost use Rattle.std.specs.Prelude.{[], Some, None, Ok, MatchOption};
    ghost use Rattle.klp_live_bodies.specs.Jobs.{body_of, steps_of, ended_of, outcomes_of};

    /// Makes a job that hasn't run. The call allocates nothing, since the list of outcomes is allocated when the job
    /// runs.
    pub fn new(alloc: Global, body: TaskBody<S, G>, steps: Vec<Step>) -> Job<S, G>
        requires { vec_len steps < 2 ^ 32 }
        ensures body { body_of result ≡ Some body }
        ensures steps { steps_of result ≡ steps.items }
        ensures ended { ended_of result ≡ None }
        ensures outcomes { outcomes_of result ≡ [] }
    {
        Job {
            steps,
            outcomes: Vec::new(alloc),
            body: Some(body),
            ended: None,
        }
    }

    /// Returns how the job's body ended, and the outcomes of its steps. If the job hasn't run, returns the body's pass
    /// and no outcomes.
    pub fn end(self) -> (Result<TaskPass<S>, BodyFault<S>>, Vec<Outcome>)
        ensures outcomes { result.1.items ≡ outcomes_of self }
        ensures ended { MatchOption (ended_of self)
            (MatchOption (body_of self) ⊥ (λ body. result.0 ≡ Ok body.pass))
            (λ ended. result.0 ≡ ended) }
    {
        let Job {
            steps: _steps,
            outcomes,
            body,
            ended,
        } = self;
        let ended = match (ended, body) {
            (Some(ended), _) => ended,
            (None, Some(body)) => Ok(body.into_pass()),
            (None, None) => unreachable!(),
        };
        (ended, outcomes)
    }
}
