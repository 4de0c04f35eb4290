//! A body: a list of steps that one task does.
ghost use Rattle.std.specs.Prelude.{◌≡◌};

use crate::fault::BodyFault;
use crate::gate::Gate;
use crate::run::run_steps;
use crate::step::{Outcome, Step};
use crossbeam_utils::rule::Protocol;
use klp_core::Machine;
use klp_live::{Live, Published, Start, TaskPass, View};
use std::alloc::Global;
use std::sync::Wait;

/// A task's pass, with a gate. Before each step, the gate decides whether the task may do the step.
#[derive(Drop)]
pub struct TaskBody<S: Start + Protocol<Published, View>, G: Gate + Drop> {
    pub pass: TaskPass<S>,
    pub gate: G,
}

impl<S: Start + Protocol<Published, View>, G: Gate + Drop> TaskBody<S, G> {
    ghost use Rattle.std.specs.Prelude.{◌<◌, ◌^◌, ◌++◌, List, length};
    ghost use Rattle.klp_live_bodies.specs.declared.step.Outcome.{Outcome as AnyOutcome};
    ghost use Rattle.klp_live_bodies.specs.Running.{Ends};

    /// Makes the body of the task that has this pass.
    pub fn new(pass: TaskPass<S>, gate: G) -> TaskBody<S, G>
        ensures pass { result.pass ≡ pass }
        ensures gate { result.gate ≡ gate }
    {
        TaskBody { pass, gate }
    }

    /// Returns the pass of a body that hasn't run.
    pub(crate) fn into_pass(self) -> TaskPass<S>
        ensures { result ≡ self.pass }
    {
        let TaskBody { pass, gate: _gate } = self;
        pass
    }

    /// Does the steps one after the other. Before each step the call waits until the gate lets the task in. After each
    /// step its outcome is appended to `out`. Submitting an event may wait. If the body stops before the last step,
    /// `out` has the outcomes of the steps that were done.
    pub fn run<M: Machine + Drop, R: Wait + Drop, W: Wait>(
        self,
        rt: &W,
        alloc: Global,
        live: &Live<S, M, R>,
        steps: &[Step],
        out: &mut Vec<Outcome>,
    ) -> Result<TaskPass<S>, BodyFault<S>>
        requires { length steps.now < 2 ^ 32 }
        ensures { (outcomes : List AnyOutcome) × (out.new.items ≡ out.old.items ++ outcomes)
            × Ends S.setting S.base (G.answers self.gate) self.pass steps.now outcomes result }
    {
        let TaskBody { pass, gate } = self;
        let mut pass = pass;
        match run_steps(rt, alloc, live, &gate, &mut pass, steps, out) {
            Ok(()) => Ok(pass),
            Err(cause) => Err(BodyFault { pass, cause }),
        }
    }
}
