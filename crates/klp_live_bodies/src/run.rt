//! Doing the steps of a body.
ghost use Rattle.std.specs.Prelude.{◌≡◌, ◌+◌, ◌<◌, ◌≤◌, ◌^◌, ◌++◌, ◌∷◌, [], true, false, List, length, IfSome, IfNone};
ghost use Rattle.std.specs.Prelude.{MatchBool, MatchResult, slice_get, Some, Ok, Err, vec_len, vec_capacity};
ghost use mathlib.Core.List.{IsPrefix};
ghost use Rattle.klp_types.specs.declared.limits.TheConstants.{MAX_FRAMES};
ghost use Rattle.klp_model.specs.Legal.{IsLegal};
ghost use Rattle.klp_live_bodies.specs.declared.step.Outcome.{Outcome as AnyOutcome};
ghost use Rattle.klp_live_bodies.specs.Steps.{CameTo, IsSubmission, IsCall, frames_after, taken_by, submits};
ghost use Rattle.klp_live_bodies.specs.Running.{Learns, IsStepped, IsFinished, IsCutShort};

use crate::fault::BodyCause;
use crate::gate::Gate;
use crate::step::{Accepted, Outcome, Step, What};
use crossbeam_utils::rule::Protocol;
use klp_core::Machine;
use klp_live::{Live, LiveRefusal, Published, Start, TaskPass, View};
use klp_model::Event;
use klp_types::{Frames, MAX_FRAMES, Site, TaskId};
use std::alloc::Global;
use std::sync::Wait;

/// How often a gate is asked at most before one step.
const TRIES: u32 = 1_000_000;

/// Asks the gate until it lets the task in, at most `TRIES` times. Returns the gate's last answer.
fn waits_for_gate<G: Gate>(gate: &G, task: TaskId, step: u32) -> bool
    ensures { G.answers gate.now task step result }
{
    for _try in 1..TRIES {
        if gate.before(task, step) {
            return true;
        }
    }
    gate.before(task, step)
}

/// Submits an event and returns its result. Returns `None` if there was no memory.
fn submitted<S: Start + Protocol<Published, View>, M: Machine + Drop, R: Wait + Drop, W: Wait>(
    rt: &W,
    alloc: Global,
    live: &Live<S, M, R>,
    pass: &mut TaskPass<S>,
    event: Event,
) -> Option<What>
    ensures learns { IfSome result (λ what. Learns pass.old pass.new what) }
    ensures came { IfSome result (λ what. IsSubmission S.setting S.base (length pass.old.knows.list)
        pass.new.knows.list event what) }
    ensures none { IfNone result (pass.new ≡ pass.old) }
{
    match pass.submit(rt, alloc, live, event) {
        Ok(receipt) => {
            let (number, kept) = receipt.into_parts();
            Some(What::Receipt(Accepted::new(number, kept)))
        }
        Err(LiveRefusal::Refused(refusal)) => Some(What::Refused(refusal)),
        Err(LiveRefusal::NoMemory) => None,
    }
}

/// Whether the task is inside of as many versions as a list of frames has room for.
fn is_full(frames: &Frames) -> bool
    ensures { MatchBool result (length frames.now ≡ MAX_FRAMES) (length frames.now < MAX_FRAMES) }
{
    frames.count() >= MAX_FRAMES
}

/// Calls the function at a site, and returns the result. The result is the entered version, or why no version was
/// entered. If the list of frames is full, the result is `Deep`.
fn called<S: Start + Protocol<Published, View>>(
    pass: &mut TaskPass<S>,
    frames: &mut Frames,
    site: Site,
) -> What
    ensures learns { Learns pass.old pass.new result }
    ensures frames { frames.new ≡ frames_after frames.old result }
    ensures came { IsCall S.setting S.base pass.old.task (length pass.old.knows.list) frames.old pass.new.knows.list
        site result }
{
    if is_full(frames) {
        return What::Deep;
    }
    match pass.enter(site) {
        Ok(target) => {
            frames.push(target.version);
            What::Entered(target)
        }
        Err(fault) => What::NoEntry(fault),
    }
}

/// Does a step and returns its result. Returns `None` if there was no memory.
fn came_to<S: Start + Protocol<Published, View>, M: Machine + Drop, R: Wait + Drop, W: Wait>(
    rt: &W,
    alloc: Global,
    live: &Live<S, M, R>,
    pass: &mut TaskPass<S>,
    frames: &mut Frames,
    step: &Step,
) -> Option<What>
    ensures learns { IfSome result (λ what. Learns pass.old pass.new what) }
    ensures frames { IfSome result (λ what. frames.new ≡ frames_after frames.old what) }
    ensures came { IfSome result (λ what. CameTo S.setting S.base pass.old.task (length pass.old.knows.list)
        frames.old pass.new.knows.list step.now what) }
    ensures none { IfNone result (pass.new ≡ pass.old) }
    ensures why { IfNone result (submits step.now ≡ true) }
{
    match step {
        Step::Submit(event) => submitted(rt, alloc, live, pass, *event),
        Step::Nap => submitted(rt, alloc, live, pass, Event::Sleep(pass.task(), *frames)),
        Step::Call(site) => Some(called(pass, frames, *site)),
        Step::Return => {
            frames.pop();
            Some(What::Returned)
        }
    }
}

/// Does a step. Returns the step's outcome, with the number of events that the task knew after the step. Returns `None`
/// if there was no memory.
fn done<S: Start + Protocol<Published, View>, M: Machine + Drop, R: Wait + Drop, W: Wait>(
    rt: &W,
    alloc: Global,
    live: &Live<S, M, R>,
    pass: &mut TaskPass<S>,
    frames: &mut Frames,
    step: &Step,
) -> Option<Outcome>
    ensures done { IfSome result (λ outcome. IsStepped S.setting S.base pass.old pass.new frames.old frames.new
        step.now outcome) }
    ensures none { IfNone result (pass.new ≡ pass.old) }
    ensures why { IfNone result (submits step.now ≡ true) }
{
    let what = came_to(rt, alloc, live, pass, frames, step)?;
    Some(Outcome {
        known: pass.rows(),
        what,
    })
}

/// Does all steps, and appends the outcome of each step to `out`. Stops early if the gate doesn't let the task in, or
/// if there is no memory.
pub(crate) fn run_steps<
    S: Start + Protocol<Published, View>,
    G: Gate,
    M: Machine + Drop,
    R: Wait + Drop,
    W: Wait,
>(
    rt: &W,
    alloc: Global,
    live: &Live<S, M, R>,
    gate: &G,
    pass: &mut TaskPass<S>,
    steps: &[Step],
    out: &mut Vec<Outcome>,
) -> Result<(), BodyCause>
    requires few { length steps.now < 2 ^ 32 }
    ensures { (outcomes : List AnyOutcome) × (out.new.items ≡ out.old.items ++ outcomes) × MatchResult result
        (λ _. IsFinished S.setting S.base (G.answers gate.now) pass.old pass.new steps.now outcomes)
        (λ cause. IsCutShort S.setting S.base (G.answers gate.now) pass.old pass.new cause steps.now outcomes) }
{
    let task = pass.task();
    let _legal = pass.rows();
    if out.reserve(steps.len()).is_err() {
        return Err(BodyCause::NoMemory);
    }
    let mut frames = Frames::new();
    for (number, step) in steps.iter().enumerate() {
        if !waits_for_gate(gate, task, number as u32) {
            return Err(BodyCause::Held);
        }
        let Some(outcome) = done(rt, alloc, live, pass, &mut frames, step) else {
            return Err(BodyCause::NoMemory);
        };
        out.push_reserved(outcome);
    }
    Ok(())
}
