//! Judges a trace, and finds the tasks that hold a transition up at its end. The trace is read again, and done with a
//! newly booted manager. So the result follows from the rules and the trace alone, however the trace was found.
ghost use Rattle.std.specs.Prelude.{◌≡◌, ◌≤◌, ◌++◌, length, Ok, OnOk, IfOk, IfSome};
ghost use Rattle.klp_program.specs.Watches.{Watches};
ghost use Rattle.klp_capture_run.specs.Holders.{IsJudgement, LagOver, holder_at, holders_from, holders_in};

use klp_boot::{Fault, ManagerUse, over_text};
use klp_core::{Lag, Manager};
use klp_program::{Verdict, verdict_of};
use klp_trace::Trace;
use klp_types::{MAX_TASKS, Version};
use klp_watch::compare_whole;
use std::alloc::{AllocError, Global};

/// For each task number, why the task isn't at the target of the transition. `None` if the task is at the target, or if
/// there is no such task.
pub type Lags = [Option<Lag>; MAX_TASKS];

/// A task that holds a transition up.
#[derive(Clone, Copy)]
pub struct Holder {
    /// The task's number in the trace.
    pub number: usize,
    /// The function that the task sleeps in.
    pub version: Version,
}

/// The verdict on a trace, and who lags at its end.
#[derive(Drop)]
pub(crate) struct Judgement {
    pub(crate) verdict: Verdict,
    /// `None` if an item breaks the rules.
    pub(crate) lags: Option<Lags>,
}

/// A trace that is judged.
#[derive(Drop)]
struct Judged<'a> {
    trace: &'a [u8],
}

impl ManagerUse for Judged<'_> {
    type Done = Result<Judgement, Fault>;

    ghost comes_to = { λ before _ booted ended. IfOk ended
        (λ judgement. IsJudgement booted before.trace.now judgement.verdict judgement.lags) };

    /// Replays the trace once. The manager is left at its end, where it shows who lags.
    fn run(&mut self, alloc: Global, manager: &mut Manager) -> Result<Judgement, Fault> {
        let trace = Trace::read(alloc, self.trace, manager)?;
        let ended = compare_whole(manager, &trace.items);
        let verdict = verdict_of(ended, &trace.items);
        match ended {
            Ok(_) => Ok(Judgement {
                verdict,
                lags: Some(manager.holders()),
            }),
            Err(_) => Ok(Judgement {
                verdict,
                lags: None,
            }),
        }
    }
}

/// Returns the verdict of `klpwatch` on a trace, and which tasks lag at its end, and why. `catalog` is the catalog's
/// text. Returns `Err` if the catalog or the trace has a fault, or if memory runs out.
pub(crate) fn judgement_over(
    alloc: Global,
    catalog: &[u8],
    trace: &[u8],
) -> Result<Judgement, Fault>
    ensures judged { IfOk result
        (λ judgement. Watches catalog.now trace.now (Ok judgement.verdict)) }
    ensures lags { IfOk result
        (λ judgement. IfSome judgement.lags (λ lags. LagOver catalog.now trace.now lags)) }
{
    let judgement = over_text(alloc, catalog, &mut Judged { trace })??;
    Ok(judgement)
}

/// Adds a task if it holds a transition up.
fn add(list: &mut Vec<Holder>, number: usize, lag: Option<Lag>) -> Result<(), AllocError>
    ensures { OnOk result (list.new.items ≡ list.old.items ++ holder_at number lag) }
{
    match lag {
        Some(Lag::Holds(version)) => list.push(Holder { number, version })?,
        _ => {}
    }
    Ok(())
}

fn listed(alloc: Global, lags: &[Option<Lag>]) -> Result<Vec<Holder>, AllocError>
    ensures { IfOk result (λ list. list.items ≡ holders_from 0 lags.now) }
{
    let mut list = Vec::new(alloc);
    for number in 0..lags.len() {
        add(&mut list, number, lags[number])?;
    }
    Ok(list)
}

/// Returns the tasks that hold a transition up, in the order of their numbers.
pub(crate) fn holders_of(alloc: Global, lags: &Option<Lags>) -> Result<Vec<Holder>, AllocError>
    ensures { IfOk result (λ list. list.items ≡ holders_in lags.now) }
{
    match lags {
        Some(lags) => listed(alloc, lags),
        None => Ok(Vec::new(alloc)),
    }
}
