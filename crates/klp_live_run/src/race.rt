//! Runs the steps of two task threads over one machine, and undoes all events that were accepted.
ghost use Rattle.std.specs.Prelude.{◌≡◌, ◌<◌, ◌≤◌, [], ◌∷◌, ◌++◌, vec_len, Some, Ok, IsSomeAnd, IfOk, IfErr, OnOk};
ghost use Rattle.klp_types.specs.declared.limits.TheConstants.{MAX_TASKS};
ghost use Rattle.klp_live.specs.Opening.{IsFresh};
ghost use Rattle.klp_live.specs.Passing.{Passing};
ghost use Rattle.klp_live.specs.Shown.{RuleIs};
ghost use Rattle.klp_manager_state.specs.Managed.{setting_of};
ghost use Rattle.klp_core.specs.Rewinding.{IsRewound};
ghost use Rattle.klp_live_bodies.specs.declared.fault.BodyCause.TheVariants.{NoMemory};
ghost use Rattle.klp_live_bodies.specs.Jobs.{body_of, steps_of, ended_of, outcomes_of};
ghost use Rattle.klp_live_run.specs.Racing.{knows_nothing, HaveEnded, HaveRun, HaveRunBoth};
ghost use Rattle.klp_live_run.specs.Living.{IsRunFault};

use crate::fault::LiveFault;
use crate::step_lines::{MAX_STEPS, Steps};
use crossbeam_utils::rule::Protocol;
use klp_core::Machine;
use klp_live::{Live, Opened, Published, Seat, Start, View};
use klp_live_bodies::{BodyCause, Gate, Job, Outcome, Step, TaskBody, run_two};
use klp_types::TaskId;
use std::alloc::{AllocError, Global};
use std::marker::Brand;
use std::sync::Wait;
use std::sync::ledger::Blank;
use std::thread::Threads;

/// The number of the first task. `SECOND` is the number of the other task.
pub(crate) const FIRST: TaskId = TaskId(1);

pub(crate) const SECOND: TaskId = TaskId(2);

/// A gate that never stops a task.
#[derive(Clone, Copy)]
struct Open;

impl Gate for Open {
    ghost use Rattle.std.specs.Prelude.{◌≡◌, true};

    ghost answers = { λ _ _ _ is_let_in. is_let_in ≡ true };

    fn before(&self, _task: TaskId, _step: u32) -> bool {
        true
    }
}

/// The outcomes of the steps of each task, after all steps are done.
#[derive(Drop)]
pub(crate) struct Done {
    pub(crate) first: Vec<Outcome>,
    pub(crate) second: Vec<Outcome>,
}

/// Gives a task this seat, and returns the job of the task's steps.
fn job_of<S: Start + Protocol<Published, View>, M: Machine + Drop, R: Wait + Drop>(
    alloc: Global,
    live: &Live<S, M, R>,
    seat: Seat<S>,
    task: TaskId,
    steps: Vec<Step>,
) -> Job<S, Open>
    requires there { task < MAX_TASKS }
    requires few { vec_len steps ≤ MAX_STEPS }
    ensures body { IsSomeAnd (body_of result) (λ body. body.pass ≡ record { task = task; knows = seat }) }
    ensures steps { steps_of result ≡ steps.items }
{
    match live.attach(seat, task) {
        Ok(pass) => Job::new(alloc, TaskBody::new(pass, Open), steps),
        Err(_) => unreachable!(),
    }
}

/// Returns the seat of a job that has run, and the outcomes of its steps. The gate never stops a task, so a job can
/// stop only because memory runs out. If the job stopped, returns `NoMemory`.
fn ended<S: Start + Protocol<Published, View>>(
    job: Job<S, Open>,
) -> Result<(Seat<S>, Vec<Outcome>), LiveFault>
    requires { IsSomeAnd (ended_of job) (λ ended. IfErr ended (λ fault. fault.cause ≡ NoMemory)) }
    ensures done { IfOk result (λ pair. (pass : Passing) × (ended_of job ≡ Some (Ok pass)) × (pair.0 ≡ pass.knows)
        × (pair.1.items ≡ outcomes_of job)) }
    ensures fault { IfErr result IsRunFault }
{
    let (ended, outcomes) = job.end();
    match ended {
        Ok(pass) => Ok((pass.detach(), outcomes)),
        Err(fault) => match fault.cause {
            BodyCause::NoMemory => Err(LiveFault::NoMemory),
            BodyCause::Held => unreachable!(),
        },
    }
}

/// Puts both seats back into the list of seats.
fn give_back<S: Start + Protocol<Published, View>>(
    seats: &mut Vec<Seat<S>>,
    first: Seat<S>,
    second: Seat<S>,
) -> Result<(), AllocError>
    ensures { OnOk result (seats.new.items ≡ seats.old.items ++ first ∷ second ∷ []) }
{
    seats.push(first)?;
    seats.push(second)?;
    Ok(())
}

/// Runs the steps of both tasks. Returns the seats and the outcomes. The seats must not know of any event before the
/// call.
fn run_both<
    S: Start + Protocol<Published, View> + Send + Sync,
    M: Machine + Drop + Send,
    R: Threads + Wait + Sync,
>(
    rt: &R,
    alloc: Global,
    live: &Live<S, M, &R>,
    seats: Vec<Seat<S>>,
    steps: Steps,
) -> Result<(Vec<Seat<S>>, Done), LiveFault>
    requires two { seats.items ≡ knows_nothing ∷ knows_nothing ∷ [] }
    requires first { vec_len steps.first ≤ MAX_STEPS }
    requires second { vec_len steps.second ≤ MAX_STEPS }
    ensures done { IfOk result (λ both. HaveEnded S.setting S.base steps.first.items steps.second.items both.1
        both.0.items) }
    ensures fault { IfErr result IsRunFault }
{
    let mut seats = seats;
    let (Some(second), Some(first)) = (seats.pop(), seats.pop()) else {
        unreachable!()
    };
    let Steps {
        first: of_first,
        second: of_second,
    } = steps;
    let mut one = job_of(alloc, live, first, FIRST, of_first);
    let mut two = job_of(alloc, live, second, SECOND, of_second);
    run_two(rt, alloc, live, &mut one, &mut two);
    let (one, first) = ended(one)?;
    let (two, second) = ended(two)?;
    give_back(&mut seats, one, two)?;
    Ok((seats, Done { first, second }))
}

/// Makes a start over the machine, runs the steps of both tasks, and closes the start. Returns the machine and the
/// outcomes.
fn run_over_start<
    S: Start + Protocol<Published, View> + Send + Sync,
    M: Machine + Drop + Send,
    R: Threads + Wait + Sync,
>(
    rt: &R,
    alloc: Global,
    blank: Blank,
    opened: Opened,
    machine: M,
    steps: Steps,
) -> Result<(M, Done), LiveFault>
    requires name { blank.name ≡ S.name }
    requires parts { (blank.parts ≡ S.parts) × (blank.parts ≡ 2) }
    requires book { opened.seen.book ≡ S.book }
    requires rule { RuleIs S.holds S.first S.setting S.base S.book }
    requires fresh { IsFresh S.setting S.base (M.journaled machine) }
    requires first { vec_len steps.first ≤ MAX_STEPS }
    requires second { vec_len steps.second ≤ MAX_STEPS }
    ensures done { IfOk result (λ ran. HaveRun S.setting S.base (M.journaled ran.0) steps.first.items
        steps.second.items ran.1) }
    ensures fault { IfErr result IsRunFault }
{
    let (live, seats) = match Live::<S, M, &R>::start(rt, alloc, blank, opened, machine, 2) {
        Ok(start) => start,
        Err(fault) => return Err(LiveFault::of_start(fault.cause)),
    };
    let (seats, done) = run_both(rt, alloc, &live, seats, steps)?;
    match live.close(rt, seats) {
        Ok(machine) => Ok((machine, done)),
        Err(_) => unreachable!(),
    }
}

/// Runs the steps of both tasks over a machine whose journal is empty, and undoes all events that were accepted. This
/// function owns the machine, so it chooses the kind of start.
pub(crate) fn run_and_rewind<M: Machine + Drop + Send, R: Threads + Wait + Sync>(
    rt: &R,
    alloc: Global,
    machine: M,
    steps: Steps,
) -> Result<(M, Done), LiveFault>
    requires empty { (M.journaled machine).groups ≡ [] }
    requires first { vec_len steps.first ≤ MAX_STEPS }
    requires second { vec_len steps.second ≤ MAX_STEPS }
    ensures done { IfOk result (λ ran. HaveRunBoth (M.journaled machine) (M.journaled ran.0) steps.first.items
        steps.second.items ran.1) }
    ensures fault { IfErr result IsRunFault }
{
    let (machine, done) = run_over_start::<Brand, M, R>(
        rt,
        alloc,
        Blank::new(2),
        Opened::new(),
        machine,
        steps,
    )?;
    Ok((rewound_machine(machine), done))
}

/// Undoes all accepted events, and returns the machine.
fn rewound_machine<M: Machine>(machine: M) -> M
    ensures setting { setting_of (M.journaled result).managed ≡ setting_of (M.journaled machine).managed }
    ensures rewound { IsRewound (M.journaled machine) (M.journaled result) 0 }
{
    let mut machine = machine;
    let _for_its_clause = machine.mark();
    let _ = machine.rewind(0);
    machine
}
