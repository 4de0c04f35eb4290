//! The calls that a task's thread makes while it runs the task.
ghost use Rattle.std.specs.Prelude.{◌≡◌, length, ◌⊎◌, Err, IfSome};
ghost use mathlib.Core.List.{IsPrefix};
ghost use Rattle.klp_model.specs.Legal.{IsLegal};
ghost use Rattle.left_right.specs.Sides.{view as seen_by};
ghost use Rattle.klp_live.specs.Seats.{IsOne};
ghost use Rattle.klp_live.specs.Shown.{RuleIs, IsTable};
ghost use Rattle.klp_live.specs.Closing.{IsOutcome};
ghost use Rattle.klp_live.specs.Passing.{IsAnswered, IsEntered};

use crate::board::Place;
use crate::history::{Front, Start};
use crate::live::Live;
use crate::published::{Published, View};
use crate::refusal::LiveRefusal;
use crate::seat::{Receipt, Seat};
use crate::target::{EnterFault, tables_answer_what_the_machine_picks, target_of};
use crossbeam_utils::rule::{Outcome, Protocol};
use klp_core::Machine;
use klp_model::Event;
use klp_types::{Site, Target, TaskId};
use std::alloc::Global;
use std::marker::{Model, PhantomData};
use std::sync::Wait;

/// The outcome of a read, for contracts only.
pub struct Reads<S: Start> {
    of: PhantomData<S>,
}

impl<S: Start> Outcome<Published, View> for Reads<S> {
    ghost use Rattle.klp_live.specs.Passing.{IsRead};

    ghost then = { λ v x y w. IsRead S.setting S.base v x y w };
}

/// An answer, with the history on which the answer is based.
#[derive(Drop)]
pub struct Answer<S: Start> {
    found: Result<Target, EnterFault>,
    front: Front<S>,
}

/// Reads the published table once, and returns the reader with the answer. If the book has ended, there is no answer.
#[inline(always)]
fn look<S: Start + Protocol<Published, View>>(
    reader: Place<S>,
    task: TaskId,
    site: Site,
) -> (Place<S>, Option<Answer<S>>)
    requires rule { RuleIs S.holds S.first S.setting S.base S.book }
    requires known { IsOne S.book (seen_by reader.place) }
    ensures known { IsOne S.book (seen_by result.0.place) }
    ensures found { IfSome result.1 (λ answer. IsAnswered S.setting S.base task site answer.front answer.found) }
{
    tables_answer_what_the_machine_picks();
    match reader.enter_as::<Reads<S>>() {
        Err(reader) => (reader, None),
        Ok(reading) => {
            let shown = reading.get();
            let answer = Answer {
                found: target_of(&shown.table, task, site),
                front: front_of::<S>(shown),
            };
            (reading.leave(), Some(answer))
        }
    }
}

/// Returns the history of a published table.
#[inline(always)]
fn front_of<S: Start>(shown: &Published) -> Front<S>
    requires table { IsTable S.setting S.base shown.now }
    requires book { shown.now.seen.book ≡ S.book }
    ensures { result ≡ shown.now.seen.log }
{
    Front {
        rows: shown.rows,
        seen: shown.seen.again(),
        of: PhantomData,
    }
}

/// Returns `NoTable` if the answer's history is shorter than that of the front. Otherwise returns the answer, and the
/// front gets the answer's history.
#[inline(always)]
fn adopt<S: Start>(front: &mut Front<S>, answer: Answer<S>) -> Result<Target, EnterFault>
    ensures { ((result ≡ Err EnterFault.NoTable) × (front.new ≡ front.old))
        ⊎ ((result ≡ answer.found) × (front.new ≡ answer.front) × IsPrefix front.old front.new) }
{
    if !answer.front.covers(front) {
        return Err(EnterFault::NoTable);
    }
    *front = answer.front.again();
    answer.found
}

impl<S: Start + Protocol<Published, View>> Seat<S> {
    /// Returns the version that a call of the task at the site runs, by the published table. Afterwards the seat knows
    /// the history of that table. The cost is two look-ups and the steps of `left_right`. The call takes no lock,
    /// allocates nothing, and never waits.
    #[inline(always)]
    pub fn enter(&mut self, task: TaskId, site: Site) -> Result<Target, EnterFault>
        ensures { IsEntered S.setting S.base task site self.old self.new result }
    {
        let Some(reader) = self.reader.take() else {
            return Err(EnterFault::NoTable);
        };
        let (reader, answer) = look::<S>(reader, task, site);
        self.reader = Some(reader);
        match answer {
            Some(answer) => adopt(&mut self.front, answer),
            None => Err(EnterFault::NoTable),
        }
    }
}

/// A running task with its seat. Through the seat the task's thread knows the history. A pass is for one task, so
/// `enter` needs no task number.
#[derive(Drop)]
pub struct TaskPass<S: Start + Protocol<Published, View>> {
    task: TaskId,
    seat: Seat<S>,
}

impl<S: Start + Protocol<Published, View>> Model for TaskPass<S> {
    ghost use Rattle.klp_live.specs.Passing.{Passing};

    ghost Value = { Passing };

    ghost view = { λ p. record { task = p.task; knows = p.seat } };
}

impl<S: Start + Protocol<Published, View>> TaskPass<S> {
    /// Makes the pass of a task with this seat.
    pub(crate) fn new(seat: Seat<S>, task: TaskId) -> TaskPass<S>
        ensures { result ≡ record { task = task; knows = seat } }
    {
        TaskPass { task, seat }
    }

    /// Returns the task that has the pass.
    pub fn task(&self) -> TaskId
        ensures { result ≡ self.now.task }
    {
        self.task
    }

    /// Returns how many rows of the history the pass knows.
    pub fn rows(&self) -> u64
        ensures rows { result ≡ length self.now.knows.list }
        ensures legal { IsLegal S.setting S.base self.now.knows.list }
    {
        self.seat.rows()
    }

    /// Returns the seat. The seat still knows the history that the pass knew, and can be given to another task.
    pub fn detach(self) -> Seat<S>
        ensures { result ≡ self.knows }
    {
        let TaskPass { task: _task, seat } = self;
        seat
    }

    /// Submits an event. The call takes the lock, so it may wait. If the event is accepted, the pass afterwards knows
    /// the history up to this event. If the event is refused, the pass afterwards knows the history after which the
    /// event was refused. If memory ran out, the history that the pass knows doesn't change.
    pub fn submit<M: Machine + Drop, R: Wait + Drop, W: Wait>(
        &mut self,
        rt: &W,
        alloc: Global,
        live: &Live<S, M, R>,
        event: Event,
    ) -> Result<Receipt<S>, LiveRefusal>
        ensures outcome { IsOutcome S.setting S.base event self.old.knows self.new.knows result }
        ensures task { self.new.task ≡ self.old.task }
    {
        live.admit(rt, alloc, &mut self.seat, event)
    }

    /// Adds the event of a receipt, and all events before it, to the known history. Each later `enter` of this pass
    /// sees the effects of these events.
    pub fn hear(&mut self, receipt: &Receipt<S>)
        ensures own { IsPrefix self.old.knows.list self.new.knows.list }
        ensures heard { IsPrefix receipt.now.list self.new.knows.list }
        ensures one { (self.new.knows.list ≡ self.old.knows.list) ⊎ (self.new.knows.list ≡ receipt.now.list) }
        ensures accepted { self.new.knows.accepted ≡ self.old.knows.accepted }
        ensures legal { IsLegal S.setting S.base self.new.knows.list }
        ensures task { self.new.task ≡ self.old.task }
    {
        self.seat.hear(receipt)
    }

    /// Returns the version that a call of the task at the site runs. The version is looked up in one published table,
    /// whose history has all rows that the pass knows. The call takes no lock, allocates nothing, and doesn't wait.
    pub fn enter(&mut self, site: Site) -> Result<Target, EnterFault>
        ensures entered { IsEntered S.setting S.base self.old.task site self.old.knows self.new.knows result }
        ensures task { self.new.task ≡ self.old.task }
    {
        self.seat.enter(self.task, site)
    }
}
