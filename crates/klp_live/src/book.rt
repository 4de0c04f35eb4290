//! The book: the manager, with the history and the table that it publishes.
ghost use Rattle.std.specs.Prelude.{◌≡◌, ◌<◌, ◌≤◌, ◌^◌, length, Ok, Err, MatchResult, MatchOption};
ghost use Rattle.klp_model.specs.Legal.{IsLegal, state_after_history};
ghost use Rattle.klp_model.specs.Rows.{moving_patch};
ghost use Rattle.klp_model.specs.Run.{answer, next};
ghost use Rattle.klp_manager_state.specs.Managed.{setting_of};
ghost use Rattle.klp_core.specs.Taking.{IsTaken};
ghost use Rattle.klp_core.specs.Rewinding.{IsRewound};
ghost use Rattle.klp_live.specs.Admitting.{IsAdmitted, IsManagerOf, IsRefused};
ghost use Rattle.klp_live.specs.Publishing.{IsPublished};

use crate::change::change_after;
use crate::history::Start;
use crate::kept::Kept;
use crate::published::{Published, View};
use crate::publisher::Publisher;
use crate::refusal::LiveRefusal;
use crate::seat::{Receipt, Seat};
use crossbeam_utils::rule::Protocol;
use klp_core::Machine;
use klp_core::laws::the_journal_alone_is_full;
use klp_model::{Event, Refusal, Reply};
use klp_types::PatchId;
use std::alloc::Global;
use std::marker::Model;
use std::sync::Wait;

/// The manager with its history and the table that it publishes. Only the owner of the book, or a thread that has
/// locked it, can have events accepted. So the book must be under a lock or in one thread. Dropping the book waits
/// until no seat reads. For this wait the book stores a handle.
#[derive(Drop)]
pub struct Book<S: Start + Protocol<Published, View>, M: Machine + Drop, R: Wait + Drop> {
    pub(crate) machine: M,
    pub(crate) publisher: Publisher<S, R>,
}

impl<S: Start + Protocol<Published, View>, M: Machine + Drop, R: Wait + Drop> Model
    for Book<S, M, R> {
    ghost use Rattle.std.specs.Coded.{codes};
    ghost use Rattle.klp_world.specs.Coded.{world_code};
    ghost use Rattle.klp_live.specs.Admitting.{Booked, IsManagerOf};

    ghost Value = { Booked };

    ghost coded = { Prim.hlevel (codes, world_code) };

    ghost view = { λ b. record { list = b.publisher; manager = M.journaled b.machine } };

    ghost invariant = { λ b. IsManagerOf S.setting S.base (M.journaled b.machine) b.publisher };
}

impl<S: Start + Protocol<Published, View>, M: Machine + Drop, R: Wait + Drop> Book<S, M, R> {
    /// Returns how many events were accepted since the book was opened.
    pub fn rows(&self) -> u64
        ensures rows { result ≡ length self.now.list }
        ensures legal { IsLegal S.setting S.base self.now.list }
    {
        self.publisher.front().len()
    }

    /// Returns the manager, for reading only. Only `admit` changes the manager, so that manager and published table
    /// always agree.
    pub fn machine(&self) -> &M
        ensures machine { M.journaled result.now ≡ self.now.manager }
        ensures kept { IsManagerOf S.setting S.base self.now.manager self.now.list }
    {
        &self.machine
    }

    /// Passes an event to the manager for a seat. If the event is accepted, appends its row to the history and
    /// publishes the row. The call waits until no reader is left in the older of the two tables. The cost is that of
    /// the manager's `apply`, and twice the cost of the event's changes of a table. If there is no memory to publish
    /// the event, it is taken back by its own undo records and refused with `NoMemory`.
    pub fn admit<W: Wait>(
        &mut self,
        rt: &W,
        alloc: Global,
        seat: &mut Seat<S>,
        event: Event,
    ) -> Result<Receipt<S>, LiveRefusal>
        ensures { MatchResult result
            (λ receipt. IsAdmitted S.setting S.base event self.old self.new seat.old seat.new receipt)
            (λ fault. IsRefused S.setting S.base event self.old self.new seat.old seat.new fault) }
    {
        the_journal_alone_is_full();
        self.publisher.must_cover(rt, seat);
        let mark = self.machine.mark();
        let moving = self.machine.in_transition();
        match &accept(&mut self.machine, event) {
            Err(refusal) => {
                self.publisher.catch_up(seat);
                Err(LiveRefusal::Refused(*refusal))
            }
            Ok(reply) => match publish(
                rt,
                alloc,
                &self.machine,
                &mut self.publisher,
                seat,
                &event,
                reply,
                moving,
            ) {
                Some(receipt) => Ok(receipt),
                None => {
                    take_back(&mut self.machine, mark);
                    Err(LiveRefusal::NoMemory)
                }
            },
        }
    }
}

/// Passes an event to the machine. `mark` is called for its contract.
fn accept<M: Machine>(machine: &mut M, event: Event) -> Result<Reply, Refusal>
    ensures taken { IsTaken (M.journaled machine.old) (M.journaled machine.new) event result }
    ensures setting { setting_of (M.journaled machine.new).managed ≡ setting_of (M.journaled machine.old).managed }
{
    let _for_its_clause = machine.mark();
    machine.apply(event)
}

/// Publishes the row of an event that was just accepted. Returns `None` if there is no memory to publish it.
fn publish<S: Start + Protocol<Published, View>, M: Machine, R: Wait + Drop, W: Wait>(
    rt: &W,
    alloc: Global,
    machine: &M,
    publisher: &mut Publisher<S, R>,
    seat: &mut Seat<S>,
    event: &Event,
    reply: &Reply,
    moving: Option<PatchId>,
) -> Option<Receipt<S>>
    requires room { length publisher.old < 2 ^ 62 }
    requires answered { answer S.setting (state_after_history S.setting S.base publisher.old) event.now ≡ Ok reply.now }
    requires setting { setting_of (M.journaled machine.now).managed ≡ S.setting }
    requires state { (M.journaled machine.now).managed.state
        ≡ next S.setting (state_after_history S.setting S.base publisher.old) event.now }
    requires moving { moving ≡ moving_patch (state_after_history S.setting S.base publisher.old).moving }
    ensures { MatchOption result
        ((publisher.new ≡ publisher.old) × (seat.new ≡ seat.old))
        (λ receipt. IsPublished S.setting S.base (event.now, reply.now) publisher.old publisher.new seat.old seat.new
        receipt) }
{
    let Ok(change) = change_after(alloc, machine, event, moving) else {
        return None;
    };
    let Ok(kept) = Kept::of(alloc, event, reply) else {
        return None;
    };
    publisher.publish(rt, seat, event, reply, kept, change)
}

/// Takes back all events since this mark.
fn take_back<M: Machine>(machine: &mut M, mark: u32)
    requires { mark ≤ length (M.journaled machine.old).groups }
    ensures { IsRewound (M.journaled machine.old) (M.journaled machine.new) mark }
{
    let _for_its_clause = machine.mark();
    let _ = machine.rewind(mark);
}
