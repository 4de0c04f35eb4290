//! The book of events, and the passes of running tasks.
ghost use Rattle.std.specs.Prelude.{◌≡◌, ◌≢◌, ◌⊎◌, length, MatchResult, IfOk, IfErr, vec_len};
ghost use mathlib.Core.List.{IsPrefix};
ghost use Rattle.klp_model.specs.Legal.{IsLegal};
ghost use Rattle.klp_live.specs.Admitting.{IsAdmitted, IsRefused};
ghost use Rattle.klp_live.specs.Closing.{IsOutcome, IsClosed};
ghost use Rattle.klp_live.specs.Passing.{IsEntered};
ghost use Rattle.klp_live.specs.Seats.{IsLast};

use crossbeam_utils::rule::Protocol;
use klp_core::Machine;
use klp_live::{
    Book, CloseFault, EnterFault, Live, LiveRefusal, Published, Receipt, Seat, Start, TaskPass,
    View,
};
use klp_model::{Event, Reply};
use klp_types::{Site, Target};
use std::alloc::Global;
use std::sync::Wait;

/// Passes an event to the manager for a seat, as [`Book::admit`] does.
pub fn admit<S: Start + Protocol<Published, View>, M: Machine + Drop, R: Wait + Drop, W: Wait>(
    book: &mut Book<S, M, R>,
    rt: &W,
    alloc: Global,
    seat: &mut Seat<S>,
    event: Event,
) -> Result<Receipt<S>, LiveRefusal>
    ensures { MatchResult result
        (λ receipt. IsAdmitted S.setting S.base event book.old book.new seat.old seat.new receipt)
        (λ fault. IsRefused S.setting S.base event book.old book.new seat.old seat.new fault) }
{
    book.admit(rt, alloc, seat, event)
}

/// Submits an event, as [`TaskPass::submit`] does.
pub fn submit<S: Start + Protocol<Published, View>, M: Machine + Drop, R: Wait + Drop, W: Wait>(
    pass: &mut TaskPass<S>,
    rt: &W,
    alloc: Global,
    live: &Live<S, M, R>,
    event: Event,
) -> Result<Receipt<S>, LiveRefusal>
    ensures outcome { IsOutcome S.setting S.base event pass.old.knows pass.new.knows result }
    ensures task { pass.new.task ≡ pass.old.task }
{
    pass.submit(rt, alloc, live, event)
}

/// Returns the version that a call of the task runs, as [`TaskPass::enter`] does.
pub fn enter<S: Start + Protocol<Published, View>>(
    pass: &mut TaskPass<S>,
    site: Site,
) -> Result<Target, EnterFault>
    ensures entered { IsEntered S.setting S.base pass.old.task site pass.old.knows pass.new.knows result }
    ensures task { pass.new.task ≡ pass.old.task }
{
    pass.enter(site)
}

/// Adds the events of a receipt to the known history, as [`TaskPass::hear`] does.
pub fn hear<S: Start + Protocol<Published, View>>(pass: &mut TaskPass<S>, receipt: &Receipt<S>)
    ensures own { IsPrefix pass.old.knows.list pass.new.knows.list }
    ensures heard { IsPrefix receipt.now.list pass.new.knows.list }
    ensures one { (pass.new.knows.list ≡ pass.old.knows.list) ⊎ (pass.new.knows.list ≡ receipt.now.list) }
    ensures accepted { pass.new.knows.accepted ≡ pass.old.knows.accepted }
    ensures legal { IsLegal S.setting S.base pass.new.knows.list }
    ensures task { pass.new.task ≡ pass.old.task }
{
    pass.hear(receipt);
}

/// Returns the number of a receipt's event, as [`Receipt::number`] does.
pub fn number<S: Start>(receipt: &Receipt<S>) -> u64
    ensures number { result ≡ receipt.now.number }
    ensures last { receipt.now.number ≡ length receipt.now.list }
    ensures legal { IsLegal S.setting S.base receipt.now.list }
{
    receipt.number()
}

/// Returns the event of a receipt, as [`Receipt::event`] does.
pub fn event<S: Start>(receipt: &Receipt<S>) -> Event
    ensures event { result ≡ receipt.now.event }
    ensures last { IsLast receipt.now.list receipt.now.event receipt.now.reply }
{
    receipt.event()
}

/// Returns the reply of a receipt, as [`Receipt::reply`] does.
pub fn reply<S: Start>(receipt: &Receipt<S>) -> Reply
    ensures { result ≡ receipt.now.reply }
{
    receipt.reply()
}

/// Ends a start and returns its manager, as [`Live::close`] does.
pub fn close<S: Start + Protocol<Published, View>, M: Machine + Drop, R: Wait + Drop, W: Wait>(
    live: Live<S, M, R>,
    rt: &W,
    seats: Vec<Seat<S>>,
) -> Result<M, CloseFault<S, M, R>>
    ensures missing { IfErr result (λ fault. (fault.seats ≡ seats) × (vec_len seats ≢ S.parts)) }
    ensures closed { IfOk result (λ machine. (vec_len seats ≡ S.parts)
        × IsClosed S.setting S.base (M.journaled machine) seats.items) }
{
    live.close(rt, seats)
}
