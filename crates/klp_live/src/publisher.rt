//! The publisher: the history of accepted events, and the board that shows the table after this history.
ghost use Rattle.std.specs.Prelude.{◌≡◌, ◌<◌, ◌≤◌, ◌^◌, ◌++◌, ◌∷◌, [], length, Ok, MatchBool, MatchOption};
ghost use mathlib.Core.List.{IsPrefix};
ghost use Rattle.klp_model.specs.Legal.{IsLegal, state_after_history};
ghost use Rattle.klp_model.specs.Run.{answer};
ghost use Rattle.klp_model.specs.Rows.{moving_patch};
ghost use Rattle.klp_live.specs.Dispatch.{IsStep, rows_in};
ghost use Rattle.klp_live.specs.Touched.{rows_touched};
ghost use Rattle.klp_live.specs.Kept.{event_kept, reply_kept};
ghost use Rattle.klp_live.specs.Admitting.{IsShown};
ghost use Rattle.klp_live.specs.Publishing.{IsPublished};
ghost use Rattle.klp_live.specs.Shown.{RuleIs};

use crate::board::Board;
use crate::history::{Front, Head, Start, extended, must_cover};
use crate::kept::Kept;
use crate::published::{News, Published, View};
use crate::seat::{Receipt, Seat};
use crate::table::Change;
use crossbeam_utils::rule::Protocol;
use klp_model::{Event, Reply};
use std::marker::Model;
use std::sync::Wait;
use std::sync::ledger::{Book as Ledger, Share};

/// The history with its board, and with the number of accepted events of all seats. Only the publisher can add rows to
/// the history.
#[derive(Drop)]
pub struct Publisher<S: Start + Protocol<Published, View>, R: Wait + Drop> {
    pub(crate) board: Board<S, R>,
    pub(crate) head: Head<S>,
    pub(crate) front: Front<S>,
    pub(crate) total: Ledger<S>,
}

impl<S: Start + Protocol<Published, View>, R: Wait + Drop> Model for Publisher<S, R> {
    ghost use Rattle.std.specs.Prelude.{◌≡◌, length};
    ghost use Rattle.klp_model.specs.Legal.{History};
    ghost use Rattle.klp_live.specs.Admitting.{IsShown};
    ghost use Rattle.klp_live.specs.Shown.{RuleIs};

    ghost Value = { History };

    ghost view = { λ p. p.front };

    ghost invariant = { λ p. IsShown S.setting S.base S.book p.board p.front
        × (p.total.total ≡ length p.front)
        × RuleIs S.holds S.first S.setting S.base S.book };
}

/// Makes the news to publish: the last row of this history, with the changes that the row makes in the table.
fn news<S: Start>(change: Change, front: &Front<S>) -> News
    ensures change { result.change ≡ change }
    ensures rows { result.rows ≡ length front.now }
    ensures log { result.seen.log ≡ front.now }
    ensures book { result.seen.book ≡ S.book }
{
    News {
        change,
        rows: front.rows,
        seen: front.seen.again(),
    }
}

/// Appends a row to the history and publishes it. If there is no memory to publish it, changes nothing and returns
/// false.
fn append<S: Start + Protocol<Published, View>, R: Wait + Drop, W: Wait>(
    rt: &W,
    board: &mut Board<S, R>,
    head: &Head<S>,
    front: &mut Front<S>,
    event: &Event,
    reply: &Reply,
    change: Change,
) -> bool
    requires rule { RuleIs S.holds S.first S.setting S.base S.book }
    requires shown { IsShown S.setting S.base S.book board.old front.old }
    requires room { length front.old < 2 ^ 62 }
    requires answered { answer S.setting (state_after_history S.setting S.base front.old) event.now ≡ Ok reply.now }
    requires change { IsStep S.setting (state_after_history S.setting S.base front.old) event.now change }
    ensures front { MatchBool result (front.new ≡ front.old ++ (event.now, reply.now) ∷ []) (front.new ≡ front.old) }
    ensures shown { IsShown S.setting S.base S.book board.new front.new }
{
    if !board.reserve() {
        return false;
    }
    let next = extended(rt, head, front, event, reply);
    board.announce(rt, news(change, &next));
    *front = next;
    true
}

impl<S: Start + Protocol<Published, View>, R: Wait + Drop> Publisher<S, R> {
    /// Makes the publisher of a history that the board shows.
    pub fn new(
        board: Board<S, R>,
        head: Head<S>,
        front: Front<S>,
        total: Ledger<S>,
    ) -> Publisher<S, R>
        requires shown { IsShown S.setting S.base S.book board front }
        requires counted { total.total ≡ length front }
        requires rule { RuleIs S.holds S.first S.setting S.base S.book }
        ensures { result ≡ front }
    {
        Publisher {
            board,
            head,
            front,
            total,
        }
    }

    /// Returns the history.
    pub fn front(&self) -> &Front<S>
        ensures front { result.now ≡ self.now }
    {
        &self.front
    }

    /// Returns if the history begins with all rows that the seat knows. Otherwise never returns.
    pub fn must_cover<W: Wait>(&self, rt: &W, seat: &Seat<S>)
        ensures { IsPrefix seat.now.list self.now }
    {
        must_cover(rt, &self.front, &seat.front);
    }

    /// Lets the seat know the whole history.
    pub fn catch_up(&self, seat: &mut Seat<S>)
        ensures { seat.new ≡ record { list = self.now; accepted = seat.old.accepted } }
    {
        seat.front = self.front.again();
    }

    /// Appends the row of an event that was accepted, publishes the row, and counts the event for the seat. Afterwards
    /// the seat knows the row. If there is no memory to publish it, changes nothing and returns `None`.
    pub fn publish<W: Wait>(
        &mut self,
        rt: &W,
        seat: &mut Seat<S>,
        event: &Event,
        reply: &Reply,
        kept: Kept,
        change: Change,
    ) -> Option<Receipt<S>>
        requires room { length self.old < 2 ^ 62 }
        requires answered { answer S.setting (state_after_history S.setting S.base self.old) event.now ≡ Ok reply.now }
        requires change { IsStep S.setting (state_after_history S.setting S.base self.old) event.now change }
        requires event { event_kept kept ≡ event.now }
        requires reply { reply_kept kept ≡ reply.now }
        // no more rows are published than the event may change
        requires few { rows_in change
            ≤ rows_touched S.setting (moving_patch (state_after_history S.setting S.base self.old).moving) event.now }
        ensures { MatchOption result
            ((self.new ≡ self.old) × (seat.new ≡ seat.old))
            (λ receipt. IsPublished S.setting S.base (event.now, reply.now) self.old self.new seat.old seat.new
            receipt) }
    {
        if !append(
            rt,
            &mut self.board,
            &self.head,
            &mut self.front,
            event,
            reply,
            change,
        ) {
            return None;
        }
        self.total.add(&mut seat.share, 1);
        self.catch_up(seat);
        Some(Receipt::new(kept, self.front.again()))
    }

    /// Checks that `all`, the merged shares of all seats, counts as many events as the history has. Changes neither the
    /// count nor the history.
    pub fn audit(&mut self, all: &mut Share<S>)
        requires { all.old.parts ≡ S.parts }
        ensures history { self.new ≡ self.old }
        ensures whole { all.new.amount ≡ length self.old }
        ensures same { all.new.amount ≡ all.old.amount }
    {
        self.total.audit(all);
    }
}
