//! A seat and a receipt, which say what one task thread knows.
ghost use Rattle.std.specs.Prelude.{◌≡◌, ◌⊎◌, length};
ghost use mathlib.Core.List.{IsPrefix};
ghost use Rattle.klp_model.specs.Legal.{IsLegal};
ghost use Rattle.klp_live.specs.Kept.{event_kept, reply_kept};
ghost use Rattle.klp_live.specs.Seats.{IsLast};

use crate::board::Place;
use crate::history::{Front, Start};
use crate::kept::Kept;
use crate::published::{Published, View};
use crossbeam_utils::rule::Protocol;
use klp_model::{Event, Reply};
use std::marker::Model;
use std::sync::ledger::Share;

/// A thread's place in a start: the prefix of the history that the seat knows, and how many of the seat's events were
/// accepted.
#[derive(Drop)]
pub struct Seat<S: Start + Protocol<Published, View>> {
    /// `enter` takes the reader out and puts it back, so this is `None` only while `enter` reads. The kit's `replace_with`
    /// would do the same, but isn't inlined into callers of `enter`.
    pub(crate) reader: Option<Place<S>>,
    pub(crate) front: Front<S>,
    pub(crate) share: Share<S>,
}

impl<S: Start + Protocol<Published, View>> Model for Seat<S> {
    ghost use Rattle.std.specs.Prelude.{◌≡◌, IfSome};
    ghost use Rattle.klp_live.specs.Seats.{Knows, IsOne};
    ghost use Rattle.klp_live.specs.Shown.{RuleIs};
    ghost use Rattle.left_right.specs.Sides.{view as seen_by};

    ghost Value = { Knows };

    ghost view = { λ k. record { list = k.front; accepted = k.share.amount } };

    ghost invariant = { λ k. (k.share.parts ≡ 1) × IfSome k.reader (λ reader. IsOne S.book (seen_by reader.place))
        × RuleIs S.holds S.first S.setting S.base S.book };
}

impl<S: Start + Protocol<Published, View>> Seat<S> {
    /// Returns how many rows of the history the seat knows. The last known row is that of its last receipt or refusal,
    /// or of the last table that it read.
    pub fn rows(&self) -> u64
        ensures rows { result ≡ length self.now.list }
        ensures legal { IsLegal S.setting S.base self.now.list }
    {
        self.front.len()
    }

    /// Adds a receipt's event and all events before it to the known history. Afterwards the seat knows the longer of
    /// its own history and the receipt's history.
    pub fn hear(&mut self, receipt: &Receipt<S>)
        ensures own { IsPrefix self.old.list self.new.list }
        ensures heard { IsPrefix receipt.now.list self.new.list }
        ensures one { (self.new.list ≡ self.old.list) ⊎ (self.new.list ≡ receipt.now.list) }
        ensures accepted { self.new.accepted ≡ self.old.accepted }
        ensures legal { IsLegal S.setting S.base self.new.list }
    {
        if !self.front.covers(&receipt.front) {
            self.front = receipt.front.again();
        }
        let _rows = self.front.len();
    }
}

/// An accepted event with its reply and its number.
#[derive(Drop)]
pub struct Receipt<S: Start> {
    pub(crate) number: u64,
    pub(crate) kept: Kept,
    pub(crate) front: Front<S>,
}

impl<S: Start> Model for Receipt<S> {
    ghost use Rattle.std.specs.Prelude.{◌≡◌, length};
    ghost use Rattle.klp_live.specs.Kept.{event_kept, reply_kept};
    ghost use Rattle.klp_live.specs.Seats.{ReceiptValue, IsLast};

    ghost Value = { ReceiptValue };

    ghost view = { λ r. record {
      number = r.number;
      event = event_kept r.kept;
      reply = reply_kept r.kept;
      list = r.front;
    } };

    ghost invariant = { λ r. (r.number ≡ length r.front) × IsLast r.front (event_kept r.kept) (reply_kept r.kept) };
}

impl<S: Start> Receipt<S> {
    /// Makes the receipt of the last row of this history. `kept` must be that row.
    pub(crate) fn new(kept: Kept, front: Front<S>) -> Receipt<S>
        requires { IsLast front (event_kept kept) (reply_kept kept) }
        ensures { result ≡ record {
          number = length front;
          event = event_kept kept;
          reply = reply_kept kept;
          list = front;
        } }
    {
        Receipt {
            number: front.len(),
            kept,
            front,
        }
    }

    /// Returns the number of the event's row in the history, counted from 1.
    pub fn number(&self) -> u64
        ensures number { result ≡ self.now.number }
        ensures last { self.now.number ≡ length self.now.list }
        ensures legal { IsLegal S.setting S.base self.now.list }
    {
        let _rows = self.front.len();
        self.number
    }

    /// Returns the event that was accepted.
    pub fn event(&self) -> Event
        ensures event { result ≡ self.now.event }
        ensures last { IsLast self.now.list self.now.event self.now.reply }
    {
        self.kept.event()
    }

    /// Returns the reply to the event.
    pub fn reply(&self) -> Reply
        ensures { result ≡ self.now.reply }
    {
        self.kept.reply()
    }

    /// Takes the receipt apart. Returns the number, and the row with the event and the reply. The row is the one that
    /// the receipt stored, so nothing is allocated.
    pub fn into_parts(self) -> (u64, Kept)
        ensures number { result.0 ≡ self.number }
        ensures event { event_kept result.1 ≡ self.event }
        ensures reply { reply_kept result.1 ≡ self.reply }
    {
        let Receipt {
            number,
            kept,
            front: _front,
        } = self;
        (number, kept)
    }
}
