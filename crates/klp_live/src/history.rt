//! The events since a start: one history for all threads, to which rows are only added. The rows exist in contracts
//! alone. At run time there is only the length of the history.
ghost use Rattle.std.specs.Prelude.{◌≡◌, ◌+◌, ◌==◌, ◌<◌, ◌≤◌, ◌^◌, ◌++◌, ◌∷◌, [], length, MatchBool, Ok};
ghost use mathlib.Core.List.{IsPrefix};
ghost use Rattle.klp_model.specs.Legal.{IsLegal, state_after_history};
ghost use Rattle.klp_model.specs.Run.{answer};
ghost use Rattle.klp_live.specs.Rules.{head_of};

use crate::law::{Accepted, Add, Law, Nothing, StoredEvent};
use klp_model::laws::histories_grow_and_are_cut_at_their_end;
use klp_model::{Event, Reply};
use logbook::{Offer, Seen, Start as Fresh, Word};
use std::marker::{Brand, Model, PhantomData};
use std::sync::Wait;
use std::sync::ledger::Ledger;

/// The name of a start in contracts: its history, and the setting and state with which it began. A start has as many
/// seats as its ledger has parts.
pub trait Start: Ledger {
    ghost use Rattle.logbook.specs.Pages.{Book};
    ghost use Rattle.klp_types.specs.Setting.{Setting};
    ghost use Rattle.klp_model.specs.State.{State};

    ghost book: { Book };

    ghost setting: { Setting };

    ghost base: { State };
}

impl Start for Brand {
    ghost use Rattle.std.specs.Prelude.{[]};
    ghost use Rattle.klp_model.specs.Opening.{opening_state};

    ghost book = { record { number = 0; log_name = 0; cells_name = 0 } };

    ghost setting = { record { image = record { handler = 0; objects = [] }; patches = [] } };

    ghost base = { opening_state (record { image = record { handler = 0; objects = [] }; patches = [] }) };
}

/// An empty history that doesn't belong to a start yet.
#[derive(Drop)]
pub struct Opened {
    pub(crate) head: Word<Accepted, u64, Law>,
    pub(crate) seen: Seen<Accepted, u64, Law>,
    pub ghost empty: { seen.log ≡ [] },
    pub ghost head_is: { head ≡ head_of seen.book },
}

impl Opened {
    /// Makes an empty history. The call allocates nothing.
    pub fn new() -> Opened {
        let (seen, mut first, _second) = Seen::open(Fresh::alone(), 0, 0);
        Opened {
            head: Word::tracked(0, &mut first),
            seen,
        }
    }

    /// Gives the history to the start `S`. Returns the head, which counts the rows, and a front that has seen no row.
    pub fn named<S: Start>(self) -> (Head<S>, Front<S>)
        requires { self.seen.book ≡ S.book }
        ensures { result.1 ≡ [] }
    {
        let Opened { head, seen } = self;
        (
            Head {
                word: head,
                of: PhantomData,
            },
            Front {
                rows: 0,
                seen,
                of: PhantomData,
            },
        )
    }
}

/// The word that counts the rows of a history. Only the book has this word, so only the book can add rows.
#[derive(Drop)]
pub struct Head<S: Start> {
    pub(crate) word: Word<Accepted, u64, Law>,
    pub(crate) of: PhantomData<S>,
    ghost head_is: { word ≡ head_of S.book },
}

/// A prefix of the history: the rows, from the first up to some row, that its owner has seen.
#[derive(Drop)]
pub struct Front<S: Start> {
    pub(crate) rows: u64,
    pub(crate) seen: Seen<Accepted, u64, Law>,
    pub(crate) of: PhantomData<S>,
}

impl<S: Start> Model for Front<S> {
    ghost use Rattle.std.specs.Prelude.{◌≡◌, List, length};
    ghost use Rattle.klp_model.specs.Legal.{History, IsLegal};

    ghost Value = { History };

    ghost view = { λ f. f.seen.log };

    ghost invariant = { λ f. (f.rows ≡ length f.seen.log) × (f.seen.book ≡ S.book)
        × IsLegal S.setting S.base f.seen.log };
}

impl<S: Start> Front<S> {
    /// Returns how many rows the front has.
    pub fn len(&self) -> u64
        ensures length { result ≡ length self.now }
        ensures legal { IsLegal S.setting S.base self.now }
    {
        self.rows
    }

    /// Returns a copy. The call allocates nothing.
    pub fn again(&self) -> Front<S>
        ensures { result ≡ self.now }
    {
        Front {
            rows: self.rows,
            seen: self.seen.again(),
            of: PhantomData,
        }
    }

    /// Whether this front has all rows that `other` has. It is enough to compare lengths, since of two fronts of one
    /// history, the shorter is a prefix of the longer.
    pub fn covers(&self, other: &Front<S>) -> bool
        ensures test { MatchBool result (length other.now ≤ length self.now) (length self.now < length other.now) }
        ensures begins { MatchBool result (IsPrefix other.now self.now) (IsPrefix self.now other.now) }
    {
        let mut both = self.seen.again();
        both.learn(&other.seen);
        other.rows <= self.rows
    }

    /// Adds a row to the history, right after the rows that this front has seen. If the history has more rows than the
    /// front, adds nothing and returns false.
    pub fn add(&mut self, head: &Head<S>, row: Accepted) -> bool
        requires room { length self.old < 2 ^ 62 }
        requires legal { answer S.setting (state_after_history S.setting S.base self.old) row.0 ≡ Ok row.1 }
        ensures { MatchBool result (self.new ≡ self.old ++ row ∷ []) (self.new ≡ self.old) }
    {
        self.add_answered(head, &row.0, &row.1)
    }

    /// Adds the row of an event with this reply, as [`Front::add`] does. No row is made, since no row is needed at run
    /// time.
    pub(crate) fn add_answered(&mut self, head: &Head<S>, event: &Event, reply: &Reply) -> bool
        requires room { length self.old < 2 ^ 62 }
        requires legal { answer S.setting (state_after_history S.setting S.base self.old) event.now ≡ Ok reply.now }
        ensures { MatchBool result (self.new ≡ self.old ++ (event.now, reply.now) ∷ []) (self.new ≡ self.old) }
    {
        histories_grow_and_are_cut_at_their_end();
        let row = StoredEvent::of(event, reply);
        let mut seen = self.seen.again();
        let mut offer: Offer<Accepted, u64, Law, Nothing> = seen.plain::<Nothing, StoredEvent, Add>(
            &row,
        );
        let mut pen = seen.no_pen();
        let rows = self.rows;
        let found = head
            .word
            .compare_exchange::<Add, Nothing>(rows, rows + 1, &mut seen, &mut offer, &mut pen);
        if found != rows {
            return false;
        }
        self.seen = seen;
        self.rows = rows + 1;
        true
    }
}

/// Never returns. The function is called if two structures disagree, for example if a history is longer than its only
/// writer knows. Structures always agree, but their contracts don't say this.
fn stop<W: Wait>(rt: &W)
    ensures { ⊥ }
{
    for _ in rt.forever() {}
    unreachable!()
}

/// Returns if the front `all` has all rows that `other` has. Otherwise never returns.
pub fn must_cover<S: Start, W: Wait>(rt: &W, all: &Front<S>, other: &Front<S>)
    ensures { IsPrefix other.now all.now }
{
    if !all.covers(other) {
        stop(rt);
    }
}

/// Returns the front with the row of this event and reply added. Never returns if the history has more rows than the
/// front.
pub fn extended<S: Start, W: Wait>(
    rt: &W,
    head: &Head<S>,
    front: &Front<S>,
    event: &Event,
    reply: &Reply,
) -> Front<S>
    requires room { length front.now < 2 ^ 62 }
    requires legal { answer S.setting (state_after_history S.setting S.base front.now) event.now ≡ Ok reply.now }
    ensures { result ≡ front.now ++ (event.now, reply.now) ∷ [] }
{
    let mut front = front.again();
    if !front.add_answered(head, event, reply) {
        stop(rt);
    }
    front
}
