//! Opening a start: the book with its seats.
ghost use Rattle.std.specs.Prelude.{◌≡◌, ◌<◌, ◌≤◌, ◌^◌, ◌+◌, [], ◌∷◌, drop, length, IfOk, IfErr, vec_len};
ghost use Rattle.std.specs.List.{All};
ghost use Rattle.left_right.specs.Sides.{view};
ghost use Rattle.klp_live.specs.Dispatch.{IsDispatch, Makes};
ghost use Rattle.klp_live.specs.Seats.{IsOne};
ghost use Rattle.klp_live.specs.Shown.{IsTable, RuleIs, known_of};
ghost use Rattle.klp_live.specs.Admitting.{IsManagerOf};
ghost use Rattle.klp_live.specs.Opening.{IsFresh, IsEmptyBoard};

use crate::board::{Board, Changes};
use crate::book::Book;
use crate::change::change_of;
use crate::history::{Front, Opened, Start};
use crate::law::{Accepted, Law};
use crate::published::{Published, View};
use crate::publisher::Publisher;
use crate::rules::{Adopt, Same, Sees};
use crate::seat::Seat;
use crate::table::{Change, Table};
use crossbeam_utils::rule::Protocol;
use klp_core::Machine;
use left_right::writer::Writer;
use logbook::Seen;
use std::alloc::{AllocError, Global};
use std::sync::Wait;
use std::sync::ledger::{Blank, Share};

/// Why a start failed: memory ran out, or `left_right` had no place for another reader.
#[derive(Clone, Copy, Debug)]
pub enum StartCause {
    NoMemory,
    NoPlace,
}

/// The manager that was passed in, and why it wasn't started.
#[derive(Drop)]
pub struct StartFault<M> {
    pub manager: M,
    pub cause: StartCause,
}

/// Returns this table as a published table that has a history without rows.
fn first_of(table: &Table, seen: &Seen<Accepted, u64, Law>) -> Published
    ensures { result ≡ record { table = table.now; rows = 0; seen = seen.now } }
{
    Published {
        table: *table,
        rows: 0,
        seen: seen.again(),
    }
}

/// Returns the table that a change makes. The change must not depend on an earlier table.
fn table_by<S: Start>(change: Change) -> Table
    requires { Makes S.setting S.base change }
    ensures { IsDispatch S.setting S.base result }
{
    let mut table = Table::empty();
    change.make(&mut table);
    table
}

/// Publishes again without a change, so that the writer knows what is published.
fn known<S: Start + Protocol<Published, View>, W: Wait>(rt: &W, changes: Changes<S>) -> Changes<S>
    requires rule { RuleIs S.holds S.first S.setting S.base S.book }
    requires table { IsTable S.setting S.base changes.desk.shown.value }
    requires room { drop changes.behind changes.log.items ≡ [] }
    ensures shown { result.desk.shown.value ≡ changes.desk.shown.value }
    ensures pending { drop result.behind result.log.items ≡ [] }
    ensures known { view result.desk.place ≡ record { known = known_of result.desk.shown.value ∷ [] } }
{
    changes.publish_as::<Sees, W>(rt).0
}

/// Makes the board, and publishes the table of the empty history. An error means that memory ran out.
fn changes<S: Start + Protocol<Published, View>, W: Wait>(
    rt: &W,
    alloc: Global,
    change: Change,
    seen: &Seen<Accepted, u64, Law>,
    places: usize,
) -> Result<Changes<S>, AllocError>
    requires rule { RuleIs S.holds S.first S.setting S.base S.book }
    requires table { Makes S.setting S.base change }
    requires empty { seen.now.log ≡ [] }
    requires book { seen.now.book ≡ S.book }
    requires places { (0 < places) × (places ≤ 64) }
    ensures { IfOk result (λ w. IsEmptyBoard S.setting S.base S.book w.desk.shown.value (drop w.behind w.log.items)
        (view w.desk.place)) }
{
    let table = table_by::<S>(change);
    let first = first_of(&table, seen);
    let second = first_of(&table, seen);
    let writer: Changes<S> = Writer::new(alloc, first, second, places)?;
    Ok(known::<S, W>(rt, writer))
}

/// Makes a seat with this history, this share of the count and a reader of its own. Returns an error if `left_right`
/// refuses the reader.
fn seat<S: Start + Protocol<Published, View>>(
    changes: &mut Changes<S>,
    front: &Front<S>,
    share: Share<S>,
) -> Result<Seat<S>, AllocError>
    requires rule { RuleIs S.holds S.first S.setting S.base S.book }
    requires known { IsOne S.book (view changes.old.desk.place) }
    requires share { share.parts ≡ 1 }
    ensures seat { IfOk result (λ seat. seat ≡ record { list = front.now; accepted = share.amount }) }
    ensures shown { changes.new.desk.shown ≡ changes.old.desk.shown }
    ensures pending { drop changes.new.behind changes.new.log.items ≡ drop changes.old.behind changes.old.log.items }
    ensures view { view changes.new.desk.place ≡ view changes.old.desk.place }
{
    let mut reader = changes.factory().reader()?;
    reader.learn::<Adopt>(changes.tell::<Same>());
    Ok(Seat {
        reader: Some(reader),
        front: front.again(),
        share,
    })
}

/// Makes all seats, each with one part of the share.
fn seats<S: Start + Protocol<Published, View>>(
    alloc: Global,
    changes: &mut Changes<S>,
    front: &Front<S>,
    share: Share<S>,
    places: usize,
) -> Result<Vec<Seat<S>>, StartCause>
    requires rule { RuleIs S.holds S.first S.setting S.base S.book }
    requires known { IsOne S.book (view changes.old.desk.place) }
    requires share { (share.parts ≡ places) × (share.amount ≡ 0) }
    ensures seats { IfOk result (λ seats. (vec_len seats ≡ places) × All
        (λ seat. seat ≡ record { list = front.now; accepted = 0 }) seats.items) }
    ensures shown { changes.new.desk.shown ≡ changes.old.desk.shown }
    ensures pending { drop changes.new.behind changes.new.log.items ≡ drop changes.old.behind changes.old.log.items }
{
    let mut rest = share;
    let mut all = Vec::new(alloc);
    for place in 0..places {
        let part = rest.split_off(1, 0);
        let Ok(next) = seat(changes, front, part) else {
            return Err(StartCause::NoPlace);
        };
        if all.push(next).is_err() {
            return Err(StartCause::NoMemory);
        }
    }
    Ok(all)
}

impl<S: Start + Protocol<Published, View>, M: Machine + Drop, R: Wait + Drop> Book<S, M, R> {
    /// Opens a book with a manager whose journal is empty: publishes the manager's table and makes the seats. The call
    /// reads the row of every site. `blank` and `opened` become the ledger and the history of the start. If memory runs
    /// out, or `left_right` has no place for a reader, the manager is returned unchanged.
    pub fn pair(
        rt: R,
        alloc: Global,
        blank: Blank,
        opened: Opened,
        machine: M,
        places: usize,
    ) -> Result<(Book<S, M, R>, Vec<Seat<S>>), StartFault<M>>
        requires name { blank.name ≡ S.name }
        requires parts { (blank.parts ≡ S.parts) × (blank.parts ≡ places) }
        requires book { opened.seen.book ≡ S.book }
        requires rule { RuleIs S.holds S.first S.setting S.base S.book }
        requires fresh { IsFresh S.setting S.base (M.journaled machine) }
        requires places { (0 < places) × (places ≤ 64) }
        ensures book { IfOk result (λ pair. pair.0 ≡ record { list = []; manager = M.journaled machine }) }
        ensures places { IfOk result (λ pair. vec_len pair.1 ≡ places) }
        ensures seats { IfOk result (λ pair. All (λ seat. seat ≡ record { list = []; accepted = 0 }) pair.1.items) }
        ensures fault { IfErr result (λ fault. fault.manager ≡ machine) }
    {
        let _for_its_clause = machine.mark();
        let (total, share) = blank.open::<S>();
        let Ok(change) = change_of(alloc, &machine) else {
            return Err(StartFault {
                manager: machine,
                cause: StartCause::NoMemory,
            });
        };
        let Ok(mut changes) = changes::<S, R>(&rt, alloc, change, &opened.seen, places) else {
            return Err(StartFault {
                manager: machine,
                cause: StartCause::NoMemory,
            });
        };
        let (head, front) = opened.named::<S>();
        match seats(alloc, &mut changes, &front, share, places) {
            Err(cause) => {
                changes.take(&rt);
                Err(StartFault {
                    manager: machine,
                    cause,
                })
            }
            Ok(seats) => Ok((
                Book {
                    machine,
                    publisher: Publisher::new(Board::over(changes, rt), head, front, total),
                },
                seats,
            )),
        }
    }

    /// Ends the book and returns its manager. Waits until no seat reads.
    pub fn end(self) -> M
        ensures machine { M.journaled result ≡ self.manager }
        ensures kept { IsManagerOf S.setting S.base self.manager self.list }
    {
        let Book {
            machine,
            publisher: _publisher,
        } = self;
        machine
    }
}
