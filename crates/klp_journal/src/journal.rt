ghost use Rattle.std.specs.Prelude.{◌≡◌, ◌-◌, ◌≤◌, true, List, [], ◌∷◌, ◌++◌, length, IfOk};
ghost use Rattle.klp_types.specs.declared.record.Record.{Record};
ghost use Rattle.klp_journal.specs.Journal.{Group, groups_of, counted, Keeps, records_in, records_free, has_room};

use crate::records::Records;
use klp_model::{Event, Reply};
use klp_types::{MAX_GROUPS, MAX_JOURNAL_RECORDS, MAX_RECORDS};
use std::alloc::{AllocError, Global};
use std::marker::Model;
use std::snapshot::Snapshot;

/// An accepted event, with the number of its records. While it is the newest event, its records are the last of the
/// list. The event and its reply are snapshots. A snapshot takes no memory, since only contracts read it
/// (docs/DECISIONS.md, "Events in the journal").
#[derive(Drop)]
struct StoredEvent {
    event: Snapshot<Event>,
    reply: Snapshot<Reply>,
    count: usize,
}

/// The accepted events, oldest first. Their records stay where they were logged, in a list that the caller passes to
/// each call. An event, its reply, and a record of each row that the event changed make a group.
///
/// [`Journal::new`] allocates all memory, for [`MAX_GROUPS`] events. The caller's list has room for
/// [`MAX_JOURNAL_RECORDS`] records of all events together. To undo the newest event, the caller reopens it and puts its
/// records back, newest first.
#[derive(Drop)]
pub struct Journal {
    events: Vec<StoredEvent>,
}

impl Model for Journal {
    ghost use Rattle.std.specs.Prelude.{◌≤◌, List, map, vec_len, vec_capacity};
    ghost use Rattle.klp_types.specs.declared.limits.TheConstants.{MAX_GROUPS};
    ghost use Rattle.klp_types.specs.declared.record.Record.{Record};
    ghost use Rattle.klp_journal.specs.Journal.{Accepted};

    ghost Value = { List Accepted };

    ghost use Rattle.klp_journal.specs.AcceptedEvents.{accepted_of};

    ghost view = { λ j. map accepted_of j.events.items };

    ghost invariant = { λ j. (vec_len j.events ≤ MAX_GROUPS) × (MAX_GROUPS ≤ vec_capacity j.events) };
}

impl Journal {
    /// Creates a journal without events. All of its memory is allocated by this call, since no event takes memory.
    /// Returns `Err` if memory is refused.
    pub fn new(alloc: Global) -> Result<Self, AllocError>
        ensures { IfOk result (λ journal. journal ≡ []) }
    {
        Ok(Self {
            events: Vec::with_capacity(alloc, MAX_GROUPS)?,
        })
    }

    /// Returns how many events there are, at a constant cost. This number is the mark: a later `rewind` to the mark
    /// leads back to the present state.
    pub fn mark(&self) -> u32
        ensures value { result ≡ length self.now }
        ensures groups { (rows : List Record) → length (groups_of self.now rows) ≡ result }
        ensures limit { result ≤ MAX_GROUPS }
    {
        self.events.len() as u32
    }

    /// Returns how many more records the journal has room for. The number is for all later events together. The cost is
    /// constant.
    pub fn records_free(&self, log: &Records) -> u32
        requires { Keeps log.now self.now }
        ensures value { result ≡ records_free (groups_of self.now log.now.older) }
        ensures limit { records_in (groups_of self.now log.now.older) ≤ MAX_JOURNAL_RECORDS }
    {
        (MAX_JOURNAL_RECORDS - log.older()) as u32
    }

    /// Whether there is room for one more event, whichever it is. The event needs one group, and room for
    /// [`MAX_RECORDS`] records, since it isn't known beforehand how many records the event logs. The cost is constant.
    pub fn has_room(&self, log: &Records) -> bool
        requires { Keeps log.now self.now }
        ensures { result ≡ has_room (groups_of self.now log.now.older) }
    {
        self.events.len() < MAX_GROUPS && MAX_RECORDS <= MAX_JOURNAL_RECORDS - log.older()
    }

    /// Appends an accepted event as the newest. The records in the log become the event's records, in the order in
    /// which they were logged. The records aren't moved, so the cost is constant.
    pub fn append(&mut self, event: &Event, reply: &Reply, log: &mut Records)
        requires all { counted self.old ≡ length log.old.older }
        requires room { has_room (groups_of self.old log.old.older) ≡ true }
        requires few { length log.old.logged ≤ MAX_RECORDS }
        ensures groups { groups_of self.new log.new.older ≡ groups_of self.old log.old.older
            ++ record { event = event.now; reply = reply.now; rows = log.old.logged } ∷ [] }
        ensures kept { Keeps log.new self.new }
        ensures log { log.new ≡ record log.old { logged = []; older = log.old.older ++ log.old.logged } }
    {
        let count = log.logged();
        log.keep();
        let _ = self.events.push(StoredEvent {
            event: Snapshot::of(event),
            reply: Snapshot::of(reply),
            count,
        });
    }

    /// Removes the newest event, and makes its records those of the current event, so that the caller can put the
    /// records back. If there is no event, does nothing. This call alone undoes nothing. The cost is constant.
    pub fn reopen(&mut self, log: &mut Records)
        requires kept { Keeps log.old self.old }
        requires few { (older : List Group) (newest : Group) → groups_of self.old log.old.older ≡ older ++ newest ∷ []
            → length newest.rows ≤ log.old.room }
        ensures groups { (older : List Group) (newest : Group) → groups_of self.old log.old.older ≡ older ++ newest ∷ []
            → (groups_of self.new log.new.older ≡ older) × (log.new.logged ≡ newest.rows) }
        ensures all { counted self.new ≡ length log.new.older }
        ensures mark { length self.new ≡ length self.old - 1 }
        ensures room { log.new.room ≡ log.old.room }
        ensures none { self.old ≡ [] → (self.new ≡ []) × (log.new ≡ log.old) }
    {
        let Some(newest) = self.events.pop() else {
            return;
        };
        log.reopen(newest.count);
    }

    /// Removes all events and their records. The memory stays allocated for later events. The cost is at most one step
    /// for each event.
    pub fn clear(&mut self, log: &mut Records)
        ensures events { self.new ≡ [] }
        ensures log { log.new ≡ record log.old { logged = []; older = [] } }
    {
        self.events.clear();
        log.clear_all();
    }
}
