//! The journal: accepted events with their undo records.
ghost use Rattle.std.specs.Prelude.{◌≡◌, ◌-◌, ◌≤◌, true, List, [], ◌∷◌, ◌++◌, length};
ghost use Rattle.klp_types.specs.declared.limits.TheConstants.{MAX_RECORDS};
ghost use Rattle.klp_journal.specs.Journal.{Group, groups_of, counted, Keeps, has_room};

use klp_journal::{Journal, Records};
use klp_model::{Event, Reply};

/// Whether there is room for one more event, as [`Journal::has_room`] says.
pub fn has_room(journal: &Journal, log: &Records) -> bool
    requires { Keeps log.now journal.now }
    ensures { result ≡ has_room (groups_of journal.now log.now.older) }
{
    journal.has_room(log)
}

/// Appends an accepted event with its records, as [`Journal::append`] does.
pub fn append(journal: &mut Journal, event: &Event, reply: &Reply, log: &mut Records)
    requires all { counted journal.old ≡ length log.old.older }
    requires room { has_room (groups_of journal.old log.old.older) ≡ true }
    requires few { length log.old.logged ≤ MAX_RECORDS }
    ensures groups { groups_of journal.new log.new.older ≡ groups_of journal.old log.old.older
        ++ record { event = event.now; reply = reply.now; rows = log.old.logged } ∷ [] }
    ensures kept { Keeps log.new journal.new }
    ensures log { log.new ≡ record log.old { logged = []; older = log.old.older ++ log.old.logged } }
{
    journal.append(event, reply, log);
}

/// Removes the newest event, and makes its records those of the current event, as [`Journal::reopen`] does.
pub fn reopen(journal: &mut Journal, log: &mut Records)
    requires kept { Keeps log.old journal.old }
    requires few { (older : List Group) (newest : Group) → groups_of journal.old log.old.older ≡ older ++ newest ∷ []
        → length newest.rows ≤ log.old.room }
    ensures groups { (older : List Group) (newest : Group) → groups_of journal.old log.old.older ≡ older ++ newest ∷ []
        → (groups_of journal.new log.new.older ≡ older) × (log.new.logged ≡ newest.rows) }
    ensures all { counted journal.new ≡ length log.new.older }
    ensures mark { length journal.new ≡ length journal.old - 1 }
    ensures room { log.new.room ≡ log.old.room }
    ensures none { journal.old ≡ [] → (journal.new ≡ []) × (log.new ≡ log.old) }
{
    journal.reopen(log);
}
