//! Appending accepted events to the journal, and taking events back. Both change journal and state together, so they
//! are in one file.
ghost use Rattle.std.specs.Prelude.{◌≡◌, ◌-◌, ◌<◌, ◌≤◌, ◌++◌, ◌∷◌, [], true, false, length, take, Err, IfOk, IfErr};
ghost use Rattle.klp_types.specs.declared.limits.TheConstants.{MAX_RECORDS};
ghost use Rattle.klp_text.specs.TextImage.{site_count};
ghost use Rattle.klp_journal.specs.Journal.{counted, has_room, Keeps};
ghost use Rattle.klp_manager_state.specs.Managed.{setting_in, state_in};
ghost use Rattle.klp_manager_state.specs.Rows.{rows_in};
ghost use Rattle.klp_core.specs.Journaled.{rows_before_all, journaled_of, groups_in, AreInStep};
ghost use Rattle.klp_core.specs.Taking.{IsTaken, answer_in, is_brief};

use crate::take::{is_brief, refused, take_brief, take_long};
use klp_catalog::Catalog;
use klp_journal::Journal;
use klp_manager_state::{BriefReply, ManagerState};
use klp_model::{Event, Refusal, Reply};
use std::marker::Model;
use std::snapshot::Snapshot;

/// Appends an accepted event with its reply and its records. The records aren't moved in the log. From then on, they
/// count as records of earlier events (docs/DECISIONS.md, "Which records an event leaves").
#[inline(always)]
fn append(state: &mut ManagerState, journal: &mut Journal, event: &Event, reply: &Reply)
    requires all { counted journal.old ≡ length state.old.log.older }
    requires room { has_room (groups_in state.old journal.old) ≡ true }
    requires few { state.old.log.room ≡ MAX_RECORDS }
    ensures appended { groups_in state.new journal.new
        ≡ groups_in state.old journal.old
        ++ record { event = event.now; reply = reply.now; rows = state.old.log.logged } ∷ [] }
    ensures kept { Keeps state.new.log journal.new }
    ensures state { state.new ≡ record state.old {
      log = record state.old.log { logged = []; older = state.old.log.older ++ state.old.log.logged };
    } }
    ensures few { length state.old.log.logged ≤ MAX_RECORDS }
    ensures sites { length state.old.sites.stacks ≡ site_count state.old.sites.image }
{
    let _sites = state.sites.sites();
    let _logged = state.log.logged();
    journal.append(event, reply, &mut state.log);
}

/// A reply that the caller doesn't need. Only contracts know the reply, so it takes no memory.
#[derive(Drop)]
pub struct DroppedReply {
    reply: Snapshot<Reply>,
}

impl Model for DroppedReply {
    ghost use Rattle.klp_model.specs.declared.event.Reply.{Reply};

    ghost Value = { Reply };

    ghost view = { λ u. u.reply.value };
}

/// Refuses the event if the journal has no room for another event. If there is another reason to refuse the event,
/// returns that reason, otherwise `JournalFull`. The room is checked first, and the other reasons are computed only if
/// the journal is full. So this call usually costs one comparison (docs/DECISIONS.md, "Room in the journal").
#[inline(always)]
fn ask_for_room(
    state: &ManagerState,
    catalog: &Catalog,
    journal: &Journal,
    event: &Event,
) -> Result<(), Refusal>
    requires { AreInStep state.now catalog.now journal.now }
    ensures room { IfOk result (λ _. has_room (groups_in state.now journal.now) ≡ true) }
    ensures full { IfErr result (λ refusal. answer_in (setting_in state.now catalog.now)
        (state_in state.now catalog.now) (groups_in state.now journal.now) event.now ≡ Err refusal) }
{
    if !journal.has_room(&state.log) {
        return Err(refused(state, catalog, event).unwrap_or(Refusal::JournalFull));
    }
    Ok(())
}

/// Does an event, and appends the event to the journal if it is accepted. If the journal has no room and nothing else
/// refuses the event, the event is refused with `JournalFull`.
pub(crate) fn take_and_append(
    state: &mut ManagerState,
    catalog: &mut Catalog,
    journal: &mut Journal,
    event: &Event,
) -> Result<Reply, Refusal>
    requires { AreInStep state.old catalog.old journal.old }
    ensures kept { AreInStep state.new catalog.new journal.new }
    ensures taken { IsTaken (journaled_of state.old catalog.old (groups_in state.old journal.old))
        (journaled_of state.new catalog.new (groups_in state.new journal.new)) event.now result }
{
    ask_for_room(state, catalog, journal, event)?;
    if is_brief(event) {
        let brief = append_brief(state, catalog, journal, event)?;
        return Ok(brief.reply());
    }
    append_long(state, catalog, journal, event)
}

/// Like [`take_and_append`], for a caller that doesn't need the reply.
pub(crate) fn take_without_reply(
    state: &mut ManagerState,
    catalog: &mut Catalog,
    journal: &mut Journal,
    event: &Event,
) -> Result<DroppedReply, Refusal>
    requires { AreInStep state.old catalog.old journal.old }
    ensures kept { AreInStep state.new catalog.new journal.new }
    ensures taken { IsTaken (journaled_of state.old catalog.old (groups_in state.old journal.old))
        (journaled_of state.new catalog.new (groups_in state.new journal.new)) event.now result }
{
    ask_for_room(state, catalog, journal, event)?;
    if is_brief(event) {
        let brief = append_brief(state, catalog, journal, event)?;
        return Ok(DroppedReply {
            reply: Snapshot::of(&brief.reply()),
        });
    }
    let reply = append_long(state, catalog, journal, event)?;
    Ok(DroppedReply {
        reply: Snapshot::of(&reply),
    })
}

/// Does an event that has a brief reply, and appends the event to the journal if it is accepted. The journal must have
/// room.
fn append_brief(
    state: &mut ManagerState,
    catalog: &mut Catalog,
    journal: &mut Journal,
    event: &Event,
) -> Result<BriefReply, Refusal>
    requires brief { is_brief event.now ≡ true }
    requires kept { AreInStep state.old catalog.old journal.old }
    requires room { has_room (groups_in state.old journal.old) ≡ true }
    ensures kept { AreInStep state.new catalog.new journal.new }
    ensures taken { IsTaken (journaled_of state.old catalog.old (groups_in state.old journal.old))
        (journaled_of state.new catalog.new (groups_in state.new journal.new)) event.now result }
{
    let brief = take_brief(state, catalog, event)?;
    append(state, journal, event, &brief.reply());
    Ok(brief)
}

/// Does an event whose reply has frames or a value, and appends the event to the journal if it is accepted. The journal
/// must have room. A function with such a reply clears memory for it on entry. Brief events don't need this memory, so
/// they have a separate function.
fn append_long(
    state: &mut ManagerState,
    catalog: &mut Catalog,
    journal: &mut Journal,
    event: &Event,
) -> Result<Reply, Refusal>
    requires long { is_brief event.now ≡ false }
    requires kept { AreInStep state.old catalog.old journal.old }
    requires room { has_room (groups_in state.old journal.old) ≡ true }
    ensures kept { AreInStep state.new catalog.new journal.new }
    ensures taken { IsTaken (journaled_of state.old catalog.old (groups_in state.old journal.old))
        (journaled_of state.new catalog.new (groups_in state.new journal.new)) event.now result }
{
    let reply = take_long(state, catalog, event)?;
    append(state, journal, event, &reply);
    Ok(reply)
}

/// Undoes the newest event. Takes the event's group out of the journal, and then puts the group's records back, newest
/// first.
fn take_newest_back(state: &mut ManagerState, catalog: &Catalog, journal: &mut Journal)
    requires kept { AreInStep state.old catalog.now journal.old }
    requires some { 0 < length (groups_in state.old journal.old) }
    ensures kept { AreInStep state.new catalog.now journal.new }
    ensures groups { groups_in state.new journal.new
        ≡ take (length (groups_in state.old journal.old) - 1) (groups_in state.old journal.old) }
    ensures base { rows_before_all (rows_in state.new) (groups_in state.new journal.new)
        ≡ rows_before_all (rows_in state.old) (groups_in state.old journal.old) }
    ensures image { state.new.sites.image ≡ state.old.sites.image }
{
    journal.reopen(&mut state.log);
    state.undo();
}

/// Undoes all events but the first `mark`, newest first. So when an event is undone, the state is the one to which the
/// event led.
pub(crate) fn rewind_to(
    state: &mut ManagerState,
    catalog: &Catalog,
    journal: &mut Journal,
    mark: u32,
)
    requires kept { AreInStep state.old catalog.now journal.old }
    requires mark { mark ≤ length (groups_in state.old journal.old) }
    ensures kept { AreInStep state.new catalog.now journal.new }
    ensures groups { groups_in state.new journal.new ≡ take mark (groups_in state.old journal.old) }
    ensures base { rows_before_all (rows_in state.new) (groups_in state.new journal.new)
        ≡ rows_before_all (rows_in state.old) (groups_in state.old journal.old) }
    ensures image { state.new.sites.image ≡ state.old.sites.image }
{
    for _taken in mark..journal.mark() {
        take_newest_back(state, catalog, journal);
    }
}
