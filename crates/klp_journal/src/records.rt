//! The list of records. `write_words` writes a record as words.
ghost use Rattle.std.specs.Prelude.{◌≡◌, ◌+◌, ◌-◌, ◌<◌, ◌≤◌, [], ◌∷◌, ◌++◌, length, map, take, drop, slice_get, Some};
ghost use Rattle.std.specs.Prelude.{IfOk, IfSome, IfNone};
ghost use Rattle.klp_types.specs.declared.limits.TheConstants.{MAX_JOURNAL_RECORDS};
ghost use Rattle.klp_types.specs.declared.record.Record.TheVariants.{TaskRow};
ghost use Rattle.klp_types.specs.declared.task.Task.{Task as AnyTask};
ghost use Rattle.klp_types.specs.Records.{spare_of};
ghost use Rattle.klp_journal.specs.Small.{row_of, with_switched};
ghost use Rattle.klp_types.specs.Frames.{frames_of};

use crate::frame_words::FrameWords;
use crate::small::SmallRecord;
use crate::stored::StoredRecords;
use crate::switched::SwitchedTask;
use klp_types::{MAX_JOURNAL_RECORDS, Record, Task, TaskId};
use std::alloc::{AllocError, Global};
use std::marker::Model;

/// Records in the order in which they were logged, in one list whose memory is allocated when it is made. The records
/// of earlier events come first, at most [`MAX_JOURNAL_RECORDS`] of them. The records of the current event follow. When
/// an event ends, its records stay where they are, so nothing is copied.
///
/// Logging takes no memory, since no event may fail half way. To undo a change, the records of the change are put back
/// newest first. So when a row is restored, the rows around it are those that were around it when it was logged.
#[derive(Drop)]
pub struct Records {
    all: StoredRecords,
    /// How many of the records belong to earlier events. All other records belong to the current event. The number of
    /// the current event's records isn't stored, so that logging a record changes only one count.
    older: usize,
    /// How many records one event may log.
    room: usize,
}

impl Model for Records {
    ghost use Rattle.std.specs.Prelude.{◌≡◌, ◌+◌, ◌-◌, ◌≤◌, length, take, drop};
    ghost use Rattle.klp_types.specs.declared.limits.TheConstants.{MAX_JOURNAL_RECORDS};
    ghost use Rattle.klp_types.specs.Records.{RecordList};

    ghost Value = { RecordList };

    ghost view = { λ r. record {
      logged = drop r.older r.all.rows;
      room = r.room;
      older = take r.older r.all.rows;
    } };

    ghost invariant = { λ r. (r.older ≤ length r.all.rows) × (length r.all.rows - r.older ≤ r.room)
        × (r.older ≤ MAX_JOURNAL_RECORDS)
        × (r.all.room ≡ MAX_JOURNAL_RECORDS + r.room) };
}

impl Records {
    /// Creates an empty list with room for [`MAX_JOURNAL_RECORDS`] records of earlier events and `room` records of the
    /// current event. The list never grows, whatever the records are. Returns `Err` if memory is refused.
    pub fn new(alloc: Global, room: usize) -> Result<Self, AllocError>
        ensures { IfOk result (λ records. records ≡ record { logged = []; room = room; older = [] }) }
    {
        let most = MAX_JOURNAL_RECORDS.checked_add(room).ok_or(AllocError)?;
        Ok(Self {
            all: StoredRecords::new(alloc, most)?,
            older: 0,
            room,
        })
    }

    /// Returns how many more records the current event may log. Each change checks this number before it begins.
    pub fn spare(&self) -> usize
        ensures { result ≡ spare_of self.now }
    {
        self.room - self.logged()
    }

    /// Returns how many records the current event has logged.
    pub fn logged(&self) -> usize
        ensures value { result ≡ length self.now.logged }
        ensures limit { result ≤ self.now.room }
    {
        self.all.count() - self.older
    }

    /// Returns how many records there are of earlier events.
    pub fn older(&self) -> usize
        ensures value { result ≡ length self.now.older }
        ensures limit { result ≤ MAX_JOURNAL_RECORDS }
    {
        self.older
    }

    /// Logs a record, as the newest.
    #[inline(always)]
    pub fn note(&mut self, row: Record)
        requires { 0 < spare_of self.old }
        ensures { self.new ≡ record self.old { logged = self.old.logged ++ row ∷ [] } }
    {
        self.all.note(row);
    }

    /// Logs a task before the task changes. The task is passed by reference and not copied, since a `Task` is large: it
    /// has room for the greatest number of frames. The words of the task's frames are those that the table of tasks
    /// stores.
    #[inline(always)]
    pub fn note_task(&mut self, task: TaskId, was: &Task, frames: &FrameWords)
        requires room { 0 < spare_of self.old }
        requires frames { frames.now ≡ was.now.frames }
        ensures { self.new ≡ record self.old { logged = self.old.logged ++ TaskRow task was.now ∷ [] } }
    {
        self.all.note_task(task, was, frames);
    }

    /// Removes and returns the newest record of the current event. Returns `None` if the event has no record. Undo
    /// removes records in this order, newest first.
    pub fn take_newest(&mut self) -> Option<Record>
        ensures newest { IfSome result
            (λ newest. self.old ≡ record self.new { logged = self.new.logged ++ newest ∷ [] }) }
        ensures empty { IfNone result (self.old.logged ≡ []) }
        ensures unchanged { IfNone result (self.new ≡ self.old) }
    {
        if self.logged() == 0 {
            return None;
        }
        self.all.take_newest()
    }

    /// Removes the newest record of the current event, and returns it in a form of a few bytes. The records that events
    /// log most have such a form. If the newest record has no such form, or there is no record, returns `None` and
    /// removes nothing. A record that is left can be removed by `take_newest`.
    #[inline(always)]
    pub fn take_small(&mut self) -> Option<SmallRecord>
        ensures newest { IfSome result
            (λ newest. self.old ≡ record self.new { logged = self.new.logged ++ row_of newest ∷ [] }) }
        ensures unchanged { IfNone result (self.new ≡ self.old) }
    {
        if self.logged() == 0 {
            return None;
        }
        self.all.take_small()
    }

    /// Removes the newest record of the current event if the record is of a task whose frames haven't changed since.
    /// Returns the record without its frames, so that undo needn't read the frames of a switched sleeper. `tasks` are
    /// the tasks now, and `frames` are the words of their frames now. If the call returns `None`, nothing is removed,
    /// even if the newest record is such a record.
    #[inline(always)]
    pub fn take_switched(
        &mut self,
        tasks: &[Option<Task>],
        frames: &[FrameWords],
    ) -> Option<SwitchedTask>
        requires frames { frames.now ≡ map frames_of tasks.now }
        ensures newest { IfSome result (λ was. (now : AnyTask) × ((slice_get tasks.now was.task ≡ Some (Some now))
            × (self.old ≡ with_switched self.new was now))) }
        ensures unchanged { IfNone result (self.new ≡ self.old) }
    {
        if self.logged() == 0 {
            return None;
        }
        self.all.take_switched(tasks, frames)
    }

    /// Drops the records of the current event. The cost grows with the number of these records.
    pub fn clear(&mut self)
        ensures { self.new ≡ record self.old { logged = [] } }
    {
        for _record in 0..self.logged() {
            let _gone = self.take_newest();
        }
    }

    /// Ends the current event. From now on, the event's records count as the newest records of earlier events. The
    /// records aren't moved, so the cost is constant.
    pub fn keep(&mut self)
        requires { length self.old.older + length self.old.logged ≤ MAX_JOURNAL_RECORDS }
        ensures { self.new ≡ record self.old { logged = []; older = self.old.older ++ self.old.logged } }
    {
        self.older = self.all.count();
    }

    /// Turns the newest `count` records of earlier events into records of the current event, so that they can be
    /// removed one by one. The current event must have logged nothing. The cost is constant.
    pub fn reopen(&mut self, count: usize)
        requires none { self.old.logged ≡ [] }
        requires few { count ≤ self.old.room }
        requires there { count ≤ length self.old.older }
        ensures { self.new ≡ record self.old {
          logged = drop (length self.old.older - count) self.old.older;
          older = take (length self.old.older - count) self.old.older;
        } }
    {
        self.older -= count;
    }

    /// Drops all records, also those of earlier events. The list keeps its memory, and the cost is constant.
    pub fn clear_all(&mut self)
        ensures { self.new ≡ record self.old { logged = []; older = [] } }
    {
        self.all.clear();
        self.older = 0;
    }
}
