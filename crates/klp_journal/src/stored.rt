//! Records as words in one list, one record after another.
ghost use Rattle.std.specs.Prelude.{◌≡◌, ◌+◌, ◌-◌, ◌*◌, ◌<◌, ◌≤◌, [], ◌∷◌, ◌++◌, length, map, take, slice_get, Some};
ghost use Rattle.std.specs.Prelude.{IfOk, IfSome, IfNone, vec_len, vec_capacity};
ghost use Rattle.klp_types.specs.declared.record.Record.TheVariants.{TaskRow};
ghost use Rattle.klp_types.specs.declared.task.Task.{Task as AnyTask};
ghost use Rattle.klp_journal.specs.Small.{row_of};
ghost use Rattle.klp_types.specs.Frames.{frames_of};

use crate::frame_words::FrameWords;
use crate::read_words::read_back;
use crate::small::{SmallRecord, small};
use crate::switched::{SwitchedTask, switched};
use crate::write_words::{copy_task, write_record};
use klp_types::{MAX_RECORD_WORDS, Record, Task, TaskId};
use std::alloc::{AllocError, Global};
use std::marker::Model;

/// Records in the order in which they were logged, as words in one list whose memory is allocated when it is made.
#[derive(Drop)]
pub(crate) struct StoredRecords {
    words: Vec<u64>,
    /// How many records there are.
    count: usize,
    room: usize,
}

/// Removes the last `count` words.
#[inline(always)]
fn shorten(words: &mut Vec<u64>, count: usize)
    requires { count ≤ vec_len words.old }
    ensures left { words.new.items ≡ take (vec_len words.old - count) words.old.items }
    ensures room { vec_capacity words.old ≤ vec_capacity words.new }
{
    words.truncate(words.len() - count);
}

impl Model for StoredRecords {
    ghost use Rattle.std.specs.Prelude.{◌≤◌, ◌*◌, vec_capacity};
    ghost use Rattle.klp_journal.specs.Stored.{StoredList, records_in, AreWords};

    ghost Value = { StoredList };

    ghost view = { λ r. record { rows = records_in r.count r.words.items; room = r.room } };

    ghost invariant = { λ r. AreWords r.count r.words.items × (r.count ≤ r.room)
        × (36 * r.room ≤ vec_capacity r.words) };
}

impl StoredRecords {
    /// Creates an empty list with room for `room` records. The list never grows, whatever the records are. Returns
    /// `Err` if memory is refused.
    pub(crate) fn new(alloc: Global, room: usize) -> Result<Self, AllocError>
        ensures { IfOk result (λ records. records ≡ record { rows = []; room = room }) }
    {
        let most = MAX_RECORD_WORDS.checked_mul(room).ok_or(AllocError)?;
        Ok(Self {
            words: Vec::with_capacity(alloc, most)?,
            count: 0,
            room,
        })
    }

    /// Returns how many records there are.
    pub(crate) fn count(&self) -> usize
        ensures value { result ≡ length self.now.rows }
        ensures limit { result ≤ self.now.room }
    {
        self.count
    }

    /// Appends a record.
    #[inline(always)]
    pub(crate) fn note(&mut self, row: Record)
        requires { length self.old.rows < self.old.room }
        ensures { self.new ≡ record self.old { rows = self.old.rows ++ row ∷ [] } }
    {
        write_record(&row, &mut self.words);
        self.count += 1;
    }

    /// Appends the record of a task. `frames` are the words of the task's frames.
    #[inline(always)]
    pub(crate) fn note_task(&mut self, task: TaskId, was: &Task, frames: &FrameWords)
        requires room { length self.old.rows < self.old.room }
        requires frames { frames.now ≡ was.now.frames }
        ensures { self.new ≡ record self.old { rows = self.old.rows ++ TaskRow task was.now ∷ [] } }
    {
        self.count += 1;
        copy_task(task, was, frames, &mut self.words);
    }

    /// Removes and returns the newest record. Returns `None` if there is no record.
    pub(crate) fn take_newest(&mut self) -> Option<Record>
        ensures newest { IfSome result
            (λ newest. self.old ≡ record self.new { rows = self.new.rows ++ newest ∷ [] }) }
        ensures empty { IfNone result (self.old.rows ≡ []) }
        ensures unchanged { IfNone result (self.new ≡ self.old) }
    {
        let Some((row, count)) = read_back(self.words.as_slice()) else {
            return None;
        };
        shorten(&mut self.words, count);
        self.count -= 1;
        Some(row)
    }

    /// Removes the newest record, and returns it in its small form. If the record isn't of a small kind, returns `None`
    /// and removes nothing.
    #[inline(always)]
    pub(crate) fn take_small(&mut self) -> Option<SmallRecord>
        requires { 0 < length self.old.rows }
        ensures newest { IfSome result
            (λ newest. self.old ≡ record self.new { rows = self.new.rows ++ row_of newest ∷ [] }) }
        ensures unchanged { IfNone result (self.new ≡ self.old) }
    {
        let Some((newest, count)) = small(self.words.as_slice()) else {
            return None;
        };
        shorten(&mut self.words, count);
        self.count -= 1;
        Some(newest)
    }

    /// If the newest record is of a task whose frames haven't changed since, removes the record and returns it without
    /// its frames. Otherwise returns `None` and removes nothing.
    #[inline(always)]
    pub(crate) fn take_switched(
        &mut self,
        tasks: &[Option<Task>],
        frames: &[FrameWords],
    ) -> Option<SwitchedTask>
        requires some { 0 < length self.old.rows }
        requires frames { frames.now ≡ map frames_of tasks.now }
        ensures newest { IfSome result (λ was. (now : AnyTask) × ((slice_get tasks.now was.task ≡ Some (Some now))
            × (self.old ≡ record self.new {
              rows = self.new.rows ++ TaskRow was.task (record now { state = was.state; mode = was.mode }) ∷ [];
            }))) }
        ensures unchanged { IfNone result (self.new ≡ self.old) }
    {
        let Some((was, count)) = switched(self.words.as_slice(), tasks, frames) else {
            return None;
        };
        shorten(&mut self.words, count);
        self.count -= 1;
        Some(was)
    }

    /// Removes all records. The list keeps its memory.
    pub(crate) fn clear(&mut self)
        ensures { self.new ≡ record self.old { rows = [] } }
    {
        self.words.clear();
        self.count = 0;
    }
}
