//! The ends of the answers to gathered lines. After a failed write, the ends show which answer was cut off.
ghost use Rattle.std.specs.Prelude.{◌≡◌, ◌<◌, ◌≤◌, IsTrue, ◌↔◌, List, [], ◌∷◌, ◌++◌, length};
ghost use Rattle.klp_console_io.specs.Marks.{events_at_cut};

use arrayvec::ArrayVec;
use std::marker::Model;

/// How many lines may be gathered. The shortest answer to an event has three bytes, `ok` and its line feed. So the
/// marks run out before the buffer of answers is full only if an input has many short answers.
pub const MARKS_ROOM: usize = 512;

/// A line whose answer is gathered.
#[derive(Clone, Copy, Default, PartialEq, Eq)]
pub struct Mark {
    /// How many bytes were gathered when the line was answered. The line's answer ends there.
    pub end: usize,
    /// How many events the journal had when the line was done. With this number, later events can be taken back.
    pub events: u32,
}

/// The marks of gathered lines, in the order of the lines.
#[derive(Drop)]
pub struct Marks {
    marks: ArrayVec<Mark, MARKS_ROOM>,
}

impl Model for Marks {
    ghost use Rattle.std.specs.Prelude.{List};
    ghost use Rattle.klp_console_io.specs.declared.marks.Mark.{Mark};

    ghost Value = { List Mark };

    ghost view = { λ m. m.marks.items };
}

impl Marks {
    /// Makes marks without a line.
    pub fn new() -> Marks
        ensures { result ≡ [] }
    {
        Marks {
            marks: ArrayVec::new(),
        }
    }

    /// Whether there is no room for another mark, so that the gathered answers must be written first.
    pub fn is_full(&self) -> bool
        ensures full { IsTrue result ↔ (length self.now ≡ MARKS_ROOM) }
        ensures limit { length self.now ≤ MARKS_ROOM }
    {
        self.marks.is_full()
    }

    /// Drops all marks. The answers to their lines are written, so the events of these lines won't be taken back.
    pub fn clear(&mut self)
        ensures { self.new ≡ [] }
    {
        self.marks.clear();
    }

    /// Marks one more line, whose answer was gathered last.
    pub fn push(&mut self, mark: Mark)
        requires { length self.old < MARKS_ROOM }
        ensures { self.new ≡ self.old ++ mark ∷ [] }
    {
        self.marks.push(mark);
    }

    /// Returns how many events the journal had when the line was done whose answer was cut off. `written` is how many
    /// of the gathered bytes were written. The line is the first one whose answer ends behind these bytes. Returns
    /// `None` if all answers were written.
    pub fn events_at_cut(&self, written: usize) -> Option<u32>
        ensures { result ≡ events_at_cut written self.now }
    {
        let cut = self.marks.iter().find(|mark| written < mark.end)?;
        Some(cut.events)
    }
}
