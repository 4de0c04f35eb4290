//! Names of tasks, and times of lines.
ghost use Rattle.std.specs.Prelude.{◌≡◌, option_map, is_some, IfOk, IfErr};
ghost use Rattle.klp_names.specs.Names.{nothing_known, name_of, time_of, start_of, since_start, lasted, IsAt, IsGapFor};
ghost use Rattle.klp_names.specs.Text.{with_name, with_time, IsOutcome};

use crate::fault::NamesFaultKind;
use crate::named::Named;
use crate::timed::Timed;
use klp_types::TaskId;
use std::alloc::Global;
use std::marker::Model;

/// Facts that an observer knows of a run in addition to its lines: the names of tasks, and the times of lines. The
/// value may be empty.
#[derive(Drop)]
pub struct Names {
    named: Vec<Named>,
    timed: Vec<Timed>,
}

impl Model for Names {
    ghost use Rattle.klp_names.specs.Names.{Names, DoLinesRise};

    ghost Value = { Names };

    ghost view = { λ n. record { named = n.named.items; timed = n.timed.items } };

    ghost invariant = { λ n. DoLinesRise n.timed.items };
}

impl Names {
    /// Returns an empty value: no task has a name, and no line has a time. The call takes no memory.
    pub fn new(alloc: Global) -> Names
        ensures { result ≡ nothing_known }
    {
        Names {
            named: Vec::new(alloc),
            timed: Vec::new(alloc),
        }
    }

    /// Returns the name of a task. Returns `None` if the name isn't known.
    pub fn name(&self, task: TaskId) -> Option<&[u8]>
        ensures { option_map (λ name. name.now) result ≡ name_of self.now.named task }
    {
        for named in &self.named {
            if named.is_of(task) {
                return Some(named.name());
            }
        }
        None
    }

    /// Returns the time of a line in microseconds, by a binary search. Returns `None` if the time isn't known.
    pub fn time(&self, line: u64) -> Option<u64>
        ensures { result ≡ time_of self.now.timed line }
    {
        match self.place_of(line) {
            Ok(place) => Some(self.timed[place].at),
            Err(_) => None,
        }
    }

    /// Returns the index of this line's time. If the line has no time, returns as `Err` the index at which its time
    /// would have to be inserted.
    fn place_of(&self, line: u64) -> Result<usize, usize>
        ensures found { IfOk result (IsAt self.now.timed line) }
        ensures absent { IfErr result (IsGapFor self.now.timed line) }
    {
        self.timed.binary_search_by_key(&line, |timed| timed.line)
    }

    /// Returns for how many microseconds a condition lasted that began with the line `from`, and ended with the line
    /// after `to`. Returns `None` if `to` is `None`, since the condition hasn't ended then, or if the time of one of
    /// the two lines isn't known.
    pub fn lasted(&self, from: u64, to: Option<u64>) -> Option<u64>
        ensures { result ≡ lasted self.now.timed from to }
    {
        let next = to?.checked_add(1)?;
        let begin = self.time(from)?;
        let end = self.time(next)?;
        // Times don't fall from line to line, so nothing is cut off.
        Some(end.saturating_sub(begin))
    }

    /// Returns the time of a line, in microseconds since the first known time. Returns `None` if the line's time isn't
    /// known.
    pub fn since_start(&self, line: u64) -> Option<u64>
        ensures { result ≡ since_start self.now.timed line }
    {
        let first = self.timed.first()?;
        let at = self.time(line)?;
        // Times don't fall from line to line, so nothing is cut off.
        Some(at.saturating_sub(first.at))
    }

    /// Whether the time of at least one line is known.
    pub fn has_times(&self) -> bool
        ensures { result ≡ is_some (start_of self.now.timed) }
    {
        !self.timed.is_empty()
    }

    /// Adds the name of a task. If the task already has a name, or if memory runs out, returns `Err` and adds nothing.
    pub(crate) fn add_name(&mut self, task: TaskId, name: &[u8]) -> Result<(), NamesFaultKind>
        ensures { IsOutcome self.old (with_name self.old task name.now) self.new result }
    {
        if self.name(task).is_some() {
            return Err(NamesFaultKind::NamedTwice);
        }
        let alloc = *self.named.allocator();
        self.named.push(Named::new(alloc, task, name)?)?;
        Ok(())
    }

    /// Adds the time of a line, in microseconds. The line must come after all lines that have a time. Its time mustn't
    /// be earlier than any of their times. Otherwise, or if memory runs out, returns `Err` and adds nothing.
    pub(crate) fn add_time(&mut self, line: u64, at: u64) -> Result<(), NamesFaultKind>
        ensures { IsOutcome self.old (with_time self.old line at) self.new result }
    {
        if let Some(last) = self.timed.last() {
            if line <= last.line {
                return Err(NamesFaultKind::LineFalls);
            }
            if at < last.at {
                return Err(NamesFaultKind::TimeFalls);
            }
        }
        self.timed.push(Timed { line, at })?;
        Ok(())
    }
}
