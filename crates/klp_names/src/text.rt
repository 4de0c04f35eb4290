//! Reading a text of names, line by line.
ghost use Rattle.std.specs.Prelude.{◌≡◌, Ok, IfOk, IfErr};
ghost use Rattle.std.specs.Char.{is_ascii_control};
ghost use Rattle.std.specs.List.{list_any};
ghost use Rattle.klp_names.specs.Text.{is_task_name, task_of, line_of, with_named, with_timed, with_line, names_of};
ghost use Rattle.klp_names.specs.Text.{IsOutcome, IsFaultOf};

use crate::fault::{NamesFault, NamesFaultKind};
use crate::names::Names;
use klp_catalog_text::Lines;
use klp_types::{MAX_TASKS, TaskId};
use klp_words::{cut, microseconds, number64};
use std::alloc::Global;

/// How many bytes a task's name has at most.
pub const MAX_TASK_NAME: usize = 64;

/// Whether any byte of the word is a control character of ASCII.
fn has_control(word: &[u8]) -> bool
    ensures { result ≡ list_any is_ascii_control word.now }
{
    word.iter().any(|b| b.is_ascii_control())
}

/// Whether these bytes can be the name of a task: 1 to 64 bytes, without control characters.
pub(crate) fn is_task_name(word: &[u8]) -> bool
    ensures { result ≡ is_task_name word.now }
{
    !word.is_empty() && word.len() <= MAX_TASK_NAME && !has_control(word)
}

/// Reads the number of a task. Returns `None` if the word isn't a number from 0 to 63.
pub(crate) fn task_of(word: &[u8]) -> Option<TaskId>
    ensures { result ≡ task_of word.now }
{
    let number = number64(word)?;
    if number < MAX_TASKS as u64 {
        Some(TaskId(number as u8))
    } else {
        None
    }
}

/// Reads the number of a line. Returns `None` if the word isn't a positive number.
pub(crate) fn line_of(word: &[u8]) -> Option<u64>
    ensures { result ≡ line_of word.now }
{
    let number = number64(word)?;
    if number > 0 { Some(number) } else { None }
}

impl Names {
    /// Adds the name of a task from a line `task NUMBER NAME`, of which `rest` is `NUMBER NAME`. Returns `Err` and adds
    /// nothing if a part is misspelled, if the task has a name already, or if memory runs out.
    fn add_task_name(&mut self, rest: &[u8]) -> Result<(), NamesFaultKind>
        ensures { IsOutcome self.old (with_named self.old rest.now) self.new result }
    {
        let (number, name) = cut(rest, b' ');
        let Some(task) = task_of(number) else {
            return Err(NamesFaultKind::BadTask);
        };
        if !is_task_name(name) {
            return Err(NamesFaultKind::BadName);
        }
        self.add_name(task, name)
    }

    /// Adds the time of a line of the run from a line `line NUMBER SECONDS`, of which `rest` is `NUMBER SECONDS`.
    /// Returns `Err` and adds nothing if a part is misspelled, or if [`Names::add_time`] adds nothing.
    fn add_line_time(&mut self, rest: &[u8]) -> Result<(), NamesFaultKind>
        ensures { IsOutcome self.old (with_timed self.old rest.now) self.new result }
    {
        let (number, seconds) = cut(rest, b' ');
        let Some(line) = line_of(number) else {
            return Err(NamesFaultKind::BadLine);
        };
        let Some(at) = microseconds(seconds) else {
            return Err(NamesFaultKind::BadTime);
        };
        self.add_time(line, at)
    }

    /// Adds the name or the time that one line of the file has. Returns `Err` and adds nothing if the line is faulty,
    /// or if memory runs out.
    fn add_line(&mut self, line: &[u8]) -> Result<(), NamesFaultKind>
        ensures { IsOutcome self.old (with_line self.old line.now) self.new result }
    {
        let (word, rest) = cut(line, b' ');
        if word == b"task".as_slice() {
            self.add_task_name(rest)
        } else if word == b"line".as_slice() {
            self.add_line_time(rest)
        } else {
            Err(NamesFaultKind::UnknownWord)
        }
    }

    /// Reads the text of a file of names, in time linear in its length. If a line is faulty or memory runs out at a
    /// line, returns `Err` with the first such line.
    pub fn read(alloc: Global, text: &[u8]) -> Result<Names, NamesFault>
        ensures names { IfOk result (λ names. names_of text.now ≡ Ok names) }
        ensures fault { IfErr result (λ fault. IsFaultOf text.now fault.line fault.kind) }
    {
        let mut names = Names::new(alloc);
        let mut lines = Lines::new(text);
        let mut number = 0;
        while let Some(line) = lines.next() {
            number += 1;
            if let Err(kind) = names.add_line(line) {
                return Err(NamesFault { line: number, kind });
            }
        }
        Ok(names)
    }
}
