//! How a program names the tasks of a trace.

use klp_types::TaskId;
use std::fmt;

/// The names that tasks have in a program's messages.
pub trait TaskNames {
    /// Writes the name of a task.
    fn write_name<W: fmt::Write>(&self, task: TaskId, f: &mut fmt::Formatter<W>) -> fmt::Result;
}

/// Names a task by its number, as in `task 5`.
#[derive(Clone, Copy)]
pub struct TaskNumbers;

impl TaskNames for TaskNumbers {
    fn write_name<W: fmt::Write>(&self, task: TaskId, f: &mut fmt::Formatter<W>) -> fmt::Result {
        let TaskId(number) = task;
        write!(f, "task {number}")
    }
}

/// Writes a task by its name.
#[derive(Clone, Copy)]
pub(crate) struct TaskName<'a, N> {
    pub(crate) names: &'a N,
    pub(crate) task: TaskId,
}

impl<N: TaskNames> fmt::Display for TaskName<'_, N> {
    fn fmt<W: fmt::Write>(&self, f: &mut fmt::Formatter<W>) -> fmt::Result {
        self.names.write_name(self.task, f)
    }
}
