ghost use Rattle.std.specs.Prelude.{◌≡◌, [], ◌∷◌, ◌++◌, OnOk};

use klp_types::TaskId;
use std::alloc::{AllocError, Global};
use std::marker::Model;

/// Tasks, in the order of their numbers.
#[derive(Drop)]
pub struct TaskList {
    tasks: Vec<TaskId>,
}

impl Model for TaskList {
    ghost use Rattle.std.specs.Prelude.{ℕ, List};

    ghost Value = { List ℕ };

    ghost view = { λ list. list.tasks.items };
}

impl TaskList {
    /// Makes an empty list.
    pub(crate) fn new(alloc: Global) -> TaskList
        ensures { result ≡ [] }
    {
        TaskList {
            tasks: Vec::new(alloc),
        }
    }

    /// Appends a task, whose number must be higher than that of all tasks in the list.
    pub(crate) fn push(&mut self, task: TaskId) -> Result<(), AllocError>
        ensures { OnOk result (self.new ≡ self.old ++ task ∷ []) }
    {
        self.tasks.push(task)?;
        Ok(())
    }

    /// Returns the tasks, in the order of their numbers.
    pub fn as_slice(&self) -> &[TaskId]
        ensures { result.now ≡ self.now }
    {
        self.tasks.as_slice()
    }
}
