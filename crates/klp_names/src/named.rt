//! A task with its name.
ghost use Rattle.std.specs.Prelude.{◌≡◌, ◌==◌, IfOk};

use klp_types::TaskId;
use std::alloc::{AllocError, Global};
use std::marker::Model;

/// A task and its name.
#[derive(Drop)]
pub(crate) struct Named {
    task: TaskId,
    name: Vec<u8>,
}

impl Model for Named {
    ghost use Rattle.klp_names.specs.Named.{Named};

    ghost Value = { Named };

    ghost view = { λ n. record { task = n.task; name = n.name.items } };
}

impl Named {
    /// Returns a task with a copy of this name. Returns `Err` if memory runs out.
    pub(crate) fn new(alloc: Global, task: TaskId, name: &[u8]) -> Result<Named, AllocError>
        ensures { IfOk result (λ named. named ≡ record { task = task; name = name.now }) }
    {
        Ok(Named {
            task,
            name: Vec::from_slice(alloc, name)?,
        })
    }

    /// Whether `task` is the task that has this name.
    pub(crate) fn is_of(&self, task: TaskId) -> bool
        ensures { result ≡ (self.now.task == task) }
    {
        self.task == task
    }

    /// Returns the task's name.
    pub(crate) fn name(&self) -> &[u8]
        ensures { result.now ≡ self.now.name }
    {
        &self.name
    }
}
