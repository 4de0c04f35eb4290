//! The row of the history that a receipt has.
ghost use Rattle.std.specs.Prelude.{◌≡◌, IfOk};
ghost use Rattle.klp_live.specs.Kept.{event_kept, reply_kept};

use crate::law::Accepted;
use klp_model::{Event, Reply};
use klp_types::TaskId;
use std::alloc::{AllocError, Global};

/// An event of a task that has no frames. Each variant corresponds to a variant of [`Event`].
#[derive(Clone, Copy)]
pub enum TaskEvent {
    New(TaskId),
    Fork(TaskId, TaskId),
    End(TaskId),
    EnterKernel(TaskId),
    ExitToUser(TaskId),
}

/// A row, with a small form for the most frequent task events. Receipts are passed from function to function. A whole
/// event and a whole reply are large, since each has room for the frames of a task.
#[derive(Drop)]
pub enum Kept {
    /// An event with the reply `Done`.
    OfTask(TaskEvent),
    /// Any row, in a box.
    Whole(Box<Accepted>),
}

impl Kept {
    /// Makes the row of an event with this reply. An error means that memory ran out.
    pub(crate) fn of(alloc: Global, event: &Event, reply: &Reply) -> Result<Kept, AllocError>
        ensures event { IfOk result (λ kept. event_kept kept ≡ event.now) }
        ensures reply { IfOk result (λ kept. reply_kept kept ≡ reply.now) }
    {
        let event = match (event, reply) {
            (Event::NewTask(task), Reply::Done) => TaskEvent::New(*task),
            (Event::Fork(parent, child), Reply::Done) => TaskEvent::Fork(*parent, *child),
            (Event::EndTask(task), Reply::Done) => TaskEvent::End(*task),
            (Event::EnterKernel(task), Reply::Done) => TaskEvent::EnterKernel(*task),
            (Event::ExitToUser(task), Reply::Done) => TaskEvent::ExitToUser(*task),
            (event, reply) => return Ok(Kept::Whole(Box::new(alloc, (*event, *reply))?)),
        };
        Ok(Kept::OfTask(event))
    }

    /// Returns the event.
    pub fn event(&self) -> Event
        ensures { result ≡ event_kept self.now }
    {
        match self {
            Kept::OfTask(TaskEvent::New(task)) => Event::NewTask(*task),
            Kept::OfTask(TaskEvent::Fork(parent, child)) => Event::Fork(*parent, *child),
            Kept::OfTask(TaskEvent::End(task)) => Event::EndTask(*task),
            Kept::OfTask(TaskEvent::EnterKernel(task)) => Event::EnterKernel(*task),
            Kept::OfTask(TaskEvent::ExitToUser(task)) => Event::ExitToUser(*task),
            Kept::Whole(row) => row.0,
        }
    }

    /// Returns the reply.
    pub fn reply(&self) -> Reply
        ensures { result ≡ reply_kept self.now }
    {
        match self {
            Kept::OfTask(_) => Reply::Done,
            Kept::Whole(row) => row.1,
        }
    }
}
