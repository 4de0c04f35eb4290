use crate::event::Event;
use klp_types::{Site, TaskId};

/// What is observed of a running kernel: an event, or a call or return of a task between events. A call or return only
/// changes which functions the task is inside of.
#[derive(Clone, Copy)]
pub enum Seen {
    /// An event is given to the manager, which accepts or refuses it.
    Event(Event),
    /// A task calls the function at a site, and runs the version that the definition picks for the task at this moment.
    Call(TaskId, Site),
    /// A task returns from the function that it called last.
    Return(TaskId),
}
