//! The parts of the state that a line can have changed.

use klp_console::LineOutcome;
use klp_model::{Event, Reply};
use klp_types::TaskId;

/// The parts of the state that a line may have changed. No other part needs to be compared.
#[derive(Clone, Copy)]
pub(crate) enum Reach {
    /// Nothing that is on a card.
    Nothing,
    /// Only this task.
    Task(TaskId),
    /// All tasks, but not the functions that they sleep in.
    Tasks,
    /// Patches, tasks, sites, and what callbacks change.
    All,
}

/// Returns what an event that was accepted with this reply can have changed.
fn reach_of_event(event: &Event, reply: &Reply) -> Reach {
    match event {
        Event::NewTask(task)
        | Event::Fork(_, task)
        | Event::EndTask(task)
        | Event::EnterKernel(task)
        | Event::ExitToUser(task)
        | Event::Sleep(task, _)
        | Event::Wake(task) => Reach::Task(*task),
        Event::ShadowAlloc(_, _)
        | Event::ShadowGetOrAlloc(_, _)
        | Event::ShadowFree(_)
        | Event::ShadowFreeAll(_) => Reach::Nothing,
        // The transition goes on, so only tasks were switched.
        Event::Poll if matches!(reply, Reply::Pending(_)) => Reach::Tasks,
        _ => Reach::All,
    }
}

/// Returns what a line with this outcome can have changed. A line that was refused, or that only asked, changed
/// nothing.
pub(crate) fn reach_of(outcome: &LineOutcome) -> Reach {
    match outcome {
        LineOutcome::Answered(event, Ok(reply)) => reach_of_event(event, reply),
        LineOutcome::Rewound(_) => Reach::All,
        _ => Reach::Nothing,
    }
}
