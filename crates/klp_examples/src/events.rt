//! The events that are measured: lists of turns, each with a few steps.

use klp_model::{Event, Refusal, Reply, Seen};
use klp_types::{
    Frames, MAX_FRAMES, MAX_PATCHES, MAX_TASKS, PatchId, PatchState, ShadowKey, ShadowValue, Site,
    TaskId, Version,
};
use klp_watch::{Observed, PatchFiles, Sight};
use std::alloc::{AllocError, Global};

/// The first patch. `UNCHANGED` is a function that it doesn't change.
const FIRST: PatchId = PatchId(0);

const UNCHANGED: u16 = 64;

/// How many shadow variables exist while other variables are added and freed. The number is `FEW` in one list, and
/// `MANY` in another.
const FEW: u64 = 10;

const MANY: u64 = 500;

/// How often something is added and removed again in a slice.
const PAIRS: u64 = 16;

/// The largest number of patches. `ALL_TASKS` is the largest number of tasks, and `TASKS` is how many tasks enter and
/// leave the kernel.
const ALL_PATCHES: u64 = MAX_PATCHES as u64;

const ALL_TASKS: u64 = MAX_TASKS as u64;

const TASKS: u64 = 8;

/// What happens in a turn, depending on the turn's number.
#[derive(Clone, Copy)]
pub(crate) enum Step {
    /// The patch with this number is enabled. If there is no such patch, the event is refused.
    Enable,
    /// The first patch is enabled. `DisableFirst` disables it.
    EnableFirst,
    DisableFirst,
    /// The transition is tried.
    Poll,
    /// The task with this number begins. In the next three steps, the task enters the kernel, leaves it, and ends.
    NewTask,
    EnterKernel,
    ExitToUser,
    EndTask,
    /// The task falls asleep inside of as many functions as possible. The innermost function is at this site.
    Sleep(u16),
    /// The shadow variable with this number is added. `Free` frees it.
    Add,
    Free,
    /// A shadow variable is added whose key lies between the keys of the first variables. `Go` frees it.
    Come,
    Go,
}

/// Turns with the numbers from `numbers.0` up to, but without, `numbers.1`. All these turns are repeated `times` times.
#[derive(Clone, Copy)]
pub(crate) struct Turns {
    times: u64,
    numbers: (u64, u64),
    steps: &'static [Step],
}

/// Each patch is enabled and its transition completed.
pub(crate) const ENABLED: [Turns; 1] = [Turns {
    times: 1,
    numbers: (0, ALL_PATCHES),
    steps: &[Step::Enable, Step::Poll],
}];

/// Patches are enabled and polled once more. If all patches are installed, each of these events is refused.
pub(crate) const REFUSED: [Turns; 1] = [Turns {
    times: 1,
    numbers: (0, 32),
    steps: &[Step::Enable, Step::Poll],
}];

pub(crate) const FEW_ADDED: [Turns; 1] = [Turns {
    times: 1,
    numbers: (0, FEW),
    steps: &[Step::Add],
}];

pub(crate) const MANY_ADDED: [Turns; 1] = [Turns {
    times: 1,
    numbers: (FEW, MANY),
    steps: &[Step::Add],
}];

/// A shadow variable is added between the other variables, and freed again.
pub(crate) const COMING_AND_GOING: [Turns; 1] = [Turns {
    times: 1,
    numbers: (0, PAIRS),
    steps: &[Step::Come, Step::Go],
}];

/// Eight tasks begin.
pub(crate) const BEGUN: [Turns; 1] = [Turns {
    times: 1,
    numbers: (0, TASKS),
    steps: &[Step::NewTask],
}];

/// Each of the eight tasks enters the kernel and leaves it, again and again.
pub(crate) const ENTERED: [Turns; 1] = [Turns {
    times: PAIRS,
    numbers: (0, TASKS),
    steps: &[Step::EnterKernel, Step::ExitToUser],
}];

/// A task begins, and then enters and leaves the kernel again and again. One more event would still fit into the
/// journal.
pub(crate) const OF_ONE_TASK: [Turns; 2] = [
    Turns {
        times: 1,
        numbers: (0, 1),
        steps: &[Step::NewTask],
    },
    Turns {
        times: 2047,
        numbers: (0, 1),
        steps: &[Step::EnterKernel, Step::ExitToUser],
    },
];

/// Each of eight tasks begins, enters the kernel, leaves it and ends, again and again.
pub(crate) const LIVES: [Turns; 1] = [Turns {
    times: PAIRS,
    numbers: (0, TASKS),
    steps: &[
        Step::NewTask,
        Step::EnterKernel,
        Step::ExitToUser,
        Step::EndTask,
    ],
}];

/// A patch is enabled and disabled. Each time the transition completes.
pub(crate) const CYCLE: [Turns; 1] = [Turns {
    times: PAIRS,
    numbers: (0, 1),
    steps: &[
        Step::EnableFirst,
        Step::Poll,
        Step::DisableFirst,
        Step::Poll,
    ],
}];

/// As many tasks as possible fall asleep. Then the first patch is enabled and disabled, and shadow variables are added
/// and freed.
pub(crate) const MIXED: [Turns; 2] = [
    Turns {
        times: 1,
        numbers: (0, ALL_TASKS),
        steps: &[Step::NewTask, Step::EnterKernel, Step::Sleep(UNCHANGED)],
    },
    Turns {
        times: 1,
        numbers: (0, PAIRS),
        steps: &[
            Step::EnableFirst,
            Step::Add,
            Step::Poll,
            Step::DisableFirst,
            Step::Free,
            Step::Poll,
        ],
    },
];

/// As many tasks as possible fall asleep inside of a function that the first patch changes.
pub(crate) const ASLEEP: [Turns; 1] = [Turns {
    times: 1,
    numbers: (0, ALL_TASKS),
    steps: &[Step::NewTask, Step::EnterKernel, Step::Sleep(0)],
}];

/// As many tasks as possible fall asleep inside of functions that the first patch doesn't change.
pub(crate) const ASLEEP_ELSEWHERE: [Turns; 1] = [Turns {
    times: 1,
    numbers: (0, ALL_TASKS),
    steps: &[Step::NewTask, Step::EnterKernel, Step::Sleep(100)],
}];

/// The transition of the first patch starts.
pub(crate) const STARTED: [Turns; 1] = [Turns {
    times: 1,
    numbers: (0, 1),
    steps: &[Step::EnableFirst],
}];

/// The transition is polled again and again.
pub(crate) const POLLS: [Turns; 1] = [Turns {
    times: PAIRS,
    numbers: (0, 1),
    steps: &[Step::Poll],
}];

/// Returns as many frames as possible. The innermost frame is of the function `innermost`. The other frames are of
/// functions that the first patch doesn't change.
fn frames(innermost: u16) -> Frames {
    let mut frames = Frames::new();
    for _ in 1..MAX_FRAMES {
        frames.push(Version::Original(Site(UNCHANGED)));
    }
    frames.push(Version::Original(Site(innermost)));
    frames
}

impl Step {
    /// Returns the event of this step in the turn with this number.
    fn event(self, number: u64) -> Event {
        let patch = PatchId((number % 256) as u8);
        let task = TaskId((number % 256) as u8);
        let added = ShadowKey { obj: number, id: 1 };
        let between = ShadowKey {
            obj: number % FEW,
            id: 2,
        };
        match self {
            Step::Enable => Event::Enable(patch),
            Step::EnableFirst => Event::Enable(FIRST),
            Step::DisableFirst => Event::SetEnabled(FIRST, false),
            Step::Poll => Event::Poll,
            Step::NewTask => Event::NewTask(task),
            Step::EnterKernel => Event::EnterKernel(task),
            Step::ExitToUser => Event::ExitToUser(task),
            Step::EndTask => Event::EndTask(task),
            Step::Sleep(site) => Event::Sleep(task, frames(site)),
            Step::Add => Event::ShadowAlloc(added, ShadowValue::of(number)),
            Step::Free => Event::ShadowFree(added),
            Step::Come => Event::ShadowAlloc(between, ShadowValue::of(number)),
            Step::Go => Event::ShadowFree(between),
        }
    }
}

/// Adds the events of these turns.
fn take(events: &mut Vec<Event>, turns: Turns) -> Result<(), AllocError> {
    for _ in 0..turns.times {
        for number in turns.numbers.0..turns.numbers.1 {
            for step in turns.steps {
                events.push(step.event(number))?;
            }
        }
    }
    Ok(())
}

/// Returns the events of all turns of a list.
pub(crate) fn events_of(alloc: Global, list: &[Turns]) -> Result<Vec<Event>, AllocError> {
    let mut events = Vec::new(alloc);
    for turns in list {
        take(&mut events, *turns)?;
    }
    Ok(events)
}

/// The types of an item's parts, besides those of an event. The borrow checker covers a function that makes items only if
/// the function names the types of all parts.
type OtherParts = (Reply, Refusal, Sight, PatchFiles, PatchState);

/// Returns the events as items of a trace. After each event in which a task enters the kernel, the task calls a
/// function and returns from it.
pub(crate) fn trace_of(alloc: Global, events: &[Event]) -> Result<Vec<Observed>, AllocError> {
    let _parts: Option<OtherParts> = None;
    let mut items = Vec::new(alloc);
    for event in events {
        items.push(Observed::Seen(Seen::Event(*event)))?;
        if let Event::EnterKernel(task) = event {
            items.push(Observed::Seen(Seen::Call(*task, Site(0))))?;
            items.push(Observed::Seen(Seen::Return(*task)))?;
        }
    }
    Ok(items)
}
