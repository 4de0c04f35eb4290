//! The lists of events that are measured. A manager does each list in several slices.

use crate::events::{
    ASLEEP, ASLEEP_ELSEWHERE, BEGUN, COMING_AND_GOING, CYCLE, ENABLED, ENTERED, FEW_ADDED, LIVES,
    MANY_ADDED, MIXED, OF_ONE_TASK, POLLS, REFUSED, STARTED, Turns, events_of, trace_of,
};
use crate::time::Shortest;
use klp_model::Event;
use klp_watch::Observed;
use std::alloc::{AllocError, Global};

/// How often a round does a list that leaves the state as it was.
const SLICES: u64 = 64;

/// How often a round does and undoes a list.
const SLICES_TAKEN_BACK: u64 = 4;

/// A list that is measured: its name, how often a round does it, and its events.
#[derive(Clone, Copy)]
struct Row {
    name: &'static str,
    slices: u64,
    events: &'static [Turns],
}

/// How lists are done. They are done as they are, or watched with calls and returns, or undone each time. If a list is
/// undone, only the undoing is measured.
#[derive(Clone, Copy)]
pub(crate) enum Way {
    Taken,
    Watched,
    TakenBack,
}

/// The lists that one manager does, in order, and the way in which it does them.
#[derive(Clone, Copy)]
pub(crate) struct Scene {
    rows: &'static [Row],
    pub(crate) way: Way,
}

const PATCHES_AND_VARIABLES: [Row; 6] = [
    Row {
        name: "enable and poll",
        slices: 1,
        events: &ENABLED,
    },
    Row {
        name: "the same again",
        slices: 1,
        events: &REFUSED,
    },
    Row {
        name: "10 shadow variables",
        slices: 1,
        events: &FEW_ADDED,
    },
    Row {
        name: "one more comes and goes among 10",
        slices: SLICES,
        events: &COMING_AND_GOING,
    },
    Row {
        name: "490 more shadow variables",
        slices: 1,
        events: &MANY_ADDED,
    },
    Row {
        name: "one more comes and goes among 500",
        slices: SLICES,
        events: &COMING_AND_GOING,
    },
];

const CYCLES: [Row; 3] = [
    Row {
        name: "enable, poll, disable, poll",
        slices: SLICES,
        events: &CYCLE,
    },
    Row {
        name: "8 tasks begin",
        slices: 1,
        events: &BEGUN,
    },
    Row {
        name: "they enter and exit",
        slices: SLICES,
        events: &ENTERED,
    },
];

/// 64 tasks sleep, each inside of 32 functions. The patch changes the innermost function.
const HELD: [Row; 3] = [
    Row {
        name: "64 tasks fall asleep in patched functions",
        slices: 1,
        events: &ASLEEP,
    },
    Row {
        name: "a transition starts",
        slices: 1,
        events: &STARTED,
    },
    Row {
        name: "a poll that they hold up",
        slices: SLICES,
        events: &POLLS,
    },
];

/// 64 tasks sleep inside of functions that the patch doesn't change.
const NOT_HELD: [Row; 2] = [
    Row {
        name: "64 tasks fall asleep in other functions",
        slices: 1,
        events: &ASLEEP_ELSEWHERE,
    },
    Row {
        name: "enable, poll, disable, poll beside them",
        slices: SLICES,
        events: &CYCLE,
    },
];

const BACK: [Row; 3] = [
    Row {
        name: "task events taken back",
        slices: SLICES_TAKEN_BACK,
        events: &OF_ONE_TASK,
    },
    Row {
        name: "enable, poll, disable, poll taken back",
        slices: SLICES_TAKEN_BACK,
        events: &CYCLE,
    },
    Row {
        name: "sleepers, a patch and variables taken back",
        slices: SLICES_TAKEN_BACK,
        events: &MIXED,
    },
];

const TASKS: [Row; 1] = [Row {
    name: "8 tasks begin, enter, exit and end",
    slices: SLICES,
    events: &LIVES,
}];

const WATCHED_TASKS: [Row; 1] = [Row {
    name: "they also call and return, and are watched",
    slices: SLICES,
    events: &LIVES,
}];

/// All scenes that are measured. Each has its own manager.
pub(crate) const SCENES: [Scene; 7] = [
    Scene {
        rows: &PATCHES_AND_VARIABLES,
        way: Way::Taken,
    },
    Scene {
        rows: &CYCLES,
        way: Way::Taken,
    },
    Scene {
        rows: &HELD,
        way: Way::Taken,
    },
    Scene {
        rows: &NOT_HELD,
        way: Way::Taken,
    },
    Scene {
        rows: &BACK,
        way: Way::TakenBack,
    },
    Scene {
        rows: &TASKS,
        way: Way::Taken,
    },
    Scene {
        rows: &WATCHED_TASKS,
        way: Way::Watched,
    },
];

/// A list of events, and the results of doing it.
#[derive(Drop)]
pub(crate) struct Measured {
    pub(crate) name: &'static str,
    pub(crate) events: Vec<Event>,
    /// The list's events as items of a trace, for a watched list.
    pub(crate) items: Vec<Observed>,
    /// How often a round does the list.
    pub(crate) slices: u64,
    pub(crate) accepted: u64,
    pub(crate) refused: u64,
    pub(crate) shortest: Shortest,
}

impl Measured {
    fn new(alloc: Global, row: &Row, rounds: u32) -> Result<Self, AllocError> {
        let events = events_of(alloc, row.events)?;
        let items = trace_of(alloc, &events)?;
        Ok(Self {
            name: row.name,
            events,
            items,
            slices: row.slices,
            accepted: 0,
            refused: 0,
            shortest: Shortest::of(rounds),
        })
    }

    /// Adds how many events of a slice were accepted and refused.
    pub(crate) fn count(&mut self, (accepted, refused): (u64, u64)) {
        self.accepted = self.accepted.saturating_add(accepted);
        self.refused = self.refused.saturating_add(refused);
    }
}

impl Scene {
    /// Returns the lists of the scene, ready for `rounds` rounds.
    pub(crate) fn lists(&self, alloc: Global, rounds: u32) -> Result<Vec<Measured>, AllocError> {
        let mut lists = Vec::new(alloc);
        for row in self.rows {
            lists.push(Measured::new(alloc, row, rounds)?)?;
        }
        Ok(lists)
    }
}
