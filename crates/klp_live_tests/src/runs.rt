//! The work that is done with a machine: one test, or a number of measured rounds.
use crate::handles::Runtime;
use crate::passes::Story;
use crate::shows::Shows;
use crate::starts::{Run, show_start};
use crate::{entries, measure, rates, turns};
use std::alloc::Global;
use std::io;

#[derive(Clone, Copy)]
pub(crate) enum Work {
    /// Two seats of a book take turns.
    Turns,
    /// The passes of a start with this many seats do what the story says.
    Passes(usize, Story),
    /// The two tasks of a start run bodies and jobs.
    Bodies,
    /// Entries are compared with looks under a lock.
    Entries,
    /// Measures the costs of an event and of an entry in this many rounds.
    Costs(u64),
    /// Measures in this many rounds how much two bodies do in a second.
    Rates(u64),
}

/// Does this work with the machine, and drops the machine.
pub(crate) fn do_work<M: Shows + Drop + Send, R: Runtime>(
    rt: &R,
    alloc: Global,
    machine: M,
    work: Work,
) -> io::Result<()> {
    match work {
        Work::Turns => turns::twice(rt, alloc, machine),
        Work::Passes(places, story) => show_start(rt, alloc, machine, places, Run::Passes(story)),
        Work::Bodies => show_start(rt, alloc, machine, 2, Run::Bodies),
        Work::Entries => entries::show_quick(rt, alloc, machine),
        Work::Costs(rounds) => measure::rounds_of(rt, alloc, machine, rounds),
        Work::Rates(rounds) => rates::rounds_of(rt, alloc, machine, rounds),
    }
}
