//! The parts of a machine that the tests need besides what a book needs. Some of them must stay the same if an event
//! isn't accepted.
ghost use Rattle.std.specs.Prelude.{◌≡◌, ◌≤◌, [], length};
ghost use Rattle.klp_types.specs.declared.limits.TheConstants.{MAX_GROUPS};

use crate::names::{FIRST, SECOND};
use klp_core::{Machine, Manager};
use klp_model::Event;
use klp_types::{PatchId, Site, SiteRow, Target, TaskId};

/// The parts of a machine that are compared: its mark, its transition, three of its rows, and three patch states.
#[derive(Clone, Copy, PartialEq)]
pub(crate) struct Shown {
    mark: u32,
    moving: Option<PatchId>,
    rows: [Option<SiteRow>; 3],
    states: [Option<i8>; 3],
}

impl Shown {
    pub(crate) fn of<M: Machine>(machine: &M) -> Shown {
        Shown {
            mark: machine.mark(),
            moving: machine.in_transition(),
            rows: [
                machine.row(Site(0)),
                machine.row(Site(1)),
                machine.row(Site(2)),
            ],
            states: [
                machine.patch_state(TaskId(1)),
                machine.patch_state(TaskId(2)),
                machine.patch_state(TaskId(3)),
            ],
        }
    }
}

/// A machine that can pick versions itself, and can seal its journal.
pub(crate) trait Shows: Machine {
    /// Returns what the manager picks for a task at a site.
    fn picked(&self, task: TaskId, site: Site) -> Option<Target>;

    /// Seals the journal: the present state becomes the base.
    fn close_journal(&mut self)
        requires { length (Self.journaled self.old).groups ≤ MAX_GROUPS }
        ensures { (Self.journaled self.new).groups ≡ [] };
}

impl Shows for Manager {
    fn picked(&self, task: TaskId, site: Site) -> Option<Target> {
        self.pick(task, site)
    }

    fn close_journal(&mut self) {
        self.seal();
    }
}

/// Applies an event to a machine, and returns whether it was accepted.
pub(crate) fn apply<M: Machine>(machine: &mut M, event: Event) -> bool {
    let _for_its_clause = machine.mark();
    machine.apply(event).is_ok()
}

/// Begins two tasks, and seals the journal. So a rewind doesn't undo the beginning of the tasks.
pub(crate) fn prepare<M: Shows>(machine: &mut M)
    ensures { (M.journaled machine.new).groups ≡ [] }
{
    apply(machine, Event::NewTask(FIRST));
    apply(machine, Event::NewTask(SECOND));
    let _for_its_clause = machine.mark();
    machine.close_journal();
}

/// Undoes all events in the journal.
pub(crate) fn empty<M: Machine>(machine: &mut M)
    ensures { (M.journaled machine.new).groups ≡ [] }
{
    let _for_its_clause = machine.mark();
    let _ = machine.rewind(0);
}
