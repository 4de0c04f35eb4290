//! The tasks, and which of them switch.
ghost use Rattle.std.specs.Prelude.{◌≡◌, ◌<◌, ◌≤◌, ◌++◌, true, false, List, length, map, is_some, option_map};
ghost use Rattle.klp_types.specs.declared.limits.TheConstants.{MAX_TASKS};
ghost use Rattle.klp_types.specs.declared.version.Version.{Version as AnyVersion};
ghost use Rattle.klp_types.specs.Records.{spare_of};
ghost use Rattle.klp_model.specs.Blocked.{switched};
ghost use Rattle.klp_model.specs.Task.{task_at, all_in};
ghost use Rattle.klp_tasks.specs.Members.{IsSetOf};
ghost use Rattle.klp_tasks.specs.Changes.{Changes, record_of, records_switched, IsSwitchLogged, undone, with_child};
ghost use Rattle.klp_tasks.specs.Changes.{changed};

use klp_journal::Records;
use klp_tasks::{Tasks, VersionSet};
use klp_types::{PatchState, TaskId};

/// Adds a task that another task starts, as [`Tasks::fork`] does.
pub fn fork(tasks: &mut Tasks, parent: TaskId, child: TaskId)
    requires there { is_some (task_at tasks.old parent) ≡ true }
    requires number { child < MAX_TASKS }
    requires free { is_some (task_at tasks.old child) ≡ false }
    ensures { Changes tasks.old tasks.new child (record_of child (task_at tasks.old child))
        (with_child tasks.old parent child) }
{
    tasks.fork(parent, child);
}

/// Switches a sleeping task that nothing blocks, as [`Tasks::switch_if_clear`] does.
pub fn switch_if_clear(
    tasks: &mut Tasks,
    task: TaskId,
    blocked: &VersionSet,
    target: bool,
    log: &mut Records,
)
    requires { 0 < spare_of log.old }
    ensures tasks { (versions : List AnyVersion) → IsSetOf blocked.now versions
        → tasks.new ≡ changed tasks.old task (switched versions target) }
    ensures logged { IsSwitchLogged tasks.old tasks.new task log.old log.new }
{
    tasks.switch_if_clear(task, blocked, target, log);
}

/// Switches all sleeping tasks that nothing blocks, as [`Tasks::try_all`] does.
pub fn try_all(tasks: &mut Tasks, blocked: &VersionSet, target: bool, log: &mut Records)
    requires { length tasks.old ≤ spare_of log.old }
    ensures tasks { (versions : List AnyVersion) → IsSetOf blocked.now versions
        → tasks.new ≡ map (option_map (switched versions target)) tasks.old }
    ensures records { log.new
        ≡ record log.old { logged = log.old.logged ++ records_switched 0 tasks.old tasks.new } }
    ensures undo { undone tasks.new (records_switched 0 tasks.old tasks.new) ≡ tasks.old }
{
    tasks.try_all(blocked, target, log);
}

/// Sets the patch state of every task, as [`Tasks::set_all`] does.
pub fn set_all(tasks: &mut Tasks, state: PatchState, log: &mut Records)
    requires { length (records_switched 0 tasks.old (all_in state tasks.old)) ≤ spare_of log.old }
    ensures tasks { tasks.new ≡ all_in state tasks.old }
    ensures records { log.new
        ≡ record log.old { logged = log.old.logged ++ records_switched 0 tasks.old (all_in state tasks.old) } }
    ensures undo { undone tasks.new (records_switched 0 tasks.old (all_in state tasks.old)) ≡ tasks.old }
{
    tasks.set_all(state, log);
}
