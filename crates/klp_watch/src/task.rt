//! The calls and returns of tasks between events. The versions that each task is inside of are stored.
ghost use Rattle.std.specs.Prelude.{◌≡◌, true, length, IfOk, IfErr};
ghost use Rattle.klp_types.specs.declared.limits.TheConstants.{MAX_TASKS};
ghost use Rattle.klp_types.specs.declared.task.Mode.TheVariants.{Kernel};
ghost use Rattle.klp_model.specs.declared.seen.Seen.TheVariants.{Call as Calls, Return as Returns};
ghost use Rattle.klp_model.specs.Task.{task_at, is_in};
ghost use Rattle.klp_model.specs.Observed.{Stacks, seen_next};
ghost use Rattle.klp_manager_state.specs.Managed.{setting_of};
ghost use Rattle.klp_watch.specs.Inside.{AreInside};
ghost use Rattle.klp_watch.specs.Watching.{moment_of, may_call, may_return, IsCause};

use crate::cause::Cause;
use crate::inside::Inside;
use klp_core::Manager;
use klp_types::{Mode, Site, TaskId};

/// Whether a task runs in the kernel, so that it can call and return. The result is false for a task in user space or
/// asleep, and if there is no such task.
fn is_in_kernel(manager: &Manager, task: TaskId) -> bool
    ensures mode { result ≡ is_in Kernel (task_at manager.now.managed.state.tasks task) }
    ensures rows { length manager.now.managed.state.tasks ≡ MAX_TASKS }
{
    match manager.mode(task) {
        Some(mode) => mode == Mode::Kernel,
        None => false,
    }
}

/// Stores in `inside` that a task calls a site's function. Afterwards the task is inside of the version that the
/// manager picks for the call. Stores nothing if the task can't call: returns [`Cause::NoCall`] if it isn't in the kernel
/// or the site isn't in a loaded object, and [`Cause::Deep`] if there is no room for one more version.
pub(crate) fn call(
    manager: &Manager,
    inside: &mut Inside,
    task: TaskId,
    site: Site,
) -> Result<(), Cause>
    ensures called { IfOk result (λ _. (stacks : Stacks) → AreInside inside.old.rows stacks
        → (may_call (setting_of manager.now.managed) (moment_of manager.now stacks) task site ≡ true)
        × AreInside inside.new.rows
        (seen_next (setting_of manager.now.managed) (moment_of manager.now stacks) (Calls task site)).stacks) }
    ensures reported { IfErr result (λ cause. (stacks : Stacks) → AreInside inside.old.rows stacks
        → IsCause (setting_of manager.now.managed) (moment_of manager.now stacks) manager.now.groups
        (Calls task site) cause) }
{
    if !is_in_kernel(manager, task) {
        return Err(Cause::NoCall);
    }
    let Some(target) = manager.pick(task, site) else {
        return Err(Cause::NoCall);
    };
    let mut frames = inside.frames(task);
    if !frames.push(target.version) {
        return Err(Cause::Deep);
    }
    inside.put(task, frames);
    Ok(())
}

/// Stores in `inside` that a task returns from the function that it called last. Stores nothing and returns
/// [`Cause::NoReturn`] if the task isn't in the kernel, or if it is inside of no function.
pub(crate) fn come_back(manager: &Manager, inside: &mut Inside, task: TaskId) -> Result<(), Cause>
    ensures returned { IfOk result (λ _. (stacks : Stacks) → AreInside inside.old.rows stacks
        → (may_return (moment_of manager.now stacks) task ≡ true)
        × AreInside inside.new.rows
        (seen_next (setting_of manager.now.managed) (moment_of manager.now stacks) (Returns task)).stacks) }
    ensures reported { IfErr result (λ cause. (stacks : Stacks) → AreInside inside.old.rows stacks
        → IsCause (setting_of manager.now.managed) (moment_of manager.now stacks) manager.now.groups
        (Returns task) cause) }
{
    let mut frames = inside.frames(task);
    if !is_in_kernel(manager, task) || frames.len() == 0 {
        return Err(Cause::NoReturn);
    }
    frames.pop();
    inside.put(task, frames);
    Ok(())
}
