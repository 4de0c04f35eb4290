//! The tasks that lag without blocking the transition.
ghost use Rattle.std.specs.Prelude.{◌≡◌, [], ◌∷◌, ◌++◌, ◌<◌, length};
ghost use Rattle.klp_types.specs.declared.limits.TheConstants.{MAX_TASKS};
ghost use Rattle.klp_timeline.specs.Lagging.{is_in, lagging};

use klp_types::{MAX_TASKS, Mode, TaskId};
use std::marker::Model;

/// Tasks that lag without blocking the transition, in the order of their numbers.
#[derive(Drop)]
pub struct Laggards {
    tasks: [TaskId; MAX_TASKS],
    count: usize,
}

impl Model for Laggards {
    ghost use Rattle.std.specs.Prelude.{ℕ, ◌≤◌, List, take};
    ghost use Rattle.klp_types.specs.declared.limits.TheConstants.{MAX_TASKS};

    ghost Value = { List ℕ };

    ghost view = { λ l. take l.count l.tasks };

    ghost invariant = { λ l. l.count ≤ MAX_TASKS };
}

impl Laggards {
    /// Makes an empty list.
    fn new() -> Laggards
        ensures { result ≡ [] }
    {
        Laggards {
            tasks: [TaskId(0); MAX_TASKS],
            count: 0,
        }
    }

    /// Appends a task. The list must have fewer than [`MAX_TASKS`] tasks.
    fn push(&mut self, task: TaskId)
        requires { length self.old < MAX_TASKS }
        ensures { self.new ≡ self.old ++ task ∷ [] }
    {
        self.tasks[self.count] = task;
        self.count += 1;
    }

    /// Returns the tasks.
    pub fn as_slice(&self) -> &[TaskId]
        ensures { result.now ≡ self.now }
    {
        &self.tasks[..self.count]
    }
}

/// Whether a task lags in this mode without blocking the transition. `wait` is the mode of a task that lags so, and
/// `None` for every other task.
fn is_in(mode: Mode, wait: &Option<Mode>) -> bool
    ensures { result ≡ is_in mode wait.now }
{
    match (wait, mode) {
        (Some(Mode::User), Mode::User) => true,
        (Some(Mode::Kernel), Mode::Kernel) => true,
        (Some(Mode::Asleep), Mode::Asleep) => true,
        _ => false,
    }
}

/// Returns the tasks that lag in this mode without blocking the transition, in the order of their numbers. `waits` has,
/// by task number, the mode of each task that lags so, and `None` for every other task.
pub fn lagging(mode: Mode, waits: &[Option<Mode>; MAX_TASKS]) -> Laggards
    ensures { result ≡ lagging mode waits.now }
{
    let mut tasks = Laggards::new();
    for task in 0..MAX_TASKS {
        if is_in(mode, &waits[task]) {
            tasks.push(TaskId(task as u8));
        }
    }
    tasks
}
