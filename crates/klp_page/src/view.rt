//! What a manager shows after a line.
ghost use Rattle.std.specs.Prelude.{◌≡◌, ◌<◌, map, option_and_then, option_map};
ghost use Rattle.klp_types.specs.Frames.{frames_of};
ghost use Rattle.klp_model.specs.Pick.{pick_by};
ghost use Rattle.klp_core.specs.Holders.{holders};
ghost use Rattle.klp_model.specs.Task.{task_at};
ghost use Rattle.klp_types.specs.declared.limits.TheConstants.{MAX_TASKS};
ghost use Rattle.klp_manager_state.specs.Managed.{setting_of};
ghost use Rattle.klp_timeline.specs.declared.moment.Stay.TheVariants.{Outdated};
ghost use Rattle.klp_page.specs.Views.{site_of, is_picked, is_current, innermost_outside, outdated_in, lag_in};
ghost use Rattle.klp_page.specs.Views.{stay_by, stay_in, wait_by, IsView};

use klp_core::{Lag, Manager};
use klp_timeline::{Stay, View};
use klp_types::{MAX_TASKS, Mode, Site, Target, TaskId, Transition, Version};

/// Returns the site at which a version is called. Returns `None` for a new function that has no site.
fn site_of(manager: &Manager, version: &Version) -> Option<Site>
    ensures { result ≡ site_of (setting_of manager.now.managed) version.now }
{
    match *version {
        Version::Original(site) => Some(site),
        Version::New(patch, number) => manager.site_of(patch, usize::from(number)),
    }
}

/// Whether `target`, which was picked for a call, is this version. False if nothing was picked (`None`).
fn is_picked(version: &Version, target: &Option<Target>) -> bool
    ensures { result ≡ is_picked version.now target.now }
{
    match target {
        Some(target) => target.version == *version,
        None => false,
    }
}

/// Whether this task would run the version if it called the version's site now. False if the version has no site, or if
/// nothing can be called there.
fn is_current(manager: &Manager, task: TaskId, version: &Version) -> bool
    ensures { result ≡ is_current (setting_of manager.now.managed) manager.now.managed.state
        (task_at manager.now.managed.state.tasks task) version.now }
{
    match site_of(manager, version) {
        Some(site) => is_picked(version, &manager.pick(task, site)),
        None => false,
    }
}

/// Returns the innermost of these versions that this task wouldn't run if it called the version's site now. Returns
/// `None` if it would run all of them. `versions` are outermost first.
fn outdated_among(manager: &Manager, task: TaskId, versions: &[Version]) -> Option<Version>
    ensures { result ≡ innermost_outside (is_current (setting_of manager.now.managed) manager.now.managed.state
        (task_at manager.now.managed.state.tasks task)) versions.now }
{
    let mut found = None;
    for version in versions {
        if !is_current(manager, task, version) {
            // A later version is further inside, so it replaces an earlier one.
            found = Some(*version);
        }
    }
    found
}

/// Returns the innermost version that a task sleeps inside of but wouldn't run if it called the version's site now.
/// Returns `None` if there is none, as for a task that isn't asleep.
fn outdated(manager: &Manager, task: TaskId) -> Option<Version>
    ensures { result ≡ outdated_in (setting_of manager.now.managed) manager.now.managed.state
        (task_at manager.now.managed.state.tasks task) }
{
    outdated_among(manager, task, manager.frames(task).as_slice())
}

/// Returns the stay of a task: it holds the transition up, or else it sleeps inside of a version that it wouldn't run
/// now. Returns `None` if neither is so. `moving` is the transition under way, and `lag` says why the task isn't at the
/// target.
fn stay_of(
    manager: &Manager,
    task: TaskId,
    moving: &Option<Transition>,
    lag: &Option<Lag>,
) -> Option<Stay>
    ensures { result ≡ stay_by moving.now lag.now (outdated_in (setting_of manager.now.managed)
        manager.now.managed.state (task_at manager.now.managed.state.tasks task)) }
{
    if let (Some(moving), Some(Lag::Holds(version))) = (moving, lag) {
        return Some(Stay::Holds(*moving, *version));
    }
    match outdated(manager, task) {
        Some(version) => Some(Stay::Outdated(version)),
        None => None,
    }
}

/// Returns the stay of the task with this number. `moving` is the transition under way. `lags` has, by task number, why
/// a task isn't at the target.
fn stay_in(
    manager: &Manager,
    number: usize,
    moving: &Option<Transition>,
    lags: &[Option<Lag>; MAX_TASKS],
) -> Option<Stay>
    requires task { number < MAX_TASKS }
    requires moving { moving.now ≡ manager.now.managed.state.moving }
    requires lags { lags.now ≡ holders (setting_of manager.now.managed) manager.now.managed.state }
    ensures { result ≡ stay_in (setting_of manager.now.managed) manager.now.managed.state
        (task_at manager.now.managed.state.tasks number) }
{
    // For the proof only: the contract of mode says that there is a row for each task number.
    let _rows = manager.mode(TaskId(0));
    stay_of(manager, TaskId(number as u8), moving, &lags[number])
}

/// Returns the stay of each task, by task number. `lags` has, by task number, why a task isn't at the target.
fn stays(manager: &Manager, lags: &[Option<Lag>; MAX_TASKS]) -> [Option<Stay>; MAX_TASKS]
    requires { lags.now ≡ holders (setting_of manager.now.managed) manager.now.managed.state }
    ensures { result ≡ map (stay_in (setting_of manager.now.managed) manager.now.managed.state)
        manager.now.managed.state.tasks }
{
    // For the proof only: the contract of mode says that there is a row for each task number.
    let _rows = manager.mode(TaskId(0));
    let moving = manager.moving();
    let mut stays = [None; MAX_TASKS];
    for number in 0..MAX_TASKS {
        stays[number] = stay_in(manager, number, &moving, lags);
    }
    stays
}

/// Returns the mode of a task that lags without blocking the transition. Returns `None` for any other task. `lag` says
/// why the task isn't at the target.
fn wait_of(lag: &Option<Lag>) -> Option<Mode>
    ensures { result ≡ wait_by lag.now }
{
    match lag {
        Some(Lag::Waits(mode)) => Some(*mode),
        _ => None,
    }
}

/// Returns, by task number, the mode of each task that lags without blocking the transition, and `None` for any other
/// number. `lags` has, by task number, why a task isn't at the target.
fn waits(lags: &[Option<Lag>; MAX_TASKS]) -> [Option<Mode>; MAX_TASKS]
    ensures { result ≡ map wait_by lags.now }
{
    let mut waits = [None; MAX_TASKS];
    for number in 0..MAX_TASKS {
        waits[number] = wait_of(&lags[number]);
    }
    waits
}

/// Returns the state that a manager shows: its transition, its installed patches, and the stay of each task. The cost
/// is that of a poll that switches nobody, and of one pick for each frame of each sleeper.
pub fn view_of(manager: &Manager) -> View
    ensures { IsView (setting_of manager.now.managed) manager.now.managed.state result }
{
    let lags = manager.holders();
    View {
        moving: manager.moving(),
        installed: manager.installed(),
        stays: stays(manager, &lags),
        waits: waits(&lags),
    }
}
