//! A task that a log follows, in its state after the part of the run that was found so far.
use klp_capture::{Activity, BootTime, PatchedState};
use klp_capture_catalog::SeenVersion;
use klp_core::Lag;
use klp_types::Mode;

/// A task of the run.
#[derive(Drop)]
pub struct Followed<'a> {
    /// The thread's number.
    pub thread: u64,
    /// When the thread began. If the thread's number is used again, the new thread began at another time.
    pub start: u64,
    /// The task's name.
    pub name: &'a [u8],
    /// Whether the task is a thread of the kernel itself.
    pub is_kernel_thread: bool,
    /// The task's mode in the run. `None` before the task begins, and after it has ended.
    pub(crate) mode: Option<Mode>,
    /// The functions that the task called in the run and hasn't returned from, outermost first.
    pub(crate) inside: Vec<SeenVersion>,
    /// What the task's `patch_state` read when it was last seen.
    pub(crate) state: PatchedState,
    /// How often the task had got a processor when it was last seen.
    pub(crate) runs: u64,
    /// The time since which the task hasn't run, by what samples show.
    pub(crate) since: BootTime,
    /// The number of the thread's process.
    pub process: u64,
    /// The letter of the task's state in `/proc/<pid>/stat` when it was last seen.
    pub letter: u8,
    /// Whether the log says that the thread has ended.
    pub(crate) has_ended: bool,
    /// Whether the log says that the thread isn't followed any longer. It may do anything from there on.
    pub(crate) is_left: bool,
    /// Why the task wasn't at the target in the last sample that showed a transition. `None` if the task was at the
    /// target.
    pub lag: Option<Lag>,
    /// The function of a patch's module that the task was last seen asleep in, if the log doesn't show which of the
    /// patch's functions it is. `None` otherwise.
    pub(crate) unplaced: Option<&'a [u8]>,
    /// The sleeps in such functions in which the task lagged, in order of time. The task may have held the transition up.
    pub unplaced_sleeps: Vec<UnplacedSleep<'a>>,
}

/// A time in which a task lagged and slept in a function of a patch's module, and the log doesn't show which.
#[derive(Clone, Copy)]
pub struct UnplacedSleep<'a> {
    /// The index of the transition.
    pub transition: usize,
    /// When the first sample that shows the sleep was taken.
    pub from: BootTime,
    /// When the last sample that shows the sleep was taken.
    pub to: BootTime,
    /// The function's name.
    pub function: &'a [u8],
}

/// What a sample shows of a task that it names.
#[derive(Drop)]
pub(crate) struct Sighting<'a> {
    pub(crate) activity: Activity,
    pub(crate) letter: u8,
    pub(crate) state: PatchedState,
    pub(crate) runs: u64,
    /// Whether the functions in `places` are those of one moment, and no function of a patch's module is left out.
    pub(crate) has_places: bool,
    /// The functions that the task is inside of, outermost first.
    pub(crate) places: Vec<SeenVersion>,
    /// The function of a patch's module that the task slept in, if it isn't among `places`.
    pub(crate) unplaced: Option<&'a [u8]>,
}

impl Sighting<'_> {
    /// Whether the task slept, and the functions that it slept in are known.
    pub(crate) fn is_asleep(&self) -> bool {
        self.has_places && self.activity == Activity::Asleep
    }
}
