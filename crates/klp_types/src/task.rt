ghost use Rattle.std.specs.Prelude.{◌≡◌, ◌-◌, ◌≤◌, [], ◌∷◌, ◌++◌, length, take, nat_lt, true, false};
ghost use Rattle.klp_types.specs.PatchStates.{IsPatchState};

use crate::limits::MAX_FRAMES;
use crate::number::Site;
use crate::version::Version;
use std::marker::Model;

/// A task, by its number. When the task ends, another task can get the number.
#[derive(Clone, Copy, PartialEq, Eq)]
pub struct TaskId(pub u8);

impl Model for TaskId {
    ghost use Rattle.std.specs.Prelude.{ℕ};

    ghost Value = { ℕ };

    ghost view = { λ t. t.0 };

    ghost inverse = { λ n. record { 0 = n } };
}

/// The patch state of a task, as `/proc/<pid>/patch_state` shows it: -1, 0 or 1. The type excludes any other number, so
/// the definitions of states don't have to exclude them.
#[derive(Clone, Copy, PartialEq, Eq)]
pub struct PatchState(i8);

impl Model for PatchState {
    ghost use Rattle.std.specs.Prelude.{ℤ};
    ghost use Rattle.klp_types.specs.PatchStates.{IsPatchState};

    ghost Value = { ℤ };

    ghost view = { λ s. s.0 };

    ghost inverse = { λ n. record { 0 = n } };

    ghost invariant = { λ s. IsPatchState s.0 };
}

impl PatchState {
    /// There is no transition (the kernel's `KLP_UNDEFINED`).
    pub const UNDEFINED: PatchState = PatchState(-1);

    /// The task doesn't run the patch in transition (the kernel's `KLP_UNPATCHED`).
    pub const UNPATCHED: PatchState = PatchState(0);

    /// The task runs the patch in transition (the kernel's `KLP_PATCHED`).
    pub const PATCHED: PatchState = PatchState(1);

    /// Returns the number that the kernel shows.
    pub fn number(self) -> i8
        ensures value { result ≡ self }
        ensures range { IsPatchState self }
    {
        self.0
    }
}

/// Where a task is. There are three modes because a transition switches tasks of each mode at another time. A sleeper
/// is switched while it sleeps, depending on its frames. A task in the kernel is switched when it leaves the kernel. A
/// task in user space is switched when it has entered the kernel and leaves it again.
#[derive(Clone, Copy, PartialEq, Eq)]
pub enum Mode {
    /// The task is in user space, and runs no function of the kernel. It is switched when it next leaves the kernel.
    User,
    /// The task runs in the kernel. Its frames aren't known, so no poll switches it.
    Kernel,
    /// The task sleeps in the kernel. Its frames are known, so it can be switched while it sleeps.
    Asleep,
}

/// The functions that a sleeping task is inside of, innermost last. The type has room for at most 32 functions. So the
/// definition of an allowed state doesn't need that limit (docs/DECISIONS.md, "Frames in allowed states").
#[derive(Clone, Copy, Debug, PartialEq, Eq)]
pub struct Frames {
    versions: [Version; MAX_FRAMES],
    count: u8,
}

impl Model for Frames {
    ghost use Rattle.std.specs.Prelude.{ℕ, List, take, length};
    ghost use Rattle.klp_types.specs.declared.limits.TheConstants.{MAX_FRAMES};
    ghost use Rattle.klp_types.specs.declared.version.Version.{Version};
    ghost use Rattle.klp_types.specs.declared.version.Version.TheVariants.{Original};
    ghost use Rattle.klp_types.specs.Padded.{padded, IsPadded, is_padded};

    ghost Value = { List Version };

    ghost view = { λ f. take f.count f.versions };

    ghost inverse = { λ versions.
        record { versions = padded MAX_FRAMES (Original 0) versions; count = length versions } };

    ghost invariant = { λ f. IsPadded MAX_FRAMES (Original 0) f.versions f.count };

    ghost inverse_ok = { λ f h i.
        record { versions = is_padded MAX_FRAMES (Original 0) f.versions f.count h i; count = h.0 i } };
}

impl Frames {
    /// Returns an empty list of frames. Each unused element is the original of site 0, so that equal frames are equal
    /// values.
    pub fn new() -> Self
        ensures { result ≡ [] }
    {
        Self {
            versions: [Version::Original(Site(0)); MAX_FRAMES],
            count: 0,
        }
    }

    /// Returns how many frames there are, at most [`MAX_FRAMES`]. The number is 0 for a task that doesn't sleep.
    pub fn len(&self) -> u8
        ensures { result ≡ length self.now }
    {
        self.count
    }

    /// Returns how many frames there are, as a `usize`.
    pub fn count(&self) -> usize
        ensures value { result ≡ length self.now }
        ensures limit { result ≤ MAX_FRAMES }
    {
        let versions: &[Version] = &self.versions;
        versions[..usize::from(self.count)].len()
    }

    /// Returns the frames, outermost first, without the unused elements.
    pub fn as_slice(&self) -> &[Version]
        ensures { result.now ≡ self.now }
    {
        let versions: &[Version] = &self.versions;
        &versions[..self.count as usize]
    }

    /// Appends a frame as the innermost, and returns true. If there is no room, returns false and changes nothing. In
    /// that case the caller decides which fault to report.
    pub fn push(&mut self, version: Version) -> bool
        ensures full { result ≡ nat_lt (length self.old) MAX_FRAMES }
        ensures pushed { result ≡ true → self.new ≡ self.old ++ version ∷ [] }
        ensures unchanged { result ≡ false → self.new ≡ self.old }
    {
        if (self.count as usize) < MAX_FRAMES {
            self.versions[self.count as usize] = version;
            self.count = self.count + 1;
            true
        } else {
            false
        }
    }

    /// Removes the innermost frame, if there is one. The task has returned from that function.
    pub fn pop(&mut self)
        ensures { self.new ≡ take (length self.old - 1) self.old }
    {
        if self.count > 0 {
            self.count -= 1;
            self.versions[self.count as usize] = Version::Original(Site(0));
        }
    }
}

/// A task: its patch state, its mode, and the functions that it is inside of. A task is one row of the state. The undo
/// record of the row is a copy of the task.
#[derive(Clone, Copy)]
pub struct Task {
    /// The task's patch state. It is -1 if there is no transition. Otherwise it is 1 if the task runs the patch in
    /// transition, and 0 if it doesn't.
    pub state: PatchState,
    pub mode: Mode,
    /// The frames of a sleeping task. If a task doesn't sleep, this list is empty, since the frames of a running task
    /// change all the time.
    pub frames: Frames,
}
