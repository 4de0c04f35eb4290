//! The gates of the tests.
use klp_live_bodies::Gate;
use klp_types::TaskId;
use std::sync::atomic::{AtomicBool, AtomicU64, Ordering};
use std::thread;

/// How often a task looks for the other task's flag.
const LOOKS: u32 = 1_000_000;

/// The step before which two tasks meet.
const MEETING: u32 = 1;

/// A gate that always lets a task in.
#[derive(Clone, Copy)]
pub(crate) struct Open;

impl Gate for Open {
    fn before(&self, _task: TaskId, _step: u32) -> bool {
        true
    }
}

/// A gate where two tasks meet. Before a certain step, each task raises its flag, and then looks for the other task's
/// flag. If the gate saw the other flag, it lets the task in. The gate never changes its answer. So two bodies pass
/// their gates only if both are before that step at the same time.
#[derive(Drop)]
pub(crate) struct Meeting<'a> {
    own: &'a AtomicBool,
    other: &'a AtomicBool,
    met: AtomicBool,
}

/// The flags of two tasks that meet.
#[derive(Drop)]
pub(crate) struct Flags {
    first: AtomicBool,
    second: AtomicBool,
}

impl Flags {
    /// Returns two flags that aren't raised.
    pub(crate) fn new() -> Flags {
        Flags {
            first: AtomicBool::new(false),
            second: AtomicBool::new(false),
        }
    }

    /// Returns the gates of both tasks.
    pub(crate) fn gates(&self) -> (Meeting<'_>, Meeting<'_>) {
        (
            Meeting::new(&self.first, &self.second),
            Meeting::new(&self.second, &self.first),
        )
    }
}

impl<'a> Meeting<'a> {
    fn new(own: &'a AtomicBool, other: &'a AtomicBool) -> Meeting<'a> {
        Meeting {
            own,
            other,
            met: AtomicBool::new(false),
        }
    }

    fn looks_for_other(&self) -> bool {
        for _look in 0..LOOKS {
            thread::yield_now();
            if self.other.load(Ordering::SeqCst) {
                return true;
            }
        }
        false
    }
}

impl Gate for Meeting<'_> {
    fn before(&self, _task: TaskId, step: u32) -> bool {
        if step != MEETING {
            return true;
        }
        if !self.own.swap(true, Ordering::SeqCst) {
            let met = self.looks_for_other();
            self.met.store(met, Ordering::SeqCst);
        }
        self.met.load(Ordering::SeqCst)
    }
}

/// A gate that lets a task in after `refuses` refusals. The gate counts how often it was asked.
#[derive(Clone, Copy)]
pub(crate) struct Slow<'a> {
    pub(crate) asked: &'a AtomicU64,
    pub(crate) refuses: u64,
}

impl Gate for Slow<'_> {
    fn before(&self, _task: TaskId, _step: u32) -> bool {
        self.asked.fetch_add(1, Ordering::SeqCst) >= self.refuses
    }
}
