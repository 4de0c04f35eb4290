//! What a sample contradicts.
use klp_capture::{BootTime, Text};
use klp_messages::Escaped;
use std::fmt;

/// A thread, printed by its name and number, such as `billing[90]`.
#[derive(Clone, Copy)]
pub struct NamedThread<'a> {
    pub name: &'a [u8],
    pub thread: u64,
}

impl fmt::Display for NamedThread<'_> {
    fn fmt<W: fmt::Write>(&self, f: &mut fmt::Formatter<W>) -> fmt::Result {
        let (name, thread) = (Escaped(self.name), self.thread);
        write!(f, "{name}[{thread}]")
    }
}

/// What no run of the rules shows.
#[derive(Clone, Copy)]
pub enum Contradiction<'a> {
    /// Two patches are in transition.
    TwoInTransition(&'a [u8], &'a [u8]),
    /// The first patch is installed below the second one, which is cumulative, and whose transition is complete.
    Outlives(&'a [u8], &'a [u8]),
    /// An enabled patch hasn't patched the kernel's own functions.
    Unpatched(&'a [u8]),
    /// A patch lists other functions than in the sample before, though it is as it was then.
    ChangesOthers(&'a [u8]),
    /// A task has a patch state though no patch is in transition.
    StateAtRest(NamedThread<'a>),
    /// A task has no patch state though this patch has been in transition since the sample before.
    NoState(NamedThread<'a>, &'a [u8]),
    /// A task sleeps in a new function of a patch that isn't there.
    NotThere(NamedThread<'a>, Replacement<'a>),
    /// An unswitched task sleeps in a new function of the patch in transition.
    TooNew(NamedThread<'a>, Replacement<'a>),
    /// A switched task sleeps in a function that the patch in transition replaces.
    TooOld(NamedThread<'a>, Replacement<'a>),
    /// A task sleeps in a function that an enabled patch replaces, whose transition is complete.
    Replaced(NamedThread<'a>, Replacement<'a>),
    /// A task hasn't run since this time, and is inside of other functions than then.
    MovedAsleep(NamedThread<'a>, BootTime),
    /// A task hasn't run since this time, when it slept, and has ended.
    EndedAsleep(NamedThread<'a>, BootTime),
    /// A task had run more often at this time than now.
    RanBackwards(NamedThread<'a>, BootTime),
    /// A task had ended at this time, and runs or sleeps now.
    Revived(NamedThread<'a>, BootTime),
}

impl Contradiction<'_> {
    /// Whether a forced transition before the sample would excuse it. A force leaves tasks inside of functions that no
    /// task calls any more, so it excuses what a task sleeps in, and nothing else.
    pub fn is_excused_by_a_force(&self) -> bool {
        matches!(
            self,
            Contradiction::NotThere(..)
                | Contradiction::TooNew(..)
                | Contradiction::TooOld(..)
                | Contradiction::Replaced(..)
        )
    }
}

/// A function that a patch replaces.
#[derive(Clone, Copy)]
pub struct Replacement<'a> {
    pub patch: &'a [u8],
    pub old: &'a [u8],
    pub new: &'a [u8],
}

/// Prints what the sample has, and what the rules say of it.
impl fmt::Display for Contradiction<'_> {
    fn fmt<W: fmt::Write>(&self, f: &mut fmt::Formatter<W>) -> fmt::Result {
        match self {
            Contradiction::TwoInTransition(first, second) => {
                let (first, second) = (Escaped(first), Escaped(second));
                write!(
                    f,
                    "{first} and {second} are both in transition, and only one patch can be"
                )
            }
            Contradiction::Outlives(older, cumulative) => {
                let (older, cumulative) = (Escaped(older), Escaped(cumulative));
                write!(
                    f,
                    "{older} is installed below {cumulative}, which is cumulative, and whose transition is complete"
                )
            }
            Contradiction::Unpatched(patch) => {
                let patch = Escaped(patch);
                write!(
                    f,
                    "{patch} is enabled, and its functions of the kernel aren't patched"
                )
            }
            Contradiction::ChangesOthers(patch) => {
                let patch = Escaped(patch);
                write!(
                    f,
                    "{patch} changes other functions than in the sample before"
                )
            }
            Contradiction::StateAtRest(task) => write!(
                f,
                "{task} has a patch_state other than -1, and no patch is in transition"
            ),
            Contradiction::NoState(task, patch) => {
                let patch = Escaped(patch);
                write!(f, "{task} has patch_state -1, and {patch} is in transition")
            }
            Contradiction::NotThere(task, it) => write!(
                f,
                "{task} sleeps in {}, and its patch {} isn't there",
                Escaped(it.new),
                Escaped(it.patch)
            ),
            Contradiction::TooNew(task, it) => write!(
                f,
                "{task} sleeps in {} of {}, and by its patch_state 0 it runs {}",
                Escaped(it.new),
                Escaped(it.patch),
                Escaped(it.old)
            ),
            Contradiction::TooOld(task, it) => write!(
                f,
                "{task} sleeps in {}, and by its patch_state 1 it runs {} of {}",
                Escaped(it.old),
                Escaped(it.new),
                Escaped(it.patch)
            ),
            Contradiction::Replaced(task, it) => write!(
                f,
                "{task} sleeps in {}, and each task runs {} of {}, whose transition is complete",
                Escaped(it.old),
                Escaped(it.new),
                Escaped(it.patch)
            ),
            Contradiction::MovedAsleep(task, at) => write!(
                f,
                "{task} hasn't run since {at} s, and is inside of other functions than then"
            ),
            Contradiction::EndedAsleep(task, at) => {
                write!(
                    f,
                    "{task} hasn't run since {at} s, and has ended though it slept then"
                )
            }
            Contradiction::RanBackwards(task, at) => write!(
                f,
                "{task} had got a processor more often at {at} s than it has now"
            ),
            Contradiction::Revived(task, at) => {
                write!(f, "{task} had ended at {at} s, and is alive now")
            }
        }
    }
}

/// A contradiction, and the sample that shows it.
#[derive(Clone, Copy)]
pub struct Contradicted<'a> {
    /// The number of the sample, from 0.
    pub sample: usize,
    pub what: Contradiction<'a>,
}
