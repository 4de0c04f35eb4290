//! The transitions that a log shows: of which patch, since when, and how each ended.
use crate::kernel_log::TransitionStart;
use crate::named::Files;
use klp_capture::BootTime;

/// A transition that was seen.
#[derive(Clone, Copy)]
pub struct SeenTransition {
    /// The index of the transition's patch.
    pub patch: usize,
    /// Whether the patch is being enabled.
    pub target: bool,
    /// When the transition started.
    pub since: TransitionStart,
    /// When the first sample that shows the transition was taken.
    pub from: BootTime,
    /// When the last sample that shows the transition was taken.
    pub to: BootTime,
    /// How the transition ended. `None` if it hasn't ended.
    pub end: Option<TransitionEnd>,
}

/// The end of a transition.
#[derive(Clone, Copy)]
pub struct TransitionEnd {
    /// When the first sample after the transition was taken.
    pub at: BootTime,
    /// How the transition ended.
    pub ending: TransitionEnding,
}

/// How a transition ended.
#[derive(Clone, Copy, PartialEq, Eq)]
pub enum TransitionEnding {
    /// All tasks reached the target of the transition.
    Complete,
    /// The transition was reversed. The transition back may already be complete.
    Reversed,
}

impl SeenTransition {
    /// Whether this is the transition of this patch to this target.
    pub fn is_of(&self, patch: usize, target: bool) -> bool {
        self.patch == patch && self.target == target
    }

    /// Returns how the transition ended. `files` is what the patch's files read afterwards.
    pub fn ending_by(&self, files: Files) -> TransitionEnding {
        let is_enabled = matches!(files, Some((true, _)));
        if is_enabled == self.target {
            TransitionEnding::Complete
        } else {
            TransitionEnding::Reversed
        }
    }
}
