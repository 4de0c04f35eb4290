use crate::cause::Cause;
use thiserror::Error;

/// How a kernel differs from the rules at an item. Each kind of item can differ in its own way. If several differences
/// apply, the first is reported. The numbers continue those of [`Cause`]. 9 is a different answer, and 10 to 13 are
/// different sights in the order of the variants. The numbers are this project's own, and never change.
#[derive(Clone, Copy, Debug, PartialEq, Eq, Error)]
pub enum Difference {
    /// The item breaks a premise of the consistency model, so it isn't compared with the rules.
    #[error("{0}")]
    Premise(Cause),
    /// The kernel's answer to an event isn't that of the rules. The kernel gave another reply or another refusal, or it
    /// accepted an event that the rules refuse, or the reverse.
    #[error("Answer")]
    Answer,
    /// A task's patch state isn't that of the rules. Or the task exists but shouldn't exist by the rules, or the
    /// reverse.
    #[error("State")]
    State,
    /// A patch's file doesn't read as the rules say. Or the file exists but shouldn't exist by the rules, or the
    /// reverse.
    #[error("Files")]
    Files,
    /// A task ran another version than the rules pick. Or the task ran a version where it can't call anything by the
    /// rules.
    #[error("Version")]
    Version,
    /// A site is hooked but shouldn't be hooked by the rules, or the reverse. Or by the rules the site has no text,
    /// since its object isn't loaded.
    #[error("Text")]
    Text,
}

/// The first item at which a kernel differs from the rules. All items before it are done, and agree with the rules.
#[derive(Clone, Copy, Debug, PartialEq, Eq, Error)]
#[error("item {item}: {cause}")]
pub struct Differs {
    /// The number of the item, counted from 1. The number is 0 if the comparison couldn't begin.
    pub item: usize,
    pub cause: Difference,
}
