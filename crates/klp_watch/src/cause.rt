use thiserror::Error;

/// Why an item can't be done. Either the item breaks this premise of the consistency model, or the watcher has no room
/// left for it. The numbers are this project's own, and never change.
#[derive(Clone, Copy, Debug, PartialEq, Eq, Error)]
pub enum Cause {
    /// A task existed at the start. So it isn't known which functions the task is inside of.
    #[error("NotOpening")]
    NotOpening = 1,
    /// A task fell asleep, but the frames of the event aren't the versions that the task is inside of.
    #[error("Frames")]
    Frames = 2,
    /// A task left the kernel or ended while it was inside of a function.
    #[error("FramesLeft")]
    FramesLeft = 3,
    /// A module was unloaded while a task was inside of one of the module's functions.
    #[error("ModuleInUse")]
    ModuleInUse = 4,
    /// A transition was forced.
    #[error("Forced")]
    Forced = 5,
    /// A task called a function, but it isn't in the kernel, or the site isn't in a loaded object.
    #[error("NoCall")]
    NoCall = 6,
    /// A task returned, but it is inside of no function or isn't in the kernel.
    #[error("NoReturn")]
    NoReturn = 7,
    /// A task called a function, but it is already inside of [`klp_types::MAX_FRAMES`] functions, the most that the
    /// watcher can store.
    #[error("Deep")]
    Deep = 8,
}

/// The first item that isn't honest. All items before it are done.
#[derive(Clone, Copy, Debug, PartialEq, Eq, Error)]
#[error("item {item}: {cause}")]
pub struct NotHonest {
    /// The number of the item, counted from 1. The number is 0 if the run couldn't begin.
    pub item: usize,
    pub cause: Cause,
}
