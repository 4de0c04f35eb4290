//! The numbers and names that threads and patches of a log have in a trace.

/// A thread that has a number in a trace.
#[derive(Clone, Copy)]
pub struct Thread {
    /// The number of its task in the trace.
    pub number: usize,
    /// The kernel's number of the thread.
    pub thread: u64,
    /// When the thread began, in ticks since boot.
    pub start: u64,
}

/// The name of a patch in a log, and its name in a trace.
#[derive(Clone, Copy)]
pub struct PatchName<'a> {
    /// Its name.
    pub name: &'a [u8],
}
