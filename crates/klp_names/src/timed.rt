//! A line with its time.

/// A line and its time, in microseconds.
#[derive(Clone, Copy)]
pub(crate) struct Timed {
    pub line: u64,
    pub at: u64,
}
