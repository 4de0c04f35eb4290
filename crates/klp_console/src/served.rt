//! The results of serving: counts of lines if the input ended, or the reason why serving ended before the input.

use thiserror::Error;

/// How many lines were served, and how many of these were refused. So a caller needn't read the answers to count.
#[derive(Clone, Copy, Default, PartialEq, Eq)]
pub struct Served {
    /// All lines, including empty ones. So this is also the number of the last line.
    pub lines: u64,
    /// The lines that were answered with an error. It is 0 if no line of a script failed.
    pub refused: u64,
}

/// Why serving ended before the input did. The lines that were done stay done. After a failed write, the last line that
/// was done is the one whose answer was cut off.
#[derive(Clone, Copy, Debug, PartialEq, Eq, Error)]
pub enum ServeFault {
    /// A read failed, or [`MAX_READS`](klp_types::MAX_READS) reads were made and none of them found the end of the
    /// input.
    #[error("Read")]
    Read,
    /// A write failed or accepted no byte, so further answers would be lost.
    #[error("Write")]
    Write,
    /// A line is longer than [`MAX_CONSOLE_LINE`](klp_types::MAX_CONSOLE_LINE) bytes. Serving ends,
    /// and no part of the line is done.
    #[error("LineTooLong")]
    LineTooLong,
}
