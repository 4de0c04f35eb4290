//! Input and output of a console: bytes from a source, lines made of them, and answers to a sink.
//!
//! **In.** A [`Source`] returns bytes. A read into a non-empty buffer returns the first of the bytes left; it returns
//! no byte only at their end. A line may be cut across reads. So a [`LineBuffer`] gathers its bytes in room of a fixed
//! size, and allocates nothing. Contracts see the buffer as its bytes, at most 256 and without a line feed. Bytes that
//! are heard piece by piece have the same lines as all of them together (`laws::lines_add_up`).
//!
//! [`LineBuffer::hear`] takes a piece up to its first line feed and returns the rest. Then the lines of buffer and
//! piece together are the finished line and the lines of the rest. If the piece has no line feed, buffer and piece
//! together are one line, which continues. `hear` returns `Err` exactly if that first line is longer than 256 bytes,
//! finished or not, and then nothing changes. Later bytes don't change finished lines (`specs/Lines`).
//! [`LineBuffer::whole_line`] borrows a line from the piece itself, if no byte of the line was heard before and the
//! piece finishes it.
//!
//! **Out.** [`Answers`] are gathered in room of a fixed size, and written to a [`Sink`], which takes the first of the
//! bytes that it is given. A caller needn't check after each word whether the word was taken: a failure of the sink is
//! stored, and after it nothing is gathered or written. All that was said so far is one text
//! (`laws::what_is_said_adds_up`). Each call promises one fact, `Says` (`specs/Says`, `Written`). Either the sink took
//! the first bytes of what was gathered and of the text, and the rest, at most 4,096 bytes, is gathered. Or the sink
//! failed once or took nothing once, and the rest, at least one byte, is lost. After a failure nothing changes. After
//! `flush` nothing is gathered, unless the sink failed. Numbers, bytes and addresses have the texts of `specs/Texts`;
//! an address has 16 digits. Answers know how many of the held bytes were written. So after a failure, the [`Marks`] of
//! lines show whose answer was cut off (`specs/Marks`).
//!
//! A failed call of a source or a sink returns or takes no byte. Contracts count reads into non-empty room, bytes that
//! were asked for, calls that failed, and writes that took nothing. With these counts they say who is to blame if a
//! console stops (`Gives`, `Fails` in `specs/Supply`). The counts take no bytes, since they exist in contracts alone.
//! [`OverRead`] and [`OverWrite`] are readers and writers of std, with the bytes that std's contracts say. [`Feed`] and
//! [`Taken`] are bytes in memory (`specs/Fed`, `Held`), cut as finely as a test wants, with one call that fails.
#![tactic(auto)]

mod answers;
mod count;
mod due;
mod feed;
pub mod laws;
mod line_buffer;
mod marks;
mod over_read;
mod over_write;
mod sink;
mod source;
mod taken;

pub use answers::Answers;
pub use feed::Feed;
pub use line_buffer::{LineBuffer, TooLong};
pub use marks::{MARKS_ROOM, Mark, Marks};
pub use over_read::OverRead;
pub use over_write::OverWrite;
pub use sink::{Failed, Sink};
pub use source::Source;
pub use taken::Taken;
