//! The undo journal: the accepted events, each with its reply and the records of the rows that it changed.
//!
//! *Records* are stored as words, one record after another, and read backwards. The words of a record name a row and
//! say what the row was. The last word is a tag with the record's kind and the number of words before the tag. So the
//! newest record is found from the end of the list (`specs/Words`). [`Records`] is such a list: the records of earlier
//! events, followed by the records of the current event (`src/stored.rt` has the words). New records are appended, and
//! the newest record can be taken out. All memory is allocated at the start. The records that events log most are taken
//! out in a form of a few bytes: as a [`SmallRecord`], or as a [`SwitchedTask`] without its frames. A table of tasks
//! stores the words of its tasks' frames as [`FrameWords`], so that the words are only copied and compared.
//!
//! [`write_record`] writes one record at the end of any words, and [`read_back`] reads the last record of any words.
//! `laws` says that `read_back` returns what `write_record` wrote, that the words of a record never end with those of
//! another record, and how many words a record has. `examples` has three records. docs/DECISIONS.md, "Records as
//! words", explains why records are words.
//!
//! The [`Journal`] has the events. The records of the events stay in a [`Records`] that the caller passes to each call.
//! Events and records together are groups (`groups_of`, `specs/Journal`). `append` adds a group at the end. `reopen`
//! removes the last group, so that its records can be put back. Both calls have a constant cost. `clear` removes all
//! groups. There are at most 4,096 events, with 16,384 records together. `has_room` returns whether there is room for
//! another event, whatever the event changes. The journal only stores records. The code that logs the records of an
//! event promises that they undo the event. `klp_core` promises that the records are put back.
#![tactic(auto)]

pub mod examples;
mod frame_words;
mod journal;
mod kinds;
pub mod laws;
mod read_words;
mod records;
mod small;
mod stored;
mod switched;
mod write_words;

pub use frame_words::FrameWords;
pub use journal::Journal;
pub use read_words::read_back;
pub use records::Records;
pub use small::SmallRecord;
pub use switched::SwitchedTask;
pub use write_words::write_record;
