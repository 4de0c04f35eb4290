//! What all messages about files share: the line or word that a message is about, and text that is safe to show.
//!
//! A message may quote bytes of a file. [`Escaped`] and [`Quoted`] write these bytes so that none of them can control a
//! terminal (`src/escaped.rt`). [`line_at`] and [`word_at`] find a line or a word again by its number (`src/lines.rt`).
//! Messages are for people and have no contract. Each call works with any bytes.
#![tactic(auto)]

mod escaped;
mod lines;

pub use escaped::{Escaped, Quoted};
pub use lines::{line_at, word_at};
