//! The words of a line, for both a catalog's text and the console.
//!
//! [`LineWords`] cuts a line into words, separated by spaces, or by spaces and tabs (`specs/Split`). [`cut`] splits a
//! text at the first occurrence of a byte. [`number64`] and similar functions read numbers. [`shadow_value`] reads the
//! value of a shadow variable, [`spelling_of`] a symbol as a `func` line spells it (`specs/Words`), and
//! [`microseconds`] the time of a log (`specs/Seconds`). [`is_ascii`] tests whether a line is ASCII. None of these
//! functions takes memory. A function reports only that a word is wrong, and the caller decides which fault to report.
//! `examples` shows how words of each kind are read, and which words are refused.
#![tactic(auto)]

pub mod examples;
mod lanes;
mod number;
mod seconds;
mod spelling;
mod split;
mod value;

pub use lanes::is_ascii;
pub use number::{hexadecimal, number32, number64, signed};
pub use seconds::microseconds;
pub use spelling::{Spelling, is_name, is_symbol_name, spelling_of, text};
pub use split::{LineWords, Separators, cut, position_of};
pub use value::shadow_value;
