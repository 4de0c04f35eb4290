//! Reports where a fault is, for the people who wrote the files: which file, line and word, and what is wanted in place
//! of the word.
//!
//! `klpwatch` and `klppage` know only the kind of a fault and its line. [`Inputs`] reads the files again, as text, to
//! find the place of the fault. `klp_faulty_words` finds the word. If a trace isn't honest, the sentence says which
//! task does what (`dishonest.rt`), which function the task is inside of (`calls.rt`), or what its call lacks
//! (`lack.rt`). The trace alone doesn't show which versions a task is inside of, so a manager does the trace's events
//! again (`replay.rt`). If a kernel differs from the rules, it does so too, up to that line.
//!
//! What a kernel and the rules have at a line are values ([`Sides`]), with the names of patches and functions and the
//! numbers of tasks (`differing.rt`, `rules.rt`, `named.rt`). A program writes them as sentences (`sentences.rt`), in
//! which tasks have the program's own names ([`TaskNames`]).
//!
//! [`file_in`] reads a file or standard input (`reading.rt`). [`hint_typed`] and [`hint_file`] help at a terminal
//! (`typed.rt`, `unread.rt`).
//!
//! The messages are for people, and have no contract. No bytes of a file can control a terminal through a message. Each
//! call works with any files.
#![tactic(auto)]

mod calls;
mod differing;
mod dishonest;
mod inputs;
mod lack;
mod named;
mod reading;
mod replay;
mod rules;
mod sentences;
mod tasks;
mod typed;
mod unread;

pub use differing::Sides;
pub use inputs::{FileText, Inputs};
pub use klp_faulty_words::stray::FileKind;
pub use named::{NamedSight, NamedVersion, SpelledVersion};
pub use reading::{STANDARD_INPUT, file_in, only_one_input};
pub use replay::sides_in;
pub use rules::{
    AnswerReason, LagReason, LaggingTask, LaggingTasks, NoCallReason, RulesHave, StateReason,
    TaskInTransition,
};
pub use sentences::InWords;
pub use tasks::{TaskNames, TaskNumbers};
pub use typed::hint_typed;
pub use unread::hint_file;
