//! The arguments of `klpwatch`, `klppage`, `klplint`, `klpsee` and `klpko`, which `clap` reads: files and options, in any
//! order.
//!
//! Each program has one command (`src/commands.rt`). The command says which arguments there are, so it also writes the
//! help. A program that was asked for help or its version (`src/version.rt`) writes it to standard output, and ends with
//! status 0. If arguments are refused, a line on standard error says how the program is called, and the status is 2
//! (`src/ending.rt`).
//!
//! A contract says which arguments give which files, by the values that `clap` finds: `watch_asked` and others in
//! `specs/Asked.antt`. `klpsim` reads its own arguments, since scripts wait for what it answers.
#![tactic(auto)]

mod asked;
mod commands;
mod ending;
mod program;
mod reading;
mod version;

pub use asked::{LintWords, ModuleQuestion, ModuleWords, PageWords, SeeWords, WatchWords};
pub use program::Program;
pub use reading::{given_words, lint_words, module_words, page_words, see_words, watch_words};
pub use version::version_text;
