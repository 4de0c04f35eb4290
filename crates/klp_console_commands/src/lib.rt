//! Reads what a line of the console asks for.
//!
//! [`read_request`] reads one line: its words, the names and numbers in them, and what the line asks of a manager. It
//! changes nothing, and allocates nothing. For every line and all names, the definition of the line's form gives the
//! result (`specs/Lines`, with words by `specs/Words` and names by `specs/Names`). A line without words asks for
//! nothing.
//!
//! A line may have several faults. A line that matches no form is reported first, then a value that a file doesn't
//! accept, then the first unknown name from the left. All other refusals come from the manager.
//!
//! The first word decides the form (`src/line.rt`). The forms of files, tasks and shadow variables are in
//! `src/files.rt`, `src/tasks.rt` and `src/shadow.rt`, and names are looked up in `src/names.rt`. The code has the
//! shape of the definition, so that a reader can compare them.
#![tactic(auto)]

mod fault;
mod files;
mod line;
mod names;
mod request;
mod shadow;
mod tasks;
mod words;

pub use fault::LineFault;
pub use line::read_request;
pub use request::{Asked, Query, Request};
