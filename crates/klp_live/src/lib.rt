//! The book: a manager that task threads share, and the table that it publishes to them.
//!
//! [`Book::pair`] opens a book with a manager, and makes a seat for each thread. [`Book::admit`] passes an event to the
//! manager for a seat (`specs/Admitting`). [`Seat::enter`] finds out, without a lock, which version a call of a task
//! runs (`specs/Passing`). Two facts hold of every book. Its manager's journal is the list of accepted events. The
//! published table is the dispatch table (`specs/Dispatch`) after that list (`specs/Shown`).
//!
//! `history` has the list, and `kept` has a row in the form that a receipt stores. `publisher`, `published`, `rules`
//! and `board` publish a table. `change` computes the changes that an event makes in the table, `entering` reads the
//! table, and `target` has what a call finds in it. docs/THREADS.md explains the whole crate.
#![tactic(auto)]

mod board;
mod book;
mod change;
mod entering;
mod history;
mod kept;
mod law;
mod live;
mod opening;
mod published;
mod publisher;
mod refusal;
mod rules;
mod seat;
mod table;
mod target;

pub use book::Book;
pub use entering::{Reads, TaskPass};
pub use history::{Front, Head, Opened, Start};
pub use kept::{Kept, TaskEvent};
pub use law::{Accepted, Law};
pub use live::{BadTask, CloseFault, Live};
pub use opening::{StartCause, StartFault};
pub use published::{Known, News, Published, View};
pub use refusal::{LiveRefusal, few_events_leave_room};
pub use rules::{Adopt, Same, Sees};
pub use seat::{Receipt, Seat};
pub use table::{Change, Moved, NewRow, Table};
pub use target::{
    EnterFault, tables_answer_what_the_machine_picks, target_of, what_is_entered_is_what_is_picked,
};
