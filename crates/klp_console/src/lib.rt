//! The console of a live patching manager: lines in, answers out, and nothing else.
//!
//! [`serve`] reads lines from a source until it ends, does each line with the manager, and writes the answers in order.
//! It makes no difference how reads cut the input. One contract, `ComesTo` (`specs/Served`), holds for every source and
//! sink. It has four outcomes: the input was served, a read failed, a write failed, or a line was too long. For each
//! outcome, the contract says which lines were done, in which state the manager is afterwards, and what was written.
//! `specs/Answered` defines what one line does, and `specs/Lines` what the lines of an input do. Both definitions
//! depend only on the bytes of all reads together.
//!
//! An answer is one or more whole lines, and each call writes exactly the defined text. The answer to a refused line
//! has the number and the name of the refusal (`specs/Refusals`). The answer to an accepted event says what the event
//! did, with the names of patch and object. The functions that a task is inside of are listed outermost first. An
//! original function is spelled by symbol and position, a new function by patch and index (`specs/Replies`, `Names`). A
//! query is refused, or answered line by line with the text that the definition gives for the manager. Queries show the
//! files of patches and tasks, the text and the entries of sites, and what callbacks did (`specs/Queries`). Nothing
//! here allocates.
//!
//! `examples` has every reply and refusal, and the answers to queries about a small kernel.
//!
//! [`answer_line`] answers a single line, for callers that cut the input into lines themselves. It does the line as
//! [`serve`] does (`specs/Answered`, and `IsSaid` of `specs/Said`).
//!
//! [`event_of`] returns the event that a line asks for, and [`site_of`] the site that a word names. [`answer_text`]
//! returns the answer to an event as text, and [`refusal_line`] that of each of [`all_refusals`]. These functions
//! change nothing (`specs/Asked`). [`patch_name`] and [`object_name`] are the names in answers.
#![tactic(auto)]

mod answer;
mod asked;
mod back;
mod by_itself;
mod console;
pub mod examples;
mod files;
mod hear;
pub mod laws;
mod names;
mod outcome;
mod queries;
mod refusals;
mod replies;
mod runs;
mod served;
mod text;
mod values;

pub use answer::answer_line;
pub use asked::{event_of, site_of};
pub use by_itself::answer_text;
pub use console::serve;
pub use names::{object_name, patch_name};
pub use outcome::LineOutcome;
pub use refusals::{all_refusals, refusal_line};
pub use served::{ServeFault, Served};
