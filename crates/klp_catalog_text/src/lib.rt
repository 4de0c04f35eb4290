//! The text of a catalog, in which an administrator writes down symbols, patches and what their callbacks do.
//!
//! A text is cut into lines (`src/lines.rt`), and a line into words (`klp_words`). [`CatalogLine::read`] returns what
//! the words of a line mean by themselves (`specs/Lines`, `Words`, `Edits`). If the line has faults, it returns the
//! first fault in a fixed order. If memory runs out, it returns `NoMemory` (`specs/Gives`). A script has at most 16
//! edits. Then each line is added to the [`Plan`] (`src/draft.rt`, `specs/Draft`). [`read`] returns the plan of a whole
//! text, or the first faulty line and its fault. If memory runs out before any faulty line, it returns `NoMemory` with
//! the line at which memory ran out. `specs/Text` defines what a whole text means, and `specs/Plan` what a plan has.
//! Each item of a plan also has the number of its line, which contracts don't see.
//!
//! [`Plan::handler`], `take_objects`, `into_patches` and `script` return the items of the text, in its order. The
//! patches of a plan don't exceed the limits (`specs/Limits`). No patch has an object twice, a state id twice, or two
//! callbacks of one kind for one object. A plan's targets are objects of the plan. `laws` says that every script can be
//! written as words, and that reading these words returns the script. `examples` shows what texts and lines mean, and
//! each fault.
#![tactic(auto)]

mod draft;
mod edit;
pub mod examples;
mod fault;
mod items;
pub mod laws;
mod line;
mod lines;
mod plan;
mod text;
mod words;

pub use edit::ScriptText;
pub use fault::{TextFault, TextFaultKind};
pub use items::{Name, NameWord, PlanFunction, SystemState};
pub use line::CatalogLine;
pub use lines::{Lines, words_of};
pub use plan::{Plan, PlanCallback, PlanFunctions, PlanPatch, PlanStates, PlanTarget};
pub use text::read;
