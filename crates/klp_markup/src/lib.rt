//! The sheet on which a page is written.
//!
//! Two kinds of text are added to a [`Sheet`]: markup, which is part of the program, and text from a run, which is
//! escaped. So no text from a catalog, a script or a trace can be mistaken for markup (`specs/Escaped`). A sheet stores
//! whether memory ran out. So a caller that adds ten pieces checks this once, at the end (`specs/Adds`).
//!
//! `names` spells the names of a catalog (`specs/Names`), and `times` spells times (`specs/Times`). `tasks` spells
//! lists of tasks (`specs/Tasks`), with the tasks' names (`specs/Called`).
#![tactic(auto)]

mod called;
mod characters;
pub mod laws;
mod names;
mod sheet;
mod tasks;
mod times;

pub use called::{MAX_SHOWN, add_plain_task};
pub use names::{add_symbol, add_version, function_name, is_of_kernel, object_name, patch_name};
pub use sheet::{Sheet, Value};
pub use tasks::{MAX_NAMED, add_each_task, add_task, add_tasks, plural};
pub use times::{add_line_time, add_seconds, add_span_time};
