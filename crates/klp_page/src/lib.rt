//! A page that shows the run of a script: which task holds a transition up, in which function, and what is live
//! meanwhile.
//!
//! [`page_over`] boots a manager with a catalog's text for a [`PageSource`], and returns the page that the source makes
//! with it (`specs/Over`). [`page_over_text`] serves a script line by line, and returns a page with a row for each line,
//! in order (`specs/Pages`, `Rows`). After each line it notes a moment: the effect of the line,
//! and what the manager then shows. Above the rows, the page says how the run ends, and has sentences about the moments
//! (`klp_timeline`, `klp_story`). A row has the line and the console's answer. If the stays changed with the line, the
//! row also has the tasks that hold the transition up. The page folds away only lines about which it has nothing to
//! say. All text from the catalog, the script or the names is escaped (`specs/Text`).
//!
//! An observer may know the names of tasks and the times of lines ([`klp_names::Names`]). The page shows known names
//! and times beside the numbers of tasks and lines. If no names and times are known, the page has only the numbers.
//!
//! A view shows the transition, the installed patches, and the stay of each task (`specs/Views`). A task has a stay if it
//! blocks the transition, or if it sleeps inside of an outdated version. A version is outdated if the task wouldn't run
//! it if it called the function now. [`view_of`] reads a manager, and [`act_of`] the outcome of a line. The laws of
//! `klp_timeline` need a quiet view at the beginning of a run. A manager that was just booted shows a quiet view
//! (`laws`).
//!
//! The drawing, and the contents of an open row, are layout. `klp_drawing` and `klp_cards` make them.
#![tactic(auto)]

mod act;
mod differences;
mod head;
mod laws;
mod layout;
mod over;
mod page;
mod record;
mod row;
mod source;
mod style;
mod unshown;
mod view;

pub use act::act_of;
pub use head::Differing;
pub use laws::{a_booted_manager_is_quiet, a_page_is_true_to_its_run, a_view_has_each_stay};
pub use layout::{Cards, Layout};
pub use over::{page_over, write_over};
pub use page::{page_of, page_over_text, write_page};
pub use record::{Recorded, last_view, record_line};
pub use row::Row;
pub use source::PageSource;
pub use unshown::Unshown;
pub use view::view_of;
