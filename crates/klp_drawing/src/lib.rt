//! The drawing of a run: a bar for each patch, and for each task that does something, along the lines of the script.
//!
//! [`Bars`] looks at the patches and tasks after each line ([`Bars::see`]). [`add_drawing`] draws what was seen, and
//! the stays that sentences about the run report. If the times of lines are known, the drawing is to scale by time.
//! Otherwise all lines have the same width. Long stretches in which nothing changes are cut, and the cut is marked. All
//! text from the catalog is escaped, as everything on a `Sheet` is. Everything else is layout, and has no contract.
//!
//! The drawing is a table with a row for each lane. So a name may take several lines of text, and in print no lane is
//! split between pages. The bars of tasks that hold a transition up are hatched, with an outline in black and white, so
//! they can be seen in any colours. [`STYLE`] is the part of a page's style that the drawing needs. It uses the page's
//! own colours `--paper`, `--ink`, `--soft`, `--rule`, `--card` and `--focus`.
#![tactic(auto)]

mod axis;
mod bars;
mod drawing;
mod forces;
mod idle;
mod lane;
mod look;
mod pace;
mod pen;
mod scale;
mod stays;
mod strips;
mod style;
mod turn;
mod words;

pub use bars::Bars;
pub use drawing::add_drawing;
pub use style::STYLE;
