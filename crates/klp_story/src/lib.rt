//! What a page says of a run, in words. [`add_story`] adds the sentences of the run (`specs/Sentences`). On the page,
//! the end of the run stands before these sentences, and [`add_end`] adds it (`specs/End`). For each kind of fact and
//! of stay, the contracts state the words.
//!
//! `klp_timeline` decides what the sentences claim of a run. Its laws say that these claims are true, and that no stay
//! is left out.
#![tactic(auto)]

mod end;
pub mod examples;
mod facts;
mod lagging;
mod sleepers;
mod story;
mod transition;
mod words;

pub use end::add_end;
pub use story::add_story;
