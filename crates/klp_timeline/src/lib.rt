//! The sentences that a page has about a run: what each line did, and which sleepers blocked the transition or slept
//! inside of replaced code. For each sleeper the page says from which line to which line it slept so.
//!
//! A run is a list of moments, one for each line ([`Moment`]). A moment says what the line did, and what the manager
//! shows after the line. The page has a list of sentences on the run, in the order of the lines where the sentences
//! begin ([`sentences`], `specs/Sentences`). No stay of a task is missing, no stay is invented, and each fact is true
//! (`laws`, `specs/Telling`). If there are too many sentences, the oldest are left out. No sentence that lasts until
//! the end of the run is left out (`shown`, `specs/Shown`).
#![tactic(auto)]

mod course;
mod facts;
mod lags;
mod laws;
mod moment;
mod shown;
mod stays;
mod still;
mod task_list;
mod telling;

pub use course::{Course, Since, latest_course};
pub use facts::outdated;
pub use lags::{Laggards, lagging};
pub use laws::{
    no_fact_is_left_out, no_sentence_is_made_up, no_sleeper_is_left_out, what_lasts_is_shown,
    what_moves_has_moved_since, who_lags_is_named,
};
pub use moment::{Fact, Moment, Said, Sentence, Sleepers, Stay, View};
pub use shown::{MAX_SENTENCES, excess, is_lasting, is_left_out, left_out};
pub use still::{are_same, is_still};
pub use task_list::TaskList;
pub use telling::sentences;
