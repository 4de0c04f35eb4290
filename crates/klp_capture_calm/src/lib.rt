//! When an answer may say that a log is explained, and that nobody lags.
//!
//! An answer that calms wrongly is worse than none. So [`verdict_on`] and [`is_calm`] decide these two things alone, from the
//! log, the run that shows it, and what else the answer has. Their contracts say what must be so.
#![tactic(auto)]

mod calm;
mod verdict;

pub use calm::is_calm;
pub use verdict::verdict_on;
