//! Answers the questions about a log: which patch is in transition and since when, which tasks hold the transition up,
//! and which tasks a force would leave asleep. [`report_of`] gathers the answers as data
//! ([`klp_capture_report::Report`]).
#![tactic(auto)]

mod claims;
mod elsewhere;
mod gather;
mod groups;
mod inside;
mod lagging;
mod not_explained;
mod not_seen;
mod seen_tasks;
mod transitions;

pub use gather::report_of;
