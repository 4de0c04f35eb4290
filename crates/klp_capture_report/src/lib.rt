//! The answers about a log as data ([`Report`]): in words by [`print_report`], and for programs by [`print_json`].
//!
//! The data says which patch is in transition and since when, which tasks hold the transition up, and which tasks a force
//! would leave asleep. Names are shown unchanged, except for bytes that would control a terminal. If a log was recorded
//! before a patch is loaded, the report says which tasks are inside of the functions that the patch would change.
#![tactic(auto)]

mod lists;
mod moment;
mod report;
mod transition_words;
mod words;

pub use moment::{Moment, Times};
pub use report::{
    Becomes, BrokenReport, EndReport, GroupReport, HolderReport, HowEnded, InsideReport,
    KernelHolderReport, KernelLogReport, LaggingReport, LeftReport, NotExplainedReport, NotSeen,
    Report, SCHEMA, SampleCounts, TaskCounts, TaskReport, TornReport, TransitionReport,
    UnplacedReport, VerdictReport, WhyLags, print_json,
};
pub use words::{BrokenWords, print_report};
