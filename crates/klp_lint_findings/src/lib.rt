//! What can be said about the patches of a catalog, as values.
//!
//! A [`Finding`] (`src/finding.rt`) has numbers and places, and no words. `findings.rt` has the list of findings,
//! `about.rt` says which line and which patches a finding is about, and `deciding.rt` which findings make the status 3.
//!
//! `marks.rt` reads the marks by which a catalog says how well it is known, and `known.rt` what they mean for a patch's
//! callbacks. `laws.rt` has a law about lists of findings.
#![tactic(auto)]

mod about;
mod deciding;
mod finding;
mod findings;
mod known;
pub mod laws;
mod linted;
mod lists;
mod marks;
mod scripts;

pub use about::{About, callbacks_of};
pub use finding::{
    CountFinding, ErrorText, Finding, FindingKind, IdleReason, Judged, JudgedWorlds, LoadFinding,
    Orders, PartFinding, RefusedLine, ReplaceFinding, StateConflict, Tally, Together, TraceFinding,
    WhyNotLoaded, WhyStays,
};
pub use findings::{Findings, PARTS, Part, Said, World};
pub use known::{KINDS, MarkedCallback, callback_mark, first_marked, is_understood};
pub use linted::{LintInput, Linted, NamedText, names_state, patch_id};
pub use lists::{FunctionSet, PatchList};
pub use marks::{
    MARK_PREFIX, Mark, MarkFault, MarkFaultKind, MarkWord, NoMarks, is_assumed, is_data,
    left_out_by, mark_at, read_marks,
};
pub use scripts::{count_added, count_all_added, edits_for};
