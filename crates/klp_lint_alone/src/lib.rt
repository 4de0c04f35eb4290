//! What is found about each patch of a catalog alone.
//!
//! [`judge_alone`] adds it to a list of findings (`klp_lint_findings`). `tracing.rt` asks `klp_lint` whether a patch leaves
//! a trace, `idle.rt` finds parts that do nothing, and `limits.rt` parts near a limit.
#![tactic(auto)]

mod idle;
mod limits;
mod tracing;

pub use tracing::judge_alone;
