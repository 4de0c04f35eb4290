//! Judges the patches of a catalog in the worlds that matter.
//!
//! [`LintPlan`] is what is read of a catalog. [`find_all`] boots a manager with the catalog, and judges the patches in one
//! world or two: in the state after a script, or else with no module loaded, and with all modules loaded. What is found
//! is a list of findings (`klp_lint_findings`). If the list makes the status 0, each patch is ready in these worlds
//! (`specs/Whole`).
//!
//! `script.rt` does the lines of a script, and `judging.rt` judges in each world.
#![tactic(auto)]

mod judging;
mod lint_plan;
mod script;

pub use judging::find_all;
pub use lint_plan::{LintFault, LintPlan};
