//! The answers to the logs of many machines: a line for each, worst first, and numbers for Prometheus.
//!
//! Nothing is judged here: each answer is that of a [`klp_capture_report::Report`]. A number is given only where the
//! report has it. So a machine whose log isn't explained has no number of holders, and its verdict says so.
#![tactic(auto)]

mod label;
mod machine;
mod metrics;
mod overview;

pub use machine::Machine;
pub use metrics::print_metrics;
pub use overview::print_overview;
