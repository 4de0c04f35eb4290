//! Boots a manager with a catalog's text, and lends it to what uses it.
//!
//! [`over_text`] reads the text and boots; [`over_plan`] boots over a plan that was already read. Both promise that
//! the use was lent a manager of this text ([`ManagerUse`]), or that it was lent none and the text, the plan or the
//! memory is at fault. Both close the manager afterwards. What must own its manager, as threads do, makes the callbacks
//! itself and calls [`boot`].
#![tactic(auto)]

mod booted;
mod fault;
mod kind;
mod manager_use;
mod over;

pub use booted::{boot, close, opened};
pub use fault::Fault;
pub use manager_use::ManagerUse;
pub use over::{over_plan, over_text};
