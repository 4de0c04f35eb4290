//! Follows a log of `klpcap` while it grows, sample by sample.
//!
//! A sample names only what changed, so no sample says anything without those before it. [`Window`] keeps what the
//! latest sample has come to, and makes a log of two samples of it: that one, and the next. Such a log is as true as the
//! whole, and costs the same however long the whole is. Whoever has the answer to it ([`klp_capture_report::Report`])
//! learns from [`Follower`] what has changed since the answer before. [`Feed`] does all of this for bytes as they come.
//!
//! The answer to two samples says nothing of the samples before them. The verdict on the whole log may be another one.
#![tactic(auto)]

mod change;
mod feed;
mod follower;
mod status;
mod window;

pub use change::Change;
pub use feed::{Feed, FollowFault};
pub use follower::{Follower, Held};
pub use status::Status;
pub use window::{Taken, Window};
