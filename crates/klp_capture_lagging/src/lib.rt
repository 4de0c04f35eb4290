//! Which tasks lag by what a log says of them last.
//!
//! A run of the rules that shows a log says who lags at its end. It may have switched a task there that the log last shows
//! unswitched: a sample reads its tasks one after the other, and the kernel may switch some meanwhile. So nobody may be
//! said to be switched by the run alone. [`lagging_in`] says who isn't switched by the log alone, and [`nobody_lags`] when it
//! has nobody. [`slept_elsewhere`] says whether the kernel's own log names a task as a holder while the samples have it asleep
//! elsewhere. [`nobody_inside`] says when a log of `klpcap -f` has nobody inside of the functions for which it was told to look.
#![tactic(auto)]

mod elsewhere;
mod inside;
mod lags;

pub use elsewhere::slept_elsewhere;
pub use inside::nobody_inside;
pub use lags::{end_of, lagging_in, nobody_lags, who_lags_was_last_said_so};
