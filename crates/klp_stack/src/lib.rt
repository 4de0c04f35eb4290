//! The function stacks of all sites: which entries the installed patches have at each site, newest first, and which
//! version a task runs there (livepatch, Livepatch life-cycle).
//!
//! The model is a list of entries for each site, newest first (`specs/Stack`). `push` puts an entry on top, `take`
//! takes out the entry of a patch, and `put` puts an entry back at its old place. Each of these calls looks the site up
//! once. The result says whether the site got its first entry or lost its last one. `push` and `take` each have an undo
//! record. Putting the undo record back restores the stacks (`specs/Changes`, `specs/Undo`). `word` returns the two
//! newest entries, and `blocked` returns the version that blocks a sleeper. A site that doesn't exist has no entries.
//!
//! One pool has the entries of all sites (`specs/Pool`), at most [`MAX_ENTRIES`] together. From outside, only the
//! number of free slots can be seen (`specs/Spare`).
//!
//! [`pick`] returns the version that the definition picks (`specs/Pick`). It needs only the word of a site. `laws` says
//! that the word is enough. `src/chain.rt` reads the stack of one site.
#![tactic(auto)]

mod chain;
pub mod laws;
mod picks;
mod pool;
mod slot;
mod stacks;

pub use picks::{pick, version_of};
pub use slot::MAX_ENTRIES;
pub use stacks::{Stacks, Taken};
