//! The numbers and names of the live patching manager, and the rows of its state.
//!
//! `specs/` has the definitions that every crate of this repository is proved against: the image, the patches, the
//! scripts of callbacks and the world that they change, the entries that patches put on a site, the version of the
//! newest entry, and the bytes of the text. Begin with `specs/Setting`, then read `World`, `Script`, `Entries` and
//! `Bytes`. The state of the whole machine and its events are defined in `klp_model`, a crate above. So the crates of
//! the image, the world and the catalog don't depend on the machine's state and events (docs/DECISIONS.md, "Definitions
//! without a state").
//!
//! `laws` has what is proved of the definitions themselves:
//! - of entries: when patches put an entry on a site, and to which patch an entry belongs;
//! - of the text: which bytes a function has, depending on which sites are hooked, and that sites are counted object by
//!   object;
//! - of scripts: that an edit changes each shadow variable independently, which variables, system states and patches a
//!   script doesn't change, how few variables a script adds, and which scripts may run in either order;
//! - the value of each limit.
//!
//! `examples` computes the definitions for a small kernel: nops, the version of the newest entry, where versions begin
//! and how far a call reaches; which callbacks run, what callbacks do to states and variables, and which status
//! refuses; the previous state, and which patches are compatible. A function's body and its clause use the same
//! definition. So only these examples show independently what the definition means.
//!
//! There is little code. [`Frames`] has at most 32 versions; `push` appends one version, or changes nothing if the list
//! is full. [`ShadowValue`] has 0 to 64 bytes. [`Script`] is defined in this crate, below the crate of the world that
//! scripts change. So the catalog's text can have scripts without that crate.
#![tactic(auto)]

mod callback;
mod edit;
pub mod examples;
pub mod laws;
mod limits;
mod number;
mod record;
mod row;
mod script;
mod shadow;
mod task;
mod text;
mod version;

pub use callback::Which;
pub use edit::Edit;
pub use limits::{
    ANSWER_ROOM, CALLBACK_KINDS, ENTRY_SITE_LEN, MAX_ADDRESS_DIGITS, MAX_BODY,
    MAX_CALLBACK_RECORDS, MAX_COMING_EDITS, MAX_CONSOLE_LINE, MAX_EDITS, MAX_ENABLING_RECORDS,
    MAX_FRAMES, MAX_FUNCTIONS, MAX_GOING_EDITS, MAX_GROUPS, MAX_INDEX, MAX_JOURNAL_RECORDS,
    MAX_KIND_RECORDS, MAX_LINE, MAX_LIST_RECORDS, MAX_MARK, MAX_NAME, MAX_OBJECTS, MAX_PATCHES,
    MAX_READS, MAX_RECORD_WORDS, MAX_RECORDS, MAX_SITES, MAX_STATES, MAX_SYMBOL_NAME, MAX_TARGETS,
    MAX_TASK_NUMBER, MAX_TASKS, MAX_VALUE_BYTES, MAX_VARIABLES, READ_ROOM, RECORDS_AFTER_CALLBACKS,
    RECORDS_AFTER_LIST, RECORDS_AFTER_SITES, RECORDS_BEFORE_SITES,
};
pub use number::{ObjId, PatchId, Site};
pub use record::{Place, Record};
pub use row::{SiteRow, SiteWord};
pub use script::Script;
pub use shadow::{ShadowKey, ShadowValue};
pub use task::{Frames, Mode, PatchState, Task, TaskId};
pub use text::{ObjectText, SymbolText};
pub use version::{Entry, Target, Transition, Version, is_in_transition};
