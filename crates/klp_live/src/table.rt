//! The dispatch table, which has what a call of a hooked function needs. `entering` reads it without a lock, `target`
//! looks up what a call runs, and `board` publishes it.
use klp_types::{MAX_SITES, MAX_TASKS, Site, SiteRow, TaskId};

/// For each site of a loaded object the site's two newest entries, and for each task its patch state.
#[derive(Clone, Copy)]
pub struct Table {
    pub rows: [Option<SiteRow>; MAX_SITES],
    pub states: [Option<i8>; MAX_TASKS],
}

/// A site, and the present row of the site.
pub type NewRow = (Site, Option<SiteRow>);

/// The changes of an event of a patch or a module: the rows of the patch's or the module's sites, and the patch states
/// of all tasks.
#[derive(Drop)]
pub struct Moved {
    pub rows: Vec<NewRow>,
    pub states: [Option<i8>; MAX_TASKS],
}

/// The changes that an event makes in a table. The size of a change grows with the number of the event's own sites. For
/// a cumulative patch, the whole table is published, since the patch may replace functions at any site.
#[derive(Drop)]
pub enum Change {
    /// No change.
    Same,
    /// One task now has this patch state. `None` if the task has ended.
    Task(TaskId, Option<i8>),
    /// Some rows, and the patch states of all tasks. Changes are passed from function to function, and most changes are
    /// of one task. So these large changes are boxed.
    Moved(Box<Moved>),
    /// The whole table.
    All(Box<Table>),
}
