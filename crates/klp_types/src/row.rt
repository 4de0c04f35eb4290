use crate::version::Entry;

/// What a call at a site needs to know: the site's two newest entries, and whether the newest entry's patch is in
/// transition. Two entries are enough, since a task can skip only the newest one (`klp_stack::laws`).
#[derive(Clone, Copy, PartialEq, Eq)]
pub struct SiteWord {
    pub top: Option<Entry>,
    /// The entry below the newest. If the newest entry's patch is in transition, a task with patch state 0 runs this
    /// older entry.
    pub below: Option<Entry>,
    pub moves: bool,
}

/// A site of a loaded object, with the addresses at which its versions begin. If an entry is missing or is a nop, its
/// address is the original's.
#[derive(Clone, Copy, PartialEq, Eq)]
pub struct SiteRow {
    pub word: SiteWord,
    /// The address after the entry site, at which the original continues after the handler.
    pub original: u64,
    pub top: u64,
    pub below: u64,
}
