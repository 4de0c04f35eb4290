//! The table and the history that running tasks see. Nothing in this file depends on a start.
use crate::law::{Accepted, Law};
use crate::table::{Change, Table};
use logbook::Seen;

/// The dispatch table after a history. There are two copies, which swap their roles. Readers use one copy while the
/// other is changed.
#[derive(Drop)]
pub struct Published {
    pub table: Table,
    /// How many rows the history has.
    pub rows: u64,
    /// The history. It exists in contracts alone.
    pub seen: Seen<Accepted, u64, Law>,
}

/// One more row of the history in the form in which it is published: the changes that it makes in the table, and the
/// history up to this row.
#[derive(Drop)]
pub struct News {
    pub change: Change,
    /// How many rows the history has, including this one.
    pub rows: u64,
    /// The history, including this row. It exists in contracts alone.
    pub seen: Seen<Accepted, u64, Law>,
}

/// The history that a reader knows: that of the table which the reader read last. It exists in proofs alone, and no
/// value of it is made.
pub struct Known {
    pub seen: Seen<Accepted, u64, Law>,
}

/// The knowledge of a reader or of the writer: one history, or none if nothing is known yet.
pub struct View {
    pub known: [Known; 0],
}
