//! The meaning of one line of a trace.
ghost use Rattle.std.specs.Prelude.{◌≡◌, ◌≤◌, Some, IfOk, IfErr, option_map, unwrap_or};
ghost use Rattle.klp_trace.specs.Traces.{entry_at, entry_of, IsLineFault};

use crate::fault::TraceFaultKind;
use crate::item::item_of;
use crate::line::time_and_rest;
use crate::time::Microseconds;
use klp_core::Manager;
use klp_watch::Observed;
use klp_words::microseconds;
use std::alloc::{AllocError, Global};

/// An item of a trace, with the time of its line. The time is `None` if the line has none.
#[derive(Clone, Copy)]
pub struct Timed<T> {
    pub item: T,
    pub time: Option<Microseconds>,
}

/// The meaning of a line of a trace: an item, and its time if the line has one.
pub type Entry = Timed<Observed>;

/// Puts the time of a line beside the line's item. Returns `None` if there is no item. The function is generic, since
/// the borrow checker doesn't cover a function that has the type [`Observed`] of the items.
fn with_time<T: Drop>(item: Option<T>, time: Option<Microseconds>) -> Option<Timed<T>>
    ensures { result ≡ option_map (λ own. record { item = own; time = time }) item }
{
    match item {
        Some(item) => Some(Timed { item, time }),
        None => None,
    }
}

/// Reads an item from a line without its time, and puts `time`, the line's time, beside it. Returns `None` if the text
/// is no item, and `Err` if memory runs out.
fn entry_at(
    alloc: Global,
    text: &[u8],
    time: Option<Microseconds>,
    manager: &Manager,
) -> Result<Option<Entry>, AllocError>
    ensures { IfOk result (λ entry. entry ≡ entry_at manager.now text.now time) }
{
    let item = item_of(alloc, text, manager)?;
    Ok(with_time(item, time))
}

/// Reads a line: an item, and the line's time if it has one. Returns `None` if the line has no item or its time is
/// misspelled, and `Err` if memory runs out.
fn entry_of(alloc: Global, line: &[u8], manager: &Manager) -> Result<Option<Entry>, AllocError>
    ensures { IfOk result (λ entry. entry ≡ entry_of manager.now line.now) }
{
    let Some((time, text)) = time_and_rest(line) else {
        return entry_at(alloc, line, None, manager);
    };
    match microseconds(time) {
        Some(time) => entry_at(alloc, text, Some(Microseconds(time)), manager),
        None => Ok(None),
    }
}

/// Reads one line of a trace. `last` is the time of the nearest earlier line that has a time, or 0 if there is none.
/// Returns the kind of the fault as `Err` if the line has no item, if its time is misspelled or before `last`, or if
/// memory runs out.
pub(crate) fn entry_behind(
    alloc: Global,
    last: Microseconds,
    line: &[u8],
    manager: &Manager,
) -> Result<Entry, TraceFaultKind>
    ensures entry { IfOk result (λ entry. (entry_of manager.now line.now ≡ Some entry)
        × (last ≤ unwrap_or entry.time last)) }
    ensures fault { IfErr result (λ kind. IsLineFault manager.now last line.now kind) }
{
    let Some(entry) = entry_of(alloc, line, manager)? else {
        return Err(TraceFaultKind::BadItem);
    };
    // A line without a time is never out of order.
    if entry.time.unwrap_or(last).is_before(last) {
        return Err(TraceFaultKind::OutOfOrder);
    }
    Ok(entry)
}
