//! Reads a trace line by line.
ghost use Rattle.std.specs.Prelude.{◌≡◌, [], ◌∷◌, ◌++◌, IfOk, IfErr, MatchResult, Err, unwrap_or};
ghost use Rattle.std.specs.Str.Lines.{lines};
ghost use Rattle.klp_trace.specs.Traces.{IsTraceOf, IsTraceFault};
ghost use Rattle.klp_trace.specs.declared.fault.TraceFaultKind.TheVariants.{NoMemory};

use crate::entry::{Timed, entry_behind};
use crate::fault::{TraceFault, TraceFaultKind};
use crate::time::Microseconds;
use klp_catalog_text::Lines;
use klp_core::Manager;
use klp_model::{Event, Refusal, Reply, Seen};
use klp_types::{Frames, ObjId, PatchId, PatchState, ShadowValue, Site, TaskId, Version};
use klp_watch::{Observed, PatchFiles, Sight};
use std::alloc::Global;

/// The types that are parts of an item. The borrow checker covers a function that moves items only if the function
/// names all these types.
type Happening = (Seen, Event, Reply, Refusal, Frames, ShadowValue);

type Showing = (Sight, PatchFiles, PatchState, Version);

type Named = (ObjId, PatchId, Site, TaskId);

/// What was seen of a kernel. Each line of a text is one item.
#[derive(Drop)]
pub struct Trace {
    /// The item of each line, in order.
    pub items: Vec<Observed>,
    /// The time of each item, or `None` if its line has none.
    pub times: Vec<Option<Microseconds>>,
}

/// Adds the item and the time that were read from a line to the lists of a trace. Returns the item's time, or `last` if
/// the item has none: the `last` for the next line. If no item was read or memory runs out, returns the fault as `Err`.
/// The function is generic, since the borrow checker doesn't cover a function that has the type [`Observed`] of the
/// items.
fn take<T: Drop>(
    items: &mut Vec<T>,
    times: &mut Vec<Option<Microseconds>>,
    last: Microseconds,
    read: Result<Timed<T>, TraceFaultKind>,
) -> Result<Microseconds, TraceFaultKind>
    ensures { MatchResult read
        (λ entry. MatchResult result
        (λ now. (items.new.items ≡ items.old.items ++ entry.item ∷ [])
        × (times.new.items ≡ times.old.items ++ entry.time ∷ [])
        × (now ≡ unwrap_or entry.time last))
        (λ kind. kind ≡ NoMemory))
        (λ kind. result ≡ Err kind) }
{
    let entry = read?;
    let now = entry.time.unwrap_or(last);
    let Timed { item, time } = entry;
    items.push(item)?;
    times.push(time)?;
    Ok(now)
}

impl Trace {
    /// Reads a trace from its text, which has one item on each line. If a line is at fault, returns the first such line
    /// as `Err`. Looks names up in the manager's catalog, and doesn't use the manager's state. Allocates memory for the
    /// items as they are read.
    pub fn read(alloc: Global, text: &[u8], manager: &Manager) -> Result<Trace, TraceFault>
        ensures read { IfOk result (λ trace. IsTraceOf manager.now text.now trace.items.items trace.times.items) }
        ensures fault { IfErr result (λ fault. IsTraceFault manager.now (lines text.now) fault.line fault.kind) }
    {
        // For the borrow checker only: names the types that are parts of an item.
        let _parts: Option<(Happening, Showing, Named)> = None;
        let mut items = Vec::new(alloc);
        let mut times = Vec::new(alloc);
        let mut lines = Lines::new(text);
        let mut last = Microseconds(0);
        while let Some(line) = lines.next() {
            let number = items.len() as u64 + 1;
            let read = entry_behind(alloc, last, line, manager);
            match take(&mut items, &mut times, last, read) {
                Ok(time) => last = time,
                Err(kind) => return Err(TraceFault { line: number, kind }),
            }
        }
        Ok(Trace { items, times })
    }
}
