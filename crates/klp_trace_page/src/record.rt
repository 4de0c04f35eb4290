//! Plays a trace line by line, and makes a row for each line.
ghost use Rattle.std.specs.Prelude.{◌≡◌, ◌&&◌, not, length, bytes_eq, Some, IfOk};
ghost use Rattle.std.specs.Str.Lines.{lines};
ghost use Rattle.klp_core.specs.Journaled.{IsWellFormed};
ghost use Rattle.klp_watch.specs.declared.observed.Observed.TheVariants.{Seen as Item};
ghost use Rattle.klp_page.specs.Rows.{last_view};
ghost use Rattle.klp_trace_page.specs.Traced.{IsTakenRow, IsPlayedEvent, IsStillRow, IsTracedRow};
ghost use Rattle.klp_trace_page.specs.Traced.{AddsTracedRow, AreTraced};
ghost use Rattle.klp_trace_page.specs.Rules.{rules_text, sight_text};

use crate::line::item_text;
use crate::rules::{rules_text, sight_text};
use klp_catalog_text::Lines;
use klp_console::{LineOutcome, answer_text};
use klp_core::Manager;
use klp_markup::Sheet;
use klp_model::{Refusal, Reply, Seen};
use klp_page::{Layout, Recorded, Row, last_view, record_line, view_of};
use klp_timeline::{Moment, View};
use klp_watch::{Observed, Sight};
use std::alloc::{AllocError, Global};

/// Adds the kernel's answer, `seen`, to a row that has the answer of the rules. If the two differ, marks the row, so
/// that it isn't folded away.
fn compare(row: &mut Row, seen: Vec<u8>)
    ensures row { row.new ≡ record row.old {
      is_quiet = row.old.is_quiet && not row.new.differs;
      seen = row.new.seen;
      differs = row.new.differs;
    } }
    ensures seen { row.new.seen.items ≡ seen.items }
    ensures differs { row.new.differs ≡ not (bytes_eq row.old.answer.items seen.items) }
{
    row.differs = row.answer.as_slice() != seen.as_slice();
    row.is_quiet = row.is_quiet && !row.differs;
    row.seen = seen;
}

/// Does the event that the console line `text` asks for, by the rules, and returns the line's row and moment. A trace
/// takes no event back, so the journal is sealed if it is full. `before` is the view before the line. `Err` if memory
/// runs out.
fn event_row(
    alloc: Global,
    manager: &mut Manager,
    text: &[u8],
    before: &View,
    layout: &mut Layout<'_>,
) -> Result<(Row, Moment), AllocError>
    requires { IsWellFormed manager.old }
    ensures { IfOk result (λ made. IsTakenRow manager.old manager.new before.now text.now made.0 made.1) }
{
    manager.make_room();
    record_line(alloc, manager, text, before, layout)
}

/// Does an event as [`event_row`] does, and adds the kernel's answer to the row, beside the answer of the rules. `Err`
/// if memory runs out.
fn answered_row(
    alloc: Global,
    manager: &mut Manager,
    text: &[u8],
    answer: &Result<Reply, Refusal>,
    before: &View,
    layout: &mut Layout<'_>,
) -> Result<(Row, Moment), AllocError>
    requires { IsWellFormed manager.old }
    ensures { IfOk result (λ made. IsPlayedEvent manager.old manager.new before.now text.now (Some answer.now)
        made.0 made.1) }
{
    let (mut row, moment) = event_row(alloc, manager, text, before, layout)?;
    let seen = answer_text(alloc, manager, answer)?;
    compare(&mut row, seen);
    if row.differs {
        layout.differ();
    }
    Ok((row, moment))
}

/// Returns the row and the moment of an item that changes nothing. `rules` is what the rules say in place of the item,
/// and `seen` what the kernel showed. If the two differ, the row is marked. `Err` if memory runs out.
fn still_row(
    alloc: Global,
    manager: &Manager,
    text: &[u8],
    rules: &str,
    seen: &str,
    before: &View,
    layout: &mut Layout<'_>,
) -> Result<(Row, Moment), AllocError>
    ensures { IfOk result (λ made. IsStillRow manager.now manager.now text.now rules.now seen.now made.0 made.1) }
{
    let moment = Moment {
        act: None,
        view: view_of(manager),
    };
    layout.see(alloc, manager, &LineOutcome::Done, before, &moment)?;
    let differs = rules.as_bytes() != seen.as_bytes();
    if differs {
        layout.differ();
    }
    let row = Row {
        line: Vec::from_slice(alloc, text)?,
        answer: Vec::from_slice(alloc, rules.as_bytes())?,
        is_refused: false,
        is_quiet: !differs,
        holders: Vec::new(alloc),
        is_open: false,
        cards: Sheet::new(alloc),
        seen: Vec::from_slice(alloc, seen.as_bytes())?,
        differs,
    };
    Ok((row, moment))
}

/// Returns the row and the moment of a sight, which is what the kernel showed and changes nothing. `Err` if memory runs
/// out.
fn sight_row(
    alloc: Global,
    manager: &Manager,
    text: &[u8],
    sight: &Sight,
    before: &View,
    layout: &mut Layout<'_>,
) -> Result<(Row, Moment), AllocError>
    ensures { IfOk result (λ made. IsStillRow manager.now manager.now text.now (rules_text manager.now sight.now)
        (sight_text manager.now.managed.catalog sight.now) made.0 made.1) }
{
    let rules = rules_text(alloc, manager, sight)?;
    let seen = sight_text(alloc, manager, sight)?;
    still_row(
        alloc,
        manager,
        text,
        rules.as_str(),
        seen.as_str(),
        before,
        layout,
    )
}

/// Plays an item to which the trace has no answer: an event, a call or a return. Returns the item's row and moment.
/// `Err` if memory runs out.
fn seen_row(
    alloc: Global,
    manager: &mut Manager,
    text: &[u8],
    seen: &Seen,
    before: &View,
    layout: &mut Layout<'_>,
) -> Result<(Row, Moment), AllocError>
    requires { IsWellFormed manager.old }
    ensures { IfOk result (λ made. IsTracedRow manager.old manager.new before.now text.now (Item seen.now)
        made.0 made.1) }
{
    match seen {
        Seen::Event(_) => event_row(alloc, manager, text, before, layout),
        // A call or a return changes nothing that a page shows.
        _ => still_row(alloc, manager, text, "", "", before, layout),
    }
}

/// Plays one item of a trace. Returns the item's row and moment. `text` is the item's words, and `before` the view
/// before the item. `Err` if memory runs out.
fn item_row(
    alloc: Global,
    manager: &mut Manager,
    text: &[u8],
    item: &Observed,
    before: &View,
    layout: &mut Layout<'_>,
) -> Result<(Row, Moment), AllocError>
    ensures { IfOk result (λ made. IsTracedRow manager.old manager.new before.now text.now item.now made.0 made.1) }
{
    // For the proof only: the contract of mark says that the manager is well-formed.
    let _for_its_clause = manager.mark();
    match item {
        Observed::Seen(seen) => seen_row(alloc, manager, text, seen, before, layout),
        Observed::Answered(_, answer) => {
            answered_row(alloc, manager, text, answer, before, layout)
        }
        Observed::Saw(sight) => sight_row(alloc, manager, text, sight, before, layout),
    }
}

/// Plays one line of a trace, and adds its row and its moment to `recorded`. `item` is the line's item, and `opening`
/// the view before the trace. `Err` if memory runs out.
fn add_line(
    alloc: Global,
    manager: &mut Manager,
    line: &[u8],
    item: &Observed,
    opening: &View,
    recorded: &mut Recorded,
    layout: &mut Layout<'_>,
) -> Result<(), AllocError>
    ensures { IfOk result (λ _. AddsTracedRow manager.old manager.new (last_view opening.now recorded.old.run.items)
        line.now item.now recorded.old.rows.items recorded.new.rows.items recorded.old.run.items
        recorded.new.run.items) }
{
    let before = last_view(opening, &recorded.run);
    let (row, moment) = item_row(alloc, manager, item_text(line), item, before, layout)?;
    recorded.rows.push(row)?;
    recorded.run.push(moment)?;
    Ok(())
}

/// Plays a trace. `items` are the items of its lines, one for each line, and `opening` is the view before the trace.
/// Returns a row for each line, and each line's effect with the state after it. `Err` if memory runs out.
pub(crate) fn record_trace(
    alloc: Global,
    manager: &mut Manager,
    text: &[u8],
    items: &[Observed],
    opening: &View,
    layout: &mut Layout<'_>,
) -> Result<Recorded, AllocError>
    requires { length (lines text.now) ≡ length items.now }
    ensures { IfOk result (λ recorded. AreTraced manager.old manager.new opening.now (lines text.now) items.now
        recorded.rows.items recorded.run.items) }
{
    let mut recorded = Recorded {
        rows: Vec::new(alloc),
        run: Vec::new(alloc),
    };
    let mut lines = Lines::new(text);
    let mut rest = items;
    while let Some(line) = lines.next() {
        // There are as many items as lines, so this doesn't happen.
        let [item, others @ ..] = rest else {
            return Ok(recorded);
        };
        add_line(alloc, manager, line, item, opening, &mut recorded, layout)?;
        rest = others;
    }
    Ok(recorded)
}
