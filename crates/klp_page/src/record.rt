//! Serves a script line by line, and makes a row for each line.
ghost use Rattle.std.specs.Prelude.{◌≡◌, ◌≤◌, ◌+◌, [], ◌++◌, length, IfOk, IfErr, OnOk};
ghost use Rattle.klp_types.specs.declared.limits.TheConstants.{MAX_TASKS};
ghost use Rattle.klp_manager_state.specs.Managed.{setting_of};
ghost use Rattle.klp_page.specs.Views.{IsView, act_of};
ghost use Rattle.klp_console.specs.Lines.{lines_of};
ghost use Rattle.klp_page.specs.Rows.{IsAnsweredBy, IsScriptRow, AddsRow, AreRows, holders_from, holders_shown};
ghost use Rattle.klp_page.specs.Rows.{is_quiet};
ghost use Rattle.klp_page.specs.Rows.{last_view};
ghost use Rattle.klp_page.specs.Pages.{HasRows, IsScriptFault};

use crate::act::act_of;
use crate::layout::Layout;
use crate::row::Row;
use crate::unshown::Unshown;
use crate::view::view_of;
use klp_console::{LineOutcome, answer_line};
use klp_console_io::{LineBuffer, OverWrite, TooLong};
use klp_core::Manager;
use klp_timeline::{Moment, Stay, View, are_same, is_still};
use klp_types::{MAX_TASKS, TaskId};
use std::alloc::{AllocError, Global};
use std::marker::Brand;
use std::sync::ledger::{Blank, Ledger};

/// The answer to a line: its text, and the outcome.
#[derive(Drop)]
struct Answered {
    text: Vec<u8>,
    outcome: LineOutcome,
}

/// The rows of the lines that were served, with the effect of each line and the state after it.
#[derive(Drop)]
pub struct Recorded {
    pub rows: Vec<Row>,
    pub run: Vec<Moment>,
}

/// Returns the state after the last line of `run`. Returns `opening`, the state before the run, if `run` is empty.
pub fn last_view<'a>(opening: &'a View, run: &'a [Moment]) -> &'a View
    ensures { result.now ≡ last_view opening.now run.now }
{
    match run.last() {
        Some(moment) => &moment.view,
        None => opening,
    }
}

/// Serves one line, and returns the console's answer. `writes` is an unused ledger for the two counts that the writer
/// of the answer keeps. `Err` if memory runs out.
fn answer<M: Ledger>(
    alloc: Global,
    manager: &mut Manager,
    line: &[u8],
    writes: Blank,
) -> Result<Answered, AllocError>
    requires writes { (writes.name ≡ M.name) × (writes.parts ≡ M.parts) × (2 ≤ writes.parts) }
    ensures { IfOk result (λ answered. IsAnsweredBy manager.old manager.new line.now answered.text.items
        answered.outcome) }
{
    let mut sink = OverWrite::<Vec<u8>, M>::new(Vec::new(alloc), writes);
    match answer_line(manager, line, &mut sink) {
        Ok(outcome) => Ok(Answered {
            text: sink.into_inner(),
            outcome,
        }),
        Err(_) => Err(AllocError),
    }
}

/// Returns the effect of a line that was just served, and the state after it. `before` is the state before the line,
/// and `from` the number of events in the journal before it.
fn moment_of(manager: &Manager, before: &View, outcome: &LineOutcome, from: u32) -> Moment
    ensures seen { IsView (setting_of manager.now.managed) manager.now.managed.state result.view }
    ensures did { result.act ≡ act_of before.now.moving outcome.now from (length manager.now.groups) }
{
    Moment {
        act: act_of(&before.moving, outcome, from, manager.mark()),
        view: view_of(manager),
    }
}

/// Appends the tasks that hold the transition up, in the order of their numbers. `stays` has the stays of the tasks
/// from `number` on. `Err` if memory runs out.
fn add_holders(
    tasks: &mut Vec<TaskId>,
    number: usize,
    stays: &[Option<Stay>],
) -> Result<(), AllocError>
    requires { number + length stays.now ≤ MAX_TASKS }
    ensures { OnOk result (tasks.new.items ≡ tasks.old.items ++ holders_from number stays.now) }
{
    let [stay, rest @ ..] = stays else {
        return Ok(());
    };
    if matches!(stay, Some(Stay::Holds(_, _))) {
        tasks.push(TaskId(number as u8))?;
    }
    add_holders(tasks, number + 1, rest)
}

/// Returns the tasks that a row shows as holding the transition up. `before` and `after` are the views before and after
/// its line. If they have the same stays, returns none, so that a page names a holder only where the stays change.
/// `Err` if memory runs out.
fn holders_shown(alloc: Global, before: &View, after: &View) -> Result<Vec<TaskId>, AllocError>
    ensures { IfOk result (λ tasks. tasks.items ≡ holders_shown before.now after.now) }
{
    let mut tasks = Vec::new(alloc);
    if !are_same(&before.stays, &after.stays) {
        add_holders(&mut tasks, 0, &after.stays)?;
    }
    Ok(tasks)
}

/// Serves one line, and adds it to the layout. Returns the line's row, and its effect with the state after it. `before`
/// is the state before the line. `Err` if memory runs out.
pub fn record_line(
    alloc: Global,
    manager: &mut Manager,
    line: &[u8],
    before: &View,
    layout: &mut Layout<'_>,
) -> Result<(Row, Moment), AllocError>
    ensures { IfOk result (λ made. IsScriptRow manager.old manager.new before.now line.now made.0 made.1) }
{
    let from = manager.mark();
    let writes = Blank::new(2);
    let Answered { text, outcome } = answer::<Brand>(alloc, manager, line, writes)?;
    let moment = moment_of(manager, before, &outcome, from);
    let cards = layout.see(alloc, manager, &outcome, before, &moment)?;
    let row = Row {
        line: Vec::from_slice(alloc, line)?,
        answer: text,
        is_refused: outcome.is_refusal(),
        is_quiet: !outcome.is_refusal() && is_still(before, &moment),
        holders: holders_shown(alloc, before, &moment.view)?,
        is_open: cards.is_open,
        cards: cards.sheet,
        seen: Vec::new(alloc),
        differs: false,
    };
    Ok((row, moment))
}

/// Serves one line, and adds its row and its moment to `recorded`. `opening` is the state before the run. `Err` if
/// memory runs out.
fn add_line(
    alloc: Global,
    manager: &mut Manager,
    line: &[u8],
    opening: &View,
    recorded: &mut Recorded,
    layout: &mut Layout<'_>,
) -> Result<(), AllocError>
    ensures { IfOk result (λ _. AddsRow manager.old manager.new opening.now line.now recorded.old.rows.items
        recorded.new.rows.items recorded.old.run.items recorded.new.run.items) }
{
    let before = last_view(opening, &recorded.run);
    let (row, moment) = record_line(alloc, manager, line, before, layout)?;
    recorded.rows.push(row)?;
    recorded.run.push(moment)?;
    Ok(())
}

/// Serves each line of the script that ends with a line feed, and adds its row and its moment to `recorded`. Afterwards
/// `line` has what follows the script's last line feed. `Err` if a line is too long, or if memory runs out.
fn record_lines(
    alloc: Global,
    manager: &mut Manager,
    script: &[u8],
    line: &mut LineBuffer,
    opening: &View,
    recorded: &mut Recorded,
    layout: &mut Layout<'_>,
) -> Result<(), Unshown>
    requires line { line.old ≡ [] }
    requires rows { recorded.old.rows.items ≡ [] }
    requires run { recorded.old.run.items ≡ [] }
    ensures done { IfOk result (λ _. HasRows manager.old manager.new opening.now script.now line.new
        recorded.new.rows.items recorded.new.run.items) }
    ensures fault { IfErr result (λ why. IsScriptFault script.now why) }
{
    let mut rest = script;
    while !rest.is_empty() {
        match line.hear(rest) {
            Err(TooLong) => return Err(Unshown::LongLine),
            // `rest` has no line feed, and is in `line` now.
            Ok(None) => return Ok(()),
            Ok(Some(after)) => {
                add_line(alloc, manager, line.bytes(), opening, recorded, layout)?;
                line.clear();
                rest = after;
            }
        }
    }
    // For the proof only: the contract of bytes says that the line has no line feed.
    let _rest = line.bytes();
    Ok(())
}

/// Serves a script. Returns a row for each line of the script, and each line's effect with the state after it.
/// `opening` is the state before the script. `Err` if a line is too long, or if memory runs out.
pub(crate) fn record(
    alloc: Global,
    manager: &mut Manager,
    script: &[u8],
    opening: &View,
    layout: &mut Layout<'_>,
) -> Result<Recorded, Unshown>
    ensures rows { IfOk result (λ recorded. AreRows manager.old manager.new opening.now (lines_of script.now)
        recorded.rows.items recorded.run.items) }
    ensures fault { IfErr result (λ why. IsScriptFault script.now why) }
{
    let mut line = LineBuffer::new();
    let mut recorded = Recorded {
        rows: Vec::new(alloc),
        run: Vec::new(alloc),
    };
    record_lines(
        alloc,
        manager,
        script,
        &mut line,
        opening,
        &mut recorded,
        layout,
    )?;
    // What follows the script's last line feed is a line too, unless it is empty.
    let last = line.bytes();
    if last.is_empty() {
        return Ok(recorded);
    }
    add_line(alloc, manager, last, opening, &mut recorded, layout)?;
    Ok(recorded)
}
