//! The tasks that do nothing. They share one line of the drawing.

use crate::bars::Bars;
use klp_markup::Sheet;
use klp_markup::Value::{Markup, Number};
use klp_types::{MAX_PATCHES, MAX_TASKS};

/// Whether a task existed, and was in user space after each line.
fn is_idle(bars: &Bars, task: usize) -> bool {
    bars.is_idle(MAX_PATCHES.saturating_add(task))
}

/// Returns how many successive tasks are idle, of which this task is the first. Returns 0 if this task isn't idle.
fn idle_from(bars: &Bars, task: usize) -> usize {
    let mut count = 0usize;
    for other in task..MAX_TASKS {
        if !is_idle(bars, other) {
            return count;
        }
        count = count.saturating_add(1);
    }
    count
}

/// Adds the numbers of the idle tasks, with ranges: `1, 3 to 5`.
fn add_numbers(sheet: &mut Sheet, bars: &Bars) {
    let mut join = "";
    for task in 0..MAX_TASKS {
        let is_first = task == 0 || !is_idle(bars, task - 1);
        // Another task than the first of a range is written with the first.
        if !is_idle(bars, task) || !is_first {
            continue;
        }
        sheet.fill("{}{}", &[Markup(join), Number(task as u64)]);
        let last = task.saturating_add(idle_from(bars, task)).saturating_sub(1);
        if last > task {
            sheet.fill(" to {}", &[Number(last as u64)]);
        }
        join = ", ";
    }
}

/// Adds a table row that says how many tasks are idle, and which. Adds nothing if no task is idle.
pub(crate) fn add_idle(sheet: &mut Sheet, bars: &Bars) {
    let mut count = 0u64;
    for task in 0..MAX_TASKS {
        if is_idle(bars, task) {
            count = count.saturating_add(1);
        }
    }
    if count == 0 {
        return;
    }
    sheet.markup("<tr><td colspan=2><p class=idle><b>");
    if count == 1 {
        sheet.markup(
            "1 task does nothing</b>, and isn't drawn: it stays in user space. It is task ",
        );
    } else {
        sheet.fill(
            "{} tasks do nothing</b>, and aren't drawn: they stay in user space. They are tasks ",
            &[Number(count)],
        );
    }
    add_numbers(sheet, bars);
    sheet.markup(".</p></td></tr>\n");
}
