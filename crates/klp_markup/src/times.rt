//! Times of lines.
ghost use Rattle.std.specs.Prelude.{◌≡◌, ◌++◌, codes};
ghost use Rattle.klp_markup.specs.Adds.{Adds};
ghost use Rattle.klp_markup.specs.Times.{seconds_text, lasting_text, after_text, line_time, span_time};

use crate::sheet::Sheet;
use klp_names::Names;

/// Adds a time in microseconds, written as seconds with one decimal, rounded down: `15.1 s`.
#[tactic(auto, unfolding(crate::specs::Times::seconds_text))]
pub fn add_seconds(sheet: &mut Sheet, time: u64)
    ensures { Adds sheet.old sheet.new (seconds_text time) }
{
    // For the proof only: texts that are added one after the other add up.
    crate::laws::what_is_added_adds_up();
    sheet.number(time / 1_000_000);
    sheet.markup(".");
    // The tenths of a second.
    sheet.number(time / 100_000 % 10);
    sheet.markup(" s");
}

/// Adds for how many microseconds a condition lasted, in seconds: ` for 15.1 s`. Adds nothing if that isn't known
/// (`None`).
fn add_lasting(sheet: &mut Sheet, lasting: Option<u64>)
    ensures { Adds sheet.old sheet.new (lasting_text lasting) }
{
    // For the proof only: texts that are added one after the other add up.
    crate::laws::what_is_added_adds_up();
    if let Some(time) = lasting {
        sheet.markup(" for ");
        add_seconds(sheet, time);
    }
}

/// Adds in brackets when a condition began, and for how long it lasted: ` (+3.0 s for 15.1 s)`. Both are in
/// microseconds. `time` counts from the first known time. Adds nothing if `time` is `None`. Leaves the duration out if
/// `lasting` is `None`.
fn add_after(sheet: &mut Sheet, time: Option<u64>, lasting: Option<u64>)
    ensures { Adds sheet.old sheet.new (after_text time lasting) }
{
    // For the proof only: texts that are added one after the other add up.
    crate::laws::what_is_added_adds_up();
    if let Some(time) = time {
        sheet.markup(" (+");
        add_seconds(sheet, time);
        add_lasting(sheet, lasting);
        sheet.markup(")");
    }
}

/// Adds the time of a line since the first known time: ` (+3.0 s)`. Adds nothing if the line's time isn't known.
pub fn add_line_time(sheet: &mut Sheet, names: &Names, line: u64)
    ensures { Adds sheet.old sheet.new (line_time names.now line) }
{
    add_after(sheet, names.since_start(line), None);
}

/// Adds when a condition began, and for how long it lasted: ` (+0.0 s for 15.1 s)`. The condition began with `line`,
/// and held after each line from `line` to `to`, so it lasted until the time of the line after `to`. Adds nothing if
/// the time of `line` isn't known. Leaves the duration out if it isn't known, or if the condition still holds at the
/// end of the run (`to` is `None`).
pub fn add_span_time(sheet: &mut Sheet, names: &Names, line: u64, to: Option<u64>)
    ensures { Adds sheet.old sheet.new (span_time names.now line to) }
{
    add_after(sheet, names.since_start(line), names.lasted(line, to));
}
