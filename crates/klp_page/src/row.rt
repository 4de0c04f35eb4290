//! The rows of a page.
ghost use Rattle.std.specs.Prelude.{◌≡◌, ◌<◌, ◌+◌, ◌-◌, ◌^◌, ◌++◌, length};
ghost use Rattle.std.specs.Fmt.{decimal};
ghost use Rattle.klp_markup.specs.Adds.{Adds};
ghost use Rattle.klp_names.specs.Names.{since_start};
ghost use Rattle.klp_page.specs.Text.{mark_text, refused_text, open_text, time_text, shown_text, start_text, row_text};
ghost use Rattle.klp_page.specs.Text.{set_up_start, set_up_end, fold_start, fold_end, rows_from, rows_text, differing_text, kernel_answer, difference_text};
ghost use Rattle.klp_page.specs.Text.{kernel_text};

use crate::style::{
    ANSWER, ANSWER_END, CARD_NUMBER, CARD_ROW, CARDS, CARDS_END, DIFFERENCE, DIFFERING, FOLD,
    FOLD_END, FOLDED, HELD, HELD_END, ID, LINE, NUMBER, OPEN, PLAIN_END, PLAIN_ROW, QUIET_ROWS,
    REFUSED, SEEN, SEEN_END, SET_UP, SET_UP_END, SET_UP_FOLDED, TIME,
};
use klp_markup::{Sheet, add_each_task, add_seconds};
use klp_names::Names;
use klp_types::TaskId;

/// What a page shows of one line.
#[derive(Drop)]
pub struct Row {
    pub line: Vec<u8>,
    pub answer: Vec<u8>,
    pub is_refused: bool,
    /// Whether the page may fold the row away. It may if the line wasn't refused and there is nothing to say about the
    /// line.
    pub is_quiet: bool,
    /// The tasks that hold the transition up after the line. The list is also empty if no stay changed with this line.
    pub holders: Vec<TaskId>,
    /// Whether the row's cards are shown at first.
    pub is_open: bool,
    /// The cards that show what the line changed.
    pub cards: Sheet,
    /// The kernel's answer. It is empty if no trace has it.
    pub seen: Vec<u8>,
    /// Whether the kernel differs from the rules here.
    pub differs: bool,
}

/// Adds the names of the tasks that a row shows as holding the transition up. Adds nothing if there are none.
fn add_mark(sheet: &mut Sheet, names: &Names, tasks: &[TaskId])
    ensures { Adds sheet.old sheet.new (mark_text names.now tasks.now) }
{
    // For the proof only: texts that are added one after the other add up.
    klp_markup::laws::what_is_added_adds_up();
    if tasks.is_empty() {
        return;
    }
    sheet.markup(HELD);
    add_each_task(sheet, names, tasks);
    sheet.markup(HELD_END);
}

/// Adds the class of a refused line to the start of a row. Adds nothing if the line wasn't refused.
fn add_refused(sheet: &mut Sheet, is_refused: bool)
    ensures { Adds sheet.old sheet.new (refused_text is_refused) }
{
    // For the proof only: texts that are added one after the other add up.
    klp_markup::laws::what_is_added_adds_up();
    if is_refused {
        sheet.markup(REFUSED);
    }
}

/// Adds the class of a row at which the kernel differs from the rules to the start of the row. Adds nothing if it
/// doesn't differ.
fn add_differing(sheet: &mut Sheet, differs: bool)
    ensures { Adds sheet.old sheet.new (differing_text differs) }
{
    // For the proof only: texts that are added one after the other add up.
    klp_markup::laws::what_is_added_adds_up();
    if differs {
        sheet.markup(DIFFERING);
    }
}

/// Adds the kernel's answer, escaped. Adds nothing if there is none (`seen` is empty).
fn add_seen(sheet: &mut Sheet, seen: &[u8])
    ensures { Adds sheet.old sheet.new (kernel_answer seen.now) }
{
    // For the proof only: texts that are added one after the other add up.
    klp_markup::laws::what_is_added_adds_up();
    if !seen.is_empty() {
        sheet.markup(SEEN);
        sheet.text(seen);
        sheet.markup(SEEN_END);
    }
}

/// Adds the words that say that the kernel differs from the rules at this row. Adds nothing if it doesn't differ.
fn add_difference(sheet: &mut Sheet, differs: bool)
    ensures { Adds sheet.old sheet.new (difference_text differs) }
{
    // For the proof only: texts that are added one after the other add up.
    klp_markup::laws::what_is_added_adds_up();
    if differs {
        sheet.markup(DIFFERENCE);
    }
}

/// Adds the kernel's answer if there is one, and words that say so if it differs from the rules.
fn add_kernel(sheet: &mut Sheet, row: &Row)
    ensures { Adds sheet.old sheet.new (kernel_text row.now) }
{
    // For the proof only: texts that are added one after the other add up.
    klp_markup::laws::what_is_added_adds_up();
    add_seen(sheet, &row.seen);
    add_difference(sheet, row.differs);
}

/// Adds the attribute of a row that shows its cards at first. Adds nothing if the row doesn't.
fn add_open(sheet: &mut Sheet, is_open: bool)
    ensures { Adds sheet.old sheet.new (open_text is_open) }
{
    // For the proof only: texts that are added one after the other add up.
    klp_markup::laws::what_is_added_adds_up();
    if is_open {
        sheet.markup(OPEN);
    }
}

/// Adds a time in microseconds since the first known time, written in seconds. Adds nothing if it isn't known (`None`).
fn add_time(sheet: &mut Sheet, time: Option<u64>)
    ensures { Adds sheet.old sheet.new (time_text time) }
{
    // For the proof only: texts that are added one after the other add up.
    klp_markup::laws::what_is_added_adds_up();
    if let Some(time) = time {
        sheet.markup(TIME);
        add_seconds(sheet, time);
    }
}

/// Adds the number of a line, and the line's time if it is known.
fn add_number(sheet: &mut Sheet, names: &Names, number: u64)
    ensures { Adds sheet.old sheet.new (decimal number ++ time_text (since_start names.now.timed number)) }
{
    // For the proof only: texts that are added one after the other add up.
    klp_markup::laws::what_is_added_adds_up();
    sheet.number(number);
    add_time(sheet, names.since_start(number));
}

/// Adds the columns of a row: the number and the time of the line, its text, its answer, the kernel's answer, and the
/// tasks that hold the transition up.
#[tactic(auto, unfolding(crate::specs::Text::shown_text))]
fn add_shown(sheet: &mut Sheet, names: &Names, number: u64, row: &Row)
    ensures { Adds sheet.old sheet.new (shown_text names.now number row.now) }
{
    // For the proof only: texts that are added one after the other add up.
    klp_markup::laws::what_is_added_adds_up();
    add_number(sheet, names, number);
    sheet.markup(LINE);
    sheet.text(&row.line);
    sheet.markup(ANSWER);
    sheet.text(&row.answer);
    sheet.markup(ANSWER_END);
    add_kernel(sheet, row);
    add_mark(sheet, names, &row.holders);
}

/// Begins a row: adds this tag, the row's classes, and the anchor `line-NUMBER`, to which sentences and the drawing
/// link.
#[tactic(auto, unfolding(crate::specs::Text::start_text))]
fn add_start(sheet: &mut Sheet, tag: &'static str, number: u64, row: &Row)
    ensures { Adds sheet.old sheet.new (start_text tag.now number row.now) }
{
    // For the proof only: texts that are added one after the other add up.
    klp_markup::laws::what_is_added_adds_up();
    sheet.markup(tag);
    add_refused(sheet, row.is_refused);
    add_differing(sheet, row.differs);
    sheet.markup(ID);
    sheet.number(number);
}

/// Adds a row without cards, which can't be opened.
fn add_plain_row(sheet: &mut Sheet, names: &Names, number: u64, row: &Row)
    ensures { Adds sheet.old sheet.new
        (start_text PLAIN_ROW.now number row.now ++ NUMBER.now ++ shown_text names.now number row.now
        ++ PLAIN_END.now) }
{
    // For the proof only: texts that are added one after the other add up.
    klp_markup::laws::what_is_added_adds_up();
    add_start(sheet, PLAIN_ROW, number, row);
    sheet.markup(NUMBER);
    add_shown(sheet, names, number, row);
    sheet.markup(PLAIN_END);
}

/// Adds a row with cards, which a click on the row shows or hides.
fn add_card_row(sheet: &mut Sheet, names: &Names, number: u64, row: &Row)
    ensures { Adds sheet.old sheet.new
        (start_text CARD_ROW.now number row.now ++ open_text row.now.is_open ++ CARD_NUMBER.now
        ++ shown_text names.now number row.now
        ++ CARDS.now ++ row.now.cards.text ++ CARDS_END.now) }
{
    // For the proof only: texts that are added one after the other add up.
    klp_markup::laws::what_is_added_adds_up();
    add_start(sheet, CARD_ROW, number, row);
    add_open(sheet, row.is_open);
    sheet.markup(CARD_NUMBER);
    add_shown(sheet, names, number, row);
    sheet.markup(CARDS);
    sheet.append(&row.cards);
    sheet.markup(CARDS_END);
}

/// Adds a row, with its cards if there are any. `number` is the number of its line, from 1.
#[tactic(auto, unfolding(crate::specs::Text::row_text))]
fn add_row(sheet: &mut Sheet, names: &Names, number: u64, row: &Row)
    ensures { Adds sheet.old sheet.new (row_text names.now number row.now) }
{
    if row.cards.is_empty() {
        add_plain_row(sheet, names, number, row);
    } else {
        add_card_row(sheet, names, number, row);
    }
}

/// Called before a quiet row: begins a fold if exactly [`QUIET_ROWS`] successive quiet rows precede it, so that this
/// row is the first to be folded away. `quiet` is how many successive quiet rows precede it.
fn add_fold_start(sheet: &mut Sheet, quiet: usize)
    ensures { Adds sheet.old sheet.new (fold_start quiet) }
{
    // For the proof only: texts that are added one after the other add up.
    klp_markup::laws::what_is_added_adds_up();
    if quiet == QUIET_ROWS {
        sheet.markup(FOLD);
    }
}

/// Called after the last of `quiet` successive quiet rows: ends the fold, and adds how many of these rows it folds
/// away. Adds nothing if there are at most [`QUIET_ROWS`], so that no fold was begun.
fn add_fold_end(sheet: &mut Sheet, quiet: usize)
    ensures { Adds sheet.old sheet.new (fold_end quiet) }
{
    // For the proof only: texts that are added one after the other add up.
    klp_markup::laws::what_is_added_adds_up();
    if quiet > QUIET_ROWS {
        sheet.markup(FOLD_END);
        sheet.number((quiet - QUIET_ROWS) as u64);
        sheet.markup(FOLDED);
    }
}

/// Begins the fold of the `set_up` lines at the beginning that were made up. Adds nothing if there are none.
fn add_set_up_start(sheet: &mut Sheet, set_up: u64)
    ensures { Adds sheet.old sheet.new (set_up_start set_up) }
{
    // For the proof only: texts that are added one after the other add up.
    klp_markup::laws::what_is_added_adds_up();
    if set_up != 0 {
        sheet.markup(SET_UP);
    }
}

/// Called before the row of the line `number`: ends the fold of the made-up lines if the line is the first behind them.
fn add_set_up_end(sheet: &mut Sheet, set_up: u64, number: u64)
    requires { 0 < number }
    ensures { Adds sheet.old sheet.new (set_up_end set_up number) }
{
    // For the proof only: texts that are added one after the other add up.
    klp_markup::laws::what_is_added_adds_up();
    if 0 < set_up && number - 1 == set_up {
        sheet.markup(SET_UP_END);
        sheet.number(set_up);
        sheet.markup(SET_UP_FOLDED);
    }
}

/// Called after the last row, behind which `number` would be the next: ends the folds that are open.
fn add_last_folds(sheet: &mut Sheet, set_up: u64, number: u64, quiet: usize)
    requires { 0 < number }
    ensures { Adds sheet.old sheet.new (set_up_end set_up number ++ fold_end quiet) }
{
    // For the proof only: texts that are added one after the other add up.
    klp_markup::laws::what_is_added_adds_up();
    add_set_up_end(sheet, set_up, number);
    add_fold_end(sheet, quiet);
}

/// Adds the rows in order, inside of the fold of the `set_up` lines that were made up, if there are any.
fn add_each_row(sheet: &mut Sheet, names: &Names, set_up: u64, rows: &[Row])
    ensures { Adds sheet.old sheet.new (rows_from names.now set_up 0 1 rows.now) }
{
    // For the proof only: texts that are added one after the other add up.
    klp_markup::laws::what_is_added_adds_up();
    let mut quiet = 0;
    for index in 0..rows.len() {
        let row = &rows[index];
        let number = index as u64 + 1;
        add_set_up_end(sheet, set_up, number);
        if row.is_quiet && set_up < number {
            add_fold_start(sheet, quiet);
            quiet += 1;
        } else {
            add_fold_end(sheet, quiet);
            quiet = 0;
        }
        add_row(sheet, names, number, row);
    }
    add_last_folds(sheet, set_up, rows.len() as u64 + 1, quiet);
}

/// Adds the rows in order. Of successive quiet rows, the page shows the first [`QUIET_ROWS`], and folds away the
/// others. The first `set_up` rows are all folded away.
pub(crate) fn add_rows(sheet: &mut Sheet, names: &Names, set_up: u64, rows: &[Row])
    ensures { Adds sheet.old sheet.new (rows_text names.now set_up rows.now) }
{
    // For the proof only: texts that are added one after the other add up.
    klp_markup::laws::what_is_added_adds_up();
    add_set_up_start(sheet, set_up);
    add_each_row(sheet, names, set_up, rows);
}
