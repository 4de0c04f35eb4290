//! The sentences on the rows at which a kernel differs from the rules.
ghost use Rattle.std.specs.Prelude.{◌≡◌, ◌≤◌, ◌++◌};
ghost use Rattle.klp_markup.specs.Adds.{Adds};
ghost use Rattle.klp_page.specs.Text.{difference_place, difference_sentence, differences_text};

use crate::row::Row;
use crate::style::{DIFFERS_AT, DIFFERS_END, DIFFERS_LINE, DIFFERS_LINK, KERNEL_SAYS, RULES_SAY};
use klp_markup::{Sheet, add_line_time};
use klp_names::Names;

/// A page has at most this many sentences on differences: those on the first rows that differ. Its head counts all rows
/// that differ.
pub(crate) const MAX_DIFFERENCES: usize = 100;

/// Adds where the kernel differs from the rules: the number of the row's line, with a link and its time.
#[tactic(auto, unfolding(crate::specs::Text::difference_place))]
fn add_difference_place(sheet: &mut Sheet, names: &Names, number: u64)
    ensures { Adds sheet.old sheet.new (difference_place names.now number) }
{
    // For the proof only: texts that are added one after the other add up.
    klp_markup::laws::what_is_added_adds_up();
    sheet.markup(DIFFERS_AT);
    sheet.number(number);
    sheet.markup(DIFFERS_LINK);
    sheet.number(number);
    sheet.markup(DIFFERS_LINE);
    add_line_time(sheet, names, number);
}

/// Adds the sentence on a row at which the kernel differs from the rules: what the rules say there, and what the kernel
/// answered or showed. `number` is the number of the row's line, from 1.
#[tactic(auto, unfolding(crate::specs::Text::difference_sentence))]
fn add_difference_sentence(sheet: &mut Sheet, names: &Names, number: u64, row: &Row)
    ensures { Adds sheet.old sheet.new (difference_sentence names.now number row.now) }
{
    // For the proof only: texts that are added one after the other add up.
    klp_markup::laws::what_is_added_adds_up();
    add_difference_place(sheet, names, number);
    sheet.markup(RULES_SAY);
    sheet.text(&row.answer);
    sheet.markup(KERNEL_SAYS);
    sheet.text(&row.seen);
    sheet.markup(DIFFERS_END);
}

/// Adds a sentence for each row at which the kernel differs from the rules, in order, up to [`MAX_DIFFERENCES`]. Adds
/// nothing to the page of a script, whose rows never differ.
pub(crate) fn add_differences(sheet: &mut Sheet, names: &Names, rows: &[Row])
    ensures { Adds sheet.old sheet.new (differences_text names.now rows.now) }
{
    // For the proof only: texts that are added one after the other add up.
    klp_markup::laws::what_is_added_adds_up();
    let mut left = MAX_DIFFERENCES;
    for index in 0..rows.len() {
        let row = &rows[index];
        if row.differs && left > 0 {
            add_difference_sentence(sheet, names, index as u64 + 1, row);
            left -= 1;
        }
    }
}
