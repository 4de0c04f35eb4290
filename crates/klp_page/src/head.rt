//! The parts of a page above its rows and below them.
ghost use Rattle.std.specs.Prelude.{◌≡◌, [], ◌++◌, codes, count_by, Some, if◌then◌else◌};
ghost use Rattle.std.specs.Fmt.{decimal};
ghost use Rattle.klp_markup.specs.Adds.{Adds};
ghost use Rattle.klp_page.specs.Text.{is_started, is_start, count_text, refusals_text, title_text, timed_style};
ghost use Rattle.klp_page.specs.Text.{opening_text, all_refused, front_text, story_and_drawing, trace_style};
ghost use Rattle.klp_page.specs.Text.{style_text, first_text, different_text, compared_text, set_up_of};

use crate::differences::add_differences;
use crate::row::Row;
use crate::style::{
    AGREES, COUNTS, FIRST, FIRST_END, FIRST_WORD, HEAD, LINES, RUN, STORY, STYLE, STYLE_END,
    TIMED_STYLE, TRACE_STYLE,
};
use klp_catalog::Catalog;
use klp_markup::Sheet;
use klp_modules::Modules;
use klp_names::Names;
use klp_story::{add_end, add_story};
use klp_timeline::{Fact, Said, Sentence, View};

/// The contents of a page's head. They are the name of the run, the names of tasks, the number of lines and the number
/// of refused lines. The head also says how many transitions started, and whether a transition is still under way.
#[derive(Clone, Copy)]
pub(crate) struct Title<'a> {
    pub name: &'a [u8],
    /// The names of tasks, and the times of lines.
    pub names: &'a Names,
    pub lines: u64,
    /// How many of the lines were refused.
    pub refused: u64,
    pub transitions: u64,
    pub is_moving: bool,
    /// How the kernel compares with the rules. `None` for a page of a script.
    pub differing: Option<Differing>,
}

/// How many rows of a trace differ from the rules, and the number of the first such row. If there is no such row, the
/// number of the first row is 0.
#[derive(Clone, Copy)]
pub struct Differing {
    pub rows: u64,
    pub first: u64,
    /// How many lines at the trace's beginning were made up, since nothing is known of how what they show came about. The
    /// page folds them away.
    pub set_up: u64,
}

/// Returns how many lines at a trace's beginning were made up. Returns 0 for a script.
pub(crate) fn set_up_of(differing: &Option<Differing>) -> u64
    ensures { result ≡ set_up_of differing.now }
{
    match differing {
        Some(differing) => differing.set_up,
        None => 0,
    }
}

/// Whether the sentence is on the start of a transition.
fn is_start(sentence: &Sentence) -> bool
    ensures { result ≡ is_start sentence.now }
{
    matches!(sentence.said, Said::Did(Fact::Starts(_)))
}

/// Returns how many transitions started in a run. `sentences` are all sentences of the run.
pub(crate) fn transitions(sentences: &[Sentence]) -> u64
    ensures { result ≡ count_by is_start sentences.now }
{
    let mut count = 0usize;
    for sentence in sentences {
        if is_start(sentence) {
            count += 1;
        }
    }
    count as u64
}

/// Adds a number and the words that go with it: `one` if it is 1, and `many` for any other number.
fn add_count(sheet: &mut Sheet, count: u64, one: &'static str, many: &'static str)
    ensures { Adds sheet.old sheet.new (count_text count one.now many.now) }
{
    // For the proof only: texts that are added one after the other add up.
    klp_markup::laws::what_is_added_adds_up();
    sheet.number(count);
    sheet.markup(if count == 1 { one } else { many });
}

/// Adds the number of refused lines. Adds nothing if no line was refused.
fn add_refusals(sheet: &mut Sheet, count: u64)
    ensures { Adds sheet.old sheet.new (refusals_text count) }
{
    // For the proof only: texts that are added one after the other add up.
    klp_markup::laws::what_is_added_adds_up();
    if count > 0 {
        sheet.number(count);
        sheet.markup(" refused, ");
    }
}

/// Adds to the number of transitions that one is still under way. Adds nothing if none is.
fn add_under_way(sheet: &mut Sheet, is_moving: bool)
    ensures { Adds sheet.old sheet.new (if is_moving then codes ", one still under way" else []) }
{
    // For the proof only: texts that are added one after the other add up.
    klp_markup::laws::what_is_added_adds_up();
    if is_moving {
        sheet.markup(", one still under way");
    }
}

/// Adds the title: the name of the run, how many lines it has, how many of them were refused, how many transitions
/// started, and whether one is still under way.
#[tactic(auto, unfolding(crate::specs::Text::title_text))]
fn add_title(sheet: &mut Sheet, title: &Title<'_>)
    ensures { Adds sheet.old sheet.new (title_text title.now) }
{
    // For the proof only: texts that are added one after the other add up.
    klp_markup::laws::what_is_added_adds_up();
    sheet.text(title.name);
    sheet.markup(": ");
    add_count(sheet, title.lines, " line, ", " lines, ");
    add_refusals(sheet, title.refused);
    add_count(sheet, title.transitions, " transition", " transitions");
    add_under_way(sheet, title.is_moving);
}

/// Adds the style of rows with times. Adds nothing if the time of no line is known.
fn add_timed_style(sheet: &mut Sheet, names: &Names)
    ensures { Adds sheet.old sheet.new (timed_style names.now) }
{
    // For the proof only: texts that are added one after the other add up.
    klp_markup::laws::what_is_added_adds_up();
    if names.has_times() {
        sheet.markup(TIMED_STYLE);
    }
}

/// Adds the style that only a trace's page needs. Adds nothing to the page of a script, for which `differing` is
/// `None`.
fn add_trace_style(sheet: &mut Sheet, differing: &Option<Differing>)
    ensures { Adds sheet.old sheet.new (trace_style differing.now) }
{
    // For the proof only: texts that are added one after the other add up.
    klp_markup::laws::what_is_added_adds_up();
    if differing.is_some() {
        sheet.markup(TRACE_STYLE);
    }
}

/// Adds the style of the page, and the styles of its drawing and its cards.
fn add_style(sheet: &mut Sheet, names: &Names, differing: &Option<Differing>)
    ensures { Adds sheet.old sheet.new (style_text names.now differing.now) }
{
    // For the proof only: texts that are added one after the other add up.
    klp_markup::laws::what_is_added_adds_up();
    sheet.markup(STYLE);
    sheet.markup(klp_drawing::STYLE);
    sheet.markup(klp_cards::STYLE);
    add_timed_style(sheet, names);
    add_trace_style(sheet, differing);
}

/// Adds a link to the first row at which the kernel differs from the rules. `first` is the row's number.
fn add_first(sheet: &mut Sheet, first: u64)
    ensures { Adds sheet.old sheet.new (first_text first) }
{
    // For the proof only: texts that are added one after the other add up.
    klp_markup::laws::what_is_added_adds_up();
    sheet.markup(FIRST);
    sheet.number(first);
    sheet.markup(FIRST_WORD);
    sheet.number(first);
    sheet.markup(FIRST_END);
}

/// Adds the sentence on a kernel that differs from the rules: at how many rows it does, with a link to the first of
/// them. There must be such a row.
fn add_different(sheet: &mut Sheet, differing: Differing)
    ensures { Adds sheet.old sheet.new (different_text differing) }
{
    // For the proof only: texts that are added one after the other add up.
    klp_markup::laws::what_is_added_adds_up();
    sheet.markup(". <b class=holds>");
    add_count(sheet, differing.rows, " row differs", " rows differ");
    add_first(sheet, differing.first);
}

/// Adds the sentence that compares the kernel with the rules: it agrees with them, or at how many rows it differs from
/// them.
fn add_differing(sheet: &mut Sheet, differing: Differing)
    ensures { Adds sheet.old sheet.new (compared_text (Some differing)) }
{
    // For the proof only: texts that are added one after the other add up.
    klp_markup::laws::what_is_added_adds_up();
    if differing.rows == 0 {
        sheet.markup(AGREES);
    } else {
        add_different(sheet, differing);
    }
}

/// Adds the sentence that compares the kernel of a trace with the rules. Adds nothing to the page of a script, for
/// which `differing` is `None`.
fn add_compared(sheet: &mut Sheet, differing: &Option<Differing>)
    ensures { Adds sheet.old sheet.new (compared_text differing.now) }
{
    // For the proof only: texts that are added one after the other add up.
    klp_markup::laws::what_is_added_adds_up();
    if let Some(differing) = *differing {
        add_differing(sheet, differing);
    }
}

/// Adds the beginning of the document: its title, and its style up to the end.
#[tactic(auto, unfolding(crate::specs::Text::opening_text))]
fn add_opening(sheet: &mut Sheet, title: &Title<'_>)
    ensures { Adds sheet.old sheet.new (opening_text title.now) }
{
    // For the proof only: texts that are added one after the other add up.
    klp_markup::laws::what_is_added_adds_up();
    sheet.markup(HEAD);
    add_title(sheet, title);
    add_style(sheet, title.names, &title.differing);
    sheet.markup(STYLE_END);
}

/// Returns the number of lines if all were refused. Returns `None` if some line wasn't, or if there is no line.
fn all_refused(title: &Title<'_>) -> Option<u64>
    ensures { result ≡ all_refused title.now }
{
    if title.refused > 0 && title.refused == title.lines {
        Some(title.lines)
    } else {
        None
    }
}

/// Adds the part of the page above its sentences: the beginning of the document, how the run ends, the title once more,
/// and for a trace how the kernel compares with the rules. `view` is the state at the end of the run. The catalog must
/// have been assembled over these modules.
pub(crate) fn add_front(
    sheet: &mut Sheet,
    title: &Title<'_>,
    catalog: &Catalog,
    modules: &Modules,
    view: &View,
    sentences: &[Sentence],
)
    requires { catalog.now.names ≡ modules.now.names }
    ensures { Adds sheet.old sheet.new (front_text title.now catalog.now view.now sentences.now) }
{
    add_opening(sheet, title);
    add_end(
        sheet,
        title.names,
        catalog,
        modules,
        view,
        sentences,
        &all_refused(title),
    );
    sheet.markup(COUNTS);
    add_title(sheet, title);
    add_compared(sheet, &title.differing);
    sheet.markup(STORY);
}

/// Adds the part of the page from its sentences to its rows: the sentences about the run and about the rows that differ
/// from the rules, and the drawing. The catalog must have been assembled over these modules.
pub(crate) fn add_story_and_drawing(
    sheet: &mut Sheet,
    names: &Names,
    catalog: &Catalog,
    modules: &Modules,
    sentences: &[Sentence],
    rows: &[Row],
    drawing: &Sheet,
)
    requires { catalog.now.names ≡ modules.now.names }
    ensures { Adds sheet.old sheet.new
        (story_and_drawing names.now catalog.now sentences.now rows.now drawing.now.text) }
{
    add_story(sheet, names, catalog, modules, sentences);
    add_differences(sheet, names, rows);
    sheet.markup(RUN);
    sheet.append(drawing);
    sheet.markup(LINES);
}
