//! How a run ended: the first part of a page.
ghost use Rattle.std.specs.Prelude.{◌≡◌, ◌++◌, ◌∷◌, [], ◌-◌, ◌&&◌, nat_lt, codes, count_by, sum_by, is_some};
ghost use Rattle.std.specs.Fmt.{decimal};
ghost use Rattle.klp_markup.specs.Adds.{Adds};
ghost use Rattle.klp_timeline.specs.declared.moment.Said.TheVariants.{Slept};
ghost use Rattle.klp_timeline.specs.Course.{course_of};
ghost use Rattle.klp_timeline.specs.Facts.{is_outdated};
ghost use Rattle.klp_timeline.specs.Shown.{is_lasting};
ghost use Rattle.klp_markup.specs.Tasks.{tasks_text};
ghost use Rattle.klp_story.specs.Words.{link_text};
ghost use Rattle.klp_story.specs.End.{reason_text, sleeper_text, sleepers_text, tasks_of, first_lasting, others_text};
ghost use Rattle.klp_story.specs.End.{uncalled_text, all_sleepers_text, refused_text, first_text, end_text};

use crate::lagging::add_all_lagging;
use crate::transition::{add_outdated, add_state};
use crate::words::{add_counted, add_link, add_number, why};
use klp_catalog::Catalog;
use klp_markup::{Sheet, add_line_time, add_tasks, add_version, is_of_kernel};
use klp_modules::Modules;
use klp_names::Names;
use klp_timeline::{Said, Sentence, Sleepers, Stay, View, is_lasting, latest_course, outdated};

/// How many sentences about sleepers the list shows at most. The list counts the tasks of the other sentences.
const MAX_HOLDERS: usize = 8;

/// Returns what is said of code that isn't called now: it warns of unloading the code. The kernel itself is never
/// unloaded.
fn uncalled(is_kernel: bool) -> &'static str
    ensures { result.now ≡ uncalled_text is_kernel }
{
    if is_kernel {
        ", which isn't called now.\n"
    } else {
        ", which isn't called now: the module or patch that has it mustn't be unloaded.\n"
    }
}

/// Adds the version that tasks sleep in, and why that matters: it blocks the transition, or isn't called now. A line
/// break follows.
fn add_reason(sheet: &mut Sheet, catalog: &Catalog, modules: &Modules, stay: &Stay)
    requires { catalog.now.names ≡ modules.now.names }
    ensures { Adds sheet.old sheet.new (reason_text catalog.now stay.now) }
{
    // For the proof only: texts that are added one after the other add up.
    klp_markup::laws::what_is_added_adds_up();
    match stay {
        Stay::Holds(moving, version) => {
            add_version(sheet, catalog, modules, *version);
            sheet.markup(", ");
            sheet.markup(why(moving, version));
            sheet.markup(".\n");
        }
        Stay::Outdated(version) => {
            add_version(sheet, catalog, modules, *version);
            sheet.markup(uncalled(is_of_kernel(modules, *version)));
        }
    }
}

/// Adds a list item on tasks in the same stay, which lasts until the end of the run: which tasks, since which line and
/// time, in which version, and why that matters. The stay begins with `line`.
fn add_sleepers(
    sheet: &mut Sheet,
    names: &Names,
    catalog: &Catalog,
    modules: &Modules,
    line: u64,
    sleepers: &Sleepers,
)
    requires { catalog.now.names ≡ modules.now.names }
    ensures { Adds sheet.old sheet.new (sleeper_text names.now catalog.now line (Slept sleepers.now)) }
{
    // For the proof only: texts that are added one after the other add up.
    klp_markup::laws::what_is_added_adds_up();
    let tasks = sleepers.tasks.as_slice();
    sheet.markup("<li class=holds><b>");
    add_tasks(sheet, names, tasks);
    sheet.markup("</b>, in the way since ");
    add_link(sheet, "line ", line);
    add_line_time(sheet, names, line);
    sheet.markup(": asleep in ");
    add_reason(sheet, catalog, modules, &sleepers.stay);
}

/// Adds a list item for a sentence on a stay, which must last until the end of the run. Adds nothing for a sentence on
/// a fact.
fn add_sleeper(
    sheet: &mut Sheet,
    names: &Names,
    catalog: &Catalog,
    modules: &Modules,
    sentence: &Sentence,
)
    requires { catalog.now.names ≡ modules.now.names }
    ensures { Adds sheet.old sheet.new (sleeper_text names.now catalog.now sentence.now.line sentence.now.said) }
{
    // For the proof only: texts that are added one after the other add up.
    klp_markup::laws::what_is_added_adds_up();
    match &sentence.said {
        Said::Did(_) => {}
        Said::Slept(sleepers) => {
            add_sleepers(sheet, names, catalog, modules, sentence.line, sleepers);
        }
    }
}

/// Returns the number of tasks in a sentence on a stay. Returns 0 for a sentence on a fact.
fn tasks_of(sentence: &Sentence) -> usize
    ensures { result ≡ tasks_of sentence.now }
{
    match &sentence.said {
        Said::Did(_) => 0,
        Said::Slept(sleepers) => sleepers.tasks.as_slice().len(),
    }
}

/// Whether the list has an item for this sentence: its stay lasts until the end of the run, and the list isn't full.
/// `room` is how many more items the list takes.
fn fits_in_list(room: usize, sentence: &Sentence) -> bool
    ensures { result ≡ (nat_lt 0 room && is_lasting sentence.now) }
{
    room > 0 && is_lasting(sentence)
}

/// Adds a list item for each of the first [`MAX_HOLDERS`] sentences whose stay lasts until the end of the run.
fn add_lasting(
    sheet: &mut Sheet,
    names: &Names,
    catalog: &Catalog,
    modules: &Modules,
    sentences: &[Sentence],
)
    requires { catalog.now.names ≡ modules.now.names }
    ensures { Adds sheet.old sheet.new (sleepers_text names.now catalog.now (first_lasting MAX_HOLDERS sentences.now)) }
{
    // For the proof only: texts that are added one after the other add up.
    klp_markup::laws::what_is_added_adds_up();
    let mut room = MAX_HOLDERS;
    for sentence in sentences {
        if fits_in_list(room, sentence) {
            add_sleeper(sheet, names, catalog, modules, sentence);
            room -= 1;
        }
    }
}

/// Returns how many of the `sleepers` tasks have no list item: the tasks beyond the first [`MAX_HOLDERS`] sentences
/// whose stay lasts until the end of the run. `sentences` are all sentences of the run.
fn others(sleepers: usize, sentences: &[Sentence]) -> usize
    ensures { result ≡ sleepers - sum_by tasks_of (first_lasting MAX_HOLDERS sentences.now) }
{
    let mut left = sleepers;
    let mut room = MAX_HOLDERS;
    for sentence in sentences {
        if fits_in_list(room, sentence) {
            left = left.saturating_sub(tasks_of(sentence));
            room -= 1;
        }
    }
    left
}

/// Adds a list item with the number of sleepers that have no item. Adds nothing if `count` is 0.
fn add_others(sheet: &mut Sheet, count: usize)
    ensures { Adds sheet.old sheet.new (others_text count) }
{
    // For the proof only: texts that are added one after the other add up.
    klp_markup::laws::what_is_added_adds_up();
    if count > 0 {
        add_counted(
            sheet,
            "<li class=holds>",
            count,
            " task more, of which the sentences below tell.\n",
            " tasks more, of which the sentences below tell.\n",
        );
    }
}

/// Returns how many tasks are in a stay: they hold the transition up, or sleep in code that isn't called now.
fn sleeping(stays: &[Option<Stay>]) -> usize
    ensures { result ≡ count_by is_some stays.now }
{
    let mut count = 0;
    for stay in stays {
        if stay.is_some() {
            count += 1;
        }
    }
    count
}

/// Adds the list items on tasks that hold the transition up, or sleep in code that isn't called now. Each of the first
/// [`MAX_HOLDERS`] sentences whose stay lasts until the end of the run has an item. One more item counts the tasks of
/// the others.
fn add_all_sleepers(
    sheet: &mut Sheet,
    names: &Names,
    catalog: &Catalog,
    modules: &Modules,
    stays: &[Option<Stay>],
    sentences: &[Sentence],
)
    requires { catalog.now.names ≡ modules.now.names }
    ensures { Adds sheet.old sheet.new (all_sleepers_text names.now catalog.now stays.now sentences.now) }
{
    // For the proof only: texts that are added one after the other add up.
    klp_markup::laws::what_is_added_adds_up();
    add_lasting(sheet, names, catalog, modules, sentences);
    add_others(sheet, others(sleeping(stays), sentences));
}

/// Adds that nothing was done, if every line was refused. `refused` is then the number of lines, and otherwise `None`.
fn add_refused(sheet: &mut Sheet, refused: &Option<u64>)
    ensures { Adds sheet.old sheet.new (refused_text refused.now) }
{
    // For the proof only: texts that are added one after the other add up.
    klp_markup::laws::what_is_added_adds_up();
    match *refused {
        None => {}
        Some(1) => sheet.markup("Nothing was done: the only line was refused. "),
        Some(lines) => add_number(
            sheet,
            "Nothing was done: all ",
            lines,
            " lines were refused. ",
        ),
    }
}

/// Adds the heading. It has the transition under way, or else the enabled patches, and how many tasks sleep in code
/// that isn't called now. If every line was refused, "Nothing was done" comes first.
#[tactic(auto, unfolding(crate::specs::End::first_text))]
fn add_first(
    sheet: &mut Sheet,
    names: &Names,
    catalog: &Catalog,
    view: &View,
    sentences: &[Sentence],
    refused: &Option<u64>,
)
    ensures { Adds sheet.old sheet.new (first_text names.now catalog.now view.now sentences.now refused.now) }
{
    // For the proof only: texts that are added one after the other add up.
    klp_markup::laws::what_is_added_adds_up();
    let course = latest_course(sentences);
    let sleepers = outdated(&view.stays);
    sheet.markup("<h1>");
    add_refused(sheet, refused);
    sheet.markup("At the end: ");
    add_state(sheet, names, catalog, view, &course);
    add_outdated(sheet, sleepers);
    sheet.markup("</h1>");
}

/// Adds how a run ends: a heading and a list. The heading has the transition under way, or else the enabled patches,
/// and "Nothing was done" before that if every line was refused. The list has the tasks that hold the transition up or
/// sleep in code that isn't called now, and then the tasks that merely lag. Of the sentences on the former it shows the
/// first [`MAX_HOLDERS`], and counts the tasks of the others.
///
/// `view` is the state after the run's last line, and `sentences` are all sentences of the run. If every line was
/// refused, `refused` is the number of lines. The catalog must have been assembled over these modules.
pub fn add_end(
    sheet: &mut Sheet,
    names: &Names,
    catalog: &Catalog,
    modules: &Modules,
    view: &View,
    sentences: &[Sentence],
    refused: &Option<u64>,
)
    requires { catalog.now.names ≡ modules.now.names }
    ensures { Adds sheet.old sheet.new (end_text names.now catalog.now view.now sentences.now refused.now) }
{
    // For the proof only: texts that are added one after the other add up.
    klp_markup::laws::what_is_added_adds_up();
    add_first(sheet, names, catalog, view, sentences, refused);
    sheet.markup("<ul class=story>\n");
    add_all_sleepers(sheet, names, catalog, modules, &view.stays, sentences);
    add_all_lagging(sheet, names, &view.waits);
    sheet.markup("</ul>\n");
}
