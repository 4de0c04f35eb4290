//! Sentences on sleepers that hold a transition up, or sleep in code that isn't called.
ghost use Rattle.std.specs.Prelude.{◌≡◌, ◌++◌, ◌∷◌, [], codes, length};
ghost use Rattle.std.specs.Fmt.{decimal};
ghost use Rattle.klp_markup.specs.Adds.{Adds};
ghost use Rattle.klp_markup.specs.Names.{version_text};
ghost use Rattle.klp_markup.specs.Tasks.{plural, tasks_text};
ghost use Rattle.klp_markup.specs.Times.{line_time, span_time};
ghost use Rattle.klp_story.specs.Words.{link_text, quoted_text, why};
ghost use Rattle.klp_story.specs.Sentences.{lines_text, span_text, anchor_text, anchors_text, holding, sleeping};
ghost use Rattle.klp_story.specs.Sentences.{warning, stay_text, said_text};
ghost use Rattle.klp_timeline.specs.declared.moment.Said.TheVariants.{Slept};

use crate::words::{add_link, add_number, add_patch, why};
use klp_catalog::Catalog;
use klp_markup::{
    Sheet, add_line_time, add_span_time, add_tasks, add_version, is_of_kernel, plural,
};
use klp_modules::Modules;
use klp_names::Names;
use klp_timeline::{Sleepers, Stay};
use klp_types::{TaskId, Transition, Version};

/// Adds the text `before`, and then a link to the row of a line. The link's text is `word` and the line's number.
pub(crate) fn add_linked(sheet: &mut Sheet, before: &'static str, word: &'static str, line: u64)
    ensures { Adds sheet.old sheet.new (before.now ++ link_text word.now line) }
{
    // For the proof only: texts that are added one after the other add up.
    klp_markup::laws::what_is_added_adds_up();
    sheet.markup(before);
    add_link(sheet, word, line);
}

/// Begins a list item on a stay that ended: adds `Line 7` or `Lines 7 to 12`, of which the first number is a link.
/// `line` is the stay's first line, and `to` the last.
fn add_lines(sheet: &mut Sheet, line: u64, to: u64)
    ensures { Adds sheet.old sheet.new (lines_text line to) }
{
    // For the proof only: texts that are added one after the other add up.
    klp_markup::laws::what_is_added_adds_up();
    if to == line {
        add_linked(sheet, "<li>", "Line ", line);
    } else {
        add_linked(sheet, "<li>", "Lines ", line);
        sheet.markup(" to ");
        sheet.number(to);
    }
}

/// Begins a list item on a stay: adds its lines, when it began and how long it lasted. `line` is the stay's first line,
/// and `to` the last. If `to` is `None`, the stay still lasts at the end of the run.
fn add_span(sheet: &mut Sheet, names: &Names, line: u64, to: &Option<u64>)
    ensures { Adds sheet.old sheet.new (span_text names.now line to.now) }
{
    // For the proof only: texts that are added one after the other add up.
    klp_markup::laws::what_is_added_adds_up();
    match *to {
        None => {
            add_linked(sheet, "<li class=holds>Since ", "line ", line);
            add_line_time(sheet, names, line);
            sheet.markup(", and still: ");
        }
        Some(last) => {
            add_lines(sheet, line, last);
            add_span_time(sheet, names, line, Some(last));
            sheet.markup(": ");
        }
    }
}

/// Adds an anchor of a task's stay: an empty element, to which the stay's label in the drawing links. The stay begins
/// with `line`.
#[tactic(auto, unfolding(crate::specs::Sentences::anchor_text))]
fn add_anchor(sheet: &mut Sheet, line: u64, task: TaskId)
    ensures { Adds sheet.old sheet.new (anchor_text line task) }
{
    // For the proof only: texts that are added one after the other add up.
    klp_markup::laws::what_is_added_adds_up();
    add_number(sheet, "<i id=stay-", line, "-");
    sheet.number(u64::from(task.0));
    sheet.markup("></i>");
}

/// Adds an anchor for the stay of each of these tasks. The stays begin with `line`.
fn add_anchors(sheet: &mut Sheet, line: u64, tasks: &[TaskId])
    ensures { Adds sheet.old sheet.new (anchors_text line tasks.now) }
{
    // For the proof only: texts that are added one after the other add up.
    klp_markup::laws::what_is_added_adds_up();
    for task in tasks {
        add_anchor(sheet, line, *task);
    }
}

/// Returns the verb for `count` tasks that hold a transition up. The verb is in the present if they still do at the end
/// of the run (`to` is `None`), otherwise in the past.
fn holding(to: &Option<u64>, count: usize) -> &'static str
    ensures { result.now ≡ holding to.now count }
{
    match to {
        None => plural(count, " holds ", " hold "),
        Some(_) => " held ",
    }
}

/// Returns the verb for `count` tasks that sleep in code that isn't called. The verb is in the present if they still do
/// at the end of the run (`to` is `None`), otherwise in the past.
fn sleeping(to: &Option<u64>, count: usize) -> &'static str
    ensures { result.now ≡ sleeping to.now count }
{
    match to {
        None => plural(count, " sleeps in ", " sleep in "),
        Some(_) => " slept in ",
    }
}

/// Returns what ends the sentence on tasks that sleep in code that isn't called. If they still do at the end of the run
/// (`to` is `None`), it warns of unloading the code. The kernel itself is never unloaded.
fn warning(is_kernel: bool, to: &Option<u64>) -> &'static str
    ensures { result.now ≡ warning is_kernel to.now }
{
    match to {
        None if is_kernel => ", which isn't called now.",
        None => ", which isn't called now: the module or patch that has it mustn't be unloaded.",
        Some(_) => ", which wasn't called then.",
    }
}

/// Adds the rest of a sentence whose subject, the tasks, is added already: they hold a patch's transition up, asleep in
/// `version`, and why this version blocks the transition. `verb` is `holds`, `hold` or `held`, between spaces.
fn add_hold(
    sheet: &mut Sheet,
    catalog: &Catalog,
    modules: &Modules,
    verb: &'static str,
    moving: &Transition,
    version: Version,
)
    requires { catalog.now.names ≡ modules.now.names }
    ensures { Adds sheet.old sheet.new (verb.now ++ quoted_text catalog.now moving.now.patch
        ++ codes " up, asleep in " ++ version_text catalog.now version ++ codes ", "
        ++ why moving.now.target version ++ codes ".") }
{
    // For the proof only: texts that are added one after the other add up.
    klp_markup::laws::what_is_added_adds_up();
    sheet.markup(verb);
    add_patch(sheet, catalog, moving.patch);
    sheet.markup(" up, asleep in ");
    add_version(sheet, catalog, modules, version);
    sheet.markup(", ");
    sheet.markup(why(moving, &version));
    sheet.markup(".");
}

/// Adds the rest of a sentence whose subject, `count` sleepers, is added already: they hold a transition up, or sleep
/// in code that isn't called.
fn add_stay(
    sheet: &mut Sheet,
    catalog: &Catalog,
    modules: &Modules,
    sleepers: &Sleepers,
    count: usize,
)
    requires { catalog.now.names ≡ modules.now.names }
    ensures { Adds sheet.old sheet.new (stay_text catalog.now sleepers.now.stay sleepers.now.to count) }
{
    // For the proof only: texts that are added one after the other add up.
    klp_markup::laws::what_is_added_adds_up();
    let to = &sleepers.to;
    match &sleepers.stay {
        Stay::Holds(moving, version) => {
            let verb = holding(to, count);
            add_hold(sheet, catalog, modules, verb, moving, *version);
        }
        Stay::Outdated(version) => {
            sheet.markup(sleeping(to, count));
            add_version(sheet, catalog, modules, *version);
            sheet.markup(warning(is_of_kernel(modules, *version), to));
        }
    }
}

/// Adds a list item on tasks in the same stay: its lines and times, the tasks, and what they do. The stay begins with
/// `line`. The catalog must have been assembled over these modules.
pub(crate) fn add_sleepers(
    sheet: &mut Sheet,
    names: &Names,
    catalog: &Catalog,
    modules: &Modules,
    line: u64,
    sleepers: &Sleepers,
)
    requires { catalog.now.names ≡ modules.now.names }
    ensures { Adds sheet.old sheet.new (said_text names.now catalog.now line (Slept sleepers.now)) }
{
    // For the proof only: texts that are added one after the other add up.
    klp_markup::laws::what_is_added_adds_up();
    let tasks = sleepers.tasks.as_slice();
    add_span(sheet, names, line, &sleepers.to);
    add_anchors(sheet, line, tasks);
    add_tasks(sheet, names, tasks);
    add_stay(sheet, catalog, modules, sleepers, tasks.len());
}
