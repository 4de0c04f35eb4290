//! Sentences on the transition under way at the end of a run, or on the lack of one.
ghost use Rattle.std.specs.Prelude.{◌≡◌, ◌++◌, ◌∷◌, [], codes, count_by};
ghost use Rattle.std.specs.Fmt.{decimal};
ghost use Rattle.klp_markup.specs.Adds.{Adds};
ghost use Rattle.klp_markup.specs.Times.{line_time};
ghost use Rattle.klp_timeline.specs.Course.{course_of};
ghost use Rattle.klp_story.specs.Words.{link_text, quoted_text};
ghost use Rattle.klp_story.specs.End.{way, since_text, forced_text, is_holding, held_text, also_text, enabled_text};
ghost use Rattle.klp_story.specs.End.{rest_text, state_text, outdated_text};

use crate::words::{add_counted, add_link, add_patch};
use klp_catalog::Catalog;
use klp_markup::{Sheet, add_line_time};
use klp_names::Names;
use klp_timeline::{Course, Since, Stay, View};
use klp_types::{PatchId, Transition};

/// Returns what follows a patch's name while the patch is in transition. `target` is true for patching.
fn way(target: bool) -> &'static str
    ensures { result.now ≡ way target }
{
    if target {
        " is in transition, patching"
    } else {
        " is in transition, unpatching"
    }
}

/// Adds since which line and time the transition has its target. Says `at least` if events were undone with this line:
/// the transition may have had its target before. Adds nothing if it had its target already before the run (`None`).
fn add_since(sheet: &mut Sheet, names: &Names, since: &Option<Since>)
    ensures { Adds sheet.old sheet.new (since_text names.now since.now) }
{
    // For the proof only: texts that are added one after the other add up.
    klp_markup::laws::what_is_added_adds_up();
    match *since {
        None => {}
        Some(Since::Turned(line)) => {
            sheet.markup(" since ");
            add_link(sheet, "line ", line);
            add_line_time(sheet, names, line);
        }
        Some(Since::Undone(line)) => {
            sheet.markup(" since ");
            add_link(sheet, "line ", line);
            add_line_time(sheet, names, line);
            sheet.markup(" at least, where events were undone");
        }
    }
}

/// Returns the words for a forced transition, or nothing if the transition wasn't forced.
fn forced(is_forced: bool) -> &'static str
    ensures { result.now ≡ forced_text is_forced }
{
    if is_forced { ", and was forced" } else { "" }
}

/// Returns how many tasks hold the transition up. `stays` has the stay of each task.
fn holding(stays: &[Option<Stay>]) -> usize
    ensures { result ≡ count_by is_holding stays.now }
{
    let mut count = 0;
    for stay in stays {
        if matches!(stay, Some(Stay::Holds(_, _))) {
            count += 1;
        }
    }
    count
}

/// Ends the sentence on the transition under way, and adds the sentence on how many tasks hold it up. `count` is their
/// number.
fn add_held(sheet: &mut Sheet, count: usize)
    ensures { Adds sheet.old sheet.new (held_text count) }
{
    // For the proof only: texts that are added one after the other add up.
    klp_markup::laws::what_is_added_adds_up();
    if count == 0 {
        sheet.markup(". Nobody holds it up.");
    } else {
        add_counted(
            sheet,
            ". ",
            count,
            " task holds it up.",
            " tasks hold it up.",
        );
    }
}

/// Adds two sentences on the transition under way. The first has its patch, its target, since when it has this target,
/// and whether it was forced. The second has the number of tasks that hold it up, `holders`.
fn add_moving(
    sheet: &mut Sheet,
    names: &Names,
    catalog: &Catalog,
    moving: &Transition,
    course: &Course,
    holders: usize,
)
    ensures { Adds sheet.old sheet.new (quoted_text catalog.now moving.now.patch ++ way moving.now.target
        ++ since_text names.now course.now.since ++ forced_text course.now.is_forced ++ held_text holders) }
{
    // For the proof only: texts that are added one after the other add up.
    klp_markup::laws::what_is_added_adds_up();
    add_patch(sheet, catalog, moving.patch);
    sheet.markup(way(moving.target));
    add_since(sheet, names, &course.since);
    sheet.markup(forced(course.is_forced));
    add_held(sheet, holders);
}

/// Adds the names of patches that follow another patch in a list: a comma stands before each name.
fn add_also(sheet: &mut Sheet, catalog: &Catalog, patches: &[PatchId])
    ensures { Adds sheet.old sheet.new (also_text catalog.now patches.now) }
{
    // For the proof only: texts that are added one after the other add up.
    klp_markup::laws::what_is_added_adds_up();
    for patch in patches {
        sheet.markup(", ");
        add_patch(sheet, catalog, *patch);
    }
}

/// Adds the sentence that lists the enabled patches, or that no patch is enabled if there are none in `patches`.
fn add_enabled(sheet: &mut Sheet, catalog: &Catalog, patches: &[PatchId])
    ensures { Adds sheet.old sheet.new (enabled_text catalog.now patches.now) }
{
    // For the proof only: texts that are added one after the other add up.
    klp_markup::laws::what_is_added_adds_up();
    match patches {
        [] => sheet.markup(" No patch is enabled."),
        [first, others @ ..] => {
            sheet.markup(" Enabled: ");
            add_patch(sheet, catalog, *first);
            add_also(sheet, catalog, others);
            sheet.markup(".");
        }
    }
}

/// Adds what the heading says if no patch is in transition: a sentence for just that, and a sentence that lists the
/// enabled patches, `patches`.
fn add_no_transition(sheet: &mut Sheet, catalog: &Catalog, patches: &[PatchId])
    ensures { Adds sheet.old sheet.new (rest_text catalog.now patches.now) }
{
    // For the proof only: texts that are added one after the other add up.
    klp_markup::laws::what_is_added_adds_up();
    sheet.markup("No patch is in transition.");
    add_enabled(sheet, catalog, patches);
}

/// Adds the sentences on the transition under way. If no transition is under way, adds a sentence that says so and a
/// sentence that lists the enabled patches. `view` is the state at the end of the run, and `course` the course of its
/// transition.
pub(crate) fn add_state(
    sheet: &mut Sheet,
    names: &Names,
    catalog: &Catalog,
    view: &View,
    course: &Course,
)
    ensures { Adds sheet.old sheet.new (state_text names.now catalog.now view.now course.now view.now.moving) }
{
    // For the proof only: texts that are added one after the other add up.
    klp_markup::laws::what_is_added_adds_up();
    match &view.moving {
        // Without a transition, the installed patches are the enabled ones.
        None => add_no_transition(sheet, catalog, view.installed.as_slice()),
        Some(moving) => {
            add_moving(sheet, names, catalog, moving, course, holding(&view.stays));
        }
    }
}

/// Adds the sentence on how many tasks sleep in code that isn't called now. Adds nothing if `count` is 0.
pub(crate) fn add_outdated(sheet: &mut Sheet, count: usize)
    ensures { Adds sheet.old sheet.new (outdated_text count) }
{
    // For the proof only: texts that are added one after the other add up.
    klp_markup::laws::what_is_added_adds_up();
    if count > 0 {
        add_counted(
            sheet,
            " ",
            count,
            " task sleeps in code that isn't called now.",
            " tasks sleep in code that isn't called now.",
        );
    }
}
