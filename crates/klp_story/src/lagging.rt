//! The tasks that merely lag behind a transition.
ghost use Rattle.std.specs.Prelude.{◌≡◌, ◌++◌, ◌∷◌, [], codes, length};
ghost use Rattle.klp_markup.specs.Adds.{Adds};
ghost use Rattle.klp_markup.specs.Tasks.{plural, tasks_text};
ghost use Rattle.klp_timeline.specs.Lagging.{lagging};
ghost use Rattle.klp_story.specs.End.{switching, item_text, lagging_text, all_lagging_text};

use klp_markup::{Sheet, add_tasks, plural};
use klp_names::Names;
use klp_timeline::lagging;
use klp_types::{MAX_TASKS, Mode, TaskId};

/// Returns the words for `count` tasks that lag in this mode: where they are, and when they will switch.
fn switching(mode: Mode, count: usize) -> &'static str
    ensures { result.now ≡ switching mode count }
{
    match mode {
        Mode::User => plural(
            count,
            " lags in user space: it switches once it has been in the kernel again.\n",
            " lag in user space: each switches once it has been in the kernel again.\n",
        ),
        Mode::Kernel => plural(
            count,
            " lags in the kernel: it switches as it leaves.\n",
            " lag in the kernel: each switches as it leaves.\n",
        ),
        Mode::Asleep => plural(
            count,
            " lags, asleep elsewhere: the next poll switches it.\n",
            " lag, asleep elsewhere: the next poll switches them.\n",
        ),
    }
}

/// Adds a list item on tasks that lag in this mode: which they are, where they are, and when they will switch. Adds
/// nothing if `tasks` is empty.
fn add_item(sheet: &mut Sheet, names: &Names, mode: Mode, tasks: &[TaskId])
    ensures { Adds sheet.old sheet.new (item_text names.now mode tasks.now) }
{
    // For the proof only: texts that are added one after the other add up.
    klp_markup::laws::what_is_added_adds_up();
    if tasks.is_empty() {
        return;
    }
    sheet.markup("<li><b>");
    add_tasks(sheet, names, tasks);
    sheet.markup("</b>");
    sheet.markup(switching(mode, tasks.len()));
}

/// Adds a list item on the tasks that lag in this mode without holding the transition up. Adds nothing if there is no
/// such task. `waits` has, by task number, the mode of each task that lags so.
fn add_lagging(sheet: &mut Sheet, names: &Names, mode: Mode, waits: &[Option<Mode>; MAX_TASKS])
    ensures { Adds sheet.old sheet.new (lagging_text names.now mode waits.now) }
{
    add_item(sheet, names, mode, lagging(mode, waits).as_slice());
}

/// Adds a list item for each mode in which tasks lag without holding the transition up. `waits` has, by task number,
/// the mode of each task that lags so.
pub(crate) fn add_all_lagging(sheet: &mut Sheet, names: &Names, waits: &[Option<Mode>; MAX_TASKS])
    ensures { Adds sheet.old sheet.new (all_lagging_text names.now waits.now) }
{
    // For the proof only: texts that are added one after the other add up.
    klp_markup::laws::what_is_added_adds_up();
    add_lagging(sheet, names, Mode::User, waits);
    add_lagging(sheet, names, Mode::Kernel, waits);
    add_lagging(sheet, names, Mode::Asleep, waits);
}
