//! Lists of tasks.
ghost use Rattle.std.specs.Prelude.{◌≡◌, ◌==◌, ◌++◌, ◌∷◌, [], ◌+◌, ◌-◌, ◌<◌, ◌≤◌, ◌^◌, codes, length, if◌then◌else◌};
ghost use Rattle.std.specs.Fmt.{decimal};
ghost use Rattle.klp_markup.specs.Adds.{Adds};
ghost use Rattle.klp_markup.specs.Tasks.{plural, named, join, task_text, names_text, more_text, each_text, tasks_text};

use crate::called::add_called;
use crate::sheet::Sheet;
use klp_names::Names;
use klp_types::TaskId;

/// How many tasks a shortened list names. It counts the others.
pub const MAX_NAMED: usize = 8;

/// Returns the word `one` if `count` is 1, and the word `more` otherwise.
pub fn plural(count: usize, one: &'static str, more: &'static str) -> &'static str
    ensures { result.now ≡ plural count one.now more.now }
{
    if count == 1 { one } else { more }
}

/// Returns how many of `count` tasks a list names: the first [`MAX_NAMED`] if it is shortened, otherwise all. A list of
/// one task more than [`MAX_NAMED`] isn't shortened, so no list ends with "and 1 more".
fn named(count: usize) -> usize
    ensures { result ≡ named count }
{
    if count > MAX_NAMED + 1 {
        MAX_NAMED
    } else {
        count
    }
}

/// Returns what stands between the task at `place` in a list and the task before it: " and " before the last of all
/// `count` tasks, nothing before the first task, and a comma otherwise. A shortened list doesn't name the last task, so
/// it has only commas.
fn join(place: usize, count: usize) -> &'static str
    requires { place < count }
    ensures { result.now ≡ join place count }
{
    if place == 0 {
        ""
    } else if place == count - 1 {
        " and "
    } else {
        ", "
    }
}

/// Adds a task's number, and the task's name if it is known.
pub fn add_task(sheet: &mut Sheet, names: &Names, task: TaskId)
    ensures { Adds sheet.old sheet.new (task_text names.now task) }
{
    // For the proof only: texts that are added one after the other add up.
    crate::laws::what_is_added_adds_up();
    sheet.number(u64::from(task.0));
    add_called(sheet, names.name(task));
}

/// Adds the tasks that a list names, each with its number and its name. `tasks` are the first of the list's `count`
/// tasks.
fn add_names(sheet: &mut Sheet, names: &Names, count: usize, tasks: &[TaskId])
    requires { length tasks.now ≤ count }
    ensures { Adds sheet.old sheet.new (names_text names.now count 0 tasks.now) }
{
    // For the proof only: texts that are added one after the other add up.
    crate::laws::what_is_added_adds_up();
    for place in 0..tasks.len() {
        let task = tasks[place];
        sheet.markup(join(place, count));
        add_task(sheet, names, task);
    }
}

/// Adds how many tasks a shortened list leaves out: ` and 14 more`. Adds nothing if `count` is 0: the list names all
/// tasks.
fn add_more(sheet: &mut Sheet, count: usize)
    ensures { Adds sheet.old sheet.new (more_text count) }
{
    // For the proof only: texts that are added one after the other add up.
    crate::laws::what_is_added_adds_up();
    if count > 0 {
        sheet.markup(" and ");
        sheet.number(count as u64);
        sheet.markup(" more");
    }
}

/// Adds a list of tasks that names all of them: `task 1`, or `tasks 1, 2 and 3`.
#[tactic(auto, unfolding(crate::specs::Tasks::each_text))]
pub fn add_each_task(sheet: &mut Sheet, names: &Names, tasks: &[TaskId])
    ensures { Adds sheet.old sheet.new (each_text names.now tasks.now) }
{
    // For the proof only: texts that are added one after the other add up.
    crate::laws::what_is_added_adds_up();
    let count = tasks.len();
    sheet.markup(plural(count, "task ", "tasks "));
    add_names(sheet, names, count, tasks);
}

/// Adds a list of tasks: `task 1`, or `tasks 1, 2 and 3`. A list of more than nine tasks is shortened: it names the
/// first eight, and counts the others: `tasks 1, 2, .. and 14 more`.
#[tactic(auto, unfolding(crate::specs::Tasks::tasks_text))]
pub fn add_tasks(sheet: &mut Sheet, names: &Names, tasks: &[TaskId])
    ensures { Adds sheet.old sheet.new (tasks_text names.now tasks.now) }
{
    // For the proof only: texts that are added one after the other add up.
    crate::laws::what_is_added_adds_up();
    let count = tasks.len();
    let named = named(count);
    sheet.markup(plural(count, "task ", "tasks "));
    add_names(sheet, names, count, &tasks[..named]);
    add_more(sheet, count - named);
}
