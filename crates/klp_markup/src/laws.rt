//! What is proved of adding text to a sheet. A function of this module does nothing: its contract is the law.
ghost use Rattle.std.specs.Prelude.{◌≡◌, ◌≤◌, ◌<◌, ◌+◌, ◌-◌, ℕ, List, [], ◌++◌, length, take, codes};
ghost use Rattle.std.specs.Fmt.{decimal};
ghost use Rattle.klp_names.specs.Names.{Names};
ghost use Rattle.klp_markup.specs.declared.tasks.TheConstants.{MAX_NAMED};
ghost use Rattle.klp_markup.specs.Adds.{Written, Adds};
ghost use Rattle.klp_markup.specs.Tasks.{names_text, each_text, tasks_text};

/// Adding two texts one after the other has the same effect as adding the joined text. A call that adds nothing adds
/// the empty text. So for a function that adds ten pieces, there is only one fact to prove.
pub fn what_is_added_adds_up()
    ensures adds_up { (a b c : Written) (t u : List ℕ) → Adds a b t → Adds b c u → Adds a c (t ++ u) }
    ensures nothing { (a : Written) → Adds a a [] }
{}

/// A list of few tasks names each task. A list of many tasks names only the first tasks, and then has the number of
/// tasks that it doesn't name.
pub fn a_list_of_tasks_leaves_nobody_out()
    ensures few { (names : Names) (tasks : List ℕ) → length tasks ≤ MAX_NAMED + 1
        → tasks_text names tasks ≡ each_text names tasks }
    ensures many { (names : Names) (tasks : List ℕ) → MAX_NAMED + 1 < length tasks → tasks_text names tasks
        ≡ codes "tasks " ++ names_text names (length tasks) 0 (take MAX_NAMED tasks)
        ++ (codes " and " ++ decimal (length tasks - MAX_NAMED) ++ codes " more") }
{}
