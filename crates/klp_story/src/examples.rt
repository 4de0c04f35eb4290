//! Worked examples of what a page says. A function here does nothing: its contract is the example. The contract is
//! proved by computing the definitions, so the proof fails if a definition gives something else.
ghost use Rattle.std.specs.Prelude.{◌≡◌, ◌++◌, ◌∷◌, [], codes, true, false, Some, None};
ghost use Rattle.klp_types.specs.declared.task.Mode.TheVariants.{User, Kernel};
ghost use Rattle.klp_timeline.specs.declared.moment.Fact.TheVariants.{Undoes, Completes};
ghost use Rattle.klp_catalog.specs.Catalog.{Catalog as AnyCatalog};
ghost use Rattle.klp_names.specs.Names.{nothing_known};
ghost use Rattle.klp_markup.specs.Tasks.{task_text, tasks_text};
ghost use Rattle.klp_story.specs.Words.{quoted_text};
ghost use Rattle.klp_story.specs.Sentences.{fact_text, span_text};
ghost use Rattle.klp_story.specs.Examples.{seen, hostile};
ghost use Rattle.klp_story.specs.End.{rest_text, held_text, lagging_text, refused_text};

/// Shows how lists of tasks are written. If a list has more than nine tasks, only the first eight are named.
pub fn tasks_are_shown_like_this()
    ensures one { tasks_text nothing_known (5 ∷ []) ≡ codes "task 5" }
    ensures two { tasks_text nothing_known (1 ∷ 12 ∷ []) ≡ codes "tasks 1 and 12" }
    ensures nine { tasks_text nothing_known (1 ∷ 2 ∷ 3 ∷ 4 ∷ 5 ∷ 6 ∷ 7 ∷ 8 ∷ 9 ∷ [])
        ≡ codes "tasks 1, 2, 3, 4, 5, 6, 7, 8 and 9" }
    ensures ten { tasks_text nothing_known (1 ∷ 2 ∷ 3 ∷ 4 ∷ 5 ∷ 6 ∷ 7 ∷ 8 ∷ 9 ∷ 10 ∷ [])
        ≡ codes "tasks 1, 2, 3, 4, 5, 6, 7, 8 and 2 more" }
{}

/// Shows the sentences on a completed transition, with and without sleepers in code that isn't called now. Also shows
/// the sentence on undone events.
pub fn facts_are_shown_like_this()
    ensures complete { (catalog : AnyCatalog) → fact_text catalog (Completes (record { patch = 0; target = true }) 0)
        ≡ quoted_text catalog 0 ++ codes ": patching complete" ++ codes ": each task calls its functions." }
    ensures forced { (catalog : AnyCatalog) → fact_text catalog (Completes (record { patch = 0; target = false }) 2)
        ≡ quoted_text catalog 0 ++ codes ": unpatching complete"
        ++ codes ", but 2 tasks slept on in code that wasn't called then." }
    ensures undone { (catalog : AnyCatalog) → fact_text catalog (Undoes 3 2)
        ≡ codes "1 event is undone: all is as it was at mark 2." }
{}

/// Shows how the lines of a stay are written. Also shows the sentences that say who holds a transition up, who lags,
/// and that nothing was done.
pub fn stays_are_shown_like_this()
    ensures line { span_text nothing_known 7 (Some 7) ≡ codes "<li><a href=\"#line-7\">Line 7</a>: " }
    ensures lines { span_text nothing_known 7 (Some 12) ≡ codes "<li><a href=\"#line-7\">Lines 7</a> to 12: " }
    ensures still { span_text nothing_known 7 None
        ≡ codes "<li class=holds>Since <a href=\"#line-7\">line 7</a>, and still: " }
    ensures held { held_text 1 ≡ codes ". 1 task holds it up." }
    ensures lagging { lagging_text nothing_known User (None ∷ Some User ∷ Some Kernel ∷ Some User ∷ [])
        ≡ codes "<li><b>tasks 1 and 3</b> lag in user space: each switches once it has been in the kernel again.\n" }
    ensures alone { lagging_text nothing_known Kernel (None ∷ Some User ∷ Some Kernel ∷ Some User ∷ [])
        ≡ codes "<li><b>task 2</b> lags in the kernel: it switches as it leaves.\n" }
    ensures refused { refused_text (Some 12) ≡ codes "Nothing was done: all 12 lines were refused. " }
    ensures one_refused { refused_text (Some 1) ≡ codes "Nothing was done: the only line was refused. " }
    ensures nothing { (catalog : AnyCatalog) → rest_text catalog []
        ≡ codes "No patch is in transition. No patch is enabled." }
{}

/// Shows how names and times are written. In the example, the name of task 2 and the times of lines 7 and 13 are known.
pub fn names_and_times_are_shown_like_this()
    ensures named { tasks_text seen (1 ∷ 2 ∷ [])
        ≡ codes "tasks 1 and 2 <bdi class=m>indexer[92]</bdi>" }
    ensures escaped { task_text hostile 2
        ≡ codes "2 <bdi class=m>&lt;script&gt;alert(1)&lt;/script&gt;</bdi>" }
    ensures lasted { span_text seen 7 (Some 12)
        ≡ codes "<li><a href=\"#line-7\">Lines 7</a> to 12 (+0.0 s for 15.1 s): " }
    ensures still { span_text seen 7 None
        ≡ codes "<li class=holds>Since <a href=\"#line-7\">line 7</a> (+0.0 s), and still: " }
    ensures unknown { span_text seen 13 (Some 13) ≡ codes "<li><a href=\"#line-13\">Line 13</a> (+15.1 s): " }
{}
