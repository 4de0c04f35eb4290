//! Laws about the sentences on a run. No sentence is missing, and all sentences are true. A function of this module
//! does nothing: its contract is the law.
ghost use Rattle.klp_timeline.specs.declared.moment.Moment.{Moment as AnyMoment};
ghost use Rattle.klp_timeline.specs.declared.moment.View.{View as AnyView};
ghost use Rattle.klp_timeline.specs.declared.moment.Sentence.{Sentence as AnySentence};
ghost use Rattle.std.specs.Prelude.{◌≡◌, ◌+◌, ◌≤◌, ◌⊎◌, List, length, count_by, true, Option, All, Contains};
ghost use Rattle.klp_timeline.specs.declared.shown.TheConstants.{MAX_SENTENCES};
ghost use Rattle.klp_types.specs.declared.task.Mode.{Mode as AnyMode};
ghost use Rattle.klp_timeline.specs.Lagging.{is_in, lagging, IsEachLaggardThere, IsNoLaggardMadeUp};
ghost use Rattle.klp_timeline.specs.Telling.{IsQuiet, IsAllShown, IsEachFactShown, IsAllTrue, IsGoingSince};
ghost use Rattle.klp_timeline.specs.Shown.{is_lasting, shown, left_out};

/// Suppose that after some line of a run, a task blocks the transition or sleeps inside of code that its calls wouldn't
/// run. Then a sentence that spans the line names the task.
pub fn no_sleeper_is_left_out()
    ensures { (opening : AnyView) → (run : List AnyMoment) → IsQuiet opening → IsAllShown opening run }
{}

/// Each fact of each line has a sentence.
pub fn no_fact_is_left_out()
    ensures { (opening : AnyView) → (run : List AnyMoment) → IsEachFactShown opening run }
{}

/// Each sentence is true. If it has a fact, the fact is one of its line. If it is about tasks, each of its tasks is in
/// the stay after each line that the sentence spans.
pub fn no_sentence_is_made_up()
    ensures { (opening : AnyView) → (run : List AnyMoment) → IsAllTrue opening run }
{}

/// Suppose there is a transition at the end of a run, and its course names a line. Then the transition had the same
/// patch and target after that line and after every later line. If the course names no line, the transition had them
/// after every line of the run.
pub fn what_moves_has_moved_since()
    ensures { (opening : AnyView) → (run : List AnyMoment) → IsGoingSince opening run }
{}

/// If there are too many sentences, some are left out, and their number is counted. No sentence about a stay that lasts
/// until the end of the run is left out.
pub fn what_lasts_is_shown()
    ensures lasting { (all : List AnySentence) → (one : AnySentence) → Contains all one → is_lasting one ≡ true
        → Contains (shown all) one }
    ensures count { (all : List AnySentence) → length (shown all) + left_out all ≡ length all }
    ensures short { (all : List AnySentence)
        → (length (shown all) ≤ MAX_SENTENCES) ⊎ All (λ one. is_lasting one ≡ true) (shown all) }
{}

/// The list of tasks that lag in a mode has exactly the tasks that lag in that mode. Its length is the number of tasks
/// that do.
pub fn who_lags_is_named()
    ensures named { (waits : List (Option AnyMode)) → IsEachLaggardThere waits }
    ensures lags { (waits : List (Option AnyMode)) → IsNoLaggardMadeUp waits }
    ensures count { (waits : List (Option AnyMode)) → (mode : AnyMode)
        → length (lagging mode waits) ≡ count_by (is_in mode) waits }
{}
