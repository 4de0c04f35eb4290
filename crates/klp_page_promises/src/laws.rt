//! The laws about the sentences on a run (`klp_timeline`), and about text of a run in a page (`klp_markup`). A function
//! of this module does nothing: its contract is the law.
ghost use Rattle.std.specs.Prelude.{◌≡◌, ◌+◌, ◌≤◌, ◌⊎◌, List, length, count_by, true, ℕ, Option, All, Contains};
ghost use Rattle.std.specs.List.{list_all};
ghost use Rattle.klp_types.specs.declared.task.Mode.{Mode as AnyMode};
ghost use Rattle.klp_timeline.specs.declared.moment.Moment.{Moment as AnyMoment};
ghost use Rattle.klp_timeline.specs.declared.moment.Sentence.{Sentence as AnySentence};
ghost use Rattle.klp_markup.specs.Escaped.{escaped};
ghost use Rattle.klp_page_promises.specs.Harmless.{is_harmless, AreShown};
ghost use Rattle.klp_timeline.specs.declared.moment.View.{View as AnyView};
ghost use Rattle.klp_timeline.specs.declared.shown.TheConstants.{MAX_SENTENCES};
ghost use Rattle.klp_timeline.specs.Lagging.{is_in, lagging, IsEachLaggardThere, IsNoLaggardMadeUp};
ghost use Rattle.klp_timeline.specs.Shown.{is_lasting, shown, left_out};
ghost use Rattle.klp_timeline.specs.Telling.{IsQuiet, IsAllShown, IsEachFactShown, IsAllTrue, IsGoingSince};

/// Each sleeper that blocks a transition, or sleeps in code that isn't called, is named.
pub fn no_sleeper_is_left_out()
    ensures { (opening : AnyView) → (run : List AnyMoment) → IsQuiet opening → IsAllShown opening run }
{
    klp_timeline::no_sleeper_is_left_out();
}

/// Each fact of each line has a sentence.
pub fn no_fact_is_left_out()
    ensures { (opening : AnyView) → (run : List AnyMoment) → IsEachFactShown opening run }
{
    klp_timeline::no_fact_is_left_out();
}

/// Each sentence is true.
pub fn no_sentence_is_made_up()
    ensures { (opening : AnyView) → (run : List AnyMoment) → IsAllTrue opening run }
{
    klp_timeline::no_sentence_is_made_up();
}

/// A transition at the end of a run has gone its way since the line that its course names.
pub fn what_moves_has_moved_since()
    ensures { (opening : AnyView) → (run : List AnyMoment) → IsGoingSince opening run }
{
    klp_timeline::what_moves_has_moved_since();
}

/// No sentence about a stay that lasts is left out, and those that are left out are counted.
pub fn what_lasts_is_shown()
    ensures lasting { (all : List AnySentence) → (one : AnySentence) → Contains all one → is_lasting one ≡ true
        → Contains (shown all) one }
    ensures count { (all : List AnySentence) → length (shown all) + left_out all ≡ length all }
    ensures short { (all : List AnySentence)
        → (length (shown all) ≤ MAX_SENTENCES) ⊎ All (λ one. is_lasting one ≡ true) (shown all) }
{
    klp_timeline::what_lasts_is_shown();
}

/// The list of tasks that lag in a mode has exactly these tasks.
pub fn who_lags_is_named()
    ensures named { (waits : List (Option AnyMode)) → IsEachLaggardThere waits }
    ensures lags { (waits : List (Option AnyMode)) → IsNoLaggardMadeUp waits }
    ensures count { (waits : List (Option AnyMode)) → (mode : AnyMode)
        → length (lagging mode waits) ≡ count_by (is_in mode) waits }
{
    klp_timeline::who_lags_is_named();
}

/// What a page shows of a text from a run is made of whole characters that act on nothing around them, and has no byte
/// that could be taken for markup, nor a control byte but line feeds.
pub fn no_text_of_a_run_acts()
    ensures shown { (text : List ℕ) → AreShown 0 (escaped text) }
    ensures harmless { (text : List ℕ) → list_all is_harmless (escaped text) ≡ true }
{}
