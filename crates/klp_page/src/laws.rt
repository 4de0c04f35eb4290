//! Laws about pages and views. A function here does nothing: its contract is the law.
ghost use Rattle.std.specs.Prelude.{◌≡◌, ℕ, List, None};
ghost use Rattle.klp_types.specs.Setting.{Setting};
ghost use Rattle.klp_model.specs.Opening.{opening_state};
ghost use Rattle.klp_names.specs.Names.{Names};
ghost use Rattle.klp_timeline.specs.declared.moment.View.{View as AnyView};
ghost use Rattle.klp_timeline.specs.Telling.{IsQuiet};
ghost use Rattle.klp_page.specs.Pages.{IsPageOf};
ghost use Rattle.klp_page.specs.Faithful.{IsTrueOver};
ghost use Rattle.klp_page.specs.Views.{IsView, IsStayAtEach};

/// The guarantee of every page. If a task holds the transition up after a line, a sentence about the task spans that
/// line. No sentence says that a task holds the transition up when it doesn't. The heading says how the run ends.
pub fn a_page_is_true_to_its_run()
    ensures { (text name : List ℕ) (names : Names) (script page : List ℕ) → IsPageOf text name names script page
        → IsTrueOver text names script page }
{}

/// A manager that was just booted shows no transition, and no task in a stay.
pub fn a_booted_manager_is_quiet()
    ensures { (setting : Setting) (view : AnyView) → IsView setting (opening_state setting) view
        → IsQuiet view × (view.moving ≡ None) }
{}

/// A view has an element for each task number, and the element is the stay of that task.
pub fn a_view_has_each_stay()
    ensures { IsStayAtEach }
{}
