//! What is proved of the sites of functions, and of the counts of callbacks. A function of this module does nothing:
//! its contract is the law.
ghost use Rattle.std.specs.Prelude.{◌≡◌, ℕ, List, Some, option_map};
ghost use Rattle.klp_types.specs.Image.{Object, object_of};
ghost use Rattle.klp_types.specs.declared.callback.Which.{Which};
ghost use Rattle.klp_types.specs.Callbacks.{Call};
ghost use Rattle.klp_modules.specs.Names.{names_of};
ghost use Rattle.klp_catalog_text.specs.Plan.{PlanFunction};
ghost use Rattle.klp_catalog.specs.Catalog.{Catalog, site_of};
ghost use Rattle.klp_catalog.specs.Runs.{objects_at, place_of, after_runs, runs_of, callback_runs, RunsAddUp};
ghost use Rattle.klp_catalog.specs.Counts.{times, grown};

/// The site that a function's name and position pick is in the function's object. The consistency of tasks needs this
/// law, since by it no function outlives its site.
pub fn sites_lie_in_their_objects()
    ensures { (objects : List Object) (object : ℕ) (function : PlanFunction) (site : ℕ)
        → site_of (names_of objects) object function ≡ Some site → object_of objects site ≡ Some object }
{}

/// When a list of callbacks has run, each callback's count has grown by the number of times that the callback is in the
/// list. A count stops at the greatest `u64`. Other counts, patches, scripts and names don't change. The clause `looks`
/// says the same of `callback_runs`, which is given the object's number instead of its index in the patch.
pub fn counts_grow_by_runs()
    ensures counts { (catalog : Catalog) (calls : List Call) (patch place : ℕ) (which : Which)
        → runs_of (after_runs catalog calls) patch place which ≡ option_map (grown (times patch place which calls))
        (runs_of catalog patch place which) }
    ensures looks { (catalog : Catalog) (calls : List Call) (patch object place : ℕ) (which : Which)
        → place_of object (objects_at catalog patch) ≡ Some place
        → callback_runs (after_runs catalog calls) patch object which ≡ option_map (grown
        (times patch place which calls)) (callback_runs catalog patch object which) }
    ensures names { (catalog : Catalog) (calls : List Call) → (after_runs catalog calls).names ≡ catalog.names }
    ensures patches { (catalog : Catalog) (calls : List Call) → (after_runs catalog calls).patches ≡ catalog.patches }
{}

/// Two lists of runs, one after the other, increase the counts as the joined list does. The empty list changes nothing.
/// So the runs of a walk over callbacks can be described as one list.
pub fn runs_add_up()
    ensures { RunsAddUp }
{}
