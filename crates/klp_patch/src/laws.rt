//! Laws of the definitions themselves. A function of this module does nothing: its contract is the law.
ghost use Rattle.std.specs.Prelude.{◌≡◌, ℕ, ◌≤◌, ◌++◌, List, Option, length};
ghost use Rattle.std.specs.List.{flat_map};
ghost use Rattle.klp_types.specs.declared.callback.Which.TheVariants.{Pre, PostUn};
ghost use Rattle.klp_types.specs.declared.version.Entry.{Entry};
ghost use Rattle.klp_types.specs.declared.version.Transition.{Transition};
ghost use Rattle.klp_types.specs.Callbacks.{calls_of, enable_calls};
ghost use Rattle.klp_types.specs.Image.{symbols_of};
ghost use Rattle.klp_types.specs.Setting.{PatchObject, Setting};
ghost use Rattle.klp_model.specs.Blocked.{blocked};
ghost use Rattle.klp_model.specs.Entries.{entries_of};
ghost use Rattle.klp_model.specs.EventCalls.{coming_may_run, going_may_run};
ghost use Rattle.klp_model.specs.ModuleCalls.{Part, coming_calls, going_calls};
ghost use Rattle.klp_model.specs.State.{State};
ghost use Rattle.klp_stack.specs.Stack.{entries_at};
ghost use Rattle.klp_patch.specs.Blocked.{blocked_at};
ghost use Rattle.klp_patch.specs.Calls.{records_of};

/// If each site's stack has the entries that the state gives the site, stacks and state give the same blocked versions.
/// So `block` may compute its set from the stacks, although the model's definitions don't mention stacks.
pub fn the_stacks_tell_what_is_blocked()
    ensures { (setting : Setting) (state : State) (move : Transition) (stacks : List (List Entry))
        → length stacks ≡ length (symbols_of setting.image.objects)
        → ((site : ℕ) → entries_at stacks site ≡ entries_of setting state site)
        → blocked_at 0 move stacks ≡ blocked setting state move }
{}

/// The callbacks that run log at most as many records as all callbacks that may run. So it is enough if there is room
/// for the records of all callbacks that may run.
pub fn runs_log_no_more_than_may_run()
    ensures enabling { (patch : ℕ) (objects : List (ℕ × PatchObject))
        → records_of (enable_calls patch objects) ≤ records_of (calls_of patch Pre objects
        ++ calls_of patch PostUn objects) }
    ensures coming { (moving : Option Transition) (parts : List Part)
        → records_of (coming_calls moving parts) ≤ records_of (flat_map (coming_may_run moving) parts) }
    ensures going { (moving : Option Transition) (parts : List Part)
        → records_of (going_calls moving parts) ≤ records_of (flat_map (going_may_run moving) parts) }
{}
