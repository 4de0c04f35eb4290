//! Laws about the premises of the round trip. They say what follows if all premises hold, and what follows if one
//! fails. A function of this module does nothing: its contract is the law.
ghost use Rattle.std.specs.Prelude.{◌≡◌, ℕ, false, List, [], None, Result, map};
ghost use Rattle.klp_types.specs.declared.shadow.ShadowKey.{ShadowKey};
ghost use Rattle.klp_types.specs.Setting.{Setting};
ghost use Rattle.klp_model.specs.declared.event.Event.{Event};
ghost use Rattle.klp_model.specs.declared.event.Reply.{Reply};
ghost use Rattle.klp_model.specs.declared.event.Refusal.{Refusal};
ghost use Rattle.klp_model.specs.State.{State, is_installed};
ghost use Rattle.klp_model.specs.Company.{IsFairStart, AreFair, company_keys, taking_part};
ghost use Rattle.klp_model.specs.Footprint.{SameFootprint};
ghost use Rattle.klp_modules.specs.Names.{names_of};
ghost use Rattle.klp_catalog_text.specs.Plan.{PlanPatch};
ghost use Rattle.klp_catalog_text.specs.Scripts.{scripts_of};
ghost use Rattle.klp_catalog.specs.Assembled.{without_scripts};
ghost use Rattle.klp_manager_state.specs.Managed.{Managed, setting_of};
ghost use Rattle.klp_core.specs.Journaled.{Journaled};
ghost use Rattle.klp_core.specs.Taking.{answer_in};
ghost use Rattle.klp_core.specs.Withdrawal.{LeavesNoTrace, appended};
ghost use Rattle.klp_lint.specs.declared.premise.Premise.{Premise as AnyPremise};
ghost use Rattle.klp_lint.specs.Behind.{IsAnsweredBehind};
ghost use Rattle.klp_lint.specs.Premises.{ArePatchesOf, Fails, FailsOf, HoldEverywhere};

/// If a manager is booted with a plan, its patches are those of the plan. `leaves_no_trace` needs this. The manager has
/// the names of its image, the plan's patches without the scripts, and the plan's scripts in order
/// (klp_program/specs/Booted). Events don't change the setting.
pub fn a_booted_manager_has_the_patches_of_its_plan()
    ensures { (managed : Managed) (patches : List PlanPatch)
        → managed.catalog.names ≡ names_of managed.image.objects
        → map without_scripts managed.catalog.patches ≡ map without_scripts patches
        → scripts_of managed.catalog.patches ≡ scripts_of patches → ArePatchesOf (setting_of managed) patches }
{}

/// If a premise fails, the patch isn't at a fair start.
pub fn what_fails_is_no_fair_start()
    ensures { (setting : Setting) (patch : ℕ) (state : State) (premise : AnyPremise)
        → Fails setting patch state premise → IsFairStart setting patch state → ⊥ }
{
    klp_types::laws::untouched_variables_stay();
}

/// If a premise fails in the world without variables, it doesn't hold in each world that has none of the variables that
/// the callbacks touch.
pub fn what_fails_without_variables_fails_somewhere()
    ensures { (setting : Setting) (patch : ℕ) (state : State) (premise : AnyPremise)
        → FailsOf (λ _. None) (taking_part setting state patch) premise → HoldEverywhere setting patch state → ⊥ }
{
    klp_types::laws::untouched_variables_stay();
    klp_types::laws::edits_go_key_by_key();
}

/// If the list of earlier events is empty, the result of `reply_behind` is that of the definitions in the manager's own
/// state.
pub fn behind_nothing_is_now()
    ensures { (before after : Journaled) (event : Event) (result : Result Reply Refusal)
        → IsAnsweredBehind before after [] event result
        → result ≡ answer_in (setting_of before.managed) before.managed.state before.groups event }
{}

/// If the premises hold before fair events, and the patch isn't installed after these events, the patch has left no
/// trace. `Manager::run` promises this for a patch at a fair start. `leaves_no_trace` says whether the patch is at a
/// fair start.
pub fn what_is_fair_leaves_no_trace()
    ensures { (before after : Journaled) (patch : ℕ) → LeavesNoTrace before after
        → IsFairStart (setting_of before.managed) patch before.managed.state
        → AreFair (setting_of before.managed) patch
        (company_keys (setting_of before.managed) before.managed.state patch) before.managed.state
        (appended before after)
        → is_installed after.managed.state patch ≡ false
        → SameFootprint (setting_of before.managed)
        (company_keys (setting_of before.managed) before.managed.state patch) after.managed.state before.managed.state }
{}
