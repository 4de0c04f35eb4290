//! Worked examples. Some show that fair companies exist, so that the laws don't hold only for lack of one. Other
//! examples show what is lost if a premise doesn't hold. A function of this module does nothing. The function's
//! contract is the example, which is proved by computing the definition.
ghost use Rattle.std.specs.Prelude.{◌≡◌, pos, true, false, [], ◌∷◌, find, is_some, Some, None};
ghost use Rattle.klp_types.specs.declared.callback.Which.TheVariants.{Pre, Post, PreUn, PostUn};
ghost use Rattle.klp_types.specs.World.{variable};
ghost use Rattle.klp_model.specs.declared.event.Event.TheVariants.{Enable, SetEnabled, Force, Poll, Coming, Going};
ghost use Rattle.klp_model.specs.declared.event.Event.TheVariants.{ShadowAlloc, ShadowFree};
ghost use Rattle.klp_model.specs.State.{State, is_installed, with_world};
ghost use Rattle.klp_model.specs.ShadowStep.{shadow_changed, shadow_changes, concerns};
ghost use Rattle.klp_types.specs.Callbacks.{refuses};
ghost use Rattle.klp_model.specs.Callbacks.{loaded_objects};
ghost use Rattle.klp_model.specs.Run.{run};
ghost use Rattle.klp_model.specs.Allowed.{Allowed};
ghost use Rattle.klp_model.specs.Company.{object_touches, taking_part, company_keys, EachUndoes, drops_older};
ghost use Rattle.klp_model.specs.Company.{IsOfCompany, IsFairEvent, IsFairStart, IsFairCompany};
ghost use Rattle.klp_model.specs.Examples.{small_kernel, move_of, in_kernel, state_with, with_state, with_states};
ghost use Rattle.klp_model.specs.Footprint.{SameFootprint};
ghost use Rattle.klp_model.specs.RoundTripExamples.{key_of, value_of, adding, bare, with_a_sleeper, every_stage};
ghost use Rattle.klp_model.specs.RoundTripExamples.{own_variable_first, refusing_behind, both_loaded, sharing};
ghost use Rattle.klp_model.specs.RoundTripExamples.{with_five, there_and_back, freeing};

/// A fair company with every stage. A cumulative patch is enabled, blocked by a sleeper, reversed twice, completed,
/// disabled, and polled until it isn't installed any more. Meanwhile a variable is added that the patch doesn't touch.
/// So the laws cover all these stages.
pub fn a_fair_company_goes_through_every_stage()
    ensures allowed { Allowed adding with_a_sleeper }
    ensures fair { IsFairCompany adding 0 with_a_sleeper every_stage }
    ensures gone { is_installed (run adding with_a_sleeper every_stage) 0 ≡ false }
{}

/// A variable that the patch's callbacks touch exists before the patch is enabled. Pre-patch leaves the variable as it
/// is, and post-unpatch removes it, so the variable is lost. This company isn't fair, for two reasons. The event that
/// adds the variable concerns a variable of the patch's callbacks. After that event the callbacks don't undo each
/// other.
pub fn a_variable_that_was_there_is_lost()
    ensures gone { is_installed (run adding bare own_variable_first) 0 ≡ false }
    ensures lost { variable (run adding bare own_variable_first).world (key_of 1 9) ≡ None }
    ensures expected { variable (shadow_changes bare.world own_variable_first) (key_of 1 9) ≡ Some (value_of 77) }
    ensures of_the_company { company_keys adding bare 0 (key_of 1 9) ≡ true }
    ensures concerned { concerns (ShadowAlloc (key_of 1 9) (value_of 77)) (key_of 1 9) ≡ true }
    ensures not_undone { EachUndoes 0 (shadow_changed bare.world (ShadowAlloc (key_of 1 9) (value_of 77)))
        (taking_part adding bare 0) → ⊥ }
{}

/// Two objects whose callbacks share a variable. The callbacks of each object undo each other. Still the variable has
/// another value when the patch isn't installed any more. The reason is that objects are cleaned up in the order in
/// which they were set up, not in reverse.
pub fn objects_that_share_a_variable_leave_a_trace()
    ensures undone { EachUndoes 0 with_five.world (taking_part sharing with_five 0) }
    ensures before { variable with_five.world (key_of 1 1) ≡ Some (value_of 5) }
    ensures gone { is_installed (run sharing with_five there_and_back) 0 ≡ false }
    ensures after { variable (run sharing with_five there_and_back).world (key_of 1 1) ≡ Some (value_of 9) }
{}

/// A patch whose second object refuses is removed at once. The company that only enables this patch is fair. The first
/// object takes part, since it was set up and cleaned up. The second object refuses.
pub fn a_refused_patch_is_a_fair_company()
    ensures fair { IsFairCompany refusing_behind 0 both_loaded (Enable 0 ∷ []) }
    ensures refuses { is_some (find refuses (loaded_objects refusing_behind both_loaded 0)) ≡ true }
    ensures gone { is_installed (run refusing_behind both_loaded (Enable 0 ∷ [])) 0 ≡ false }
{}

/// The variables of an object are all variables that at least one of its callbacks touches.
pub fn variables_of_each_callback_count()
    ensures pre { object_touches (key_of 1 9) (0, freeing Pre) ≡ true }
    ensures post { object_touches (key_of 1 9) (0, freeing Post) ≡ true }
    ensures pre_unpatch { object_touches (key_of 1 9) (0, freeing PreUn) ≡ true }
    ensures post_unpatch { object_touches (key_of 1 9) (0, freeing PostUn) ≡ true }
    ensures another { object_touches (key_of 2 9) (0, freeing Pre) ≡ false }
{}

/// A footprint shows the loaded modules, the installed patches in their order with the values of their states, the
/// pinned patches, and the values of the variables.
pub fn a_footprint_shows_each_trace()
    ensures module { SameFootprint small_kernel (λ key. false) (state_with true [] None []) (state_with false [] None []) → ⊥ }
    ensures order { SameFootprint small_kernel (λ key. false) (state_with true (0 ∷ 2 ∷ []) None [])
        (state_with true (2 ∷ 0 ∷ []) None []) → ⊥ }
    ensures value { SameFootprint small_kernel (λ key. false) (with_states (with_state 0 5 ∷ []) None)
        (with_states (with_state 0 6 ∷ []) None) → ⊥ }
    ensures pin { SameFootprint small_kernel (λ key. false)
        (record (state_with true [] None []) { pinned = true ∷ false ∷ false ∷ false ∷ [] }) (state_with true [] None []) → ⊥ }
    ensures variable { SameFootprint adding (λ key. true)
        (with_world bare (shadow_changed bare.world (ShadowAlloc (key_of 1 9) (value_of 77)))) bare → ⊥ }
{}

/// What makes a company of a patch unfair: an event of another patch or of a module, a force, a change of a variable of
/// the patch's callbacks, a refused event, or a replacement of older patches. A company is also unfair if there is a
/// transition at the start, or if the patch is installed at the start.
pub fn these_companies_are_unfair()
    ensures another { IsOfCompany 0 (λ key. false) (Enable 1) → ⊥ }
    ensures another_disabled { IsOfCompany 0 (λ key. false) (SetEnabled 1 false) → ⊥ }
    ensures forced { IsOfCompany 0 (λ key. false) (Force 0) → ⊥ }
    ensures comes { IsOfCompany 0 (λ key. false) (Coming 1) → ⊥ }
    ensures goes { IsOfCompany 0 (λ key. false) (Going 1) → ⊥ }
    ensures own_variable { IsOfCompany 0 (company_keys adding bare 0) (ShadowFree (key_of 1 9)) → ⊥ }
    ensures refused { IsFairEvent adding 0 (λ key. false) bare Poll → ⊥ }
    ensures starts_moving { IsFairStart small_kernel 2 (state_with true (0 ∷ []) (move_of 0 true) []) → ⊥ }
    ensures starts_installed { IsFairStart small_kernel 0 (state_with true (0 ∷ []) None []) → ⊥ }
    ensures drops { drops_older small_kernel (state_with true (0 ∷ 1 ∷ []) (move_of 1 true) []) Poll ≡ true }
    ensures oldest { drops_older small_kernel (state_with true (1 ∷ 2 ∷ []) (move_of 1 true) []) Poll ≡ false }
    ensures withdrawn { drops_older small_kernel (state_with true (0 ∷ 1 ∷ []) (move_of 1 false) []) Poll ≡ false }
    ensures beside { drops_older small_kernel (state_with true (0 ∷ 2 ∷ []) (move_of 2 true) []) Poll ≡ false }
    ensures pending { drops_older small_kernel (state_with true (0 ∷ 1 ∷ []) (move_of 1 true) (in_kernel (pos 0) ∷ [])) Poll
        ≡ false }
{}
