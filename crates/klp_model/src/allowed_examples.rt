//! Worked examples of allowed states. For each condition there is a state that breaks it. A function of this module
//! does nothing. The function's contract is the example, which is proved by computing the definition.
ghost use Rattle.std.specs.Prelude.{◌≡◌, ◌≤◌, pos, negsuc, true, false, [], ◌∷◌, Some, None};
ghost use Rattle.std.specs.FinMap as finite;
ghost use Rattle.klp_types.specs.declared.version.Version.TheVariants.{Original, New};
ghost use Rattle.klp_types.specs.declared.task.Mode.TheVariants.{Kernel};
ghost use Rattle.klp_types.specs.Setting.{Setting};
ghost use Rattle.klp_model.specs.State.{State};
ghost use Rattle.klp_model.specs.Allowed.{Allowed};
ghost use Rattle.klp_model.specs.Examples.{small_kernel, faulty, alone, move_of, installed, state_with, with_states};
ghost use Rattle.klp_model.specs.Examples.{in_user, asleep_in};

/// States that are allowed. While a cumulative patch is in transition, it may be above other patches. If it is the
/// oldest, it may be below others. A sleeper may be inside of functions that aren't loaded.
pub fn these_states_are_allowed()
    ensures replacing { Allowed small_kernel
        (state_with false (0 ∷ 1 ∷ []) (move_of 1 true) (alone (asleep_in (pos 1) (New 1 0 ∷ Original 2 ∷ [])))) }
    ensures withdrawn { Allowed small_kernel
        (state_with true (0 ∷ 1 ∷ []) (move_of 1 false) (alone (asleep_in (pos 0) []))) }
    ensures replaced { Allowed small_kernel (state_with true (1 ∷ 2 ∷ []) None (alone (in_user (negsuc 0)))) }
{}

/// States that the manager never reaches. Each of them breaks one condition of an allowed state.
pub fn these_states_are_never_reached()
    ensures no_kernel { Allowed small_kernel (record (state_with true [] None (alone None)) { loaded = false ∷ true ∷ [] }) → ⊥ }
    ensures unknown { Allowed small_kernel (state_with true (0 ∷ 4 ∷ []) None (alone None)) → ⊥ }
    ensures twice { Allowed small_kernel (state_with true (2 ∷ 0 ∷ 0 ∷ []) None (alone None)) → ⊥ }
    ensures twice_apart { Allowed small_kernel (state_with true (0 ∷ 2 ∷ 0 ∷ []) None (alone None)) → ⊥ }
    ensures moves_away { Allowed small_kernel (state_with true (0 ∷ []) (move_of 2 true) (alone None)) → ⊥ }
    ensures not_replaced { Allowed small_kernel (state_with true (0 ∷ 1 ∷ []) None (alone None)) → ⊥ }
    ensures under_another { Allowed small_kernel (state_with true (0 ∷ 1 ∷ 2 ∷ []) (move_of 1 true) (alone None)) → ⊥ }
    ensures above_another { Allowed small_kernel (state_with true (0 ∷ 2 ∷ 1 ∷ []) (move_of 2 true) (alone None)) → ⊥ }
    ensures lacks_symbol { Allowed (faulty 0)
        (record (with_states (installed 0 ∷ installed 1 ∷ []) (move_of 1 true)) { tasks = alone None }) → ⊥ }
    ensures moves_at_rest { Allowed small_kernel (state_with true [] None (alone (in_user (pos 1)))) → ⊥ }
    ensures below_rest { Allowed small_kernel (state_with true [] None (alone (in_user (negsuc 1)))) → ⊥ }
    ensures rests_in_transition { Allowed small_kernel
        (state_with true (0 ∷ []) (move_of 0 true) (alone (in_user (negsuc 0)))) → ⊥ }
    ensures beyond_the_target { Allowed small_kernel
        (state_with true (0 ∷ []) (move_of 0 true) (alone (in_user (pos 2)))) → ⊥ }
    ensures frames_awake { Allowed small_kernel
        (state_with true [] None (alone (Some (record { state = negsuc 0; mode = Kernel; frames = Original 0 ∷ [] })))) → ⊥ }
    ensures no_such_frame { Allowed small_kernel (state_with true [] None (alone (asleep_in (negsuc 0) (Original 3 ∷ [])))) → ⊥ }
    ensures second_task { Allowed small_kernel (state_with true [] None (None ∷ alone (in_user (pos 1)))) → ⊥ }
    ensures full { (setting : Setting) (state : State) → Allowed setting state → finite.len state.world.shadow ≤ 512 }
    ensures objects { Allowed small_kernel (record (state_with true [] None (alone None)) { loaded = true ∷ [] }) → ⊥ }
    ensures rows { Allowed small_kernel (state_with true [] None []) → ⊥ }
    ensures flags { Allowed small_kernel (record (state_with true [] None (alone None)) { pinned = [] }) → ⊥ }
{}
