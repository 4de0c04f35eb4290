//! Worked examples of the definitions. A function of this module does nothing. The function's contract is the example,
//! which is proved by computing the definition. The examples are in the crate and not in its tests, since a test proves
//! nothing of a definition (docs/DECISIONS.md, "Tests above what they test").
ghost use Rattle.std.specs.Prelude.{◌≡◌, pos, negsuc, true, false, [], ◌∷◌, replicate, Some, None};
ghost use Rattle.klp_types.specs.declared.callback.Which.TheVariants.{Pre, Post, PreUn, PostUn};
ghost use Rattle.klp_types.specs.declared.version.Version.TheVariants.{Original, New};
ghost use Rattle.klp_types.specs.World.{state_value};
ghost use Rattle.klp_types.specs.Examples.{key_of, ran, refusing_in};
ghost use Rattle.klp_model.specs.declared.event.Event.TheVariants.{Enable, SetEnabled, Force, Poll, Coming, Going};
ghost use Rattle.klp_model.specs.declared.event.Event.TheVariants.{NewTask, Fork, EndTask, EnterKernel, ExitToUser};
ghost use Rattle.klp_model.specs.declared.event.Event.TheVariants.{Sleep, Wake, ShadowAlloc, ShadowGetOrAlloc};
ghost use Rattle.klp_model.specs.declared.event.Event.TheVariants.{ShadowFree, ShadowFreeAll};
ghost use Rattle.klp_model.specs.declared.event.Reply.TheVariants.{Done, Started, Reversed, Pending, Completed};
ghost use Rattle.klp_model.specs.declared.event.Reply.TheVariants.{PreFailed, Woken};
ghost use Rattle.klp_model.specs.declared.event.Refusal.TheVariants.{NoPatch, Busy, AlreadyThere, Pinned, Incompatible};
ghost use Rattle.klp_model.specs.declared.event.Refusal.TheVariants.{NoSymbol, NoModule, InUse, NoTask, TaskThere};
ghost use Rattle.klp_model.specs.declared.event.Refusal.TheVariants.{WrongMode, BadFrame, Full, NotMoving, NotFound};
ghost use Rattle.klp_model.specs.declared.event.Refusal.TheVariants.{SameValue};
ghost use Rattle.klp_model.specs.State.{State, is_loaded, installed_patches};
ghost use Rattle.klp_model.specs.Entries.{entries_of, is_hooked};
ghost use Rattle.klp_model.specs.Bytes.{text_of};
ghost use Rattle.klp_model.specs.Pick.{pick};
ghost use Rattle.klp_model.specs.Rows.{row_of};
ghost use Rattle.klp_model.specs.Blocked.{blocked};
ghost use Rattle.klp_model.specs.Callbacks.{status_of};
ghost use Rattle.klp_model.specs.EventCalls.{calls};
ghost use Rattle.klp_model.specs.Opening.{opening_state};
ghost use Rattle.klp_model.specs.ShadowStep.{concerns};
ghost use Rattle.klp_model.specs.Refusals.{enabled_value, refusal};
ghost use Rattle.klp_model.specs.Step.{accepted};
ghost use Rattle.klp_model.specs.Examples.{small_kernel, module_kernel, taking_over, lacking, crowded, crowded_by};
ghost use Rattle.klp_model.specs.Examples.{faulty, alone, move_of, state_with, with_state, with_states, in_user};
ghost use Rattle.klp_model.specs.Examples.{in_kernel, asleep_in, ran_by};

/// A reversal runs no callback, towards either target, and the tasks keep their patch states. All effects of earlier
/// callbacks stay, and each task is switched back from its present state.
pub fn a_reversal_runs_nothing()
    ensures enabling { calls small_kernel (state_with true (0 ∷ []) (move_of 0 true) []) (SetEnabled 0 false) ≡ [] }
    ensures disabling { calls small_kernel (state_with true (0 ∷ []) (move_of 0 false) []) (SetEnabled 0 true) ≡ [] }
    ensures reply { (accepted small_kernel (state_with true (0 ∷ []) (move_of 0 true) []) (SetEnabled 0 false)).0
        ≡ Reversed }
    ensures next { (accepted small_kernel (state_with true (0 ∷ []) (move_of 0 true) (in_kernel (pos 1) ∷ []))
        (SetEnabled 0 false)).1
        ≡ state_with true (0 ∷ []) (move_of 0 false) (in_kernel (pos 1) ∷ []) }
{}

/// Disabling starts with pre-unpatch. At that time every task still runs the patch, since all entries of the patch are
/// still there.
pub fn a_disabling_starts_with_pre_unpatch()
    ensures runs { ran (calls small_kernel (state_with true (0 ∷ []) None []) (SetEnabled 0 false))
        ≡ (0, PreUn) ∷ (1, PreUn) ∷ [] }
    ensures unloaded { ran (calls small_kernel (state_with false (0 ∷ []) None []) (SetEnabled 0 false))
        ≡ (0, PreUn) ∷ [] }
    ensures of_the_patch { ran_by (calls small_kernel (state_with true (0 ∷ 2 ∷ []) None []) (SetEnabled 2 false))
        ≡ (2, PreUn) ∷ [] }
    ensures reply { (accepted small_kernel (state_with true (0 ∷ []) None []) (SetEnabled 0 false)).0 ≡ Started }
    ensures next { (accepted small_kernel (state_with true (0 ∷ []) None (in_kernel (negsuc 0) ∷ []))
        (SetEnabled 0 false)).1
        ≡ state_with true (0 ∷ []) (move_of 0 false) (in_kernel (pos 1) ∷ []) }
{}

/// Enabling runs pre-patch for the patch's objects in order, up to the first object that refuses. Then post-unpatch
/// runs for the objects before that one, so that every successful pre-patch is cleaned up. Objects that aren't loaded
/// are skipped. Afterwards the patch isn't installed, and there is no transition.
pub fn objects_before_the_one_that_refuses_get_post_unpatch()
    ensures runs { ran
        (calls (refusing_in 1)
        (record {
          loaded = true ∷ true ∷ true
              ∷ [];
          world = (state_with true [] None []).world;
          moving = None;
          pinned = false ∷ [];
          tasks = [];
        }) (Enable 0))
        ≡ (0, Pre) ∷ (1, Pre) ∷ (2, Pre) ∷ (0, PostUn) ∷ (1, PostUn) ∷ [] }
    ensures unloaded { ran
        (calls (refusing_in 2)
        (record {
          loaded = true ∷ true ∷ false
              ∷ [];
          world = (state_with true [] None []).world;
          moving = None;
          pinned = false ∷ [];
          tasks = [];
        }) (Enable 0))
        ≡ (1, Pre) ∷ (2, Pre) ∷ [] }
    ensures reply { (accepted small_kernel (state_with true [] None []) (Enable 3)).0 ≡ PreFailed 3 1 (negsuc 11) }
    ensures no_callback { status_of None ≡ pos 0 }
    ensures of_the_patch { ran_by (calls small_kernel (state_with true (0 ∷ []) None []) (Enable 2)) ≡ (2, Pre) ∷ [] }
    ensures next { (accepted small_kernel (state_with true [] None (in_kernel (negsuc 0) ∷ [])) (Enable 3)).1
        ≡ state_with true [] None (in_kernel (negsuc 0) ∷ []) }
{}

/// When the transition of a cumulative patch completes, the older patches are removed from the list. The cumulative
/// patch's nops are taken out too, since no entries are left below them. Newer patches stay. If the cumulative patch is
/// disabled before its transition completes, no other patch is removed.
pub fn a_replacement_takes_the_older_patches_out()
    ensures older { installed_patches (accepted small_kernel (state_with true (0 ∷ 1 ∷ []) (move_of 1 true) []) Poll).1
        ≡ 1 ∷ [] }
    ensures nop { entries_of small_kernel (state_with true (0 ∷ 1 ∷ []) (move_of 1 true) []) 1
        ≡ record { patch = 1; func = None } ∷ record { patch = 0; func = Some 1 } ∷ [] }
    ensures no_nop { entries_of small_kernel
        (accepted small_kernel (state_with true (0 ∷ 1 ∷ []) (move_of 1 true) []) Poll).1 1 ≡ [] }
    ensures newer { installed_patches (accepted small_kernel (state_with true (1 ∷ 2 ∷ []) (move_of 1 true) []) Poll).1
        ≡ 1 ∷ 2 ∷ [] }
    ensures withdrawn { installed_patches
        (accepted small_kernel (state_with true (0 ∷ 1 ∷ []) (move_of 1 false) []) Poll).1 ≡ 0 ∷ [] }
{}

/// While a task isn't at the target, a poll doesn't complete the transition and runs no callback. The poll switches
/// sleeping tasks that aren't blocked. It doesn't switch tasks in the kernel or in user space: each of them is switched
/// when it next leaves the kernel.
pub fn a_poll_waits_for_tasks()
    ensures runs { calls small_kernel (state_with true (0 ∷ []) (move_of 0 true) (in_kernel (pos 0) ∷ [])) Poll ≡ [] }
    ensures reply { (accepted small_kernel (state_with true (0 ∷ []) (move_of 0 true) (in_kernel (pos 0) ∷ [])) Poll).0
        ≡ Pending 1 }
    ensures next { (accepted small_kernel
        (state_with true (0 ∷ []) (move_of 0 true)
        (in_kernel (pos 0) ∷ asleep_in (pos 0) (Original 2 ∷ []) ∷ asleep_in (pos 0) [] ∷ [])) Poll).1
        ≡ state_with true (0 ∷ []) (move_of 0 true) (in_kernel (pos 0) ∷ asleep_in (pos 0) (Original 2 ∷ []) ∷ asleep_in
        (pos 1) [] ∷ []) }
    ensures in_user_space { accepted small_kernel
        (state_with true (0 ∷ []) (move_of 0 true) (in_user (pos 0) ∷ [])) Poll
        ≡ (Pending 1, state_with true (0 ∷ []) (move_of 0 true) (in_user (pos 0) ∷ [])) }
    ensures completed { ran
        (calls small_kernel (state_with true (0 ∷ []) (move_of 0 true) (in_kernel (pos 1) ∷ [])) Poll)
        ≡ (0, Post) ∷ (1, Post) ∷ [] }
    ensures of_the_moving_patch { ran_by (calls small_kernel (state_with true (0 ∷ 2 ∷ []) (move_of 2 true) []) Poll)
        ≡ (2, Post) ∷ [] }
    ensures of_the_withdrawn_patch { ran_by
        (calls small_kernel (state_with true (0 ∷ 2 ∷ []) (move_of 2 false) []) Poll) ≡ (2, PostUn) ∷ [] }
    ensures at_rest { (accepted small_kernel (state_with true (0 ∷ []) (move_of 0 true) (in_kernel (pos 1) ∷ [])) Poll)
        ≡ (Completed true, state_with true (0 ∷ []) None (in_kernel (negsuc 0) ∷ [])) }
    ensures withdrawn { accepted small_kernel
        (state_with true (0 ∷ 2 ∷ []) (move_of 2 false) (in_kernel (pos 0) ∷ [])) Poll
        ≡ (Completed false, state_with true (0 ∷ []) None (in_kernel (negsuc 0) ∷ [])) }
{}

/// While a patch is being enabled, the versions below its entries block a sleeping task. While a patch is being
/// disabled, its own versions block a sleeping task. After the switch the task's calls wouldn't run the blocking
/// versions any more. The rule doesn't change if a newer patch is above. A nop counts as the original.
pub fn tasks_are_held_by_what_they_would_leave()
    ensures to_the_patch { blocked small_kernel (state_with false (0 ∷ []) (move_of 0 true) [])
        (record { patch = 0; target = true }) ≡ Original 0 ∷ Original 1 ∷ [] }
    ensures from_the_patch { blocked small_kernel (state_with false (0 ∷ []) (move_of 0 false) [])
        (record { patch = 0; target = false }) ≡ New 0 0 ∷ New 0 1 ∷ [] }
    ensures under_another { blocked small_kernel (state_with false (0 ∷ 2 ∷ []) (move_of 0 true) [])
        (record { patch = 0; target = true }) ≡ Original 0 ∷ Original 1 ∷ [] }
    ensures over_another { blocked small_kernel (state_with true (0 ∷ 1 ∷ []) (move_of 1 true) [])
        (record { patch = 1; target = true }) ≡ New 0 0 ∷ New 0 1 ∷ New 0 2 ∷ [] }
    ensures nops { blocked small_kernel (state_with true (0 ∷ 1 ∷ []) (move_of 1 false) [])
        (record { patch = 1; target = false }) ≡ New 1 0 ∷ Original 1 ∷ Original 2 ∷ [] }
{}

/// A task with patch state 0 isn't switched to the patch in transition, so it runs the version below that patch's
/// entry. Any other task runs the version of the newest entry. If that entry is a nop, the task runs the original.
pub fn tasks_pick_by_their_state()
    ensures below { pick small_kernel (state_with true (0 ∷ 2 ∷ []) (move_of 2 true) (in_kernel (pos 0) ∷ [])) 0 0
        ≡ Some (record { version = New 0 0; address = 0 }) }
    ensures newest { pick small_kernel (state_with true (0 ∷ 2 ∷ []) (move_of 2 true) (in_kernel (pos 1) ∷ [])) 0 0
        ≡ Some (record { version = New 2 0; address = 0 }) }
    ensures nobody { pick small_kernel (state_with true (0 ∷ 2 ∷ []) (move_of 2 true) (in_kernel (pos 1) ∷ [])) 1 0
        ≡ None }
    ensures below_a_nop { pick small_kernel (state_with true (0 ∷ 1 ∷ []) (move_of 1 true) (in_kernel (pos 0) ∷ [])) 0 1
        ≡ Some (record { version = New 0 1; address = 1 }) }
    ensures nop { pick small_kernel (state_with true (0 ∷ 1 ∷ []) (move_of 1 true) (in_kernel (pos 1) ∷ [])) 0 1
        ≡ Some (record { version = Original 1; address = 0xffff_ffff_8100_2005 }) }
    ensures unloaded { pick small_kernel (state_with false (0 ∷ 2 ∷ []) (move_of 2 true) (in_kernel (pos 1) ∷ [])) 0 2
        ≡ None }
    ensures no_site { pick small_kernel (state_with true (0 ∷ 2 ∷ []) (move_of 2 true) (in_kernel (pos 1) ∷ [])) 0 3
        ≡ None }
{}

/// An object that isn't loaded, or doesn't exist, has no entries and no text. A patch's function for a module has an
/// entry only once the module is loaded.
pub fn what_is_not_loaded_has_nothing()
    ensures entries { entries_of small_kernel (state_with false (0 ∷ []) None []) 2 ≡ [] }
    ensures text { text_of small_kernel (state_with false [] None []) 1 ≡ None }
    ensures no_site { entries_of small_kernel (state_with true (0 ∷ []) None []) 3 ≡ [] }
    ensures no_object { text_of small_kernel (state_with true [] None []) 2 ≡ None }
{}

/// The row of a site has its two newest entries, with the addresses at which their versions begin. If an entry is a nop
/// or is missing, its address is the one after the entry site. A site is hooked if it has an entry. A site of an object
/// that isn't loaded has no row.
pub fn a_row_tells_the_two_newest_entries()
    ensures nop { row_of small_kernel (state_with true (0 ∷ 1 ∷ []) (move_of 1 true) []) 1
        ≡ Some (record {
          word = record { top = Some (record { patch = 1; func = None }); below = Some (record { patch = 0; func = Some 1 }); moves = true };
          original = 0xffff_ffff_8100_2005;
          top = 0xffff_ffff_8100_2005;
          below = 1;
        }) }
    ensures bare { row_of small_kernel (state_with true (2 ∷ []) None []) 1
        ≡ Some (record {
          word = record { top = None; below = None; moves = false };
          original = 0xffff_ffff_8100_2005;
          top = 0xffff_ffff_8100_2005;
          below = 0xffff_ffff_8100_2005;
        }) }
    ensures of_three { row_of small_kernel (state_with true (0 ∷ 2 ∷ 1 ∷ []) (move_of 2 true) []) 0
        ≡ Some (record {
          word = record { top = Some (record { patch = 1; func = Some 0 }); below = Some (record { patch = 2; func = Some 0 }); moves = false };
          original = 0xffff_ffff_8100_1005;
          top = 0;
          below = 0;
        }) }
    ensures unloaded { row_of small_kernel (state_with false (0 ∷ []) None []) 2 ≡ None }
    ensures hooked { is_hooked small_kernel (state_with true (0 ∷ []) None []) 1 ≡ true }
    ensures not_hooked { is_hooked small_kernel (state_with true (2 ∷ []) None []) 1 ≡ false }
{}

/// Loading a module runs pre-patch and post-patch, patch by patch, oldest first. For a patch in transition only
/// pre-patch runs, because its post-patch runs when the transition completes. If a pre-patch refuses, the module isn't
/// loaded. The patches that were already applied to the module are cleaned up.
pub fn a_module_comes_patch_by_patch()
    ensures still { ran_by (calls small_kernel (state_with false (0 ∷ []) None []) (Coming 1))
        ≡ (0, Pre) ∷ (0, Post) ∷ [] }
    ensures its_object { ran (calls small_kernel (state_with false (0 ∷ []) None []) (Coming 1))
        ≡ (1, Pre) ∷ (1, Post) ∷ [] }
    ensures moving { ran_by (calls small_kernel (state_with false (0 ∷ []) (move_of 0 true) []) (Coming 1))
        ≡ (0, Pre) ∷ [] }
    ensures refused { ran_by (calls small_kernel (state_with false (0 ∷ 3 ∷ []) None []) (Coming 1))
        ≡ (0, Pre) ∷ (0, Post) ∷ (3, Pre) ∷ (0, PreUn) ∷ (0, PostUn) ∷ [] }
    ensures refused_moving { ran_by (calls small_kernel (state_with false (0 ∷ 3 ∷ []) (move_of 0 true) []) (Coming 1))
        ≡ (0, Pre) ∷ (3, Pre) ∷ (0, PostUn) ∷ [] }
    ensures reply { (accepted small_kernel (state_with false (0 ∷ 3 ∷ []) None []) (Coming 1)).0
        ≡ PreFailed 3 1 (negsuc 11) }
    ensures cleaned_oldest_first { ran_by (calls module_kernel (state_with false (0 ∷ 1 ∷ 2 ∷ []) None []) (Coming 1))
        ≡ (0, Pre) ∷ (0, Post) ∷ (1, Pre) ∷ (1, Post) ∷ (2, Pre) ∷ (0, PreUn) ∷ (0, PostUn) ∷ (1, PreUn)
        ∷ (1, PostUn) ∷ [] }
    ensures stays_away { (accepted small_kernel (state_with false (0 ∷ 3 ∷ []) None []) (Coming 1)).1
        ≡ state_with false (0 ∷ 3 ∷ []) None [] }
{}

/// Unloading a module runs pre-unpatch and post-unpatch, patch by patch, oldest first. For a patch in transition only
/// post-unpatch runs: either its post-patch never ran, or its pre-unpatch ran already. The module isn't unloaded while
/// a task sleeps inside of one of its own functions, or inside of a new function for it.
pub fn a_module_goes_patch_by_patch()
    ensures still { ran_by (calls small_kernel (state_with true (0 ∷ []) None []) (Going 1))
        ≡ (0, PreUn) ∷ (0, PostUn) ∷ [] }
    ensures moving { ran_by (calls small_kernel (state_with true (0 ∷ []) (move_of 0 false) []) (Going 1))
        ≡ (0, PostUn) ∷ [] }
    ensures oldest_first { ran_by (calls module_kernel (state_with true (0 ∷ 1 ∷ []) None []) (Going 1))
        ≡ (0, PreUn) ∷ (0, PostUn) ∷ (1, PreUn) ∷ (1, PostUn) ∷ [] }
    ensures in_its_own { refusal small_kernel
        (state_with true (0 ∷ []) None (asleep_in (negsuc 0) (Original 2 ∷ []) ∷ [])) (Going 1) ≡ Some InUse }
    ensures in_a_new_one { refusal small_kernel
        (state_with true (0 ∷ []) None (asleep_in (negsuc 0) (New 0 2 ∷ []) ∷ [])) (Going 1) ≡ Some InUse }
{}

/// Forcing a transition switches every task to the target. If a patch is forced out, it is pinned. If a cumulative
/// patch is forced in, all other installed patches are pinned. A task may still be inside of a pinned patch's
/// functions.
pub fn who_is_forced_away_is_pinned()
    ensures away { (accepted small_kernel (state_with true (0 ∷ 2 ∷ []) (move_of 2 false) (in_kernel (pos 1) ∷ []))
        (Force 2)).1
        ≡ record (state_with true (0 ∷ 2 ∷ []) (move_of 2 false) (in_kernel (pos 0) ∷ [])) {
          pinned = false ∷ false
              ∷ true ∷ false ∷ [];
        } }
    ensures replaced { (accepted small_kernel (state_with true (0 ∷ 2 ∷ 1 ∷ []) (move_of 1 true) []) (Force 1)).1.pinned
        ≡ true ∷ false ∷ true ∷ false ∷ [] }
    ensures to_the_patch { (accepted small_kernel (state_with true (0 ∷ 2 ∷ []) (move_of 2 true) []) (Force 2)).1.pinned
        ≡ false ∷ false ∷ false ∷ false ∷ [] }
{}

/// A new task is in user space. If there is a transition, the new task is at its target. A forked task is in the kernel
/// and has its parent's patch state. A task that leaves the kernel is switched to the target. A task that wakes is in
/// the kernel again, and the reply has the task's frames.
pub fn tasks_come_and_go()
    ensures new { accepted small_kernel (state_with true (0 ∷ []) (move_of 0 true) (None ∷ [])) (NewTask 0)
        ≡ (Done, state_with true (0 ∷ []) (move_of 0 true) (in_user (pos 1) ∷ [])) }
    ensures new_at_rest { accepted small_kernel (state_with true [] None (None ∷ [])) (NewTask 0)
        ≡ (Done, state_with true [] None (in_user (negsuc 0) ∷ [])) }
    ensures child { accepted small_kernel (state_with true (0 ∷ []) (move_of 0 true) (in_kernel (pos 0) ∷ None ∷ []))
        (Fork 0 1)
        ≡ (Done, state_with true (0 ∷ []) (move_of 0 true) (in_kernel (pos 0) ∷ in_kernel (pos 0) ∷ [])) }
    ensures gone { accepted small_kernel (state_with true [] None (in_user (negsuc 0) ∷ [])) (EndTask 0)
        ≡ (Done, state_with true [] None (None ∷ [])) }
    ensures inside { accepted small_kernel (state_with true (0 ∷ []) (move_of 0 true) (in_user (pos 0) ∷ []))
        (EnterKernel 0)
        ≡ (Done, state_with true (0 ∷ []) (move_of 0 true) (in_kernel (pos 0) ∷ [])) }
    ensures outside { accepted small_kernel (state_with true (0 ∷ []) (move_of 0 false) (in_kernel (pos 1) ∷ []))
        (ExitToUser 0)
        ≡ (Done, state_with true (0 ∷ []) (move_of 0 false) (in_user (pos 0) ∷ [])) }
    ensures outside_at_rest { accepted small_kernel (state_with true (0 ∷ []) None (in_kernel (negsuc 0) ∷ []))
        (ExitToUser 0)
        ≡ (Done, state_with true (0 ∷ []) None (in_user (negsuc 0) ∷ [])) }
    ensures asleep { accepted small_kernel (state_with true [] None (in_kernel (negsuc 0) ∷ []))
        (Sleep 0 (Original 0 ∷ Original 1 ∷ []))
        ≡ (Done, state_with true [] None (asleep_in (negsuc 0) (Original 0 ∷ Original 1 ∷ []) ∷ [])) }
    ensures awake { accepted small_kernel
        (state_with true [] None (asleep_in (negsuc 0) (Original 0 ∷ Original 1 ∷ []) ∷ [])) (Wake 0)
        ≡ (Woken (Original 0 ∷ Original 1 ∷ []), state_with true [] None (in_kernel (negsuc 0) ∷ [])) }
{}

/// Callbacks run after a patch is added to the list of installed patches, and before patches are removed from it. So
/// pre-patch can set a state of its own patch. Post-patch can take the value of a state from a patch that is about to
/// be replaced.
pub fn callbacks_find_the_patches_there()
    ensures set { state_value (accepted taking_over (with_states (with_state 0 5 ∷ []) None) (Enable 1)).1.world 1 7
        ≡ Some 3 }
    ensures taken { state_value
        (accepted taking_over (with_states (with_state 0 5 ∷ with_state 1 3 ∷ []) (move_of 1 true)) Poll).1.world 1 7
        ≡ Some 5 }
{}

/// There must be room for the variables of all callbacks that may run, even if some of these callbacks don't run in the
/// end. So the needed room is known before the first callback runs. The examples are a poll that stays pending, a patch
/// that is enabled without a refusal, and the clean-up of a module that is being loaded.
pub fn room_is_asked_for_all_that_may_run()
    ensures pending { refusal (crowded Post) (state_with true (0 ∷ []) (move_of 0 true) (in_kernel (pos 0) ∷ [])) Poll
        ≡ Some Full }
    ensures enabling { refusal (crowded PostUn) (state_with true [] None []) (Enable 0) ≡ Some Full }
    ensures coming { refusal (crowded PreUn) (state_with false (0 ∷ []) None []) (Coming 1) ≡ Some Full }
{}

/// The reasons why an event is refused that enables a patch, writes a patch's `enabled` file or forces a patch. If two
/// reasons hold, the one that is checked first is reported.
pub fn refusals_come_in_order()
    ensures no_patch { refusal small_kernel (state_with true (0 ∷ []) (move_of 0 true) []) (Enable 4) ≡ Some NoPatch }
    ensures there_first { refusal small_kernel (state_with true (0 ∷ []) (move_of 0 true) []) (Enable 0)
        ≡ Some AlreadyThere }
    ensures busy { refusal small_kernel
        (record (state_with true (0 ∷ []) (move_of 0 true) []) { pinned = false ∷ true ∷ false ∷ false ∷ [] })
        (Enable 1) ≡ Some Busy }
    ensures pinned { refusal small_kernel
        (record (state_with true [] None []) { pinned = true ∷ false ∷ false ∷ false ∷ [] }) (Enable 0) ≡ Some Pinned }
    ensures incompatible { refusal lacking (with_states (with_state 0 5 ∷ []) None) (Enable 1) ≡ Some Incompatible }
    ensures not_found { refusal small_kernel (state_with true [] None []) (SetEnabled 0 true) ≡ Some NotFound }
    ensures same_first { refusal small_kernel (state_with true (0 ∷ 2 ∷ []) (move_of 2 true) []) (SetEnabled 0 true)
        ≡ Some SameValue }
    ensures another_moves { refusal small_kernel (state_with true (0 ∷ 2 ∷ []) (move_of 2 true) []) (SetEnabled 0 false)
        ≡ Some Busy }
    ensures not_moving { refusal small_kernel (state_with true (0 ∷ 2 ∷ []) (move_of 2 true) []) (Force 0)
        ≡ Some NotMoving }
    ensures at_rest { refusal small_kernel (state_with true (0 ∷ []) None []) Poll ≡ Some NotMoving }
{}

/// The reasons why events of modules and tasks are refused. If several reasons hold, the one that is checked first is
/// reported.
pub fn modules_and_tasks_are_refused()
    ensures kernel { refusal small_kernel (state_with true [] None []) (Coming 0) ≡ Some NoModule }
    ensures no_module { refusal small_kernel (state_with true [] None []) (Coming 2) ≡ Some NoModule }
    ensures module_there { refusal small_kernel (state_with true [] None []) (Coming 1) ≡ Some AlreadyThere }
    ensures not_loaded { refusal small_kernel (state_with false [] None []) (Going 1) ≡ Some NoModule }
    ensures beyond { refusal small_kernel (state_with true [] None []) (NewTask 64) ≡ Some NoTask }
    ensures task_there { refusal small_kernel (state_with true [] None (in_kernel (negsuc 0) ∷ [])) (NewTask 0)
        ≡ Some TaskThere }
    ensures child_there { refusal small_kernel (state_with true [] None (in_user (negsuc 0) ∷ [])) (Fork 0 0)
        ≡ Some TaskThere }
    ensures parent_outside { refusal small_kernel (state_with true [] None (in_user (negsuc 0) ∷ None ∷ [])) (Fork 0 1)
        ≡ Some WrongMode }
    ensures ends_asleep { refusal small_kernel (state_with true [] None (asleep_in (negsuc 0) [] ∷ [])) (EndTask 0)
        ≡ Some WrongMode }
    ensures enters_twice { refusal small_kernel (state_with true [] None (in_kernel (negsuc 0) ∷ [])) (EnterKernel 0)
        ≡ Some WrongMode }
    ensures exits_twice { refusal small_kernel (state_with true [] None (in_user (negsuc 0) ∷ [])) (ExitToUser 0)
        ≡ Some WrongMode }
    ensures sleeps_outside { refusal small_kernel (state_with true [] None (in_user (negsuc 0) ∷ []))
        (Sleep 0 (Original 3 ∷ [])) ≡ Some WrongMode }
    ensures bad_frame { refusal small_kernel (state_with true [] None (in_kernel (negsuc 0) ∷ []))
        (Sleep 0 (Original 3 ∷ [])) ≡ Some BadFrame }
    ensures bad_function { refusal small_kernel (state_with true [] None (in_kernel (negsuc 0) ∷ []))
        (Sleep 0 (New 0 3 ∷ [])) ≡ Some BadFrame }
    ensures wakes_twice { refusal small_kernel (state_with true [] None (in_kernel (negsuc 0) ∷ [])) (Wake 0)
        ≡ Some WrongMode }
    ensures no_task { refusal small_kernel (state_with true [] None (None ∷ [])) (Wake 0) ≡ Some NoTask }
{}

/// When a manager begins, only `vmlinux` is loaded. There are no patches, pins, tasks and shadow variables.
pub fn a_manager_begins_with_nothing_installed()
    ensures { opening_state small_kernel ≡ state_with false [] None (replicate 64 None) }
{}

/// Enabling adds the patch as the newest. It sets the patch state of every task to 0, since no task runs the patch yet.
/// Loading or unloading a module changes that module's flag.
pub fn an_enabling_starts_with_no_task_at_the_patch()
    ensures enabled { accepted small_kernel
        (state_with true (0 ∷ []) None (in_kernel (negsuc 0) ∷ asleep_in (negsuc 0) [] ∷ None ∷ [])) (Enable 2)
        ≡ (Started, state_with true (0 ∷ 2 ∷ []) (move_of 2 true) (in_kernel (pos 0) ∷ asleep_in (pos 0) [] ∷ None ∷ [])) }
    ensures come { accepted small_kernel (state_with false (0 ∷ []) None []) (Coming 1)
        ≡ (Done, state_with true (0 ∷ []) None []) }
    ensures gone { accepted small_kernel (state_with true (0 ∷ []) None []) (Going 1)
        ≡ (Done, state_with false (0 ∷ []) None []) }
    ensures no_object { is_loaded (state_with true [] None []) 2 ≡ false }
{}

/// The `enabled` file of an installed patch reads 0 only while the patch itself is being disabled.
pub fn a_patch_reads_enabled_until_it_moves_out()
    ensures still { enabled_value (state_with true (0 ∷ []) None []) 0 ≡ true }
    ensures coming_in { enabled_value (state_with true (0 ∷ []) (move_of 0 true) []) 0 ≡ true }
    ensures moving_out { enabled_value (state_with true (0 ∷ []) (move_of 0 false) []) 0 ≡ false }
    ensures another { enabled_value (state_with true (0 ∷ 2 ∷ []) (move_of 2 false) []) 0 ≡ true }
{}

/// If several reasons for a refusal hold, the one that is checked first is reported.
pub fn earlier_reasons_come_first()
    ensures busy { refusal (faulty 0)
        (record (with_states (with_state 0 5 ∷ []) (move_of 0 true)) { pinned = false ∷ true ∷ [] }) (Enable 1) ≡ Some Busy }
    ensures pinned { refusal (faulty 0)
        (record (with_states (with_state 0 5 ∷ []) None) { pinned = false ∷ true ∷ [] }) (Enable 1) ≡ Some Pinned }
    ensures incompatible { refusal (faulty 0) (with_states (with_state 0 5 ∷ []) None) (Enable 1) ≡ Some Incompatible }
    ensures no_symbol { refusal (faulty 0) (with_states [] None) (Enable 1) ≡ Some NoSymbol }
    ensures later_symbol { refusal (faulty 1) (with_states [] None) (Enable 1) ≡ None }
    ensures of_the_module { refusal (faulty 1) (state_with false (1 ∷ []) None []) (Coming 1) ≡ Some NoSymbol }
    ensures module_there { refusal (faulty 1) (state_with true (1 ∷ []) None []) (Coming 1) ≡ Some AlreadyThere }
    ensures not_in_the_catalog { refusal small_kernel (state_with true [] None []) (SetEnabled 4 true) ≡ Some NoPatch }
    ensures nothing_forced { refusal small_kernel (state_with true [] None []) (Force 4) ≡ Some NoPatch }
    ensures not_installed { refusal small_kernel (state_with true [] None []) (Force 0) ≡ Some NotFound }
    ensures same { refusal small_kernel (state_with true (0 ∷ []) (move_of 0 false) []) (SetEnabled 0 false)
        ≡ Some SameValue }
    ensures sleeper_first { refusal (crowded PostUn)
        (state_with true (0 ∷ []) None (asleep_in (negsuc 0) (Original 2 ∷ []) ∷ [])) (Going 1) ≡ Some InUse }
    ensures vmlinux { refusal small_kernel (state_with true [] None (asleep_in (negsuc 0) (Original 0 ∷ []) ∷ [])) (Going 0)
        ≡ Some NoModule }
    ensures no_parent { refusal small_kernel (state_with true [] None (None ∷ in_user (negsuc 0) ∷ [])) (Fork 0 1)
        ≡ Some NoTask }
    ensures beyond { refusal small_kernel (state_with true [] None (in_user (negsuc 0) ∷ [])) (Fork 0 64) ≡ Some NoTask }
    ensures child_there { refusal small_kernel
        (state_with true [] None (in_user (negsuc 0) ∷ in_user (negsuc 0) ∷ [])) (Fork 0 1) ≡ Some TaskThere }
    ensures nobody_ends { refusal small_kernel (state_with true [] None (None ∷ [])) (EndTask 0) ≡ Some NoTask }
    ensures nobody_enters { refusal small_kernel (state_with true [] None (None ∷ [])) (EnterKernel 0) ≡ Some NoTask }
    ensures nobody_exits { refusal small_kernel (state_with true [] None (None ∷ [])) (ExitToUser 0) ≡ Some NoTask }
    ensures nobody_sleeps { refusal small_kernel (state_with true [] None (None ∷ [])) (Sleep 0 (Original 3 ∷ []))
        ≡ Some NoTask }
    ensures sleeps_twice { refusal small_kernel (state_with true [] None (asleep_in (negsuc 0) [] ∷ [])) (Sleep 0 [])
        ≡ Some WrongMode }
    ensures enters_asleep { refusal small_kernel (state_with true [] None (asleep_in (negsuc 0) [] ∷ [])) (EnterKernel 0)
        ≡ Some WrongMode }
    ensures exits_asleep { refusal small_kernel (state_with true [] None (asleep_in (negsuc 0) [] ∷ [])) (ExitToUser 0)
        ≡ Some WrongMode }
    ensures wakes_outside { refusal small_kernel (state_with true [] None (in_user (negsuc 0) ∷ [])) (Wake 0)
        ≡ Some WrongMode }
{}

/// An event is accepted if there is no reason to refuse it. For example, a task may end while it is in the kernel. A
/// sleeper may be inside of functions whose objects aren't loaded or whose patches aren't installed.
pub fn what_no_reason_is_against_is_accepted()
    ensures ends { refusal small_kernel (state_with true [] None (in_kernel (negsuc 0) ∷ [])) (EndTask 0) ≡ None }
    ensures ends_outside { refusal small_kernel (state_with true [] None (in_user (negsuc 0) ∷ [])) (EndTask 0) ≡ None }
    ensures last_number { refusal small_kernel (state_with true [] None (replicate 64 None)) (NewTask 63) ≡ None }
    ensures forks { refusal small_kernel (state_with true [] None (in_kernel (negsuc 0) ∷ None ∷ [])) (Fork 0 1) ≡ None }
    ensures enters { refusal small_kernel (state_with true [] None (in_user (negsuc 0) ∷ [])) (EnterKernel 0) ≡ None }
    ensures exits { refusal small_kernel (state_with true [] None (in_kernel (negsuc 0) ∷ [])) (ExitToUser 0) ≡ None }
    ensures wakes { refusal small_kernel (state_with true [] None (asleep_in (negsuc 0) [] ∷ [])) (Wake 0) ≡ None }
    ensures sleeps { refusal small_kernel (state_with false [] None (in_kernel (negsuc 0) ∷ []))
        (Sleep 0 (Original 2 ∷ New 0 2 ∷ [])) ≡ None }
    ensures forced { refusal small_kernel (state_with true (0 ∷ []) (move_of 0 false) []) (Force 0) ≡ None }
    ensures freed { refusal small_kernel (state_with true [] None []) (ShadowFree (key_of 1 2)) ≡ None }
    ensures all_freed { refusal small_kernel (state_with true [] None []) (ShadowFreeAll 2) ≡ None }
    ensures enabled { refusal small_kernel (state_with true (0 ∷ []) None []) (Enable 3) ≡ None }
    ensures reversed { refusal small_kernel (state_with true (0 ∷ []) (move_of 0 false) []) (SetEnabled 0 true) ≡ None }
    ensures disabled { refusal small_kernel (state_with true (0 ∷ []) None []) (SetEnabled 0 false) ≡ None }
    ensures polled { refusal small_kernel (state_with true (0 ∷ []) (move_of 0 false) []) Poll ≡ None }
    ensures comes { refusal small_kernel (state_with false (0 ∷ []) None []) (Coming 1) ≡ None }
    ensures goes { refusal small_kernel
        (state_with true (0 ∷ []) None (asleep_in (negsuc 0) (Original 1 ∷ New 0 1 ∷ []) ∷ [])) (Going 1) ≡ None }
{}

/// There must be room for exactly as many variables as the callbacks that may run can add. Callbacks that can't run
/// don't count. When a module is loaded or unloaded, post-patch and pre-unpatch of a patch in transition can't run. At
/// a reversal, no callback can run.
pub fn the_last_place_may_be_taken()
    ensures enabling { refusal (crowded_by 512 Pre) (state_with true [] None []) (Enable 0) ≡ None }
    ensures unloaded { refusal (crowded Pre) (state_with false [] None []) (Enable 0) ≡ None }
    ensures disabling { refusal (crowded PreUn) (state_with true (0 ∷ []) None []) (SetEnabled 0 false) ≡ Some Full }
    ensures reversing { refusal (crowded PreUn) (state_with true (0 ∷ []) (move_of 0 true) []) (SetEnabled 0 false) ≡ None }
    ensures coming { refusal (crowded_by 512 PreUn) (state_with false (0 ∷ []) None []) (Coming 1) ≡ None }
    ensures coming_pre { refusal (crowded Pre) (state_with false (0 ∷ []) None []) (Coming 1) ≡ Some Full }
    ensures coming_post { refusal (crowded Post) (state_with false (0 ∷ []) None []) (Coming 1) ≡ Some Full }
    ensures coming_post_unpatch { refusal (crowded PostUn) (state_with false (0 ∷ []) (move_of 0 true) []) (Coming 1) ≡ Some Full }
    ensures coming_while_moving { refusal (crowded Post) (state_with false (0 ∷ []) (move_of 0 true) []) (Coming 1) ≡ None }
    ensures going { refusal (crowded PostUn) (state_with true (0 ∷ []) (move_of 0 true) []) (Going 1) ≡ Some Full }
    ensures going_pre_unpatch { refusal (crowded PreUn) (state_with true (0 ∷ []) None []) (Going 1) ≡ Some Full }
    ensures going_while_moving { refusal (crowded PreUn) (state_with true (0 ∷ []) (move_of 0 true) []) (Going 1) ≡ None }
    ensures completing { refusal (crowded PostUn) (state_with true (0 ∷ []) (move_of 0 true) []) Poll ≡ None }
{}

/// A shadow event concerns the variables that it names. No other event concerns a variable.
pub fn shadow_events_concern_what_they_name()
    ensures added { concerns (ShadowAlloc (key_of 1 2) []) (key_of 1 2) ≡ true }
    ensures another { concerns (ShadowAlloc (key_of 1 2) []) (key_of 3 2) ≡ false }
    ensures got { concerns (ShadowGetOrAlloc (key_of 1 2) []) (key_of 1 2) ≡ true }
    ensures another_got { concerns (ShadowGetOrAlloc (key_of 1 2) []) (key_of 3 2) ≡ false }
    ensures freed { concerns (ShadowFree (key_of 1 2)) (key_of 1 2) ≡ true }
    ensures another_freed { concerns (ShadowFree (key_of 1 2)) (key_of 3 2) ≡ false }
    ensures of_the_id { concerns (ShadowFreeAll 2) (key_of 1 2) ≡ true }
    ensures of_another_id { concerns (ShadowFreeAll 1) (key_of 1 2) ≡ false }
    ensures none { concerns Poll (key_of 1 2) ≡ false }
{}
