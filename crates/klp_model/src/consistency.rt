//! What is proved of honest observed runs, and examples of such runs. A function of this module does nothing: its
//! contract is the law or the example. The laws are in this crate because no other crate depends on which versions
//! block a sleeper (docs/DECISIONS.md, "Where the theorems are").
ghost use Rattle.std.specs.Prelude.{◌≡◌, ℕ, pos, negsuc, true, false, List, [], ◌∷◌, ◌++◌, Some, None};
ghost use Rattle.klp_types.specs.declared.version.Version.TheVariants.{Original, New};
ghost use Rattle.klp_types.specs.Setting.{Setting};
ghost use Rattle.klp_model.specs.declared.event.Event.TheVariants.{Going, NewTask, Fork, EndTask, ExitToUser, Sleep};
ghost use Rattle.klp_types.specs.declared.task.Mode.TheVariants.{Kernel, User, Asleep};
ghost use Rattle.klp_model.specs.State.{State};
ghost use Rattle.klp_model.specs.Run.{run};
ghost use Rattle.klp_model.specs.Blocked.{blocked, is_held};
ghost use Rattle.klp_model.specs.declared.seen.Seen.{Seen};
ghost use Rattle.klp_model.specs.declared.seen.Seen.TheVariants.{Event as Happens, Call as Calls, Return as Returns};
ghost use Rattle.klp_model.specs.Observed.{IsHonestItem, IsHonestRun, Watched, events_of, seen_next, seen_run};
ghost use Rattle.klp_model.specs.Observed.{seen_from};
ghost use Rattle.klp_model.specs.InPlace.{IsInPlace};
ghost use Rattle.klp_model.specs.Consistent.{version_now, AllCurrent, NoneLeft, NoneMixed, AllNamed};
ghost use Rattle.klp_model.specs.ObservedExamples.{kernel, stray_kernel, one_task, state_of, towards_1, no_frames};
ghost use Rattle.klp_model.specs.ObservedExamples.{inside, watched, start, in_original, late, sleeper_run, stray_run};
ghost use Rattle.klp_model.specs.ObservedExamples.{under_a_task, inside_both, moving_in, unpatched, stray_behind};

/// At every moment of an honest observed run, each frame of each task is the version that the task would run at that
/// site now. This law is the consistency model in one sentence: no task is inside of old code while its calls run new
/// code.
pub fn frames_are_current()
    ensures { (setting : Setting) (start : State) (first second : List Seen)
        → IsInPlace setting → IsHonestRun setting start (first ++ second)
        → AllCurrent setting (seen_from setting start first) }
{}

/// No task has a frame of a function whose entry was taken off the function stacks. So when a patch isn't installed any
/// more, its code may be freed.
pub fn none_has_left()
    ensures { (setting : Setting) (start : State) (first second : List Seen)
        → IsInPlace setting → IsHonestRun setting start (first ++ second)
        → NoneLeft setting (seen_from setting start first) }
{}

/// During a transition, a task with patch state 0 has no frame of a function of the patch. A task with patch state 1
/// has no frame of a version below an entry of the patch. So no task mixes old and new code.
pub fn none_is_mixed()
    ensures { (setting : Setting) (start : State) (first second : List Seen)
        → IsInPlace setting → IsHonestRun setting start (first ++ second)
        → NoneMixed setting (seen_from setting start first) }
{}

/// In an honest observed run, the version of each frame is a version of the site that was called: the site's original,
/// or a patch's new function for the site. So a version determines its site, and a frame needn't store the site too.
pub fn versions_name_their_sites()
    ensures { (setting : Setting) (start : State) (first second : List Seen)
        → IsInPlace setting → IsHonestRun setting start (first ++ second)
        → AllNamed setting (seen_from setting start first) }
{}

/// At the end of an honest observed run, each frame of each task is the version that the task would run at that site
/// now. A function that handles a list of items can promise the law in this form.
pub fn frames_are_current_at_the_end()
    ensures { (setting : Setting) (start : State) (items : List Seen)
        → IsInPlace setting → IsHonestRun setting start items
        → AllCurrent setting (seen_from setting start items) }
{}

/// The state of an observed run is the state after its events alone, since watching what tasks call changes nothing.
pub fn state_is_that_of_the_events()
    ensures { (setting : Setting) (w : Watched) (items : List Seen)
        → (seen_run setting w items).state ≡ run setting w.state (events_of items) }
{}

/// An honest observed run. A task sleeps in an original while the patch is being enabled. The task blocks the
/// transition until it leaves the kernel.
pub fn a_sleeper_holds_the_transition()
    ensures in_place { IsInPlace kernel }
    ensures honest { IsHonestRun kernel start sleeper_run }
    ensures end { (seen_from kernel start sleeper_run).state
        ≡ state_of false (0 ∷ []) None (one_task User (negsuc 0) []) }
    ensures held { is_held (blocked kernel (state_of false (0 ∷ []) towards_1 (one_task Asleep (pos 0) in_original))
        (record { patch = 0; target = true })) in_original ≡ true }
{}

/// Items that aren't honest. Examples are: falling asleep without naming the frames, leaving the kernel inside of a
/// function, unloading a module while a task runs in it, and calling a function outside of the kernel.
pub fn these_are_dishonest()
    ensures sleep { IsHonestItem kernel
        (watched (state_of false [] None (one_task Kernel (negsuc 0) [])) (inside 0 (Original 0)))
        (Happens (Sleep 1 [])) → ⊥ }
    ensures exit { IsHonestItem kernel late (Happens (ExitToUser 1)) → ⊥ }
    ensures going { IsHonestItem kernel under_a_task (Happens (Going 1)) → ⊥ }
    ensures call { IsHonestItem kernel (watched start no_frames) (Calls 1 0) → ⊥ }
    ensures end { IsHonestItem kernel (unpatched Kernel (inside 0 (Original 0))) (Happens (EndTask 1)) → ⊥ }
    ensures unloaded { IsHonestItem kernel (unpatched Kernel no_frames) (Calls 1 2) → ⊥ }
    ensures outside { IsHonestItem kernel (unpatched User no_frames) (Calls 1 0) → ⊥ }
    ensures no_frame { IsHonestItem kernel (unpatched Kernel no_frames) (Returns 1) → ⊥ }
    ensures returns_outside { IsHonestItem kernel (unpatched User (inside 0 (Original 0))) (Returns 1) → ⊥ }
    ensures inside_at_the_start { IsHonestRun kernel (unpatched User no_frames).state [] → ⊥ }
{}

/// States that the laws of consistency exclude. Every frame counts, not only the innermost.
pub fn these_are_inconsistent()
    ensures old { AllCurrent kernel (moving_in (pos 1) (inside_both (New 0 0) (Original 1))) → ⊥ }
    ensures left { NoneLeft kernel (unpatched Kernel (inside_both (Original 0) (New 0 1))) → ⊥ }
    ensures of_another_patch { NoneLeft kernel (moving_in (pos 1) (inside_both (New 0 0) (New 1 1))) → ⊥ }
    ensures of_another_function { NoneLeft kernel (moving_in (pos 1) (inside_both (New 0 0) (New 0 0))) → ⊥ }
    ensures of_the_patch { NoneMixed kernel (moving_in (pos 0) (inside_both (Original 0) (New 0 1))) → ⊥ }
    ensures below_the_patch { NoneMixed kernel (moving_in (pos 1) (inside_both (New 0 0) (Original 1))) → ⊥ }
    ensures misnamed { AllNamed kernel (unpatched Kernel (inside_both (Original 0) (Original 2))) → ⊥ }
    ensures out_of_place { IsInPlace stray_behind → ⊥ }
{}

/// A call adds a frame to its task, with the version that the call runs. A return removes the innermost frame. A new
/// task and a forked child are inside of no function.
pub fn calls_go_on_the_frames()
    ensures called { (seen_next kernel (unpatched Kernel (inside 0 (Original 0))) (Calls 1 1)).stacks 1
        ≡ (inside_both (Original 0) (Original 1)) 1 }
    ensures not_loaded { (seen_next kernel (unpatched Kernel (inside 0 (Original 0))) (Calls 1 2)).stacks 1
        ≡ (inside 0 (Original 0)) 1 }
    ensures returned { (seen_next kernel (unpatched Kernel (inside_both (Original 0) (Original 1)))
        (Returns 1)).stacks 1
        ≡ (inside 0 (Original 0)) 1 }
    ensures forked { (seen_next kernel (unpatched Kernel (inside 0 (Original 0))) (Happens (Fork 1 2))).stacks 2 ≡ [] }
    ensures parent { (seen_next kernel (unpatched Kernel (inside 0 (Original 0))) (Happens (Fork 1 2))).stacks 1
        ≡ (inside 0 (Original 0)) 1 }
    ensures anew { (seen_next kernel (watched start (inside 0 (Original 0))) (Happens (NewTask 1))).stacks 1 ≡ [] }
{}

/// The reason why a function must be in the object of its site. Otherwise an honest run could unload the module of the
/// site while a task is inside of the function. No site would then have that function.
pub fn a_stray_function_outlives_its_site()
    ensures honest { IsHonestRun stray_kernel start stray_run }
    ensures end { seen_from stray_kernel start stray_run
        ≡ watched (state_of false (0 ∷ []) towards_1 (one_task Kernel (pos 1) [])) (inside 2 (New 0 0)) }
    ensures version { version_now stray_kernel (state_of false (0 ∷ []) towards_1 (one_task Kernel (pos 1) [])) 1 2
        ≡ None }
{}

/// The reason why the version *below* the patch's entry blocks a sleeper towards target 1. If the new version blocked
/// the sleeper instead, a sleeper in the original would be switched. Its calls would then run new code while it is
/// still inside of old code.
pub fn the_rule_turned_round_lets_a_sleeper_through()
    ensures turned { is_held (New 0 0 ∷ New 0 1 ∷ []) in_original ≡ false }
    ensures completed { version_now kernel (state_of false (0 ∷ []) None (one_task Asleep (negsuc 0) in_original)) 1 0
        ≡ Some (New 0 0) }
{}
