//! Worked examples of the definitions. A function of this module does nothing. The function's contract is the example,
//! which is proved by computing the definition.
ghost use Rattle.std.specs.Prelude.{◌≡◌, ℕ, pos, negsuc, Bool, true, false, List, [], ◌∷◌, ◌++◌, Some, None, Ok, Err};
ghost use Rattle.std.specs.declared.cmp.Ordering.TheVariants.{Less, Greater};
ghost use Rattle.klp_types.specs.declared.callback.Which.TheVariants.{Pre, Post, PreUn, PostUn};
ghost use Rattle.klp_types.specs.declared.edit.Edit.TheVariants.{Alloc, Free, FreeAll, SetData, TakePrev};
ghost use Rattle.klp_types.specs.declared.record.Record.TheVariants.{NothingMoving};
ghost use Rattle.klp_types.specs.declared.task.Mode.TheVariants.{Asleep};
ghost use Rattle.klp_types.specs.declared.version.Version.TheVariants.{Original, New};
ghost use Rattle.klp_types.specs.Entries.{entries_from};
ghost use Rattle.klp_types.specs.Pick.{entries_for, newest_version, target_of};
ghost use Rattle.klp_types.specs.Callbacks.{calls_of, enable_calls, end_of, refuses, allocs_of, after_calls};
ghost use Rattle.klp_types.specs.Bytes.{entry_offset, can_reach, call, patched, resting};
ghost use Rattle.klp_types.specs.Compatible.{is_compatible};
ghost use Rattle.klp_types.specs.FirstOf.{first_of, unless};
ghost use Rattle.klp_types.specs.Finds.{Finds};
ghost use Rattle.klp_types.specs.Frames.{frames_of};
ghost use Rattle.klp_types.specs.Image.{object_of};
ghost use Rattle.klp_types.specs.PatchStates.{IsPatchState};
ghost use Rattle.klp_types.specs.Records.{spare_of};
ghost use Rattle.klp_types.specs.Script.{alloc_count, edited_at, edits_made, effect, touches, Undoes};
ghost use Rattle.klp_types.specs.Setting.{named_states, state_ids, function_for, replaces};
ghost use Rattle.klp_types.specs.World.{key_cmp, number_of, state_value, previous_value, with_patch, without_patch};
ghost use Rattle.klp_types.specs.World.{with_variable};
ghost use Rattle.klp_types.specs.Examples.{kernel, patched_kernel, tracked, tracked_kernel, objects_refusing_in, ran};
ghost use Rattle.klp_types.specs.Examples.{object_calling, object_without_callbacks, editing, refusing, call_by};
ghost use Rattle.klp_types.specs.Examples.{key_of, patch_4, patch_5, patch_6, patch_3, world_of, four_installed};
ghost use Rattle.klp_types.specs.Examples.{state_of, naming_kernel};

use crate::task::PatchState;

/// A cumulative patch puts a nop on a site if an older patch has a function for the site and the cumulative patch has
/// none. The nop makes calls run the original again. If no older patch has a function for the site, the cumulative
/// patch puts no nop there.
pub fn a_nop_stands_over_an_older_patch()
    ensures nop { entries_from patched_kernel 1 (1 ∷ 0 ∷ [])
        ≡ record { patch = 1; func = None } ∷ record { patch = 0; func = Some 1 } ∷ [] }
    ensures own { entries_from patched_kernel 0 (1 ∷ 0 ∷ [])
        ≡ record { patch = 1; func = Some 0 } ∷ record { patch = 0; func = Some 0 } ∷ [] }
    ensures oldest { entries_from patched_kernel 1 (1 ∷ []) ≡ [] }
    ensures newer { entries_from patched_kernel 1 (0 ∷ 1 ∷ []) ≡ record { patch = 0; func = Some 1 } ∷ [] }
{}

/// A task that isn't switched to the patch in transition skips that patch's entry. Any other task runs the entry. If
/// the entry is a nop, the task runs the original.
pub fn tasks_pass_over_the_moving_entry()
    ensures older { newest_version 0
        (entries_for (Some (record { patch = 1; target = true })) (pos 0) (entries_from patched_kernel 0 (1 ∷ 0 ∷ [])))
        ≡ New 0 0 }
    ensures newest { newest_version 0
        (entries_for (Some (record { patch = 1; target = true })) (pos 1) (entries_from patched_kernel 0 (1 ∷ 0 ∷ [])))
        ≡ New 1 0 }
    ensures below_a_nop { newest_version 1
        (entries_for (Some (record { patch = 1; target = true })) (pos 0) (entries_from patched_kernel 1 (1 ∷ 0 ∷ [])))
        ≡ New 0 1 }
    ensures nop { newest_version 1
        (entries_for (Some (record { patch = 1; target = true })) (pos 1) (entries_from patched_kernel 1 (1 ∷ 0 ∷ [])))
        ≡ Original 1 }
    ensures another_moves { newest_version 0
        (entries_for (Some (record { patch = 0; target = true })) (pos 0) (entries_from patched_kernel 0 (1 ∷ 0 ∷ [])))
        ≡ New 1 0 }
    ensures nothing_moves { newest_version 0 (entries_for None (pos 0) (entries_from patched_kernel 0 (1 ∷ 0 ∷ [])))
        ≡ New 1 0 }
    ensures at_rest { newest_version 0
        (entries_for (Some (record { patch = 1; target = true })) (negsuc 0) (entries_from patched_kernel 0 (1 ∷ 0 ∷ [])))
        ≡ New 1 0 }
    ensures no_entry { newest_version 1 [] ≡ Original 1 }
{}

/// A new function begins at its own address. An original begins after its entry site, so that a jump to the original
/// doesn't call the handler again. A version that doesn't exist has no address.
pub fn versions_begin_where_their_code_does()
    ensures new { target_of patched_kernel (New 0 1)
        ≡ Some (record { version = New 0 1; address = 0xffff_ffff_c000_1100 }) }
    ensures original { target_of patched_kernel (Original 1)
        ≡ Some (record { version = Original 1; address = 0xffff_ffff_8100_2005 }) }
    ensures no_site { target_of patched_kernel (Original 3) ≡ None }
    ensures no_function { target_of patched_kernel (New 0 3) ≡ None }
{}

/// An ENDBR64 stays the first instruction of a function, hooked or not. The entry site begins after the ENDBR64. The
/// call's displacement is counted from the end of the entry site, where the original begins. If a function doesn't
/// begin with ENDBR64, the entry site is the first five bytes.
pub fn entry_sites_are_behind_endbr64()
    ensures resting { (resting tracked).body
        ≡ 0xf3 ∷ 0x0f ∷ 0x1e ∷ 0xfa ∷ 0x0f ∷ 0x1f ∷ 0x44 ∷ 0x00 ∷ 0x00 ∷ 0x90 ∷ 0xc3 ∷ [] }
    ensures hooked { (patched 0xffff_ffff_8100_0000 true tracked).body
        ≡ 0xf3 ∷ 0x0f ∷ 0x1e ∷ 0xfa ∷ 0xe8 ∷ 0xf7 ∷ 0xaf ∷ 0xff ∷ 0xff ∷ 0x90 ∷ 0xc3 ∷ [] }
    ensures original { target_of tracked_kernel (Original 0)
        ≡ Some (record { version = Original 0; address = 0xffff_ffff_8100_5009 }) }
    ensures cut_short { entry_offset (0xf3 ∷ 0x0f ∷ 0x1e ∷ []) ≡ 0 }
    // ENDBR32 isn't ENDBR64, so the entry site doesn't begin after it.
    ensures other { entry_offset (0xf3 ∷ 0x0f ∷ 0x1e ∷ 0xfb ∷ 0xe8 ∷ []) ≡ 0 }
{}

/// Enabling runs pre-patch for the patch's objects in order, up to the first object that refuses. Then post-unpatch
/// runs for the objects before that one.
pub fn enabling_stops_at_the_object_that_refuses()
    ensures first { ran (enable_calls 0 (objects_refusing_in 2)) ≡ (0, Pre) ∷ [] }
    ensures last { ran (enable_calls 0 (objects_refusing_in 1))
        ≡ (0, Pre) ∷ (1, Pre) ∷ (2, Pre) ∷ (0, PostUn) ∷ (1, PostUn) ∷ [] }
    ensures none { ran (enable_calls 0 (objects_refusing_in 3)) ≡ (0, Pre) ∷ (1, Pre) ∷ (2, Pre) ∷ [] }
{}

/// A transition to target 1 ends with post-patch. A transition to target 0 ends with post-unpatch. Both run for the
/// patch's objects in order.
pub fn transitions_end_with_the_callbacks_of_their_target()
    ensures patched { ran (calls_of 0 (end_of true) (objects_refusing_in 3)) ≡ (0, Post) ∷ (1, Post) ∷ (2, Post) ∷ [] }
    ensures withdrawn { ran (calls_of 0 (end_of false) (objects_refusing_in 3))
        ≡ (0, PostUn) ∷ (1, PostUn) ∷ (2, PostUn) ∷ [] }
{}

/// For each object, the callback of a kind runs if the object has one. An object without a pre-patch callback refuses
/// nothing. Only the status of pre-patch counts: any status other than 0 refuses, whatever its sign.
pub fn callbacks_run_where_they_are()
    ensures pre_unpatch { ran (calls_of 0 PreUn (objects_refusing_in 3)) ≡ (0, PreUn) ∷ (1, PreUn) ∷ (2, PreUn) ∷ [] }
    ensures of_the_patch { calls_of 6 Post ((2, object_calling Post (pos 0)) ∷ [])
        ≡ record { patch = 6; place = 2; which = Post; script = editing [] } ∷ [] }
    ensures passed_over { ran (enable_calls 0 ((0, object_without_callbacks) ∷ (1, object_calling Pre (pos 0)) ∷ []))
        ≡ (1, Pre) ∷ [] }
    ensures without { refuses (0, object_without_callbacks) ≡ false }
    ensures success { refuses (0, object_calling Pre (pos 0)) ≡ false }
    ensures above_0 { refuses (0, object_calling Pre (pos 1)) ≡ true }
    ensures below_0 { refuses (0, object_calling Pre (negsuc 15)) ≡ true }
    ensures other_kind { refuses (0, object_calling Post (negsuc 15)) ≡ false }
{}

/// Callbacks change the world one after another, each for its own patch. There must be room for all variables that the
/// callbacks add.
pub fn callbacks_run_one_after_another()
    ensures last { (after_calls four_installed (call_by 3 (SetData 7 1 ∷ []) ∷ call_by 3 (SetData 7 2 ∷ []) ∷ [])).installed
        ≡ patch_4 ∷ patch_5 ∷ patch_6 ∷ patch_3 2 ∷ [] }
    ensures each { (after_calls four_installed (call_by 3 (TakePrev 7 ∷ []) ∷ call_by 6 (SetData 8 68 ∷ []) ∷ [])).installed
        ≡ patch_4 ∷ patch_5 ∷ patch_6 ∷ patch_3 50 ∷ [] }
    ensures room { allocs_of
        (call_by 3 (Alloc (key_of 1 2) [] ∷ Free (key_of 1 2) ∷ Alloc (key_of 1 3) [] ∷ [])
        ∷ call_by 3 (Alloc (key_of 1 2) [] ∷ []) ∷ []) ≡ 3 }
{}

/// A call reaches 2^31 - 1 bytes forward and 2^31 bytes back, counted from the instruction after it. It reaches no byte
/// further, since its displacement is a signed number of 32 bits.
pub fn calls_reach_32_bits_far()
    ensures forward { can_reach 0xffff_ffff_8100_0000 0xffff_ffff_00ff_fffc ≡ true }
    ensures farthest { call 0xffff_ffff_8100_0000 0xffff_ffff_00ff_fffc ≡ 0xe8 ∷ 0xff ∷ 0xff ∷ 0xff ∷ 0x7f ∷ [] }
    ensures too_far { can_reach 0xffff_ffff_8100_0000 0xffff_ffff_00ff_fffb ≡ false }
    ensures back { can_reach 0x1000 0x8000_0ffb ≡ true }
    ensures farthest_back { call 0x1000 0x8000_0ffb ≡ 0xe8 ∷ 0x00 ∷ 0x00 ∷ 0x00 ∷ 0x80 ∷ [] }
    ensures too_far_back { can_reach 0x1000 0x8000_0ffc ≡ false }
{}

/// A patch is compatible if it names each state of each installed patch with the same or a higher version. A patch that
/// isn't cumulative may leave out states of installed patches.
pub fn patches_are_compatible_by_their_states()
    ensures same { is_compatible true (state_of 7 2 ∷ []) ((state_of 7 2 ∷ []) ∷ []) ≡ true }
    ensures higher { is_compatible false (state_of 7 3 ∷ []) ((state_of 7 2 ∷ []) ∷ []) ≡ true }
    ensures lower { is_compatible false (state_of 7 1 ∷ []) ((state_of 7 2 ∷ []) ∷ []) ≡ false }
    ensures lacking { is_compatible false (state_of 8 1 ∷ []) ((state_of 7 2 ∷ []) ∷ []) ≡ true }
    ensures replacing { is_compatible true (state_of 8 1 ∷ []) ((state_of 7 2 ∷ []) ∷ []) ≡ false }
    ensures each_patch { is_compatible false (state_of 7 2 ∷ []) ((state_of 7 2 ∷ []) ∷ (state_of 7 3 ∷ []) ∷ []) ≡ false }
    ensures each_state { is_compatible false (state_of 7 2 ∷ state_of 8 1 ∷ []) ((state_of 7 2 ∷ state_of 8 2 ∷ []) ∷ []) ≡ false }
{}

/// For a patch and a state, the previous state is that of the newest patch which was installed earlier and names the
/// state. The previous state never belongs to the patch itself, nor to a patch that was installed later.
pub fn the_previous_state_is_of_the_newest_patch_before()
    ensures newest { previous_value four_installed 3 7 ≡ Some 50 }
    ensures behind { previous_value four_installed 5 7 ≡ Some 40 }
    ensures not_its_own { previous_value four_installed 6 7 ≡ Some 50 }
    ensures oldest { previous_value four_installed 4 7 ≡ None }
    ensures not_named { previous_value four_installed 3 9 ≡ None }
    ensures own { state_value four_installed 3 7 ≡ Some 30 }
    ensures by_id { state_value four_installed 5 8 ≡ Some 58 }
    ensures no_state { state_value four_installed 6 7 ≡ None }
    ensures no_patch { state_value four_installed 2 7 ≡ None }
{}

/// A patch is added as the newest, with all its states at 0. When the patch is removed, its states are removed too. All
/// other patches stay, also newer ones.
pub fn states_come_at_0_and_go_with_their_patch()
    ensures last { (with_patch (world_of (patch_4 ∷ [])) 2 (7 ∷ 9 ∷ [])).installed
        ≡ patch_4 ∷ record { patch = 2; values = (7, 0) ∷ (9, 0) ∷ [] } ∷ [] }
    ensures leaves { (without_patch four_installed 5).installed ≡ patch_4 ∷ patch_6 ∷ patch_3 30 ∷ [] }
    ensures away { (without_patch four_installed 2).installed ≡ four_installed.installed }
{}

/// A script sets only states that its own patch names. If no older patch has a state, `TakePrev` of that state changes
/// nothing.
pub fn scripts_set_states_of_their_patch()
    ensures set { (effect 3 four_installed (editing (TakePrev 7 ∷ SetData 7 1 ∷ []))).installed
        ≡ patch_4 ∷ patch_5 ∷ patch_6 ∷ patch_3 1 ∷ [] }
    ensures taken { (effect 3 four_installed (editing (SetData 7 1 ∷ TakePrev 7 ∷ []))).installed
        ≡ patch_4 ∷ patch_5 ∷ patch_6 ∷ patch_3 50 ∷ [] }
    ensures one { (effect 5 four_installed (editing (SetData 8 1 ∷ []))).installed
        ≡ patch_4 ∷ record { patch = 5; values = (7, 50) ∷ (8, 1) ∷ [] } ∷ patch_6 ∷ patch_3 30 ∷ [] }
    ensures not_named { (effect 3 four_installed (editing (SetData 8 1 ∷ TakePrev 8 ∷ []))).installed
        ≡ four_installed.installed }
    ensures nothing_before { (effect 4 four_installed (editing (TakePrev 7 ∷ []))).installed ≡ four_installed.installed }
    ensures refused { (effect 3 four_installed (refusing (SetData 7 1 ∷ []))).installed ≡ four_installed.installed }
{}

/// An edit adds a shadow variable only if the variable doesn't exist, and removes only variables that the edit names.
/// There must be room for all variables that edits add, even if other edits remove some. A script that refuses makes no
/// edit.
pub fn scripts_change_the_variables_that_they_name()
    ensures added { edited_at (key_of 1 2) None (Alloc (key_of 1 2) (5 ∷ [])) ≡ Some (5 ∷ []) }
    ensures kept { edited_at (key_of 1 2) (Some (4 ∷ [])) (Alloc (key_of 1 2) (5 ∷ [])) ≡ Some (4 ∷ []) }
    ensures of_another_parent { edited_at (key_of 1 2) None (Alloc (key_of 3 2) (5 ∷ [])) ≡ None }
    ensures of_an_id { edited_at (key_of 1 2) (Some (4 ∷ [])) (FreeAll 2) ≡ None }
    ensures of_another_id { edited_at (key_of 1 2) (Some (4 ∷ [])) (FreeAll 1) ≡ Some (4 ∷ []) }
    ensures adding { alloc_count
        (Alloc (key_of 1 2) [] ∷ Free (key_of 1 2) ∷ FreeAll 2 ∷ SetData 7 1 ∷ TakePrev 7 ∷ Alloc (key_of 1 2) [] ∷ []) ≡ 2 }
    ensures touched { touches (editing (SetData 7 1 ∷ Free (key_of 1 2) ∷ [])) (key_of 1 2) ≡ true }
    ensures of_one_parent { touches (editing (Free (key_of 3 2) ∷ [])) (key_of 1 2) ≡ false }
    ensures states { touches (editing (SetData 2 1 ∷ TakePrev 2 ∷ [])) (key_of 1 2) ≡ false }
    ensures untouched { touches (refusing (Free (key_of 1 2) ∷ [])) (key_of 1 2) ≡ false }
    ensures refused { edits_made (refusing (Free (key_of 1 2) ∷ [])) ≡ [] }
{}

/// Keys are ordered by the parent object first, and then by the id. A value can be read as a number only if it has
/// eight bytes.
pub fn keys_go_by_their_parent_first()
    ensures parent { key_cmp (key_of 1 9) (key_of 2 3) ≡ Less }
    ensures id { key_cmp (key_of 2 9) (key_of 2 3) ≡ Greater }
    ensures seven { number_of (1 ∷ 0 ∷ 0 ∷ 0 ∷ 0 ∷ 0 ∷ 0 ∷ []) ≡ None }
    ensures nine { number_of (1 ∷ 0 ∷ 0 ∷ 0 ∷ 0 ∷ 0 ∷ 0 ∷ 0 ∷ 0 ∷ []) ≡ None }
{}

/// Sites are counted over all objects in order. Each site belongs to the object of its symbol. A function whose symbol
/// isn't found has no site.
pub fn sites_lie_in_their_objects()
    ensures last_of_the_kernel { object_of kernel.objects 1 ≡ Some 0 }
    ensures first_of_the_module { object_of kernel.objects 2 ≡ Some 1 }
    ensures none { object_of kernel.objects 3 ≡ None }
    ensures function { function_for
        (record { site = None; address = 1 } ∷ record { site = Some 1; address = 2 } ∷ record { site = Some 0; address = 3 } ∷ []) 0
        ≡ Some 2 }
{}

/// The first case that holds gives the reason for a refusal. If no case holds, the event's outcome is the result.
pub fn the_first_reason_decides()
    ensures first { first_of {R = ℕ} ((false, 1) ∷ (true, 2) ∷ (true, 3) ∷ []) ≡ Some 2 }
    ensures none { first_of {R = ℕ} ((false, 1) ∷ []) ≡ None }
    ensures refused { unless {A = ℕ} {R = ℕ} (Some 1) 2 ≡ Err 1 }
    ensures done { unless {A = ℕ} {R = ℕ} None 2 ≡ Ok 2 }
{}

/// One script undoes another if, after both have run, each variable that either script touches is as it was before. So
/// freeing a variable undoes adding it only if the variable didn't exist before.
pub fn a_script_undoes_another_where_all_is_as_before()
    ensures undone { Undoes 0 (editing (Free (key_of 1 2) ∷ [])) (editing (Alloc (key_of 1 2) [] ∷ [])) (world_of []) }
    ensures there_before { Undoes 0 (editing (Free (key_of 1 2) ∷ [])) (editing (Alloc (key_of 1 2) [] ∷ []))
        (with_variable (world_of []) (key_of 1 2) (5 ∷ [])) → ⊥ }
    ensures of_the_first { Undoes 0 (editing []) (editing (Alloc (key_of 1 2) [] ∷ [])) (world_of []) → ⊥ }
    ensures of_the_second { Undoes 0 (editing (Free (key_of 1 2) ∷ [])) (editing [])
        (with_variable (world_of []) (key_of 1 2) (5 ∷ [])) → ⊥ }
{}

/// If a search finds a number, that number has the property, and no other number has it. If the search finds nothing,
/// no number has the property.
pub fn what_is_found_is_all_there_is()
    ensures has { (has : ℕ → Bool) (x : ℕ) → Finds (λ n. has n ≡ true) (Some x) → has x ≡ true }
    ensures alone { (has : ℕ → Bool) (x y : ℕ) → Finds (λ n. has n ≡ true) (Some x) → has y ≡ true → y ≡ x }
    ensures none { (has : ℕ → Bool) (y : ℕ) → Finds (λ n. has n ≡ true) None → has y ≡ true → ⊥ }
{}

/// The catalog says which system states a patch names, and whether the patch replaces older patches. A patch that
/// doesn't exist names nothing and replaces nothing.
pub fn patches_are_what_the_catalog_tells()
    ensures states { named_states naming_kernel 1 ≡ state_of 7 1 ∷ state_of 9 2 ∷ [] }
    ensures ids { state_ids naming_kernel 1 ≡ 7 ∷ 9 ∷ [] }
    ensures no_states { state_ids naming_kernel 2 ≡ [] }
    ensures replacing { replaces naming_kernel 1 ≡ true }
    ensures living_beside { replaces naming_kernel 0 ≡ false }
    ensures no_patch { replaces naming_kernel 2 ≡ false }
{}

/// A patch state is -1, 0 or 1. If no task has a number, the task of that number is inside of no function.
pub fn tasks_have_one_of_three_states()
    ensures at_rest { IsPatchState (negsuc 0) }
    ensures unpatched { IsPatchState (pos 0) }
    ensures patched { IsPatchState (pos 1) }
    ensures above { IsPatchState (pos 2) → ⊥ }
    ensures below { IsPatchState (negsuc 1) → ⊥ }
    ensures frames { frames_of (Some (record { state = pos 0; mode = Asleep; frames = Original 0 ∷ New 1 2 ∷ [] }))
        ≡ Original 0 ∷ New 1 2 ∷ [] }
    ensures nobody { frames_of None ≡ [] }
{}

/// Returns the three patch states. They have the kernel's numbers: -1 if there is no transition, 0 for a task that
/// doesn't run the patch, 1 for a task that does.
pub fn states_are_numbered_as_the_kernel_does() -> (PatchState, PatchState, PatchState)
    ensures nothing_moves { result.0 ≡ negsuc 0 }
    ensures unpatched { result.1 ≡ pos 0 }
    ensures patched { result.2 ≡ pos 1 }
{
    (
        PatchState::UNDEFINED,
        PatchState::UNPATCHED,
        PatchState::PATCHED,
    )
}

/// Only the records of the current event use up the event's room. The records of earlier events don't use it up.
pub fn records_of_one_event_take_room()
    ensures { spare_of (record { logged = NothingMoving ∷ NothingMoving ∷ []; room = 5; older = NothingMoving ∷ [] }) ≡ 3 }
{}
