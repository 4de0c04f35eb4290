//! What is proved of the records of scripts. A function of this module does nothing. Its contract is the law, which
//! holds of every world, patch and script.
ghost use Rattle.std.specs.Prelude.{◌≡◌, ℕ, ◌+◌, ◌≤◌, true, List, length};
ghost use Rattle.std.specs.List.{All};
ghost use Rattle.klp_types.specs.declared.shadow.ShadowKey.{ShadowKey};
ghost use Rattle.std.specs.FinMap as finite;
ghost use Rattle.klp_types.specs.World.{World, without_id};
ghost use Rattle.klp_types.specs.Script.{Script, alloc_count, effect};
ghost use Rattle.klp_world.specs.StoredEvent.{rows_of_alloc, rows_of_free, rows_of_free_all, rows_of_add, rows_of_drop};
ghost use Rattle.klp_world.specs.StoredEvent.{rows_of_script};
ghost use Rattle.klp_world.specs.Undo.{undone, is_of_world, HaveEffects};

use klp_types::MAX_VARIABLES;

/// Two scripts that touch no common shadow variable leave the same variables in either order.
pub use klp_types::laws::scripts_apart_commute;

/// A script logs at most one record for each edit, one more for each edit that adds a shadow variable, and one for each
/// variable that the script removes. Removed variables are counted because removing an id logs every variable with that
/// id.
pub fn records_are_few()
    ensures { (patch : ℕ) (world : World) (script : Script)
        → length (rows_of_script patch world script) + finite.len (effect patch world script).shadow
        ≤ finite.len world.shadow + length script.edits + alloc_count script.edits }
{}

/// When an id is removed, the number of logged variables and the number of variables that are left add up to the number
/// of all variables before. So a removal logs exactly one record for each variable that it removes.
pub fn freed_and_left_are_all()
    ensures { (world : World) (id : ℕ)
        → length (rows_of_free_all world id) + finite.len (without_id world id).shadow ≡ finite.len world.shadow }
{}

/// If a world has room for all variables that a script adds, putting back the records of the script restores that
/// world. The room is needed because a variable that is put back needs room too.
pub fn scripts_are_undone()
    ensures { (patch : ℕ) (world : World) (script : Script)
        → finite.len world.shadow + alloc_count script.edits ≤ MAX_VARIABLES
        → undone (effect patch world script) (rows_of_script patch world script) ≡ world }
{}

/// If the world before a script has room for all variables that the script adds, each record of the script changes a
/// row when it is put back in its turn. An edit that doesn't change a row logs nothing.
#[tactic(auto, using(crate::proofs::EffectLemmas::effective_script))]
pub fn scripts_tell_what_they_change()
    ensures { (patch : ℕ) (world : World) (script : Script)
        → finite.len world.shadow + alloc_count script.edits ≤ MAX_VARIABLES
        → HaveEffects (effect patch world script) (rows_of_script patch world script) }
{}

/// Changes of the world log only rows of the world. So the other parts of a manager needn't read these records.
#[tactic(auto, using(crate::proofs::KindLemmas::of_free_all, crate::proofs::KindLemmas::of_add, crate::proofs::KindLemmas::of_drop, crate::proofs::KindLemmas::of_script))]
pub fn what_is_logged_is_of_the_world()
    ensures alloc { (world : World) (key : ShadowKey) → All (λ row. is_of_world row ≡ true) (rows_of_alloc world key) }
    ensures free { (world : World) (key : ShadowKey) → All (λ row. is_of_world row ≡ true) (rows_of_free world key) }
    ensures free_all { (world : World) (id : ℕ) → All (λ row. is_of_world row ≡ true) (rows_of_free_all world id) }
    ensures add { (patch : ℕ) (ids : List ℕ) → All (λ row. is_of_world row ≡ true) (rows_of_add patch ids) }
    ensures drop { (world : World) (patch : ℕ) → All (λ row. is_of_world row ≡ true) (rows_of_drop world patch) }
    ensures script { (patch : ℕ) (world : World) (script : Script)
        → All (λ row. is_of_world row ≡ true) (rows_of_script patch world script) }
{}
