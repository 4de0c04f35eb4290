//! What is proved of the definitions themselves. Each law is the contract of a function that does nothing. A crate
//! above may rely on the laws.
ghost use Rattle.std.specs.Prelude.{◌≡◌, ℕ, ◌≤◌, List, length};
ghost use Rattle.klp_types.specs.declared.task.Task.{Task as AnyTask};
ghost use Rattle.klp_types.specs.declared.version.Version.{Version as AnyVersion};
ghost use Rattle.klp_model.specs.Task.{Tasks};
ghost use Rattle.klp_model.specs.State.{State, with_tasks};
ghost use Rattle.klp_model.specs.TaskStep.{change};
ghost use Rattle.klp_tasks.specs.Changes.{changed, records_switched, HaveEffects};
ghost use Rattle.klp_tasks.specs.Members.{VersionFlags, IsSetOf};

/// Changing one task's row in the table has the same effect as the step that the model defines for a task event. So the
/// table always agrees with the model.
pub fn rows_change_as_the_step_says()
    ensures { (state : State) (number : ℕ) (f : AnyTask → AnyTask)
        → change state number f ≡ with_tasks state (changed state.tasks number f) }
{}

/// Switching tasks logs at most one record for each task number. So room for 64 records is enough for any switch.
pub fn records_are_few()
    ensures { (number : ℕ) (before : Tasks) (after : Tasks)
        → length (records_switched number before after) ≤ length before }
{}

/// A switch logs only tasks whose state it changes. So each of the switch's records changes the row of a task when it
/// is put back in its turn.
#[tactic(auto, using(crate::proofs::EffectLemmas::switched_effective))]
pub fn switches_tell_what_they_change()
    ensures { (before : Tasks) (after : Tasks) → HaveEffects after (records_switched 0 before after) }
{}

/// For every set of versions there is a list with exactly the same versions. So if a fact is proved for the set of each
/// list, it holds for every set.
pub fn every_set_is_that_of_a_list()
    ensures { (flags : VersionFlags) → (versions : List AnyVersion) × IsSetOf flags versions }
{}
