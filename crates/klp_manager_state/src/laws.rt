//! Laws of the states in which a manager may be. A function of this module does nothing: its contract is the law.
ghost use Rattle.std.specs.Prelude.{◌≡◌, ◌≢◌, ℕ, true, false, List, None};
ghost use Rattle.std.specs.List.{All};
ghost use Rattle.klp_types.specs.declared.record.Record.{Record};
ghost use Rattle.klp_types.specs.Records.{RecordList};
ghost use Rattle.klp_types.specs.World.{World};
ghost use Rattle.klp_model.specs.Task.{Tasks};
ghost use Rattle.klp_world.specs.StoredEvent.{noting};
ghost use Rattle.klp_world.specs.Undo as of_world;
ghost use Rattle.klp_world.specs.Undo.{is_of_world};
ghost use Rattle.klp_tasks.specs.Changes as of_tasks;
ghost use Rattle.klp_sites.specs.Undo.{hook_of};
ghost use Rattle.klp_manager_state.specs.StepLaws.{StepLaws};
ghost use Rattle.klp_manager_state.specs.Alone.{AreTasksTaken, IsWorldTaken};
ghost use Rattle.klp_manager_state.specs.Rows.{Rows, is_of_tasks, put_back, has_effect, WorldGoesBack, TasksGoBack};
ghost use Rattle.klp_types.specs.World.{previous_patch};
ghost use Rattle.klp_model.specs.State.{installed_patches};
ghost use Rattle.klp_model.specs.Stated.{IsStated};
ghost use Rattle.klp_catalog.specs.States.{previous_state};
ghost use Rattle.klp_manager_state.specs.Managed.{Managed, setting_of};
ghost use Rattle.klp_types.specs.Setting.{Setting};
ghost use Rattle.klp_types.specs.Entries.{is_empty};
ghost use Rattle.klp_model.specs.Allowed.{Allowed};
ghost use Rattle.klp_model.specs.Opening.{opening_state};

/// When a callback takes over the value of a state from an older patch, world and catalog agree on which patch that is:
/// the newest patch that was installed before and names the state. The world finds this patch by the states that it
/// stores. The two agree because in every manager each installed patch has the states that the catalog gives it.
pub fn previous_states_agree()
    ensures { (managed : Managed) (patch id : ℕ) → IsStated (setting_of managed) managed.state
        → previous_patch managed.state.world patch id
        ≡ previous_state managed.catalog patch id (installed_patches managed.state) }
{}

/// The facts of the opening state that boot needs. The opening state is allowed. Each installed patch has its states,
/// since no patch is installed.
pub(crate) fn opening_keeps()
    ensures allowed { (setting : Setting) → is_empty setting.image.objects ≡ false
        → Allowed setting (opening_state setting) }
    ensures stated { (setting : Setting) → IsStated setting (opening_state setting) }
{
    klp_model::laws::the_opening_state_is_allowed();
    klp_model::laws::installed_patches_have_their_states();
}

/// If these facts hold before a step, they hold after it. They are in one law, so that each event's function calls only
/// one law.
pub fn steps_keep()
    ensures { StepLaws }
{
    klp_model::laws::states_stay_allowed();
    klp_model::laws::installed_patches_have_their_states();
    klp_catalog::laws::runs_add_up();
}

/// Suppose nothing refuses an event, and the event runs no callback and changes only rows of one kind. Then making this
/// change does the event as the model defines it. The events of tasks and of shadow variables are proved by this law.
#[tactic(auto, using(crate::proofs::StepLemmas::tasks_taken, crate::proofs::StepLemmas::world_taken))]
pub fn changes_of_one_kind_are_taken()
    ensures tasks { AreTasksTaken }
    ensures world { IsWorldTaken }
{}

/// If each record of a change has an effect, putting the records back restores the rows before the change, whatever is
/// logged of other rows. So proofs about the records of one kind of rows don't need the records of other kinds.
#[tactic(auto, using(crate::proofs::RowLemmas::world_back, crate::proofs::RowLemmas::tasks_back))]
pub fn what_is_logged_gives_the_rows_back()
    ensures world { (before after : World) (log_before log_after : RecordList) (rows : List Record)
        → All (λ row. is_of_world row ≡ true) rows → log_after ≡ noting log_before rows
        → of_world.undone after rows ≡ before → of_world.HaveEffects after rows
        → WorldGoesBack before after log_before log_after }
    ensures tasks { (before after : Tasks) (log_before log_after : RecordList) (rows : List Record)
        → All (λ row. is_of_tasks row ≡ true) rows → log_after ≡ noting log_before rows
        → of_tasks.undone after rows ≡ before → of_tasks.HaveEffects after rows
        → TasksGoBack before after log_before log_after }
{}

/// A record that has an effect changes the rows when it is put back, unless it is the record of a hook. The hook of a
/// site follows the site's entries, so putting back the hook's record changes nothing. The hook's record still counts
/// as having an effect, because it is logged right after the record of the entry.
#[tactic(auto, using(crate::proofs::EffectLemmas::changed_if))]
pub fn what_tells_a_change_has_an_effect()
    ensures { (rows : Rows) (row : Record) → has_effect rows row ≡ true → hook_of row ≡ None
        → put_back rows row ≢ rows }
{}
