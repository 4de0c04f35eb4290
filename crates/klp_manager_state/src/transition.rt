//! The patch in transition, as a row of the state. So undo puts it back like any other row.
ghost use Rattle.std.specs.Prelude.{◌≡◌, ◌≢◌, ◌<◌, ◌∷◌, [], length, not};
ghost use Rattle.klp_types.specs.Records.{spare_of};
ghost use Rattle.klp_model.specs.Refusals.{moves_out};
ghost use Rattle.klp_sites.specs.Changes.{noting};
ghost use Rattle.klp_manager_state.specs.Rows.{row_of_moving, rows_before, put_moving};

use crate::state::ManagerState;
use klp_types::{PatchId, Record, Transition};

/// Returns the transition that the record has, which is the transition before the change. For a record of another kind,
/// returns `moving`, as the definition.
pub(crate) fn moving_before(moving: Option<Transition>, row: Record) -> Option<Transition>
    ensures { result ≡ put_moving moving row }
{
    match row {
        Record::Moving { was } => Some(was),
        Record::NothingMoving => None,
        _ => moving,
    }
}

impl ManagerState {
    /// Returns the value that the `enabled` file of an installed patch reads. The value is false while the patch is in
    /// transition to target 0, otherwise true.
    pub fn enabled_value(&self, patch: PatchId) -> bool
        ensures { result ≡ not (moves_out self.now.moving patch) }
    {
        match self.moving {
            Some(moving) => moving.patch != patch || moving.target,
            None => true,
        }
    }

    /// Replaces the transition by another one, or by none, and logs the old transition, so that undo restores it. The
    /// new value must differ from the old value, since an unchanged row gets no record.
    #[tactic(auto, using(crate::proofs::RowLemmas::moving_back))]
    pub fn set_moving(&mut self, moving: Option<Transition>)
        requires room { 0 < spare_of self.old.log }
        requires other { self.old.moving ≢ moving }
        ensures parts { self.new
            ≡ record self.old { moving = moving; log = noting self.old.log (row_of_moving self.old.moving ∷ []) } }
        ensures logged { rows_before self.new ≡ rows_before self.old }
    {
        let row = match self.moving {
            Some(was) => Record::Moving { was },
            None => Record::NothingMoving,
        };
        self.log.note(row);
        self.moving = moving;
    }
}
