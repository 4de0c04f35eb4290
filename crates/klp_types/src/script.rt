ghost use Rattle.std.specs.Prelude.{◌≡◌};

use crate::edit::Edit;
use crate::limits::MAX_EDITS;
use arrayvec::ArrayVec;
use std::marker::Model;

/// What a callback does: a script makes edits of the world in order, and returns a status. If the status isn't 0, the
/// script makes no edit. So a pre-patch callback that refuses leaves nothing to undo. (Scripts are this project's own,
/// since a kernel's callback is code.)
#[derive(Drop)]
pub struct Script {
    pub edits: ArrayVec<Edit, MAX_EDITS>,
    pub status: i32,
}

impl Model for Script {
    ghost use Rattle.std.specs.Prelude.{FitsSigned};
    ghost use Rattle.std.specs.Int.{w32};
    ghost use Rattle.klp_types.specs.Script.{Script as ScriptOfEdits};

    ghost Value = { ScriptOfEdits };

    ghost view = { λ s. record { edits = s.edits.items; status = s.status } };

    ghost invariant = { λ s. FitsSigned w32 s.status };
}

impl Script {
    /// Returns a copy with the same edits and status. This function is needed because an array of edits isn't `Copy`.
    pub fn copy(&self) -> Script
        ensures { result ≡ self.now }
    {
        let mut edits = ArrayVec::new();
        let _ = edits.try_extend_from_slice(&self.edits);
        Script {
            edits,
            status: self.status,
        }
    }
}
