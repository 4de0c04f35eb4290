ghost use Rattle.std.specs.Prelude.{◌≡◌, []};

use crate::callback::Callback;
use arrayvec::ArrayVec;
use klp_journal::Records;
use klp_types::PatchId;
use klp_world::{Script, World};
use std::marker::Model;

/// A callback that makes no edit and returns a fixed status. If the status isn't 0 and the callback is a pre-patch
/// callback, it refuses its patch.
#[derive(Drop)]
pub struct Refusing {
    /// The script, which has the status and no edits. `script` returns a reference to it.
    script: Script,
    runs: u64,
}

impl Model for Refusing {
    ghost use Rattle.std.specs.Prelude.{◌≡◌, []};
    ghost use Rattle.klp_callback.specs.LentCallback.{Refusal};

    ghost Value = { Refusal };

    ghost view = { λ r. record { status = r.script.status; runs = r.runs } };

    ghost invariant = { λ r. r.script.edits ≡ [] };
}

impl Refusing {
    /// Creates a callback that has never run and returns this status. Status 0 refuses nothing.
    pub fn new(status: i32) -> Self
        ensures { result ≡ record { status = status; runs = 0 } }
    {
        Self {
            script: Script {
                edits: ArrayVec::new(),
                status,
            },
            runs: 0,
        }
    }
}

impl Callback for Refusing {
    ghost script_of = { λ r. record { edits = []; status = r.status } };

    ghost runs_of = { λ r. r.runs };

    fn run(&mut self, _patch: PatchId, _world: &mut World, _log: &mut Records) -> i32 {
        self.runs = self.runs.saturating_add(1);
        self.script.status
    }

    fn allocs(&self) -> u16 {
        0
    }

    fn runs(&self) -> u64 {
        self.runs
    }

    fn script(&self) -> &Script {
        &self.script
    }
}
