ghost use Rattle.std.specs.Prelude.{◌≡◌, pos, []};

use crate::callback::Callback;
use arrayvec::ArrayVec;
use klp_journal::Records;
use klp_types::PatchId;
use klp_world::{Script, World};
use std::marker::Model;

/// A callback that makes no edit and succeeds. It is for places where a callback is required but nothing has to happen.
#[derive(Drop)]
pub struct Quiet {
    /// The empty script, to which `script` returns a reference.
    script: Script,
    runs: u64,
}

impl Model for Quiet {
    ghost use Rattle.std.specs.Prelude.{◌≡◌, ℕ, pos, []};

    ghost Value = { ℕ };

    ghost view = { λ q. q.runs };

    ghost invariant = { λ q. q.script ≡ record { edits = []; status = pos 0 } };
}

impl Quiet {
    /// Creates a callback that has never run, with the empty script.
    pub fn new() -> Self
        ensures { result ≡ 0 }
    {
        Self {
            script: Script {
                edits: ArrayVec::new(),
                status: 0,
            },
            runs: 0,
        }
    }
}

impl Callback for Quiet {
    ghost script_of = { λ _. record { edits = []; status = pos 0 } };

    ghost runs_of = { λ runs. runs };

    fn run(&mut self, _patch: PatchId, _world: &mut World, _log: &mut Records) -> i32 {
        self.runs = self.runs.saturating_add(1);
        0
    }

    fn allocs(&self) -> u16 {
        0
    }

    fn runs(&self) -> u64 {
        self.runs
    }

    fn script(&self) -> &Script {
        &self.script
    }
}
