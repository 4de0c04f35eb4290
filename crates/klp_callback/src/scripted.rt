ghost use Rattle.std.specs.Prelude.{◌≡◌};

use crate::callback::Callback;
use crate::edits::{allocs_of, run_script};
use klp_journal::Records;
use klp_types::PatchId;
use klp_world::{Script, World};
use std::marker::Model;

/// A callback that runs any script, for example one from a catalog's text.
#[derive(Drop)]
pub struct Scripted {
    script: Script,
    runs: u64,
}

impl Model for Scripted {
    ghost use Rattle.klp_callback.specs.LentCallback.{LentCallback};

    ghost Value = { LentCallback };

    ghost view = { λ s. record { script = s.script; runs = s.runs } };
}

impl Scripted {
    /// Creates a callback that has never run, with this script. The callback owns the script, so nobody can change it.
    pub fn new(script: Script) -> Self
        ensures { result ≡ record { script = script; runs = 0 } }
    {
        Self { script, runs: 0 }
    }
}

impl Callback for Scripted {
    ghost script_of = { λ s. s.script };

    ghost runs_of = { λ s. s.runs };

    fn run(&mut self, patch: PatchId, world: &mut World, log: &mut Records) -> i32 {
        self.runs = self.runs.saturating_add(1);
        run_script(&self.script, patch, world, log)
    }

    fn allocs(&self) -> u16 {
        allocs_of(&self.script)
    }

    fn runs(&self) -> u64 {
        self.runs
    }

    fn script(&self) -> &Script {
        &self.script
    }
}
