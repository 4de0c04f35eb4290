ghost use Rattle.std.specs.Prelude.{◌≡◌, ◌≤◌, length};
ghost use Rattle.klp_types.specs.Script.{alloc_count, effect};
ghost use Rattle.klp_world.specs.StoredEvent.{rows_of_script};
ghost use Rattle.klp_world.specs.Changes.{Changes, HasRoom};
ghost use Rattle.klp_callback.specs.LentCallback.{counted};

use crate::callback::Callback;
use crate::edits::{allocs_of, is_same, run_script};
use klp_journal::Records;
use klp_types::PatchId;
use klp_world::{MAX_EDITS, Script, World};

/// A callback in its box, with copies of the script and the count that the callback reported.
///
/// A contract can't look into a box, so [`crate::Boxed`] shows these copies. Only code in this file can change the
/// copies. Only [`CountedBox::run`] increases the count, and its contract says that the callback in the box ran too.
#[derive(Drop)]
pub(crate) struct CountedBox {
    script: Script,
    runs: u64,
    callback: Box<dyn Callback>,
}

impl CountedBox {
    /// Stores a callback, with copies of its script and its count. The copies are made at this point because the
    /// callback's contract is still known.
    pub(crate) fn new(callback: Box<dyn Callback>) -> Self
        ensures script { result.script ≡ script_of callback }
        ensures runs { result.runs ≡ runs_of callback }
    {
        Self {
            script: callback.script().copy(),
            runs: callback.runs(),
            callback,
        }
    }

    /// Runs the callback in the box, and returns the script's status. The callback's script is read again. By the
    /// trait's contract it is equal to the stored copy. If it weren't equal, the stored copy would run instead.
    pub(crate) fn run(&mut self, patch: PatchId, world: &mut World, log: &mut Records) -> i32
        requires room { HasRoom world.old log.old (alloc_count self.old.script.edits)
            (rows_of_script patch world.old self.old.script) }
        ensures status { result ≡ self.old.script.status }
        ensures script { self.new.script ≡ self.old.script }
        ensures runs { self.new.runs ≡ counted self.old.runs }
        ensures box_script { script_of self.new.callback ≡ script_of self.old.callback }
        ensures box_runs { script_of self.old.callback ≡ self.old.script
            → runs_of self.new.callback ≡ counted (runs_of self.old.callback) }
        ensures changes { Changes world.old world.new log.old log.new (effect patch world.old self.old.script)
            (rows_of_script patch world.old self.old.script) }
    {
        self.runs = self.runs.saturating_add(1);
        // The contract of `new` isn't known at this point, so the scripts are compared (docs/DECISIONS.md, "The script
        // of a boxed callback").
        if is_same(self.callback.script(), &self.script) {
            self.callback.run(patch, world, log)
        } else {
            run_script(&self.script, patch, world, log)
        }
    }

    /// Returns how many edits of the script add a shadow variable. The number is counted in the stored copy of the
    /// script.
    pub(crate) fn allocs(&self) -> u16
        ensures value { result ≡ alloc_count self.now.script.edits }
        ensures limit { length self.now.script.edits ≤ MAX_EDITS }
    {
        allocs_of(&self.script)
    }

    /// Returns how many times the callback ran, by the stored copy of the count. The count stops at the greatest `u64`.
    pub(crate) fn runs(&self) -> u64
        ensures { result ≡ self.now.runs }
    {
        self.runs
    }
}
