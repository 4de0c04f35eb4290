ghost use Rattle.std.specs.Prelude.{◌≡◌, ℕ};
ghost use Rattle.klp_types.specs.Script.{Script as ScriptOfEdits, alloc_count, effect};
ghost use Rattle.klp_world.specs.StoredEvent.{rows_of_script};
ghost use Rattle.klp_world.specs.Changes.{Changes, HasRoom};
ghost use Rattle.klp_callback.specs.LentCallback.{counted};

use klp_journal::Records;
use klp_types::PatchId;
use klp_world::{Script, World};

/// A callback of a patch for one of its objects (callbacks). Its model is a script, which never changes, and a count of
/// its runs. A kernel's callback can run any code. With a script, a contract can say what the callback did.
pub trait Callback: Drop + Send {
    ghost script_of: { Self → ScriptOfEdits };

    ghost runs_of: { Self → ℕ };

    /// Runs the callback for the patch. Makes the edits of its script, logs every row that the edits change, counts the
    /// run, and returns the script's status. The run takes no memory. A run whose status isn't 0 is counted too, but
    /// makes no edit.
    fn run(&mut self, patch: PatchId, world: &mut World, log: &mut Records) -> i32
        requires room { HasRoom world.old log.old (alloc_count (script_of self.old).edits)
            (rows_of_script patch world.old (script_of self.old)) }
        ensures status { result ≡ (script_of self.old).status }
        ensures script { script_of self.new ≡ script_of self.old }
        ensures runs { runs_of self.new ≡ counted (runs_of self.old) }
        ensures changes { Changes world.old world.new log.old log.new (effect patch world.old (script_of self.old))
            (rows_of_script patch world.old (script_of self.old)) };

    /// Returns how many edits of the script add a shadow variable. Before a run, callers make sure that there is room
    /// for that many variables, so that no run fails half way.
    fn allocs(&self) -> u16
        ensures { result ≡ alloc_count (script_of self.now).edits };

    /// Returns how many times the callback ran. The count stops at the greatest `u64`. Undoing a run doesn't reduce the
    /// count.
    fn runs(&self) -> u64
        ensures { result ≡ runs_of self.now };

    /// Returns a reference to the script that the callback runs. A [`Boxed`](crate::Boxed) calls this at each run. A
    /// script is too long to be copied at each run (docs/DECISIONS.md, "The script of a boxed callback").
    fn script(&self) -> &Script
        ensures { result.now ≡ script_of self.now };
}
