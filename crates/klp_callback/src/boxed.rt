ghost use Rattle.std.specs.Prelude.{◌≡◌, ◌≤◌, length};
ghost use Rattle.klp_types.specs.Script.{alloc_count, effect};
ghost use Rattle.klp_world.specs.StoredEvent.{rows_of_script};
ghost use Rattle.klp_world.specs.Changes.{Changes, HasRoom};
ghost use Rattle.klp_callback.specs.LentCallback.{after_run};

use crate::callback::Callback;
use crate::counted_box::CountedBox;
use klp_journal::Records;
use klp_types::PatchId;
use klp_world::{MAX_EDITS, World};
use std::marker::Model;

/// A boxed callback. Its model is its script and its count of runs, as the callback reported them when the box was
/// made. Script and count are stored outside of the box, since contracts know nothing of a value inside of a box
/// (docs/DECISIONS.md, "Models and boxes").
#[derive(Drop)]
pub struct Boxed {
    counted: CountedBox,
}

impl Model for Boxed {
    ghost use Rattle.klp_callback.specs.LentCallback.{LentCallback};

    ghost Value = { LentCallback };

    ghost view = { λ b. record { script = b.counted.script; runs = b.counted.runs } };
}

impl Boxed {
    /// Makes a boxed callback. The callback's script and count are read now, since a contract can't look into the box
    /// afterwards.
    pub fn new(callback: Box<dyn Callback>) -> Self
        ensures { result ≡ record { script = script_of callback; runs = runs_of callback } }
    {
        Self {
            counted: CountedBox::new(callback),
        }
    }

    /// Runs the callback for the patch, as [`Callback::run`] does, and returns the script's status.
    ///
    /// At each run, the callback's script is read again. Comparing it with the stored script costs at most
    /// [`klp_world::MAX_EDITS`] comparisons of edits.
    pub fn run(&mut self, patch: PatchId, world: &mut World, log: &mut Records) -> i32
        requires room { HasRoom world.old log.old (alloc_count self.old.script.edits)
            (rows_of_script patch world.old self.old.script) }
        ensures status { result ≡ self.old.script.status }
        ensures lent { self.new ≡ after_run self.old }
        ensures changes { Changes world.old world.new log.old log.new (effect patch world.old self.old.script)
            (rows_of_script patch world.old self.old.script) }
    {
        self.counted.run(patch, world, log)
    }

    /// Returns how many edits of the script add a shadow variable. A run needs room for that many variables.
    pub fn allocs(&self) -> u16
        ensures value { result ≡ alloc_count self.now.script.edits }
        ensures limit { length self.now.script.edits ≤ MAX_EDITS }
    {
        self.counted.allocs()
    }

    /// Returns how many times the callback ran. The count stops at the greatest `u64`, so no run is refused because of
    /// the count.
    pub fn runs(&self) -> u64
        ensures { result ≡ self.now.runs }
    {
        self.counted.runs()
    }
}
