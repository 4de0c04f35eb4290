//! The patches of a catalog, their system states, and their callbacks.
ghost use Rattle.std.specs.Prelude.{◌≡◌, ℕ, ◌<◌, ◌≤◌, List, Some, Ok, length, option_map, IfOk, IfErr};
ghost use Rattle.std.specs.List.{All};
ghost use Rattle.klp_types.specs.declared.callback.Which.{Which};
ghost use Rattle.klp_types.specs.Callbacks.{Call};
ghost use Rattle.klp_types.specs.Script.{alloc_count, effect};
ghost use Rattle.klp_world.specs.Changes.{Changes, HasRoom};
ghost use Rattle.klp_world.specs.StoredEvent.{rows_of_script};
ghost use Rattle.klp_catalog_text.specs.Text.{plan_of, IsFaultOf};
ghost use Rattle.klp_catalog_text.specs.Within.{AreTargetsWithin};
ghost use Rattle.klp_callback.specs.LentCallback.{after_run};
ghost use Rattle.klp_catalog.specs.Catalog.{Catalog as AnyCatalog};
ghost use Rattle.klp_catalog.specs.Counts.{times, grown};
ghost use Rattle.klp_catalog.specs.Runs.{after_runs, runs_of, RunsAddUp};
ghost use Rattle.klp_catalog.specs.States as states;

use klp_callback::Boxed;
use klp_catalog::{Catalog, Plan, TextFault};
use klp_journal::Records;
use klp_types::{PatchId, Script};
use klp_world::World;
use std::alloc::Global;

/// Runs a script for a patch, as [`klp_callback::run_script`] does.
pub fn run_script(script: &Script, patch: PatchId, world: &mut World, log: &mut Records) -> i32
    requires room { HasRoom world.old log.old (alloc_count script.now.edits)
        (rows_of_script patch world.old script.now) }
    ensures status { result ≡ script.now.status }
    ensures changes { Changes world.old world.new log.old log.new (effect patch world.old script.now)
        (rows_of_script patch world.old script.now) }
{
    klp_callback::run_script(script, patch, world, log)
}

/// Runs a boxed callback for a patch, as [`Boxed::run`] does.
pub fn run(callback: &mut Boxed, patch: PatchId, world: &mut World, log: &mut Records) -> i32
    requires room { HasRoom world.old log.old (alloc_count callback.old.script.edits)
        (rows_of_script patch world.old callback.old.script) }
    ensures status { result ≡ callback.old.script.status }
    ensures lent { callback.new ≡ after_run callback.old }
    ensures changes { Changes world.old world.new log.old log.new (effect patch world.old callback.old.script)
        (rows_of_script patch world.old callback.old.script) }
{
    callback.run(patch, world, log)
}

/// Reads a text into a plan, as [`Catalog::read`] does.
pub fn read(alloc: Global, text: &[u8]) -> Result<Plan, TextFault>
    ensures plan { IfOk result (λ plan. plan_of text.now ≡ Ok plan) }
    ensures targets { IfOk result (λ plan. AreTargetsWithin (length plan.objects) plan.patches) }
    ensures fault { IfErr result (λ fault. IsFaultOf text.now fault.line fault.kind) }
{
    Catalog::read(alloc, text)
}

/// Whether a patch can be installed beside these patches, as [`Catalog::is_compatible`] says.
pub fn is_compatible(catalog: &Catalog, patch: PatchId, installed: &[PatchId]) -> bool
    requires patch { patch < length catalog.now.patches }
    requires installed { All (λ other. other < length catalog.now.patches) installed.now }
    ensures { result ≡ states.is_compatible catalog.now patch installed.now }
{
    catalog.is_compatible(patch, installed)
}

/// Returns the newest older patch that names a system state, as [`Catalog::previous_state`] does.
pub fn previous_state(
    catalog: &Catalog,
    patch: PatchId,
    id: u64,
    installed: &[PatchId],
) -> Option<PatchId>
    requires patch { patch < length catalog.now.patches }
    requires installed { All (λ other. other < length catalog.now.patches) installed.now }
    ensures { result ≡ states.previous_state catalog.now patch id installed.now }
{
    catalog.previous_state(patch, id, installed)
}

/// When a list of callbacks has run, each callback's count has grown by the number of times that the callback is in the
/// list ([`klp_catalog::laws::counts_grow_by_runs`]).
pub fn counts_grow_by_runs()
    ensures { (catalog : AnyCatalog) (calls : List Call) (patch place : ℕ) (which : Which)
        → runs_of (after_runs catalog calls) patch place which ≡ option_map (grown (times patch place which calls))
        (runs_of catalog patch place which) }
{
    klp_catalog::laws::counts_grow_by_runs();
}

/// Two lists of runs, one after the other, increase the counts as the joined list does
/// ([`klp_catalog::laws::runs_add_up`]).
pub fn runs_add_up()
    ensures { RunsAddUp }
{
    klp_catalog::laws::runs_add_up();
}
