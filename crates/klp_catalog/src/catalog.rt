ghost use Rattle.std.specs.Prelude.{◌≡◌, ℕ, ◌<◌, ◌≤◌, ◌==◌, false, List, Option, length, map, position, bytes_eq};
ghost use Rattle.std.specs.Prelude.{slice_get, option_map, is_some, option_and_then, MatchOption, IfOk, IfErr};
ghost use Rattle.std.specs.Prelude.{IfSome};
ghost use Rattle.std.specs.List.{All, count_by};
ghost use Rattle.klp_types.specs.Setting.{all_functions, patch_objects};
ghost use Rattle.klp_modules.specs.Names.{ObjectNames};
ghost use Rattle.klp_types.specs.Setting.{PatchObject};
ghost use Rattle.klp_types.specs.Callbacks.{call_of};
ghost use Rattle.klp_types.specs.Script.{Script as ScriptOfEdits, alloc_count};
ghost use Rattle.klp_world.specs.Changes.{HasRoom};
ghost use Rattle.klp_world.specs.StoredEvent.{rows_of_script};
ghost use Rattle.klp_catalog_text.specs.Plan.{PlanPatch as PatchValue};
ghost use Rattle.klp_catalog_text.specs.Text.{plan_of, IsFaultOf};
ghost use Rattle.klp_catalog_text.specs.Within.{AreTargetsWithin};
ghost use Rattle.klp_catalog_text.specs.Draft.{patch_names_of};
ghost use Rattle.klp_catalog.specs.Catalog.{CatalogFunction as FunctionValue, catalog_functions, setting_function};
ghost use Rattle.klp_catalog.specs.Catalog.{patches_of, has_same_site, some_same_site, new_function_of};
ghost use Rattle.klp_catalog.specs.States as states;
ghost use Rattle.klp_catalog.specs.Runs.{HasCounts, has_callbacks, objects_at, place_of, script_at, allocs_if, after_runs};
ghost use Rattle.klp_catalog.specs.Runs.{callback_runs, IsRun};
ghost use Rattle.klp_catalog.specs.Limits.{AreWithin};
ghost use Rattle.klp_catalog.specs.Patch.{IsPatch, IsAbsent, KeepsTo};
ghost use Rattle.klp_catalog_text.specs.Scripts.{scripts_of};
ghost use Rattle.klp_catalog.specs.Assembled.{IsAssembleFault, LiesInObject, without_scripts, lent_scripts};
ghost use Rattle.klp_catalog.specs.Assembled.{lent_counts};

use crate::assemble::{AssembleFault, assemble_patches, symbol_counts};
use crate::function::CatalogFunction;
use crate::patch;
use crate::patch::CatalogPatch;
use arrayvec::ArrayVec;
use klp_callback::Boxed;
use klp_catalog_text::{Plan, TextFault};
use klp_journal::Records;
use klp_modules::Modules;
use klp_types::{
    MAX_EDITS, MAX_FUNCTIONS, MAX_PATCHES, MAX_STATES, MAX_TARGETS, ObjId, PatchId, Site, Which,
};
use klp_world::World;
use std::alloc::Global;
use std::marker::Model;
use std::snapshot::Snapshot;

/// The patches of a plan, for the objects of a kernel. The name and position of each function are resolved to a site
/// only once, so no event looks a name up.
///
/// Patches are numbered from 0, in the order of the text. The names of the objects and of their symbols aren't stored,
/// and only contracts know them. Only `read` and `assemble` take memory.
#[derive(Drop)]
pub struct Catalog {
    /// The modules for which the catalog was assembled, as they were at that time. This is a snapshot, which takes no
    /// memory: only contracts use the names (docs/DECISIONS.md, "Names of objects and symbols").
    over: Snapshot<Modules>,
    /// By object, how many symbols the object has. Boot compares these counts with those of the image.
    symbols: Vec<u16>,
    patches: Vec<CatalogPatch>,
    /// The callbacks of all patches, in the order of the text. This is the list that the caller passed to `assemble`.
    callbacks: Vec<Boxed>,
}

impl Model for Catalog {
    ghost use Rattle.klp_catalog.specs.Catalog.{Catalog};
    ghost use Rattle.klp_catalog.specs.Assembled.{lent_scripts, lent_counts};
    ghost use Rattle.klp_catalog.specs.Stored.{IsStored, patches_in};

    ghost Value = { Catalog };

    ghost view = { λ c. record {
      names = c.over.value.names;
      patches = patches_in (lent_scripts c.callbacks.items) c.patches.items;
      runs = lent_counts c.callbacks.items;
    } };

    ghost invariant = { λ c. IsStored c.over.value.names c.symbols.items c.patches.items
        (lent_scripts c.callbacks.items) (lent_counts c.callbacks.items) };
}

impl Catalog {
    /// Reads a whole text into a plan, in time linear in its length.
    ///
    /// `Err` has the first faulty line. If no line is faulty but the text has no handler or no object, the fault is
    /// `Missing` at line 0. `NoMemory` may be reported in place of any other fault, at the line where memory ran out.
    pub fn read(alloc: Global, text: &[u8]) -> Result<Plan, TextFault>
        ensures plan { IfOk result (λ plan. plan_of text.now ≡ Ok plan) }
        // `assemble` requires that the targets of a plan are objects of the image. Before `assemble` is called, the
        // objects are moved out of the plan. This clause still shows that the targets are among them
        // (docs/DECISIONS.md, "The targets of a plan").
        ensures targets { IfOk result (λ plan. AreTargetsWithin (length plan.objects) plan.patches) }
        ensures fault { IfErr result (λ fault. IsFaultOf text.now fault.line fault.kind) }
    {
        klp_catalog_text::read(alloc, text)
    }

    /// Makes a catalog of a plan. `modules` are those of the image that is made of the plan's objects. The call doesn't
    /// read the plan's handler or objects. If there is a fault, the plan is dropped.
    ///
    /// Each function is resolved once, and compared with the other functions of its patch. If a function's symbol isn't
    /// found, the function has no site. A missing symbol is no fault, since the function's module may never be loaded.
    ///
    /// There must be one callback for each script of the plan, in the order of the text. If a callback's script differs
    /// from that of the text, `patches_of` has the callback's script, since that is the one that will run
    /// (docs/DECISIONS.md, "Scripts by the callbacks"). The caller boxes the callbacks, because the catalog makes no
    /// box (docs/DECISIONS.md, "Callbacks in their boxes").
    pub fn assemble(
        alloc: Global,
        modules: &Modules,
        plan: Plan,
        callbacks: Vec<Boxed>,
    ) -> Result<Catalog, AssembleFault>
        requires targets { AreTargetsWithin (length modules.now.names) plan.patches }
        ensures names { IfOk result (λ catalog. catalog.names ≡ modules.now.names) }
        ensures patches { IfOk result
            (λ catalog. map without_scripts catalog.patches ≡ map without_scripts plan.patches) }
        ensures scripts { IfOk result (λ catalog. scripts_of catalog.patches ≡ lent_scripts callbacks.items) }
        ensures counts { IfOk result (λ catalog. catalog.runs ≡ lent_counts callbacks.items) }
        ensures shape { IfOk result (λ catalog. HasCounts catalog.patches catalog.runs) }
        ensures limits { IfOk result (λ catalog. AreWithin catalog.patches) }
        ensures number { IfOk result (λ catalog. length (scripts_of plan.patches) ≡ length callbacks.items) }
        ensures distinct { IfOk result (λ catalog. some_same_site modules.now.names plan.patches ≡ false) }
        ensures fault { IfErr result
            (λ fault. IsAssembleFault modules.now.names plan.patches (length callbacks.items) fault) }
    {
        let symbols = symbol_counts(alloc, modules)?;
        let over = Snapshot::of(modules);
        let patches = assemble_patches(alloc, modules, plan.into_patches(), callbacks.len())?;
        Ok(Catalog {
            over,
            symbols,
            patches,
            callbacks,
        })
    }

    /// Returns how many patches there are, at most [`MAX_PATCHES`](klp_types::MAX_PATCHES).
    pub fn patches(&self) -> u8
        ensures count { result ≡ length self.now.patches }
        ensures limit { result ≤ MAX_PATCHES }
        // Every patch is within these limits, so callers know beforehand how much room the records of a patch need.
        ensures limits { AreWithin self.now.patches }
    {
        self.patches.len() as u8
    }

    /// Returns the patch with this number (the kernel's `struct klp_patch *`). Returns `None` if there is no such
    /// patch. A caller that needs several facts of a patch calls this function once, and reads the facts from the
    /// result.
    pub fn get(&self, patch: PatchId) -> Option<&CatalogPatch>
        ensures found { MatchOption result (IsAbsent self.now patch) (λ found. IsPatch self.now patch found.now) }
        ensures keeps { KeepsTo self.now patch }
    {
        let PatchId(number) = patch;
        self.patches.get(usize::from(number))
    }

    /// Whether a patch can be installed beside the `installed` patches (the kernel's `klp_is_patch_compatible`). For
    /// each system state of each installed patch, the patch must name the state with the same or a higher version. A
    /// patch that isn't cumulative may also leave the state out (system-state).
    pub fn is_compatible(&self, patch: PatchId, installed: &[PatchId]) -> bool
        requires patch { patch < length self.now.patches }
        requires installed { All (λ other. other < length self.now.patches) installed.now }
        ensures { result ≡ states.is_compatible self.now patch installed.now }
    {
        let Some(own) = self.get(patch) else {
            // The precondition excludes this case.
            return false;
        };
        for &other in installed {
            let lives = match self.get(other) {
                Some(other) => own.is_compatible_with_all(&other.states),
                None => true,
            };
            if !lives {
                return false;
            }
        }
        true
    }

    /// Returns the newest patch that was installed before `patch` and names the state. `installed` has the oldest patch
    /// first. If `patch` isn't in `installed`, all patches in `installed` count, since `patch` would be installed after
    /// them. (The rule is this project's own.)
    pub fn previous_state(&self, patch: PatchId, id: u64, installed: &[PatchId]) -> Option<PatchId>
        requires patch { patch < length self.now.patches }
        requires installed { All (λ other. other < length self.now.patches) installed.now }
        ensures { result ≡ states.previous_state self.now patch id installed.now }
    {
        patch::previous_state(&self.patches, patch, id, installed)
    }

    /// Returns how many symbols an object has, by the names with which the catalog was assembled. Returns `None` if
    /// there is no such object.
    pub fn symbols(&self, object: ObjId) -> Option<u16>
        ensures { result ≡ option_map (λ (found : ObjectNames). length found.symbols)
            (slice_get self.now.names object) }
    {
        let ObjId(number) = object;
        count_at(&self.symbols, number)
    }

    /// Returns the number of the patch with this name. Returns `None` if there is no such patch. The name is compared
    /// with the name of each patch. There are at most [`MAX_PATCHES`](klp_types::MAX_PATCHES) patches.
    pub fn patch(&self, name: &str) -> Option<PatchId>
        ensures { result ≡ position (bytes_eq name.now) (patch_names_of self.now.patches) }
    {
        let number = patch::with_name(&self.patches, name)?;
        Some(PatchId(number as u8))
    }

    /// Returns the name of a patch, as in its line of the text. Returns `None` if there is no such patch.
    pub fn patch_name(&self, patch: PatchId) -> Option<&str>
        ensures { option_map (λ name. name.now) result ≡ slice_get (patch_names_of self.now.patches) patch }
    {
        let found = self.patches.get(usize::from(patch.0))?;
        Some(found.name.as_str())
    }

    /// Returns whether a patch is cumulative. A cumulative patch replaces all older patches (cumulative-patches).
    /// Returns `None` if there is no such patch.
    pub fn replaces(&self, patch: PatchId) -> Option<bool>
        ensures { result ≡ option_map (λ (found : PatchValue). found.replace) (slice_get self.now.patches patch) }
    {
        let patch = self.patches.get(usize::from(patch.0))?;
        Some(patch.replace)
    }

    /// Whether a patch is cumulative. False if there is no such patch.
    pub fn is_cumulative(&self, patch: PatchId) -> bool
        ensures { result ≡ states.is_cumulative self.now patch }
    {
        match self.get(patch) {
            Some(found) => found.is_cumulative(),
            None => false,
        }
    }

    /// Returns how many objects a patch changes, at most [`MAX_TARGETS`](klp_types::MAX_TARGETS). Returns 0 if there is
    /// no such patch, so that a loop over the objects needs no check.
    pub fn target_len(&self, patch: PatchId) -> u8
        ensures count { result ≡ length (objects_at self.now patch) }
        ensures limit { result ≤ MAX_TARGETS }
    {
        match self.get(patch) {
            Some(found) => found.targets.len() as u8,
            None => 0,
        }
    }

    /// Returns one of the objects that a patch changes. `number` is its index among these objects, from 0. `run` uses
    /// the same index. Returns `None` if there is no such patch or index.
    pub fn target(&self, patch: PatchId, number: u8) -> Option<ObjId>
        ensures { result ≡ option_map (λ (found : PatchObject). found.object) (slice_get
            (objects_at self.now patch) number) }
    {
        let found = self.get(patch)?;
        let target = found.targets.get(usize::from(number))?;
        Some(target.object)
    }

    /// Returns the index of an object among the objects that a patch changes, from 0. Returns `None` if the patch
    /// doesn't change the object. No patch changes an object twice.
    pub fn place(&self, patch: PatchId, object: ObjId) -> Option<u8>
        ensures place { result ≡ place_of object (objects_at self.now patch) }
        // Since no object has two indexes, walking over the indexes visits each object once.
        ensures once { count_by (λ (found : PatchObject). found.object == object) (objects_at self.now patch) ≤ 1 }
    {
        let found = self.get(patch)?;
        let place = patch::place_of(&found.targets, object)?;
        Some(place as u8)
    }

    /// Returns the ids of the system states that a patch names, in the order of the text (system-state). The result is
    /// empty if there is no such patch.
    pub fn state_ids(&self, patch: PatchId) -> ArrayVec<u64, MAX_STATES>
        ensures { result.items ≡ states.state_ids self.now patch }
    {
        match self.get(patch) {
            Some(found) => found.state_ids(),
            None => ArrayVec::new(),
        }
    }

    /// Runs a patch's callback of this kind for one of its objects, and returns the callback's status. `place` is the
    /// object's index in the patch, from 0. Returns `None` if the patch has no such callback. The call takes no memory
    /// (callbacks). A walk over a patch's objects knows the index, so no object is looked up (docs/DECISIONS.md,
    /// "Callbacks by place").
    pub fn run(
        &mut self,
        patch: PatchId,
        place: u8,
        which: Which,
        world: &mut World,
        log: &mut Records,
    ) -> Option<i32>
        requires room { IfSome (script_at self.old patch place which)
            (λ script. HasRoom world.old log.old (alloc_count script.edits) (rows_of_script patch world.old script)) }
        ensures status { result ≡ option_map (λ (s : ScriptOfEdits). s.status) (script_at self.old patch place which) }
        // The count of the callback grows by one, if there is such a callback.
        ensures catalog { self.new
            ≡ after_runs self.old (call_of patch place which (script_at self.old patch place which)) }
        ensures changes { IsRun patch place which (script_at self.old patch place which)
            world.old world.new log.old log.new }
    {
        let number = patch::number_of(&self.patches, patch, usize::from(place), which)?;
        Some(self.callbacks[number].run(patch, world, log))
    }

    /// Whether the patch has a callback for one of its objects, loaded or not. Most patches have no callback. So a
    /// caller that checks this first saves a look-up for each object and kind. The check reads each object of the
    /// patch.
    pub fn has_callbacks(&self, patch: PatchId) -> bool
        ensures { result ≡ has_callbacks self.now patch }
    {
        match self.get(patch) {
            Some(found) => found.has_callbacks(),
            None => false,
        }
    }

    /// Whether the patch has a callback of this kind for the object at this index.
    pub fn has_callback(&self, patch: PatchId, place: u8, which: Which) -> bool
        ensures { result ≡ is_some (script_at self.now patch place which) }
    {
        patch::number_of(&self.patches, patch, usize::from(place), which).is_some()
    }

    /// Returns how many shadow variables a run of this callback adds at most. Returns 0 if there is no such callback,
    /// so that sums need no special case.
    pub fn allocs(&self, patch: PatchId, place: u8, which: Which) -> u16
        ensures value { result ≡ allocs_if (script_at self.now patch place which) }
        ensures limit { result ≤ MAX_EDITS }
        // Since a script has few edits, a run logs few rows.
        ensures edits { IfSome (script_at self.now patch place which) (λ script. length script.edits ≤ MAX_EDITS) }
    {
        match patch::number_of(&self.patches, patch, usize::from(place), which) {
            Some(number) => self.callbacks[number].allocs(),
            None => 0,
        }
    }

    /// Returns how often the callback of this kind ran for this object. The count stops at the greatest `u64`. Returns
    /// `None` if the patch has no such callback. For a callback that never ran, returns 0.
    pub fn callback_runs(&self, patch: PatchId, object: ObjId, which: Which) -> Option<u64>
        ensures runs { result ≡ callback_runs self.now patch object which }
        ensures there { is_some result
            ≡ is_some (option_and_then (λ place. script_at self.now patch place which)
            (place_of object (objects_at self.now patch))) }
    {
        let place = self.place(patch, object)?;
        let number = patch::number_of(&self.patches, patch, usize::from(place), which)?;
        Some(self.callbacks[number].runs())
    }

    /// Returns the new functions of a patch, for all its objects in order. A function's index in this list is its
    /// number in versions and entries. The result is empty if there is no such patch.
    pub fn functions(&self, patch: PatchId) -> &[CatalogFunction]
        ensures functions { result.now ≡ catalog_functions self.now patch }
        // The manager relies on this clause when it puts the functions' entries on sites.
        ensures setting { map setting_function result.now
            ≡ all_functions (patch_objects (slice_get (patches_of self.now) patch)) }
        ensures in_object { All (LiesInObject self.now.names) result.now }
        ensures distinct { has_same_site result.now ≡ false }
        ensures few { length result.now ≤ MAX_FUNCTIONS }
    {
        match self.get(patch) {
            Some(found) => found.functions(),
            None => &[],
        }
    }

    /// Returns a new function of a patch: its site, if it has one, its name and its address. `number` is the function's
    /// index over all objects of the patch, from 0. Returns `None` if there is no such function.
    pub fn function(&self, patch: PatchId, number: u16) -> Option<(Option<Site>, &str, u64)>
        ensures { option_map {U = Option ℕ × List ℕ × ℕ} (λ f. (f.0, f.1.now, f.2)) result
            ≡ option_map new_function_of (slice_get (catalog_functions self.now patch) number) }
    {
        let function = self.functions(patch).get(usize::from(number))?;
        Some((function.site(), function.new_name(), function.address()))
    }

    /// Returns the symbol that a new function replaces: its object, its name, and its position, from 1, among the
    /// object's symbols of that name. Position 0 means that only one symbol of the object may have the name (livepatch,
    /// Metadata). `number` is the function's index over all objects of the patch, from 0. Returns `None` if there is no
    /// such function.
    pub fn function_name(&self, patch: PatchId, number: u16) -> Option<(ObjId, &str, u32)>
        ensures { option_map {U = ℕ × List ℕ × ℕ} (λ f. (f.0, f.1.now, f.2)) result
            ≡ option_map (λ (f : FunctionValue). (f.object, f.symbol, f.sympos)) (slice_get
            (catalog_functions self.now patch) number) }
    {
        let function = self.functions(patch).get(usize::from(number))?;
        Some((function.object(), function.symbol(), function.sympos()))
    }
}

/// Returns the count at this index. Returns `None` if there is no such index.
fn count_at(counts: &[u16], number: u8) -> Option<u16>
    ensures { result ≡ slice_get counts.now number }
{
    counts.get(usize::from(number)).copied()
}
