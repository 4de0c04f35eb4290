ghost use Rattle.std.specs.Prelude.{◌≡◌, ◌≤◌, ◌==◌, not, length, map, position, is_some, bytes_eq};
ghost use Rattle.std.specs.List.{list_all, list_any};
ghost use Rattle.klp_types.specs.Entries.{is_empty};
ghost use Rattle.klp_types.specs.Compatible as compatible;
ghost use Rattle.klp_types.specs.Compatible.{SystemState as StateValue};
ghost use Rattle.klp_catalog.specs.Catalog.{CatalogFunction as FunctionValue};
ghost use Rattle.klp_catalog.specs.Stored as stored;
ghost use Rattle.klp_catalog.specs.Stored.{StoredTarget, StoredPatch, states_at};
ghost use Rattle.klp_catalog.specs.States.{installed_before};

use crate::function::CatalogFunction;
use crate::target::{CatalogTarget, Targets, is_kind};
use arrayvec::ArrayVec;
use klp_catalog_text::{PlanStates, SystemState};
use klp_types::{MAX_STATES, ObjId, PatchId, Which};
use std::marker::Model;

/// A patch of a catalog (the kernel's `struct klp_patch`). The callbacks of the patch are numbers in the catalog's list
/// of callbacks.
#[derive(Drop)]
pub struct CatalogPatch {
    pub(crate) name: String,
    pub(crate) replace: bool,
    /// The objects that the patch changes, in the order of the text.
    pub(crate) targets: Targets,
    /// The new functions of all these objects, in order. A function's index is its number in versions and entries.
    pub(crate) functions: Vec<CatalogFunction>,
    /// Whether every function has a site. The field is computed once, since it is needed each time the patch is
    /// enabled.
    pub(crate) names_sites: bool,
    pub(crate) states: PlanStates,
}

impl Model for CatalogPatch {
    ghost use Rattle.std.specs.Prelude.{◌≡◌, string_bytes, is_some};
    ghost use Rattle.std.specs.List.{list_all};
    ghost use Rattle.klp_catalog.specs.Catalog.{CatalogFunction as FunctionValue};
    ghost use Rattle.klp_catalog.specs.Stored.{StoredPatch};

    ghost Value = { StoredPatch };

    ghost view = { λ p. record {
      name = string_bytes p.name;
      replace = p.replace;
      targets = p.targets.items;
      functions = p.functions.items;
      states = p.states.items;
    } };

    ghost invariant = { λ p. p.names_sites ≡ list_all (λ (f : FunctionValue). is_some f.site) p.functions.items };
}

impl CatalogPatch {
    /// Whether the patch replaces all older patches (cumulative-patches).
    pub fn is_cumulative(&self) -> bool
        ensures { result ≡ self.now.replace }
    {
        self.replace
    }

    /// Returns the new functions, for all objects in order. A function's index is its number in versions and entries.
    pub fn functions(&self) -> &[CatalogFunction]
        ensures { result.now ≡ self.now.functions }
    {
        &self.functions
    }

    /// Whether every function has a site. If so, no function is a reason to refuse enabling the patch.
    pub fn names_sites(&self) -> bool
        ensures { result ≡ list_all (λ (f : FunctionValue). is_some f.site) self.now.functions }
    {
        self.names_sites
    }

    /// Returns the objects that the patch changes, in the order of the text. The patch's functions are in the order of
    /// these objects.
    pub fn targets(&self) -> &[CatalogTarget]
        ensures { result.now ≡ self.now.targets }
    {
        &self.targets
    }

    /// Whether the patch has a callback for one of its objects.
    pub(crate) fn has_callbacks(&self) -> bool
        ensures { result ≡ list_any (λ (t : StoredTarget). not (is_empty t.kinds)) self.now.targets }
    {
        self.targets.iter().any(|target| !target.kinds.is_empty())
    }

    /// Copies the ids of the system states that the patch names, in the order of the text (system-state). The result is
    /// an array, since enabling a patch takes no memory.
    pub(crate) fn state_ids(&self) -> ArrayVec<u64, MAX_STATES>
        requires { length self.now.states ≤ MAX_STATES }
        ensures { result.items ≡ map (λ (s : StateValue). s.id) self.now.states }
    {
        let mut ids = ArrayVec::new();
        for state in self.states.as_slice() {
            ids.push(state.id);
        }
        ids
    }

    /// Whether the patch can be installed beside a patch with these system states. The patch must name each of these
    /// states with the same or a higher version. Only a patch that isn't cumulative may leave a state out. A cumulative
    /// patch takes over all states, so it must name them all.
    pub(crate) fn is_compatible_with_all(&self, states: &[SystemState]) -> bool
        ensures { result ≡ list_all (λ (s : StateValue). compatible.is_compatible_with self.now.replace s
            (compatible.version_among s.id self.now.states)) states.now }
    {
        states.iter().all(|state| is_compatible_with(self.replace, &self.states, state))
    }
}

/// Returns the number of the patch with this name. Returns `None` if there is no such patch. There are few patches, so
/// the name is compared with the name of each (docs/DECISIONS.md, "Names by comparison").
pub(crate) fn with_name(patches: &[CatalogPatch], name: &str) -> Option<usize>
    ensures { result ≡ position (bytes_eq name.now) (map (λ (p : StoredPatch). p.name) patches.now) }
{
    patches.iter().position(|patch| name == patch.name.as_str())
}

/// Returns the number of the callback of this kind that the patch has for the object at this index. The number counts
/// all callbacks of the catalog. Returns `None` if the patch has no such callback.
pub(crate) fn number_of(
    patches: &[CatalogPatch],
    patch: PatchId,
    place: usize,
    which: Which,
) -> Option<usize>
    ensures { result ≡ stored.number_of patches.now patch place which }
{
    let patch = patches.get(usize::from(patch.0))?;
    let target = patch.targets.get(place)?;
    let place = target.kinds.iter().position(|own| is_kind(*own, which))?;
    Some(target.first + place)
}

/// Returns the index of an object among the objects that a patch changes. Returns `None` if the patch doesn't change
/// the object. A patch changes an object at most once.
pub(crate) fn place_of(targets: &[CatalogTarget], object: ObjId) -> Option<usize>
    ensures { result ≡ position (λ (t : StoredTarget). t.object == object) targets.now }
{
    targets.iter().position(|target| target.object == object)
}

/// Returns the system states that a patch names. The result is empty if there is no such patch.
fn states_of(patches: &[CatalogPatch], patch: PatchId) -> &[SystemState]
    ensures { result.now ≡ states_at patches.now patch }
{
    match patches.get(usize::from(patch.0)) {
        Some(patch) => &patch.states,
        None => &[],
    }
}

/// Returns the version with which the states name this id. Returns `None` if no state has the id. Each id is named at
/// most once.
fn version_among(id: u64, states: &[SystemState]) -> Option<u32>
    ensures { result ≡ compatible.version_among id states.now }
{
    let state = states.iter().find(|state| state.id == id)?;
    Some(state.version)
}

/// Whether a patch with the states `own` can be installed beside a patch with the state `state`. `own` must name
/// `state` with the same or a higher version. Only a patch that isn't cumulative may leave the state out.
fn is_compatible_with(replace: bool, own: &[SystemState], state: &SystemState) -> bool
    ensures { result ≡ compatible.is_compatible_with replace state.now
        (compatible.version_among state.now.id own.now) }
{
    match version_among(state.id, own) {
        Some(version) => state.version <= version,
        None => !replace,
    }
}

/// Returns the newest patch that was installed before `patch` and names the state. `installed` has the oldest patch
/// first. The walk stops at `patch`, since later patches don't count.
pub(crate) fn previous_state(
    patches: &[CatalogPatch],
    patch: PatchId,
    id: u64,
    installed: &[PatchId],
) -> Option<PatchId>
    ensures { result ≡ stored.newest_naming patches.now id (installed_before patch installed.now) }
{
    let mut newest = None;
    for &other in installed {
        if other == patch {
            return newest;
        }
        if version_among(id, states_of(patches, other)).is_some() {
            newest = Some(other);
        }
    }
    newest
}
