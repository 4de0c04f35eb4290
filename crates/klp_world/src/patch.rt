ghost use Rattle.std.specs.Prelude.{◌≡◌, ℕ, ◌<◌, ◌≤◌, ◌==◌, [], ◌∷◌, ◌++◌, length, position};
ghost use Rattle.klp_types.specs.World.{Installed};
ghost use Rattle.klp_types.specs.World.{value_among, set_among};
ghost use Rattle.klp_types.specs.Entries.{is_empty};
ghost use Rattle.klp_world.specs.Undo.{state_taken, put_state};

use arrayvec::ArrayVec;
use klp_types::{MAX_STATES, PatchId};
use std::marker::Model;

/// A system state of an installed patch: its id and its value. The version of the state never changes, so it is stored
/// only in the catalog.
#[derive(Clone, Copy, Default)]
pub(crate) struct SystemState {
    pub(crate) id: u64,
    pub(crate) value: u64,
}

impl Model for SystemState {
    ghost use Rattle.std.specs.Prelude.{ℕ};

    ghost Value = { ℕ × ℕ };

    ghost view = { λ s. (s.id, s.value) };

    ghost inverse = { λ p. record { id = p.0; value = p.1 } };
}

/// An installed patch with its system states, in the order in which the catalog's text names them.
#[derive(Drop)]
pub(crate) struct InstalledPatch {
    patch: PatchId,
    states: ArrayVec<SystemState, MAX_STATES>,
}

impl Model for InstalledPatch {
    ghost use Rattle.klp_types.specs.World.{Installed};
    ghost use Rattle.klp_world.specs.Coded.{installed_code};

    ghost Value = { Installed };

    ghost coded = { installed_code };

    ghost view = { λ i. record { patch = i.patch; values = i.states.items } };
}

/// Returns the index of the state with this id. Returns `None` if there is no such state. A patch names each id at most
/// once.
fn place_of_state(states: &[SystemState], id: u64) -> Option<usize>
    ensures { result ≡ position (λ (s : ℕ × ℕ). s.0 == id) states.now }
{
    states.iter().position(|state| state.id == id)
}

/// Returns the index of an installed patch, counted from the oldest, as in undo records. Returns `None` if the patch
/// isn't installed.
pub(crate) fn place_of_patch(patches: &[InstalledPatch], patch: PatchId) -> Option<usize>
    ensures { result ≡ position (λ (i : Installed). i.patch == patch) patches.now }
{
    patches
        .iter()
        .position(|installed| installed.patch == patch)
}

impl InstalledPatch {
    /// Creates an installed patch without states. The caller adds the states one by one, since each state is a row with
    /// its own record.
    pub(crate) fn new(patch: PatchId) -> Self
        ensures { result ≡ record { patch = patch; values = [] } }
    {
        Self {
            patch,
            states: ArrayVec::new(),
        }
    }

    /// Returns the states in the order in which the patch names them.
    pub(crate) fn states(&self) -> &[SystemState]
        ensures value { result.now ≡ self.now.values }
        ensures limit { length result.now ≤ MAX_STATES }
    {
        &self.states
    }

    /// Whether the patch has no states. A patch has no states before they are added, and after undo has removed them
    /// all.
    pub(crate) fn is_bare(&self) -> bool
        ensures { result ≡ is_empty self.now.values }
    {
        self.states.is_empty()
    }

    pub(crate) fn patch(&self) -> PatchId
        ensures { result ≡ self.now.patch }
    {
        self.patch
    }

    /// Returns the value of the state with this id. Returns `None` if the patch doesn't name the state. A patch can't
    /// read another patch's states this way.
    pub(crate) fn value(&self, id: u64) -> Option<u64>
        ensures { result ≡ value_among id self.now.values }
    {
        let Some(place) = place_of_state(&self.states, id) else {
            return None;
        };
        let state = &self.states[place];
        Some(state.value)
    }

    /// Sets the state with this id, and returns its old value. From the old value the caller knows whether the state
    /// changed. If the patch doesn't name the state, changes nothing and returns `None`.
    pub(crate) fn set_value(&mut self, id: u64, value: u64) -> Option<u64>
        ensures was { result ≡ value_among id self.old.values }
        ensures states { self.new ≡ record self.old { values = set_among id value self.old.values } }
    {
        let Some(place) = place_of_state(&self.states, id) else {
            return None;
        };
        let state = &mut self.states[place];
        let was = state.value;
        state.value = value;
        Some(was)
    }

    /// Adds a state after all other states of the patch. So the states are in the order in which the patch names them.
    pub(crate) fn push(&mut self, id: u64, value: u64)
        requires { length self.old.values < MAX_STATES }
        ensures { self.new ≡ record self.old { values = self.old.values ++ (id, value) ∷ [] } }
    {
        self.states.push(SystemState { id, value });
    }

    /// Removes the state with this id, if the patch has it. Undo removes the last state first, so the indexes of the
    /// other states don't change.
    pub(crate) fn remove(&mut self, id: u64)
        ensures { self.new ≡ record self.old { values = state_taken id self.old.values } }
    {
        if let Some(place) = place_of_state(&self.states, id) {
            self.states.remove(place);
        }
    }

    /// Restores the state with this id. If `was` is `None`, removes the state. Otherwise adds the state after all
    /// others, if there is room. A record that doesn't fit changes nothing. If records are put back newest first, every
    /// record fits.
    pub(crate) fn put_back(&mut self, id: u64, was: Option<u64>)
        ensures { self.new ≡ record self.old { values = put_state id was self.old.values } }
    {
        match was {
            None => self.remove(id),
            Some(value) => {
                if !self.states.is_full() {
                    self.push(id, value);
                }
            }
        }
    }
}
