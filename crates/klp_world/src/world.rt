ghost use Rattle.std.specs.Prelude.{◌≡◌, ℕ, ◌+◌, ◌<◌, ◌≤◌, ◌==◌, false, List, [], ◌∷◌, ◌++◌, length, map, reverse};
ghost use Rattle.std.specs.Prelude.{insert, remove, slice_index_or, Some, is_some, is_none, unwrap_or, IfOk, IfSome};
ghost use Rattle.std.specs.Prelude.{IfNone};
ghost use Rattle.std.specs.List.{list_any};
ghost use Rattle.std.specs.FinMap as finite;
ghost use Rattle.klp_types.specs.Records.{spare_of};
ghost use Rattle.klp_types.specs.World.{Installed};
ghost use Rattle.klp_types.specs.World.{variable, state_value, previous_patch, newest_naming, installed_before};
ghost use Rattle.klp_types.specs.World.{change_states, with_variable, without_variable, without_id, with_value};
ghost use Rattle.klp_types.specs.World.{with_patch, without_patch};
ghost use Rattle.klp_types.specs.Script.{allocated};
ghost use Rattle.klp_world.specs.Added.{against};
ghost use Rattle.klp_world.specs.Changes.{Changes};
ghost use Rattle.klp_world.specs.Parents.{IsNextParent, lowest_above};
ghost use Rattle.klp_world.specs.Undo.{put_variable, put_state, put_patch, put_back};
ghost use Rattle.klp_world.specs.StoredEvent.{noting, rows_of_alloc, rows_of_free, rows_of_free_all, variable_rows};
ghost use Rattle.klp_world.specs.StoredEvent.{state_row, rows_of_set, rows_of_add, rows_of_drop};

use crate::patch::{InstalledPatch, SystemState, place_of_patch};
use crate::shadow_map::ShadowMap;
use crate::shadow_table::NotAdded;
use arrayvec::ArrayVec;
use klp_journal::Records;
use klp_types::{MAX_PATCHES, MAX_STATES, MAX_VARIABLES, PatchId, Record, ShadowKey, ShadowValue};
use std::alloc::{AllocError, Global};
use std::marker::Model;

/// The installed patches with the values of their system states (system-state), and the shadow variables (shadow-vars).
///
/// [`World::new`] allocates all memory. Each change logs the old value of every row that it changes, in the records
/// that the caller passes. A row that doesn't change isn't logged. If the records of a change are put back newest
/// first, the world is as it was before the change.
#[derive(Drop)]
pub struct World {
    patches: Vec<InstalledPatch>,
    /// The numbers of `patches`. They are stored in a second list so that `installed` can return them as a slice
    /// (docs/DECISIONS.md, "The list of installed patches").
    installed: ArrayVec<PatchId, MAX_PATCHES>,
    shadow: ShadowMap,
}

impl Model for World {
    ghost use Rattle.std.specs.Prelude.{◌≡◌, ◌≤◌, map, vec_len, vec_capacity};
    ghost use Rattle.klp_types.specs.World.{Installed, World as WorldOfPatches};
    ghost use Rattle.klp_world.specs.Coded.{world_code};

    ghost Value = { WorldOfPatches };

    ghost coded = { world_code };

    ghost use Rattle.klp_types.specs.declared.limits.TheConstants.{MAX_PATCHES};

    ghost view = { λ w. record { installed = w.patches.items; shadow = w.shadow } };

    ghost invariant = { λ w. (vec_len w.patches ≤ MAX_PATCHES) × (MAX_PATCHES ≤ vec_capacity w.patches)
        × (map (λ (i : Installed). i.patch) w.patches.items ≡ w.installed.items) };
}

/// Logs the system states of a patch, the last state first. Undo puts the newest record back first and adds each state
/// as the last. So the states are added again in their order.
fn note_states(patch: PatchId, states: &[SystemState], log: &mut Records)
    requires { length states.now ≤ spare_of log.old }
    ensures { log.new ≡ noting log.old (map (state_row patch) (reverse states.now)) }
{
    for place in (0..states.len()).rev() {
        let state = &states[place];
        log.note(Record::StateRow {
            patch,
            id: state.id,
            was: Some(state.value),
        });
    }
}

/// Returns the newest patch before `patch` that names the state. Returns `None` if there is no such patch. The search
/// begins at the oldest patch and stops at `patch`, since later patches don't count.
fn newest_before(patches: &[InstalledPatch], patch: PatchId, id: u64) -> Option<PatchId>
    ensures { result ≡ newest_naming id (installed_before patch patches.now) }
{
    let mut newest = None;
    for installed in patches {
        if installed.patch() == patch {
            return newest;
        }
        if installed.value(id).is_some() {
            newest = Some(installed.patch());
        }
    }
    newest
}

impl World {
    /// Creates a world without installed patches and without shadow variables, and allocates all memory that later
    /// changes need. Returns `Err` if memory is refused.
    pub fn new(alloc: Global) -> Result<Self, AllocError>
        ensures { IfOk result (λ world. world ≡ record { installed = []; shadow = finite.empty }) }
    {
        Ok(Self {
            patches: Vec::with_capacity(alloc, MAX_PATCHES)?,
            installed: ArrayVec::new(),
            shadow: ShadowMap::new(alloc)?,
        })
    }

    /// Returns the value of a shadow variable (`klp_shadow_get`). Returns `None` if there is no such variable. No
    /// callback reads a variable, since scripts have no conditions.
    pub fn get(&self, key: ShadowKey) -> Option<ShadowValue>
        ensures { result ≡ variable self.now key }
    {
        self.shadow.get(key)
    }

    /// Whether there is a shadow variable with this key. The call doesn't copy the value, which may have up to 64
    /// bytes.
    pub fn has(&self, key: ShadowKey) -> bool
        ensures { result ≡ is_some (variable self.now key) }
    {
        self.shadow.has(key)
    }

    /// Returns the lowest address of a parent object that is above `after` and has a shadow variable of this id. If
    /// `after` is `None`, returns the lowest address of a parent object that has one. Returns `None` if there is no
    /// such parent object. To visit all variables of an id, a caller passes each result to the next call. Each call
    /// walks over all variables.
    pub fn next_parent(&self, id: u64, after: Option<u64>) -> Option<u64>
        ensures { IsNextParent self.now.shadow id (lowest_above after) result }
    {
        self.shadow.next_parent(id, after)
    }

    /// Returns how many shadow variables there are, at a constant cost. From this number callers know whether there is
    /// room, before callbacks run.
    pub fn count(&self) -> u16
        ensures value { result ≡ finite.len self.now.shadow }
        ensures limit { result ≤ MAX_VARIABLES }
    {
        self.shadow.len() as u16
    }

    /// Returns the installed patches, oldest first. The patches' entries were put on sites in this order.
    pub fn installed(&self) -> &[PatchId]
        ensures value { result.now ≡ map (λ (i : Installed). i.patch) self.now.installed }
        ensures limit { length result.now ≤ MAX_PATCHES }
    {
        &self.installed
    }

    /// Returns a copy of the list of installed patches, oldest first. A caller can read or show the copy while
    /// callbacks change the world.
    pub fn installed_list(&self) -> ArrayVec<PatchId, MAX_PATCHES>
        ensures value { result.items ≡ map (λ (i : Installed). i.patch) self.now.installed }
        ensures limit { length result.items ≤ MAX_PATCHES }
    {
        let mut list = ArrayVec::new();
        let _ = list.try_extend_from_slice(&self.installed);
        list
    }

    /// Whether the patch is installed. A patch in transition is installed too, from the start of the transition to its
    /// end.
    pub fn is_installed(&self, patch: PatchId) -> bool
        ensures { result ≡ list_any (λ (i : Installed). i.patch == patch) self.now.installed }
    {
        self.patches
            .iter()
            .any(|installed| installed.patch() == patch)
    }

    /// Returns the value of a system state of an installed patch. Returns `None` if the patch isn't installed or
    /// doesn't name the state.
    pub fn value(&self, patch: PatchId, id: u64) -> Option<u64>
        ensures { result ≡ state_value self.now patch id }
    {
        let Some(place) = place_of_patch(&self.patches, patch) else {
            return None;
        };
        self.patches[place].value(id)
    }

    /// Returns the newest patch that was installed before `patch` and names the state. If `patch` isn't installed, all
    /// installed patches count, since `patch` would be installed after them. (The rule is this project's own.)
    pub fn previous(&self, patch: PatchId, id: u64) -> Option<PatchId>
        ensures { result ≡ previous_patch self.now patch id }
    {
        newest_before(&self.patches, patch, id)
    }

    /// Adds a shadow variable and returns true. If the variable exists, changes nothing and returns false
    /// (`klp_shadow_alloc`).
    pub fn alloc(&mut self, key: ShadowKey, value: ShadowValue, log: &mut Records) -> bool
        requires room { variable self.old key ≡ None → finite.len self.old.shadow < MAX_VARIABLES }
        requires records { length (rows_of_alloc self.old key) ≤ spare_of log.old }
        ensures answer { result ≡ is_none (variable self.old key) }
        ensures changes { Changes self.old self.new log.old log.new
            (allocated self.old key value (variable self.old key)) (rows_of_alloc self.old key) }
    {
        if self.shadow.add(key, &value).is_some() {
            return false;
        }
        log.note(Record::NoShadowVariable { key });
        true
    }

    /// Adds a shadow variable as the only change of an event, and returns `None`. Earlier records of the event are
    /// dropped, so afterwards the log has only this change. If the variable exists or there is no room, returns the
    /// reason and changes neither the world nor the log. The call searches for the key once. A caller that checked for
    /// the variable first would search twice.
    pub fn alloc_alone(
        &mut self,
        key: ShadowKey,
        value: &ShadowValue,
        log: &mut Records,
    ) -> Option<NotAdded>
        requires { 0 < log.old.room }
        ensures against { result ≡ against self.old.shadow key }
        ensures kept { IfSome result (λ _. (self.new ≡ self.old) × (log.new ≡ log.old)) }
        ensures changes { IfNone result (Changes self.old self.new (record log.old { logged = [] }) log.new
            (with_variable self.old key value.now) (rows_of_alloc self.old key)) }
    {
        if let Some(against) = self.shadow.add(key, value) {
            return Some(against);
        }
        log.clear();
        log.note(Record::NoShadowVariable { key });
        None
    }

    /// Returns the value of a shadow variable. If the variable doesn't exist, first adds it with the given value
    /// (`klp_shadow_get_or_alloc`). An existing variable needs no room.
    pub fn get_or_alloc(
        &mut self,
        key: ShadowKey,
        value: ShadowValue,
        log: &mut Records,
    ) -> ShadowValue
        requires room { variable self.old key ≡ None → finite.len self.old.shadow < MAX_VARIABLES }
        requires records { length (rows_of_alloc self.old key) ≤ spare_of log.old }
        ensures answer { result ≡ unwrap_or (variable self.old key) value }
        ensures changes { Changes self.old self.new log.old log.new
            (allocated self.old key value (variable self.old key)) (rows_of_alloc self.old key) }
    {
        if let Some(there) = self.get(key) {
            return there;
        }
        self.alloc(key, value, log);
        value
    }

    /// Removes a shadow variable, and returns whether it existed (`klp_shadow_free`). If it didn't exist, logs nothing.
    pub fn free(&mut self, key: ShadowKey, log: &mut Records) -> bool
        requires { length (rows_of_free self.old key) ≤ spare_of log.old }
        ensures answer { result ≡ is_some (variable self.old key) }
        ensures changes { Changes self.old self.new log.old log.new (without_variable self.old key)
            (rows_of_free self.old key) }
    {
        let Some(was) = self.shadow.remove(key) else {
            return false;
        };
        log.note(Record::ShadowVariable { key, was });
        true
    }

    /// Removes all shadow variables of the id, whatever their parent objects, and returns how many variables it removed
    /// (`klp_shadow_free_all`). The call walks over all variables twice, and sorts those of the id.
    pub fn free_all(&mut self, id: u64, log: &mut Records) -> u16
        requires { length (rows_of_free_all self.old id) ≤ spare_of log.old }
        ensures answer { result ≡ length (rows_of_free_all self.old id) }
        ensures count { result + finite.len self.new.shadow ≡ finite.len self.old.shadow }
        ensures changes { Changes self.old self.new log.old log.new (without_id self.old id)
            (rows_of_free_all self.old id) }
    {
        let before = self.shadow.len();
        self.shadow.remove_id(id, log);
        (before - self.shadow.len()) as u16
    }

    /// Adds a patch as the newest, with these system states. The values of the states are 0 until callbacks change
    /// them.
    pub fn add_states(&mut self, patch: PatchId, ids: &[u64], log: &mut Records)
        requires fresh { list_any (λ (i : Installed). i.patch == patch) self.old.installed ≡ false }
        requires room { length self.old.installed < MAX_PATCHES }
        requires states { length ids.now ≤ MAX_STATES }
        requires records { length (rows_of_add patch ids.now) ≤ spare_of log.old }
        ensures changes { Changes self.old self.new log.old log.new (with_patch self.old patch ids.now)
            (rows_of_add patch ids.now) }
    {
        log.note(Record::InstalledPatch { patch, place: None });
        let mut installed = InstalledPatch::new(patch);
        for &id in ids {
            installed.push(id, 0);
            log.note(Record::StateRow {
                patch,
                id,
                was: None,
            });
        }
        self.put_last(installed);
    }

    /// Removes a patch with its system states, if the patch is installed. The index of each newer patch falls by one.
    /// The states are logged before the patch, so that undo puts the patch back before its states.
    pub fn drop_states(&mut self, patch: PatchId, log: &mut Records)
        requires { length (rows_of_drop self.old patch) ≤ spare_of log.old }
        ensures changes { Changes self.old self.new log.old log.new (without_patch self.old patch)
            (rows_of_drop self.old patch) }
    {
        let Some(place) = place_of_patch(&self.patches, patch) else {
            return;
        };
        let installed = self.take_out(place);
        note_states(patch, installed.states(), log);
        log.note(Record::InstalledPatch {
            patch,
            place: Some(place as u8),
        });
    }

    /// Returns how many records [`World::drop_states`] logs: one for each system state of the patch, and one for the
    /// patch itself. Returns 0 if the patch isn't installed. Before a caller removes the patch, it uses this number to
    /// make sure that there is room for the records.
    pub fn drop_records(&self, patch: PatchId) -> usize
        ensures value { result ≡ length (rows_of_drop self.now patch) }
        ensures limit { result ≤ MAX_STATES + 1 }
    {
        match place_of_patch(&self.patches, patch) {
            Some(place) => self.patches[place].states().len() + 1,
            None => 0,
        }
    }

    /// Sets a system state of an installed patch. Does nothing if the patch isn't installed or doesn't name the state,
    /// since a patch has only the states that it names.
    pub fn set_value(&mut self, patch: PatchId, id: u64, value: u64, log: &mut Records)
        requires { length (rows_of_set self.old patch id value) ≤ spare_of log.old }
        ensures changes { Changes self.old self.new log.old log.new (with_value self.old patch id value)
            (rows_of_set self.old patch id value) }
    {
        if let Some(was) = self.replace_value(patch, id, value) {
            // Setting the same value again is no change, so it isn't logged (docs/DECISIONS.md, "No record of an
            // unchanged row").
            if was != value {
                log.note(Record::StateValue { patch, id, was });
            }
        }
    }

    /// Restores the one row that the record names. A record of another part of the state changes nothing. If there is
    /// no room for a row, the row isn't restored, so that the limits hold whatever the record is. A patch is removed
    /// only if none of its states is left, since each state is a row of its own. If records are put back newest first,
    /// there is always room, and a patch that is removed has no states left.
    pub fn put_back(&mut self, row: Record)
        ensures { self.new ≡ put_back self.old row }
    {
        match row {
            Record::ShadowVariable { key, was } => self.put_variable(key, was),
            Record::NoShadowVariable { key } => {
                self.shadow.remove(key);
            }
            Record::StateValue { patch, id, was } => {
                self.replace_value(patch, id, was);
            }
            Record::StateRow { patch, id, was } => self.put_state(patch, id, was),
            Record::InstalledPatch { patch, place } => self.put_patch(patch, place),
            _ => {}
        }
    }

    /// Adds an installed patch at the end of both lists.
    fn put_last(&mut self, installed: InstalledPatch)
        requires { length self.old.installed < MAX_PATCHES }
        ensures { self.new ≡ record self.old { installed = self.old.installed ++ installed ∷ [] } }
    {
        self.installed.push(installed.patch());
        let _ = self.patches.push(installed);
    }

    /// Inserts an installed patch into both lists at the index `place`, counted from the oldest.
    fn put_at(&mut self, place: usize, installed: InstalledPatch)
        requires within { place ≤ length self.old.installed }
        requires room { length self.old.installed < MAX_PATCHES }
        ensures { self.new ≡ record self.old { installed = insert self.old.installed place installed } }
    {
        self.installed.insert(place, installed.patch());
        let _ = self.patches.insert(place, installed);
    }

    /// Removes the installed patch at this index, counted from the oldest, from both lists, and returns it.
    fn take_out(&mut self, place: usize) -> InstalledPatch
        requires { place < length self.old.installed }
        ensures patch { result ≡ slice_index_or self.old.installed place result }
        ensures world { self.new ≡ record self.old { installed = remove self.old.installed place } }
    {
        self.installed.remove(place);
        self.patches.remove(place)
    }

    /// Sets a shadow variable back to its old value, if there is room for one more variable.
    fn put_variable(&mut self, key: ShadowKey, was: ShadowValue)
        ensures { self.new ≡ put_variable self.old key (Some was) }
    {
        if self.shadow.len() < MAX_VARIABLES {
            self.shadow.insert(key, was);
        }
    }

    /// Sets a state of an installed patch, and returns its old value. If the patch isn't installed or doesn't name the
    /// state, changes nothing and returns `None`. The function logs nothing, because undo uses it too.
    fn replace_value(&mut self, patch: PatchId, id: u64, value: u64) -> Option<u64>
        ensures was { result ≡ state_value self.old patch id }
        ensures world { self.new ≡ with_value self.old patch id value }
    {
        let Some(place) = place_of_patch(&self.patches, patch) else {
            return None;
        };
        self.patches[place].set_value(id, value)
    }

    /// Undoes a change of one state row of an installed patch. Adds the state with its old value, or removes the state
    /// if `was` is `None`.
    fn put_state(&mut self, patch: PatchId, id: u64, was: Option<u64>)
        ensures { self.new ≡ record self.old { installed = change_states patch (put_state id was) self.old.installed } }
    {
        if let Some(place) = place_of_patch(&self.patches, patch) {
            self.patches[place].put_back(id, was);
        }
    }

    /// Undoes the installing or removing of a patch. If `place` is `None`, removes the patch, but only if it has no
    /// states left. Otherwise inserts the patch, without states, at its old index `place`.
    fn put_patch(&mut self, patch: PatchId, place: Option<u8>)
        ensures { self.new ≡ record self.old { installed = put_patch patch place self.old.installed } }
    {
        match place {
            None => {
                if let Some(place) = place_of_patch(&self.patches, patch) {
                    // Each state is a row of its own, so a patch's record doesn't remove states. A patch that still has
                    // states isn't removed.
                    if self.patches[place].is_bare() {
                        self.take_out(place);
                    }
                }
            }
            Some(place) => {
                if self.patches.len() < MAX_PATCHES {
                    let place = self.patches.len().min(place as usize);
                    self.put_at(place, InstalledPatch::new(patch));
                }
            }
        }
    }
}
