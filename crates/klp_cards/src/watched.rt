//! The values that callbacks can change: the shadow variables that a catalog's scripts name, and the system states.

use klp_catalog_text::Plan;
use klp_core::Manager;
use klp_markup::Value::{Markup, Name, Number, Text};
use klp_markup::{Sheet, patch_name};
use klp_model::Event;
use klp_types::{Edit, MAX_PATCHES, MAX_TARGETS, MAX_VALUE_BYTES, PatchId, ShadowKey, ShadowValue};
use std::alloc::{AllocError, Global};

/// The largest number of scripts in a catalog. Each patch may have a script for each of its objects and for each of the
/// four kinds of callbacks.
const MAX_SCRIPTS: usize = 4 * MAX_TARGETS * MAX_PATCHES;

/// The largest number of shadow variables that are watched. A manager never has so many at one time.
const MAX_WATCHED: usize = 1_024;

/// A shadow variable, with its value before and after the event that was read last. A value is `None` if there is no
/// such variable.
#[derive(Clone, Copy)]
struct Variable {
    key: ShadowKey,
    was: Option<ShadowValue>,
    value: Option<ShadowValue>,
}

/// A system state of a patch, with its value before and after the event that was read last. A value is `None` if the
/// patch isn't installed.
#[derive(Clone, Copy)]
struct State {
    patch: PatchId,
    id: u64,
    was: Option<u64>,
    value: Option<u64>,
}

/// All that callbacks can change, with the values before and after the event that was read last.
#[derive(Drop)]
pub(crate) struct Watched {
    variables: Vec<Variable>,
    /// The ids for which a script removes all shadow variables, including those that the script didn't add.
    freed: Vec<u64>,
    states: Vec<State>,
    /// Whether a variable isn't watched because [`MAX_WATCHED`] others already are.
    is_full: bool,
}

/// Adds the value of a shadow variable, spelled as in a script: a value of eight bytes as a number, any other as `x`
/// and its bytes in hexadecimal. Adds `none` if there is no such variable.
fn add_value(sheet: &mut Sheet, value: &Option<ShadowValue>) {
    let Some(value) = value else {
        sheet.markup("none");
        return;
    };
    if let Some(number) = value.number() {
        sheet.number(number);
        return;
    }
    let mut digits = [0; 2 * MAX_VALUE_BYTES];
    let bytes = value.bytes();
    // No value has more than `MAX_VALUE_BYTES` bytes, so `min` changes nothing.
    let count = bytes.len().min(MAX_VALUE_BYTES);
    let _ = hex::encode_to_slice(&bytes[..count], &mut digits[..2 * count]);
    sheet.fill("x{}", &[Text(&digits[..2 * count])]);
}

impl Variable {
    /// Reads the variable's value after an event. The value that was read before becomes the value before the event.
    fn read(&mut self, manager: &Manager) {
        self.was = self.value;
        self.value = manager.shadow_get(self.key);
    }

    /// Adds a list item with the variable's values before and after the event: `was` and `value`.
    fn add(&self, sheet: &mut Sheet) {
        sheet.fill(
            "<li>shadow variable ({}, {}): ",
            &[Number(self.key.obj), Number(self.key.id)],
        );
        add_value(sheet, &self.was);
        sheet.markup(" \u{2192} ");
        add_value(sheet, &self.value);
    }
}

impl State {
    /// Reads the state's value after an event. The value that was read before becomes the value before the event.
    fn read(&mut self, manager: &Manager) {
        self.was = self.value;
        self.value = manager.state_of(self.patch, self.id);
    }

    /// Returns the state's values before and after the event if a callback changed it. A patch that the event installed
    /// counts as if its state was 0 before. Returns `None` if the value is the same. Also returns `None` if the event
    /// removed the patch, which then has no value.
    fn change(&self) -> Option<(u64, u64)> {
        let value = self.value?;
        let was = self.was.unwrap_or(0);
        if was == value {
            return None;
        }
        Some((was, value))
    }

    /// Adds a list item with the state's values before and after the event, as [`State::change`] returned them.
    fn add(&self, sheet: &mut Sheet, manager: &Manager, was: u64, value: u64) {
        sheet.fill(
            "<li>state {} of '{}': {} {} {}",
            &[
                Number(self.id),
                Name(patch_name(manager.catalog(), self.patch)),
                Number(was),
                Markup("\u{2192}"),
                Number(value),
            ],
        );
    }
}

impl Watched {
    /// Returns the state in which nothing is watched. Allocates nothing.
    pub(crate) fn new(alloc: Global) -> Watched {
        Watched {
            variables: Vec::new(alloc),
            freed: Vec::new(alloc),
            states: Vec::new(alloc),
            is_full: false,
        }
    }

    /// Whether the shadow variable with this key is watched.
    fn is_watched(&self, key: ShadowKey) -> bool {
        for variable in &self.variables {
            if variable.key == key {
                return true;
            }
        }
        false
    }

    /// Begins to watch a shadow variable, whose value isn't read yet. Does nothing if it is watched already. If
    /// [`MAX_WATCHED`] others are watched, sets only `is_full`, which says that a variable is missing. `Err` if memory
    /// runs out.
    fn add_variable(&mut self, key: ShadowKey) -> Result<(), AllocError> {
        if self.is_watched(key) {
            return Ok(());
        }
        if self.variables.len() >= MAX_WATCHED {
            self.is_full = true;
            return Ok(());
        }
        self.variables.push(Variable {
            key,
            was: None,
            value: None,
        })?;
        Ok(())
    }

    /// Begins to watch the shadow variable that an edit of a script adds or removes. If the edit removes all variables
    /// with an id, adds the id to `freed`. `Err` if memory runs out.
    fn add_edit(&mut self, edit: &Edit) -> Result<(), AllocError> {
        match *edit {
            Edit::Alloc(key, _) | Edit::Free(key) => self.add_variable(key)?,
            Edit::FreeAll(id) if !self.freed.contains(&id) => self.freed.push(id)?,
            // The id is listed already, or the edit sets a system state: all of them are watched.
            _ => {}
        }
        Ok(())
    }

    /// Begins to watch the shadow variables that the scripts of a plan change. `Err` if memory runs out.
    pub(crate) fn add_scripts(&mut self, plan: &Plan) -> Result<(), AllocError> {
        for number in 0..MAX_SCRIPTS {
            let Some(script) = plan.script(number) else {
                return Ok(());
            };
            for edit in &script.edits {
                self.add_edit(edit)?;
            }
        }
        Ok(())
    }

    /// Begins to watch all system states that the patches of the manager's catalog name. Their values aren't read yet.
    /// `Err` if memory runs out.
    pub(crate) fn open(&mut self, manager: &Manager) -> Result<(), AllocError> {
        let catalog = manager.catalog();
        for number in 0..catalog.patches() {
            let patch = PatchId(number);
            for id in &catalog.state_ids(patch) {
                self.states.push(State {
                    patch,
                    id: *id,
                    was: None,
                    value: None,
                })?;
            }
        }
        Ok(())
    }

    /// If an event adds a shadow variable with an id for which a script removes all variables, begins to watch this
    /// variable. `Err` if memory runs out.
    fn watch_freed(&mut self, event: &Event) -> Result<(), AllocError> {
        match *event {
            Event::ShadowAlloc(key, _) | Event::ShadowGetOrAlloc(key, _)
                if self.freed.contains(&key.id) => { self.add_variable(key) }
            _ => Ok(()),
        }
    }

    /// Reads the watched shadow variables that an event changed by itself, without a callback. It must be read now, so
    /// that a later event doesn't seem to have changed them. `Err` if memory runs out.
    pub(crate) fn read_own(&mut self, manager: &Manager, event: &Event) -> Result<(), AllocError> {
        self.watch_freed(event)?;
        // `own` is the key of the one variable that may have changed, `all` the id of all variables that may have.
        let (own, all) = match *event {
            Event::ShadowAlloc(key, _) | Event::ShadowGetOrAlloc(key, _) | Event::ShadowFree(key) =>
                (Some(key), None),
            Event::ShadowFreeAll(id) => (None, Some(id)),
            _ => return Ok(()),
        };
        for variable in &mut self.variables {
            if own == Some(variable.key) || all == Some(variable.key.id) {
                variable.read(manager);
            }
        }
        Ok(())
    }

    /// Reads all watched values after an event that may have run callbacks.
    pub(crate) fn read_all(&mut self, manager: &Manager) {
        for variable in &mut self.variables {
            variable.read(manager);
        }
        for state in &mut self.states {
            state.read(manager);
        }
    }

    /// Adds a list item for each value that the event changed. Returns whether there is such a value. If some variable
    /// isn't watched, a further item says so.
    pub(crate) fn add_changes(&self, sheet: &mut Sheet, manager: &Manager) -> bool {
        let mut is_changed = false;
        for variable in &self.variables {
            if variable.was != variable.value {
                variable.add(sheet);
                is_changed = true;
            }
        }
        for state in &self.states {
            if let Some((was, value)) = state.change() {
                state.add(sheet, manager, was, value);
                is_changed = true;
            }
        }
        if self.is_full {
            sheet.fill(
                "<li>only {} shadow variables are watched, of more that are named",
                &[Number(MAX_WATCHED as u64)],
            );
        }
        is_changed
    }
}
