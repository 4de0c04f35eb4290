//! Finds what the callbacks of a patch change: variables and system states.

use klp_catalog_text::{PlanPatch, PlanTarget};
use klp_core::Manager;
use klp_lint_findings::edits_for;
use klp_types::{Edit, ShadowKey, Which};
use std::alloc::{AllocError, Global};

/// Shadow variables, each of them once.
pub type Keys = Vec<ShadowKey>;

/// Adds a variable, unless it is there already.
fn add_key(keys: &mut Keys, key: ShadowKey) -> Result<(), AllocError> {
    if !keys.as_slice().contains(&key) {
        keys.push(key)?;
    }
    Ok(())
}

/// Adds the existing variables of an id.
fn add_keys_of_id(keys: &mut Keys, manager: &Manager, id: u64) -> Result<(), AllocError> {
    // there are at most as many variables as parent objects that are passed here
    let mut after = None;
    for _ in 0..klp_types::MAX_VARIABLES {
        let Some(obj) = manager.next_parent(id, after) else {
            return Ok(());
        };
        add_key(keys, ShadowKey { obj, id })?;
        after = Some(obj);
    }
    Ok(())
}

/// Adds the variables that an edit may add or free. Of an id that it frees, these are the existing ones.
fn add_changed(keys: &mut Keys, manager: &Manager, edit: &Edit) -> Result<(), AllocError> {
    match *edit {
        Edit::Alloc(key, _) | Edit::Free(key) => add_key(keys, key),
        Edit::FreeAll(id) => add_keys_of_id(keys, manager, id),
        Edit::SetData(_, _) | Edit::TakePrev(_) => Ok(()),
    }
}

/// Adds the variables that the callbacks for a target may add or free while the target is patched.
fn add_changed_for(
    keys: &mut Keys,
    manager: &Manager,
    target: &PlanTarget,
) -> Result<(), AllocError> {
    for edit in edits_for(target, Which::Pre) {
        add_changed(keys, manager, edit)?;
    }
    for edit in edits_for(target, Which::Post) {
        add_changed(keys, manager, edit)?;
    }
    Ok(())
}

/// The shadow variables that the callbacks of a patch for loaded objects may add or free while it is applied. `Err` if
/// memory runs out.
pub fn keys_changed(
    alloc: Global,
    manager: &Manager,
    patch: &PlanPatch,
) -> Result<Keys, AllocError> {
    let mut keys = Vec::new(alloc);
    for target in patch.targets.iter() {
        if manager.modules().is_loaded(target.object) {
            add_changed_for(&mut keys, manager, target)?;
        }
    }
    Ok(keys)
}

/// What the edits of a patch do with one of its system states.
#[derive(Clone, Copy, PartialEq, Eq)]
pub enum Change {
    Nothing,
    Sets,
    TakesOver,
}

/// What these edits do with a system state, after `change`. The last edit counts.
fn change_by(change: Change, id: u64, edits: &[Edit]) -> Change {
    let mut change = change;
    for edit in edits {
        match *edit {
            Edit::SetData(own, _) if own == id => change = Change::Sets,
            Edit::TakePrev(own) if own == id => change = Change::TakesOver,
            _ => {}
        }
    }
    change
}

/// What the callbacks of this kind for loaded objects do with a system state, after `change`.
fn change_of_kind(
    change: Change,
    manager: &Manager,
    patch: &PlanPatch,
    which: Which,
    id: u64,
) -> Change {
    let mut change = change;
    for target in patch.targets.iter() {
        if manager.modules().is_loaded(target.object) {
            change = change_by(change, id, edits_for(target, which));
        }
    }
    change
}

/// Returns what the callbacks of a patch for loaded objects do with this system state while the patch is applied. All
/// pre-patch callbacks run before all post-patch callbacks, and the last edit counts.
pub fn change_of(manager: &Manager, patch: &PlanPatch, id: u64) -> Change {
    let change = change_of_kind(Change::Nothing, manager, patch, Which::Pre, id);
    change_of_kind(change, manager, patch, Which::Post, id)
}
