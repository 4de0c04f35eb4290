//! The edits that the callbacks of a patch make.

use crate::linted::callback_for;
use klp_catalog_text::{PlanCallback, PlanPatch, PlanTarget};
use klp_types::{Edit, Which};

/// Returns the edits that a callback makes. A callback whose status isn't 0 makes no edits.
pub fn edits_made(callback: &PlanCallback) -> &[Edit] {
    if callback.script.status == 0 {
        callback.script.edits.as_slice()
    } else {
        &[]
    }
}

/// Returns the edits that the callback of this kind makes for a target. There are none if the target has no such
/// callback.
pub fn edits_for(target: &PlanTarget, which: Which) -> &[Edit] {
    match callback_for(target, which) {
        Some(callback) => edits_made(callback),
        None => &[],
    }
}

/// The most shadow variables that a callback can add.
pub fn count_added(callback: &PlanCallback) -> usize {
    edits_made(callback)
        .iter()
        .filter(|edit| matches!(**edit, Edit::Alloc(_, _)))
        .count()
}

/// The most shadow variables that all callbacks of a patch can add.
pub fn count_all_added(patch: &PlanPatch) -> usize {
    let mut count = 0usize;
    for target in patch.targets.iter() {
        for callback in target.callbacks.iter() {
            count = count.saturating_add(count_added(callback));
        }
    }
    count
}
