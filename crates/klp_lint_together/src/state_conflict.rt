//! Finds the system state that keeps a patch from being loaded over others.

use klp_catalog_text::{PlanPatch, SystemState};
use klp_lint_findings::{Linted, PatchList, StateConflict};
use klp_types::PatchId;

/// Returns the patches that are installed after the patches in `below` are loaded. A cumulative patch removes all older
/// ones.
fn installed_after(linted: &Linted<'_>, installed: &[PatchId], below: &[PatchId]) -> PatchList {
    let mut standing = PatchList::of(installed);
    for patch in below {
        let replaces = match linted.patch(*patch) {
            Some(found) => found.replace,
            None => false,
        };
        if replaces {
            standing = PatchList::new();
        }
        standing.push(*patch);
    }
    standing
}

/// Returns the conflict between a patch and this system state of an installed patch. `None` if there is no conflict.
fn conflict_of(own: &PlanPatch, state: &SystemState, installed: PatchId) -> Option<StateConflict> {
    let named = own.states.iter().find(|it| it.id == state.id);
    let fits = match named {
        Some(named) => state.version <= named.version,
        None => !own.replace,
    };
    if fits {
        return None;
    }
    Some(StateConflict {
        id: state.id,
        installed,
        there: state.version,
        own: named.map(|it| it.version),
    })
}

/// Returns the first system state that keeps `patch` from being loaded after the patches in `below`. The patches in
/// `installed` are installed before the patches in `below`. `None` if there is no such state.
pub(crate) fn conflict_with(
    linted: &Linted<'_>,
    installed: &[PatchId],
    below: &[PatchId],
    patch: PatchId,
) -> Option<StateConflict> {
    let own = linted.patch(patch)?;
    for there in installed_after(linted, installed, below).as_slice() {
        let other = linted.patch(*there)?;
        for state in other.states.iter() {
            if let Some(conflict) = conflict_of(own, state, *there) {
                return Some(conflict);
            }
        }
    }
    None
}
