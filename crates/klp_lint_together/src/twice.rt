//! Finds variables that keep a patch from being loaded: its pre-patch adds them by a call that fails if they are there.
ghost use Rattle.std.specs.Prelude.{◌≡◌};
ghost use Rattle.klp_core.specs.Journaled.{IsWellFormed};
ghost use Rattle.klp_lint_findings.specs.Claims.{IsThereBehind};
ghost use Rattle.klp_lint_findings.specs.Standing.{standing};
ghost use Rattle.klp_lint_together.specs.Kept.{IsAsBefore};

use klp_core::Manager;
use klp_lint::value_behind;
use klp_lint_findings::{Linted, MarkWord, callback_mark, edits_for};
use klp_model::Event;
use klp_types::{Edit, ObjId, PatchId, ShadowKey, Which};

/// Whether a shadow variable would be there after these events. The events are taken back.
pub(crate) fn is_there(manager: &mut Manager, events: &[Event], key: ShadowKey) -> bool
    ensures behind { IsThereBehind (standing manager.old) events.now key result }
    ensures kept { IsAsBefore manager.old manager.new }
{
    let _for_its_clause = manager.mark();
    is_there_behind(manager, events, key)
}

/// The same, of a manager that is known to be well formed.
fn is_there_behind(manager: &mut Manager, events: &[Event], key: ShadowKey) -> bool
    requires { IsWellFormed manager.old }
    ensures behind { IsThereBehind (standing manager.old) events.now key result }
    ensures kept { IsAsBefore manager.old manager.new }
{
    value_behind(manager, events, key).is_some()
}

/// What edits do to a variable: whether it is there afterwards, and whether one of them adds it while it is there.
#[derive(Clone, Copy)]
struct Adding {
    is_there: bool,
    is_twice: bool,
}

/// What these edits do to a variable, if it is there before or not.
fn adding_by(was_there: bool, key: ShadowKey, edits: &[Edit]) -> Adding {
    let mut adding = Adding {
        is_there: was_there,
        is_twice: false,
    };
    for edit in edits {
        match *edit {
            Edit::Alloc(own, _) if own == key => {
                adding.is_twice = adding.is_twice || adding.is_there;
                adding.is_there = true;
            }
            Edit::Free(own) if own == key => adding.is_there = false,
            Edit::FreeAll(id) if id == key.id => adding.is_there = false,
            _ => {}
        }
    }
    adding
}

/// The first loaded object of a patch whose pre-patch fails since it adds a variable that is there. `was_there` says
/// whether the variable is there before the patch is loaded.
fn failing_object(
    linted: &Linted<'_>,
    manager: &Manager,
    patch: PatchId,
    key: ShadowKey,
    was_there: bool,
) -> Option<ObjId> {
    let own = linted.patch(patch)?;
    let mut is_there = was_there;
    for target in own.targets.iter() {
        if manager.modules().is_loaded(target.object) {
            let adding = adding_by(is_there, key, edits_for(target, Which::Pre));
            let mark = callback_mark(linted, target, Which::Pre, MarkWord::FailsIfThere);
            if adding.is_twice && mark.is_some() {
                return Some(target.object);
            }
            is_there = adding.is_there;
        }
    }
    None
}

/// A variable that keeps a patch from being loaded, and the object whose pre-patch would add it.
#[derive(Clone, Copy)]
pub(crate) struct TwiceAdded {
    pub(crate) object: ObjId,
    pub(crate) key: ShadowKey,
}

/// The first variable of these edits that keeps a patch from being loaded after some events. `None` if there is none.
fn twice_added_by(
    linted: &Linted<'_>,
    manager: &mut Manager,
    events: &[Event],
    patch: PatchId,
    edits: &[Edit],
) -> Option<TwiceAdded>
    ensures { IsAsBefore manager.old manager.new }
{
    for edit in edits {
        if let Edit::Alloc(key, _) = *edit {
            let was_there = is_there(manager, events, key);
            if let Some(object) = failing_object(linted, manager, patch, key, was_there) {
                return Some(TwiceAdded { object, key });
            }
        }
    }
    None
}

/// The first variable that keeps a patch from being loaded after some events: its pre-patch adds the variable, which is
/// there already, by a call that fails then. `None` if there is none. Without marks no call fails so.
pub(crate) fn twice_added(
    linted: &Linted<'_>,
    manager: &mut Manager,
    events: &[Event],
    patch: PatchId,
) -> Option<TwiceAdded>
    ensures { IsAsBefore manager.old manager.new }
{
    let own = linted.patch(patch)?;
    for target in own.targets.iter() {
        let mark = callback_mark(linted, target, Which::Pre, MarkWord::FailsIfThere);
        if mark.is_some() && manager.modules().is_loaded(target.object) {
            let edits = edits_for(target, Which::Pre);
            if let Some(twice) = twice_added_by(linted, manager, events, patch, edits) {
                return Some(twice);
            }
        }
    }
    None
}
