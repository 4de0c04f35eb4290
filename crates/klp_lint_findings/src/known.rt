//! What marks say about the callbacks of a patch: which ones aren't understood, and which fail if a variable is there.
ghost use Rattle.std.specs.Prelude.{◌≡◌, true, false, IfSome};
ghost use Rattle.std.specs.List.{list_any};
ghost use Rattle.klp_lint_findings.specs.Deciding.{is_unknown};
ghost use Rattle.klp_lint_findings.specs.Marking.{IsMarked};

use crate::deciding::one_is_unknown;
use crate::linted::{Linted, callback_for};
use crate::marks::{Mark, MarkWord, mark_at};
use klp_catalog_text::PlanTarget;
use klp_core::Manager;
use klp_types::{PatchId, Which};

/// The kinds of callbacks, in the order in which they run.
pub const KINDS: [Which; 4] = [Which::Pre, Which::Post, Which::PreUn, Which::PostUn];

/// The mark that says this about the callback of this kind for a target. `None` if there is no such callback or mark.
pub fn callback_mark(
    linted: &Linted<'_>,
    target: &PlanTarget,
    which: Which,
    word: MarkWord,
) -> Option<Mark>
    ensures { IfSome result (IsMarked linted.now.marks.now word) }
{
    let callback = callback_for(target, which)?;
    mark_at(linted.marks, word, callback.line)
}

/// A mark about a callback for the object at this place.
#[derive(Clone, Copy)]
pub struct MarkedCallback {
    pub place: usize,
    pub mark: Mark,
}

/// The first callback for a target about which a mark says this.
fn marked_for(
    linted: &Linted<'_>,
    place: usize,
    target: &PlanTarget,
    word: MarkWord,
) -> Option<MarkedCallback>
    ensures { IfSome result (λ marked. IsMarked linted.now.marks.now word marked.mark) }
{
    for which in KINDS {
        if let Some(mark) = callback_mark(linted, target, which, word) {
            return Some(MarkedCallback { place, mark });
        }
    }
    None
}

/// The first callback of a patch for a loaded object about which a mark says this. `None` if there is none.
pub fn first_marked(
    linted: &Linted<'_>,
    manager: &Manager,
    patch: PatchId,
    word: MarkWord,
) -> Option<MarkedCallback>
    ensures { IfSome result (λ marked. IsMarked linted.now.marks.now word marked.mark) }
{
    let own = linted.patch(patch)?;
    for (place, target) in own.targets.iter().enumerate() {
        if manager.modules().is_loaded(target.object) {
            if let Some(marked) = marked_for(linted, place, target, word) {
                return Some(marked);
            }
        }
    }
    None
}

/// Whether no callback of a patch for a loaded object is marked as unknown.
pub fn is_understood(linted: &Linted<'_>, manager: &Manager, patch: PatchId) -> bool
    ensures { result ≡ false → list_any is_unknown linted.now.marks.now ≡ true }
{
    !one_is_unknown(linted.marks)
        || first_marked(linted, manager, patch, MarkWord::Unknown).is_none()
}
