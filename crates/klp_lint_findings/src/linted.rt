//! The catalog that is judged, with the names and the lines of its parts.
ghost use Rattle.std.specs.Prelude.{◌≡◌, ◌<◌, option_map, slice_get};
ghost use Rattle.klp_lint_findings.specs.Targets.{target_at, function_at};

use crate::marks::Mark;
use klp_catalog_text::{PlanCallback, PlanFunction, PlanPatch, PlanTarget};
use klp_types::{ObjId, ObjectText, PatchId, Which};

/// A file: its name and its bytes.
#[derive(Clone, Copy)]
pub struct NamedText<'a> {
    pub name: &'a str,
    pub bytes: &'a [u8],
}

/// What is judged: a catalog, behind a script if there is one.
#[derive(Clone, Copy)]
pub struct LintInput<'a> {
    pub catalog: NamedText<'a>,
    pub script: Option<NamedText<'a>>,
}

/// What was read from the catalog. A patch is given by its number, and an object of a patch by its place among the
/// patch's targets. Both count from 0.
#[derive(Clone, Copy)]
pub struct Linted<'a> {
    pub input: LintInput<'a>,
    pub marks: &'a [Mark],
    pub handler: u64,
    pub objects: &'a [ObjectText],
    pub patches: &'a [PlanPatch],
}

/// The callback of this kind for a target. `None` if the target has none.
pub fn callback_for(target: &PlanTarget, which: Which) -> Option<&PlanCallback> {
    target.callbacks.iter().find(|it| it.which == which)
}

/// Whether the patch has a system state with this id.
pub fn names_state(patch: &PlanPatch, id: u64) -> bool {
    patch.states.iter().any(|state| state.id == id)
}

impl<'a> Linted<'a> {
    /// The patch with this number. `None` if there is no such patch.
    pub fn patch(&self, patch: PatchId) -> Option<&'a PlanPatch>
        ensures { option_map (λ own. own.now) result ≡ slice_get self.now.patches.now patch }
    {
        self.patches.get(usize::from(patch.0))
    }

    /// A target of a patch. `None` if there is no such target.
    pub fn target(&self, patch: PatchId, place: usize) -> Option<&'a PlanTarget>
        ensures { option_map (λ target. target.now) result ≡ target_at self.now.patches.now patch place }
    {
        let patch = self.patch(patch)?;
        patch.targets.get(place)
    }

    /// A function of a target. `number` counts the target's functions from 0. `None` if there is no such function.
    pub fn function(&self, patch: PatchId, place: usize, number: usize) -> Option<&'a PlanFunction>
        ensures { option_map (λ own. own.now) result
            ≡ function_at (target_at self.now.patches.now patch place) number }
    {
        let target = self.target(patch, place)?;
        target.functions.as_slice().get(number)
    }

    /// The object of a target. `None` if there is no such target.
    pub fn object(&self, patch: PatchId, place: usize) -> Option<ObjId> {
        let target = self.target(patch, place)?;
        Some(target.object)
    }

    /// The name of an object. It is empty if there is no such object.
    pub fn object_name(&self, object: ObjId) -> &'a str {
        match self.objects.get(usize::from(object.0)) {
            Some(found) => found.name.as_str(),
            None => "",
        }
    }

    /// The name of the object of a target. It is empty if there is no such target.
    pub fn target_name(&self, patch: PatchId, place: usize) -> &'a str {
        match self.object(patch, place) {
            Some(object) => self.object_name(object),
            None => "",
        }
    }

    /// The name of a patch. It is empty if there is no such patch.
    pub fn patch_name(&self, patch: PatchId) -> &'a str {
        match self.patch(patch) {
            Some(found) => found.name.as_str(),
            None => "",
        }
    }

    /// The line with which a patch begins. It is 0 if there is no such patch.
    pub fn patch_line(&self, patch: PatchId) -> u64 {
        match self.patch(patch) {
            Some(found) => found.line,
            None => 0,
        }
    }

    /// The line of a target. If the patch has no such target, the line of the patch.
    pub fn target_line(&self, patch: PatchId, place: usize) -> u64 {
        match self.target(patch, place) {
            Some(target) => target.line,
            None => self.patch_line(patch),
        }
    }

    /// The kind of the target's callback at this line of the catalog. `None` if there is no such callback.
    pub fn callback_kind(&self, patch: PatchId, place: usize, line: u64) -> Option<Which> {
        let target = self.target(patch, place)?;
        let callback = target.callbacks.iter().find(|it| it.line == line)?;
        Some(callback.which)
    }

    /// The line of a target's callback of this kind. `None` if there is no such callback.
    pub fn callback_line(&self, patch: PatchId, place: usize, which: Which) -> Option<u64> {
        let target = self.target(patch, place)?;
        let callback = callback_for(target, which)?;
        Some(callback.line)
    }

    /// The line with which a patch names a system state. If the patch doesn't name it, the line of the patch.
    pub fn state_line(&self, patch: PatchId, id: u64) -> u64 {
        let Some(own) = self.patch(patch) else {
            return 0;
        };
        match own.states.iter().find(|it| it.id == id) {
            Some(state) => state.line,
            None => own.line,
        }
    }

    /// The line of a function of a target. `function` counts the target's functions from 0. If there is no such
    /// function, the line of the target.
    pub fn function_line(&self, patch: PatchId, place: usize, function: usize) -> u64 {
        match self.function(patch, place, function) {
            Some(found) => found.line,
            None => self.target_line(patch, place),
        }
    }
}

/// The number of a patch, in the type that events use.
pub fn patch_id(number: usize) -> PatchId
    ensures { number < 256 → result ≡ number }
{
    PatchId(u8::try_from(number).unwrap_or(u8::MAX))
}
