//! What a catalog says of the patches that a log names. A log has their files, and the names of their symbols; a catalog
//! made of the patches' modules has more.
use crate::changed_functions::FoundFunction;
use klp_capture::Text;
use klp_catalog_text::{Plan, PlanPatch, PlanTarget};
use klp_messages::line_at;
use klp_types::ObjectText;
use std::alloc::{AllocError, Global};

/// What a line begins with that is a mark of the line before it.
const MARK: &[u8] = b"#? ";

/// The patches of a catalog: the names of their new functions, which are cumulative, and their system states and
/// callbacks.
#[derive(Drop)]
pub struct KnownPatches {
    text: Vec<u8>,
    objects: Vec<ObjectText>,
    patches: Vec<PlanPatch>,
}

impl KnownPatches {
    /// Returns no patches, for a log that speaks for itself.
    pub fn none(alloc: Global) -> KnownPatches {
        KnownPatches {
            text: Vec::new(alloc),
            objects: Vec::new(alloc),
            patches: Vec::new(alloc),
        }
    }

    /// Returns the patches of a catalog. `plan` is what its text says.
    pub fn of(text: Vec<u8>, plan: Plan) -> KnownPatches {
        let mut plan = plan;
        let objects = plan.take_objects();
        KnownPatches {
            text,
            objects,
            patches: plan.into_patches(),
        }
    }

    /// Whether the catalog has a patch of this name.
    pub fn has(&self, patch: &[u8]) -> bool {
        self.patch(patch).is_some()
    }

    fn patch(&self, name: &[u8]) -> Option<&PlanPatch> {
        self.patches
            .iter()
            .find(|patch| patch.name.as_bytes() == name)
    }

    fn target(&self, patch: &[u8], object: &[u8]) -> Option<&PlanTarget> {
        self.patch(patch)?.targets.iter().find(|target| {
            match self.objects.get(usize::from(target.object.0)) {
                Some(own) => own.name.as_bytes() == object,
                None => false,
            }
        })
    }

    /// Returns the name of the new function of a patch, by the object, the name and the position of the function that it
    /// replaces.
    pub(crate) fn new_name(
        &self,
        patch: &[u8],
        object: &[u8],
        function: &FoundFunction<'_>,
    ) -> Option<&[u8]> {
        let target = self.target(patch, object)?;
        let found = target.functions.iter().find(|own| {
            own.symbol.as_bytes() == function.name && own.sympos.max(1) == function.position.max(1)
        })?;
        Some(found.new_name.as_bytes())
    }

    /// Returns whether a patch is cumulative. Returns `None` if the catalog doesn't have the patch, or has a mark behind
    /// its line: then it isn't known which of the two it is.
    pub(crate) fn is_cumulative(&self, patch: &[u8]) -> Option<bool> {
        let patch = self.patch(patch)?;
        match self.mark_at(patch.line.saturating_add(1)) {
            Some(_) => None,
            None => Some(patch.replace),
        }
    }

    /// Returns the line with this number, if it is a mark.
    fn mark_at(&self, line: u64) -> Option<&[u8]> {
        let line = line_at(&self.text, line);
        if line.starts_with(MARK) {
            Some(line)
        } else {
            None
        }
    }

    /// Writes a line of the catalog, with its marks behind it.
    fn write_line(&self, text: &mut String, line: u64) -> Result<(), AllocError> {
        let words = Text(line_at(&self.text, line));
        writeln!(text, "{words}")?;
        for behind in line.saturating_add(1)..u64::MAX {
            let Some(mark) = self.mark_at(behind) else {
                break;
            };
            let mark = Text(mark);
            writeln!(text, "{mark}")?;
        }
        Ok(())
    }

    /// Writes the system states of a patch, as the catalog spells them.
    pub(crate) fn write_states(&self, text: &mut String, patch: &[u8]) -> Result<(), AllocError> {
        if let Some(patch) = self.patch(patch) {
            for state in &patch.states {
                self.write_line(text, state.line)?;
            }
        }
        Ok(())
    }

    /// Writes the callbacks of a patch for an object, as the catalog spells them, with their marks.
    pub(crate) fn write_callbacks(
        &self,
        text: &mut String,
        patch: &[u8],
        object: &[u8],
    ) -> Result<(), AllocError> {
        if let Some(target) = self.target(patch, object) {
            for callback in &target.callbacks {
                self.write_line(text, callback.line)?;
            }
        }
        Ok(())
    }
}
