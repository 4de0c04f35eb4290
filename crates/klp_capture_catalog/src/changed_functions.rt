//! The functions that the patches of a log change.
use crate::named::index_of;
use klp_capture::PatchRow;
use klp_types::{MAX_FUNCTIONS, MAX_OBJECTS, MAX_SITES, MAX_TARGETS};
use std::alloc::{AllocError, Global};

/// At most this many functions without room are counted.
const MOST_LEFT_OUT: usize = 4096;

/// A function that a patch changes, by the rows of the log.
#[derive(Clone, Copy, PartialEq, Eq)]
pub(crate) struct FoundFunction<'a> {
    pub(crate) patch: usize,
    pub(crate) object: usize,
    pub(crate) name: &'a [u8],
    pub(crate) position: u32,
}

/// The functions that any row has. Each function is listed once.
#[derive(Drop)]
pub(crate) struct FoundFunctions<'a> {
    pub(crate) functions: Vec<FoundFunction<'a>>,
    /// The functions that a catalog has no room for.
    pub(crate) left_out: Vec<FoundFunction<'a>>,
}

impl<'a> FoundFunctions<'a> {
    /// Returns how many objects a patch changes.
    fn targets(&self, patch: usize) -> usize {
        let mut targets: usize = 0;
        for object in 0..MAX_OBJECTS {
            let has = self
                .functions
                .iter()
                .any(|own| own.patch == patch && own.object == object);
            if has {
                targets = targets.saturating_add(1);
            }
        }
        targets
    }

    /// Whether a catalog has room for one more function.
    fn has_room(&self, function: &FoundFunction<'a>) -> bool {
        let patch = function.patch;
        let own = self.functions.iter().filter(|own| own.patch == patch);
        if self.functions.len() >= MAX_SITES || own.count() >= MAX_FUNCTIONS {
            return false;
        }
        let has_target = self
            .functions
            .iter()
            .any(|own| own.patch == patch && own.object == function.object);
        has_target || self.targets(patch) < MAX_TARGETS
    }

    fn add(&mut self, function: FoundFunction<'a>) -> Result<(), AllocError> {
        if self.functions.contains(&function) {
            return Ok(());
        }
        if self.has_room(&function) {
            self.functions.push(function)?;
        } else if self.left_out.len() < MOST_LEFT_OUT && !self.left_out.contains(&function) {
            self.left_out.push(function)?;
        }
        Ok(())
    }
}

/// Finds the functions in all rows. Adds their objects to `objects`.
pub(crate) fn found_in<'a>(
    alloc: Global,
    rows: &[PatchRow<'a>],
    patches: &[&'a [u8]],
    objects: &mut Vec<&'a [u8]>,
) -> Result<FoundFunctions<'a>, AllocError> {
    let mut found = FoundFunctions {
        functions: Vec::new(alloc),
        left_out: Vec::new(alloc),
    };
    let mut patch = None;
    let mut object = None;
    for row in rows {
        match row {
            PatchRow::Patch { name, .. } => patch = patches.iter().position(|own| own == name),
            PatchRow::Object { name, .. } => object = index_of(objects, *name, MAX_OBJECTS)?,
            PatchRow::Loaded => {}
            PatchRow::Function { name, position } => {
                if let (Some(patch), Some(object)) = (patch, object) {
                    found.add(FoundFunction {
                        patch,
                        object,
                        name: *name,
                        position: *position,
                    })?;
                }
            }
        }
    }
    Ok(found)
}

/// Whether another patch changes this function too.
pub(crate) fn is_shared(found: &[FoundFunction<'_>], function: &FoundFunction<'_>) -> bool {
    found.iter().any(|other| {
        other.patch != function.patch
            && other.object == function.object
            && other.name == function.name
    })
}
