//! Names and values as sentences have them.

use klp_lint_findings::{FunctionSet, Linted, PatchList};
use klp_types::{ObjId, PatchId, ShadowValue, Which};
use std::fmt;

/// The name of this kind of callback.
pub(crate) fn name_of(which: Which) -> &'static str {
    match which {
        Which::Pre => "pre-patch",
        Which::Post => "post-patch",
        Which::PreUn => "pre-unpatch",
        Which::PostUn => "post-unpatch",
    }
}

/// What stands in front of a name of a list: `p`, `p and q`, `p, q and r`. `number` counts the names from 0.
fn before(number: usize, count: usize) -> &'static str {
    if number == 0 {
        ""
    } else if number.saturating_add(1) == count {
        " and "
    } else {
        ", "
    }
}

/// Writes the value of a shadow variable as a catalog spells it. If the variable doesn't exist, says so.
#[derive(Clone, Copy)]
pub(crate) struct ShownValue(pub(crate) Option<ShadowValue>);

impl fmt::Display for ShownValue {
    fn fmt<W: fmt::Write>(&self, f: &mut fmt::Formatter<W>) -> fmt::Result {
        let Some(value) = self.0 else {
            return write!(f, "not there");
        };
        match value.number() {
            Some(number) => write!(f, "{number}"),
            None => {
                write!(f, "x")?;
                for byte in value.bytes() {
                    write!(f, "{byte:02x}")?;
                }
                Ok(())
            }
        }
    }
}

/// Writes the names of patches as they are listed in a sentence.
#[derive(Clone, Copy)]
pub(crate) struct PatchNames<'a> {
    pub(crate) linted: Linted<'a>,
    pub(crate) patches: PatchList,
}

impl fmt::Display for PatchNames<'_> {
    fn fmt<W: fmt::Write>(&self, f: &mut fmt::Formatter<W>) -> fmt::Result {
        let named = self.patches.as_slice();
        for (number, patch) in named.iter().enumerate() {
            let between = before(number, named.len());
            write!(f, "{between}{}", self.linted.patch_name(*patch))?;
        }
        Ok(())
    }
}

/// Writes the names of some functions of a target as they are listed in a sentence.
#[derive(Clone, Copy)]
pub(crate) struct FunctionNames<'a> {
    pub(crate) linted: Linted<'a>,
    pub(crate) patch: PatchId,
    pub(crate) place: usize,
    pub(crate) functions: FunctionSet,
}

impl fmt::Display for FunctionNames<'_> {
    fn fmt<W: fmt::Write>(&self, f: &mut fmt::Formatter<W>) -> fmt::Result {
        let Some(target) = self.linted.target(self.patch, self.place) else {
            return Ok(());
        };
        let count = self.functions.count();
        let mut written = 0usize;
        for (number, function) in target.functions.as_slice().iter().enumerate() {
            if self.functions.contains(number) {
                let between = before(written, count);
                write!(f, "{between}{}", function.symbol.as_str())?;
                written = written.saturating_add(1);
            }
        }
        Ok(())
    }
}

/// Whether one of these patches has this object. If there are no patches, whether the catalog has it.
fn is_of(linted: &Linted<'_>, patches: &PatchList, object: ObjId) -> bool {
    patches.as_slice().is_empty()
        || patches.as_slice().iter().any(|patch| match linted.patch(*patch) {
            Some(own) => own.targets.iter().any(|target| target.object == object),
            None => false,
        })
}

/// The modules that some patches have as objects. All modules of the catalog if there are no such patches.
#[derive(Clone, Copy)]
pub(crate) struct ModuleNames<'a> {
    pub(crate) linted: Linted<'a>,
    pub(crate) patches: PatchList,
}

impl ModuleNames<'_> {
    /// The number of the object, if it is one of the modules.
    fn module(&self, number: usize) -> Option<ObjId> {
        let object = ObjId(u8::try_from(number).ok()?);
        if number > 0 && is_of(&self.linted, &self.patches, object) {
            Some(object)
        } else {
            None
        }
    }

    /// How many modules there are.
    pub(crate) fn count(&self) -> usize {
        let mut count = 0usize;
        for number in 0..self.linted.objects.len() {
            if self.module(number).is_some() {
                count = count.saturating_add(1);
            }
        }
        count
    }
}

impl fmt::Display for ModuleNames<'_> {
    fn fmt<W: fmt::Write>(&self, f: &mut fmt::Formatter<W>) -> fmt::Result {
        let count = self.count();
        let mut written = 0usize;
        for number in 0..self.linted.objects.len() {
            if let Some(object) = self.module(number) {
                let between = before(written, count);
                write!(f, "{between}{}", self.linted.object_name(object))?;
                written = written.saturating_add(1);
            }
        }
        Ok(())
    }
}
