//! What is read from a catalog before its patches are judged.
ghost use Rattle.std.specs.Prelude.{◌≡◌, ◌-◌, length, IfOk};
ghost use Rattle.klp_lint_worlds.specs.Whole.{IsReadFrom};

use klp_boot::Fault;
use klp_catalog::Catalog;
use klp_catalog_text::PlanPatch;
use klp_lint_findings::{LintInput, Linted, Mark, MarkFault, NoMarks, read_marks};
use klp_types::ObjectText;
use std::alloc::{AllocError, Global};

/// The marks, the objects and the patches of a catalog. Booting a manager consumes what was read of a text, and the
/// findings need it too. So the text is read twice.
#[derive(Drop)]
pub struct LintPlan {
    handler: u64,
    objects: Vec<ObjectText>,
    patches: Vec<PlanPatch>,
    marks: Vec<Mark>,
}

/// Why nothing is judged.
#[derive(Clone, Copy)]
pub enum LintFault {
    /// The catalog or the script is faulty, memory ran out, or a write failed.
    Program(Fault),
    /// A mark of the catalog is faulty.
    Mark(MarkFault),
}

impl From<Fault> for LintFault {
    fn from(fault: Fault) -> LintFault {
        LintFault::Program(fault)
    }
}

impl From<NoMarks> for LintFault {
    fn from(none: NoMarks) -> LintFault {
        match none {
            NoMarks::NoMemory => LintFault::Program(Fault::NoMemory),
            NoMarks::Fault(fault) => LintFault::Mark(fault),
        }
    }
}

impl LintPlan {
    /// Reads a catalog. A faulty mark is told before all other faults.
    pub fn read(alloc: Global, catalog: &[u8]) -> Result<LintPlan, LintFault>
        ensures { IfOk result (λ plan. IsReadFrom catalog.now plan) }
    {
        let marks = read_marks(alloc, catalog)?;
        let mut plan = match Catalog::read(alloc, catalog) {
            Ok(plan) => plan,
            Err(fault) => return Err(LintFault::Program(Fault::from(fault))),
        };
        let handler = plan.handler();
        let objects = plan.take_objects();
        let patches = plan.into_patches();
        Ok(LintPlan {
            handler,
            objects,
            patches,
            marks,
        })
    }

    /// How many modules the catalog has: all objects but the first, which is the kernel.
    pub(crate) fn modules(&self) -> usize
        ensures { result ≡ length self.now.objects.items - 1 }
    {
        self.objects.len().saturating_sub(1)
    }

    /// What was read, with the files that it was read from.
    pub(crate) fn linted<'a>(&'a self, input: LintInput<'a>) -> Linted<'a>
        ensures input { result.input ≡ input.entry }
        ensures patches { result.patches.now ≡ self.now.patches.items }
        ensures marks { result.marks.now ≡ self.now.marks.items }
    {
        Linted {
            input,
            marks: &self.marks,
            handler: self.handler,
            objects: &self.objects,
            patches: &self.patches,
        }
    }
}
