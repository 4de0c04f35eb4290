ghost use Rattle.std.specs.Prelude.{◌≡◌, length, Ok, IfOk, IfErr};
ghost use Rattle.klp_catalog_text.specs.Text.{plan_of, IsFaultOf};
ghost use Rattle.klp_catalog_text.specs.Draft.{empty_draft};
ghost use Rattle.klp_catalog_text.specs.Within.{AreTargetsWithin};

use crate::draft::Draft;
use crate::fault::{TextFault, TextFaultKind};
use crate::lines::Lines;
use crate::plan::Plan;
use std::alloc::Global;

/// Reads the whole text of a catalog, in time linear in its length.
///
/// `Err` has the first faulty line. If no line is faulty but the text has no handler or no object, the fault is
/// `Missing` at line 0. `NoMemory` may be reported in place of any other fault, at the line where memory ran out.
pub fn read(alloc: Global, text: &[u8]) -> Result<Plan, TextFault>
    ensures plan { IfOk result (λ plan. plan_of text.now ≡ Ok plan) }
    // The catalog relies on this clause. The targets are objects of the image that is made of the plan's objects.
    ensures targets { IfOk result (λ plan. AreTargetsWithin (length plan.objects) plan.patches) }
    ensures fault { IfErr result (λ fault. IsFaultOf text.now fault.line fault.kind) }
{
    let mut draft = Draft::new(alloc);
    let handler = read_lines(alloc, &mut draft, text)?;
    Ok(draft.into_plan(handler))
}

/// Reads all lines of a text into a draft, which must be empty, and returns the handler of the text. If the handler or
/// an object is missing, returns a fault too, so that the caller has only one kind of error to handle.
fn read_lines(alloc: Global, draft: &mut Draft, text: &[u8]) -> Result<u64, TextFault>
    requires { draft.old ≡ empty_draft }
    ensures plan { IfOk result (λ handler. plan_of text.now
        ≡ Ok (record { handler = handler; objects = draft.new.objects; patches = draft.new.patches })) }
    ensures fault { IfErr result (λ fault. IsFaultOf text.now fault.line fault.kind) }
{
    let mut lines = Lines::new(text);
    let mut number = 0;
    while let Some(line) = lines.next() {
        number += 1;
        if let Err(kind) = draft.read_line(alloc, line) {
            return Err(TextFault { line: number, kind });
        }
    }
    let Some(handler) = draft.whole_handler() else {
        return Err(TextFault {
            line: 0,
            kind: TextFaultKind::Missing,
        });
    };
    Ok(handler)
}
