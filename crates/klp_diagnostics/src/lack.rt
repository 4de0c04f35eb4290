//! Finds out why a call is impossible.

use crate::inputs::Inputs;
use klp_catalog_text::Lines;
use klp_program::{Verdict, watch_over_text};
use klp_watch::Cause;
use std::alloc::Global;
use std::io;
use std::io::Write;

/// The text that is written if there is no memory to find out which of the two reasons is the right one.
const EITHER: &str = "and isn't running in the kernel, or its object isn't loaded";

/// Copies to `text` the lines of a trace before the line with this number, then three lines that bring the task into
/// the kernel from any state, then the line itself. Those of the three lines that don't apply to the task's state are
/// refused. Returns `Err` if memory runs out.
fn write_with_task_in_kernel(
    text: &mut Vec<u8>,
    trace: &[u8],
    line: u64,
    task: u64,
) -> io::Result<()> {
    let mut lines = Lines::new(trace);
    for _ in 1..line {
        text.write_all(lines.next().unwrap_or(&[]))?;
        text.write_all(b"\n")?;
    }
    writeln!(text, "task new {task}\ntask wake {task}\ntask enter {task}")?;
    text.write_all(lines.next().unwrap_or(&[]))
}

/// Returns the words for why the call in this line of the trace is impossible: the task isn't running in the kernel, or
/// the function's object isn't loaded. Judges the lines up to the call once more, with the task brought into the kernel
/// before the call. If the call is still impossible, its object isn't loaded. The line must be the first that isn't
/// honest.
pub(crate) fn lack_of(alloc: Global, inputs: &Inputs<'_>, line: u64, task: u64) -> &'static str {
    let mut text = Vec::new(alloc);
    if write_with_task_in_kernel(&mut text, inputs.second.bytes, line, task).is_err() {
        return EITHER;
    }
    match watch_over_text(alloc, inputs.catalog.bytes, &text) {
        Ok(Verdict::Dishonest(fault)) if matches!(fault.cause, Cause::NoCall) => {
            "whose object isn't loaded"
        }
        Ok(_) => "and isn't running in the kernel",
        Err(_) => EITHER,
    }
}
