//! The entries of an answer about the tasks of a run.
ghost use Rattle.std.specs.Prelude.{◌≡◌, IfOk};

use klp_capture::Text;
use klp_capture_report::{HolderReport, TaskReport};
use klp_capture_search::{Followed, Run};
use klp_types::Version;
use std::alloc::{AllocError, Global};

/// Returns bytes of a log as text. Bytes that are no text are the replacement mark. Returns `Err` if memory runs out.
pub fn text_of(alloc: Global, bytes: &[u8]) -> Result<String, AllocError> {
    format!(in alloc; "{}", Text(bytes))
}

/// Returns the answer's entry of a task of the run. Returns `Err` if memory runs out.
pub fn task_of(alloc: Global, task: &Followed<'_>) -> Result<TaskReport, AllocError>
    ensures { IfOk result (λ entry. entry.thread ≡ task.now.thread) }
{
    let name = text_of(alloc, task.name)?;
    let state = text_of(alloc, &[task.letter])?;
    Ok(TaskReport {
        name,
        thread: task.thread,
        process: task.process,
        is_kernel_thread: task.is_kernel_thread,
        state,
    })
}

/// Returns the name of the function that holds a transition up. Returns words in its place if the log doesn't have it, and
/// `Err` if memory runs out.
pub fn function_name(alloc: Global, run: &Run<'_>, version: Version) -> Result<String, AllocError> {
    match run.functions.name_of(version) {
        Some(name) => text_of(alloc, name),
        None => text_of(alloc, b"a function of the patch"),
    }
}

/// When samples show a sleep, in microseconds since boot, and when the kernel's own log named the task before.
#[derive(Clone, Copy)]
pub(crate) struct Times {
    pub(crate) from_us: u64,
    pub(crate) to_us: u64,
    pub(crate) named_us: Option<u64>,
}

/// Returns the answer's entry of a sleep. `holds_still` says whether the task still holds the transition up.
pub(crate) fn holder_of(
    alloc: Global,
    run: &Run<'_>,
    task: &Followed<'_>,
    version: Version,
    times: Times,
    holds_still: bool,
) -> Result<HolderReport, AllocError>
    ensures thread { IfOk result (λ entry. entry.task.thread ≡ task.now.thread) }
    ensures still { IfOk result (λ entry. entry.holds_still ≡ holds_still) }
{
    let entry = task_of(alloc, task)?;
    let function = function_name(alloc, run, version)?;
    Ok(HolderReport {
        task: entry,
        function,
        from_us: times.from_us,
        to_us: times.to_us,
        named_us: times.named_us,
        holds_still,
    })
}
