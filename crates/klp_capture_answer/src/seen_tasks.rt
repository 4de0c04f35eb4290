//! Entries of an answer about tasks that a sample names.
use klp_capture::TaskLine;
use klp_capture_holders::text_of;
use klp_capture_report::TaskReport;
use std::alloc::{AllocError, Global};

/// Returns the report's entry of a task that a sample names.
pub(crate) fn seen_task_of(alloc: Global, task: &TaskLine<'_>) -> Result<TaskReport, AllocError> {
    Ok(TaskReport {
        name: text_of(alloc, task.name)?,
        thread: task.thread,
        process: task.process,
        is_kernel_thread: task.is_kernel_thread,
        state: text_of(alloc, &[task.letter])?,
    })
}
