//! Whether a trace shows the contents of a log. Only the text of the trace is read, so it makes no difference how the
//! trace was found.
ghost use Rattle.std.specs.Prelude.{◌≡◌, true, string_bytes, IfOk};
ghost use Rattle.std.specs.List.{find, flat_map};
ghost use Rattle.std.specs.Str.Lines.{lines};
ghost use Rattle.klp_capture.specs.Shown.{span_of, is_there_as, is_settled, is_thread, flag_text, files_text, files_item, state_item, task_items, patch_items, sample_items, is_before, is_judged, judged_items, item_in, StandsIn, StandInOrder, ShowSamples, samples_before};

use crate::capture::{Capture, PatchRow, Sample, SeenTask};
use crate::line::PatchedState;
use crate::thread::{PatchName, Thread};
use crate::time::BootTime;
use klp_catalog_text::Lines;
use klp_words::cut;
use std::alloc::{AllocError, Global};

/// Returns the row of the patch with this name. Returns `None` if there is no such patch, or if its folder is being made
/// or removed. Both of its files read 0 then.
pub fn patch_in<'a>(rows: &[PatchRow<'a>], name: &[u8]) -> Option<PatchRow<'a>>
    ensures { result ≡ find (is_there_as name.now) rows.now }
{
    for row in rows {
        if is_there_as(row, name) {
            return Some(*row);
        }
    }
    None
}

fn is_there_as(row: &PatchRow<'_>, wanted: &[u8]) -> bool
    ensures { result ≡ is_there_as wanted.now row.now }
{
    match row {
        PatchRow::Patch {
            name,
            is_enabled,
            is_moving,
            ..
        } => *name == wanted && (*is_enabled || *is_moving),
        _ => false,
    }
}

impl Sample {
    /// Whether the patches' files read the same before and after the sample.
    pub fn is_settled(&self) -> bool
        ensures { result ≡ is_settled self.now }
    {
        !self.line.is_torn
    }

    /// Whether the sample is judged. It is if the patches' files read the same before and after it, and if it had ended
    /// before a force.
    pub fn is_judged(&self, forced: Option<BootTime>) -> bool
        ensures { result ≡ is_judged forced self.now }
    {
        is_before(forced, self) && self.is_settled()
    }
}

fn flag_text(flag: bool) -> &'static [u8]
    ensures { result.now ≡ flag_text flag }
{
    if flag { b" 1" } else { b" 0" }
}

/// Returns the item of a trace that says what the files of a patch read.
fn files_item(alloc: Global, rows: &[PatchRow<'_>], name: &[u8]) -> Result<Vec<u8>, AllocError>
    ensures { IfOk result (λ item. item.items ≡ files_item rows.now name.now) }
{
    let mut item = Vec::new(alloc);
    item.extend_from_slice(b"saw ")?;
    item.extend_from_slice(name)?;
    match patch_in(rows, name) {
        Some(
            PatchRow::Patch {
                is_enabled,
                is_moving,
                ..
            },
        ) => {
            item.extend_from_slice(flag_text(is_enabled))?;
            item.extend_from_slice(flag_text(is_moving))?;
        }
        _ => item.extend_from_slice(b" gone")?,
    }
    Ok(item)
}

/// Returns the item of a trace that says what a task's `patch_state` reads.
fn state_item(alloc: Global, number: usize, state: PatchedState) -> Result<String, AllocError>
    ensures { IfOk result (λ item. string_bytes item ≡ state_item number state) }
{
    match state {
        PatchedState::Undefined => format!(in alloc; "saw {number} -1"),
        PatchedState::Unpatched => format!(in alloc; "saw {number} 0"),
        PatchedState::Patched => format!(in alloc; "saw {number} 1"),
    }
}

/// Returns the thread of a task that a sample names, with its number in the trace.
fn thread_of(threads: &[Thread], seen: &SeenTask<'_>) -> Option<Thread>
    ensures { result ≡ find (is_thread seen.now) threads.now }
{
    for thread in threads {
        if thread.thread == seen.task.thread && thread.start == seen.task.start {
            return Some(*thread);
        }
    }
    None
}

/// Returns a line of a trace without its time.
fn item_in(line: &[u8]) -> &[u8]
    ensures { result.now ≡ item_in line.now }
{
    match line.strip_prefix(b"@".as_slice()) {
        Some(timed) => cut(timed, b' ').1,
        None => line,
    }
}

/// Reads lines up to the first that has this item. Returns false if no line has it.
fn stands(lines: &mut Lines<'_>, item: &[u8]) -> bool
    ensures { result ≡ true → StandsIn item.now lines.old lines.new }
{
    while let Some(line) = lines.next() {
        if item_in(line) == item {
            return true;
        }
    }
    false
}

fn task_stands(
    alloc: Global,
    lines: &mut Lines<'_>,
    threads: &[Thread],
    seen: &SeenTask<'_>,
) -> Result<bool, AllocError>
    ensures { IfOk result (λ all. all ≡ true → StandInOrder (task_items threads.now seen.now) lines.old lines.new) }
{
    let Some(thread) = thread_of(threads, seen) else {
        return Ok(true);
    };
    let item = state_item(alloc, thread.number, seen.task.state)?;
    Ok(stands(lines, item.as_bytes()))
}

fn tasks_stand(
    alloc: Global,
    lines: &mut Lines<'_>,
    threads: &[Thread],
    tasks: &[SeenTask<'_>],
) -> Result<bool, AllocError>
    ensures { IfOk result (λ all. all ≡ true → StandInOrder (flat_map (task_items threads.now) tasks.now) lines.old lines.new) }
{
    for seen in tasks {
        if !task_stands(alloc, lines, threads, seen)? {
            return Ok(false);
        }
    }
    Ok(true)
}

fn patch_stands(
    alloc: Global,
    lines: &mut Lines<'_>,
    rows: &[PatchRow<'_>],
    patch: &PatchName<'_>,
) -> Result<bool, AllocError>
    ensures { IfOk result (λ all. all ≡ true → StandInOrder (patch_items rows.now patch.now) lines.old lines.new) }
{
    let item = files_item(alloc, rows, patch.name)?;
    Ok(stands(lines, &item))
}

fn patches_stand(
    alloc: Global,
    lines: &mut Lines<'_>,
    rows: &[PatchRow<'_>],
    patches: &[PatchName<'_>],
) -> Result<bool, AllocError>
    ensures { IfOk result (λ all. all ≡ true → StandInOrder (flat_map (patch_items rows.now) patches.now) lines.old lines.new) }
{
    for patch in patches {
        if !patch_stands(alloc, lines, rows, patch)? {
            return Ok(false);
        }
    }
    Ok(true)
}

/// Whether a sample had ended before the transition was forced. True if it wasn't forced.
fn is_before(forced: Option<BootTime>, sample: &Sample) -> bool
    ensures { result ≡ is_before forced sample.now }
{
    match forced {
        Some(forced) => sample.line.to.0 < forced.0,
        None => true,
    }
}

impl<'a> Capture<'a> {
    fn sample_stands(
        &self,
        alloc: Global,
        lines: &mut Lines<'_>,
        patches: &[PatchName<'_>],
        threads: &[Thread],
        sample: &Sample,
    ) -> Result<bool, AllocError>
        ensures { IfOk result (λ all. all ≡ true
            → StandInOrder (sample_items self.now patches.now threads.now sample.now) lines.old lines.new) }
    {
        let tasks = sample.tasks.of(&self.seen);
        if !tasks_stand(alloc, lines, threads, tasks)? {
            return Ok(false);
        }
        let stand = patches_stand(alloc, lines, sample.patches.of(&self.rows), patches)?;
        Ok(stand)
    }

    fn judged_stands(
        &self,
        alloc: Global,
        lines: &mut Lines<'_>,
        forced: Option<BootTime>,
        patches: &[PatchName<'_>],
        threads: &[Thread],
        sample: &Sample,
    ) -> Result<bool, AllocError>
        ensures { IfOk result (λ all. all ≡ true
            → StandInOrder (judged_items self.now forced patches.now threads.now sample.now) lines.old lines.new) }
    {
        if !sample.is_judged(forced) {
            return Ok(true);
        }
        let stand = self.sample_stands(alloc, lines, patches, threads, sample)?;
        Ok(stand)
    }

    /// Checks whether the trace shows the judged samples among these first samples of the log. Returns the number of
    /// the first judged sample that the trace doesn't show. Returns `None` if the trace shows all judged samples, one
    /// after the other.
    pub fn first_not_shown(
        &self,
        alloc: Global,
        trace: &[u8],
        forced: Option<BootTime>,
        patches: &[PatchName<'_>],
        threads: &[Thread],
        samples: &[Sample],
    ) -> Result<Option<usize>, AllocError>
        ensures { IfOk result (λ number.
            ShowSamples self.now forced patches.now threads.now (samples_before number samples.now) (lines trace.now)) }
    {
        let mut lines = Lines::new(trace);
        for (number, sample) in samples.iter().enumerate() {
            if !self.judged_stands(alloc, &mut lines, forced, patches, threads, sample)? {
                return Ok(Some(number));
            }
        }
        Ok(None)
    }
}
