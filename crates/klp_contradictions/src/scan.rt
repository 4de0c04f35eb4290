//! Looks at each sample of a log.
use crate::contradiction::{Contradicted, Contradiction};
use crate::places::Patches;
use crate::tasks::Threads;
use klp_capture::{BootTime, Capture, Sample};
use klp_capture_catalog::{Functions, moving_in};
use std::alloc::{AllocError, Global};

/// What was seen of a log so far.
#[derive(Drop)]
struct Scan<'c, 'a> {
    capture: &'c Capture<'a>,
    functions: &'c Functions<'a>,
    threads: Threads<'a>,
    /// The last sample that was judged.
    last: Option<Sample>,
    /// Whether patches changed since all tasks were judged. If not, only the tasks need be judged that a sample names.
    have_changed: bool,
}

impl<'c, 'a> Scan<'c, 'a> {
    /// Notes the tasks that a sample names, and then those that it says are gone or left. A task may be both: it was
    /// read first, and was gone or left after that. Returns the first contradiction to how the tasks were seen before.
    fn note(&mut self, sample: &Sample) -> Result<Option<Contradiction<'a>>, AllocError> {
        let count = self.threads.all.len();
        for seen in sample.tasks.of(&self.capture.seen) {
            let found = self.threads.note(self.capture, seen, sample.line.from)?;
            if found.is_some() {
                return Ok(found);
            }
        }
        for thread in sample.gone.of(&self.capture.gone) {
            self.threads.note_gone(*thread, count);
        }
        let count = self.threads.all.len();
        for thread in sample.left.of(&self.capture.left) {
            self.threads.note_gone(*thread, count);
        }
        Ok(None)
    }

    /// Returns what a sample contradicts.
    fn judge(&mut self, sample: &Sample) -> Option<Contradiction<'a>> {
        let (capture, functions) = (self.capture, self.functions);
        let patches = Patches {
            capture,
            functions,
            rows: sample.patches.of(&capture.rows),
        };
        let last = self.last.unwrap_or(*sample).patches.of(&capture.rows);
        let has_last = self.last.is_some();
        let found = patches.contradiction().or(patches.contradiction_to(last));
        if found.is_some() {
            return found;
        }
        // The places of patches are those of the sample that lists them.
        if sample.tells_patches
            && let Some(found) = patches.outlives()
        {
            return Some(found);
        }
        let moving = moving_in(patches.rows);
        let has_moved_before = has_last && moving.is_some() && moving_in(last) == moving;
        let has_just_begun = moving.is_some() && !has_moved_before;
        let named = sample.tasks.of(&capture.seen);
        for known in &self.threads.all {
            let is_due = self.have_changed || named.iter().any(|seen| known.is_of(seen));
            if is_due && !known.is_gone {
                let found = patches.contradiction_of(&known.seen, has_moved_before);
                if found.is_some() {
                    return found;
                }
            }
        }
        self.have_changed = has_just_begun;
        self.last = Some(*sample);
        None
    }
}

/// Returns the first contradiction of a log. `forced` is when the kernel forced a transition, by its own log. What the
/// patches and tasks were after that isn't judged. The time is linear in the length of the log and in the number of its
/// tasks.
pub fn contradiction_in<'a>(
    alloc: Global,
    capture: &Capture<'a>,
    functions: &Functions<'a>,
    forced: Option<BootTime>,
) -> Result<Option<Contradicted<'a>>, AllocError> {
    let mut scan = Scan {
        capture,
        functions,
        threads: Threads {
            all: Vec::new(alloc),
        },
        last: None,
        have_changed: true,
    };
    for (number, sample) in capture.samples.iter().enumerate() {
        scan.have_changed = scan.have_changed || sample.tells_patches;
        let mut found = scan.note(sample)?;
        if found.is_none() && sample.is_judged(forced) {
            found = scan.judge(sample);
        }
        if let Some(what) = found {
            return Ok(Some(Contradicted {
                sample: number,
                what,
            }));
        }
    }
    Ok(None)
}
