//! A sample, with all that the log shows of tasks since the sample that the run reached last.
use crate::followed::{Followed, Sighting};
use crate::run::Run;
use crate::threads::ThreadKey;
use klp_capture::{Activity, BootTime, Capture, PatchRow, PatchedState, Sample, SeenTask};
use klp_capture_catalog::{Files, SeenVersion, files_in};
use klp_types::MAX_FRAMES;
use std::alloc::{AllocError, Global};

/// A task's number, and how it was seen last.
#[derive(Drop)]
pub(crate) struct NamedTask<'a> {
    pub(crate) number: usize,
    pub(crate) seen: Sighting<'a>,
    /// Whether the sample itself names the task. Otherwise a sample did that was left out, and the task is unchanged
    /// since.
    pub(crate) is_listed: bool,
}

/// A sample, and what changed since the sample that the run reached last. Samples between the two were left out, since
/// a patch changed while they were taken. What they show of tasks still counts.
#[derive(Drop)]
pub(crate) struct Step<'a> {
    /// When the sample was taken.
    pub(crate) at: BootTime,
    /// The tasks that were named since, each as it was seen last. The tasks that the sample itself names come last, in
    /// its order.
    pub(crate) named: Vec<NamedTask<'a>>,
    /// The numbers of the tasks that have ended since. If one of them is named, too, it ended after it was read.
    pub(crate) ended: Vec<usize>,
    /// The numbers of the tasks that aren't followed any longer, in the same way.
    pub(crate) left: Vec<usize>,
    /// The number of the first task that begins with this step.
    pub(crate) first_begun: usize,
}

impl<'a> Step<'a> {
    /// Returns how a task was seen. Returns `None` if it wasn't named since the sample that the run reached last.
    pub(crate) fn seen(&self, number: usize) -> Option<&NamedTask<'a>> {
        self.named.iter().find(|named| named.number == number)
    }

    /// Forgets how a task was seen that has ended or isn't followed any longer, unless the sample itself names the task:
    /// then it was read first, and had ended or was left after that.
    fn forget(&mut self, number: usize) {
        let place = self
            .named
            .iter()
            .position(|named| named.number == number && !named.is_listed);
        if let Some(place) = place {
            self.named.remove(place);
        }
    }
}

impl<'a> Run<'a> {
    /// Returns the functions that a task is inside of, outermost first. A function is left out unless a patch of the
    /// log changes it or has it as a new function.
    fn places_of(
        &self,
        alloc: Global,
        capture: &Capture<'a>,
        seen: &SeenTask<'a>,
    ) -> Result<Vec<SeenVersion>, AllocError> {
        let mut places = Vec::new(alloc);
        for frame in seen.frames.of(&capture.frames).iter().rev() {
            if let Some(place) = self.functions.seen_version(*frame)
                && places.len() < MAX_FRAMES
            {
                places.push(place)?;
            }
        }
        Ok(places)
    }

    fn sighting(
        &self,
        alloc: Global,
        capture: &Capture<'a>,
        seen: &SeenTask<'a>,
    ) -> Result<Sighting<'a>, AllocError> {
        let unplaced = self.functions.unplaced_in(seen.frames.of(&capture.frames));
        let is_asleep = seen.task.is_stable && seen.task.activity == Activity::Asleep;
        Ok(Sighting {
            activity: seen.task.activity,
            letter: seen.task.letter,
            state: seen.task.state,
            runs: seen.task.runs,
            has_places: seen.task.is_stable && unplaced.is_none(),
            places: self.places_of(alloc, capture, seen)?,
            unplaced: match unplaced {
                Some(frame) if is_asleep => Some(frame.function),
                _ => None,
            },
        })
    }

    /// Returns the number in the trace of a thread that hasn't ended. Returns `None` if there is no such thread.
    fn number_of(&self, thread: u64, start: u64) -> Option<usize> {
        self.tasks.iter().position(|task| task.thread == thread
            && task.start == start
            && !task.has_ended)
    }

    /// Adds a task that the log names for the first time. Returns its number, or `None` if it gets
    /// none.
    fn add_task(
        &mut self,
        alloc: Global,
        seen: &SeenTask<'a>,
        at: BootTime,
    ) -> Result<Option<usize>, AllocError> {
        let number = self.tasks.len();
        if !self.threads.contains(&ThreadKey::of(seen)) {
            return Ok(None);
        }
        self.tasks.push(Followed {
            thread: seen.task.thread,
            start: seen.task.start,
            name: seen.task.name,
            is_kernel_thread: seen.task.is_kernel_thread,
            mode: None,
            inside: Vec::new(alloc),
            state: PatchedState::Undefined,
            runs: seen.task.runs,
            since: at,
            process: seen.task.process,
            letter: seen.task.letter,
            has_ended: false,
            is_left: false,
            lag: None,
            unplaced: None,
            unplaced_sleeps: Vec::new(alloc),
        })?;
        Ok(Some(number))
    }

    /// Returns what the files of each patch read in a sample.
    pub(crate) fn files_at(
        &self,
        alloc: Global,
        rows: &[PatchRow<'a>],
    ) -> Result<Vec<Files>, AllocError> {
        let mut files = Vec::new(alloc);
        for patch in &self.functions.patches {
            files.push(files_in(rows, patch.name))?;
        }
        Ok(files)
    }

    /// Adds the tasks that a sample names. A task that was named before is moved to the end of the list.
    fn add_named(
        &mut self,
        alloc: Global,
        capture: &Capture<'a>,
        sample: &Sample,
        is_listed: bool,
        step: &mut Step<'a>,
    ) -> Result<(), AllocError> {
        for seen in sample.tasks.of(&capture.seen) {
            let known = self.number_of(seen.task.thread, seen.task.start);
            let number = match known {
                Some(number) => number,
                None => match self.add_task(alloc, seen, sample.line.from)? {
                    Some(number) => number,
                    None => continue,
                },
            };
            if known.is_none() {
                self.end_namesake(number, step)?;
            }
            if let Some(place) = step.named.iter().position(|own| own.number == number) {
                step.named.remove(place);
            }
            if let Some(place) = step.left.iter().position(|own| *own == number) {
                step.left.remove(place);
            }
            step.named.push(NamedTask {
                number,
                seen: self.sighting(alloc, capture, seen)?,
                is_listed,
            })?;
        }
        Ok(())
    }

    /// Adds that a task has ended.
    fn add_end(&self, number: usize, step: &mut Step<'a>) -> Result<(), AllocError> {
        step.forget(number);
        if !step.ended.contains(&number) {
            step.ended.push(number)?;
        }
        Ok(())
    }

    /// If a thread's number is used again, the older thread of this number has ended.
    fn end_namesake(&self, number: usize, step: &mut Step<'a>) -> Result<(), AllocError> {
        let Some(begun) = self.tasks.get(number) else {
            return Ok(());
        };
        let older = self
            .tasks
            .iter()
            .take(number)
            .position(|task| task.thread == begun.thread && !task.has_ended);
        match older {
            Some(older) => self.add_end(older, step),
            None => Ok(()),
        }
    }

    /// Adds the tasks that have ended by a sample. They are among the first `count` tasks: a later one of the same thread
    /// number began after that.
    fn add_ended(
        &self,
        capture: &Capture<'a>,
        sample: &Sample,
        count: usize,
        step: &mut Step<'a>,
    ) -> Result<(), AllocError> {
        for thread in sample.gone.of(&capture.gone) {
            let known = self.tasks.iter().take(count);
            let number = known.enumerate().position(|(number, task)| {
                task.thread == *thread && !task.has_ended && !step.ended.contains(&number)
            });
            if let Some(number) = number {
                self.add_end(number, step)?;
            }
        }
        Ok(())
    }

    /// Adds the tasks that aren't followed any longer by a sample.
    fn add_left(
        &self,
        capture: &Capture<'a>,
        sample: &Sample,
        step: &mut Step<'a>,
    ) -> Result<(), AllocError> {
        for thread in sample.left.of(&capture.left) {
            let number = self
                .tasks
                .iter()
                .rposition(|task| task.thread == *thread && !task.has_ended);
            if let Some(number) = number {
                step.forget(number);
                if !step.left.contains(&number) {
                    step.left.push(number)?;
                }
            }
        }
        Ok(())
    }

    /// Returns what the log shows of tasks from the sample after the last one that the run reached, up to this sample.
    pub(crate) fn step(
        &mut self,
        alloc: Global,
        capture: &Capture<'a>,
        number: usize,
        sample: &Sample,
    ) -> Result<Step<'a>, AllocError> {
        let mut step = Step {
            at: sample.line.from,
            named: Vec::new(alloc),
            ended: Vec::new(alloc),
            left: Vec::new(alloc),
            first_begun: self.tasks.len(),
        };
        let first = match self.last {
            Some(last) => last.saturating_add(1),
            None => 0,
        };
        let samples = capture.samples.get(first..=number).unwrap_or(&[]);
        for (offset, sample) in samples.iter().enumerate() {
            let is_listed = first.saturating_add(offset) == number;
            let count = self.tasks.len();
            self.add_named(alloc, capture, sample, is_listed, &mut step)?;
            self.add_ended(capture, sample, count, &mut step)?;
            self.add_left(capture, sample, &mut step)?;
        }
        Ok(step)
    }
}
