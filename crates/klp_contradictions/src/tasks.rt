//! What a log has said of each task so far, and what contradicts it.
use crate::contradiction::{Contradiction, NamedThread};
use klp_capture::{Activity, BootTime, Capture, FrameLine, SeenTask, TaskLine};
use std::alloc::AllocError;

/// At most this many threads are compared. Later ones don't count.
const MAX_THREADS: usize = 1024;

/// A thread as it was seen last.
#[derive(Clone, Copy)]
pub(crate) struct Known<'a> {
    pub(crate) seen: SeenTask<'a>,
    pub(crate) at: BootTime,
    pub(crate) is_gone: bool,
}

impl<'a> Known<'a> {
    /// Whether a sighting is of this thread.
    pub(crate) fn is_of(&self, seen: &SeenTask<'a>) -> bool {
        self.seen.task.thread == seen.task.thread && self.seen.task.start == seen.task.start
    }
}

/// The threads that a log has named so far.
#[derive(Drop)]
pub(crate) struct Threads<'a> {
    pub(crate) all: Vec<Known<'a>>,
}

pub(crate) fn name_of<'a>(task: &TaskLine<'a>) -> NamedThread<'a> {
    NamedThread {
        name: task.name,
        thread: task.thread,
    }
}

/// Whether a task slept all the time while it was read, so that its functions are those of one moment.
pub(crate) fn is_asleep(task: &TaskLine<'_>) -> bool {
    task.is_stable && task.activity == Activity::Asleep
}

/// Whether two frames are in the same function.
fn is_same_frame(one: FrameLine<'_>, other: FrameLine<'_>) -> bool {
    let is_same_module = one.module == other.module;
    let is_same_function = one.function == other.function;
    is_same_module && is_same_function
}

/// Whether a task is inside of the same functions in both sightings.
fn has_same_frames(capture: &Capture<'_>, one: &SeenTask<'_>, other: &SeenTask<'_>) -> bool {
    let one = one.frames.of(&capture.frames);
    let other = other.frames.of(&capture.frames);
    one.len() == other.len()
        && one
            .iter()
            .zip(other)
            .all(|pair| is_same_frame(*pair.0, *pair.1))
}

/// Returns what two sightings of one thread contradict. A task that got no processor between them is where it was.
fn between<'a>(
    capture: &Capture<'a>,
    before: &Known<'a>,
    now: &SeenTask<'a>,
) -> Option<Contradiction<'a>> {
    let (old, new) = (&before.seen.task, &now.task);
    let task = name_of(new);
    if new.runs < old.runs {
        return Some(Contradiction::RanBackwards(task, before.at));
    }
    if old.activity == Activity::Ended && new.activity != Activity::Ended {
        return Some(Contradiction::Revived(task, before.at));
    }
    if new.runs != old.runs || !is_asleep(old) {
        return None;
    }
    if new.activity == Activity::Ended {
        return Some(Contradiction::EndedAsleep(task, before.at));
    }
    if is_asleep(new) && !has_same_frames(capture, &before.seen, now) {
        return Some(Contradiction::MovedAsleep(task, before.at));
    }
    None
}

impl<'a> Threads<'a> {
    /// Notes that a thread of this number has ended, or isn't followed any longer. It is one of the first `count`: a later
    /// one of its number began after that.
    pub(crate) fn note_gone(&mut self, thread: u64, count: usize) {
        for known in self.all.iter_mut().take(count) {
            if known.seen.task.thread == thread {
                known.is_gone = true;
            }
        }
    }

    /// Notes how a thread was seen. Returns what this contradicts of how it was seen before.
    pub(crate) fn note(
        &mut self,
        capture: &Capture<'a>,
        seen: &SeenTask<'a>,
        at: BootTime,
    ) -> Result<Option<Contradiction<'a>>, AllocError> {
        let now = Known {
            seen: *seen,
            at,
            is_gone: false,
        };
        let place = self.all.iter().rposition(|known| known.is_of(seen));
        if let Some(place) = place
            && let Some(known) = self.all.get_mut(place)
        {
            let found = between(capture, known, seen);
            *known = now;
            return Ok(found);
        }
        let count = self.all.len();
        self.note_gone(seen.task.thread, count);
        if self.all.len() < MAX_THREADS {
            self.all.push(now)?;
        }
        Ok(None)
    }
}
