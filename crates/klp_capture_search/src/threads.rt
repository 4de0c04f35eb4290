//! Which threads of a log get a number in the trace.
use klp_capture::{Capture, SeenTask};
use klp_capture_catalog::Functions;
use klp_types::MAX_TASKS;
use std::alloc::{AllocError, Global};

/// The number in the trace of the task that stands for all tasks which have no number: those that the log only counts,
/// and the idle tasks, which it can't show. It lags until a transition completes, since one of those tasks may.
pub const OTHERS: usize = MAX_TASKS - 1;

/// Of the threads that a log names, the first so many are looked at.
const MAX_LOOKED_AT: usize = 1024;

/// A thread's number and when the thread began. A number can be used again, for a thread that begins later.
#[derive(Clone, Copy, PartialEq, Eq)]
pub(crate) struct ThreadKey {
    pub(crate) thread: u64,
    pub(crate) start: u64,
}

impl ThreadKey {
    pub(crate) fn of(seen: &SeenTask<'_>) -> ThreadKey {
        ThreadKey {
            thread: seen.task.thread,
            start: seen.task.start,
        }
    }
}

/// The threads that get a number in the trace.
#[derive(Drop)]
pub(crate) struct FollowedThreads {
    pub(crate) followed: Vec<ThreadKey>,
    /// How many threads get no number.
    pub(crate) left_out: u64,
}

/// A thread that a log names.
#[derive(Clone, Copy)]
struct NamedThread {
    key: ThreadKey,
    /// Whether the log shows the thread inside of a function of a patch, or of one that a patch changes.
    is_inside: bool,
}

/// Returns the first `MAX_LOOKED_AT` threads that the log names, in the order in which it first names them.
fn threads_in<'a>(
    alloc: Global,
    capture: &Capture<'a>,
    functions: &Functions<'a>,
) -> Result<Vec<NamedThread>, AllocError> {
    let mut threads: Vec<NamedThread> = Vec::new(alloc);
    for seen in &capture.seen {
        let key = ThreadKey::of(seen);
        let frames = seen.frames.of(&capture.frames);
        let place = threads.iter().rposition(|thread| thread.key == key);
        match place {
            Some(place) => {
                if let Some(thread) = threads.get_mut(place) {
                    thread.is_inside = thread.is_inside || functions.is_inside(frames);
                }
            }
            None if threads.len() < MAX_LOOKED_AT => threads.push(NamedThread {
                key,
                is_inside: functions.is_inside(frames),
            })?,
            // A thread beyond the first `MAX_LOOKED_AT` gets no number.
            None => {}
        }
    }
    Ok(threads)
}

/// Returns the threads that get a number in the trace. If there are more threads than numbers, those come first that the
/// log shows inside of a function of a patch, or of one that a patch changes.
pub(crate) fn followed_in<'a>(
    alloc: Global,
    capture: &Capture<'a>,
    functions: &Functions<'a>,
) -> Result<FollowedThreads, AllocError> {
    let threads = threads_in(alloc, capture, functions)?;
    let inside = threads.iter().filter(|thread| thread.is_inside).count();
    let mut places_for_others = OTHERS.saturating_sub(inside);
    let mut found = FollowedThreads {
        followed: Vec::new(alloc),
        left_out: 0,
    };
    for thread in &threads {
        let has_room = found.followed.len() < OTHERS && (thread.is_inside || places_for_others > 0);
        if has_room {
            found.followed.push(thread.key)?;
        } else {
            found.left_out = found.left_out.saturating_add(1);
        }
        if !thread.is_inside {
            places_for_others = places_for_others.saturating_sub(1);
        }
    }
    Ok(found)
}
