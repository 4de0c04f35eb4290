//! The record of a task of which only the patch state or the mode changed, in a small form. Undo reads this form at a
//! low cost. The task's frames are still those of the record, so no frame has to be read.
ghost use Rattle.std.specs.Prelude.{◌≡◌, ◌≤◌, true, ℕ, List, ◌++◌, length, map, slice_get, Some, IfSome};
ghost use Rattle.klp_types.specs.declared.record.Record.TheVariants.{TaskRow};
ghost use Rattle.klp_types.specs.declared.task.Task.{Task as AnyTask};
ghost use Rattle.klp_journal.specs.Words.{words_of, IsRecord};
ghost use Rattle.klp_journal.specs.declared.kinds.TheConstants.{KIND_TASK};
ghost use Rattle.klp_journal.specs.Decoded.{frame_of, record_of};
ghost use Rattle.klp_journal.specs.Stored.{EndWithRecord, AreOfKind};
ghost use Rattle.klp_types.specs.Frames.{frames_of};

use crate::frame_words::FrameWords;
use crate::kinds::{KIND_TASK, TAG_OF_A_WORD};
use crate::read_words::{mode_of, state_of};
use klp_types::{Mode, PatchState, Task, TaskId};

/// A task, with the patch state and the mode that it had before the change.
#[derive(Clone, Copy)]
pub struct SwitchedTask {
    pub task: TaskId,
    pub state: PatchState,
    pub mode: Mode,
}

/// Whether both lists have the same words. The lists nearly always have the same words. So the function compares all
/// words without a test after each word, which lets the processor compare several words at once.
fn are_same(words: &[u64], others: &[u64]) -> bool
    requires { length words.now ≡ length others.now }
    ensures { result ≡ true → words.now ≡ others.now }
{
    let mut differing = 0;
    for (k, word) in words.iter().enumerate() {
        differing |= *word ^ others[k];
    }
    differing == 0
}

/// Whether `words` are the words of the frames `own`, which the table of tasks stores.
#[inline(always)]
fn are_kept(words: &[u64], own: &FrameWords) -> bool
    ensures { result ≡ true → map frame_of words.now ≡ own.now }
{
    let own = own.as_words();
    words.len() == own.len() && are_same(words, own)
}

/// Reads a task's record, without the frames, from the words before the record's tag. Returns `None` if the task
/// doesn't exist now, or if its present frames aren't those of the record.
#[inline(always)]
fn switched_body(
    body: &[u64],
    tasks: &[Option<Task>],
    frames: &[FrameWords],
) -> Option<SwitchedTask>
    requires kind { AreOfKind KIND_TASK body.now }
    requires count { 2 ≤ length body.now }
    requires frames { frames.now ≡ map frames_of tasks.now }
    ensures { IfSome result (λ was. (now : AnyTask) × ((slice_get tasks.now was.task ≡ Some (Some now))
        × (TaskRow was.task (record now { state = was.state; mode = was.mode }) ≡ record_of KIND_TASK body.now))) }
{
    let task = TaskId(body[0] as u8);
    let Some(Some(_now)) = tasks.get(usize::from(task.0)) else {
        return None;
    };
    if !are_kept(&body[2..], &frames[usize::from(task.0)]) {
        return None;
    }
    Some(SwitchedTask {
        task,
        state: state_of(body[1] % 4),
        mode: mode_of(body[1] / 4),
    })
}

/// Returns the task of the record at the end of these words, and how many words that record has, including its tag.
/// Returns `None` if the record isn't of a task, if the task doesn't exist now, or if its present frames aren't those
/// of the record. The words must end with a record.
#[inline(always)]
pub(crate) fn switched(
    words: &[u64],
    tasks: &[Option<Task>],
    frames: &[FrameWords],
) -> Option<(SwitchedTask, usize)>
    requires record { EndWithRecord words.now }
    requires frames { frames.now ≡ map frames_of tasks.now }
    ensures { IfSome result (λ found. (now : AnyTask) × ((slice_get tasks.now found.0.task ≡ Some (Some now))
        × ((older : List ℕ) × ((words.now ≡ older
        ++ words_of (TaskRow found.0.task (record now { state = found.0.state; mode = found.0.mode })))
        × (found.1 ≡ length (words_of (TaskRow found.0.task (record now {
          state = found.0.state;
          mode = found.0.mode;
        }))))
        × IsRecord (TaskRow found.0.task (record now { state = found.0.state; mode = found.0.mode })))))) }
{
    let last = words.len() - 1;
    let tag = words[last];
    let count = (tag / TAG_OF_A_WORD) as usize;
    if tag % TAG_OF_A_WORD != KIND_TASK || count < 2 {
        return None;
    }
    let was = switched_body(&words[last - count..last], tasks, frames)?;
    Some((was, count + 1))
}
