//! The sentences about what the rules have.

use crate::rules::{
    AnswerReason, LagReason, LaggingTask, LaggingTasks, NoCallReason, RulesHave, StateReason,
    TaskInTransition,
};
use crate::tasks::{TaskName, TaskNames};
use klp_messages::Escaped;
use std::fmt;

/// What the rules have, printed as a sentence with a program's names of tasks.
#[derive(Clone, Copy)]
pub struct InWords<'a, N> {
    rules: &'a RulesHave,
    names: &'a N,
}

impl RulesHave {
    /// Returns what the rules have in a form that prints it as a sentence, in which tasks have these names.
    pub fn in_words<'a, N: TaskNames>(&'a self, names: &'a N) -> InWords<'a, N> {
        InWords { rules: self, names }
    }
}

/// Writes what the rules have in place of an answer or a sight, and why, as a sentence without its full stop.
impl<N: TaskNames> fmt::Display for InWords<'_, N> {
    fn fmt<W: fmt::Write>(&self, f: &mut fmt::Formatter<W>) -> fmt::Result {
        let names = self.names;
        match self.rules {
            RulesHave::Answer { text, reason } => {
                let answer = Escaped(text.trim_ascii_end());
                write!(f, "the rules answer {answer}")?;
                write_answer_reason(f, names, reason)
            }
            RulesHave::NoTask(task) => {
                let task = TaskName { names, task: *task };
                write!(f, "the rules have no {task}")
            }
            RulesHave::State { state, reason } => {
                write!(f, "the rules have {state}: ")?;
                write_state_reason(f, names, reason)
            }
            RulesHave::NoFiles(patch) => write!(
                f,
                "the rules have no /sys/kernel/livepatch/{patch}, since that patch isn't installed"
            ),
            RulesHave::Files { files, lagging } => {
                let (enabled, transition) = (u8::from(files.enabled), u8::from(files.transition));
                write!(
                    f,
                    "the rules have enabled {enabled}, transition {transition}"
                )?;
                write_lagging(f, names, lagging)
            }
            RulesHave::NoVersion(reason) => write_no_call(f, *reason),
            RulesHave::Version { version, caller } => {
                write!(f, "the rules pick {version}: ")?;
                write_caller(f, names, caller)
            }
            RulesHave::NoText => f.write_str("the rules have no such text"),
            RulesHave::NotLoaded(object) => {
                write!(f, "the rules have no text of it: {object} isn't loaded")
            }
            RulesHave::Plain => f.write_str(
                "the rules have it plain: no patch that is installed changes it",
            ),
            RulesHave::Hooked(patches) => write_hooks(f, patches),
        }
    }
}

/// Writes a colon and why the rules give an answer to an event. Writes nothing if the answer says it itself.
fn write_answer_reason<N: TaskNames, W: fmt::Write>(
    f: &mut fmt::Formatter<W>,
    names: &N,
    reason: &AnswerReason,
) -> fmt::Result {
    match reason {
        AnswerReason::Lag(lagging) => write_lagging(f, names, lagging),
        AnswerReason::AllSwitched => f.write_str(": every task is switched"),
        AnswerReason::InTransition(patch) => write!(f, ": {patch} is in transition"),
        AnswerReason::Itself => Ok(()),
    }
}

/// Writes why a task has its patch state by the rules.
fn write_state_reason<N: TaskNames, W: fmt::Write>(
    f: &mut fmt::Formatter<W>,
    names: &N,
    reason: &StateReason,
) -> fmt::Result {
    match reason {
        StateReason::Lags(lagging) => write_lagging_task(f, names, lagging),
        StateReason::IsAtTarget(patch) => write!(f, "that is the target of {patch}'s transition"),
        StateReason::NoTransition => f.write_str("no patch is in transition"),
    }
}

/// Writes the name of a task that isn't at the target of the transition, and why it isn't.
fn write_lagging_task<N: TaskNames, W: fmt::Write>(
    f: &mut fmt::Formatter<W>,
    names: &N,
    lagging: &LaggingTask,
) -> fmt::Result {
    let LaggingTask { task, reason } = lagging;
    let task = TaskName { names, task: *task };
    match reason {
        LagReason::Holds {
            version,
            patch,
            is_own,
        } => {
            let does = if *is_own { "withdraws" } else { "changes" };
            write!(f, "{task} sleeps in {version}, which {patch} {does}")
        }
        LagReason::InUserSpace => write!(
            f,
            "{task} is in user space, and is switched when it next leaves the kernel"
        ),
        LagReason::Runs => write!(
            f,
            "{task} runs in the kernel, and is switched when it leaves"
        ),
        LagReason::SleepsElsewhere(patch) => write!(
            f,
            "{task} sleeps in no function that holds {patch} up, and is switched by the next poll"
        ),
    }
}

/// Writes a colon, the tasks that aren't at the target of the transition with the reason for each, and how many more
/// there are. Writes nothing if there are no such tasks.
fn write_lagging<N: TaskNames, W: fmt::Write>(
    f: &mut fmt::Formatter<W>,
    names: &N,
    lagging: &LaggingTasks,
) -> fmt::Result {
    for (place, task) in lagging.first.iter().enumerate() {
        f.write_str(if place == 0 { ": " } else { "; " })?;
        write_lagging_task(f, names, task)?;
    }
    match lagging.more {
        0 => Ok(()),
        more => write!(f, "; and {more} more"),
    }
}

/// Writes that the rules pick no version, and why.
fn write_no_call<W: fmt::Write>(f: &mut fmt::Formatter<W>, reason: NoCallReason) -> fmt::Result {
    f.write_str(match reason {
        NoCallReason::NotLoaded => "the rules pick nothing: the function's object isn't loaded",
        NoCallReason::NoTask => "the rules pick nothing: there is no such task",
    })
}

/// Writes why the rules pick a version: the patch state of the task that calls, and the patch in transition. If
/// `caller` is `None`, writes that no patch is in transition.
fn write_caller<N: TaskNames, W: fmt::Write>(
    f: &mut fmt::Formatter<W>,
    names: &N,
    caller: &Option<TaskInTransition>,
) -> fmt::Result {
    match caller {
        Some(TaskInTransition { task, state, patch }) => {
            let task = TaskName { names, task: *task };
            write!(f, "{task} has state {state}, and {patch} is in transition")
        }
        None => f.write_str("no patch is in transition"),
    }
}

/// Writes that a text is hooked, and by which patches.
fn write_hooks<W: fmt::Write>(f: &mut fmt::Formatter<W>, patches: &[String]) -> fmt::Result {
    f.write_str("the rules have it hooked, by")?;
    for (place, patch) in patches.iter().enumerate() {
        let mark = if place == 0 { "" } else { "," };
        write!(f, "{mark} {patch}")?;
    }
    Ok(())
}
