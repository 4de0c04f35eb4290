//! The sample to which none of the tried runs leads: the state in the log at this sample, and the state by the rules.
use klp_capture::{Capture, Text};
use klp_capture_report::NotExplainedReport;
use klp_capture_run::Explained;
use klp_capture_search::Followed;
use klp_diagnostics::{NamedSight, Sides, TaskNames, TaskNumbers, sides_in};
use klp_program::Verdict;
use klp_types::TaskId;
use std::alloc::{AllocError, Global};
use std::fmt;

/// Names a task by its name and the number of its thread, such as `billing[90]`. A task that the run doesn't have is
/// named by its number.
#[derive(Clone, Copy)]
struct ThreadNames<'r, 'a>(&'r [Followed<'a>]);

impl TaskNames for ThreadNames<'_, '_> {
    fn write_name<W: fmt::Write>(&self, task: TaskId, f: &mut fmt::Formatter<W>) -> fmt::Result {
        match self.0.get(usize::from(task.0)) {
            Some(Followed { name, thread, .. }) => write!(f, "{}[{thread}]", Text(name)),
            None => TaskNumbers.write_name(task, f),
        }
    }
}

/// A task of the run, printed by its name.
#[derive(Clone, Copy)]
struct RunTask<'r, 'a> {
    names: ThreadNames<'r, 'a>,
    task: TaskId,
}

impl fmt::Display for RunTask<'_, '_> {
    fn fmt<W: fmt::Write>(&self, f: &mut fmt::Formatter<W>) -> fmt::Result {
        self.names.write_name(self.task, f)
    }
}

/// Returns in words what was seen. Returns `None` of a sight that no sample has.
fn sight_words(
    alloc: Global,
    names: ThreadNames<'_, '_>,
    sight: &NamedSight,
) -> Result<Option<String>, AllocError> {
    Ok(match sight {
        NamedSight::State {
            task,
            state: Some(state),
        } => {
            let (state, task) = (state.number(), RunTask { names, task: *task });
            Some(format!(in alloc; "patch_state {state} of {task}")?)
        }
        NamedSight::Files {
            patch,
            files: Some(files),
        } => {
            let (enabled, transition) = (u8::from(files.enabled), u8::from(files.transition));
            Some(format!(in alloc;
                "{patch} {enabled} {transition} (a patch, `enabled`, `transition`)"
            )?)
        }
        NamedSight::Files { patch, files: None } => {
            Some(format!(in alloc; "{patch} gone (a patch, `enabled`, `transition`)")?)
        }
        NamedSight::Version { task, version } => {
            let (task, version) = (RunTask { names, task: *task }, version.spelled());
            Some(format!(in alloc; "{task} inside of {version}")?)
        }
        NamedSight::State { state: None, .. } | NamedSight::Text => None,
    })
}

/// Returns in words the state in the log. Returns `None` if nothing was seen at the line of the trace where the run ends: then
/// this line is an event that was tried, which no log has.
fn log_side(
    alloc: Global,
    names: ThreadNames<'_, '_>,
    sides: &Option<Sides>,
) -> Result<Option<String>, AllocError> {
    match sides {
        Some(
            Sides {
                kernel: Some(sight),
                ..
            },
        ) => sight_words(alloc, names, sight),
        _ => Ok(None),
    }
}

/// Returns both sides at the line of the trace where the run ends. The first is the state in the log, and the second
/// the state by the rules.
fn both_sides(
    alloc: Global,
    found: &Explained<'_>,
) -> Result<(Option<String>, Option<String>), AllocError> {
    let names = ThreadNames(found.run.tasks.as_slice());
    let trace = found.run.trace.as_bytes();
    let line = match found.verdict {
        Verdict::Differs(differs) => differs.item as u64,
        Verdict::Dishonest(fault) => fault.item as u64,
        Verdict::Honest(_) => return Ok((None, None)),
    };
    let sides = sides_in(alloc, found.catalog.as_bytes(), trace, line);
    let log = log_side(alloc, names, &sides)?;
    let rules = match &sides {
        Some(sides) => Some(format!(in alloc; "{}", sides.rules.in_words(&names))?),
        None => None,
    };
    Ok((log, rules))
}

/// Returns the sample to which none of the tried runs leads, or `None` if there is no such sample.
pub(crate) fn not_explained_of(
    alloc: Global,
    capture: &Capture<'_>,
    found: &Explained<'_>,
) -> Result<Option<NotExplainedReport>, AllocError> {
    let number = found.failed.or(found.unjudged).or(found.unshown);
    let Some(sample) = number.and_then(|number| capture.samples.get(number)) else {
        return Ok(None);
    };
    let (log, rules) = both_sides(alloc, found)?;
    Ok(Some(NotExplainedReport {
        from_us: sample.line.from.0,
        to_us: sample.line.to.0,
        log,
        rules,
    }))
}
