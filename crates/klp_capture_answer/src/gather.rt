//! Gathers a report from a log and the run that shows it.
ghost use Rattle.std.specs.Prelude.{◌≡◌, true, IfOk};
ghost use Rattle.klp_capture_report.specs.declared.report.VerdictReport.TheVariants.{Explained as IsExplained};
ghost use Rattle.klp_capture_lagging.specs.Inside.{NobodyInside};
ghost use Rattle.klp_capture_calm.specs.Calm.{MaySayExplained, MaySayNobodyLags};
ghost use Rattle.klp_capture_holders.specs.Holding.{HasAllHolders};

use crate::claims::{Claims, claims_of};
use crate::elsewhere::{flags_of, is_named_elsewhere};
use crate::groups::process_name;
use crate::inside::inside_of;
use crate::lagging::counted_by_torn;
use crate::not_explained::not_explained_of;
use klp_capture::{BootTime, Capture, Sample};
use klp_capture_catalog::{first_forced_in, kernel_holders_in};
use klp_capture_holders::{function_name, task_of, text_of};
use klp_capture_report::{
    InsideReport, KernelHolderReport, LeftReport, NotExplainedReport, Report, SCHEMA, SampleCounts,
    TaskCounts, TransitionReport,
};
use klp_capture_run::{Explained, Holder};
use klp_capture_search::Run;
use std::alloc::{AllocError, Global};

/// The microseconds in a second.
const SECOND: u64 = 1_000_000;

/// Returns the tasks that the kernel couldn't switch by its own log, without those that samples show as holders.
fn kernel_holders_of(
    alloc: Global,
    capture: &Capture<'_>,
    run: &Run<'_>,
    transitions: &[TransitionReport],
) -> Result<Vec<KernelHolderReport>, AllocError> {
    let mut holders = Vec::new(alloc);
    let named = kernel_holders_in(alloc, capture)?;
    if named.is_empty() {
        return Ok(holders);
    }
    let flags = flags_of(alloc, capture, run)?;
    for holder in &named {
        let is_shown = transitions.iter().any(|transition| {
            transition
                .holders
                .iter()
                .any(|shown| shown.task.thread == holder.thread)
        });
        if !is_shown {
            holders.push(KernelHolderReport {
                name: text_of(alloc, holder.name)?,
                thread: holder.thread,
                function: text_of(alloc, holder.function)?,
                from_us: holder.from.0,
                to_us: holder.to.0,
                slept_elsewhere: is_named_elsewhere(alloc, capture, holder.thread, &flags)?,
            })?;
        }
    }
    Ok(holders)
}

/// Returns the tasks that a force left asleep in a function that is no longer called. If nothing was forced, returns
/// the tasks that a force would leave asleep in such a function.
fn left_of(
    alloc: Global,
    capture: &Capture<'_>,
    run: &Run<'_>,
    holding: &[Holder],
) -> Result<Vec<LeftReport>, AllocError> {
    let mut left = Vec::new(alloc);
    for holder in holding {
        if let Some(task) = run.tasks.get(holder.number) {
            let task = task_of(alloc, task)?;
            left.push(LeftReport {
                process_name: process_name(alloc, capture, &task)?,
                task,
                function: function_name(alloc, run, holder.version)?,
            })?;
        }
    }
    Ok(left)
}

/// Counts the tasks that lag but aren't followed.
fn others_of(capture: &Capture<'_>, run: &Run<'_>) -> TaskCounts {
    let last = run.last.and_then(|last| capture.samples.get(last));
    let (tasks, running, sleeping, inside) = match last {
        Some(Sample { line, .. }) => (line.tasks, line.running, line.sleeping, line.inside),
        None => (0, 0, 0, None),
    };
    TaskCounts {
        tasks,
        running,
        sleeping,
        inside,
        torn: counted_by_torn(capture, run),
        left_out: run.left_out,
        functions_left_out: run.functions.left_out as u64,
        names_cut: run.functions.cut.len() as u64,
    }
}

/// Returns when the machine booted, in seconds since 1970, by the two clocks of a log.
fn booted(capture: &Capture<'_>) -> Option<u64> {
    let clock = capture.clock?;
    Some(clock.epoch.saturating_sub(clock.uptime.0 / SECOND))
}

/// What an answer says besides what it claims.
#[derive(Drop)]
struct Details {
    kernel: String,
    host: String,
    not_explained: Option<NotExplainedReport>,
    inside: Vec<InsideReport>,
    kernel_holders: Vec<KernelHolderReport>,
    left_by_force: Vec<LeftReport>,
}

fn details_of(
    alloc: Global,
    capture: &Capture<'_>,
    found: &Explained<'_>,
    holding: &[Holder],
    transitions: &[TransitionReport],
) -> Result<Details, AllocError> {
    let run = &found.run;
    Ok(Details {
        kernel: text_of(alloc, capture.kernel)?,
        host: text_of(alloc, capture.host)?,
        not_explained: not_explained_of(alloc, capture, found)?,
        inside: inside_of(alloc, capture)?,
        kernel_holders: kernel_holders_of(alloc, capture, run, transitions)?,
        left_by_force: left_of(alloc, capture, run, holding)?,
    })
}

/// Returns a time in microseconds.
fn micros(at: Option<BootTime>) -> Option<u64> {
    let at = at?;
    Some(at.0)
}

/// Returns when the last sample was taken.
fn last_sample_us(capture: &Capture<'_>) -> Option<u64> {
    let last = capture.samples.last()?;
    Some(last.line.from.0)
}

fn sample_counts(found: &Explained<'_>) -> SampleCounts {
    SampleCounts {
        shown: found.run.shown,
        left_out: found.run.torn,
        later: found.later,
    }
}

/// Returns the report that claims this.
fn report_with(
    capture: &Capture<'_>,
    found: &Explained<'_>,
    claims: Claims,
    details: Details,
) -> Report
    ensures verdict { result.verdict ≡ claims.verdict }
    ensures not_seen { result.not_seen ≡ claims.not_seen }
    ensures broken { result.broken ≡ claims.broken }
    ensures differs { result.kernel_log_differs ≡ claims.kernel_log_differs }
    ensures transitions { result.transitions ≡ claims.transitions }
    ensures nobody_lags { result.nobody_lags ≡ claims.nobody_lags }
    ensures nobody_inside { result.nobody_inside ≡ claims.nobody_inside }
{
    Report {
        schema: SCHEMA,
        kernel: details.kernel,
        host: details.host,
        booted: booted(capture),
        verdict: claims.verdict,
        not_seen: claims.not_seen,
        broken: claims.broken,
        not_explained: details.not_explained,
        kernel_log_differs: claims.kernel_log_differs,
        is_preflight: !capture.asked.is_empty(),
        inside: details.inside,
        nobody_inside: claims.nobody_inside,
        transitions: claims.transitions,
        nobody_lags: claims.nobody_lags,
        kernel_holders: details.kernel_holders,
        left_by_force: details.left_by_force,
        forced_at_us: micros(found.forced),
        first_forced_us: micros(first_forced_in(capture)),
        others: others_of(capture, &found.run),
        samples: sample_counts(found),
        is_cut_off: !capture.is_whole,
        last_sample_us: last_sample_us(capture),
        catalog: None,
    }
}

/// Gathers the findings about a log. It is explained only if a run of the rules shows each sample that counts. Nobody is
/// said to lag only if nobody does by that run, and by what the log says of each task last. Those hold the last transition up,
/// if it goes on, who do so by the replay of that run. Nobody is said to be inside of functions for which `klpcap` was told to
/// look only if each thread slept outside of them when it was last read. Returns `Err` if memory runs out.
pub fn report_of(
    alloc: Global,
    capture: &Capture<'_>,
    found: &Explained<'_>,
) -> Result<Report, AllocError>
    ensures explained { IfOk result (λ report. report.verdict ≡ IsExplained
        → MaySayExplained found.now report.not_seen.items report.broken report.kernel_log_differs) }
    ensures calm { IfOk result (λ report. report.nobody_lags ≡ true
        → MaySayNobodyLags capture.now found.now report.verdict report.transitions.items) }
    ensures holders { IfOk result (λ report. HasAllHolders found.now report.transitions.items) }
    ensures inside { IfOk result (λ report. report.nobody_inside ≡ true → NobodyInside capture.now) }
{
    let holding = found.holders(alloc)?;
    let claims = claims_of(alloc, capture, found, &holding)?;
    let details = details_of(alloc, capture, found, &holding, &claims.transitions)?;
    Ok(report_with(capture, found, claims, details))
}
