//! What an answer claims: the verdict, who holds a transition up, and that nobody lags, or is inside of functions.
ghost use Rattle.std.specs.Prelude.{◌≡◌, true, IfOk};
ghost use Rattle.klp_capture_report.specs.declared.report.VerdictReport.TheVariants.{Explained as IsExplained};
ghost use Rattle.klp_capture_lagging.specs.Inside.{NobodyInside};
ghost use Rattle.klp_capture_run.specs.Holders.{holders_in};
ghost use Rattle.klp_capture_calm.specs.Calm.{MaySayExplained, MaySayNobodyLags};
ghost use Rattle.klp_capture_holders.specs.Holding.{HasAllHolders};

use crate::not_seen::not_seen_of;
use crate::transitions::transitions_of;
use klp_capture::{BootTime, Capture};
use klp_capture_calm::{is_calm, verdict_on};
use klp_capture_catalog::{first_forced_in, kernel_log_differs};
use klp_capture_holders::text_of;
use klp_capture_lagging::nobody_inside;
use klp_capture_report::{BrokenReport, KernelLogReport, NotSeen, TransitionReport, VerdictReport};
use klp_capture_run::{Explained, Holder};
use klp_contradictions::{Contradiction, contradiction_in};
use std::alloc::{AllocError, Global};

/// What an answer claims.
#[derive(Drop)]
pub(crate) struct Claims {
    pub(crate) verdict: VerdictReport,
    pub(crate) not_seen: Vec<NotSeen>,
    pub(crate) broken: Option<BrokenReport>,
    pub(crate) kernel_log_differs: Option<KernelLogReport>,
    pub(crate) transitions: Vec<TransitionReport>,
    pub(crate) nobody_lags: bool,
    pub(crate) nobody_inside: bool,
}

/// Returns the first line of the kernel's own log that a later sample contradicts. A log that was cut off may lack the
/// kernel's next line, so it contradicts nothing.
fn kernel_log_of(
    alloc: Global,
    capture: &Capture<'_>,
    forced: Option<BootTime>,
) -> Result<Option<KernelLogReport>, AllocError> {
    if !capture.is_whole {
        return Ok(None);
    }
    let Some(differs) = kernel_log_differs(alloc, capture, forced)? else {
        return Ok(None);
    };
    Ok(Some(KernelLogReport {
        patch: text_of(alloc, differs.patch)?,
        at_us: differs.at.0,
        says_complete: differs.says_complete,
        sample_us: differs.sample.0,
    }))
}

/// Returns the time of the earlier sample that a sample contradicts. Returns `None` if what it contradicts isn't a sample.
fn earlier_us(what: Contradiction<'_>) -> Option<u64> {
    match what {
        Contradiction::MovedAsleep(_, at)
        | Contradiction::EndedAsleep(_, at)
        | Contradiction::RanBackwards(_, at)
        | Contradiction::Revived(_, at) => Some(at.0),
        _ => None,
    }
}

/// Returns the first sample that contradicts the rules. Nothing is judged that the kernel forced.
fn broken_of(
    alloc: Global,
    capture: &Capture<'_>,
    found: &Explained<'_>,
) -> Result<Option<BrokenReport>, AllocError> {
    let forced = first_forced_in(capture);
    let Some(it) = contradiction_in(alloc, capture, &found.run.functions, forced)? else {
        return Ok(None);
    };
    let Some(sample) = capture.samples.get(it.sample) else {
        return Ok(None);
    };
    Ok(Some(BrokenReport {
        from_us: sample.line.from.0,
        to_us: sample.line.to.0,
        why: format!(in alloc; "{}", it.what)?,
        earlier_us: earlier_us(it.what),
        unless_forced: it.what.is_excused_by_a_force(),
    }))
}

/// Returns what the answer about a log claims. `holding` are those who hold a transition up at the end of the run.
pub(crate) fn claims_of(
    alloc: Global,
    capture: &Capture<'_>,
    found: &Explained<'_>,
    holding: &[Holder],
) -> Result<Claims, AllocError>
    ensures explained { IfOk result (λ claims. claims.verdict ≡ IsExplained
        → MaySayExplained found.now claims.not_seen.items claims.broken claims.kernel_log_differs) }
    ensures calm { holding.now ≡ holders_in found.now.lags → IfOk result (λ claims. claims.nobody_lags ≡ true
        → MaySayNobodyLags capture.now found.now claims.verdict claims.transitions.items) }
    ensures holders { holding.now ≡ holders_in found.now.lags
        → IfOk result (λ claims. HasAllHolders found.now claims.transitions.items) }
    ensures inside { IfOk result (λ claims. claims.nobody_inside ≡ true → NobodyInside capture.now) }
{
    let not_seen = not_seen_of(alloc, capture, found.forced)?;
    let broken = broken_of(alloc, capture, found)?;
    let kernel_log_differs = kernel_log_of(alloc, capture, found.forced)?;
    let verdict = verdict_on(found, &not_seen, &broken, &kernel_log_differs);
    let transitions = transitions_of(alloc, capture, found, holding)?;
    let nobody_lags = is_calm(alloc, capture, found, verdict, holding, &transitions)?;
    Ok(Claims {
        verdict,
        not_seen,
        broken,
        kernel_log_differs,
        transitions,
        nobody_lags,
        nobody_inside: nobody_inside(capture),
    })
}
