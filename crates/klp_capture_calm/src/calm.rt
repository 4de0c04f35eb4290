//! Whether an answer may say that nobody lags.
ghost use Rattle.std.specs.Prelude.{◌≡◌, true, false, [], None, IfOk};
ghost use Rattle.std.specs.List.{list_any};
ghost use Rattle.klp_capture_run.specs.Holders.{holders_in};
ghost use Rattle.klp_capture_calm.specs.Calm.{target_of, lags_in_run, IsQuiet, IsCalm, MaySayNobodyLags};

use klp_capture::Capture;
use klp_capture_lagging::nobody_lags;
use klp_capture_report::{Becomes, TransitionReport, VerdictReport};
use klp_capture_run::{Explained, Holder};
use klp_capture_search::Followed;
use std::alloc::{AllocError, Global};

/// Returns what the file `enabled` of a patch reads that becomes so.
fn target_of(becomes: Becomes) -> bool
    ensures { result ≡ target_of becomes }
{
    match becomes {
        Becomes::Enabled => true,
        Becomes::Disabled => false,
    }
}

fn any_lags(tasks: &[Followed<'_>]) -> bool
    ensures { result ≡ list_any lags_in_run tasks.now }
{
    for task in tasks {
        if task.lag.is_some() {
            return true;
        }
    }
    false
}

/// Whether nobody lags in the last sample, as far as the run says. `holding` are those that hold the transition up by the
/// rules at its end.
fn is_quiet(found: &Explained<'_>, holding: &[Holder]) -> bool
    ensures { result ≡ true → IsQuiet found.now holding.now }
{
    found.forced.is_none()
        && found.run.left_out == 0
        && holding.is_empty()
        && !any_lags(&found.run.tasks)
}

/// Whether nobody lags in a transition, by run and log.
fn is_calm_in(
    alloc: Global,
    capture: &Capture<'_>,
    found: &Explained<'_>,
    holding: &[Holder],
    transition: &TransitionReport,
) -> Result<bool, AllocError>
    ensures { holding.now ≡ holders_in found.now.lags
        → IfOk result (λ calm. calm ≡ true → IsCalm capture.now found.now transition.now) }
{
    if transition.end.is_some() || !transition.lagging.is_empty() || !is_quiet(found, holding) {
        return Ok(false);
    }
    let target = target_of(transition.becomes);
    nobody_lags(alloc, capture, transition.patch.as_bytes(), target)
}

/// Whether the answer may say that nobody lags in its last transition. `holding` are those that hold it up by the rules at
/// the end of the run. Returns `Err` if memory runs out.
pub fn is_calm(
    alloc: Global,
    capture: &Capture<'_>,
    found: &Explained<'_>,
    verdict: VerdictReport,
    holding: &[Holder],
    transitions: &[TransitionReport],
) -> Result<bool, AllocError>
    ensures { holding.now ≡ holders_in found.now.lags
        → IfOk result (λ calm. calm ≡ true → MaySayNobodyLags capture.now found.now verdict transitions.now) }
{
    match transitions.last() {
        Some(last) if verdict == VerdictReport::Explained => {
            is_calm_in(alloc, capture, found, holding, last)
        }
        _ => Ok(false),
    }
}
