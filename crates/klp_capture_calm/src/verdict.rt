//! The verdict on a log.
ghost use Rattle.std.specs.Prelude.{◌≡◌, true, false, [], None};
ghost use Rattle.klp_capture_report.specs.declared.report.VerdictReport.TheVariants.{Explained as IsExplained};
ghost use Rattle.klp_capture_calm.specs.Calm.{IsShown, MaySayExplained};

use klp_capture_report::{BrokenReport, KernelLogReport, NotSeen, VerdictReport};
use klp_capture_run::Explained;
use klp_contradictions::{LogVerdict, verdict_of};

#[tactic(auto, using(crate::proofs::VerdictLemmas::explained_when))]
fn verdict_for(is_seen: bool, is_broken: bool, is_explained: bool) -> VerdictReport
    ensures { result ≡ IsExplained
        → (is_seen ≡ true) × (is_broken ≡ false) × (is_explained ≡ true) }
{
    match verdict_of(is_seen, is_broken, is_explained) {
        LogVerdict::Explained => VerdictReport::Explained,
        LogVerdict::Broken => VerdictReport::Broken,
        LogVerdict::NotExplained => VerdictReport::NotExplained,
        LogVerdict::NotSeen => VerdictReport::NotSeen,
    }
}

/// Whether a run of the rules shows each sample that counts, and the kernel's own log says nothing else.
fn is_shown(found: &Explained<'_>, differs: &Option<KernelLogReport>) -> bool
    ensures { result ≡ true → IsShown found.now × (differs.now ≡ None) }
{
    found.is_explained() && differs.is_none()
}

/// Returns the verdict on a log, of which these things couldn't be read, and to whose run or samples these findings
/// belong.
pub fn verdict_on(
    found: &Explained<'_>,
    not_seen: &[NotSeen],
    broken: &Option<BrokenReport>,
    differs: &Option<KernelLogReport>,
) -> VerdictReport
    ensures { result ≡ IsExplained → MaySayExplained found.now not_seen.now broken.now differs.now }
{
    verdict_for(
        not_seen.is_empty(),
        broken.is_some(),
        is_shown(found, differs),
    )
}
