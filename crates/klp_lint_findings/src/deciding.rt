//! Which findings make the status 3.
ghost use Rattle.std.specs.Prelude.{◌≡◌};
ghost use Rattle.std.specs.List.{list_any};
ghost use Rattle.klp_lint_findings.specs.Deciding.{trace_decides, load_decides, replace_decides, decides};
ghost use Rattle.klp_lint_findings.specs.Deciding.{is_unknown, is_clean};
ghost use Rattle.klp_lint_findings.specs.declared.findings.Said.{Said};

use crate::finding::{Finding, LoadFinding, ReplaceFinding, TraceFinding};
use crate::findings::{Findings, Said};
use crate::marks::{Mark, MarkWord};

/// Whether a finding about the trace of a patch makes the status 3. A patch without a trace is right, and one that is
/// installed isn't asked about.
fn trace_decides(finding: &TraceFinding) -> bool
    ensures { result ≡ trace_decides finding.now }
{
    !matches!(
        finding,
        TraceFinding::Clean { .. } | TraceFinding::Installed
    )
}

/// Whether a finding about loading a patch makes the status 3. A patch needn't be loaded over each other one, and may
/// wait for tasks.
fn load_decides(finding: &LoadFinding) -> bool
    ensures { result ≡ load_decides finding.now }
{
    match finding {
        LoadFinding::NotStarted { .. } | LoadFinding::SameFunctions { .. } => true,
        LoadFinding::NotOver { .. } | LoadFinding::Stays { .. } => false,
    }
}

/// Whether what a cumulative patch does to another one makes the status 3. It is there to take patches out.
fn replace_decides(finding: &ReplaceFinding) -> bool
    ensures { result ≡ replace_decides finding.now }
{
    !matches!(
        finding,
        ReplaceFinding::TakesOut { .. } | ReplaceFinding::TakesOver { .. }
    )
}

impl Finding {
    /// Whether the finding makes the status 3: something may be wrong with a patch, or isn't judged. All others are
    /// remarks, which only describe the patches.
    pub fn decides(&self) -> bool
        ensures { result ≡ decides self.now }
    {
        match self {
            Finding::Line(_) | Finding::Part(_, _) => true,
            Finding::Trace(_, finding) => trace_decides(finding),
            Finding::Load(_, finding) => load_decides(finding),
            Finding::Replace(_, finding) => replace_decides(finding),
            Finding::Count(_) => false,
        }
    }
}

/// Whether one of these findings makes the status 3.
fn one_decides(said: &[Said]) -> bool
    ensures { result ≡ list_any (λ (s : Said). decides s.finding) said.now }
{
    said.iter().any(|it| it.finding.decides())
}

impl Mark {
    /// Whether the mark says that something isn't known.
    fn is_unknown(&self) -> bool
        ensures { result ≡ is_unknown self.now }
    {
        self.word == MarkWord::Unknown
    }
}

/// Whether one of these marks says that something isn't known.
pub(crate) fn one_is_unknown(marks: &[Mark]) -> bool
    ensures { result ≡ list_any is_unknown marks.now }
{
    marks.iter().any(|mark| mark.is_unknown())
}

impl Findings<'_> {
    /// Whether the status is 0: no finding makes it 3, and the catalog marks nothing as unknown.
    pub fn is_clean(&self) -> bool
        ensures { result ≡ is_clean self.now.said.items self.now.linted.marks.now }
    {
        !one_decides(self.said.as_slice()) && !one_is_unknown(self.linted.marks)
    }
}
