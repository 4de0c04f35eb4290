//! What is said of a whole log.
ghost use Rattle.std.specs.Prelude.{◌≡◌};
ghost use Rattle.klp_contradictions.specs.Verdict.{verdict_of};

/// What is said of a whole log.
#[derive(Clone, Copy, PartialEq, Eq)]
pub enum LogVerdict {
    /// A run of the rules shows each sample that counts.
    Explained,
    /// Some sample can't be shown by any run of the rules.
    Broken,
    /// No run was found, and nothing says that there is none.
    NotExplained,
    /// What a verdict needs couldn't be read.
    NotSeen,
}

/// Returns the verdict on a log. `is_seen` says whether all was read that a verdict needs, `is_broken` whether a sample
/// contradicts the rules, and `is_explained` whether a run of the rules shows each sample that counts. Without all that
/// is needed, nothing else is said. A sample that contradicts the rules outweighs a run.
pub fn verdict_of(is_seen: bool, is_broken: bool, is_explained: bool) -> LogVerdict
    ensures { result ≡ verdict_of is_seen is_broken is_explained }
{
    if !is_seen {
        LogVerdict::NotSeen
    } else if is_broken {
        LogVerdict::Broken
    } else if is_explained {
        LogVerdict::Explained
    } else {
        LogVerdict::NotExplained
    }
}
