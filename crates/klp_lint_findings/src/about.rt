//! The kind of a finding, and the line, patch, object, variable, system state and other patches that it is about.

use crate::finding::{
    CountFinding, Finding, FindingKind, LoadFinding, PartFinding, ReplaceFinding, TraceFinding,
    WhyNotLoaded,
};
use crate::linted::Linted;
use crate::lists::PatchList;
use klp_lint::Pair;
use klp_types::{ObjId, PatchId, ShadowKey, Which};

/// The kind of a finding, and what the finding is about. Parts that it isn't about are `None`, or empty.
#[derive(Clone, Copy, PartialEq, Eq)]
pub struct About {
    pub kind: FindingKind,
    /// The line of the catalog where the finding is.
    pub line: Option<u64>,
    pub patch: Option<PatchId>,
    pub object: Option<ObjId>,
    pub key: Option<ShadowKey>,
    pub state: Option<u64>,
    pub others: PatchList,
    /// Whether it rests only on callbacks that are understood.
    pub is_sure: bool,
}

/// The two callbacks of a pair. The second has to undo what the first does.
pub fn callbacks_of(pair: Pair) -> (Which, Which) {
    match pair {
        Pair::Pre => (Which::Pre, Which::PostUn),
        Pair::Post => (Which::Post, Which::PreUn),
    }
}

/// A finding of this kind about a patch, at a line of the catalog.
fn at(kind: FindingKind, patch: PatchId, line: u64) -> About {
    About {
        line: Some(line),
        patch: Some(patch),
        ..about_all(kind)
    }
}

/// A finding of this kind that isn't about one patch, and so has no line of the catalog.
fn about_all(kind: FindingKind) -> About {
    About {
        kind,
        line: None,
        patch: None,
        object: None,
        key: None,
        state: None,
        others: PatchList::new(),
        is_sure: true,
    }
}

/// A finding of this kind about a callback of a patch for an object, at the callback's line.
fn at_callback(
    linted: &Linted<'_>,
    kind: FindingKind,
    patch: PatchId,
    place: usize,
    line: u64,
) -> About {
    About {
        object: linted.object(patch, place),
        ..at(kind, patch, line)
    }
}

/// The line of a pair of callbacks that don't undo each other: that of the second one, or of the first if there is no
/// second one.
fn line_of_pair(linted: &Linted<'_>, patch: PatchId, place: usize, pair: Pair) -> u64 {
    let (done, back) = callbacks_of(pair);
    match linted.callback_line(patch, place, back) {
        Some(line) => line,
        None => match linted.callback_line(patch, place, done) {
            Some(line) => line,
            None => linted.target_line(patch, place),
        },
    }
}

/// A finding about callbacks that don't undo each other.
fn about_pair(
    linted: &Linted<'_>,
    patch: PatchId,
    place: usize,
    pair: Pair,
    key: ShadowKey,
) -> About {
    let line = line_of_pair(linted, patch, place, pair);
    About {
        object: linted.object(patch, place),
        key: Some(key),
        ..at(FindingKind::NotUndone, patch, line)
    }
}

/// A finding of this kind about an object of a patch, at the line of its target.
fn at_target(linted: &Linted<'_>, kind: FindingKind, patch: PatchId, place: usize) -> About {
    About {
        object: linted.object(patch, place),
        ..at(kind, patch, linted.target_line(patch, place))
    }
}

/// What a finding about the trace of a patch is about.
fn about_trace(linted: &Linted<'_>, patch: PatchId, finding: TraceFinding) -> About {
    let whole = linted.patch_line(patch);
    match finding {
        TraceFinding::Clean { .. } => at(FindingKind::Clean, patch, whole),
        TraceFinding::Installed => at(FindingKind::Installed, patch, whole),
        TraceFinding::Moving | TraceFinding::MaybeCumulative { .. } => {
            at(FindingKind::NotJudged, patch, whole)
        }
        TraceFinding::Guessed { place, mark } => {
            at_callback(linted, FindingKind::Guessed, patch, place, mark.about)
        }
        TraceFinding::NotUnderstood { place, mark } => {
            at_callback(linted, FindingKind::NotJudged, patch, place, mark.about)
        }
        TraceFinding::NotLoaded { place } => {
            at_target(linted, FindingKind::NotJudged, patch, place)
        }
        TraceFinding::NotUndone {
            place,
            pair,
            key,
            ..
        } => about_pair(linted, patch, place, pair, key),
        TraceFinding::NotApart { second, key, .. } => About {
            key: Some(key),
            ..at_target(linted, FindingKind::NotApart, patch, second)
        },
    }
}

/// The kind of a finding about a function that no kernel finds: this one, or another one if the symbols are made up.
fn unless_assumed(kind: FindingKind, is_assumed: bool) -> FindingKind {
    if is_assumed {
        FindingKind::NotJudged
    } else {
        kind
    }
}

/// A finding of this kind about a function of a patch, at the function's line.
fn at_function(
    linted: &Linted<'_>,
    kind: FindingKind,
    patch: PatchId,
    place: usize,
    function: usize,
) -> About {
    About {
        object: linted.object(patch, place),
        ..at(kind, patch, linted.function_line(patch, place, function))
    }
}

/// What a finding about a part of a patch is about.
fn about_part(linted: &Linted<'_>, patch: PatchId, finding: PartFinding) -> About {
    let whole = linted.patch_line(patch);
    match finding {
        PartFinding::Idle {
            place,
            line,
            id,
            ..
        } => About {
            state: Some(id),
            ..at_callback(linted, FindingKind::Idle, patch, place, line)
        },
        PartFinding::NoSymbol {
            place,
            function,
            is_assumed,
            ..
        } => {
            let kind = unless_assumed(FindingKind::NoSymbol, is_assumed);
            at_function(linted, kind, patch, place, function)
        }
        PartFinding::NoFunction {
            place,
            function,
            is_assumed,
        } => {
            let kind = unless_assumed(FindingKind::NoFunction, is_assumed);
            at_function(linted, kind, patch, place, function)
        }
        PartFinding::NearLimit {
            place,
            function,
            ..
        } => at_function(linted, FindingKind::NearLimit, patch, place, function),
        PartFinding::Room { .. } => at(FindingKind::Room, patch, whole),
        PartFinding::Alike { older } => About {
            others: PatchList::of(&[older]),
            ..at(FindingKind::Alike, patch, whole)
        },
    }
}

/// The line of the pre-patch callback of a patch for an object. If there is none, the line of the patch.
fn pre_patch_line(linted: &Linted<'_>, patch: PatchId, object: ObjId) -> u64 {
    let Some(own) = linted.patch(patch) else {
        return 0;
    };
    let line = match own.targets.iter().position(|it| it.object == object) {
        Some(place) => linted.callback_line(patch, place, Which::Pre),
        None => None,
    };
    line.unwrap_or(own.line)
}

/// A finding of this kind that a patch isn't loaded over the patches in `below`, or not at all.
fn about_not_loaded(
    linted: &Linted<'_>,
    kind: FindingKind,
    patch: PatchId,
    below: PatchList,
    why: WhyNotLoaded,
) -> About {
    let whole = About {
        others: below,
        ..at(kind, patch, linted.patch_line(patch))
    };
    match why {
        WhyNotLoaded::Fails { object, .. } => About {
            line: Some(pre_patch_line(linted, patch, object)),
            object: Some(object),
            ..whole
        },
        WhyNotLoaded::Exists { object, key } => About {
            line: Some(pre_patch_line(linted, patch, object)),
            object: Some(object),
            key: Some(key),
            ..whole
        },
        WhyNotLoaded::Conflicts(conflict) => About {
            line: Some(linted.state_line(patch, conflict.id)),
            state: Some(conflict.id),
            ..whole
        },
        WhyNotLoaded::Full | WhyNotLoaded::Pinned | WhyNotLoaded::Refused => whole,
    }
}

/// What a finding about a patch that is loaded is about.
fn about_load(linted: &Linted<'_>, patch: PatchId, finding: LoadFinding) -> About {
    match finding {
        LoadFinding::NotStarted { why } => {
            about_not_loaded(
                linted,
                FindingKind::NotStarted,
                patch,
                PatchList::new(),
                why,
            )
        }
        LoadFinding::NotOver { below, why } => {
            about_not_loaded(linted, FindingKind::NotOver, patch, below, why)
        }
        LoadFinding::Stays { .. } => at(FindingKind::Lagging, patch, linted.patch_line(patch)),
        LoadFinding::SameFunctions { others, place, .. } => About {
            others,
            ..at_target(linted, FindingKind::SameFunction, patch, place)
        },
    }
}

/// A finding about a system state of a patch that is taken out, at the line with which the cumulative patch names it.
fn about_state(
    linted: &Linted<'_>,
    kind: FindingKind,
    patch: PatchId,
    other: PatchId,
    id: u64,
) -> About {
    About {
        state: Some(id),
        others: PatchList::of(&[other]),
        ..at(kind, patch, linted.state_line(patch, id))
    }
}

/// A finding about a variable of a patch that is taken out.
fn about_variable(
    linted: &Linted<'_>,
    kind: FindingKind,
    patch: PatchId,
    other: PatchId,
    key: ShadowKey,
) -> About {
    About {
        key: Some(key),
        others: PatchList::of(&[other]),
        ..at(kind, patch, linted.patch_line(patch))
    }
}

/// What a finding about a patch that is taken out is about.
fn about_replace(linted: &Linted<'_>, patch: PatchId, finding: ReplaceFinding) -> About {
    match finding {
        ReplaceFinding::TakesOut { gone } => About {
            others: gone,
            ..at(FindingKind::TakesOut, patch, linted.patch_line(patch))
        },
        ReplaceFinding::TakesOver { other, id } => {
            about_state(linted, FindingKind::TakesOver, patch, other, id)
        }
        ReplaceFinding::Forgets { other, id, is_sure } => About {
            is_sure,
            ..about_state(linted, FindingKind::ForgetsState, patch, other, id)
        },
        ReplaceFinding::LosesFunctions { other, place, .. } => About {
            object: linted.object(other, place),
            others: PatchList::of(&[other]),
            ..at(FindingKind::LosesFunctions, patch, linted.patch_line(patch))
        },
        ReplaceFinding::Leaves {
            other,
            key,
            is_sure,
        } => About {
            is_sure,
            ..about_variable(linted, FindingKind::LeavesVariable, patch, other, key)
        },
        ReplaceFinding::Loses {
            other,
            key,
            is_sure,
        } => About {
            is_sure,
            ..about_variable(linted, FindingKind::LosesVariable, patch, other, key)
        },
        ReplaceFinding::NotAgain { other, key } => {
            about_variable(linted, FindingKind::NotAgain, patch, other, key)
        }
    }
}

/// A finding about all patches. That about an order in which all patches are loaded has these patches.
fn about_count(finding: CountFinding) -> About {
    match finding {
        CountFinding::Together(together) => About {
            others: match together.orders {
                Some(orders) => orders.first,
                None => PatchList::new(),
            },
            ..about_all(FindingKind::Together)
        },
        CountFinding::Moving => about_all(FindingKind::Together),
        CountFinding::Judged(_) => about_all(FindingKind::Summary),
    }
}

/// What a finding is about.
pub fn about_of(linted: &Linted<'_>, finding: &Finding) -> About {
    match *finding {
        Finding::Line(_) => about_all(FindingKind::RefusedLine),
        Finding::Trace(patch, finding) => about_trace(linted, patch, finding),
        Finding::Part(patch, finding) => about_part(linted, patch, finding),
        Finding::Load(patch, finding) => about_load(linted, patch, finding),
        Finding::Replace(patch, finding) => about_replace(linted, patch, finding),
        Finding::Count(finding) => about_count(finding),
    }
}
