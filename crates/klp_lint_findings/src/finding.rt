//! What can be said about a catalog, as values.
//!
//! A [`Finding`] has numbers of patches, objects, variables and system states, and places in the catalog. It has no
//! words. Those are written in modules of their own.

use crate::lists::{FunctionSet, PatchList};
use crate::marks::Mark;
use klp_lint::Pair;
use klp_modules::SymbolFault;
use klp_types::{ObjId, PatchId, ShadowKey, ShadowValue};
use serde::Serialize;

/// The kind of a finding. Programs read a kind as a word, for example `not-judged`.
#[derive(Clone, Copy, PartialEq, Eq, Serialize)]
#[serde(rename_all = "kebab-case")]
pub enum FindingKind {
    RefusedLine,
    Clean,
    Guessed,
    Installed,
    NotJudged,
    NotUndone,
    NotApart,
    Idle,
    NoSymbol,
    NoFunction,
    NearLimit,
    Room,
    Alike,
    NotStarted,
    NotOver,
    Lagging,
    SameFunction,
    TakesOut,
    TakesOver,
    ForgetsState,
    LosesFunctions,
    LeavesVariable,
    LosesVariable,
    NotAgain,
    Together,
    Summary,
}

/// The start of an answer of the console: an error has at most 22 bytes.
#[derive(Clone, Copy, PartialEq, Eq)]
pub struct ErrorText {
    pub bytes: [u8; 22],
    pub len: usize,
}

/// A line of the script that was refused.
#[derive(Clone, Copy, PartialEq, Eq)]
pub struct RefusedLine {
    /// The number of the line in the script, from 1.
    pub number: u64,
    pub error: ErrorText,
}

/// Whether a patch would leave a trace after it was withdrawn.
#[derive(Clone, Copy, PartialEq, Eq)]
pub enum TraceFinding {
    /// It leaves none. If `is_everywhere`, also in each other world that has none of its variables. If `is_partial`,
    /// some of its callbacks weren't judged.
    Clean {
        is_everywhere: bool,
        is_partial: bool,
    },
    /// It leaves none if its callbacks do what marks guess. The first such mark is about a callback for this object.
    Guessed {
        place: usize,
        mark: Mark,
    },
    /// It isn't judged, since it is installed.
    Installed,
    /// It isn't judged, since a patch is in transition.
    Moving,
    /// Its callbacks for this object aren't judged, since the object isn't loaded.
    NotLoaded {
        place: usize,
    },
    /// It isn't judged, since a mark says that a callback for this object isn't understood.
    NotUnderstood {
        place: usize,
        mark: Mark,
    },
    /// It isn't judged as it is, since a mark says that it isn't known, or is guessed, whether it is cumulative.
    MaybeCumulative {
        mark: Mark,
    },
    /// After both callbacks of the pair, the variable has another value than before them.
    NotUndone {
        place: usize,
        pair: Pair,
        key: ShadowKey,
        found: Option<ShadowValue>,
        left: Option<ShadowValue>,
    },
    /// The callbacks of both objects touch the variable.
    NotApart {
        first: usize,
        second: usize,
        key: ShadowKey,
    },
}

/// Why an edit of a system state does nothing.
#[derive(Clone, Copy, PartialEq, Eq)]
pub enum IdleReason {
    /// The patch doesn't name the state.
    Unnamed,
    /// No other patch names the state, so there is nothing to take over.
    Alone,
}

/// A part of a patch that can't work, does nothing, or is near a limit. Such a part is found without loading the patch.
#[derive(Clone, Copy, PartialEq, Eq)]
pub enum PartFinding {
    /// The callback at this line of the catalog has an edit of this system state that does nothing.
    Idle {
        place: usize,
        line: u64,
        id: u64,
        why: IdleReason,
    },
    /// The name and the position of this function pick no symbol. If `is_assumed`, a mark says that symbols of the
    /// object are made up.
    NoSymbol {
        place: usize,
        function: usize,
        fault: SymbolFault,
        is_assumed: bool,
    },
    /// The name and the position of this function pick a variable, by a mark. If `is_assumed`, a mark says that symbols
    /// of the object are made up.
    NoFunction {
        place: usize,
        function: usize,
        is_assumed: bool,
    },
    /// The call of the handler at this function's symbol is this many bytes short of the end of its reach.
    NearLimit {
        place: usize,
        function: usize,
        left: u128,
    },
    /// The patch needs room for `own` variables, and all callbacks of the catalog may add `all`.
    Room {
        own: usize,
        all: usize,
    },
    /// An older patch is equal in all but its name and its new functions.
    Alike {
        older: PatchId,
    },
}

/// Why a patch isn't loaded.
#[derive(Clone, Copy, PartialEq, Eq)]
pub enum WhyNotLoaded {
    /// Pre-patch for this object fails with this status.
    Fails { object: ObjId, status: i32 },
    /// Pre-patch for this object adds a variable that is there already, by a call that fails then.
    Exists { object: ObjId, key: ShadowKey },
    Conflicts(StateConflict),
    Full,
    Pinned,
    Refused,
}

/// A system state of an installed patch that doesn't fit another patch. The other patch either has the state in a lower
/// version, or is cumulative and doesn't have the state.
#[derive(Clone, Copy, PartialEq, Eq)]
pub struct StateConflict {
    pub id: u64,
    pub installed: PatchId,
    /// The version of the system state in the installed patch.
    pub there: u32,
    /// The version of the system state in the other patch, if that patch has the state.
    pub own: Option<u32>,
}

/// Why the transition of a patch doesn't end.
#[derive(Clone, Copy, PartialEq, Eq)]
pub enum WhyStays {
    /// It waits for this many tasks.
    Pending(u8),
    NoEnd,
}

/// What happens to a patch that is loaded.
#[derive(Clone, Copy, PartialEq, Eq)]
pub enum LoadFinding {
    /// It can't be loaded, with no other patch than the installed ones.
    NotStarted {
        why: WhyNotLoaded,
    },
    /// It can't be loaded over these patches.
    NotOver {
        below: PatchList,
        why: WhyNotLoaded,
    },
    /// It is loaded, and stays in transition.
    Stays {
        why: WhyStays,
    },
    /// It and each of the other patches change these functions of the target. None of them is cumulative, and it may be
    /// installed together with each of the others.
    SameFunctions {
        others: PatchList,
        place: usize,
        functions: FunctionSet,
    },
}

/// What a cumulative patch does to a patch that it takes out. A finding isn't sure if it rests on callbacks that aren't
/// understood.
#[derive(Clone, Copy, PartialEq, Eq)]
pub enum ReplaceFinding {
    /// It takes these patches out, each in a run of its own.
    TakesOut {
        gone: PatchList,
    },
    /// It takes over the value that the other patch has of a system state.
    TakesOver {
        other: PatchId,
        id: u64,
    },
    /// It forgets the value that the other patch has of a system state.
    Forgets {
        other: PatchId,
        id: u64,
        is_sure: bool,
    },
    /// It doesn't change these functions of a target of the other patch. So their originals run again.
    LosesFunctions {
        other: PatchId,
        place: usize,
        functions: FunctionSet,
    },
    /// The variable that the other patch adds is still there once both are gone.
    Leaves {
        other: PatchId,
        key: ShadowKey,
        is_sure: bool,
    },
    /// The variable that the other patch frees, and would put back, is missing once both are gone.
    Loses {
        other: PatchId,
        key: ShadowKey,
        is_sure: bool,
    },
    /// Once both are gone, the other patch can't be loaded any more: its pre-patch adds this variable, which is left.
    NotAgain {
        other: PatchId,
        key: ShadowKey,
    },
}

/// How often loading a patch was tried, and how often a try started a transition.
#[derive(Clone, Copy, PartialEq, Eq)]
pub struct Tally {
    pub tried: u64,
    pub started: u64,
}

impl Tally {
    /// Nothing was tried yet.
    pub fn none() -> Tally {
        Tally {
            tried: 0,
            started: 0,
        }
    }

    /// Counts a try.
    pub fn add(&mut self, is_started: bool) {
        self.tried = self.tried.saturating_add(1);
        if is_started {
            self.started = self.started.saturating_add(1);
        }
    }
}

/// The number of orders in which all of some patches can be loaded one after another. Also has the first such order,
/// and whether the search was cut off.
#[derive(Clone, Copy, PartialEq, Eq)]
pub struct Orders {
    /// How many patches are ordered.
    pub standing: usize,
    pub found: u64,
    /// It is empty if no order was found.
    pub first: PatchList,
    pub is_cut_off: bool,
}

/// The result of loading all patches together.
#[derive(Clone, Copy, PartialEq, Eq)]
pub struct Together {
    pub alone: Tally,
    pub over_one: Tally,
    pub over_two: Tally,
    pub orders: Option<Orders>,
}

/// The worlds in which patches were judged.
#[derive(Clone, Copy, PartialEq, Eq)]
pub enum JudgedWorlds {
    /// The one that the script left.
    Script,
    /// The only one that there is without a script, since the catalog has no modules.
    NoModules,
    /// The one without modules, and the one with all modules of the catalog.
    Both,
}

/// What was judged, and what was left out.
#[derive(Clone, Copy, PartialEq, Eq)]
pub struct Judged {
    pub worlds: JudgedWorlds,
    /// How many patches the catalog has.
    pub patches: usize,
    /// How many of them are installed, and so aren't judged.
    pub installed: usize,
    /// How many functions and targets marks say were left out of the catalog.
    pub functions: u64,
    pub targets: u64,
}

/// What is said about all patches together.
#[derive(Clone, Copy, PartialEq, Eq)]
pub enum CountFinding {
    Together(Together),
    /// The patches aren't loaded over each other, since one is in transition.
    Moving,
    Judged(Judged),
}

/// What is said about the script, a patch, or all patches.
#[derive(Clone, Copy, PartialEq, Eq)]
pub enum Finding {
    Line(RefusedLine),
    Trace(PatchId, TraceFinding),
    Part(PatchId, PartFinding),
    Load(PatchId, LoadFinding),
    Replace(PatchId, ReplaceFinding),
    Count(CountFinding),
}
