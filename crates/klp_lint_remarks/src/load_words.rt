//! The words of findings about patches that are loaded, and of what cumulative patches do to others.

use crate::shown::{FunctionNames, PatchNames};
use klp_lint_findings::{
    FunctionSet, Linted, LoadFinding, PatchList, ReplaceFinding, StateConflict, WhyNotLoaded,
    WhyStays,
};
use klp_types::PatchId;
use std::fmt;

/// A finding about a patch that is loaded, as a sentence.
#[derive(Clone, Copy)]
pub(crate) struct LoadWords<'a> {
    pub(crate) linted: Linted<'a>,
    pub(crate) patch: PatchId,
    pub(crate) finding: LoadFinding,
}

impl fmt::Display for LoadWords<'_> {
    fn fmt<W: fmt::Write>(&self, f: &mut fmt::Formatter<W>) -> fmt::Result {
        let (linted, patch) = (self.linted, self.patch);
        match self.finding {
            LoadFinding::NotStarted { why } => {
                write!(f, "can't be loaded: {}", WhyWords { linted, why })
            }
            LoadFinding::NotOver { below, why } => {
                let below = PatchNames {
                    linted,
                    patches: below,
                };
                let why = WhyWords { linted, why };
                write!(f, "can't be loaded over {below}: {why}")
            }
            LoadFinding::Stays { why } => match why {
                WhyStays::Pending(1) => write!(f, "stays: its transition waits for a task"),
                WhyStays::Pending(count) => {
                    write!(f, "stays: its transition waits for {count} tasks")
                }
                WhyStays::NoEnd => write!(f, "stays: its transition doesn't end"),
            },
            LoadFinding::SameFunctions {
                others,
                place,
                functions,
            } => {
                let words = SameFunctionsWords {
                    linted,
                    patch,
                    place,
                    functions,
                    others,
                };
                write!(f, "{words}")
            }
        }
    }
}

/// Functions that other patches change too.
#[derive(Clone, Copy)]
struct SameFunctionsWords<'a> {
    linted: Linted<'a>,
    patch: PatchId,
    place: usize,
    functions: FunctionSet,
    others: PatchList,
}

impl fmt::Display for SameFunctionsWords<'_> {
    fn fmt<W: fmt::Write>(&self, f: &mut fmt::Formatter<W>) -> fmt::Result {
        let (linted, patch, place) = (self.linted, self.patch, self.place);
        let (functions, patches) = (self.functions, self.others);
        let names = FunctionNames {
            linted,
            patch,
            place,
            functions,
        };
        let object = linted.target_name(patch, place);
        let do_so = if patches.as_slice().len() == 1 {
            "does"
        } else {
            "do"
        };
        let others = PatchNames { linted, patches };
        write!(
            f,
            "changes {names} of {object}, as {others} {do_so}: of two that are installed, the newer hides the older"
        )
    }
}

/// Why a patch isn't loaded.
#[derive(Clone, Copy)]
struct WhyWords<'a> {
    linted: Linted<'a>,
    why: WhyNotLoaded,
}

impl fmt::Display for WhyWords<'_> {
    fn fmt<W: fmt::Write>(&self, f: &mut fmt::Formatter<W>) -> fmt::Result {
        let linted = self.linted;
        match self.why {
            WhyNotLoaded::Fails { object, status } => {
                let object = linted.object_name(object);
                write!(f, "pre-patch for {object} fails with {status}")
            }
            WhyNotLoaded::Exists { object, key } => {
                let object = linted.object_name(object);
                write!(
                    f,
                    "pre-patch for {object} fails, since the variable {} {} is there",
                    key.obj, key.id
                )
            }
            WhyNotLoaded::Conflicts(conflict) => {
                write!(f, "{}", ConflictWords { linted, conflict })
            }
            WhyNotLoaded::Full => write!(f, "there is no room for the variables of its callbacks"),
            WhyNotLoaded::Pinned => write!(
                f,
                "it is pinned, since a task may still be inside of its functions"
            ),
            WhyNotLoaded::Refused => write!(f, "it is refused"),
        }
    }
}

/// The system state that keeps a patch from being loaded.
#[derive(Clone, Copy)]
struct ConflictWords<'a> {
    linted: Linted<'a>,
    conflict: StateConflict,
}

impl fmt::Display for ConflictWords<'_> {
    fn fmt<W: fmt::Write>(&self, f: &mut fmt::Formatter<W>) -> fmt::Result {
        let StateConflict {
            id,
            installed,
            there,
            own,
        } = self.conflict;
        let installed = self.linted.patch_name(installed);
        match own {
            Some(own) => write!(
                f,
                "it has the system state {id} in version {own}, and {installed} in version {there}"
            ),
            None => write!(
                f,
                "it is cumulative and doesn't name the system state {id} of {installed}"
            ),
        }
    }
}

/// A finding about a patch that a cumulative patch takes out, as a sentence.
#[derive(Clone, Copy)]
pub(crate) struct ReplaceWords<'a> {
    pub(crate) linted: Linted<'a>,
    pub(crate) finding: ReplaceFinding,
}

impl fmt::Display for ReplaceWords<'_> {
    fn fmt<W: fmt::Write>(&self, f: &mut fmt::Formatter<W>) -> fmt::Result {
        let linted = self.linted;
        match self.finding {
            ReplaceFinding::TakesOut { gone: patches } => {
                write!(f, "takes out {}", PatchNames { linted, patches })
            }
            ReplaceFinding::TakesOver { other, id } => {
                let other = linted.patch_name(other);
                write!(f, "takes over the system state {id} of {other}")
            }
            ReplaceFinding::Forgets { other, id, is_sure } => {
                let forgets = if is_sure { "forgets" } else { "may forget" };
                let other = linted.patch_name(other);
                write!(
                    f,
                    "{forgets} the system state {id} of {other}, which it takes out: no callback takes the value over"
                )
            }
            ReplaceFinding::LosesFunctions {
                other,
                place,
                functions,
            } => {
                let words = LostFunctionsWords {
                    linted,
                    other,
                    place,
                    functions,
                };
                write!(f, "{words}")
            }
            finding => {
                let words = VariableWords { linted, finding };
                write!(f, "{words}")
            }
        }
    }
}

/// Functions of a patch that a cumulative patch takes out and doesn't change.
#[derive(Clone, Copy)]
struct LostFunctionsWords<'a> {
    linted: Linted<'a>,
    other: PatchId,
    place: usize,
    functions: FunctionSet,
}

impl fmt::Display for LostFunctionsWords<'_> {
    fn fmt<W: fmt::Write>(&self, f: &mut fmt::Formatter<W>) -> fmt::Result {
        let (linted, other, place) = (self.linted, self.other, self.place);
        let names = FunctionNames {
            linted,
            patch: other,
            place,
            functions: self.functions,
        };
        let runs = if self.functions.count() == 1 {
            "its original runs again"
        } else {
            "their originals run again"
        };
        let object = linted.target_name(other, place);
        let gone = linted.patch_name(other);
        write!(
            f,
            "takes out {gone}, and doesn't change {names} of {object}: {runs}"
        )
    }
}

/// A finding about a variable of a patch that a cumulative patch takes out.
#[derive(Clone, Copy)]
struct VariableWords<'a> {
    linted: Linted<'a>,
    finding: ReplaceFinding,
}

/// What stands before a claim that rests on callbacks that aren't understood.
fn perhaps(is_sure: bool) -> &'static str {
    if is_sure { "" } else { "perhaps " }
}

impl fmt::Display for VariableWords<'_> {
    fn fmt<W: fmt::Write>(&self, f: &mut fmt::Formatter<W>) -> fmt::Result {
        let linted = self.linted;
        match self.finding {
            ReplaceFinding::Leaves {
                other,
                key,
                is_sure,
            } => {
                let (other, perhaps) = (linted.patch_name(other), perhaps(is_sure));
                let (obj, id) = (key.obj, key.id);
                write!(
                    f,
                    "takes out {other}, and then {perhaps}nobody frees the variable {obj} {id} that {other} adds"
                )
            }
            ReplaceFinding::Loses {
                other,
                key,
                is_sure,
            } => {
                let (other, perhaps) = (linted.patch_name(other), perhaps(is_sure));
                let (obj, id) = (key.obj, key.id);
                write!(
                    f,
                    "takes out {other}, and then {perhaps}nobody puts back the variable {obj} {id} that {other} frees"
                )
            }
            ReplaceFinding::NotAgain { other, key } => {
                let other = linted.patch_name(other);
                let (obj, id) = (key.obj, key.id);
                write!(
                    f,
                    "takes out {other}, which then can't be loaded again: the variable {obj} {id} that it adds is left"
                )
            }
            _ => Ok(()),
        }
    }
}
