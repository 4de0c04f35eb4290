//! The words of findings about one patch alone.

use crate::mark_words::reason_of;
use crate::shown::{ShownValue, name_of};
use klp_lint::Pair;
use klp_lint_findings::{IdleReason, Linted, Mark, PartFinding, TraceFinding, callbacks_of};
use klp_modules::SymbolFault;
use klp_types::{MAX_VARIABLES, PatchId, ShadowKey, ShadowValue};
use std::fmt;

/// A finding about the trace of a patch, as a sentence.
#[derive(Clone, Copy)]
pub(crate) struct TraceWords<'a> {
    pub(crate) linted: Linted<'a>,
    pub(crate) patch: PatchId,
    pub(crate) finding: TraceFinding,
}

/// What a patch without a trace does.
#[derive(Clone, Copy)]
struct CleanWords {
    is_everywhere: bool,
    is_partial: bool,
}

impl fmt::Display for CleanWords {
    fn fmt<W: fmt::Write>(&self, f: &mut fmt::Formatter<W>) -> fmt::Result {
        if self.is_everywhere {
            write!(f, "leaves no trace, in any world without its variables")?;
        } else {
            write!(f, "leaves no trace, in this world")?;
        }
        if self.is_partial {
            write!(f, ", as far as it is judged")
        } else {
            Ok(())
        }
    }
}

impl fmt::Display for TraceWords<'_> {
    fn fmt<W: fmt::Write>(&self, f: &mut fmt::Formatter<W>) -> fmt::Result {
        let (linted, patch, finding) = (self.linted, self.patch, self.finding);
        match finding {
            TraceFinding::Clean {
                is_everywhere,
                is_partial,
            } => {
                let words = CleanWords {
                    is_everywhere,
                    is_partial,
                };
                write!(f, "{words}")
            }
            TraceFinding::Installed => write!(f, "not judged: it is installed"),
            TraceFinding::Moving => write!(f, "not judged: a patch is in transition"),
            TraceFinding::NotLoaded { place } => {
                let object = linted.target_name(patch, place);
                write!(
                    f,
                    "not judged: its callbacks for {object}, which isn't loaded"
                )
            }
            TraceFinding::NotUndone { .. } | TraceFinding::NotApart { .. } => {
                let words = FailingWords {
                    linted,
                    patch,
                    finding,
                };
                write!(f, "may leave a trace: {words}")
            }
            _ => {
                let words = MarkWords {
                    linted,
                    patch,
                    finding,
                };
                write!(f, "{words}")
            }
        }
    }
}

/// A premise that fails.
#[derive(Clone, Copy)]
struct FailingWords<'a> {
    linted: Linted<'a>,
    patch: PatchId,
    finding: TraceFinding,
}

impl fmt::Display for FailingWords<'_> {
    fn fmt<W: fmt::Write>(&self, f: &mut fmt::Formatter<W>) -> fmt::Result {
        let (linted, patch) = (self.linted, self.patch);
        match self.finding {
            TraceFinding::NotUndone {
                place,
                pair,
                key,
                found,
                left,
            } => {
                let words = NotUndoneWords {
                    linted,
                    patch,
                    place,
                    pair,
                };
                let values = ValuesWords { key, found, left };
                write!(f, "{words}: {values}")
            }
            TraceFinding::NotApart { first, second, key } => {
                let line = linted.target_line(patch, first);
                let one = linted.target_name(patch, first);
                let other = linted.target_name(patch, second);
                let (obj, id) = (key.obj, key.id);
                write!(
                    f,
                    "the callbacks for {one} (line {line}) and for {other} both touch the variable {obj} {id}"
                )
            }
            _ => Ok(()),
        }
    }
}

/// A callback that isn't understood, or whose meaning is guessed, or a patch that may be cumulative.
#[derive(Clone, Copy)]
struct MarkWords<'a> {
    linted: Linted<'a>,
    patch: PatchId,
    finding: TraceFinding,
}

/// The name of the callback that a mark is about.
fn marked_name(linted: &Linted<'_>, patch: PatchId, place: usize, mark: &Mark) -> &'static str {
    match linted.callback_kind(patch, place, mark.about) {
        Some(which) => name_of(which),
        None => "a callback",
    }
}

impl fmt::Display for MarkWords<'_> {
    fn fmt<W: fmt::Write>(&self, f: &mut fmt::Formatter<W>) -> fmt::Result {
        let (linted, patch) = (self.linted, self.patch);
        let input = linted.input;
        let text = input.catalog.bytes;
        match self.finding {
            TraceFinding::Guessed { place, mark } => {
                let object = linted.target_name(patch, place);
                let name = marked_name(&linted, patch, place, &mark);
                let why = reason_of(text, &mark);
                write!(
                    f,
                    "leaves no trace, if its callbacks do what is guessed: {name} for {object}: {why}"
                )
            }
            TraceFinding::NotUnderstood { place, mark } => {
                let object = linted.target_name(patch, place);
                let name = marked_name(&linted, patch, place, &mark);
                let why = reason_of(text, &mark);
                write!(f, "not judged: {name} for {object} isn't understood: {why}")
            }
            TraceFinding::MaybeCumulative { mark } => {
                let why = reason_of(text, &mark);
                write!(
                    f,
                    "not judged: it isn't known whether the patch is cumulative: {why}"
                )
            }
            _ => Ok(()),
        }
    }
}

/// The two callbacks of a pair that don't undo each other. The line of the first is written if the finding is at the
/// line of the second.
#[derive(Clone, Copy)]
struct NotUndoneWords<'a> {
    linted: Linted<'a>,
    patch: PatchId,
    place: usize,
    pair: Pair,
}

impl fmt::Display for NotUndoneWords<'_> {
    fn fmt<W: fmt::Write>(&self, f: &mut fmt::Formatter<W>) -> fmt::Result {
        let (done, back) = callbacks_of(self.pair);
        let (linted, patch, place) = (self.linted, self.patch, self.place);
        let object = linted.target_name(patch, place);
        write!(
            f,
            "{} for {object} doesn't undo {}",
            name_of(back),
            name_of(done)
        )?;
        let (first, second) = (
            linted.callback_line(patch, place, done),
            linted.callback_line(patch, place, back),
        );
        match (first, second) {
            (Some(line), Some(_)) => write!(f, " of line {line}"),
            _ => Ok(()),
        }
    }
}

/// The values of a variable before two callbacks and behind them.
#[derive(Clone, Copy)]
struct ValuesWords {
    key: ShadowKey,
    found: Option<ShadowValue>,
    left: Option<ShadowValue>,
}

impl fmt::Display for ValuesWords {
    fn fmt<W: fmt::Write>(&self, f: &mut fmt::Formatter<W>) -> fmt::Result {
        let (key, found, left) = (self.key, ShownValue(self.found), ShownValue(self.left));
        write!(
            f,
            "the variable {} {} is {found} before, and {left} behind both",
            key.obj, key.id
        )
    }
}

/// A finding about a part of a patch, as a sentence.
#[derive(Clone, Copy)]
pub(crate) struct PartWords<'a> {
    pub(crate) linted: Linted<'a>,
    pub(crate) patch: PatchId,
    pub(crate) finding: PartFinding,
}

/// Why an edit of a system state does nothing.
fn idle_reason(why: IdleReason) -> &'static str {
    match why {
        IdleReason::Unnamed => "which the patch doesn't name",
        IdleReason::Alone => "which no other patch names",
    }
}

impl fmt::Display for PartWords<'_> {
    fn fmt<W: fmt::Write>(&self, f: &mut fmt::Formatter<W>) -> fmt::Result {
        match self.finding {
            PartFinding::Idle { id, why, .. } => {
                let why = idle_reason(why);
                write!(f, "does nothing: a change of the system state {id}, {why}")
            }
            PartFinding::Room { own, all } => write!(
                f,
                "may be refused as Full: it asks room for {own} variables, all callbacks add up to {all}, and there are {MAX_VARIABLES}"
            ),
            PartFinding::Alike { older } => {
                let older = self.linted.patch_name(older);
                write!(
                    f,
                    "is just like {older}: it has the same functions, callbacks, system states and versions"
                )
            }
            finding => {
                let (linted, patch) = (self.linted, self.patch);
                let words = FunctionWords {
                    linted,
                    patch,
                    finding,
                };
                write!(f, "{words}")
            }
        }
    }
}

/// A finding about a function, as a sentence.
#[derive(Clone, Copy)]
struct FunctionWords<'a> {
    linted: Linted<'a>,
    patch: PatchId,
    finding: PartFinding,
}

impl fmt::Display for FunctionWords<'_> {
    fn fmt<W: fmt::Write>(&self, f: &mut fmt::Formatter<W>) -> fmt::Result {
        let (linted, patch) = (self.linted, self.patch);
        match self.finding {
            PartFinding::NoSymbol {
                place,
                is_assumed,
                ..
            }
            | PartFinding::NoFunction {
                place,
                is_assumed,
                ..
            } => {
                let words = UnpickedWords {
                    linted,
                    patch,
                    finding: self.finding,
                };
                let object = linted.target_name(patch, place);
                if is_assumed {
                    write!(f, "not judged: {words}, but its symbols are assumed")
                } else {
                    write!(f, "can't be enabled while {object} is loaded: {words}")
                }
            }
            PartFinding::NearLimit {
                place,
                function,
                left,
            } => {
                let object = linted.target_name(patch, place);
                let symbol = symbol_name(&linted, patch, place, function);
                write!(
                    f,
                    "is near a limit: the call of the handler at {symbol} of {object} is {left} bytes short of 2 GiB"
                )
            }
            _ => Ok(()),
        }
    }
}

/// The name of the symbol that a function of a target replaces. It is empty if there is no such function.
fn symbol_name<'a>(linted: &Linted<'a>, patch: PatchId, place: usize, function: usize) -> &'a str {
    let Some(target) = linted.target(patch, place) else {
        return "";
    };
    match target.functions.as_slice().get(function) {
        Some(found) => found.symbol.as_str(),
        None => "",
    }
}

/// The position that a function of a target has for its symbol.
fn position_of(linted: &Linted<'_>, patch: PatchId, place: usize, function: usize) -> u32 {
    let Some(target) = linted.target(patch, place) else {
        return 0;
    };
    match target.functions.as_slice().get(function) {
        Some(found) => found.sympos,
        None => 0,
    }
}

/// A function whose name and position pick no symbol, or a variable.
#[derive(Clone, Copy)]
struct UnpickedWords<'a> {
    linted: Linted<'a>,
    patch: PatchId,
    finding: PartFinding,
}

impl fmt::Display for UnpickedWords<'_> {
    fn fmt<W: fmt::Write>(&self, f: &mut fmt::Formatter<W>) -> fmt::Result {
        let (linted, patch) = (self.linted, self.patch);
        match self.finding {
            PartFinding::NoSymbol {
                place,
                function,
                fault,
                ..
            } => {
                let words = NoSymbolWords {
                    linted,
                    patch,
                    place,
                    function,
                    fault,
                };
                write!(f, "{words}")
            }
            PartFinding::NoFunction {
                place,
                function,
                ..
            } => {
                let object = linted.target_name(patch, place);
                let symbol = symbol_name(&linted, patch, place, function);
                match position_of(&linted, patch, place, function) {
                    0 => write!(f, "{symbol} of {object} is a variable"),
                    position => write!(f, "{symbol},{position} of {object} is a variable"),
                }
            }
            _ => Ok(()),
        }
    }
}

/// A function whose name and position pick no symbol.
#[derive(Clone, Copy)]
struct NoSymbolWords<'a> {
    linted: Linted<'a>,
    patch: PatchId,
    place: usize,
    function: usize,
    fault: SymbolFault,
}

impl fmt::Display for NoSymbolWords<'_> {
    fn fmt<W: fmt::Write>(&self, f: &mut fmt::Formatter<W>) -> fmt::Result {
        let (linted, patch, place) = (self.linted, self.patch, self.place);
        let object = linted.target_name(patch, place);
        let symbol = symbol_name(&linted, patch, place, self.function);
        let position = position_of(&linted, patch, place, self.function);
        let reason = match self.fault {
            SymbolFault::Missing => "has no such symbol",
            SymbolFault::Ambiguous => "has several symbols of this name",
            SymbolFault::NoPosition => "has fewer symbols of this name",
        };
        write!(f, "{symbol},{position}: {object} {reason}")
    }
}
