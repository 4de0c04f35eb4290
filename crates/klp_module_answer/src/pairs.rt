//! What becomes of a patch when another one is loaded over it.
use crate::Form;
use crate::json::write_pair;
use crate::livepatch::Livepatch;
use crate::spelled::FunctionWords;
use klp_messages::Escaped;
use klp_module_matrix::{Judgement, Outcome, Refusal, judge, name_of_row};
use klp_tables::Object;
use std::alloc::Global;
use std::io::Write;
use std::{fmt, io};

/// Two patches, of which the newer one is loaded over the older one.
#[derive(Clone, Copy)]
pub(crate) struct Pair<'m, 'a> {
    pub(crate) older: &'m Livepatch<'a>,
    pub(crate) newer: &'m Livepatch<'a>,
}

/// Whether an object has callbacks that run when its patch is disabled.
pub(crate) fn has_unpatch_callbacks(object: &Object<'_>) -> bool {
    let callbacks = object.row.callbacks;
    callbacks.pre_unpatch || callbacks.post_unpatch
}

/// What becomes of the older patch of a pair.
#[derive(Clone, Copy)]
pub(crate) struct OutcomeWords<'o, 'm, 'a> {
    pub(crate) pair: Pair<'m, 'a>,
    pub(crate) outcome: &'o Outcome<'a>,
}

impl OutcomeWords<'_, '_, '_> {
    fn write_refusal<W: fmt::Write>(
        &self,
        f: &mut fmt::Formatter<W>,
        refusal: Refusal,
    ) -> fmt::Result {
        let older = Escaped(self.pair.older.name);
        match refusal {
            Refusal::Lacks(state) => {
                let id = state.id;
                write!(
                    f,
                    "is refused: it replaces {older}, and lacks its state {id}"
                )
            }
            Refusal::Older { own, installed } => {
                let (id, version, other) = (own.id, own.version, installed.version);
                write!(
                    f,
                    "is refused: its state {id} has version {version}, and that of {older} {other}"
                )
            }
        }
    }

    /// Writes which callbacks of the older patch never run, if it is taken out.
    fn write_unrun<W: fmt::Write>(&self, f: &mut fmt::Formatter<W>) -> fmt::Result {
        let mut comma = "; never run are its callbacks pre_unpatch and post_unpatch for ";
        for object in &self.pair.older.patch.objects {
            if has_unpatch_callbacks(object) {
                write!(f, "{comma}{}", Escaped(name_of_row(&object.row)))?;
                comma = ", ";
            }
        }
        Ok(())
    }
}

impl fmt::Display for OutcomeWords<'_, '_, '_> {
    fn fmt<W: fmt::Write>(&self, f: &mut fmt::Formatter<W>) -> fmt::Result {
        let older = Escaped(self.pair.older.name);
        match self.outcome {
            Outcome::Refused(refusal) => self.write_refusal(f, *refusal),
            Outcome::TakenOut(lost) => {
                write!(f, "takes out {older}")?;
                if !lost.is_empty() {
                    write!(f, "; the original runs again of {}", FunctionWords(lost))?;
                }
                self.write_unrun(f)
            }
            Outcome::Beside(shared) => {
                write!(f, "stands beside {older}")?;
                if !shared.is_empty() {
                    write!(
                        f,
                        "; both change {}, so tasks run the newer version",
                        FunctionWords(shared)
                    )?;
                }
                Ok(())
            }
        }
    }
}

fn write_words<W: Write>(
    pair: Pair<'_, '_>,
    judgement: &Judgement<'_>,
    out: &mut W,
) -> io::Result<()> {
    let word = if judgement.is_finding() {
        "finding"
    } else {
        "remark"
    };
    let (newer, older) = (Escaped(pair.newer.name), Escaped(pair.older.name));
    write!(out, "{word}: {newer} over {older}: ")?;
    match judgement {
        Judgement::Known(outcome) => writeln!(out, "{}", OutcomeWords { pair, outcome }),
        Judgement::Unknown {
            if_it_replaces,
            else_it_is,
        } => {
            let replacing = OutcomeWords {
                pair,
                outcome: if_it_replaces,
            };
            let other = OutcomeWords {
                pair,
                outcome: else_it_is,
            };
            writeln!(
                out,
                "its code sets whether it replaces patches: if so, it {replacing}; else it {other}"
            )
        }
    }
}

/// Writes what becomes of each patch when each other one is loaded over it. Returns whether there is no finding.
pub fn compare<W: Write>(
    alloc: Global,
    livepatches: &[Livepatch<'_>],
    form: Form,
    out: &mut W,
) -> io::Result<bool> {
    let mut is_clean = true;
    for (place, older) in livepatches.iter().enumerate() {
        for (other, newer) in livepatches.iter().enumerate() {
            if place == other {
                continue;
            }
            let pair = Pair { older, newer };
            let judgement = judge(alloc, older.side(), newer.side(), newer.patch.replaces)?;
            is_clean = is_clean && !judgement.is_finding();
            match form {
                Form::Words => write_words(pair, &judgement, out)?,
                Form::Json => write_pair(alloc, pair, &judgement, out)?,
            }
        }
    }
    Ok(is_clean)
}
