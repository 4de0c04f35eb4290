//! What becomes of a patch when another one is loaded over it.
ghost use Rattle.std.specs.Prelude.{◌≡◌, IfOk};
ghost use Rattle.klp_module_matrix.specs.Outcomes.{is_finding, says_something, IsJudgement, IsOutcome};

use crate::functions::{Changed, lost, shared};
use crate::states::{Refusal, refusal_over};
use klp_tables::{Replaces, State};
use std::alloc::{AllocError, Global};

/// What is compared of a patch.
#[derive(Clone, Copy)]
pub struct Side<'p, 'a> {
    pub states: &'p [State],
    /// All functions that it changes.
    pub changed: &'p [Changed<'a>],
}

/// What becomes of the older patch, if it is known whether the newer one replaces those before it.
#[derive(Drop)]
pub enum Outcome<'a> {
    /// The kernel refuses the newer patch.
    Refused(Refusal),
    /// The newer patch takes the older one out. The originals of these functions run again.
    TakenOut(Vec<Changed<'a>>),
    /// Both stay. Tasks run the newer patch's versions of these functions.
    Beside(Vec<Changed<'a>>),
}

/// What becomes of the older patch.
#[derive(Drop)]
pub enum Judgement<'a> {
    Known(Outcome<'a>),
    /// The module's code sets whether the newer patch replaces those before it.
    Unknown {
        if_it_replaces: Outcome<'a>,
        else_it_is: Outcome<'a>,
    },
}

impl<'a> Outcome<'a> {
    /// Whether the newer patch is refused, loses a function, or changes one that the older patch changes.
    pub fn is_finding(&self) -> bool
        ensures { result ≡ is_finding self.now }
    {
        match self {
            Outcome::Refused(_) => true,
            Outcome::TakenOut(functions) | Outcome::Beside(functions) => !functions.is_empty(),
        }
    }
}

impl<'a> Judgement<'a> {
    /// Whether the judgement is a finding, as it is if it isn't known what the newer patch does.
    pub fn is_finding(&self) -> bool
        ensures { result ≡ says_something self.now }
    {
        match self {
            Judgement::Known(outcome) => outcome.is_finding(),
            Judgement::Unknown { .. } => true,
        }
    }
}

/// Returns what becomes of the older patch. `replaces` says whether the newer one replaces those before it.
fn outcome_of<'a>(
    alloc: Global,
    older: Side<'_, 'a>,
    newer: Side<'_, '_>,
    replaces: bool,
) -> Result<Outcome<'a>, AllocError>
    ensures { IfOk result (λ outcome. IsOutcome older.entry newer.entry replaces outcome) }
{
    if let Some(refusal) = refusal_over(older.states, newer.states, replaces) {
        return Ok(Outcome::Refused(refusal));
    }
    if replaces {
        Ok(Outcome::TakenOut(lost(alloc, older.changed, newer.changed)?))
    } else {
        Ok(Outcome::Beside(shared(alloc, older.changed, newer.changed)?))
    }
}

/// Judges what becomes of the older patch when the newer one is loaded over it.
pub fn judge<'a>(
    alloc: Global,
    older: Side<'_, 'a>,
    newer: Side<'_, '_>,
    replaces: Replaces,
) -> Result<Judgement<'a>, AllocError>
    ensures { IfOk result (λ judgement. IsJudgement older.entry newer.entry replaces judgement) }
{
    match replaces {
        Replaces::No => Ok(Judgement::Known(outcome_of(alloc, older, newer, false)?)),
        Replaces::Yes => Ok(Judgement::Known(outcome_of(alloc, older, newer, true)?)),
        Replaces::Unknown => Ok(Judgement::Unknown {
            if_it_replaces: outcome_of(alloc, older, newer, true)?,
            else_it_is: outcome_of(alloc, older, newer, false)?,
        }),
    }
}
