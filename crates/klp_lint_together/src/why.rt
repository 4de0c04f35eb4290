//! Says why a patch can't be loaded over others.

ghost use Rattle.std.specs.Prelude.{◌≡◌, ◌⊎◌, IfSome, IfNone, Result};
ghost use Rattle.klp_model.specs.declared.event.Reply.{Reply};
ghost use Rattle.klp_model.specs.declared.event.Refusal.{Refusal};
ghost use Rattle.klp_lint_findings.specs.Claims.{ClaimsWhy};
ghost use Rattle.klp_lint_together.specs.declared.loading.LoadOutcome.TheVariants as AnyOutcome;
ghost use Rattle.klp_lint_together.specs.Starting.{Tells};

use crate::loading::LoadOutcome;
use crate::state_conflict::conflict_with;
use klp_core::Manager;
use klp_lint_findings::{Linted, WhyNotLoaded};
use klp_types::PatchId;

/// Returns why a patch can't be loaded over the patches in `below`. `outcome` is the outcome of loading it. `None` if
/// it is loaded, or if a function's symbol isn't there: a finding about the function says so.
pub(crate) fn why_of(
    linted: &Linted<'_>,
    manager: &Manager,
    below: &[PatchId],
    patch: PatchId,
    outcome: LoadOutcome,
) -> Option<WhyNotLoaded>
    ensures some { (answer : Result Reply Refusal) → Tells answer outcome → IfSome result (ClaimsWhy answer) }
    ensures none { IfNone result ((outcome ≡ AnyOutcome.Started) ⊎ (outcome ≡ AnyOutcome.NoSymbol)) }
{
    match outcome {
        LoadOutcome::Started | LoadOutcome::NoSymbol => None,
        LoadOutcome::Failed { object, status } => Some(WhyNotLoaded::Fails { object, status }),
        LoadOutcome::Exists { object, key } => Some(WhyNotLoaded::Exists { object, key }),
        LoadOutcome::Incompatible => {
            let installed = manager.installed();
            match conflict_with(linted, installed.as_slice(), below, patch) {
                Some(conflict) => Some(WhyNotLoaded::Conflicts(conflict)),
                None => Some(WhyNotLoaded::Refused),
            }
        }
        LoadOutcome::Full => Some(WhyNotLoaded::Full),
        LoadOutcome::Pinned => Some(WhyNotLoaded::Pinned),
        LoadOutcome::Refused => Some(WhyNotLoaded::Refused),
    }
}

/// Why a patch whose transition doesn't start can't be loaded over the installed ones.
pub(crate) fn why_not_started(
    linted: &Linted<'_>,
    manager: &Manager,
    patch: PatchId,
    outcome: LoadOutcome,
) -> WhyNotLoaded
    ensures { (answer : Result Reply Refusal) → Tells answer outcome → (outcome ≡ AnyOutcome.Started → ⊥)
        → ClaimsWhy answer result }
{
    match why_of(linted, manager, &[], patch, outcome) {
        Some(why) => why,
        None => WhyNotLoaded::Refused,
    }
}
