//! Finds functions that two patches change. A function is known by its site: the symbol that it replaces.
ghost use Rattle.std.specs.Prelude.{IfOk, IfSome};
ghost use Rattle.klp_lint_findings.specs.Claims.{IsTrue, AddsTrue};
ghost use Rattle.klp_lint_findings.specs.Saying.{Adds};
ghost use Rattle.klp_lint_findings.specs.Standing.{standing};

use crate::loading::Outcomes;
use klp_catalog_text::PlanTarget;
use klp_core::Manager;
use klp_lint_changes::{changes_site, site_in};
use klp_lint_findings::{Finding, Findings, FunctionSet, Linted, LoadFinding, PatchList, patch_id};
use klp_types::{PatchId, Site};
use std::alloc::AllocError;

/// Whether two patches may be installed at the same time: one is loaded over the other, which may be installed already.
fn may_both_stand(manager: &Manager, outcomes: &Outcomes, patch: PatchId, other: PatchId) -> bool {
    if manager.enabled(other).is_some() {
        return outcomes.stands(None, patch);
    }
    outcomes.stands(Some(other), patch) || outcomes.stands(Some(patch), other)
}

/// The patches whose functions a patch may hide, or that may hide those of the patch: both may be installed, and
/// neither is cumulative. Of two patches that aren't installed, only the earlier one of the catalog is a rival of the
/// other.
fn rivals_of(
    linted: &Linted<'_>,
    manager: &Manager,
    outcomes: &Outcomes,
    patch: PatchId,
) -> PatchList {
    let mut rivals = PatchList::new();
    for (number, own) in linted.patches.iter().enumerate() {
        let other = patch_id(number);
        let is_first = number < usize::from(patch.0) || manager.enabled(other).is_some();
        if is_first && !own.replace && may_both_stand(manager, outcomes, patch, other) {
            rivals.push(other);
        }
    }
    rivals
}

/// Those of these patches that change a site.
fn changing(manager: &Manager, rivals: &PatchList, site: Option<Site>) -> PatchList {
    let mut others = PatchList::new();
    if let Some(site) = site {
        for rival in rivals.as_slice() {
            if changes_site(manager, *rival, site) {
                others.push(*rival);
            }
        }
    }
    others
}

/// A target of a patch, and what its functions are compared with.
#[derive(Clone, Copy)]
struct Compared<'l, 'm, 'r> {
    linted: Linted<'l>,
    manager: &'m Manager,
    rivals: &'r PatchList,
    patch: PatchId,
    place: usize,
}

impl Compared<'_, '_, '_> {
    /// The rivals that change what a function of the target changes.
    fn others(&self, function: usize) -> PatchList {
        let linted = self.linted;
        let site = site_in(&linted, self.manager, self.patch, self.place, function);
        changing(self.manager, self.rivals, site)
    }

    /// The functions of the target that these rivals change, and no other rival.
    fn functions(&self, target: &PlanTarget, others: &PatchList) -> FunctionSet {
        let mut functions = FunctionSet::new();
        for number in 0..target.functions.len() {
            if self.others(number) == *others {
                functions.insert(number);
            }
        }
        functions
    }

    /// The finding that rivals change this function of the target too, and all others that the same rivals change. `None` if
    /// none does, or if the function is in `done`, to which those of the finding are added.
    #[tactic(auto, unfolding(klp_lint_findings::specs::Claims::IsTrue))]
    fn same(&self, target: &PlanTarget, function: usize, done: &mut FunctionSet) -> Option<Finding>
        ensures { IfSome result (IsTrue self.now.linted (standing self.now.manager.now)) }
    {
        let (patch, place) = (self.patch, self.place);
        let others = self.others(function);
        if others.as_slice().is_empty() || done.contains(function) {
            return None;
        }
        let functions = self.functions(target, &others);
        done.insert_all(&functions);
        let same = LoadFinding::SameFunctions {
            others,
            place,
            functions,
        };
        Some(Finding::Load(patch, same))
    }

    /// Adds the functions of the target that rivals change too. Functions that the same rivals change are one finding.
    fn find(&self, found: &mut Findings<'_>, target: &PlanTarget) -> Result<(), AllocError>
        ensures { IfOk result
            (λ done. Adds (IsTrue self.now.linted (standing self.now.manager.now)) found.old found.new) }
    {
        let mut done = FunctionSet::new();
        for number in 0..target.functions.len() {
            found.add_some(self.same(target, number, &mut done))?;
        }
        Ok(())
    }
}

/// Adds the functions that a patch and others change both, if neither is cumulative and both may be installed.
#[tactic(auto, using(klp_lint_findings::proofs::SayLemmas::adds_still))]
pub(crate) fn find_same_functions(
    found: &mut Findings<'_>,
    manager: &Manager,
    outcomes: &Outcomes,
    patch: PatchId,
) -> Result<(), AllocError>
    ensures { IfOk result (λ done. AddsTrue (standing manager.now) found.old found.new) }
{
    let linted = found.linted;
    let Some(own) = linted.patch(patch) else {
        return Ok(());
    };
    if own.replace {
        return Ok(());
    }
    let rivals = rivals_of(&linted, manager, outcomes, patch);
    for (place, target) in own.targets.iter().enumerate() {
        let compared = Compared {
            linted,
            manager,
            rivals: &rivals,
            patch,
            place,
        };
        compared.find(found, target)?;
    }
    Ok(())
}
