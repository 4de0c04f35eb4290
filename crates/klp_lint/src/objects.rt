//! The premises for the objects of a patch. Only loaded objects count, and only those before the first object whose
//! pre-patch refuses.
ghost use Rattle.std.specs.Prelude.{◌≡◌, ℕ, ◌+◌, ◌^◌, ◌<◌, ◌≤◌, true, [], ◌∷◌, length, MatchOption, OnOk};
ghost use Rattle.klp_types.specs.Callbacks.{script_for, is_refusing};
ghost use Rattle.klp_types.specs.Setting.{PatchObject};
ghost use Rattle.klp_model.specs.Company.{object_touches, AreApart};
ghost use Rattle.klp_catalog.specs.Catalog.{patch_object};
ghost use Rattle.klp_lint.specs.Scripts.{one_edit_touches};
ghost use Rattle.klp_lint.specs.Undone.{EachRestores, IsLeft};
ghost use Rattle.klp_lint.specs.Acting.{acting};
ghost use Rattle.klp_lint.specs.Premises.{AreApartFrom, OneOf, TwoTouch};

use crate::edits::{common_to, edits_of, script_for};
use crate::premise::Left;
use crate::undone::left_by;
use crate::variables::Variables;
use klp_catalog_text::{PlanCallback, PlanTarget};
use klp_modules::Modules;
use klp_types::{Edit, ShadowKey, Which};

/// A loaded object, before any object whose pre-patch refuses. The fields are its index in the patch, its target, and
/// the targets after it.
#[derive(Clone, Copy)]
struct Acting<'a> {
    place: usize,
    target: &'a PlanTarget,
    behind: &'a [PlanTarget],
}

fn refuses(callbacks: &[PlanCallback]) -> bool
    ensures { result ≡ is_refusing (script_for Which.Pre callbacks.now) }
{
    match script_for(Which::Pre, callbacks) {
        Some(script) => script.status != 0,
        None => false,
    }
}

/// Returns the first loaded object among these targets. Returns `None` if no target is loaded, or if the first loaded
/// object's pre-patch refuses.
fn next_acting<'a>(modules: &Modules, place: usize, targets: &'a [PlanTarget]) -> Option<Acting<'a>>
    requires { place + length targets.now < 2 ^ 64 }
    ensures { MatchOption result (acting modules.now place targets.now ≡ [])
        (λ next. (acting modules.now place targets.now
        ≡ (next.place, patch_object modules.now.names next.target.now)
        ∷ acting modules.now (next.place + 1) next.behind.now)
        × (next.place + 1 + length next.behind.now ≤ place + length targets.now)
        × (length next.behind.now < length targets.now)) }
{
    let [target, behind @ ..] = targets else {
        return None;
    };
    if !modules.is_loaded(target.object) {
        return next_acting(modules, place + 1, behind);
    }
    if refuses(&target.callbacks) {
        return None;
    }
    Some(Acting {
        place,
        target,
        behind,
    })
}

/// Returns the first object whose callbacks leave something changed, with that change. Returns `None` if there is no
/// such object.
pub(crate) fn first_left<V: Variables>(
    variables: &V,
    modules: &Modules,
    place: usize,
    targets: &[PlanTarget],
) -> Option<(usize, Left)>
    requires { place + length targets.now < 2 ^ 64 }
    ensures { MatchOption result (EachRestores (V.values variables.now) (acting modules.now place targets.now))
        (λ found. OneOf (λ (o : ℕ × PatchObject). (o.0 ≡ found.0)
        × IsLeft (V.values variables.now) o.1.callbacks found.1)
        (acting modules.now place targets.now)) }
{
    let next = next_acting(modules, place, targets)?;
    let target = next.target;
    match left_by(variables, &target.callbacks) {
        Some(left) => Some((next.place, left)),
        None => first_left(variables, modules, next.place + 1, next.behind),
    }
}

/// Returns the first of these objects whose callbacks touch a variable that these edits touch, with that variable.
/// Returns `None` if there is no such object.
fn first_touched(
    edits: &[Edit],
    modules: &Modules,
    place: usize,
    targets: &[PlanTarget],
) -> Option<(usize, ShadowKey)>
    requires { place + length targets.now < 2 ^ 64 }
    ensures { MatchOption result (AreApartFrom edits.now (acting modules.now place targets.now))
        (λ found. (one_edit_touches edits.now found.1 ≡ true)
        × OneOf (λ (o : ℕ × PatchObject). (o.0 ≡ found.0) × (object_touches found.1 o ≡ true))
        (acting modules.now place targets.now)) }
{
    let next = next_acting(modules, place, targets)?;
    match common_to(edits, &edits_of(next.target)) {
        Some(key) => Some((next.place, key)),
        None => first_touched(edits, modules, next.place + 1, next.behind),
    }
}

/// Returns the first two objects whose callbacks touch a common variable, with that variable. Returns `None` if there
/// are no such objects.
pub(crate) fn first_common(
    modules: &Modules,
    place: usize,
    targets: &[PlanTarget],
) -> Option<(usize, usize, ShadowKey)>
    requires { place + length targets.now < 2 ^ 64 }
    ensures { MatchOption result (AreApart (acting modules.now place targets.now))
        (λ found. TwoTouch found.0 found.1 found.2 (acting modules.now place targets.now)) }
{
    let next = next_acting(modules, place, targets)?;
    let edits = edits_of(next.target);
    match first_touched(&edits, modules, next.place + 1, next.behind) {
        Some((second, key)) => Some((next.place, second, key)),
        None => first_common(modules, next.place + 1, next.behind),
    }
}
