//! Whether the callbacks of an object undo each other.
ghost use Rattle.std.specs.Prelude.{◌≡◌, ◌↔◌, IsTrue, MatchOption};
ghost use Rattle.klp_types.specs.declared.shadow.ShadowKey.{ShadowKey as AnyKey};
ghost use Rattle.klp_types.specs.declared.edit.Edit.TheVariants as AnyEdit;
ghost use Rattle.klp_lint.specs.Undone.{AreRestored, AreHarmless, IsHarmless, IsLeft, IsRestored, found_by};
ghost use Rattle.klp_lint.specs.Undone.{left_behind};

use crate::edits::{all_edits, edits_for, made_of};
use crate::premise::{Left, Pair};
use crate::variables::Variables;
use klp_catalog_text::PlanCallback;
use klp_types::{Edit, ShadowKey, ShadowValue, Which};

fn is_same(a: &Option<ShadowValue>, b: &Option<ShadowValue>) -> bool
    ensures { IsTrue result ↔ (a.now ≡ b.now) }
{
    match (a, b) {
        (None, None) => true,
        (Some(a), Some(b)) => a.bytes() == b.bytes(),
        _ => false,
    }
}

/// Returns the first pair of an object's callbacks that doesn't restore the variable `key`. Returns `None` if each pair
/// restores it. `was` is the variable's value before the callbacks.
pub(crate) fn first_unrestored(
    callbacks: &[PlanCallback],
    key: ShadowKey,
    was: Option<ShadowValue>,
) -> Option<Pair>
    ensures { MatchOption result (AreRestored callbacks.now key was)
        (λ pair. IsRestored pair callbacks.now key was → ⊥) }
{
    let there = made_of(key, was, edits_for(Which::Pre, callbacks));
    let end = made_of(key, there, edits_for(Which::PostUn, callbacks));
    if !is_same(&end, &was) {
        return Some(Pair::Pre);
    }
    let patched = made_of(key, there, edits_for(Which::Post, callbacks));
    let unpatched = made_of(key, patched, edits_for(Which::PreUn, callbacks));
    if !is_same(&unpatched, &there) {
        return Some(Pair::Post);
    }
    None
}

/// Returns the first variable of the id that a pair of an object's callbacks doesn't restore, with that pair. Freeing
/// the id doesn't change variables that don't exist. So only existing variables are checked.
fn left_of_id<V: Variables>(variables: &V, callbacks: &[PlanCallback], id: u64) -> Option<Left>
    ensures { MatchOption result (IsHarmless (V.values variables.now) callbacks.now (AnyEdit.FreeAll id))
        (λ left. IsLeft (V.values variables.now) callbacks.now left) }
{
    let mut next = variables.next_parent(id, None);
    while let Some(obj) = next {
        let key = ShadowKey { obj, id };
        if let Some(pair) = first_unrestored(callbacks, key, variables.get(key)) {
            return Some(Left { pair, key });
        }
        next = variables.next_parent(id, Some(obj));
    }
    None
}

/// Returns a variable that the edit touches and that a pair of its object's callbacks doesn't restore, with that pair.
/// Returns `None` if there is no such variable.
fn left_of<V: Variables>(variables: &V, callbacks: &[PlanCallback], edit: &Edit) -> Option<Left>
    ensures { MatchOption result (IsHarmless (V.values variables.now) callbacks.now edit.now)
        (λ left. IsLeft (V.values variables.now) callbacks.now left) }
{
    match *edit {
        Edit::Alloc(key, _) | Edit::Free(key) => {
            match first_unrestored(callbacks, key, variables.get(key)) {
                Some(pair) => Some(Left { pair, key }),
                None => None,
            }
        }
        Edit::FreeAll(id) => left_of_id(variables, callbacks, id),
        Edit::SetData(_, _) | Edit::TakePrev(_) => None,
    }
}

/// Returns the first result of `left_of` for these edits that isn't `None`. Returns `None` if there is no such result.
fn first_left<V: Variables>(
    variables: &V,
    callbacks: &[PlanCallback],
    edits: &[Edit],
) -> Option<Left>
    ensures { MatchOption result (AreHarmless (V.values variables.now) callbacks.now edits.now)
        (λ left. IsLeft (V.values variables.now) callbacks.now left) }
{
    let [edit, rest @ ..] = edits else {
        return None;
    };
    match left_of(variables, callbacks, edit) {
        Some(left) => Some(left),
        None => first_left(variables, callbacks, rest),
    }
}

/// Returns what an object's callbacks leave changed. Returns `None` if the callbacks restore every variable.
pub(crate) fn left_by<V: Variables>(variables: &V, callbacks: &[PlanCallback]) -> Option<Left>
    ensures { MatchOption result ((key : AnyKey) → AreRestored callbacks.now key (V.values variables.now key))
        (λ left. IsLeft (V.values variables.now) callbacks.now left) }
{
    klp_types::laws::keys_are_in_order();
    match first_left(variables, callbacks, &all_edits(callbacks)) {
        Some(left) => Some(left),
        None => None,
    }
}

/// Returns the value that a variable has before the first callback of a pair. Before pre-patch the value is `was`.
pub fn found_by(
    callbacks: &[PlanCallback],
    pair: Pair,
    key: ShadowKey,
    was: Option<ShadowValue>,
) -> Option<ShadowValue>
    ensures { result ≡ found_by pair callbacks.now key was }
{
    match pair {
        Pair::Pre => was,
        Pair::Post => made_of(key, was, edits_for(Which::Pre, callbacks)),
    }
}

/// Returns the value that a variable has after both callbacks of a pair. If this value is equal to the result of
/// `found_by`, the pair restores the variable.
pub fn left_behind(
    callbacks: &[PlanCallback],
    pair: Pair,
    key: ShadowKey,
    was: Option<ShadowValue>,
) -> Option<ShadowValue>
    ensures value { result ≡ left_behind pair callbacks.now key was }
    ensures restored { (IsRestored pair callbacks.now key was) ↔ (result ≡ found_by pair callbacks.now key was) }
{
    let there = made_of(key, was, edits_for(Which::Pre, callbacks));
    match pair {
        Pair::Pre => made_of(key, there, edits_for(Which::PostUn, callbacks)),
        Pair::Post => {
            let patched = made_of(key, there, edits_for(Which::Post, callbacks));
            made_of(key, patched, edits_for(Which::PreUn, callbacks))
        }
    }
}
