//! Computes how edits change one shadow variable, and which variables they touch.
ghost use Rattle.std.specs.Prelude.{◌≡◌, ◌≤◌, true, [], ◌∷◌, length, option_map, MatchOption};
ghost use Rattle.klp_types.specs.declared.shadow.ShadowKey.{ShadowKey as AnyKey};
ghost use Rattle.klp_types.specs.Callbacks as kinds;
ghost use Rattle.klp_types.specs.Callbacks.{script_for};
ghost use Rattle.klp_types.specs.Script as scripts;
ghost use Rattle.klp_lint.specs.Scripts.{edits_for, all_edits, one_edit_touches};
ghost use Rattle.klp_lint.specs.Apart.{IsApartFrom, AreEditsApart, BothTouch};

use arrayvec::ArrayVec;
use klp_catalog_text::{PlanCallback, PlanTarget};
use klp_types::{Edit, MAX_EDITS, Script, ShadowKey, ShadowValue, Which};

/// How many edits all callbacks of an object can make.
pub(crate) const ALL_EDITS: usize = 64;

/// The edits that a script makes. If the script's status isn't 0, it makes no edit.
fn edits_made(script: &Script) -> &[Edit]
    ensures made { result.now ≡ scripts.edits_made script.now }
    ensures limit { length result.now ≤ MAX_EDITS }
{
    if script.status == 0 {
        &script.edits
    } else {
        &[]
    }
}

pub(crate) fn is_kind(own: Which, which: Which) -> bool
    ensures { result ≡ kinds.is_kind own which }
{
    own == which
}

/// The script of the callback of this kind. `None` if there is no such callback.
pub(crate) fn script_for(which: Which, callbacks: &[PlanCallback]) -> Option<&Script>
    ensures { option_map (λ script. script.now) result ≡ script_for which callbacks.now }
{
    let [callback, rest @ ..] = callbacks else {
        return None;
    };
    if is_kind(callback.which, which) {
        Some(&callback.script)
    } else {
        script_for(which, rest)
    }
}

/// The edits that the callback of this kind makes.
pub(crate) fn edits_for(which: Which, callbacks: &[PlanCallback]) -> &[Edit]
    ensures made { result.now ≡ edits_for which callbacks.now }
    ensures limit { length result.now ≤ MAX_EDITS }
{
    match script_for(which, callbacks) {
        Some(script) => edits_made(script),
        None => &[],
    }
}

/// The edits that all callbacks of an object make.
pub(crate) fn all_edits(callbacks: &[PlanCallback]) -> ArrayVec<Edit, ALL_EDITS>
    ensures { result.items ≡ all_edits callbacks.now }
{
    let mut edits = ArrayVec::new();
    let _ = edits.try_extend_from_slice(edits_for(Which::Pre, callbacks));
    let _ = edits.try_extend_from_slice(edits_for(Which::Post, callbacks));
    let _ = edits.try_extend_from_slice(edits_for(Which::PreUn, callbacks));
    let _ = edits.try_extend_from_slice(edits_for(Which::PostUn, callbacks));
    edits
}

/// The edits that all callbacks for a target make.
pub(crate) fn edits_of(target: &PlanTarget) -> ArrayVec<Edit, ALL_EDITS>
    ensures { result.items ≡ all_edits target.now.callbacks }
{
    all_edits(&target.callbacks)
}

fn is_key(own: ShadowKey, key: ShadowKey) -> bool
    ensures { result ≡ scripts.is_key own key }
{
    own.obj == key.obj && own.id == key.id
}

/// Returns the value that a variable has after an edit. `was` is the variable's value before the edit, or `None` if the
/// variable didn't exist.
fn edited_at(key: ShadowKey, was: Option<ShadowValue>, edit: &Edit) -> Option<ShadowValue>
    ensures { result ≡ scripts.edited_at key was edit.now }
{
    match *edit {
        Edit::Alloc(own, value) if is_key(own, key) => Some(was.unwrap_or(value)),
        Edit::Free(own) if is_key(own, key) => None,
        Edit::FreeAll(id) if id == key.id => None,
        _ => was,
    }
}

/// Returns the value that a variable has after these edits, one after another. `was` is the variable's value before the
/// edits, or `None` if the variable didn't exist.
pub(crate) fn made_of(
    key: ShadowKey,
    was: Option<ShadowValue>,
    edits: &[Edit],
) -> Option<ShadowValue>
    ensures { result ≡ scripts.made_of key was edits.now }
{
    let [edit, rest @ ..] = edits else {
        return was;
    };
    made_of(key, edited_at(key, was, edit), rest)
}

pub(crate) fn edit_touches(key: ShadowKey, edit: &Edit) -> bool
    ensures { result ≡ scripts.edit_touches key edit.now }
{
    match *edit {
        Edit::Alloc(own, _) | Edit::Free(own) => is_key(own, key),
        Edit::FreeAll(id) => id == key.id,
        Edit::SetData(_, _) | Edit::TakePrev(_) => false,
    }
}

/// Returns a variable that both edits touch, if there is one. If one of the edits names a variable, the result is this
/// variable. If both edits free an id, the result is a variable of that id. If the edits touch no common variable, the
/// result means nothing.
fn candidate(one: &Edit, other: &Edit) -> ShadowKey
    ensures { (key : AnyKey) → scripts.edit_touches key one.now ≡ true → scripts.edit_touches key other.now ≡ true
        → (scripts.edit_touches result one.now ≡ true) × (scripts.edit_touches result other.now ≡ true) }
{
    match (one, other) {
        (Edit::Alloc(key, _) | Edit::Free(key), _) => *key,
        (_, Edit::Alloc(key, _) | Edit::Free(key)) => *key,
        (Edit::FreeAll(id), _) => ShadowKey { obj: 0, id: *id },
        _ => ShadowKey::default(),
    }
}

/// Returns a variable that both edits touch. Returns `None` if there is no such variable.
fn common_key(one: &Edit, other: &Edit) -> Option<ShadowKey>
    ensures { MatchOption result (IsApartFrom one.now other.now)
        (λ key. (scripts.edit_touches key one.now ≡ true) × (scripts.edit_touches key other.now ≡ true)) }
{
    let key = candidate(one, other);
    if edit_touches(key, one) && edit_touches(key, other) {
        Some(key)
    } else {
        None
    }
}

/// Returns a variable that is touched by this edit and by one of the others. Returns `None` if there is no such
/// variable.
fn common_with(one: &Edit, others: &[Edit]) -> Option<ShadowKey>
    ensures { MatchOption result (AreEditsApart (one.now ∷ []) others.now)
        (λ key. (scripts.edit_touches key one.now ≡ true) × (one_edit_touches others.now key ≡ true)) }
{
    let [other, rest @ ..] = others else {
        return None;
    };
    match common_key(one, other) {
        Some(key) => Some(key),
        None => common_with(one, rest),
    }
}

/// Returns a variable that is touched by edits of both lists. Returns `None` if there is no such variable.
pub(crate) fn common_to(edits: &[Edit], others: &[Edit]) -> Option<ShadowKey>
    ensures { MatchOption result (AreEditsApart edits.now others.now) (λ key. BothTouch edits.now others.now key) }
{
    let [edit, rest @ ..] = edits else {
        return None;
    };
    match common_with(edit, others) {
        Some(key) => Some(key),
        None => common_to(rest, others),
    }
}
