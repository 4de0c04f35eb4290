//! Reads the edits of a callback, and its script. Only the words of edits have parts.

ghost use Rattle.std.specs.Prelude.{◌≡◌, ℕ, ◌<◌, ◌≤◌, ◌==◌, List, [], ◌∷◌, length, MatchOption};
ghost use Rattle.klp_catalog_text.specs.Gives.{Gives};
ghost use Rattle.klp_catalog_text.specs.Edits.{parts_of, one_number, two_numbers, alloc_of, free_of, free_all_of};
ghost use Rattle.klp_catalog_text.specs.Edits.{set_of, take_prev_of, edit_of, edits_of, failure_of, script_of};

use crate::fault::TextFaultKind;
use crate::lines::is_word;
use arrayvec::ArrayVec;
use klp_types::{Edit, MAX_EDITS, Script, ShadowKey};
use klp_words::{LineWords, number64, position_of, shadow_value, signed};
use smallvec::SmallVec;
use std::alloc::Global;
use std::marker::Model;

/// The parts of an edit that are still to be read. Parts are separated by colons, since edits are separated by spaces.
#[derive(Drop)]
struct Fields<'a> {
    rest: &'a [u8],
    /// Whether the last part was read. An empty rest doesn't show this, since one empty part may still be left.
    is_over: bool,
}

impl<'a> Model for Fields<'a> {
    ghost use Rattle.std.specs.Prelude.{ℕ, List};
    ghost use Rattle.klp_catalog_text.specs.Edits.{parts_left};

    ghost Value = { List (List ℕ) };

    ghost view = { λ p. parts_left p.is_over p.rest.now };
}

impl<'a> Fields<'a> {
    fn new(word: &'a [u8]) -> Fields<'a>
        ensures { result ≡ parts_of word.now }
    {
        Fields {
            rest: word,
            is_over: false,
        }
    }

    /// Returns the next part. Returns `None` if no part is left.
    fn next(&mut self) -> Option<&'a [u8]>
        ensures { MatchOption result (self.old ≡ []) (λ part. self.old ≡ part.now ∷ self.new) }
    {
        if self.is_over {
            return None;
        }
        let Some(end) = position_of(self.rest, b':') else {
            self.is_over = true;
            return Some(self.rest);
        };
        let part = &self.rest[..end];
        self.rest = &self.rest[end + 1..];
        Some(part)
    }
}

/// Reads the rest of an edit, which must be one number. A fault names a whole word and not a part of it, so a number
/// out of range is a `BadEdit` and not a `BadNumber` (docs/DECISIONS.md, "Faults inside an edit").
fn one_number(parts: &mut Fields<'_>) -> Result<u64, TextFaultKind>
    ensures { result ≡ one_number parts.old }
{
    let (Some(part), None) = (parts.next(), parts.next()) else {
        return Err(TextFaultKind::BadEdit);
    };
    number64(part).ok_or(TextFaultKind::BadEdit)
}

/// Reads the rest of an edit, which must be two numbers.
fn two_numbers(parts: &mut Fields<'_>) -> Result<(u64, u64), TextFaultKind>
    ensures { result ≡ two_numbers parts.old }
{
    let (Some(first), Some(second), None) = (parts.next(), parts.next(), parts.next()) else {
        return Err(TextFaultKind::BadEdit);
    };
    let (Some(first), Some(second)) = (number64(first), number64(second)) else {
        return Err(TextFaultKind::BadEdit);
    };
    Ok((first, second))
}

/// Reads the parts of `alloc:OBJ:ID:VALUE` after the name `alloc`.
fn alloc_edit(parts: &mut Fields<'_>) -> Result<Edit, TextFaultKind>
    ensures { result ≡ alloc_of parts.old }
{
    let (Some(obj), Some(id), Some(value), None) = (
        parts.next(),
        parts.next(),
        parts.next(),
        parts.next(),
    ) else {
        return Err(TextFaultKind::BadEdit);
    };
    let (Some(obj), Some(id), Some(value)) = (number64(obj), number64(id), shadow_value(value))
    else {
        return Err(TextFaultKind::BadEdit);
    };
    Ok(Edit::Alloc(ShadowKey { obj, id }, value))
}

/// Reads the parts of `free:OBJ:ID` after the name `free`.
#[tactic(auto, using(crate::proofs::EditLemmas::free_by))]
fn free_edit(parts: &mut Fields<'_>) -> Result<Edit, TextFaultKind>
    ensures { result ≡ free_of parts.old }
{
    let (obj, id) = two_numbers(parts)?;
    Ok(Edit::Free(ShadowKey { obj, id }))
}

/// Reads the part of `freeall:ID` after the name `freeall`.
#[tactic(auto, using(crate::proofs::EditLemmas::free_all_by))]
fn free_all_edit(parts: &mut Fields<'_>) -> Result<Edit, TextFaultKind>
    ensures { result ≡ free_all_of parts.old }
{
    Ok(Edit::FreeAll(one_number(parts)?))
}

/// Reads the parts of `set:STATE:VALUE` after the name `set`.
#[tactic(auto, using(crate::proofs::EditLemmas::set_by))]
fn set_data_edit(parts: &mut Fields<'_>) -> Result<Edit, TextFaultKind>
    ensures { result ≡ set_of parts.old }
{
    let (state, value) = two_numbers(parts)?;
    Ok(Edit::SetData(state, value))
}

/// Reads the part of `takeprev:STATE` after the name `takeprev`.
#[tactic(auto, using(crate::proofs::EditLemmas::take_prev_by))]
fn take_prev_edit(parts: &mut Fields<'_>) -> Result<Edit, TextFaultKind>
    ensures { result ≡ take_prev_of parts.old }
{
    Ok(Edit::TakePrev(one_number(parts)?))
}

/// Reads an edit: its name and its numbers. The number of parts is checked before any number is read. Every fault is a
/// `BadEdit`.
fn edit(word: &[u8]) -> Result<Edit, TextFaultKind>
    ensures { result ≡ edit_of word.now }
{
    let mut parts = Fields::new(word);
    let Some(name) = parts.next() else {
        return Err(TextFaultKind::BadEdit);
    };
    if is_word(name, b"alloc") {
        alloc_edit(&mut parts)
    } else if is_word(name, b"free") {
        free_edit(&mut parts)
    } else if is_word(name, b"freeall") {
        free_all_edit(&mut parts)
    } else if is_word(name, b"set") {
        set_data_edit(&mut parts)
    } else if is_word(name, b"takeprev") {
        take_prev_edit(&mut parts)
    } else {
        Err(TextFaultKind::BadEdit)
    }
}

/// How many edits a line can store without memory of its own. Most scripts that have edits have this many. If this
/// number were greater, every line would be larger, and so more costly to move.
const USUAL_EDITS: usize = 1;

/// The edits of a line. There may be more than a script may have.
type TextEdits = SmallVec<Edit, USUAL_EDITS>;

/// Reads each word as an edit. The result may have too many edits for a script. Too many edits are reported only after
/// the line's place is checked.
fn edits(alloc: Global, words: &mut LineWords<'_>) -> Result<TextEdits, TextFaultKind>
    ensures { Gives (λ e. e.items) result (edits_of words.old) }
{
    let mut edits = SmallVec::new(alloc);
    while let Some(word) = words.next() {
        edits.push(edit(word)?)?;
    }
    Ok(edits)
}

/// A script as its line has it. All words are checked before their number is. So the script may have too many edits
/// (docs/DECISIONS.md, "Scripts with too many edits").
#[derive(Drop)]
pub struct ScriptText {
    edits: TextEdits,
    status: i32,
}

impl Model for ScriptText {
    ghost use Rattle.klp_types.specs.Script.{Script};

    ghost Value = { Script };

    ghost view = { λ s. record { edits = s.edits.items; status = s.status } };
}

impl ScriptText {
    /// Returns the script. Returns `None` if it has too many edits. The call takes no memory, because a script's edits
    /// are an array.
    pub fn into_script(self) -> Option<Script>
        ensures { MatchOption result (MAX_EDITS < length self.edits)
            (λ script. (length self.edits ≤ MAX_EDITS) × (script ≡ self)) }
    {
        let mut edits = ArrayVec::new();
        edits.try_extend_from_slice(&self.edits).ok()?;
        Some(Script {
            edits,
            status: self.status,
        })
    }
}

/// Makes the script of a callback that fails. A callback that refuses makes no edits, so no words may follow the
/// status.
fn failure(
    alloc: Global,
    status: i32,
    words: &mut LineWords<'_>,
) -> Result<ScriptText, TextFaultKind>
    ensures { Gives (λ s. s) result (failure_of status words.old) }
{
    if words.next().is_some() {
        return Err(TextFaultKind::WrongCount);
    }
    Ok(ScriptText {
        edits: SmallVec::new(alloc),
        status,
    })
}

/// Reads the script of a callback: a status, and edits if the status is 0.
pub(crate) fn script(alloc: Global, words: &mut LineWords<'_>) -> Result<ScriptText, TextFaultKind>
    ensures { Gives (λ s. s) result (script_of words.old) }
{
    let Some(word) = words.next() else {
        return Err(TextFaultKind::WrongCount);
    };
    let Some(status) = signed(word) else {
        return Err(TextFaultKind::BadNumber);
    };
    // If the status isn't 0, every further word is one too many (docs/DECISIONS.md, "Edits behind a status").
    if status != 0 {
        return failure(alloc, status, words);
    }
    Ok(ScriptText {
        edits: edits(alloc, words)?,
        status,
    })
}
