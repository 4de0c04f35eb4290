//! Reads the words of a catalog's line, each by the rule of its kind. A word is checked before it is copied. So after
//! the check, the only possible fault is a lack of memory.

ghost use Rattle.std.specs.Prelude.{◌≡◌, Some, None, Ok, Err, option_copied};
ghost use Rattle.klp_words.specs.Words.{spelling_of};
ghost use Rattle.klp_catalog_text.specs.Gives.{Gives};
ghost use Rattle.klp_catalog_text.specs.Words.{name_of, symbol_name_of, body_of, symbol_of};

use crate::fault::TextFaultKind;
use crate::items::{Name, NameWord};
use hex::FromHexError;
use klp_words::{Spelling, is_name, is_symbol_name, spelling_of, text};
use std::alloc::Global;

/// Reads the name of an object, a patch or a new function. The name may not have a `.`, because a `.` ends the object's
/// name in the spelling of a symbol.
pub(crate) fn name_word(word: &[u8]) -> Result<NameWord<'_>, TextFaultKind>
    ensures { result ≡ name_of word.now }
{
    if !is_name(word) {
        return Err(TextFaultKind::BadName);
    }
    Ok(NameWord(text(word)))
}

/// Copies the name of an object, a patch or a new function.
pub(crate) fn name(alloc: Global, word: &[u8]) -> Result<Name, TextFaultKind>
    ensures { Gives (λ n. n) result (name_of word.now) }
{
    let NameWord(name) = name_word(word)?;
    Ok(Name(String::from_str(alloc, name)?))
}

/// Reads the name of a symbol. The name may have a `.` and a `$`, as names from compilers do (`f.constprop.0`). The
/// name may not have a comma, since a comma separates a symbol from its position.
pub(crate) fn symbol_name(alloc: Global, word: &[u8]) -> Result<Name, TextFaultKind>
    ensures { Gives (λ n. n) result (symbol_name_of word.now) }
{
    if !is_symbol_name(word) {
        return Err(TextFaultKind::BadName);
    }
    Ok(Name(String::from_str(alloc, text(word))?))
}

/// Reads the bytes of a symbol from hexadecimal digits. An odd number of digits is a `BadHex`. A body that is too long
/// is reported when the line is added to the plan. A body that is too short is reported when the image is made
/// (docs/DECISIONS.md, "Bodies of odd or great length").
pub(crate) fn body(alloc: Global, word: &[u8]) -> Result<Vec<u8>, TextFaultKind>
    ensures { Gives (λ b. b.items) result (body_of word.now) }
{
    match hex::decode(alloc, word) {
        Ok(body) => Ok(body),
        Err(FromHexError::OutOfMemory) => Err(TextFaultKind::NoMemory),
        Err(_) => Err(TextFaultKind::BadHex),
    }
}

/// Reads the symbol of a `func` line. If a target is open, the symbol must be in the target's object. The
/// spelling is a single word of the line, so each of its faults is reported as `BadSymbol` (docs/DECISIONS.md, "The
/// spelling of a symbol").
pub(crate) fn symbol<'a>(
    target: Option<&str>,
    word: &'a [u8],
) -> Result<Spelling<'a>, TextFaultKind>
    ensures { result ≡ symbol_of (option_copied target.entry) (spelling_of word.now) }
{
    let Some(spelling) = spelling_of(word) else {
        return Err(TextFaultKind::BadSymbol);
    };
    match target {
        Some(object) if spelling.object != object => Err(TextFaultKind::BadSymbol),
        _ => Ok(spelling),
    }
}
