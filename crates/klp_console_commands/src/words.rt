//! The words of a line, and the values that a word has without a look-up of names.

ghost use Rattle.std.specs.Prelude.{◌≡◌, ℕ, ◌≤◌, true, false, List, ◌∷◌, [], length, drop, nat_eq, bytes_eq, Ok, Err};
ghost use Rattle.std.specs.Prelude.{IfOk, MatchOption, MatchResult};
ghost use Rattle.std.specs.List.{starts_with};
ghost use Rattle.klp_console_commands.specs.Words.{is_console_name, only_word, only_name, two_words, number_of};
ghost use Rattle.klp_console_commands.specs.Words.{value_of, number_to};

use crate::fault::LineFault;
use klp_types::ShadowValue;
use klp_words::{LineWords, number64, shadow_value};

/// Returns the next word. A line with too few words matches no form, so the result is `BadLine` if there is no word.
pub(crate) fn word<'a>(words: &mut LineWords<'a>) -> Result<&'a [u8], LineFault>
    ensures { MatchResult result (λ word. words.old ≡ word.now ∷ words.new)
        (λ fault. (fault ≡ LineFault.BadLine) × (words.old ≡ [])) }
{
    words.next().ok_or(LineFault::BadLine)
}

/// Checks that no word is left. A line with too many words matches no form, so the result is `BadLine` if a word is
/// left.
pub(crate) fn end(words: &mut LineWords<'_>) -> Result<(), LineFault>
    ensures { MatchResult result (λ _. words.old ≡ [])
        (λ fault. (fault ≡ LineFault.BadLine) × (word : List ℕ) × (rest : List (List ℕ)) × (words.old ≡ word ∷ rest)) }
{
    match words.next() {
        None => Ok(()),
        Some(_) => Err(LineFault::BadLine),
    }
}

/// Returns the remaining word if there is exactly one. Otherwise returns `BadLine`.
pub(crate) fn only_word<'a>(words: &mut LineWords<'a>) -> Result<&'a [u8], LineFault>
    ensures { MatchResult result (λ word. only_word words.old ≡ Ok word.now)
        (λ fault. only_word words.old ≡ Err fault) }
{
    let (Some(word), None) = (words.next(), words.next()) else {
        return Err(LineFault::BadLine);
    };
    Ok(word)
}

/// Returns the remaining word if there is exactly one, and it may name a patch or an object. Otherwise returns
/// `BadLine`.
pub(crate) fn only_name<'a>(words: &mut LineWords<'a>) -> Result<&'a [u8], LineFault>
    ensures { MatchResult result (λ word. only_name words.old ≡ Ok word.now)
        (λ fault. only_name words.old ≡ Err fault) }
{
    let word = only_word(words)?;
    if is_console_name(word) {
        Ok(word)
    } else {
        Err(LineFault::BadLine)
    }
}

/// Returns the remaining words if there are exactly two. Otherwise returns `BadLine`.
pub(crate) fn two_words<'a>(words: &mut LineWords<'a>) -> Result<(&'a [u8], &'a [u8]), LineFault>
    ensures { MatchResult result (λ found. two_words words.old ≡ Ok (found.0.now, found.1.now))
        (λ fault. two_words words.old ≡ Err fault) }
{
    let (Some(first), Some(second), None) = (words.next(), words.next(), words.next()) else {
        return Err(LineFault::BadLine);
    };
    Ok((first, second))
}

/// Whether the two words have the same bytes. The lengths are compared first, so most different words cost no call.
pub(crate) fn is_word(word: &[u8], other: &[u8]) -> bool
    ensures { result ≡ bytes_eq word.now other.now }
{
    word.len() == other.len() && word == other
}

/// Whether the word may name a patch or an object. It may if it isn't empty and has neither `/` nor `:`, since `/` and
/// `:` separate names. The name needn't exist.
pub(crate) fn is_console_name(word: &[u8]) -> bool
    ensures { result ≡ is_console_name word.now }
{
    !word.is_empty() && word.iter().all(|b| *b != b'/' && *b != b':')
}

/// Returns the rest of the word behind this prefix. The rest may be empty. Returns `None` if the word doesn't begin
/// with the prefix.
pub(crate) fn after_prefix<'a>(word: &'a [u8], prefix: &[u8]) -> Option<&'a [u8]>
    ensures { MatchOption result (starts_with nat_eq word.now prefix.now ≡ false)
        (λ rest. (starts_with nat_eq word.now prefix.now ≡ true) × (rest.now ≡ drop (length prefix.now) word.now)) }
{
    word.strip_prefix(prefix)
}

/// Returns the decimal number of 64 bits that the word spells, as in a catalog's text. Returns `BadLine` if the word
/// spells no such number.
pub(crate) fn number(word: &[u8]) -> Result<u64, LineFault>
    ensures { result ≡ number_of word.now }
{
    number64(word).ok_or(LineFault::BadLine)
}

/// Returns the value of a shadow variable that the word spells, as in a catalog's text. Returns `BadLine` if the word
/// spells no value, or a value of too many bytes.
pub(crate) fn value(word: &[u8]) -> Result<ShadowValue, LineFault>
    ensures { result ≡ value_of word.now }
{
    shadow_value(word).ok_or(LineFault::BadLine)
}

/// Returns the decimal number that the word spells. A number above `most` doesn't fit into an event. Returns `BadLine`
/// for such a number, or if the word spells no number.
pub(crate) fn number_to(most: u64, word: &[u8]) -> Result<u64, LineFault>
    ensures number { result ≡ number_to most word.now }
    ensures limit { IfOk result (λ number. number ≤ most) }
{
    let number = number(word)?;
    if number <= most {
        Ok(number)
    } else {
        Err(LineFault::BadLine)
    }
}
