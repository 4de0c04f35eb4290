//! Reads values of shadow variables. Catalogs and the console spell such values in the same way.

ghost use Rattle.std.specs.Prelude.{◌≡◌};
ghost use Rattle.klp_words.specs.Words.{spelled_bytes, shadow_value_of};

use crate::number::number64;
use klp_types::{MAX_VALUE_BYTES, ShadowValue};

/// Reads bytes, each from two hexadecimal digits in either case. Returns `None` if a digit is wrong or missing, or if
/// there are too many digits. The number of digits is checked first, so that the bytes fit.
#[tactic(auto, using(crate::proofs::ValueLemmas::too_many_digits))]
fn spelled_bytes(digits: &[u8]) -> Option<ShadowValue>
    ensures { result ≡ spelled_bytes digits.now }
{
    let count = digits.len() / 2;
    if count > MAX_VALUE_BYTES {
        return None;
    }
    let mut bytes = [0; MAX_VALUE_BYTES];
    hex::decode_to_slice(digits, &mut bytes[..count]).ok()?;
    ShadowValue::new(&bytes[..count])
}

/// Reads the value of a shadow variable. A decimal number means its eight bytes. An `x` is followed by the digits of 0
/// to 64 bytes. Returns `None` for any other word. No number begins with an `x`, so no word has both meanings.
pub fn shadow_value(word: &[u8]) -> Option<ShadowValue>
    ensures { result ≡ shadow_value_of word.now }
{
    match word.strip_prefix(b"x".as_slice()) {
        Some(digits) => spelled_bytes(digits),
        None => Some(ShadowValue::of(number64(word)?)),
    }
}
