//! Reads numbers in decimal and hexadecimal digits. The standard library also accepts a leading plus. The functions of
//! this module don't accept a plus.

ghost use Rattle.std.specs.Prelude.{◌≡◌, ◌||◌, ◌==◌, ◌^◌, if◌then◌else◌, Some, None};
ghost use Rattle.std.specs.Char.{is_ascii_digit, is_ascii_hexdigit, digit_value};
ghost use Rattle.std.specs.List.{list_all};
ghost use Rattle.klp_words.specs.Words.{decimal_of, hexadecimal_of, status_of};

use crate::spelling::text;
use klp_types::MAX_ADDRESS_DIGITS;

/// Whether the word has only digits and minus signs. This check excludes a plus, which the standard library would
/// accept.
fn has_only_digits_and_minus(word: &[u8]) -> bool
    ensures { result ≡ list_all (λ b. is_ascii_digit b || b == 45) word.now }
{
    word.iter().all(|b| b.is_ascii_digit() || *b == b'-')
}

/// Reads a decimal number of 32 bits. Only digits are allowed, including leading zeros. Returns `None` for any other
/// word.
pub fn number32(word: &[u8]) -> Option<u32>
    ensures { result ≡ decimal_of (2 ^ 32) word.now }
{
    u32::try_from(number64(word)?).ok()
}

/// Reads a decimal number less than 2 to the 64th. Only digits are allowed. Returns `None` for any other word. The
/// digits are read only once, since this function reads all numbers of catalogs and of the console.
pub fn number64(word: &[u8]) -> Option<u64>
    ensures { result ≡ decimal_of (2 ^ 64) word.now }
{
    if word.is_empty() {
        return None;
    }
    let mut number: u64 = 0;
    for byte in word {
        if !byte.is_ascii_digit() {
            return None;
        }
        number = number
            .checked_mul(10)?
            .checked_add(u64::from(*byte - b'0'))?;
    }
    Some(number)
}

/// Reads a number of 32 bits with a sign, which is written as digits, or as a minus and digits. Returns `None` for any
/// other word. A plus isn't allowed.
#[tactic(auto, using(crate::proofs::NumberLemmas::ascii_from_status))]
pub fn signed(word: &[u8]) -> Option<i32>
    ensures { result ≡ status_of word.now }
{
    if !has_only_digits_and_minus(word) {
        return None;
    }
    text(word).parse::<i32>().ok()
}

/// Returns the value of a hexadecimal digit, in either case. Returns `None` for any other byte. There are three ranges
/// of digits, which begin at `0`, `a` and `A`. For each range, the byte's wrapped distance from the beginning is
/// compared once with the length of the range.
fn hexadecimal_digit(byte: u8) -> Option<u8>
    ensures { result ≡ (if is_ascii_hexdigit byte then Some (digit_value byte) else None) }
{
    let decimal = byte.wrapping_sub(b'0');
    let lower = byte.wrapping_sub(b'a');
    let upper = byte.wrapping_sub(b'A');
    if decimal < 10 {
        Some(decimal)
    } else if lower < 6 {
        Some(lower + 10)
    } else if upper < 6 {
        Some(upper + 10)
    } else {
        None
    }
}

/// Reads a number of 1 to 16 hexadecimal digits, in either case, as an address is written. Returns `None` for any other
/// word. The number of digits is checked first, so the number can't overflow.
pub fn hexadecimal(word: &[u8]) -> Option<u64>
    ensures { result ≡ hexadecimal_of word.now }
{
    if word.is_empty() || word.len() > MAX_ADDRESS_DIGITS {
        return None;
    }
    let mut number: u64 = 0;
    for byte in word {
        number = number * 16 + u64::from(hexadecimal_digit(*byte)?);
    }
    Some(number)
}
