//! Times as a log writes them: seconds with up to six decimals.

ghost use Rattle.std.specs.Prelude.{◌≡◌};
ghost use Rattle.klp_words.specs.Seconds.{millionths_of, microseconds_of, seconds_of};

use crate::number::number64;
use crate::split::position_of;

/// How many decimals a second has if it is written in microseconds.
const DECIMALS: usize = 6;

/// Returns one to six decimals as millionths. Returns `None` if the number of decimals is wrong, or if a byte isn't a
/// digit.
fn millionths(decimals: &[u8]) -> Option<u64>
    ensures { result ≡ millionths_of decimals.now }
{
    if decimals.is_empty() || decimals.len() > DECIMALS {
        return None;
    }
    let mut digits = [b'0'; DECIMALS];
    digits[..decimals.len()].copy_from_slice(decimals);
    number64(&digits)
}

/// Returns a time in microseconds, as the sum of seconds and millionths of a second. Returns `None` if the sum doesn't
/// fit in 64 bits.
fn added(seconds: u64, millionths: u64) -> Option<u64>
    ensures { result ≡ microseconds_of seconds millionths }
{
    seconds.checked_mul(1_000_000)?.checked_add(millionths)
}

/// Reads a time as a log writes it, and returns the time in microseconds. The word is a number of seconds: only digits,
/// or digits, a point and one to six decimals. Returns `None` for any other word, or if the time doesn't fit in 64
/// bits.
pub fn microseconds(word: &[u8]) -> Option<u64>
    ensures { result ≡ seconds_of word.now }
{
    match position_of(word, b'.') {
        None => added(number64(word)?, 0),
        Some(point) => added(number64(&word[..point])?, millionths(&word[point + 1..])?),
    }
}
