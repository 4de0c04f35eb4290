//! Searches bytes, sixteen bytes at a time.

ghost use Rattle.std.specs.Prelude.{◌≡◌, map, not};
ghost use Rattle.std.specs.Char.{is_ascii};
ghost use Rattle.std.specs.List.{list_all, position_or_len};
ghost use Rattle.std.specs.Simd.Lanes.{mask_l};
ghost use Rattle.klp_words.specs.Split.{is_either};

use std::simd::prelude::*;

/// How many bytes are examined together.
const LANES: usize = 16;

/// Returns a mask of the lanes that have one of the two bytes. The first lane is the lowest bit.
#[inline(always)]
fn lanes_with(lanes: u8x16, one: u8, other: u8) -> u64
    ensures { result ≡ mask_l (map (is_either one other) lanes) }
{
    (lanes.simd_eq(u8x16::splat(one)) | lanes.simd_eq(u8x16::splat(other))).to_bitmask()
}

/// Returns the index of the first byte that is `one` or `other`, or the length if there is none.
pub(crate) fn first_of(bytes: &[u8], one: u8, other: u8) -> usize
    ensures { result ≡ position_or_len (is_either one other) bytes.now }
{
    let mut at = 0;
    while bytes.len() - at >= LANES {
        let found = lanes_with(u8x16::from_slice(&bytes[at..]), one, other);
        if found != 0 {
            return at + found.trailing_zeros() as usize;
        }
        at += LANES;
    }
    // The remaining bytes are too few to fill all lanes.
    let mut last = at;
    while last < bytes.len() && bytes[last] != one && bytes[last] != other {
        last += 1;
    }
    last
}

/// Returns a mask of the lanes that aren't ASCII.
#[inline(always)]
fn lanes_beyond_ascii(lanes: u8x16) -> u64
    ensures { result ≡ mask_l (map (λ b. not (is_ascii b)) lanes) }
{
    lanes.simd_ge(u8x16::splat(0x80)).to_bitmask()
}

/// Whether the bytes are ASCII, tested one by one. The function is used for the last bytes, if they don't fill all
/// lanes.
fn are_each_ascii(bytes: &[u8]) -> bool
    ensures { result ≡ list_all is_ascii bytes.now }
{
    bytes.iter().all(u8::is_ascii)
}

/// Whether all bytes are ASCII.
pub fn is_ascii(bytes: &[u8]) -> bool
    ensures { result ≡ list_all is_ascii bytes.now }
{
    let mut at = 0;
    while bytes.len() - at >= LANES {
        if lanes_beyond_ascii(u8x16::from_slice(&bytes[at..])) != 0 {
            return false;
        }
        at += LANES;
    }
    are_each_ascii(&bytes[at..])
}
