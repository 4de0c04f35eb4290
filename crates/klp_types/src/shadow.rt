ghost use Rattle.std.specs.Prelude.{◌≡◌, ◌≤◌, nat_le, length, replicate, if◌then◌else◌, Some, None, IsTrue, ◌↔◌};
ghost use Rattle.klp_types.specs.Padded.{padded};
ghost use Rattle.klp_types.specs.Finds.{Finds};
ghost use Rattle.std.specs.Int.{w64, to_le_bytes};
ghost use Rattle.klp_types.specs.World.{number_of};

use crate::limits::MAX_VALUE_BYTES;
use std::marker::Model;

/// The key of a shadow variable: the number of its parent object, and its id (shadow-vars, Brief summary). Keys are
/// ordered by the parent object, then by the id.
#[derive(Clone, Copy, Default, PartialEq, Eq, PartialOrd, Ord)]
pub struct ShadowKey {
    pub obj: u64,
    pub id: u64,
}

/// The value of a shadow variable: 0 to 64 bytes. In a kernel the value may be any data. Scripts only copy it
/// (shadow-vars, Brief summary). Most values are the eight bytes of a number, lowest byte first, as on x86-64.
#[derive(Clone, Copy, Debug, PartialEq, Eq)]
pub struct ShadowValue {
    bytes: [u8; MAX_VALUE_BYTES],
    count: u8,
}

impl Model for ShadowValue {
    ghost use Rattle.std.specs.Prelude.{ℕ, List, take, length};
    ghost use Rattle.klp_types.specs.declared.limits.TheConstants.{MAX_VALUE_BYTES};
    ghost use Rattle.klp_types.specs.Padded.{padded, IsPadded, is_padded};

    ghost Value = { List ℕ };

    ghost view = { λ v. take v.count v.bytes };

    ghost inverse = { λ bytes. record { bytes = padded MAX_VALUE_BYTES 0 bytes; count = length bytes } };

    ghost invariant = { λ v. IsPadded MAX_VALUE_BYTES 0 v.bytes v.count };

    ghost inverse_ok = { λ v h i. record { bytes = is_padded MAX_VALUE_BYTES 0 v.bytes v.count h i; count = h.0 i } };
}

impl ShadowValue {
    /// Returns a value of these bytes. Returns `None` if there are more than [`MAX_VALUE_BYTES`] bytes. The unused
    /// bytes are 0, so that equal values are equal in every byte.
    pub fn new(bytes: &[u8]) -> Option<Self>
        ensures { result ≡ (if nat_le (length bytes.now) MAX_VALUE_BYTES then Some bytes.now else None) }
    {
        if bytes.len() > MAX_VALUE_BYTES {
            return None;
        }
        let mut padded = [0; MAX_VALUE_BYTES];
        padded[..bytes.len()].copy_from_slice(bytes);
        Some(Self {
            bytes: padded,
            count: bytes.len() as u8,
        })
    }

    /// Returns a number as a value: its eight bytes, the lowest first.
    pub fn of(number: u64) -> Self
        ensures { result ≡ to_le_bytes w64 number }
    {
        let mut padded = [0; MAX_VALUE_BYTES];
        padded[..8].copy_from_slice(&number.to_le_bytes());
        Self {
            bytes: padded,
            count: 8,
        }
    }

    /// Returns the bytes of the value, without the unused ones.
    pub fn bytes(&self) -> &[u8]
        ensures { result.now ≡ self.now }
    {
        let bytes: &[u8] = &self.bytes;
        &bytes[..self.count as usize]
    }

    /// Returns how many bytes the value has.
    pub fn count(&self) -> usize
        ensures value { result ≡ length self.now }
        ensures limit { result ≤ MAX_VALUE_BYTES }
    {
        usize::from(self.count)
    }

    /// Returns the bytes of the value, followed by zeros up to the length of the longest value.
    pub fn padded(&self) -> &[u8]
        ensures { result.now ≡ padded MAX_VALUE_BYTES 0 self.now }
    {
        &self.bytes
    }

    /// Returns a value of the first `count` bytes. Returns `None` if a byte after the first `count` isn't 0.
    pub fn unpadded(bytes: [u8; MAX_VALUE_BYTES], count: u8) -> Option<Self>
        requires { count ≤ MAX_VALUE_BYTES }
        ensures { Finds (λ value. (length value ≡ count) × (padded MAX_VALUE_BYTES 0 value ≡ bytes)) result }
    {
        if are_zeros(&bytes[count as usize..]) {
            Some(Self { bytes, count })
        } else {
            None
        }
    }

    /// Returns the number that the value's eight bytes make, the lowest first. Returns `None` if the value doesn't have
    /// eight bytes.
    pub fn number(&self) -> Option<u64>
        ensures { result ≡ number_of self.now }
    {
        if self.count != 8 {
            return None;
        }
        match <[u8; 8]>::try_from(self.bytes()) {
            Ok(bytes) => Some(u64::from_le_bytes(bytes)),
            Err(_) => None,
        }
    }
}

/// Whether all bytes are 0.
fn are_zeros(bytes: &[u8]) -> bool
    ensures { IsTrue result ↔ (bytes.now ≡ replicate (length bytes.now) 0) }
{
    for byte in bytes {
        if *byte != 0 {
            return false;
        }
    }
    true
}
