//! The header of a file, and where its section headers are.
ghost use Rattle.std.specs.Prelude.{◌≡◌, ◌≤◌, ◌+◌, ◌*◌, None, Some, length, nat_le, MatchResult};
ghost use Rattle.klp_elf.specs.Parts.{is_inside, part};
ghost use Rattle.klp_elf.specs.Faults.{header_fault};
ghost use Rattle.klp_elf.specs.Tables.{header_of};

use crate::fault::ElfFault;
use crate::number::{u16_at, u64_at};

/// The bytes of a header, which begins the file.
const HEADER: usize = 64;

/// What the header of a file says of its section headers.
#[derive(Clone, Copy)]
pub(crate) struct Header {
    /// Where they begin in the file.
    pub(crate) sections: u64,
    pub(crate) count: u16,
    /// The number of the section with the sections' names.
    pub(crate) names: u16,
}

/// Whether a part of a file, from an offset on, is inside of it.
pub(crate) fn is_inside(bytes: &[u8], offset: u64, size: u64) -> bool
    ensures { result ≡ is_inside offset size bytes.now }
{
    let length = bytes.len() as u64;
    size <= length && offset <= length - size
}

/// Returns a part of a file. Returns nothing if it isn't inside.
pub(crate) fn part(bytes: &[u8], offset: u64, size: u64) -> &[u8]
    ensures { result.now ≡ part offset size bytes.now }
{
    if is_inside(bytes, offset, size) {
        &bytes[offset as usize..(offset + size) as usize]
    } else {
        &[]
    }
}

/// Reads the header of a file. Returns as `Err` what is wrong with it.
pub(crate) fn header_in(bytes: &[u8]) -> Result<Header, ElfFault>
    ensures { MatchResult result
        (λ header. (header ≡ header_of bytes.now) × (header_fault bytes.now ≡ None))
        (λ fault. header_fault bytes.now ≡ Some fault) }
{
    if bytes.len() < HEADER || !bytes.starts_with(&[0x7f, b'E', b'L', b'F']) {
        return Err(ElfFault::NotElf);
    }
    if bytes[4] != 2 || bytes[5] != 1 {
        return Err(ElfFault::NotLittle64);
    }
    if u16_at(bytes, 18) != 62 {
        return Err(ElfFault::NotX86);
    }
    if u16_at(bytes, 16) != 1 {
        return Err(ElfFault::NotRelocatable);
    }
    if u16_at(bytes, 58) != 64 {
        return Err(ElfFault::HeaderSize);
    }
    let header = Header {
        sections: u64_at(bytes, 40),
        count: u16_at(bytes, 60),
        names: u16_at(bytes, 62),
    };
    if !is_inside(bytes, header.sections, 64 * header.count as u64) {
        return Err(ElfFault::HeadersOutside);
    }
    Ok(header)
}
