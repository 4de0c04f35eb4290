//! What of an image is loaded, and at which addresses.
use crate::fault::ImageFault;
use crate::number::{part, u16_at, u32_at, u64_at};
use std::alloc::Global;

/// How an ELF file begins.
const ELF: &[u8] = b"\x7fELF";

/// The bytes of the file's header, and of a program header.
const HEADER: usize = 64;

const ROW: usize = 56;

/// What makes a program header one of a segment that is loaded.
const LOADED: u32 = 1;

/// A part of the file that is loaded at an address.
#[derive(Clone, Copy)]
struct Segment {
    offset: usize,
    size: usize,
    address: u64,
}

/// An image, with what of it is loaded.
#[derive(Drop)]
pub(crate) struct Loaded<'a> {
    pub(crate) bytes: &'a [u8],
    segments: Vec<Segment>,
}

/// Returns what is wrong with the header of an image.
fn header_fault(bytes: &[u8]) -> Option<ImageFault> {
    if bytes.len() < HEADER || !bytes.starts_with(ELF) {
        return Some(ImageFault::NotElf);
    }
    if bytes[4] != 2 || bytes[5] != 1 {
        return Some(ImageFault::NotLittle64);
    }
    if u16_at(bytes, 18) != Some(62) {
        return Some(ImageFault::NotX86);
    }
    match u16_at(bytes, 16) {
        Some(2 | 3) if u16_at(bytes, 54) == Some(56) => None,
        _ => Some(ImageFault::NotLinked),
    }
}

/// Returns the segment of a program header, if it is loaded.
fn segment_in(row: &[u8]) -> Option<Segment> {
    if u32_at(row, 0)? != LOADED {
        return None;
    }
    Some(Segment {
        offset: u64_at(row, 8)? as usize,
        size: u64_at(row, 32)? as usize,
        address: u64_at(row, 16)?,
    })
}

fn bytes_of<'a>(bytes: &'a [u8], segment: &Segment) -> Option<&'a [u8]> {
    part(bytes, segment.offset, segment.size)
}

/// Returns the bytes of a segment from an address on. Returns `None` if it has none there.
fn bytes_from<'a>(bytes: &'a [u8], segment: &Segment, address: u64) -> Option<&'a [u8]> {
    let before = address.checked_sub(segment.address)? as usize;
    if segment.size <= before {
        return None;
    }
    bytes_of(bytes, segment)?.get(before..)
}

impl<'a> Loaded<'a> {
    /// Reads the headers of an image.
    pub(crate) fn of(alloc: Global, bytes: &'a [u8]) -> Result<Loaded<'a>, ImageFault> {
        if let Some(fault) = header_fault(bytes) {
            return Err(fault);
        }
        let first = u64_at(bytes, 32).unwrap_or(0) as usize;
        let count = u16_at(bytes, 56).unwrap_or(0);
        let mut segments = Vec::new(alloc);
        for number in 0..count {
            let at = first.saturating_add(ROW.saturating_mul(usize::from(number)));
            let Some(row) = part(bytes, at, ROW) else {
                return Err(ImageFault::HeaderOutside(number));
            };
            let Some(segment) = segment_in(row) else {
                continue;
            };
            if bytes_of(bytes, &segment).is_none() {
                return Err(ImageFault::SegmentOutside(number));
            }
            segments.push(segment)?;
        }
        Ok(Loaded { bytes, segments })
    }

    /// Returns the bytes that are loaded from an address on. Returns `None` if none are there.
    pub(crate) fn from_address(&self, address: u64) -> Option<&'a [u8]> {
        for segment in &self.segments {
            if let Some(bytes) = bytes_from(self.bytes, segment, address) {
                return Some(bytes);
            }
        }
        None
    }

    /// Returns the address at which a place of the file is loaded. Returns `None` if it isn't.
    pub(crate) fn address_of(&self, place: usize) -> Option<u64> {
        for segment in &self.segments {
            if let Some(before) = place.checked_sub(segment.offset)
                && before < segment.size
            {
                return Some(segment.address.wrapping_add(before as u64));
            }
        }
        None
    }
}
