//! Parts of an image, and numbers in it: the lowest byte first.
use byteorder::{ByteOrder, LittleEndian};

/// Returns so many bytes from a place on. Returns `None` if they aren't all there.
pub(crate) fn part(bytes: &[u8], at: usize, size: usize) -> Option<&[u8]> {
    let rest = bytes.get(at..)?;
    rest.get(..size)
}

pub(crate) fn u16_at(bytes: &[u8], at: usize) -> Option<u16> {
    let number = part(bytes, at, 2)?;
    if number.len() < 2 {
        return None;
    }
    Some(LittleEndian::read_u16(number))
}

pub(crate) fn u32_at(bytes: &[u8], at: usize) -> Option<u32> {
    let number = part(bytes, at, 4)?;
    if number.len() < 4 {
        return None;
    }
    Some(LittleEndian::read_u32(number))
}

pub(crate) fn u64_at(bytes: &[u8], at: usize) -> Option<u64> {
    let number = part(bytes, at, 8)?;
    if number.len() < 8 {
        return None;
    }
    Some(LittleEndian::read_u64(number))
}

/// At which places the tables of an image begin, since Linux has had no base of addresses, and before.
#[derive(Clone, Copy)]
pub(crate) enum Alignment {
    Four,
    Eight,
}

impl Alignment {
    /// Returns the number of which each of these places is a multiple.
    pub(crate) fn width(self) -> usize {
        match self {
            Alignment::Four => 4,
            Alignment::Eight => 8,
        }
    }

    /// Returns the first such place from this one on.
    pub(crate) fn next(self, at: usize) -> usize {
        match self {
            Alignment::Four => at.saturating_add(3) & !3,
            Alignment::Eight => at.saturating_add(7) & !7,
        }
    }
}
