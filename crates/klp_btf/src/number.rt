//! Numbers and parts of some bytes.
use byteorder::{ByteOrder, LittleEndian};

/// Returns the number of four bytes at a place, if they are there.
pub(crate) fn number_at(bytes: &[u8], at: usize) -> Option<u32> {
    let rest = bytes.get(at..)?;
    if rest.len() < 4 {
        return None;
    }
    Some(LittleEndian::read_u32(rest))
}

/// Returns so many bytes from a place on, if they are there.
pub(crate) fn part(bytes: &[u8], at: usize, size: usize) -> Option<&[u8]> {
    bytes.get(at..)?.get(..size)
}

/// Whether a text begins at a place and a 0 ends it.
pub(crate) fn has_text(names: &[u8], at: usize, text: &str) -> bool {
    let Some(rest) = names.get(at..) else {
        return false;
    };
    rest.starts_with(text.as_bytes()) && matches!(rest.get(text.len()), Some(0))
}
