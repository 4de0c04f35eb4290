//! Where the names of an image's symbols are. They are packed: each byte stands for a token.
use crate::fault::ImageFault;
use crate::number::{Alignment, part, u32_at};

/// How many symbols an image may have.
const MAX_SYMBOLS: usize = 1_000_000;

/// The place of each so many names is written down, in a table of markers.
const BLOCK: usize = 256;

/// How many bytes a packed name has at most, with its length.
const MAX_PACKED: usize = 514;

/// How far before the tokens the names may begin, in steps of four or eight bytes.
const MAX_STEPS: usize = 8 << 20;

/// Where the names are in the file.
#[derive(Clone, Copy)]
pub(crate) struct Names {
    pub(crate) alignment: Alignment,
    /// Where their number stands.
    pub(crate) count_at: usize,
    pub(crate) count: usize,
}

/// A packed name, and where the next one begins.
#[derive(Clone, Copy)]
pub(crate) struct Packed<'a> {
    pub(crate) codes: &'a [u8],
    pub(crate) behind: usize,
}

impl Names {
    /// Where the first name begins.
    pub(crate) fn at(self) -> usize {
        self.count_at.saturating_add(self.alignment.width())
    }

    /// How many bytes a table takes that has so many for each name.
    pub(crate) fn table(self, width: usize) -> usize {
        self.alignment.next(self.count.saturating_mul(width))
    }
}

/// Returns the packed name at a place: its length, whose second byte is there if the first one is above 127, and so many
/// bytes. Returns `None` if they aren't there, or if it is empty.
pub(crate) fn packed_at(bytes: &[u8], at: usize) -> Option<Packed<'_>> {
    let first = bytes.get(at).copied()?;
    let low = usize::from(first & 127);
    let (length, from) = if first < 128 {
        (low, at.saturating_add(1))
    } else {
        let second = bytes.get(at.saturating_add(1)).copied()?;
        (low + 128 * usize::from(second), at.saturating_add(2))
    };
    if length == 0 {
        return None;
    }
    Some(Packed {
        codes: part(bytes, from, length)?,
        behind: from.saturating_add(length),
    })
}

/// Returns the marker of a block: how far behind the first name the block begins.
fn marker(bytes: &[u8], markers: usize, block: usize) -> Option<usize> {
    let marker = u32_at(bytes, markers.saturating_add(block.saturating_mul(4)))?;
    Some(marker as usize)
}

/// Whether markers may be those of some names, by the first and the last of them.
fn may_have_markers(bytes: &[u8], names: Names, markers: usize, blocks: usize) -> bool {
    let (Some(first), Some(last)) = (
        marker(bytes, markers, 0),
        marker(bytes, markers, blocks.saturating_sub(1)),
    ) else {
        return false;
    };
    let begin = names.at().saturating_add(last);
    first == 0 && begin < markers && markers.saturating_sub(begin) <= BLOCK * MAX_PACKED
}

/// Whether the names are there, each block where its marker says, and end where the markers begin.
fn are_names(bytes: &[u8], names: Names, markers: usize) -> bool {
    let mut at = names.at();
    for number in 0..names.count {
        let before = at.saturating_sub(names.at());
        if number % BLOCK == 0 && marker(bytes, markers, number / BLOCK) != Some(before) {
            return false;
        }
        match packed_at(bytes, at) {
            Some(packed) if packed.behind <= markers => at = packed.behind,
            _ => return false,
        }
    }
    names.alignment.next(at) == markers
}

/// Whether these are names whose markers end at a place.
fn end_at(bytes: &[u8], names: Names, end: usize) -> bool {
    let blocks = names.count.saturating_add(BLOCK - 1) / BLOCK;
    match end.checked_sub(names.alignment.next(blocks.saturating_mul(4))) {
        Some(markers) => {
            may_have_markers(bytes, names, markers, blocks) && are_names(bytes, names, markers)
        }
        None => false,
    }
}

/// Returns the names whose number stands at a place, if they are there. Between the markers and the tokens Linux 6.2 and 6.3
/// have three bytes for each name, by which names are sorted.
fn names_at(bytes: &[u8], count_at: usize, tokens: usize, alignment: Alignment) -> Option<Names> {
    let count = u32_at(bytes, count_at)? as usize;
    if count == 0 || MAX_SYMBOLS < count {
        return None;
    }
    let names = Names {
        alignment,
        count_at,
        count,
    };
    let sorted = tokens.saturating_sub(names.table(3));
    if end_at(bytes, names, tokens) || end_at(bytes, names, sorted) {
        Some(names)
    } else {
        None
    }
}

/// Finds the names, which stand before the tokens: their number, the names, and the markers.
pub(crate) fn names_before(
    bytes: &[u8],
    tokens: usize,
    alignment: Alignment,
) -> Result<Names, ImageFault> {
    let mut at = tokens;
    for _ in 0..MAX_STEPS {
        let Some(before) = at.checked_sub(alignment.width()) else {
            break;
        };
        at = before;
        if let Some(names) = names_at(bytes, at, tokens, alignment) {
            return Ok(names);
        }
    }
    Err(ImageFault::NoNames(tokens))
}
