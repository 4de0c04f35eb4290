//! The types of BTF, one behind the other.
use crate::fault::BtfFault;
use crate::number::{number_at, part};

/// The bytes of a header, and what begins it.
const HEADER: usize = 24;

const MAGIC: [u8; 2] = [0x9f, 0xeb];

const VERSION: u8 = 1;

/// The bytes with which each type begins, and those of a field.
const TYPE: usize = 12;

pub(crate) const FIELD: usize = 12;

/// The kind of a struct.
const STRUCT: u32 = 4;

/// The types and the names of BTF.
#[derive(Clone, Copy)]
pub(crate) struct Btf<'b> {
    pub(crate) types: &'b [u8],
    pub(crate) names: &'b [u8],
    /// Where the types begin.
    pub(crate) begin: usize,
}

/// A type, without what belongs to its kind.
#[derive(Clone, Copy)]
pub(crate) struct Type {
    /// Where its name begins in the names.
    pub(crate) name: usize,
    pub(crate) kind: u32,
    /// How many rows it has behind its first bytes.
    pub(crate) count: u16,
    /// Whether a field's offset stands beside its width.
    pub(crate) has_widths: bool,
    /// The bytes of a struct.
    pub(crate) size: u32,
}

impl Type {
    pub(crate) fn is_struct(&self) -> bool {
        self.kind == STRUCT
    }
}

/// Returns the part of some bytes that a header names at a place: where it begins, counted from the header's end, and its
/// bytes.
fn named_part(bytes: &[u8], header: usize, at: usize) -> Option<Part<'_>> {
    let offset = number_at(bytes, at)?;
    let size = number_at(bytes, at.saturating_add(4))?;
    let begin = header.checked_add(offset as usize)?;
    let bytes = part(bytes, begin, size as usize)?;
    Some(Part { begin, bytes })
}

/// A part of some bytes, and where it begins.
#[derive(Clone, Copy)]
struct Part<'b> {
    begin: usize,
    bytes: &'b [u8],
}

/// Reads the header of BTF. Returns as `Err` what is wrong with it.
pub(crate) fn btf_in(bytes: &[u8]) -> Result<Btf<'_>, BtfFault> {
    if bytes.len() < HEADER || !bytes.starts_with(&MAGIC) {
        return Err(BtfFault::NotBtf);
    }
    if bytes[2] != VERSION {
        return Err(BtfFault::Version(bytes[2]));
    }
    let header = number_at(bytes, 4).unwrap_or(0) as usize;
    let Some(types) = named_part(bytes, header, 8) else {
        return Err(BtfFault::TypesOutside);
    };
    match named_part(bytes, header, 16) {
        Some(names) => Ok(Btf {
            types: types.bytes,
            names: names.bytes,
            begin: types.begin,
        }),
        None => Err(BtfFault::NamesOutside),
    }
}

/// Reads the first bytes of a type.
fn type_in(rest: &[u8]) -> Option<Type> {
    let name = number_at(rest, 0)?;
    let info = number_at(rest, 4)?;
    let size = number_at(rest, 8)?;
    Some(Type {
        name: name as usize,
        kind: info / (1 << 24) % 32,
        count: (info % (1 << 16)) as u16,
        has_widths: info >= 1 << 31,
        size,
    })
}

/// Returns how many bytes stand behind the first ones of a type, if its kind is known.
fn more_bytes(kind: u32, count: u16) -> Option<usize> {
    let count = count as usize;
    match kind {
        // numbers, variables and tags
        1 | 14 | 17 => Some(4),
        // arrays
        3 => Some(12),
        // structs, unions, sections, and enums of 64 bits
        4 | 5 | 15 | 19 => Some(FIELD * count),
        // enums and functions' arguments
        6 | 13 => Some(8 * count),
        // pointers, names and others of which the first bytes say all
        2 | 7 | 8 | 9 | 10 | 11 | 12 | 16 | 18 => Some(0),
        _ => None,
    }
}

/// A type, the rows behind its first bytes, and what stands behind the type.
#[derive(Clone, Copy)]
pub(crate) struct Read<'b> {
    pub(crate) first: Type,
    pub(crate) rows: &'b [u8],
    pub(crate) rest: &'b [u8],
}

/// Reads the type that begins at this place.
pub(crate) fn next_type(place: usize, rest: &[u8]) -> Result<Read<'_>, BtfFault> {
    let Some(first) = type_in(rest) else {
        return Err(BtfFault::CutOff(place));
    };
    let Some(more) = more_bytes(first.kind, first.count) else {
        return Err(BtfFault::Kind {
            at: place,
            kind: first.kind,
        });
    };
    match (
        part(rest, TYPE, more),
        rest.get(TYPE.saturating_add(more)..),
    ) {
        (Some(rows), Some(rest)) => Ok(Read { first, rows, rest }),
        _ => Err(BtfFault::CutOff(place)),
    }
}
