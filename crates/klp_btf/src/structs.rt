//! The structs of a livepatch, among all types.
use crate::fault::{BtfFault, StructName};
use crate::number::has_text;
use crate::types::{Btf, Read, btf_in, next_type};

/// The structs of a livepatch.
const NAMES: [StructName; 5] = [
    StructName::Patch,
    StructName::Object,
    StructName::Callbacks,
    StructName::Function,
    StructName::State,
];

/// A struct.
#[derive(Clone, Copy)]
pub(crate) struct Struct<'b> {
    pub(crate) name: StructName,
    pub(crate) size: u16,
    /// The rows of its fields.
    pub(crate) fields: &'b [u8],
    /// Whether a field's offset stands beside its width.
    pub(crate) has_widths: bool,
}

/// The first struct of each name.
#[derive(Clone, Copy)]
pub(crate) struct Structs<'b> {
    pub(crate) names: &'b [u8],
    patch: Option<Struct<'b>>,
    object: Option<Struct<'b>>,
    callbacks: Option<Struct<'b>>,
    function: Option<Struct<'b>>,
    state: Option<Struct<'b>>,
}

/// Returns which struct of a livepatch has the name that begins at a place.
fn struct_name(names: &[u8], at: usize) -> Option<StructName> {
    for name in NAMES {
        if has_text(names, at, name.name()) {
            return Some(name);
        }
    }
    None
}

/// Returns the struct of a livepatch that a type is, if it is one.
fn struct_of<'b>(names: &[u8], read: &Read<'b>) -> Result<Option<Struct<'b>>, BtfFault> {
    if !read.first.is_struct() {
        return Ok(None);
    }
    let Some(name) = struct_name(names, read.first.name) else {
        return Ok(None);
    };
    match u16::try_from(read.first.size) {
        Ok(size) => Ok(Some(Struct {
            name,
            size,
            fields: read.rows,
            has_widths: read.first.has_widths,
        })),
        Err(_) => Err(BtfFault::TooLarge(name)),
    }
}

/// Keeps a struct, unless one of its name was found before.
fn keep<'b>(kept: &mut Option<Struct<'b>>, found: Struct<'b>) {
    if kept.is_none() {
        *kept = Some(found);
    }
}

impl<'b> Structs<'b> {
    fn add(&mut self, found: Struct<'b>) {
        match found.name {
            StructName::Patch => keep(&mut self.patch, found),
            StructName::Object => keep(&mut self.object, found),
            StructName::Callbacks => keep(&mut self.callbacks, found),
            StructName::Function => keep(&mut self.function, found),
            StructName::State => keep(&mut self.state, found),
        }
    }

    /// Returns the struct of a name.
    pub(crate) fn named(&self, name: StructName) -> Result<Struct<'b>, BtfFault> {
        let found = match name {
            StructName::Patch => self.patch,
            StructName::Object => self.object,
            StructName::Callbacks => self.callbacks,
            StructName::Function => self.function,
            StructName::State => self.state,
        };
        match found {
            Some(found) => Ok(found),
            None => Err(BtfFault::NoStruct(name)),
        }
    }
}

/// Reads all types, and keeps the structs of a livepatch.
fn kept_of<'b>(btf: Btf<'b>) -> Result<Structs<'b>, BtfFault> {
    let mut structs = Structs {
        names: btf.names,
        patch: None,
        object: None,
        callbacks: None,
        function: None,
        state: None,
    };
    let (all, mut rest) = (btf.types.len(), btf.types);
    // Each type has some bytes, so there aren't more types than bytes.
    for _ in 0..all {
        if rest.is_empty() {
            break;
        }
        let place = btf.begin.saturating_add(all.saturating_sub(rest.len()));
        let read = next_type(place, rest)?;
        if let Some(found) = struct_of(btf.names, &read)? {
            structs.add(found);
        }
        rest = read.rest;
    }
    Ok(structs)
}

/// Returns the structs of a livepatch in some bytes.
pub(crate) fn structs_in(bytes: &[u8]) -> Result<Structs<'_>, BtfFault> {
    kept_of(btf_in(bytes)?)
}
