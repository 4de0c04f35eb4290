//! Why there is no layout in some bytes.
use std::fmt;
use thiserror::Error;

/// A struct that a livepatch is made of.
#[derive(Clone, Copy, Debug)]
pub enum StructName {
    Patch,
    Object,
    Callbacks,
    Function,
    State,
}

impl StructName {
    /// Returns the name that it has in C.
    pub fn name(self) -> &'static str {
        match self {
            StructName::Patch => "klp_patch",
            StructName::Object => "klp_object",
            StructName::Callbacks => "klp_callbacks",
            StructName::Function => "klp_func",
            StructName::State => "klp_state",
        }
    }
}

impl fmt::Display for StructName {
    fn fmt<W: fmt::Write>(&self, f: &mut fmt::Formatter<W>) -> fmt::Result {
        f.write_str(self.name())
    }
}

/// A field of such a struct.
#[derive(Clone, Copy, Debug)]
pub struct FieldName {
    pub of: StructName,
    /// The name that it has in C.
    pub name: &'static str,
}

impl fmt::Display for FieldName {
    fn fmt<W: fmt::Write>(&self, f: &mut fmt::Formatter<W>) -> fmt::Result {
        write!(f, "{} of struct {}", self.name, self.of)
    }
}

/// Why there is no layout. Offsets are bytes from the beginning.
#[derive(Clone, Copy, Debug, Error)]
pub enum BtfFault {
    #[error("it isn't BTF: wanted is what /sys/kernel/btf/vmlinux has")]
    NotBtf,
    #[error("it is BTF of version {0}: version 1 is wanted")]
    Version(u8),
    #[error("its types end behind the file: it is cut off")]
    TypesOutside,
    #[error("its names end behind the file: it is cut off")]
    NamesOutside,
    #[error("offset {0}: a whole type is wanted")]
    CutOff(usize),
    #[error("offset {at}: a type is of kind {kind}: kinds 1 to 19 are wanted")]
    Kind { at: usize, kind: u32 },
    #[error("it has no struct {0}")]
    NoStruct(StructName),
    #[error("it has no field {0}: wanted are the structs of Linux 5.5 or later")]
    NoField(FieldName),
    #[error("the field {0} doesn't begin with a byte")]
    Bits(FieldName),
    #[error("its struct {0} has over 65535 bytes")]
    TooLarge(StructName),
}
