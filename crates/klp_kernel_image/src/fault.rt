//! Why nothing is read from an image.
use std::alloc::{AllocError, AllocFailed};
use thiserror::Error;

/// The first fault of an image. Its parts are looked for in the order of these variants.
#[derive(Clone, Copy, Debug, Error)]
pub enum ImageFault {
    #[error("it has over 268435456 bytes")]
    TooLarge,
    #[error("it is compressed: unpack it by extract-vmlinux, which is among the scripts of the kernel's source")]
    Packed,
    #[error("it isn't an ELF file: wanted is a kernel's image, unpacked: vmlinux")]
    NotElf,
    #[error("it isn't a 64-bit little-endian ELF file")]
    NotLittle64,
    #[error("it isn't for x86-64")]
    NotX86,
    #[error("it isn't linked, as a kernel's image is: wanted is vmlinux")]
    NotLinked,
    /// The bytes of this program header, from 0, aren't all in the file.
    #[error("program header {0} ends behind the file: it is cut off")]
    HeaderOutside(u16),
    /// What this program header, from 0, has loaded isn't all in the file.
    #[error("what program header {0} loads ends behind the file: it is cut off")]
    SegmentOutside(u16),
    #[error("it has no names of symbols: wanted is the kernel's table of tokens, in which those of the ten digits stand in a row")]
    NoTokens,
    /// The tokens begin here in the file.
    #[error("offset {0}: before this table of tokens the names of symbols are wanted, with their number and the place of each 256th one")]
    NoNames(usize),
    /// The symbol of this number, from 0, has no letter or no name.
    #[error("symbol {0}: a letter and a name are wanted")]
    NoName(usize),
    #[error("symbol {0}: its name has over 511 bytes")]
    LongName(usize),
    /// A symbol is wanted that each kernel has which can be patched.
    #[error("it has no symbol {0}, which each kernel has that can be patched")]
    NoSymbol(&'static str),
    /// The tokens begin here in the file.
    #[error("offset {0}: beside this table of tokens the symbols' addresses are wanted, in a form by which linux_banner is at 'Linux version'")]
    NoAddresses(usize),
    #[error("the list of entry sites, from {start:x} to {stop:x}, isn't all in it")]
    SitesOutside { start: u64, stop: u64 },
    #[error("memory ran out")]
    NoMemory,
}

impl From<AllocError> for ImageFault {
    fn from(_: AllocError) -> ImageFault {
        ImageFault::NoMemory
    }
}

impl<T: Drop> From<AllocFailed<T>> for ImageFault {
    fn from(_: AllocFailed<T>) -> ImageFault {
        ImageFault::NoMemory
    }
}
