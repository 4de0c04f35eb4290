//! An image that was read.
use crate::addresses::{Addresses, BANNER, addresses_of};
use crate::fault::ImageFault;
use crate::loaded::Loaded;
use crate::names::names_before;
use crate::number::Alignment;
use crate::packed::is_packed;
use crate::rows::name_in;
use crate::sites::{Span, sites_in};
use crate::spelling::{Spelling, Spellings, spellings_of};
use crate::tokens::tokens_in;
use std::alloc::{AllocError, Global};

/// How many bytes an image may have.
pub const MAX_IMAGE: usize = 256 << 20;

/// The symbols by which an image is read.
const BANNER_NAME: &str = "linux_banner";

const SITES_START: &str = "__start_mcount_loc";

const SITES_STOP: &str = "__stop_mcount_loc";

/// The symbols between which functions are that only the kernel's boot needs.
const BOOT_START: &[u8] = b"_sinittext";

const BOOT_STOP: &[u8] = b"_einittext";

/// A symbol of an image. Its name stands in the text of all names.
#[derive(Clone, Copy)]
pub struct ImageSymbol {
    /// The kind of symbol, as `/proc/kallsyms` lists it.
    pub letter: u8,
    pub(crate) start: usize,
    pub(crate) length: usize,
    /// Where it is while the kernel isn't moved.
    pub address: u64,
}

/// What an image has.
#[derive(Drop)]
pub struct KernelImage<'a> {
    pub(crate) text: Vec<u8>,
    /// All symbols, in the order in which the kernel counts positions.
    pub symbols: Vec<ImageSymbol>,
    /// The addresses of entry sites, sorted.
    pub(crate) sites: Vec<u64>,
    /// The kernel's release.
    pub release: &'a [u8],
}

/// Returns the number of the first of these symbols that has a name.
fn number_of(text: &[u8], list: &[Spelling], name: &[u8]) -> Option<usize> {
    list.iter().position(|spelling| name_in(text, spelling.start, spelling.length) == name)
}

/// Returns the symbols with their addresses. Returns `None` if one has none.
fn symbols_of(
    alloc: Global,
    bytes: &[u8],
    list: &[Spelling],
    addresses: Addresses,
) -> Result<Option<Vec<ImageSymbol>>, AllocError> {
    let mut symbols = Vec::new(alloc);
    for (number, spelling) in list.iter().enumerate() {
        let Some(address) = addresses.address(bytes, number) else {
            return Ok(None);
        };
        symbols.push(ImageSymbol {
            letter: spelling.letter,
            start: spelling.start,
            length: spelling.length,
            address,
        })?;
    }
    Ok(Some(symbols))
}

/// Returns the address of the first symbol of a name.
fn address_of(text: &[u8], symbols: &[ImageSymbol], name: &[u8]) -> Option<u64> {
    let found = symbols.iter().find(|symbol| name_in(text, symbol.start, symbol.length) == name)?;
    Some(found.address)
}

/// Returns the address of a symbol that each kernel has which can be patched.
fn wanted_address(
    text: &[u8],
    symbols: &[ImageSymbol],
    name: &'static str,
) -> Result<u64, ImageFault> {
    match address_of(text, symbols, name.as_bytes()) {
        Some(address) => Ok(address),
        None => Err(ImageFault::NoSymbol(name)),
    }
}

/// Returns the release, which is the word behind the beginning of the banner at an address.
fn release_at<'a>(image: &Loaded<'a>, banner: u64) -> &'a [u8] {
    let text = image.from_address(banner).unwrap_or(&[]);
    let behind = text.get(BANNER.len()..).unwrap_or(&[]);
    behind
        .split(|b| *b == b' ' || *b == 0)
        .next()
        .unwrap_or(&[])
}

/// The symbols of an image, with the text of their names.
#[derive(Drop)]
struct Symbols {
    text: Vec<u8>,
    list: Vec<ImageSymbol>,
}

/// Reads the symbols of an image whose tables begin at such places.
fn symbols_by(
    alloc: Global,
    image: &Loaded<'_>,
    alignment: Alignment,
) -> Result<Symbols, ImageFault> {
    let tokens = match tokens_in(alloc, image.bytes, alignment) {
        Ok(tokens) => tokens,
        Err(fault) => return Err(fault),
    };
    let names = names_before(image.bytes, tokens.at, alignment)?;
    let Spellings { text, list } = spellings_of(alloc, image.bytes, &tokens.list, names)?;
    let Some(banner) = number_of(&text, &list, BANNER_NAME.as_bytes()) else {
        return Err(ImageFault::NoSymbol(BANNER_NAME));
    };
    let Some(addresses) = addresses_of(image, names, tokens.behind, banner) else {
        return Err(ImageFault::NoAddresses(tokens.at));
    };
    match symbols_of(alloc, image.bytes, &list, addresses)? {
        Some(symbols) => Ok(Symbols {
            text,
            list: symbols,
        }),
        None => Err(ImageFault::NoAddresses(tokens.at)),
    }
}

/// Reads the symbols of an image, at whichever places its tables begin.
fn symbols_in(alloc: Global, image: &Loaded<'_>) -> Result<Symbols, ImageFault> {
    let first = match symbols_by(alloc, image, Alignment::Eight) {
        Err(fault @ (ImageFault::NoTokens | ImageFault::NoNames(_))) => fault,
        symbols => return symbols,
    };
    match symbols_by(alloc, image, Alignment::Four) {
        Err(ImageFault::NoTokens) => Err(first),
        symbols => symbols,
    }
}

impl<'a> KernelImage<'a> {
    /// Reads an image. Returns as `Err` what is wrong with it, or that memory ran out. The cost is linear in the image, but for
    /// one that is made to look like several.
    pub fn read(alloc: Global, bytes: &'a [u8]) -> Result<KernelImage<'a>, ImageFault> {
        if MAX_IMAGE < bytes.len() {
            return Err(ImageFault::TooLarge);
        }
        if is_packed(bytes) {
            return Err(ImageFault::Packed);
        }
        let image = match Loaded::of(alloc, bytes) {
            Ok(image) => image,
            Err(fault) => return Err(fault),
        };
        let Symbols { text, list } = symbols_in(alloc, &image)?;
        let banner = wanted_address(&text, &list, BANNER_NAME)?;
        let sites = Span {
            start: wanted_address(&text, &list, SITES_START)?,
            stop: wanted_address(&text, &list, SITES_STOP)?,
        };
        let for_boot = Span {
            start: address_of(&text, &list, BOOT_START).unwrap_or(0),
            stop: address_of(&text, &list, BOOT_STOP).unwrap_or(0),
        };
        Ok(KernelImage {
            sites: sites_in(alloc, &image, sites, for_boot)?,
            release: release_at(&image, banner),
            text,
            symbols: list,
        })
    }
}
