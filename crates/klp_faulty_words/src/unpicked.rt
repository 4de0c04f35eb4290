//! A name and a position that pick no symbol. They pick no symbol if no symbol has the name, if several have it and the
//! position is 0, or if fewer symbols have it than the position says.

use crate::catalog_fault::first_words;
use crate::near::nearer;
use klp_messages::{Escaped, Quoted};
use klp_words::{Spelling, spelling_of};
use std::fmt;

/// The object that is always loaded.
const KERNEL: &[u8] = b"vmlinux";

/// Why a spelling picks no symbol.
#[derive(Clone, Copy)]
pub enum WhyUnpicked<'a> {
    /// The catalog has no object of this name. If the catalog has an object with a similar name, the value is that
    /// name.
    NoObject(Option<&'a [u8]>),
    /// The object has no symbol of this name. If the object has a symbol with a similar name, the value is that name.
    NoSymbol(Option<&'a [u8]>),
    /// The object has this many symbols of the name, and the spelling doesn't say which.
    Several(usize),
    /// The object has only this many symbols of the name, which is fewer than the position says.
    Fewer(usize),
}

/// The object and the symbol of a spelling that picks no symbol. Also has the reason why it picks none.
#[derive(Clone, Copy)]
pub struct Unpicked<'a> {
    object: &'a str,
    symbol: &'a str,
    pub why: WhyUnpicked<'a>,
}

/// A function of a catalog whose symbol can't be picked, and the line of the function.
#[derive(Clone, Copy)]
pub struct Unloadable<'a> {
    pub line: usize,
    word: &'a [u8],
    patch: &'a [u8],
    unpicked: Unpicked<'a>,
}

/// The result of a search of a catalog's lines for the object and the symbol that a spelling names.
#[derive(Clone, Copy)]
struct FoundSymbol<'a> {
    has_object: bool,
    /// How many symbols of the object have the name.
    count: usize,
    near_object: Option<&'a [u8]>,
    near_symbol: Option<&'a [u8]>,
}

/// Writes `, but` and a name that is spelled similarly to the wanted one. Writes nothing if there is no such name.
fn write_similar<W: fmt::Write>(f: &mut fmt::Formatter<W>, near: Option<&[u8]>) -> fmt::Result {
    match near {
        Some(name) => write!(f, ", but {}", Escaped(name)),
        None => Ok(()),
    }
}

/// Writes what is wanted in place of a spelling that picks no symbol, and why it picks none.
impl<'a> fmt::Display for Unpicked<'a> {
    fn fmt<W: fmt::Write>(&self, f: &mut fmt::Formatter<W>) -> fmt::Result {
        let (object, symbol) = (self.object, self.symbol);
        match self.why {
            WhyUnpicked::NoObject(near) => {
                write!(
                    f,
                    "wanted is an object of the catalog, which has no {object}"
                )?;
                write_similar(f, near)
            }
            WhyUnpicked::NoSymbol(near) => {
                write!(f, "wanted is a symbol of {object}, which has no {symbol}")?;
                write_similar(f, near)
            }
            WhyUnpicked::Several(count) => write!(
                f,
                "wanted is a position from 1 to {count}: {object} has {count} symbols {symbol}"
            ),
            WhyUnpicked::Fewer(1) => write!(
                f,
                "wanted is position 0 or 1: {object} has one symbol {symbol}"
            ),
            WhyUnpicked::Fewer(count) => write!(
                f,
                "wanted is a position up to {count}: {object} has {count} symbols {symbol}"
            ),
        }
    }
}

/// Writes the function's symbol, why it can't be picked, and what the console refuses because of that.
impl<'a> fmt::Display for Unloadable<'a> {
    fn fmt<W: fmt::Write>(&self, f: &mut fmt::Formatter<W>) -> fmt::Result {
        let (patch, object) = (Escaped(self.patch), self.unpicked.object);
        write!(
            f,
            "{}: {}; else load {patch}",
            Quoted(self.word),
            self.unpicked
        )?;
        if object.as_bytes() != KERNEL {
            write!(f, " or insmod {object}")?;
        }
        write!(f, " is refused (NoSymbol)")
    }
}

/// Searches a catalog's text for the object and the symbols that this spelling names, and for similar names. All
/// objects and symbols precede the first patch, so only the lines before the first patch are searched.
fn found_in<'a>(catalog: &'a [u8], wanted: &Spelling<'_>) -> FoundSymbol<'a> {
    let (object, symbol) = (wanted.object.as_bytes(), wanted.symbol.as_bytes());
    let mut found = FoundSymbol {
        has_object: false,
        count: 0,
        near_object: None,
        near_symbol: None,
    };
    let mut is_in_object = false;
    for line in catalog.split(|b| *b == b'\n') {
        let (first, name) = first_words(line);
        if first == b"patch".as_slice() {
            break;
        } else if first == b"object".as_slice() {
            is_in_object = name == object;
            found.has_object = found.has_object || is_in_object;
            found.near_object = nearer(found.near_object, name, object);
        } else if first == b"symbol".as_slice() && is_in_object {
            found.count = found.count.saturating_add(usize::from(name == symbol));
            found.near_symbol = nearer(found.near_symbol, name, symbol);
        }
    }
    found
}

/// Returns why a word that spells a symbol picks no symbol of this catalog, with the object and the symbol that it
/// names. Returns `None` if the word picks a symbol, or isn't a symbol's spelling.
pub(crate) fn unpicked_by<'a>(catalog: &'a [u8], word: &'a [u8]) -> Option<Unpicked<'a>> {
    let wanted = spelling_of(word)?;
    let found = found_in(catalog, &wanted);
    let why = match (found.count, wanted.sympos as usize) {
        _ if !found.has_object => WhyUnpicked::NoObject(found.near_object),
        (0, _) => WhyUnpicked::NoSymbol(found.near_symbol),
        (1, 0) => return None,
        (count, 0) => WhyUnpicked::Several(count),
        (count, position) if position > count => WhyUnpicked::Fewer(count),
        _ => return None,
    };
    Some(Unpicked {
        object: wanted.object,
        symbol: wanted.symbol,
        why,
    })
}

/// Whether a line of a script or trace, which has this text, loads the patch.
fn is_loaded(text: &[u8], patch: &[u8]) -> bool {
    text.split(|b| *b == b'\n')
        .any(|line| first_words(line) == (b"load".as_slice(), patch))
}

/// Whether a hint is given about a function of `patch` that picks no symbol. A hint is given if the object has no such
/// symbol, or fewer than the position says. If the object has several symbols of the name, a hint is given only if
/// `second`, the text of the script or trace, loads the patch. If the object is missing, no hint is given.
fn gets_hint(unpicked: &Unpicked<'_>, patch: &[u8], second: &[u8]) -> bool {
    match unpicked.why {
        WhyUnpicked::NoSymbol(_) | WhyUnpicked::Fewer(_) => true,
        WhyUnpicked::Several(_) => is_loaded(second, patch),
        WhyUnpicked::NoObject(_) => false,
    }
}

/// Returns the first function of a catalog that picks no symbol, and about which a hint is given. `second` is the text
/// of the script or trace. Returns `None` if there is no such function.
pub fn first_unloadable<'a>(catalog: &'a [u8], second: &[u8]) -> Option<Unloadable<'a>> {
    let mut patch: &[u8] = &[];
    for (number, line) in catalog.split(|b| *b == b'\n').enumerate() {
        let (first, word) = first_words(line);
        if first == b"patch".as_slice() {
            patch = word;
        } else if first == b"func".as_slice() {
            if let Some(unpicked) = unpicked_by(catalog, word) {
                if gets_hint(&unpicked, patch, second) {
                    return Some(Unloadable {
                        line: number.saturating_add(1),
                        word,
                        patch,
                        unpicked,
                    });
                }
            }
        }
    }
    None
}
