//! The faults of a file, as the text that follows the name of the fault.

use crate::unpicked::Unpicked;
use klp_messages::{Escaped, Quoted};
use std::fmt;

/// The names of a symbol and of its object.
#[derive(Clone, Copy)]
pub struct NamedSymbol<'a> {
    pub symbol: &'a str,
    pub object: &'a str,
}

/// Two functions of a patch that are for one site.
#[derive(Clone, Copy)]
pub struct SitePair<'a> {
    pub patch: &'a str,
    pub first: &'a str,
    pub second: &'a str,
    pub site: NamedSymbol<'a>,
}

/// What is wrong. A text that says what is wanted begins with its verb.
#[derive(Clone, Copy)]
pub enum Wrong<'a> {
    /// Something is missing. The text says what is wanted.
    Lacking(&'static str),
    /// This word, or this whole line, is wrong. The text says what is wanted in its place.
    Word(&'a [u8], &'static str),
    /// This word spells a symbol, but picks no symbol, for this reason.
    Unpicked(&'a [u8], Unpicked<'a>),
    /// This line doesn't have the form that it should have. The text is the form.
    Form(&'a [u8], &'static str),
    /// This word or line is one too many. The number is how many are allowed, and the text is the name of what is
    /// counted.
    Most(&'a [u8], usize, &'static str),
    Symbol(NamedSymbol<'a>, &'static str),
    SharedAddress(NamedSymbol<'a>, NamedSymbol<'a>),
    /// The first object isn't the kernel, since it has this name.
    First(&'a str),
    SameSite(SitePair<'a>),
    /// A log of klpcap is in the place of a catalog.
    Log,
    /// The two files are swapped. The file with this name is the one that is wanted in this place.
    Swapped(&'a str),
}

/// Writes a symbol as `SYMBOL of OBJECT`.
impl<'a> fmt::Display for NamedSymbol<'a> {
    fn fmt<W: fmt::Write>(&self, f: &mut fmt::Formatter<W>) -> fmt::Result {
        write!(f, "{} of {}", self.symbol, self.object)
    }
}

/// Writes that two functions of a patch are for one site.
impl<'a> fmt::Display for SitePair<'a> {
    fn fmt<W: fmt::Write>(&self, f: &mut fmt::Formatter<W>) -> fmt::Result {
        let SitePair {
            patch,
            first,
            second,
            site,
        } = *self;
        write!(
            f,
            "{first} and {second} of patch {patch} are both for {site}"
        )
    }
}

/// Writes what is wrong and what is wanted in its place, as the text that follows the name of a fault or `hint: `.
impl<'a> fmt::Display for Wrong<'a> {
    fn fmt<W: fmt::Write>(&self, f: &mut fmt::Formatter<W>) -> fmt::Result {
        match *self {
            Wrong::Lacking(wanted) => write!(f, "wanted {wanted}"),
            Wrong::Word(word, wanted) => write!(f, "{}: wanted {wanted}", Quoted(word)),
            Wrong::Unpicked(word, unpicked) => write!(f, "{}: {unpicked}", Quoted(word)),
            Wrong::Form(line, form) => write!(f, "{}: wanted is {form}", Quoted(line)),
            Wrong::Most(word, most, what) => {
                write!(f, "{}: wanted are {most} {what} at most", Quoted(word))
            }
            Wrong::Symbol(named, wanted) => write!(f, "symbol {named}: wanted {wanted}"),
            Wrong::SharedAddress(named, other) => {
                write!(f, "symbol {named} shares an address with {other}")
            }
            Wrong::First(name) => write!(f, "the first object is {name}: wanted is vmlinux"),
            Wrong::SameSite(pair) => write!(f, "{pair}"),
            Wrong::Log => f.write_str(
                "wanted is a catalog, and this is a log of klpcap, which klpsee takes: klpsee LOG",
            ),
            Wrong::Swapped(name) => write!(
                f,
                "wanted is a catalog, which {} is: are the two swapped?",
                Escaped(name.as_bytes())
            ),
        }
    }
}
