//! Which words are names, and how a `func` line spells the symbol that a function replaces.

ghost use Rattle.std.specs.Prelude.{◌≡◌, true};
ghost use Rattle.std.specs.List.{list_all};
ghost use Rattle.std.specs.Str.{IsAscii};
ghost use Rattle.klp_words.specs.Words.{is_name_byte, is_symbol_byte, is_name, is_symbol_name, spelling_of_parts};
ghost use Rattle.klp_words.specs.Words.{spelling_behind_prefix, spelling_of};

use crate::number::number32;
use crate::split::cut;
use klp_types::{MAX_NAME, MAX_SYMBOL_NAME};
use std::marker::Model;
use std::str;

/// The prefix of a symbol's spelling (livepatch module ELF format, livepatch symbols).
const SYMBOL_PREFIX: &[u8] = b".klp.sym.";

/// A table of the bytes that a name may have. The element at the index of such a byte is the byte itself. Every other
/// element is a comma, which no name may have.
static NAME_BYTES: [u8; 256] = *b"\
    ,,,,,,,,,,,,,,,,,,,,,,,,,,,,,,,,\
    ,,,,,,,,,,,,,-,,0123456789,,,,,,\
    ,ABCDEFGHIJKLMNOPQRSTUVWXYZ,,,,_\
    ,abcdefghijklmnopqrstuvwxyz,,,,,\
    ,,,,,,,,,,,,,,,,,,,,,,,,,,,,,,,,\
    ,,,,,,,,,,,,,,,,,,,,,,,,,,,,,,,,\
    ,,,,,,,,,,,,,,,,,,,,,,,,,,,,,,,,\
    ,,,,,,,,,,,,,,,,,,,,,,,,,,,,,,,,";

/// The table of the bytes that the name of a symbol may have.
static SYMBOL_BYTES: [u8; 256] = *b"\
    ,,,,,,,,,,,,,,,,,,,,,,,,,,,,,,,,\
    ,,,,$,,,,,,,,,.,0123456789,,,,,,\
    ,ABCDEFGHIJKLMNOPQRSTUVWXYZ,,,,_\
    ,abcdefghijklmnopqrstuvwxyz,,,,,\
    ,,,,,,,,,,,,,,,,,,,,,,,,,,,,,,,,\
    ,,,,,,,,,,,,,,,,,,,,,,,,,,,,,,,,\
    ,,,,,,,,,,,,,,,,,,,,,,,,,,,,,,,,\
    ,,,,,,,,,,,,,,,,,,,,,,,,,,,,,,,,";

/// Whether a name may have this byte.
fn is_name_byte(byte: u8) -> bool
    ensures { result ≡ is_name_byte byte }
{
    NAME_BYTES[byte as usize] != b','
}

/// Whether the name of a symbol may have this byte.
fn is_symbol_byte(byte: u8) -> bool
    ensures { result ≡ is_symbol_byte byte }
{
    SYMBOL_BYTES[byte as usize] != b','
}

/// Whether each of the bytes is one that a name may have.
fn has_only_name_bytes(word: &[u8]) -> bool
    ensures { result ≡ list_all is_name_byte word.now }
{
    word.iter().all(|b| is_name_byte(*b))
}

/// Whether each of the bytes is one that the name of a symbol may have.
fn has_only_symbol_bytes(word: &[u8]) -> bool
    ensures { result ≡ list_all is_symbol_byte word.now }
{
    word.iter().all(|b| is_symbol_byte(*b))
}

/// Whether the word may name an object, a patch or a new function: 1 to 55 letters, digits, `_` and `-`. Such a
/// word is ASCII, so its bytes are its characters.
#[tactic(auto, using(crate::proofs::WordLemmas::length_tests, crate::proofs::WordLemmas::ascii_from_name))]
pub fn is_name(word: &[u8]) -> bool
    ensures value { result ≡ is_name word.now }
    ensures ascii { result ≡ true → IsAscii word.now }
{
    if word.is_empty() || word.len() > MAX_NAME {
        return false;
    }
    has_only_name_bytes(word)
}

/// Whether the word may name a symbol: 1 to 127 letters, digits, `_`, `.` and `$`, as compilers make them
/// (`f.constprop.0`). A comma isn't allowed, since it separates a symbol from its position.
#[tactic(auto, using(crate::proofs::WordLemmas::length_tests, crate::proofs::WordLemmas::ascii_from_symbol_name))]
pub fn is_symbol_name(word: &[u8]) -> bool
    ensures value { result ≡ is_symbol_name word.now }
    ensures ascii { result ≡ true → IsAscii word.now }
{
    if word.is_empty() || word.len() > MAX_SYMBOL_NAME {
        return false;
    }
    has_only_symbol_bytes(word)
}

/// Returns the word as text. The word must be ASCII. So the bytes aren't copied or checked again, and the call can't
/// fail.
pub fn text(word: &[u8]) -> &str
    requires { IsAscii word.now }
    ensures { result.now ≡ word.now }
{
    // The proof shows that ASCII is UTF-8.
    unsafe { str::from_utf8_unchecked(word) }
}

/// A symbol with its object and its position, as a `func` line spells it. Position n means the n-th symbol of that
/// name. Position 0 means the only symbol of that name.
#[derive(Drop)]
pub struct Spelling<'a> {
    pub object: &'a str,
    pub symbol: &'a str,
    pub sympos: u32,
}

impl<'a> Model for Spelling<'a> {
    ghost use Rattle.klp_words.specs.Words.{Spelling};

    ghost Value = { Spelling };

    ghost view = { λ s. record { object = s.object.now; symbol = s.symbol.now; sympos = s.sympos } };
}

/// Makes a spelling of an object, a symbol and a position. Returns `None` if one of these is wrong.
fn spelling_of_parts<'a>(
    object: &'a [u8],
    symbol: &'a [u8],
    position: &[u8],
) -> Option<Spelling<'a>>
    ensures { result ≡ spelling_of_parts object.now symbol.now position.now }
{
    if !is_name(object) || !is_symbol_name(symbol) {
        return None;
    }
    let sympos = number32(position)?;
    Some(Spelling {
        object: text(object),
        symbol: text(symbol),
        sympos,
    })
}

/// Reads `objname.symbol_name,sympos`.
fn spelling_behind_prefix(text: &[u8]) -> Option<Spelling<'_>>
    ensures { result ≡ spelling_behind_prefix text.now }
{
    let (object, rest) = cut(text, b'.');
    let (symbol, position) = cut(rest, b',');
    spelling_of_parts(object, symbol, position)
}

/// Reads a word of the form `.klp.sym.objname.symbol_name,sympos` (livepatch module ELF format, livepatch symbols).
/// Returns `None` for any other word. Nothing is copied: the parts are borrowed from the word.
pub fn spelling_of(word: &[u8]) -> Option<Spelling<'_>>
    ensures { result ≡ spelling_of word.now }
{
    let rest = word.strip_prefix(SYMBOL_PREFIX)?;
    spelling_behind_prefix(rest)
}
