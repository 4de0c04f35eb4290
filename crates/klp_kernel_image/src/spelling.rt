//! The names of an image's symbols, spelled by their tokens.
ghost use Rattle.std.specs.Prelude.{◌≡◌, ◌++◌, IfOk};
ghost use Rattle.klp_kernel_image.specs.Names.{spelled, token};

use crate::fault::ImageFault;
use crate::names::{Names, packed_at};
use crate::tokens::Token;
use std::alloc::{AllocError, Global};

/// How many bytes a name may have, without its letter (`KSYM_NAME_LEN`).
const MAX_NAME: usize = 511;

/// Where a name stands in the text of all names, and the letter that is spelled before it.
#[derive(Clone, Copy)]
pub(crate) struct Spelling {
    pub(crate) letter: u8,
    pub(crate) start: usize,
    pub(crate) length: usize,
}

/// All names, one behind the other, each with its letter.
#[derive(Drop)]
pub(crate) struct Spellings {
    pub(crate) text: Vec<u8>,
    pub(crate) list: Vec<Spelling>,
}

/// Returns the token for which a byte stands.
fn token<'a>(tokens: &[Token<'a>], code: u8) -> &'a [u8]
    ensures { result.now ≡ token tokens.now code }
{
    match tokens.get(usize::from(code)) {
        Some(token) => token.text,
        None => &[],
    }
}

/// Adds what the bytes of a packed name spell.
fn spell(text: &mut Vec<u8>, tokens: &[Token<'_>], codes: &[u8]) -> Result<(), AllocError>
    ensures { IfOk result (λ _. text.new.items ≡ text.old.items ++ spelled tokens.now codes.now) }
{
    for code in codes {
        text.extend_from_slice(token(tokens, *code))?;
    }
    Ok(())
}

/// Adds the name of the symbol with this number.
fn add_name(
    spellings: &mut Spellings,
    tokens: &[Token<'_>],
    codes: &[u8],
    number: usize,
) -> Result<(), ImageFault> {
    let begin = spellings.text.len();
    spell(&mut spellings.text, tokens, codes)?;
    let length = spellings.text.len().saturating_sub(begin).saturating_sub(1);
    if length == 0 {
        return Err(ImageFault::NoName(number));
    }
    if MAX_NAME < length {
        return Err(ImageFault::LongName(number));
    }
    spellings.list.push(Spelling {
        letter: spellings.text.get(begin).copied().unwrap_or(0),
        start: begin.saturating_add(1),
        length,
    })?;
    Ok(())
}

/// Spells all names, in the order of the symbols.
pub(crate) fn spellings_of(
    alloc: Global,
    bytes: &[u8],
    tokens: &[Token<'_>],
    names: Names,
) -> Result<Spellings, ImageFault> {
    let mut spellings = Spellings {
        text: Vec::new(alloc),
        list: Vec::new(alloc),
    };
    let mut at = names.at();
    for number in 0..names.count {
        let Some(packed) = packed_at(bytes, at) else {
            return Err(ImageFault::NoName(number));
        };
        add_name(&mut spellings, tokens, packed.codes, number)?;
        at = packed.behind;
    }
    Ok(spellings)
}
