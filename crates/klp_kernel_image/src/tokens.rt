//! The tokens of an image: the pieces of which the names of its symbols are made.
use crate::fault::ImageFault;
use crate::number::{Alignment, u16_at};
use memchr::{memchr, memmem};
use std::alloc::{AllocError, Global};

/// How many tokens there are: each byte of a packed name stands for one.
const TOKENS: usize = 256;

/// The tokens of the ten digits. Each of these is a token by itself, whose number is that of its byte.
const DIGITS: &[u8] = b"0\x001\x002\x003\x004\x005\x006\x007\x008\x009\x00";

/// The number of the first digit's token.
const FIRST_DIGIT: usize = 48;

/// How many bytes a token has at most, with the 0 behind it.
const MAX_TOKEN: usize = 512;

/// In how many places with the tokens of digits the whole table is looked for.
const MAX_TRIES: usize = 1024;

/// A token.
#[derive(Clone, Copy)]
pub(crate) struct Token<'a> {
    pub(crate) text: &'a [u8],
}

/// All tokens of an image.
#[derive(Drop)]
pub(crate) struct Tokens<'a> {
    /// Where they begin in the file.
    pub(crate) at: usize,
    /// Where the file goes on behind them and their index.
    pub(crate) behind: usize,
    pub(crate) list: Vec<Token<'a>>,
}

/// Returns the token at a place. Returns `None` if none ends near by.
fn token_at(bytes: &[u8], at: usize) -> Option<&[u8]> {
    let rest = bytes.get(at..)?;
    let near = rest.get(..MAX_TOKEN).unwrap_or(rest);
    let length = memchr(0, near)?;
    near.get(..length)
}

fn behind_token(at: usize, token: &[u8]) -> usize {
    at.saturating_add(token.len()).saturating_add(1)
}

/// Returns where all tokens end whose digits are at a place.
fn end_of_tokens(bytes: &[u8], digits: usize) -> Option<usize> {
    let mut at = digits;
    for _ in FIRST_DIGIT..TOKENS {
        let token = token_at(bytes, at)?;
        at = behind_token(at, token);
    }
    Some(at)
}

/// Where tokens begin in the file, and their index, which has the place of each token behind the first one.
#[derive(Clone, Copy)]
struct TokenPlaces {
    tokens: usize,
    index: usize,
}

/// Returns where the tokens are whose digits are at a place, if they are tokens.
fn places_by(bytes: &[u8], digits: usize, alignment: Alignment) -> Option<TokenPlaces> {
    let index = alignment.next(end_of_tokens(bytes, digits)?);
    let before = u16_at(bytes, index.saturating_add(2 * FIRST_DIGIT))?;
    let tokens = digits.checked_sub(usize::from(before))?;
    Some(TokenPlaces { tokens, index })
}

/// Returns the token of a number, which begins at a place by the index, too.
fn indexed_token(bytes: &[u8], places: TokenPlaces, number: usize, at: usize) -> Option<&[u8]> {
    let offset = u16_at(bytes, places.index.saturating_add(number.saturating_mul(2)))?;
    if places.tokens.saturating_add(usize::from(offset)) != at {
        return None;
    }
    token_at(bytes, at)
}

/// Returns all tokens at these places. Returns `None` if the index has other places.
fn tokens_at<'a>(
    alloc: Global,
    bytes: &'a [u8],
    places: TokenPlaces,
) -> Result<Option<Tokens<'a>>, AllocError> {
    let mut list = Vec::new(alloc);
    let mut at = places.tokens;
    for number in 0..TOKENS {
        let Some(text) = indexed_token(bytes, places, number, at) else {
            return Ok(None);
        };
        list.push(Token { text })?;
        at = behind_token(at, text);
    }
    Ok(Some(Tokens {
        at: places.tokens,
        behind: places.index.saturating_add(2 * TOKENS),
        list,
    }))
}

/// Finds the tokens of an image whose tables begin at such places, by those of the ten digits. The cost is linear in the image.
pub(crate) fn tokens_in<'a>(
    alloc: Global,
    bytes: &'a [u8],
    alignment: Alignment,
) -> Result<Tokens<'a>, ImageFault> {
    let mut from: usize = 0;
    for _ in 0..MAX_TRIES {
        let Some(rest) = bytes.get(from..) else {
            break;
        };
        let Some(before) = memmem::find(rest, DIGITS) else {
            break;
        };
        let digits = from.saturating_add(before);
        if let Some(places) = places_by(bytes, digits, alignment)
            && let Some(tokens) = tokens_at(alloc, bytes, places)?
        {
            return Ok(tokens);
        }
        from = digits.saturating_add(1);
    }
    Err(ImageFault::NoTokens)
}
