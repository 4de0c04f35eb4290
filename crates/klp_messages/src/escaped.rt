//! Writes bytes of a file in a form that a terminal may show.

use std::fmt;

/// How many bytes of a word are shown.
const SHOWN: usize = 64;

/// Writes bytes. Bytes that would control a terminal, can't be seen, or aren't text are escaped. All other bytes are
/// written unchanged.
#[derive(Clone, Copy)]
pub struct Escaped<'a>(pub &'a [u8]);

/// Writes bytes as [`Escaped`] does, between quotes. If there are more than [`SHOWN`] bytes, writes the first [`SHOWN`]
/// and `..`.
#[derive(Clone, Copy)]
pub struct Quoted<'a>(pub &'a [u8]);

/// Writes a text, and escapes what a terminal wouldn't show. Quotes and backslashes can be shown, so they are written
/// unchanged.
fn write_text<W: fmt::Write>(f: &mut fmt::Formatter<W>, text: &str) -> fmt::Result {
    for c in text.chars() {
        if matches!(c, '\'' | '"' | '\\') {
            f.write_char(c)?;
        } else {
            write!(f, "{}", c.escape_debug())?;
        }
    }
    Ok(())
}

impl<'a> fmt::Display for Escaped<'a> {
    fn fmt<W: fmt::Write>(&self, f: &mut fmt::Formatter<W>) -> fmt::Result {
        for chunk in self.0.utf8_chunks() {
            write_text(f, chunk.valid())?;
            write!(f, "{}", chunk.invalid().escape_ascii())?;
        }
        Ok(())
    }
}

/// Returns the part of a word that is shown: at most its first [`SHOWN`] bytes, cut at the end of a character.
fn shown_part(word: &[u8]) -> &[u8] {
    let Some(front) = word.get(..SHOWN) else {
        return word;
    };
    // If the cut is inside of a character, the front ends with an incomplete one, which is left out.
    match str::from_utf8(front) {
        Err(error) if error.error_len().is_none() => {
            front.get(..error.valid_up_to()).unwrap_or(front)
        }
        _ => front,
    }
}

impl<'a> fmt::Display for Quoted<'a> {
    fn fmt<W: fmt::Write>(&self, f: &mut fmt::Formatter<W>) -> fmt::Result {
        let shown = shown_part(self.0);
        let more = if shown.len() < self.0.len() { ".." } else { "" };
        write!(f, "'{}'{more}", Escaped(shown))
    }
}
