ghost use Rattle.std.specs.Prelude.{◌≡◌, ◌≢◌, ℕ, List, ◌∷◌, [], MatchOption, bytes_eq, length};
ghost use Rattle.std.specs.Str.Lines.{lines, strip_carriage_return};
ghost use Rattle.klp_catalog_text.specs.Lines.{words_of};

use klp_words::{LineWords, Separators, position_of};
use std::marker::Model;

/// The lines of a text that are still to be read. Lines are cut off one by one, so no list of lines is made.
///
/// A line ends at a line feed. The last line may also end at the end of the text. A carriage return right before the
/// line feed isn't part of the line.
#[derive(Drop)]
pub struct Lines<'a> {
    rest: &'a [u8],
}

impl<'a> Model for Lines<'a> {
    ghost use Rattle.std.specs.Prelude.{ℕ, List};
    ghost use Rattle.std.specs.Str.Lines.{lines};

    ghost Value = { List (List ℕ) };

    ghost view = { λ l. lines l.rest.now };
}

impl<'a> Lines<'a> {
    /// Starts a walk over all lines of the text. The text may have any length and any bytes. No byte is read yet.
    pub fn new(text: &'a [u8]) -> Lines<'a>
        ensures { result ≡ lines text.now }
    {
        Lines { rest: text }
    }

    /// Returns the next line, without the bytes that end it. Returns `None` at the end of the text. The time is linear
    /// in the length of the line.
    pub fn next(&mut self) -> Option<&'a [u8]>
        ensures { MatchOption result (self.old ≡ []) (λ line. self.old ≡ line.now ∷ self.new) }
    {
        if self.rest.is_empty() {
            return None;
        }
        let Some(end) = position_of(self.rest, b'\n') else {
            let line = self.rest;
            self.rest = &[];
            return Some(line);
        };
        let line = &self.rest[..end];
        self.rest = &self.rest[end + 1..];
        Some(without_carriage_return(line))
    }
}

/// Returns the line without a carriage return at its end. So a text has the same meaning if it was written on a system
/// that ends lines with one (docs/DECISIONS.md, "Carriage returns").
fn without_carriage_return(line: &[u8]) -> &[u8]
    ensures { result.now ≡ strip_carriage_return line.now }
{
    match line {
        [front @ .., b'\r'] => front,
        _ => line,
    }
}

/// Returns the words of a line. Words are separated by spaces and tabs, as in text that people write by hand.
pub fn words_of(line: &[u8]) -> LineWords<'_>
    ensures { result ≡ words_of line.now }
{
    LineWords::new(line, Separators::SpacesAndTabs)
}

/// Whether two words are equal, byte by byte.
pub(crate) fn is_word(word: &[u8], other: &[u8]) -> bool
    ensures { result ≡ bytes_eq word.now other.now }
{
    word == other
}

/// Three words of a line, in their order.
pub(crate) type ThreeWords<'a> = (&'a [u8], &'a [u8], &'a [u8]);

/// Returns the remaining words if there are exactly three. Otherwise returns `None`. A wrong number of words is
/// reported before a fault of any word, so the three words are read before any of them is checked.
pub(crate) fn three_words<'a>(words: &mut LineWords<'a>) -> Option<ThreeWords<'a>>
    ensures { MatchOption result (length words.old ≢ 3)
        (λ found. words.old ≡ found.0.now ∷ found.1.now ∷ found.2.now ∷ []) }
{
    let (Some(first), Some(second), Some(third), None) = (
        words.next(),
        words.next(),
        words.next(),
        words.next(),
    ) else {
        return None;
    };
    Some((first, second, third))
}
