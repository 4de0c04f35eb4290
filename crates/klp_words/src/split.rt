//! Cuts bytes into words, or at a given byte. Catalogs and the console use the same functions.

ghost use Rattle.std.specs.Prelude.{◌≡◌, ℕ, ◌==◌, not, position, List, ◌∷◌, [], MatchOption};
ghost use Rattle.std.specs.List.{position_or_len, before_first, after_first};
ghost use Rattle.klp_words.specs.Split.{separates, is_either, words_between};

use crate::lanes::first_of;
use std::marker::Model;

/// The bytes that separate the words of a line. On the console a tab is part of a word. In a catalog a tab separates
/// words.
#[derive(Clone, Copy)]
pub enum Separators {
    Spaces,
    SpacesAndTabs,
}

impl Separators {
    /// Returns the byte that separates words in addition to a space. If only spaces separate words, returns a space.
    fn beside_space(self) -> u8
        ensures { (b : ℕ) → is_either 32 result b ≡ separates self b }
    {
        match self {
            Separators::Spaces => b' ',
            Separators::SpacesAndTabs => b'\t',
        }
    }
}

/// The words of a line that are still to be read, and the bytes that separate them. Words are cut off one by one, so no
/// list of words is made.
#[derive(Drop)]
pub struct LineWords<'a> {
    rest: &'a [u8],
    separators: Separators,
}

impl<'a> Model for LineWords<'a> {
    ghost use Rattle.std.specs.Prelude.{ℕ, List};
    ghost use Rattle.klp_words.specs.Split.{separates, words_between};

    ghost Value = { List (List ℕ) };

    ghost view = { λ w. words_between (separates w.separators) w.rest.now };
}

impl<'a> LineWords<'a> {
    /// Starts a walk over all words of the line. The line may have any bytes, since they aren't checked yet.
    pub fn new(line: &'a [u8], separators: Separators) -> LineWords<'a>
        ensures { result ≡ words_between (separates separators) line.now }
    {
        LineWords {
            rest: line,
            separators,
        }
    }

    /// Returns a copy of this walk at its present position, so that the words can be read twice.
    pub fn again(&self) -> LineWords<'a>
        ensures { result ≡ self.now }
    {
        LineWords {
            rest: self.rest,
            separators: self.separators,
        }
    }

    /// Returns the next word, which is never empty. Returns `None` if no word is left. The time is linear in the length
    /// of the word and of the separators before it. There may be any number of separators.
    pub fn next(&mut self) -> Option<&'a [u8]>
        ensures { MatchOption result (self.old ≡ []) (λ word. self.old ≡ word.now ∷ self.new) }
    {
        let other = self.separators.beside_space();
        let start = self.rest.iter().position(|b| *b != b' ' && *b != other)?;
        let line = &self.rest[start..];
        let end = first_of(line, b' ', other);
        let (word, rest) = line.split_at(end);
        self.rest = rest;
        Some(word)
    }
}

/// Returns the index of the first byte that equals `at`. Returns `None` if there is no such byte.
pub fn position_of(bytes: &[u8], at: u8) -> Option<usize>
    ensures { result ≡ position (λ b. b == at) bytes.now }
{
    let place = first_of(bytes, at, at);
    if place < bytes.len() {
        Some(place)
    } else {
        None
    }
}

/// Returns the bytes before the first byte `at`, and the bytes after it. If there is no such byte, returns the whole
/// text and an empty rest. So a text without the byte gives the same result as if the byte were added at its end.
pub fn cut(text: &[u8], at: u8) -> (&[u8], &[u8])
    ensures before { result.0.now ≡ before_first (λ b. b == at) text.now }
    ensures after { result.1.now ≡ after_first (λ b. b == at) text.now }
{
    match position_of(text, at) {
        Some(end) => (&text[..end], &text[end + 1..]),
        None => (text, &[]),
    }
}
