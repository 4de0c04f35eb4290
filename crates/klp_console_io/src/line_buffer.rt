//! One line that is heard in pieces, since reads cut an input anywhere.
ghost use Rattle.std.specs.Prelude.{◌≡◌, ℕ, ◌<◌, ◌≤◌, ◌⊎◌, position, List, [], ◌∷◌, ◌++◌, length, IfOk, IfSome, IfNone};
ghost use Rattle.std.specs.Prelude.{OnOk, OnErr};
ghost use Rattle.klp_console_io.specs.Lines.{is_line_feed, lines_and_rest, BeginsLong};

use arrayvec::ArrayVec;
use klp_types::MAX_CONSOLE_LINE;
use klp_words::position_of;
use std::marker::Model;

/// The error that a line is longer than [`MAX_CONSOLE_LINE`]. The line isn't stored, so the error reports nothing more.
#[derive(Clone, Copy)]
pub struct TooLong;

/// The bytes of one line that were heard so far. Contracts see the bytes as a list. A line feed ends the line and isn't
/// one of its bytes. Serving allocates nothing, so the buffer contains the room for [`MAX_CONSOLE_LINE`] bytes.
#[derive(Drop)]
pub struct LineBuffer {
    bytes: ArrayVec<u8, MAX_CONSOLE_LINE>,
}

impl Model for LineBuffer {
    ghost use Rattle.std.specs.Prelude.{◌≡◌, ℕ, List, [], ◌∷◌};
    ghost use Rattle.klp_console_io.specs.Lines.{lines_and_rest};

    ghost Value = { List ℕ };

    ghost view = { λ l. l.bytes.items };

    // no byte is a line feed, so what was heard is one line
    ghost invariant = { λ l. lines_and_rest l.bytes.items ≡ l.bytes.items ∷ [] };
}

/// Returns the place of the first line feed, counted from 0, or `None` if the piece has none.
fn line_feed(bytes: &[u8]) -> Option<usize>
    ensures { result ≡ position is_line_feed bytes.now }
{
    position_of(bytes, b'\n')
}

/// Returns the bytes before the first line feed, and the bytes behind it. If the piece has no line feed, returns the
/// whole piece and `None`. If the piece ends with its first line feed, the second part is empty, but the line is
/// finished.
fn cut(piece: &[u8]) -> (&[u8], Option<&[u8]>)
    ensures front { lines_and_rest result.0.now ≡ result.0.now ∷ [] }
    ensures whole { IfNone result.1 (result.0.now ≡ piece.now) }
    ensures rest { IfSome result.1 (λ rest. lines_and_rest piece.now ≡ result.0.now ∷ lines_and_rest rest.now) }
    ensures shorter { IfSome result.1 (λ rest. length rest.now < length piece.now) }
{
    match line_feed(piece) {
        Some(end) => (&piece[..end], Some(&piece[end + 1..])),
        None => (piece, None),
    }
}

impl LineBuffer {
    /// Makes a buffer for a line of which no byte was heard.
    pub fn new() -> LineBuffer
        ensures { result ≡ [] }
    {
        LineBuffer {
            bytes: ArrayVec::new(),
        }
    }

    /// Returns the bytes of the line that were heard so far. None of them is a line feed.
    pub fn bytes(&self) -> &[u8]
        ensures bytes { result.now ≡ self.now }
        ensures limit { length result.now ≤ MAX_CONSOLE_LINE }
        ensures one_line { lines_and_rest result.now ≡ result.now ∷ [] }
    {
        self.bytes.as_slice()
    }

    /// Drops the line, so that the next one can be heard in the same room.
    pub fn clear(&mut self)
        ensures { self.new ≡ [] }
    {
        self.bytes.clear();
    }

    /// Returns the first line of a piece, without its line feed, and the bytes behind the line feed. Both are borrowed
    /// from the piece, so a line that arrives whole in one read isn't copied. Returns `None` if bytes of the line were
    /// heard before, if the piece has no line feed, or if the line is longer than [`MAX_CONSOLE_LINE`]. `hear`
    /// distinguishes these cases.
    pub fn whole_line<'a>(&self, piece: &'a [u8]) -> Option<(&'a [u8], &'a [u8])>
        ensures begins { IfSome result (λ _. self.now ≡ []) }
        ensures finished { IfSome result
            (λ found. lines_and_rest piece.now ≡ found.0.now ∷ lines_and_rest found.1.now) }
        ensures shorter { IfSome result (λ found. length found.1.now < length piece.now) }
        ensures limit { IfSome result (λ found. length found.0.now ≤ MAX_CONSOLE_LINE) }
        ensures none { IfNone result ((0 < length self.now) ⊎ (lines_and_rest piece.now ≡ piece.now ∷ [])
            ⊎ BeginsLong (lines_and_rest piece.now)) }
    {
        if !self.bytes.is_empty() {
            return None;
        }
        let (line, rest) = cut(piece);
        if line.len() > MAX_CONSOLE_LINE {
            return None;
        }
        let rest = rest?;
        Some((line, rest))
    }

    /// Hears a piece up to its first line feed.
    ///
    /// If the piece has a line feed, the line is finished. The result is then `Ok(Some(rest))`, where `rest` has the
    /// bytes behind the line feed. If the piece has no line feed, all of it belongs to the line, and the result is
    /// `Ok(None)`. If the line is longer than [`MAX_CONSOLE_LINE`], finished or not, the result is `Err`, and the
    /// buffer isn't changed.
    ///
    /// Looks at the piece up to its first line feed, and copies that part at once.
    pub fn hear<'a>(&mut self, piece: &'a [u8]) -> Result<Option<&'a [u8]>, TooLong>
        ensures finished { IfOk result (λ heard. IfSome heard (λ rest.
            lines_and_rest (self.old ++ piece.now) ≡ self.new ∷ lines_and_rest rest.now)) }
        ensures shorter { IfOk result (λ heard. IfSome heard (λ rest. length rest.now < length piece.now)) }

        ensures unfinished { IfOk result
            (λ heard. IfNone heard (lines_and_rest (self.old ++ piece.now) ≡ self.new ∷ [])) }
        ensures heard { IfOk result (λ heard. IfNone heard (self.new ≡ self.old ++ piece.now)) }

        // so it is an error exactly if the first line is too long, finished or not
        ensures limit { OnOk result (length self.new ≤ MAX_CONSOLE_LINE) }
        ensures too_long { OnErr result ((long : List ℕ) × (more : List (List ℕ))
            × (lines_and_rest (self.old ++ piece.now) ≡ long ∷ more) × (MAX_CONSOLE_LINE < length long)) }
        ensures unchanged { OnErr result (self.new ≡ self.old) }
    {
        let (front, rest) = cut(piece);
        if self.bytes.try_extend_from_slice(front).is_err() {
            return Err(TooLong);
        }
        Ok(rest)
    }
}
