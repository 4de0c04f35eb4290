//! Texts on their way to a sink. Texts are gathered first, and written when the buffer is full. If each word were
//! written at once, each word would cost a system call.
ghost use Rattle.std.specs.Prelude.{◌≡◌, ℕ, ◌+◌, ◌<◌, ◌≤◌, ◌⊎◌, false, List, [], length, OnOk, IfErr};
ghost use Rattle.std.specs.Fmt.{decimal, signed_decimal};
ghost use Rattle.std.specs.Io.KnownBytes.{Appends};
ghost use Rattle.hex.specs.Hex.{encode_lower};
ghost use Rattle.klp_console_io.specs.Says.{IsWell, IsToBlame, Moves, Says};
ghost use Rattle.klp_console_io.specs.Texts.{address_text};

use crate::sink::{Failed, Sink};
use arrayvec::ArrayVec;
use itoa::Buffer;
use klp_types::ANSWER_ROOM;
use std::marker::Model;

/// How many bytes are turned into hexadecimal digits at a time. The number is fixed, so the buffer for digits is small,
/// however long a body is.
const PIECE: usize = 32;

/// The texts that were said and aren't written yet. All texts go to the same sink. The sink is passed to each call and
/// not stored here, so that a console can pass the sink to other functions in between.
#[derive(Drop)]
pub struct Answers {
    bytes: ArrayVec<u8, ANSWER_ROOM>,
    /// How many of the first bytes are held. Held bytes were gathered at the last call of `hold`, and still aren't
    /// written.
    held: usize,
    /// Whether the sink has failed. The failure is stored here, so that a caller who says ten words needs to check it
    /// only once (docs/DECISIONS.md, "A failed sink").
    has_failed: bool,
}

impl Model for Answers {
    ghost use Rattle.klp_console_io.specs.Gathered.{Gathered};

    ghost Value = { Gathered };

    ghost use Rattle.std.specs.Prelude.{◌≤◌, length};

    ghost view = { λ a. record { bytes = a.bytes.items; held = a.held; has_failed = a.has_failed } };

    ghost invariant = { λ a. a.held ≤ length a.bytes.items };
}

/// Writes all bytes, in as many writes as are needed. A write that takes no byte is a failure, since retrying might
/// never end. If a write fails, returns as `Err` how many bytes were written before the failure.
fn write_all<W: Sink>(writer: &mut W, bytes: &[u8]) -> Result<(), usize>
    ensures ok { OnOk result
        (Appends (W.written writer.old).taken (W.written writer.new).taken bytes.now
        × IsWell (W.written writer.old) (W.written writer.new)) }
    ensures err { IfErr result (λ count.
        (gone rest : List ℕ) × Moves (W.written writer.old) (W.written writer.new) bytes.now gone rest
        × IsToBlame (W.written writer.old) (W.written writer.new) × (0 < length rest) × (length gone ≡ count)) }
{
    let mut done = 0;
    while done < bytes.len() {
        match writer.write(&bytes[done..]) {
            Err(Failed) => return Err(done),
            Ok(count) => {
                if count == 0 {
                    return Err(done);
                }
                done += count;
            }
        }
    }
    Ok(())
}

/// Writes the hexadecimal digits of a piece into `digits`, and returns them. Nothing is allocated.
fn in_hex<'a>(piece: &[u8], digits: &'a mut [u8; 2 * PIECE]) -> &'a [u8]
    requires { length piece.now ≤ PIECE }
    ensures { result.now ≡ encode_lower piece.now }
{
    let digits = &mut digits[..2 * piece.len()];
    // the room is as long as the digits, so this can't fail
    let _ = hex::encode_to_slice(piece, digits);
    digits
}

impl Answers {
    /// Makes answers in which nothing was said yet. The sink is passed to each call.
    pub fn new() -> Answers
        ensures { result ≡ record { bytes = []; held = 0; has_failed = false } }
    {
        Answers {
            bytes: ArrayVec::new(),
            held: 0,
            has_failed: false,
        }
    }

    /// Whether the sink has failed. After a failure nothing more is said. So the lost bytes are the end of all that was
    /// said, and no byte is lost before them.
    pub fn has_failed(&self) -> bool
        ensures { result ≡ self.now.has_failed }
    {
        self.has_failed
    }

    /// Returns how many bytes are gathered.
    pub fn len(&self) -> usize
        ensures { result ≡ length self.now.bytes }
    {
        self.bytes.len()
    }

    /// Marks as held all bytes that are gathered now, and returns their number. After this call, `held` returns how
    /// many of the held bytes aren't written yet.
    pub fn hold(&mut self) -> usize
        ensures held { self.new ≡ record self.old { held = length self.old.bytes } }
        ensures result { result ≡ length self.old.bytes }
    {
        self.held = self.bytes.len();
        self.held
    }

    /// Returns how many of the held bytes aren't written. The result is 0 when all of them are written. After a
    /// failure, the result shows where the sink stopped.
    pub fn held(&self) -> usize
        ensures { result ≡ self.now.held }
    {
        self.held
    }

    /// Writes all gathered bytes. Does nothing after a failure, so callers needn't check first.
    #[tactic(auto, unfolding(crate::specs::Says::Speaks))]
    pub fn flush<W: Sink>(&mut self, writer: &mut W)
        ensures says { Says (self.old, W.written writer.old) (self.new, W.written writer.new) [] }
        ensures empty { self.new.has_failed ≡ false → self.new.bytes ≡ [] }
    {
        if self.has_failed {
            return;
        }
        match write_all(writer, self.bytes.as_slice()) {
            Ok(()) => {
                self.bytes.clear();
                self.held = 0;
            }
            Err(written) => {
                self.held = self.held.saturating_sub(written);
                self.has_failed = true;
            }
        }
    }

    /// If there is no room for `len` more bytes behind the gathered bytes, writes the gathered bytes. So texts are
    /// written in the order in which they were said.
    #[inline(always)]
    #[tactic(auto, unfolding(crate::specs::Says::Speaks))]
    fn make_room<W: Sink>(&mut self, writer: &mut W, len: usize)
        ensures says { Says (self.old, W.written writer.old) (self.new, W.written writer.new) [] }
        ensures room { (length self.new.bytes + len ≤ ANSWER_ROOM) ⊎
            (self.new.has_failed ≡ false → self.new.bytes ≡ []) }
    {
        if self.bytes.remaining_capacity() < len {
            self.flush(writer);
        }
    }

    /// Says a text. It must fit behind the gathered bytes, unless nothing is gathered. A text that is longer than the
    /// whole buffer is written at once.
    #[inline(always)]
    #[tactic(auto, unfolding(crate::specs::Says::Speaks))]
    fn take<W: Sink>(&mut self, writer: &mut W, text: &[u8])
        requires { (length self.old.bytes + length text.now ≤ ANSWER_ROOM) ⊎
            (self.old.has_failed ≡ false → self.old.bytes ≡ []) }
        ensures { Says (self.old, W.written writer.old) (self.new, W.written writer.new) text.now }
    {
        if !self.has_failed && self.bytes.try_extend_from_slice(text).is_err() {
            self.has_failed = write_all(writer, text).is_err();
        }
    }

    /// Says a text. If there is no room for the text behind the gathered bytes, first writes the gathered bytes. The
    /// text is then gathered. A text that is longer than the whole buffer is written at once, so a text may have any
    /// length. After a failure of the sink, does nothing.
    ///
    /// The function is inlined, so that a short text whose length the compiler knows is stored without a call.
    #[inline(always)]
    pub fn say<W: Sink>(&mut self, writer: &mut W, text: &[u8])
        ensures { Says (self.old, W.written writer.old) (self.new, W.written writer.new) text.now }
    {
        self.make_room(writer, text.len());
        self.take(writer, text);
    }

    /// Says a number in decimal digits, without leading zeros.
    pub fn number<W: Sink>(&mut self, writer: &mut W, number: u64)
        ensures { Says (self.old, W.written writer.old) (self.new, W.written writer.new) (decimal number) }
    {
        self.say(writer, Buffer::new().format(number).as_bytes());
    }

    /// Says a number in decimal digits, with a minus in front if it is negative.
    pub fn signed<W: Sink>(&mut self, writer: &mut W, value: i64)
        ensures { Says (self.old, W.written writer.old) (self.new, W.written writer.new) (signed_decimal value) }
    {
        self.say(writer, Buffer::new().format(value).as_bytes());
    }

    /// Says bytes as pairs of lower-case hexadecimal digits, in the order of the bytes.
    pub fn hex<W: Sink>(&mut self, writer: &mut W, bytes: &[u8])
        ensures { Says (self.old, W.written writer.old) (self.new, W.written writer.new) (encode_lower bytes.now) }
    {
        let mut digits = [0; 2 * PIECE];
        let mut done = 0;
        while done < bytes.len() {
            let piece = &bytes[done..(done + PIECE).min(bytes.len())];
            self.say(writer, in_hex(piece, &mut digits));
            done += piece.len();
        }
    }

    /// Says an address as 16 lower-case hexadecimal digits with leading zeros, so that addresses align.
    pub fn address<W: Sink>(&mut self, writer: &mut W, address: u64)
        ensures { Says (self.old, W.written writer.old) (self.new, W.written writer.new) (address_text address) }
    {
        self.hex(writer, &address.to_be_bytes());
    }
}
