//! Room in memory as a sink, so that tests can see what was written, and can let writes fail.
ghost use Rattle.std.specs.Prelude.{◌≡◌, ◌+◌, ◌<◌, ◌≤◌, ◌↔◌, [], length, take, Some, IsErr, IfOk, OnErr};

use crate::count::{Count, two_counts};
use crate::due::is_due;
use crate::sink::{Failed, Sink};
use arrayvec::ArrayVec;
use std::marker::Model;
use std::sync::ledger::{Blank, Book, Ledger};

/// Room in memory as a sink. One write takes at most `most` bytes, and one write, chosen by its number, may fail. When
/// the room is full, a write takes no byte, so the sink stalls. The size of the room is in the type, so that a test can
/// pass the sink around (docs/DECISIONS.md, "The room of `Taken`").
#[derive(Drop)]
pub struct Taken<const ROOM: usize, L: Ledger> {
    bytes: ArrayVec<u8, ROOM>,
    most: usize,
    /// How many writes are made before the write that fails. `None` if no write fails.
    fails_in: Option<u32>,
    book: Book<L>,
    failures: Count<L>,
    stalls: Count<L>,
}

impl<const ROOM: usize, L: Ledger> Model for Taken<ROOM, L> {
    ghost use Rattle.std.specs.Prelude.{◌<◌};
    ghost use Rattle.klp_console_io.specs.Held.{Held};

    ghost Value = { Held };

    ghost view = { λ t. record {
      bytes = t.bytes.items;
      most = t.most;
      fails_in = t.fails_in;
      failures = t.failures;
      stalls = t.stalls;
    } };

    ghost invariant = { λ t. 0 < t.most };
}

impl<const ROOM: usize, L: Ledger> Taken<ROOM, L> {
    /// Makes room for `ROOM` bytes, of which one write takes at most `most`. The write with the number `fails_at`
    /// fails, counted from 0. The blank is for the two counts, and has two parts.
    pub fn new(most: usize, fails_at: Option<u32>, blank: Blank) -> Self
        requires most { 0 < most }
        requires name { blank.name ≡ L.name }
        requires parts { blank.parts ≡ L.parts }
        requires two { 2 ≤ blank.parts }
        ensures { result ≡ record { bytes = []; most = most; fails_in = fails_at; failures = 0; stalls = 0 } }
    {
        let (book, failures, stalls) = two_counts(blank);
        Taken {
            bytes: ArrayVec::new(),
            most,
            fails_in: fails_at,
            book,
            failures,
            stalls,
        }
    }

    /// Returns the bytes taken so far, of all writes together.
    pub fn bytes(&self) -> &[u8]
        ensures { result.now ≡ self.now.bytes }
    {
        self.bytes.as_slice()
    }
}

impl<const ROOM: usize, L: Ledger> Sink for Taken<ROOM, L> {
    ghost use Rattle.std.specs.Io.KnownBytes.{Appends, Keeps};
    ghost use Rattle.klp_console_io.specs.Due.{one_sooner};
    ghost use Rattle.klp_console_io.specs.Held.{written_of, room_for};

    ghost written = { written_of };

    /// Takes as many of the bytes as `most` and the room allow. The write that is to fail takes no byte.
    fn write(&mut self, bytes: &[u8]) -> Result<usize, Failed>
        ensures bound { IfOk result (λ n. n ≤ length bytes.now) }
        ensures ok { IfOk result
            (λ n. Appends (written_of self.old).taken (written_of self.new).taken (take n bytes.now)
            × ((written_of self.new).failures ≡ (written_of self.old).failures)) }
        ensures stall { IfOk result
            (λ n. n ≡ 0 → 0 < length bytes.now → (written_of self.new).stalls ≡ (written_of self.old).stalls + 1) }
        ensures no_bytes { IfOk result
            (λ n. length bytes.now ≡ 0 → (written_of self.new).stalls ≡ (written_of self.old).stalls) }
        ensures moved { IfOk result (λ n. 0 < n → (written_of self.new).stalls ≡ (written_of self.old).stalls) }
        ensures err { OnErr result (Keeps (written_of self.old).taken (written_of self.new).taken
            × ((written_of self.new).failures ≡ (written_of self.old).failures + 1)
            × ((written_of self.new).stalls ≡ (written_of self.old).stalls)) }
        ensures due { IsErr result ↔ (self.old.fails_in ≡ Some 0) }
        ensures sooner { self.new.fails_in ≡ one_sooner self.old.fails_in }
        ensures count { IfOk result (λ n. n ≡ room_for self.old ROOM (length bytes.now)) }
        ensures most { self.new.most ≡ self.old.most }
    {
        if is_due(&mut self.fails_in) {
            self.failures.add(&mut self.book, 1);
            return Err(Failed);
        }
        let room = self.bytes.remaining_capacity();
        let count = self.most.min(room).min(bytes.len());
        let _ = self.bytes.try_extend_from_slice(&bytes[..count]);
        if count == 0 && !bytes.is_empty() {
            self.stalls.add(&mut self.book, 1);
        }
        Ok(count)
    }
}
