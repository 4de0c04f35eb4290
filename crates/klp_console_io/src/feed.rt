//! Bytes in memory as a source, so that tests can cut an input as they want.
ghost use Rattle.std.specs.Prelude.{◌≡◌, ◌<◌, ◌≤◌, ◌↔◌, false, length, Some, IsErr, IfOk, OnErr};

use crate::count::{Count, three_counts};
use crate::due::is_due;
use crate::sink::Failed;
use crate::source::Source;
use std::marker::Model;
use std::sync::ledger::{Blank, Book, Ledger};

/// Bytes in memory as a source. One read returns at most `most` of them, so that a test can cut an input as finely as
/// it wants. One read, chosen by its number, may fail. A feed ends only when no byte is left.
#[derive(Drop)]
pub struct Feed<'a, L: Ledger> {
    left: &'a [u8],
    most: usize,
    /// How many reads are made before the read that fails. `None` if no read fails.
    fails_in: Option<u32>,
    has_ended: bool,
    book: Book<L>,
    failures: Count<L>,
    reads: Count<L>,
    asked: Count<L>,
}

impl<'a, L: Ledger> Model for Feed<'a, L> {
    ghost use Rattle.std.specs.Prelude.{◌<◌};
    ghost use Rattle.klp_console_io.specs.Fed.{Fed};

    ghost Value = { Fed };

    ghost view = { λ f. record {
      left = f.left.now;
      most = f.most;
      fails_in = f.fails_in;
      has_ended = f.has_ended;
      failures = f.failures;
      reads = f.reads;
      asked = f.asked;
    } };

    ghost invariant = { λ f. 0 < f.most };
}

impl<'a, L: Ledger> Feed<'a, L> {
    /// Feeds `bytes`, at most `most` of them in one read. If `most` were 0, the feed would end at once, so `most` must
    /// not be 0. The read with the number `fails_at` fails, counted from 0. The blank is for the three counts, and has
    /// three parts.
    pub fn new(bytes: &'a [u8], most: usize, fails_at: Option<u32>, blank: Blank) -> Self
        requires most { 0 < most }
        requires name { blank.name ≡ L.name }
        requires parts { blank.parts ≡ L.parts }
        requires three { 3 ≤ blank.parts }
        ensures { result
            ≡ record {
              left = bytes.now;
              most = most;
              fails_in = fails_at;
              has_ended = false;
              failures = 0;
              reads = 0;
              asked = 0;
            } }
    {
        let (book, failures, reads, asked) = three_counts(blank);
        Feed {
            left: bytes,
            most,
            fails_in: fails_at,
            has_ended: false,
            book,
            failures,
            reads,
            asked,
        }
    }

    /// Returns the bytes that are still to be read. So a test can see how much was read.
    pub fn left(&self) -> &'a [u8]
        ensures { result.now ≡ self.now.left }
    {
        self.left
    }
}

impl<'a, L: Ledger> Source for Feed<'a, L> {
    ghost use Rattle.klp_console_io.specs.Supply.{Gives, Fails};
    ghost use Rattle.klp_console_io.specs.Due.{one_sooner};
    ghost use Rattle.klp_console_io.specs.Fed.{supply_of, given};

    ghost supply = { supply_of };

    /// Reads as many bytes as `most`, the bytes left and the room allow. The read that is to fail returns no byte. A
    /// read into an empty buffer doesn't count as the end.
    fn read(&mut self, buf: &mut [u8]) -> Result<usize, Failed>
        ensures ok { IfOk result (λ n. Gives (supply_of self.old) (supply_of self.new) buf.new n) }
        ensures err { OnErr result (Fails (supply_of self.old) (supply_of self.new) buf.new) }
        ensures due { IsErr result ↔ (self.old.fails_in ≡ Some 0) }
        ensures sooner { self.new.fails_in ≡ one_sooner self.old.fails_in }
        ensures count { IfOk result (λ n. n ≡ given self.old (length buf.old)) }
        ensures most { self.new.most ≡ self.old.most }
    {
        let fails = is_due(&mut self.fails_in);
        self.asked.add(&mut self.book, buf.len());
        if fails || !buf.is_empty() {
            self.reads.add(&mut self.book, 1);
        }
        if fails {
            self.failures.add(&mut self.book, 1);
            return Err(Failed);
        }
        let count = self.most.min(self.left.len()).min(buf.len());
        let (front, rest) = self.left.split_at(count);
        buf[..count].copy_from_slice(front);
        self.left = rest;
        if count == 0 && !buf.is_empty() {
            self.has_ended = true;
        }
        Ok(count)
    }
}
