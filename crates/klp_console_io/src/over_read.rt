//! A reader of std as a source: the standard input of the program, or readers in tests.
ghost use Rattle.std.specs.Prelude.{◌≡◌, ◌≤◌, false};

use crate::count::{Count, three_counts};
use crate::sink::Failed;
use crate::source::Source;
use std::io::Read;
use std::marker::Model;
use std::sync::ledger::{Blank, Book, Ledger};

/// A reader of std as a source. If contracts know which bytes the reader has left, they also know which bytes this
/// source has left. The bytes left are known of a slice, but not of standard input.
#[derive(Drop)]
pub struct OverRead<R: Read, L: Ledger> {
    reader: R,
    has_ended: bool,
    book: Book<L>,
    failures: Count<L>,
    reads: Count<L>,
    asked: Count<L>,
}

impl<R: Read, L: Ledger> Model for OverRead<R, L> {
    ghost use Rattle.klp_console_io.specs.Supply.{Supply};

    ghost Value = { Supply };

    ghost view = { λ o. record {
      left = R.remaining o.reader;
      has_ended = o.has_ended;
      failures = o.failures;
      reads = o.reads;
      asked = o.asked;
    } };
}

impl<R: Read, L: Ledger> OverRead<R, L> {
    /// Reads from `reader`. The blank is for the three counts, and has three parts.
    pub fn new(reader: R, blank: Blank) -> Self
        requires name { blank.name ≡ L.name }
        requires parts { blank.parts ≡ L.parts }
        requires three { 3 ≤ blank.parts }
        ensures { result ≡ record { left = R.remaining reader; has_ended = false; failures = 0; reads = 0; asked = 0 } }
    {
        let (book, failures, reads, asked) = three_counts(blank);
        OverRead {
            reader,
            has_ended: false,
            book,
            failures,
            reads,
            asked,
        }
    }

    /// Returns the reader with the bytes that it has left, so that its owner can read on.
    pub fn into_inner(self) -> R
        ensures { R.remaining result ≡ self.left }
    {
        let OverRead {
            reader,
            has_ended: _,
            book: _,
            failures: _,
            reads: _,
            asked: _,
        } = self;
        reader
    }
}

impl<R: Read, L: Ledger> Source for OverRead<R, L> {
    ghost supply = { λ o. o };

    fn read(&mut self, buf: &mut [u8]) -> Result<usize, Failed> {
        self.asked.add(&mut self.book, buf.len());
        match self.reader.read(buf) {
            Ok(count) => {
                if !buf.is_empty() {
                    self.reads.add(&mut self.book, 1);
                }
                if count == 0 && !buf.is_empty() {
                    self.has_ended = true;
                }
                Ok(count)
            }
            // std's readers don't count failures, so no clause says that this was a failure of the reader
            // (docs/DECISIONS.md, "Failures of std").
            Err(_) => {
                self.reads.add(&mut self.book, 1);
                self.failures.add(&mut self.book, 1);
                Err(Failed)
            }
        }
    }
}
