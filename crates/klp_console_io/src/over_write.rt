//! A writer of std as a sink: the standard output of the program, or writers in tests.
ghost use Rattle.std.specs.Prelude.{◌≡◌, ◌≤◌};

use crate::count::{Count, two_counts};
use crate::sink::{Failed, Sink};
use std::io::Write;
use std::marker::Model;
use std::sync::ledger::{Blank, Book, Ledger};

/// A writer of std as a sink. If contracts know which bytes the writer took, they also know which bytes this sink took.
/// The bytes taken are known of a list, but not of standard output.
#[derive(Drop)]
pub struct OverWrite<W: Write, L: Ledger> {
    writer: W,
    book: Book<L>,
    failures: Count<L>,
    stalls: Count<L>,
}

impl<W: Write, L: Ledger> Model for OverWrite<W, L> {
    ghost use Rattle.klp_console_io.specs.Written.{Written};

    ghost Value = { Written };

    ghost view = { λ o. record { taken = W.contents o.writer; failures = o.failures; stalls = o.stalls } };
}

impl<W: Write, L: Ledger> OverWrite<W, L> {
    /// Writes to `writer`. The blank is for the two counts, and has two parts.
    pub fn new(writer: W, blank: Blank) -> Self
        requires name { blank.name ≡ L.name }
        requires parts { blank.parts ≡ L.parts }
        requires two { 2 ≤ blank.parts }
        ensures { result ≡ record { taken = W.contents writer; failures = 0; stalls = 0 } }
    {
        let (book, failures, stalls) = two_counts(blank);
        OverWrite {
            writer,
            book,
            failures,
            stalls,
        }
    }

    /// Returns the writer with the bytes that it took, so that its owner can look at the bytes.
    pub fn into_inner(self) -> W
        ensures { W.contents result ≡ self.taken }
    {
        let OverWrite {
            writer,
            book: _,
            failures: _,
            stalls: _,
        } = self;
        writer
    }
}

impl<W: Write, L: Ledger> Sink for OverWrite<W, L> {
    ghost written = { λ o. o };

    fn write(&mut self, bytes: &[u8]) -> Result<usize, Failed> {
        match self.writer.write(bytes) {
            Ok(count) => {
                if count == 0 && !bytes.is_empty() {
                    self.stalls.add(&mut self.book, 1);
                }
                Ok(count)
            }
            Err(_) => {
                self.failures.add(&mut self.book, 1);
                Err(Failed)
            }
        }
    }
}
