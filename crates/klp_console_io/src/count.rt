//! Counts that exist for contracts alone. No code reads these counts, so they cost nothing.
ghost use Rattle.std.specs.Prelude.{◌≡◌, ◌+◌, ◌≤◌};

use std::marker::Model;
use std::sync::ledger::{Blank, Book, Ledger, Share};

/// A whole number without a greatest value, for contracts alone. It takes no bytes, and increasing it does nothing at
/// run time. A number of 64 bits would have a greatest value, and at that value no clause could say "one more"
/// (docs/DECISIONS.md, "Counts in a ledger"). The value of the number is in the ledger's book, which is a separate
/// value.
#[derive(Drop)]
pub struct Count<L: Ledger> {
    share: Share<L>,
}

impl<L: Ledger> Model for Count<L> {
    ghost use Rattle.std.specs.Prelude.{ℕ, ◌<◌};

    ghost Value = { ℕ };

    ghost view = { λ c. c.share.amount };

    ghost invariant = { λ c. 0 < c.share.parts };
}

impl<L: Ledger> Count<L> {
    /// Adds `more` to the count. The book is passed in, since all counts of a stream share one.
    pub fn add(&mut self, book: &mut Book<L>, more: usize)
        ensures { self.new ≡ self.old + more }
    {
        book.add(&mut self.share, more as u64);
    }
}

/// Makes two counts for a sink, in one book and both 0. The caller who makes a stream passes one blank for all counts
/// of the stream.
pub fn two_counts<L: Ledger>(blank: Blank) -> (Book<L>, Count<L>, Count<L>)
    requires name { blank.name ≡ L.name }
    requires parts { blank.parts ≡ L.parts }
    requires two { 2 ≤ blank.parts }
    ensures first { result.1 ≡ 0 }
    ensures second { result.2 ≡ 0 }
{
    let (book, mut share) = blank.open::<L>();
    let other = share.split_off(1, 0);
    (book, Count { share }, Count { share: other })
}

/// Makes three counts for a source, in one book and all 0.
pub fn three_counts<L: Ledger>(blank: Blank) -> (Book<L>, Count<L>, Count<L>, Count<L>)
    requires name { blank.name ≡ L.name }
    requires parts { blank.parts ≡ L.parts }
    requires three { 3 ≤ blank.parts }
    ensures first { result.1 ≡ 0 }
    ensures second { result.2 ≡ 0 }
    ensures third { result.3 ≡ 0 }
{
    let (book, mut share) = blank.open::<L>();
    let second = share.split_off(1, 0);
    let third = share.split_off(1, 0);
    (
        book,
        Count { share },
        Count { share: second },
        Count { share: third },
    )
}
