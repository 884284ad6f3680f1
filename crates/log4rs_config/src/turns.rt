//! A count of comparisons for contracts.

use std::marker::Model;
use std::sync::ledger::{Blank, Book, Ledger, Share};

/// The number of entries that were compared. Only contracts see it: it has no bytes and costs
/// nothing at run time.
#[derive(Drop)]
pub struct Turns<L: Ledger> {
    book: Book<L>,
    share: Share<L>,
}

impl<L: Ledger> Model for Turns<L> {
    ghost use Rattle.std.specs.Prelude.{ℕ, ◌<◌};

    ghost Value = { ℕ };

    ghost view = { λ t. t.book.total };

    ghost invariant = { λ t. 0 < t.share.parts };
}

ghost use Rattle.std.specs.Prelude.{◌≡◌, ◌+◌, ◌<◌};

impl<L: Ledger> Turns<L> {
    /// Creates a count of 0. The blank ledger stands for the type that counts.
    pub fn new(blank: Blank) -> Turns<L>
        requires name { blank.name ≡ L.name }
        requires parts { blank.parts ≡ L.parts }
        requires some { 0 < blank.parts }
        ensures { result ≡ 0 }
    {
        let (book, share) = blank.open::<L>();
        Turns { book, share }
    }

    /// Counts one comparison.
    pub(crate) fn tick(&mut self)
        ensures { self.new ≡ self.old + 1 }
    {
        self.book.add(&mut self.share, 1);
    }
}
