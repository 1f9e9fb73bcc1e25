//! A count of steps, which takes no bytes.
ghost use Rattle.std.specs.Prelude.{◌≡◌, ◌+◌, ℕ, ◌<◌};

use std::marker::Model;
use std::sync::ledger::{Book, Ledger, Share};

/// How many nodes of the document were read. Each reader of the document takes one and ticks it, so that a contract can
/// bound the reads. It takes no bytes when the program runs, and only `tick` changes it.
#[derive(Drop)]
pub struct Steps<L: Ledger> {
    book: Book<L>,
    share: Share<L>,
}

impl<L: Ledger> Model for Steps<L> {
    ghost Value = { ℕ };

    ghost view = { λ s. s.book.total };

    ghost invariant = { λ s. 0 < s.share.parts };
}

impl<L: Ledger> Steps<L> {
    /// A count over this ledger.
    pub fn new(book: Book<L>, share: Share<L>) -> Steps<L>
        requires { 0 < share.parts }
        ensures { result ≡ book.total }
    {
        Steps { book, share }
    }

    /// Counts one step.
    pub fn tick(&mut self)
        ensures { self.new ≡ self.old + 1 }
    {
        self.book.add(&mut self.share, 1);
    }
}
