ghost use Rattle.std.specs.Prelude.{◌≡◌, ℕ, ◌+◌, ◌<◌, zero};

use std::marker::Model;
use std::sync::ledger::{Book, Ledger, Share};

/// A counter of steps of work.
///
/// Its count is a number of the contracts alone: it takes no bytes, has no last value and no effect on any answer.
#[derive(Drop)]
pub struct Steps<L: Ledger> {
    book: Book<L>,
    share: Share<L>,
}

impl<L: Ledger> Model for Steps<L> {
    ghost use Rattle.std.specs.Prelude.{ℕ, ◌<◌};

    ghost Value = { ℕ };

    ghost view = { λ s. s.book.total };

    ghost invariant = { λ s. 0 < s.share.parts };
}

impl<L: Ledger> Steps<L> {
    /// A counter at 0, from what a newly opened ledger gives: its book, and a share with at least one part.
    pub fn start(book: Book<L>, share: Share<L>) -> Steps<L>
        requires open { book.total ≡ 0 }
        requires parts { 0 < share.parts }
        ensures { result ≡ 0 }
    {
        Steps { book, share }
    }

    /// Counts one more step.
    pub fn tick(&mut self)
        ensures { self.new ≡ self.old + 1 }
    {
        self.book.add(&mut self.share, 1);
    }
}
