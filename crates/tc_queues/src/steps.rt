//! Counting the steps that a call takes, at no cost when a program runs.

ghost use Rattle.std.specs.Prelude.{◌≡◌, ◌≤◌, ◌+◌, ℕ, Bool, true};

use std::marker::Model;
use std::sync::ledger::{Blank, Book, Ledger, Share};

/// A counter of steps. The functions that count steps are generic over this trait. They can't create a counter of their
/// own, so each of their steps is counted by their caller's counter.
pub trait Tick {
    // the number of steps that were counted
    ghost taken: { Self → ℕ };

    // whether each step is counted
    ghost counts: { Bool };

    /// Counts one step.
    fn tick(&mut self)
        ensures most { taken self.new ≤ taken self.old + 1 }
        ensures one { counts ≡ true → taken self.new ≡ taken self.old + 1 };
}

/// A counter of steps that takes no memory. Only [`tick`](Tick::tick) changes it.
#[derive(Drop)]
pub struct Steps<L: Ledger> {
    book: Book<L>,
    share: Share<L>,
}

impl<L: Ledger> Model for Steps<L> {
    ghost use Rattle.std.specs.Prelude.{ℕ, ◌<◌};

    ghost Value = { ℕ };

    ghost view = { λ s. s.book.total };

    ghost invariant = { λ s. 0 < s.share.parts };
}

impl<L: Ledger> Steps<L> {
    /// Creates a counter that stands at 0.
    pub fn new(blank: Blank) -> Steps<L>
        requires name { blank.name ≡ L.name }
        requires parts { blank.parts ≡ L.parts }
        requires one { blank.parts ≡ 1 }
        ensures { result ≡ 0 }
    {
        let (book, share) = blank.open::<L>();
        Steps { book, share }
    }
}

impl<L: Ledger> Tick for Steps<L> {
    ghost use Rattle.std.specs.Prelude.{true};

    ghost taken = { λ s. s };

    ghost counts = { true };

    #[inline(always)]
    fn tick(&mut self) {
        self.book.add(&mut self.share, 1);
    }
}
