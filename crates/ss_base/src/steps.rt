// Counting steps.
use std::marker::Model;
use std::sync::ledger::{Blank, Book, Ledger, Share};

/// How many steps were taken. It has no bytes, only `tick` changes it, and no code reads it: it is there for contracts.
///
/// A call that counts takes `steps: &mut Steps<L>` for any `L`. A caller that counts nothing passes `Blank::new(1)` to a
/// function over `L: Ledger`, at `Brand` for `L`, which makes its counter of it.
#[derive(Drop)]
pub struct Steps<L: Ledger> {
    book: Book<L>,
    share: Share<L>,
}

impl<L: Ledger> Model for Steps<L> {
    ghost use Rattle.std.specs.Prelude.{ℕ, ◌<◌};

    ghost Value = { ℕ };

    ghost view = { λ s. s.book.total };

    ghost invariant = { λ s. 0 < s.share.parts };
}

impl<L: Ledger> Steps<L> {
    ghost use Rattle.std.specs.Prelude.{◌≡◌, ◌+◌};
    ghost use Rattle.ss_base.specs.Steps.{IsFresh};

    /// A counter that stands at 0.
    pub fn new(blank: Blank) -> Steps<L>
        requires { IsFresh L.name L.parts blank }
        ensures { result ≡ 0 }
    {
        let (book, share) = blank.open::<L>();
        Steps { book, share }
    }

    /// One step more.
    pub fn tick(&mut self)
        ensures { self.new ≡ self.old + 1 }
    {
        self.book.add(&mut self.share, 1);
    }
}
