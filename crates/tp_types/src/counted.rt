//! Counts of steps that stand in contracts alone.
ghost use Rattle.std.specs.Prelude.{◌≡◌, ◌≤◌, ◌+◌, ◌<◌, ℕ};

use std::marker::Model;
use std::sync::ledger::{Blank, Book, Ledger, Share};

/// A count of steps that contracts see, and that has no bytes at run time. A call that takes one says how many steps it makes at
/// most; what a step is, is said where it is counted.
#[derive(Drop)]
pub struct Steps<L: Ledger> {
    book: Book<L>,
    share: Share<L>,
}

impl<L: Ledger> Model for Steps<L> {
    ghost Value = { ℕ };

    ghost view = { λ steps. steps.book.total };

    ghost invariant = { λ steps. 0 < steps.share.parts };
}

impl<L: Ledger> Steps<L> {
    /// No step so far.
    pub fn none(blank: Blank) -> Steps<L>
        requires name { blank.name ≡ L.name }
        requires parts { blank.parts ≡ L.parts }
        requires some { 0 < blank.parts }
        ensures { result ≡ 0 }
    {
        let (book, share) = blank.open::<L>();
        Steps { book, share }
    }

    /// Counts one step.
    pub fn tick(&mut self)
        ensures { self.new ≡ self.old + 1 }
    {
        self.book.add(&mut self.share, 1)
    }
}

/// Who counts the steps of a call, or does not. A call that takes one is written once, and its steps are counted where a caller
/// asks for it.
pub trait Tally {
    ghost counted: { Self → ℕ };

    /// By how much each step raises the count: by one, or by nothing where no count is kept.
    ghost weight: { ℕ };

    /// One step. A body that is to work for each tally can raise the count by this call alone.
    fn step(&mut self)
        ensures exact { counted self.new ≡ counted self.old + weight }
        ensures most { counted self.new ≤ counted self.old + 1 };
}

impl<L: Ledger> Tally for Steps<L> {
    ghost counted = { λ steps. steps };

    ghost weight = { 1 };

    fn step(&mut self) {
        self.tick();
    }
}

/// No count. It has no bytes.
#[derive(Drop)]
pub struct Uncounted;

impl Tally for Uncounted {
    ghost counted = { λ none. 0 };

    ghost weight = { 0 };

    fn step(&mut self) {}
}
