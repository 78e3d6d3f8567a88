//! What a pass knows. These values exist in proofs alone: no code makes one.

use tp_types::{Letter, List, Step, What};

/// A step in the history, with what happened in it and what was sent.
pub struct Entry {
    pub step: Step,
    pub happened: List<What>,
    pub letters: List<Letter>,
    /// The numbers of the parts that the poster held: its own, and that of the actor whose step it is.
    pub numbers: List<u32>,
}

/// A part of the history: the entries that name a number. Each number is held by one pass at most.
pub struct Part {
    pub number: u32,
    /// A beginning of the history behind which no entry names the number.
    pub upto: List<Entry>,
    /// The numbers of the mails that the part has taken, in rising order.
    pub took: List<u64>,
}

/// What one seat of the table knows.
pub struct View {
    /// Whether it holds the book, and so knows the whole history.
    pub book: bool,
    /// With the book: the history.
    pub log: List<Entry>,
    /// With the book: of each mail that was taken, in order of number, the part that took it.
    pub takers: List<u32>,
    pub parts: List<Part>,
    /// The beginning of the history that it has seen.
    pub seen: List<Entry>,
    /// Beginnings that were taken in. The next look tells that they begin what is seen now.
    pub also: List<List<Entry>>,
    /// A length that the history has reached.
    pub told: u64,
    /// A length up to which each mail that was sent has been taken.
    pub cleared: u64,
}
