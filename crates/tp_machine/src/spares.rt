//! Memory that steps lend one another.
use std::alloc::Global;
use tp_types::{Letter, Spare, What};

/// The memory of the lists in which a step tells what happened and what is sent, for those of the next step.
#[derive(Drop)]
pub struct Spares {
    pub facts: Spare<What>,
    pub letters: Spare<Letter>,
}

impl Spares {
    /// No memory yet.
    pub fn new(alloc: Global) -> Spares {
        Spares {
            facts: Spare::new(alloc),
            letters: Spare::new(alloc),
        }
    }

    /// Where this memory comes from.
    #[inline(always)]
    pub fn alloc(&self) -> Global {
        self.letters.alloc()
    }
}
