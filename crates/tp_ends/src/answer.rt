//! The answer to a command, made whole before anything is written.
ghost use Rattle.std.specs.Prelude.{[], ◌≡◌};

use std::alloc::Global;
use tp_types::{List, Text};

/// What comes of a command.
#[derive(Drop)]
pub enum Answer {
    /// What it is asked for: the report of a run or its trace, or the line of a large one.
    Text(Text),
    /// The input is not a scenario that can be run, or one of its listed steps is refused: what is told before that,
    /// and the line that says so.
    Refused { text: Text, line: Text },
    /// The input failed.
    ReadFault,
    /// No memory was to be had.
    NoMemory,
}

/// What is told before a refusal of which nothing is told.
pub fn no_text(alloc: Global) -> Text
    ensures { result.0 ≡ [] }
{
    Text(List::new(alloc))
}
