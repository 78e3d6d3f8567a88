//! Where bytes come from and go to, with a count of the faults that each source and sink has met.
//!
//! What is promised, with the contract that carries it:
//!
//! - One read answers at most the buffer's length, takes just so many bytes of the source, puts them into the
//!   buffer's front, and leaves the rest of the buffer. A read that fails took nothing. Zero, where there is
//!   room, means the end (`Source::read`: `bound`, `bytes`, `rest`)
//! - One write answers at most the piece's length and appends just so many bytes of its front. A write that
//!   fails appended nothing (`Sink::write`: `bound`, `bytes`)
//! - A call fails only where the count of faults rose, and so does a write that takes nothing of a piece that
//!   is not empty. A count never falls (`Source::read`: `cause`, `later`; `Sink::write`: `cause`, `none_taken`,
//!   `later`)
//! - Reading to the end gives all that was taken, at the input's end and within the limit that its caller gives
//!   (`read_to_end`: `whole`)
//! - It takes at most one byte more than the limit, whatever it answers, and TooLong means exactly that many
//!   (`read_to_end`: `limit`, `too_long`)
//! - Where the input tells its bytes, Ok is all of them, and TooLong comes only where they are too many
//!   (`read_to_end`: `all`)
//! - A fault is answered only where the source's count of faults rose (`read_to_end`: `fault`, `later`)
//! - Writing appends the whole text, or at a failure a front of it that is not the whole (`write_all`: `whole`,
//!   `front`)
//! - It fails only where the sink's count of faults rose (`write_all`: `cause`, `later`)
//! - The sources and sinks in memory do at each call exactly what they were made for, but that a sink that
//!   keeps its bytes may also fail for want of memory (`MemorySource`, `MemorySink`, `SteadySource`,
//!   `SteadySink`: the clause `exact` of their `read` and `write`)
//! - The adapters over std's readers and writers count a fault at each error that they answer, and at a write
//!   that takes nothing of a piece (`ReadSource`, `WriteSink`: the clause `exact`)
#![tactic(auto)]

ghost use Rattle.std.specs.Prelude.{ℕ, ◌≡◌, ◌<◌, ◌≤◌, length, take, drop, List, Option, IfOk, OnErr};
ghost use Rattle.std.specs.Io.{ReadsAtMost, WritesAtMost};
ghost use Rattle.std.specs.Io.KnownBytes.{ReadConsumes, WriteAppends};
ghost use Rattle.tp_types.specs.Faults.{Rose};

mod adapters;
mod copy;
mod memory;
mod steady;
mod whole;

pub use adapters::{ReadSource, StdNotes, StdSink, StdSource, WriteSink};
pub use memory::{MemorySink, MemorySource};
pub use steady::{SteadySink, SteadySource};
pub use whole::{ReadError, read_to_end, write_all};

/// A read or a write failed. A call of a source has then taken nothing, and a call of a sink written
/// nothing; of a whole text a front may have been written.
#[derive(Debug, Drop, PartialEq)]
pub struct Failed;

/// Where bytes come from.
pub trait Source {
    // The bytes still to come, or None where that is not told.
    ghost left: { Self → Option (List ℕ) };

    // How many faults there have been, a count of 64 bits that stands still at its end.
    ghost faults: { Self → ℕ };

    /// Takes some bytes into the front of the buffer and answers how many. None, with room for
    /// some, is the end of input.
    fn read(&mut self, buf: &mut [u8]) -> Result<usize, Failed>
        ensures bound { ReadsAtMost result buf.new }
        ensures bytes { ReadConsumes (left self.old) (left self.new) result buf.new }
        ensures rest { IfOk result (λ n. drop n buf.new ≡ drop n buf.old) }
        ensures later { faults self.old ≤ faults self.new }
        ensures cause { OnErr result (Rose (faults self.old) (faults self.new)) };
}

/// Where bytes go.
pub trait Sink {
    // The bytes written so far, or None where that is not told.
    ghost written: { Self → Option (List ℕ) };

    // How many faults there have been, a count of 64 bits that stands still at its end.
    ghost faults: { Self → ℕ };

    /// Writes some bytes of the piece's front and answers how many. None of a piece that is not
    /// empty is a fault.
    fn write(&mut self, piece: &[u8]) -> Result<usize, Failed>
        ensures bound { WritesAtMost result piece.now }
        ensures bytes { WriteAppends (written self.old) (written self.new) result piece.now }
        ensures later { faults self.old ≤ faults self.new }
        ensures cause { OnErr result (Rose (faults self.old) (faults self.new)) }
        ensures none_taken { IfOk result (λ n. n ≡ 0 → 0 < length piece.now
            → Rose (faults self.old) (faults self.new)) };
}
