//! Reading an input to its end, and writing a whole text.
ghost use Rattle.std.specs.Prelude.{ℕ, ◌≡◌, ◌+◌, ◌-◌, ◌<◌, ◌≤◌, length, IfOk, OnOk, OnErr, IsErrOf};
ghost use Rattle.std.specs.Io.KnownBytes.{Consumes, Appends, IsAtEnd};
ghost use Rattle.tp_types.specs.Faults.{Rose};
ghost use Rattle.tp_io.specs.Whole.{Took, TakesAtMost, TakesExactly, ReadsAll, AppendsFront};

use crate::{Failed, Sink, Source};
use std::alloc::{AllocError, Global};
use tp_types::List;

/// The most bytes that one read asks for.
const PIECE_MAX: usize = 4096;

/// Why an input was not read to its end.
#[derive(Debug, Drop, PartialEq)]
pub enum ReadError {
    /// The input has more bytes than it may have.
    TooLong,
    /// The source failed.
    Fault,
    /// No memory was to be had.
    NoMemory,
}

impl From<Failed> for ReadError {
    ghost use Rattle.std.specs.Prelude.{◌≡◌};
    ghost use Rattle.tp_io.specs.declared.whole.ReadError.TheVariants.{Fault};

    ghost from_gives = { λ _ e. e ≡ Fault };

    fn from(_error: Failed) -> ReadError {
        ReadError::Fault
    }
}

impl From<AllocError> for ReadError {
    ghost use Rattle.std.specs.Prelude.{◌≡◌};
    ghost use Rattle.tp_io.specs.declared.whole.ReadError.TheVariants.{NoMemory};

    ghost from_gives = { λ _ e. e ≡ NoMemory };

    fn from(_error: AllocError) -> ReadError {
        ReadError::NoMemory
    }
}

/// One read, appended to the bytes, of which there may be so many. The answer is whether there was something to read.
fn read_piece<I: Source>(
    source: &mut I,
    bytes: &mut Vec<u8>,
    most: usize,
) -> Result<bool, ReadError>
    requires { length bytes.old.items ≤ most }
    ensures took { IfOk result
        (Took most (I.left source.old) (I.left source.new) bytes.old.items bytes.new.items) }
    ensures limit { OnErr result (TakesAtMost (most + 1 - length bytes.old.items)
        (I.left source.old) (I.left source.new)) }
    ensures fault { IsErrOf result ReadError.Fault
        → Rose (I.faults source.old) (I.faults source.new) }
    ensures later { I.faults source.old ≤ I.faults source.new }
    ensures not_long { IsErrOf result ReadError.TooLong → ⊥ }
{
    let mut piece = [0; PIECE_MAX];
    let room = (most - bytes.len()).saturating_add(1);
    let (front, _) = piece.split_at_mut(room.min(PIECE_MAX));
    let count = source.read(front)?;
    let (read, _) = front.split_at(count);
    bytes.extend_from_slice(read)?;
    Ok(count > 0)
}

/// Reads an input to its end, or until it has more bytes than `most`, which it may have.
#[tactic(auto, using(crate::proofs::Laws::takes_on))]
pub fn read_to_end<I: Source>(
    alloc: Global,
    source: &mut I,
    most: usize,
) -> Result<List<u8>, ReadError>
    ensures whole { IfOk result (λ bytes. Consumes (I.left source.old) (I.left source.new) bytes
        × IsAtEnd (I.left source.new) × (length bytes ≤ most)) }
    ensures too_long { IsErrOf result ReadError.TooLong
        → TakesExactly (most + 1) (I.left source.old) (I.left source.new) }
    ensures limit { TakesAtMost (most + 1) (I.left source.old) (I.left source.new) }
    ensures fault { IsErrOf result ReadError.Fault
        → Rose (I.faults source.old) (I.faults source.new) }
    ensures later { I.faults source.old ≤ I.faults source.new }
    ensures all { ReadsAll most (I.left source.old) result }
{
    let mut bytes = Vec::new(alloc);
    while bytes.len() <= most {
        if !read_piece(source, &mut bytes, most)? {
            return Ok(List::from_vec(bytes));
        }
    }
    Err(ReadError::TooLong)
}

/// Writes the whole text, or a part of its front where the sink fails. It takes no memory.
#[tactic(auto, using(crate::proofs::Laws::appends_on))]
pub fn write_all<O: Sink>(sink: &mut O, text: &[u8]) -> Result<(), Failed>
    ensures whole { OnOk result (Appends (O.written sink.old) (O.written sink.new) text.now) }
    ensures front { OnErr result (AppendsFront (O.written sink.old) (O.written sink.new) text.now) }
    ensures cause { OnErr result (Rose (O.faults sink.old) (O.faults sink.new)) }
    ensures later { O.faults sink.old ≤ O.faults sink.new }
{
    let mut done = 0;
    while done < text.len() {
        let (_, rest) = text.split_at(done);
        let count = sink.write(rest)?;
        if count == 0 {
            return Err(Failed);
        }
        done += count;
    }
    Ok(())
}
