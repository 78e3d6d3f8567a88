//! Any reader of std as a source, and any writer of std as a sink.
ghost use Rattle.std.specs.Prelude.{◌≡◌, ◌<◌, ◌≤◌, length, drop, is_ok, if◌then◌else◌, IfOk, OnErr};
ghost use Rattle.std.specs.Io.{ReadsAtMost, WritesAtMost};
ghost use Rattle.std.specs.Io.KnownBytes.{ReadConsumes, WriteAppends};
ghost use Rattle.tp_types.specs.Faults.{Rose, one_more};
ghost use Rattle.tp_io.specs.Adapters as adapters;

use crate::copy::copy_front;
use crate::{Failed, Sink, Source};
use std::io::{self, Read, Stderr, Stdin, Stdout, Write};
use std::marker::Model;

/// The most bytes that one read asks of the reader.
const PIECE_MAX: usize = 4096;

/// A reader of std as a source. Each error that it answers is a fault. It tells the bytes that the
/// reader tells.
#[derive(Drop)]
pub struct ReadSource<R> {
    reader: R,
    faults: u64,
}

impl<R> Model for ReadSource<R> {
    ghost use Rattle.tp_io.specs.Adapters.{Counter, counter_code};

    ghost Value = { Counter R };

    ghost coded = { counter_code R.code };

    ghost view = { λ s. record { inner = s.reader; faults = s.faults } };
}

impl<R: Read + Drop> ReadSource<R> {
    /// No fault has been met yet.
    pub fn new(reader: R) -> ReadSource<R>
        ensures { result ≡ record { inner = reader; faults = 0 } }
    {
        ReadSource { reader, faults: 0 }
    }
}

impl<R: Read + Drop> Source for ReadSource<R> {
    ghost left = { λ s. R.remaining s.inner };

    ghost faults = { λ s. s.faults };

    // A reader of std may change the buffer past what it read, so it gets a buffer of its own.
    fn read(&mut self, buf: &mut [u8]) -> Result<usize, Failed>
        ensures bound { ReadsAtMost result buf.new }
        ensures bytes { ReadConsumes (R.remaining self.old.inner) (R.remaining self.new.inner)
            result buf.new }
        ensures rest { IfOk result (λ n. drop n buf.new ≡ drop n buf.old) }
        ensures later { self.old.faults ≤ self.new.faults }
        ensures cause { OnErr result (Rose self.old.faults self.new.faults) }
        ensures exact { self.new.faults
            ≡ (if is_ok result then self.old.faults else one_more self.old.faults) }
    {
        let mut piece = [0; PIECE_MAX];
        let (room, _) = piece.split_at_mut(buf.len().min(PIECE_MAX));
        match self.reader.read(room) {
            Ok(count) => {
                copy_front(room, count, buf);
                Ok(count)
            }
            Err(_) => {
                self.faults = self.faults.saturating_add(1);
                Err(Failed)
            }
        }
    }
}

/// Standard input. It tells no bytes.
pub type StdSource = ReadSource<Stdin>;

/// A writer of std as a sink. Each error that it answers is a fault, and so is a call that takes
/// nothing of a piece that is not empty. It tells the bytes that the writer tells.
#[derive(Drop)]
pub struct WriteSink<W> {
    writer: W,
    faults: u64,
}

impl<W> Model for WriteSink<W> {
    ghost use Rattle.tp_io.specs.Adapters.{Counter, counter_code};

    ghost Value = { Counter W };

    ghost coded = { counter_code W.code };

    ghost view = { λ s. record { inner = s.writer; faults = s.faults } };
}

impl<W: Write + Drop> WriteSink<W> {
    /// No fault has been met yet.
    pub fn new(writer: W) -> WriteSink<W>
        ensures { result ≡ record { inner = writer; faults = 0 } }
    {
        WriteSink { writer, faults: 0 }
    }
}

impl<W: Write + Drop> Sink for WriteSink<W> {
    ghost written = { λ s. W.contents s.inner };

    ghost faults = { λ s. s.faults };

    fn write(&mut self, piece: &[u8]) -> Result<usize, Failed>
        ensures bound { WritesAtMost result piece.now }
        ensures bytes { WriteAppends (W.contents self.old.inner) (W.contents self.new.inner)
            result piece.now }
        ensures later { self.old.faults ≤ self.new.faults }
        ensures cause { OnErr result (Rose self.old.faults self.new.faults) }
        ensures none_taken { IfOk result (λ n. n ≡ 0 → 0 < length piece.now
            → Rose self.old.faults self.new.faults) }
        ensures exact { self.new.faults ≡ (if adapters.took_some result piece.now
            then self.old.faults else one_more self.old.faults) }
    {
        let answer = self.writer.write(piece);
        if !took_some(&answer, piece) {
            self.faults = self.faults.saturating_add(1);
        }
        answer.map_err(|_| Failed)
    }
}

/// Standard output. It tells no bytes.
pub type StdSink = WriteSink<Stdout>;

/// Standard error. It tells no bytes.
/// It is another stream than standard output, and so has a name of its own; all three are adapters over any
/// reader or writer, so tests can use them with streams that fail.
pub type StdNotes = WriteSink<Stderr>;

/// Whether a writer took some of the piece, or had nothing to take.
fn took_some(answer: &io::Result<usize>, piece: &[u8]) -> bool
    ensures { result ≡ adapters.took_some answer.now piece.now }
{
    match answer {
        Ok(count) => *count > 0 || piece.is_empty(),
        Err(_) => false,
    }
}
