//! Bytes that are being read, from the front.
ghost use Rattle.std.specs.Prelude.{◌≡◌, ◌≤◌, ◌<◌, length, take, drop, nat_lt, None, Some, if◌then◌else◌};
ghost use Rattle.tp_record.specs.mirrors.Gives.{Gives};
ghost use Rattle.tp_record.specs.mirrors.Readings as readings;

use std::alloc::{AllocError, AllocFailed, Global};
use tp_types::NoMemory;

/// Why a reader gives no value: the bytes, or the want of memory.
#[derive(Drop)]
pub(crate) enum Halt {
    NoRecord,
    NoMemory,
}

impl From<NoMemory> for Halt {
    ghost use Rattle.tp_record.specs.declared.bytes.Halt.{Halt};

    ghost from_gives = { λ _ halt. halt ≡ Halt.NoMemory };

    fn from(_error: NoMemory) -> Halt {
        Halt::NoMemory
    }
}

/// Bytes that are being read.
#[derive(Drop)]
pub(crate) struct Reader<'a> {
    pub(crate) alloc: Global,
    /// What is left of the bytes.
    pub(crate) rest: &'a [u8],
}

impl<'a> Reader<'a> {
    /// Takes so many bytes.
    pub(crate) fn front(&mut self, count: usize) -> Result<&'a [u8], Halt>
        ensures { Gives (readings.shown result) self.new.rest.now
            (readings.front_at count self.old.rest.now) }
    {
        if self.rest.len() < count {
            return Err(Halt::NoRecord);
        }
        let (front, rest) = self.rest.split_at(count);
        self.rest = rest;
        Ok(front)
    }

    /// Takes a byte.
    pub(crate) fn byte(&mut self) -> Result<u8, Halt>
        ensures { Gives result self.new.rest.now (readings.byte_at self.old.rest.now) }
    {
        match self.rest.split_first() {
            None => Err(Halt::NoRecord),
            Some((byte, rest)) => {
                self.rest = rest;
                Ok(*byte)
            }
        }
    }
}
