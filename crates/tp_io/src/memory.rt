//! A source and a sink in memory, with calls that fail and calls that are short.
ghost use Rattle.std.specs.Prelude.{ℕ, ◌≡◌, ◌<◌, ◌≤◌, [], Some, length, drop, true, false, IfOk, OnOk, OnErr};
ghost use Rattle.std.specs.Io.{ReadsAtMost, WritesAtMost};
ghost use Rattle.std.specs.Io.KnownBytes.{ReadConsumes, WriteAppends};
ghost use Rattle.tp_types.specs.Faults.{Rose, one_more};
ghost use Rattle.tp_io.specs.Fakes.{Supplies, Stores, is_due};

use crate::copy::copy_front;
use crate::{Failed, Sink, Source};
use std::alloc::Global;
use std::marker::Model;
use tp_types::List;

/// Which calls are to fail, one_more from 0, how many there were, and how many faults.
#[derive(Drop)]
struct Script {
    fails: List<u64>,
    calls: u64,
    faults: u64,
}

impl Script {
    fn new(fails: List<u64>) -> Script
        ensures { result ≡ record { fails = fails; calls = 0; faults = 0 } }
    {
        Script {
            fails,
            calls: 0,
            faults: 0,
        }
    }

    /// Counts a call, and fails where it is to fail.
    fn pass(&mut self) -> Result<(), Failed>
        ensures ok { OnOk result ((is_due self.old.fails self.old.calls ≡ false)
            × (self.new ≡ record self.old { calls = one_more self.old.calls })) }
        ensures err { OnErr result ((is_due self.old.fails self.old.calls ≡ true)
            × (self.new ≡ record self.old {
              calls = one_more self.old.calls;
              faults = one_more self.old.faults;
            })) }
        ensures later { self.old.faults ≤ self.new.faults }
    {
        let call = self.calls;
        self.calls = call.saturating_add(1);
        if is_among(call, &self.fails) {
            return Err(self.fault());
        }
        Ok(())
    }

    /// Counts a fault.
    fn fault(&mut self) -> Failed
        ensures one_more { self.new ≡ record self.old { faults = one_more self.old.faults } }
        ensures later { self.old.faults ≤ self.new.faults }
    {
        self.faults = self.faults.saturating_add(1);
        Failed
    }
}

fn is_among(call: u64, fails: &List<u64>) -> bool
    ensures { result ≡ is_due fails.now call }
{
    fails.iter().any(|due| *due == call)
}

/// A source of these bytes. `fails` names the calls that fail, one_more from 0, and a call gives at
/// most `most` bytes.
#[derive(Drop)]
pub struct MemorySource {
    bytes: List<u8>,
    at: usize,
    most: usize,
    script: Script,
}

impl Model for MemorySource {
    ghost use Rattle.std.specs.Prelude.{◌≤◌, length, drop};
    ghost use Rattle.tp_io.specs.Fakes.{Supply};

    ghost Value = { Supply };

    ghost view = { λ s. record {
      left = drop s.at s.bytes;
      fails = s.script.fails;
      most = s.most;
      calls = s.script.calls;
      faults = s.script.faults;
    } };

    ghost invariant = { λ s. (s.at ≤ length s.bytes) × (1 ≤ s.most) };
}

impl MemorySource {
    /// No call has been made yet.
    pub fn new(bytes: List<u8>, fails: List<u64>, most: usize) -> MemorySource
        requires { 1 ≤ most }
        ensures { result
            ≡ record { left = bytes; fails = fails; most = most; calls = 0; faults = 0 } }
    {
        MemorySource {
            bytes,
            at: 0,
            most,
            script: Script::new(fails),
        }
    }
}

impl Source for MemorySource {
    ghost left = { λ s. Some s.left };

    ghost faults = { λ s. s.faults };

    #[tactic(auto, using(crate::proofs::Laws::reads_on, crate::proofs::Laws::stays_empty))]
    fn read(&mut self, buf: &mut [u8]) -> Result<usize, Failed>
        ensures bound { ReadsAtMost result buf.new }
        ensures bytes { ReadConsumes (Some self.old.left) (Some self.new.left) result buf.new }
        ensures rest { IfOk result (λ n. drop n buf.new ≡ drop n buf.old) }
        ensures later { self.old.faults ≤ self.new.faults }
        ensures cause { OnErr result (Rose self.old.faults self.new.faults) }
        ensures exact { Supplies self.old (length buf.old) result self.new }
    {
        self.script.pass()?;
        let (_, left) = self.bytes.as_slice().split_at(self.at);
        let count = self.most.min(buf.len()).min(left.len());
        copy_front(left, count, buf);
        self.at += count;
        Ok(count)
    }
}

/// A sink that keeps what is written to it. `fails` names the calls that fail, one_more from 0, and
/// a call takes at most `most` bytes. A call that gets no memory fails too.
/// It counts it as a fault where memory for its bytes is refused, since a sink has no other way to say that it
/// took nothing.
#[derive(Drop)]
pub struct MemorySink {
    bytes: Vec<u8>,
    most: usize,
    script: Script,
}

impl Model for MemorySink {
    ghost use Rattle.std.specs.Prelude.{◌≤◌};
    ghost use Rattle.tp_io.specs.Fakes.{Store};

    ghost Value = { Store };

    ghost view = { λ s. record {
      written = s.bytes.items;
      fails = s.script.fails;
      most = s.most;
      calls = s.script.calls;
      faults = s.script.faults;
    } };

    ghost invariant = { λ s. 1 ≤ s.most };
}

impl MemorySink {
    /// No call has been made yet, and nothing written.
    pub fn new(alloc: Global, fails: List<u64>, most: usize) -> MemorySink
        requires { 1 ≤ most }
        ensures { result
            ≡ record { written = []; fails = fails; most = most; calls = 0; faults = 0 } }
    {
        MemorySink {
            bytes: Vec::new(alloc),
            most,
            script: Script::new(fails),
        }
    }

    /// What was written.
    pub fn bytes(&self) -> &[u8]
        ensures { result.now ≡ self.now.written }
    {
        self.bytes.as_slice()
    }
}

impl Sink for MemorySink {
    ghost written = { λ s. Some s.written };

    ghost faults = { λ s. s.faults };

    fn write(&mut self, piece: &[u8]) -> Result<usize, Failed>
        ensures bound { WritesAtMost result piece.now }
        ensures bytes { WriteAppends (Some self.old.written) (Some self.new.written)
            result piece.now }
        ensures later { self.old.faults ≤ self.new.faults }
        ensures cause { OnErr result (Rose self.old.faults self.new.faults) }
        ensures none_taken { IfOk result (λ n. n ≡ 0 → 0 < length piece.now
            → Rose self.old.faults self.new.faults) }
        ensures exact { Stores self.old piece.now result self.new }
    {
        self.script.pass()?;
        let count = self.most.min(piece.len());
        let (front, _) = piece.split_at(count);
        match self.bytes.extend_from_slice(front) {
            Ok(()) => Ok(count),
            Err(_) => Err(self.script.fault()),
        }
    }
}
