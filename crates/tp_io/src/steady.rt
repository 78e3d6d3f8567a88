//! A source and a sink that never fail.
ghost use Rattle.std.specs.Prelude.{ℕ, ◌≡◌, ◌≢◌, ◌<◌, ◌≤◌, min, Some, None, length, drop, IfOk, IsOkAnd, OnErr};
ghost use Rattle.std.specs.Io.{ReadsAtMost, WritesAtMost};
ghost use Rattle.std.specs.Io.KnownBytes.{ReadConsumes, WriteAppends};
ghost use Rattle.tp_types.specs.Faults.{Rose};

use crate::copy::copy_front;
use crate::{Failed, Sink, Source};
use std::marker::Model;
use tp_types::List;

/// A source of these bytes that never fails. Contracts see the bytes still to come.
#[derive(Drop)]
pub struct SteadySource {
    bytes: List<u8>,
    at: usize,
}

impl Model for SteadySource {
    ghost use Rattle.std.specs.Prelude.{ℕ, ◌≤◌, List, length, drop};

    ghost Value = { List ℕ };

    ghost view = { λ s. drop s.at s.bytes };

    ghost invariant = { λ s. s.at ≤ length s.bytes };
}

impl SteadySource {
    /// All bytes are still to come.
    pub fn new(bytes: List<u8>) -> SteadySource
        ensures { result ≡ bytes }
    {
        SteadySource { bytes, at: 0 }
    }
}

impl Source for SteadySource {
    ghost left = { λ s. Some s };

    ghost faults = { λ _. 0 };

    #[tactic(auto, using(crate::proofs::Laws::reads_on, crate::proofs::Laws::stays_empty))]
    fn read(&mut self, buf: &mut [u8]) -> Result<usize, Failed>
        ensures bound { ReadsAtMost result buf.new }
        ensures bytes { ReadConsumes (Some self.old) (Some self.new) result buf.new }
        ensures rest { IfOk result (λ n. drop n buf.new ≡ drop n buf.old) }
        ensures exact { IsOkAnd result (λ n. (n ≡ min (length buf.old) (length self.old))
            × (self.new ≡ drop n self.old)) }
    {
        let (_, left) = self.bytes.as_slice().split_at(self.at);
        let count = buf.len().min(left.len());
        copy_front(left, count, buf);
        self.at += count;
        Ok(count)
    }
}

/// A sink that takes each piece whole, keeps none of it, and never fails.
#[derive(Drop)]
pub struct SteadySink;

impl SteadySink {
    /// It has no state, so each is like any other.
    pub fn new() -> SteadySink {
        SteadySink
    }
}

impl Sink for SteadySink {
    ghost written = { λ _. None };

    ghost faults = { λ _. 0 };

    fn write(&mut self, piece: &[u8]) -> Result<usize, Failed>
        ensures bound { WritesAtMost result piece.now }
        ensures bytes { WriteAppends None None result piece.now }
        ensures none_taken { IfOk result (λ n. n ≡ 0 → 0 < length piece.now → ⊥) }
        ensures exact { IsOkAnd result (λ n. n ≡ length piece.now) }
    {
        Ok(piece.len())
    }
}
