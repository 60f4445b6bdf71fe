//! A source and a sink that never fail.
ghost use Rattle.std.specs.Prelude.{◌≡◌, ℕ, ◌+◌, ◌-◌, ◌^◌, ◌<◌, ◌≤◌, List, [], drop, take};
ghost use Rattle.std.specs.Prelude.{length, min, Option, Some, None, Ok, IfOk, OnErr};
ghost use Rattle.byte_ends.specs.Ends.{HasRisen, Takes, Adds};
ghost use Rattle.byte_ends.specs.Memory.{Served};

use crate::{Failed, Sink, Source};
use std::marker::Model;

/// A source in memory that tells its bytes, gives at most so many a read and never fails.
#[derive(Drop)]
pub struct SureSource {
    bytes: Vec<u8>,
    at: usize,
    most: usize,
}

impl Model for SureSource {
    ghost use Rattle.std.specs.Prelude.{◌<◌, ◌≤◌, drop, length};
    ghost use Rattle.byte_ends.specs.Memory.{Served};

    ghost Value = { Served };

    ghost view = { λ s. record { left = drop s.at s.bytes.items; most = s.most } };

    ghost invariant = { λ s. (s.at ≤ length s.bytes.items) × (0 < s.most) };
}

impl SureSource {
    /// A source of these bytes that gives at most `most` bytes a read.
    pub fn new(bytes: Vec<u8>, most: usize) -> Self
        requires { 0 < most }
        ensures left { result.left ≡ bytes.items }
        ensures most { result.most ≡ most }
    {
        SureSource { bytes, at: 0, most }
    }

    /// The bytes that are left.
    pub fn left(&self) -> &[u8]
        ensures { result.now ≡ self.now.left }
    {
        &self.bytes[self.at..]
    }
}

impl Source for SureSource {
    ghost left = { λ s. Some s.left };

    ghost faults = { λ _. 0 };

    fn read(&mut self, buf: &mut [u8]) -> Result<usize, Failed>
        ensures fits { IfOk result (λ k. k ≤ length buf.old) }
        ensures taken { IfOk result (λ k. Takes k (Some self.old.left) (Some self.new.left) buf.old buf.new) }
        ensures gives { result ≡ Ok (min (min (length self.old.left) (length buf.old)) self.old.most) }
        ensures most { self.new.most ≡ self.old.most }
    {
        let taken = (self.bytes.len() - self.at).min(buf.len()).min(self.most);
        let end = self.at + taken;
        buf[..taken].copy_from_slice(&self.bytes[self.at..end]);
        self.at = end;
        Ok(taken)
    }
}

/// A sink that takes every piece whole and keeps only how many bytes it took, up to the last
/// value of a `u64`. It never fails.
#[derive(Drop)]
pub struct SureSink {
    taken: u64,
}

impl Model for SureSink {
    ghost use Rattle.std.specs.Prelude.{ℕ};

    ghost Value = { ℕ };

    ghost view = { λ s. s.taken };

    ghost invariant = { λ _. Unit {0} };
}

impl SureSink {
    /// A sink that has taken nothing.
    pub fn new() -> Self
        ensures { result ≡ 0 }
    {
        SureSink { taken: 0 }
    }

    /// How many bytes it has taken, up to the last value of a `u64`.
    pub fn taken(&self) -> u64
        ensures { result ≡ self.now }
    {
        self.taken
    }
}

impl Sink for SureSink {
    ghost held = { λ _. None };

    ghost faults = { λ _. 0 };

    fn write(&mut self, piece: &[u8]) -> Result<usize, Failed>
        ensures fits { IfOk result (λ k. k ≤ length piece.now) }
        ensures goes { IfOk result (λ k. k ≡ 0 → piece.now ≡ []) }
        ensures whole { result ≡ Ok (length piece.now) }
        ensures taken { self.new ≡ min (self.old + length piece.now) (2 ^ 64 - 1) }
    {
        self.taken = self.taken.saturating_add(piece.len() as u64);
        Ok(piece.len())
    }
}
