//! A source and a sink in memory, which tell their bytes and fail where they are told to.
ghost use Rattle.std.specs.Prelude.{◌≡◌, ◌↔◌, ◌+◌, ◌-◌, ◌^◌, ◌<◌, ◌≤◌, ◌++◌, List, [], take, drop};
ghost use Rattle.std.specs.Prelude.{length, min, Some, Contains, IsTrue, IsErr, IfOk, OnOk, OnErr};
ghost use Rattle.byte_ends.specs.Ends.{HasRisen, Takes, Adds};
ghost use Rattle.byte_ends.specs.Memory.{Given, Taken, one_more, IsBadRead, IsBadWrite};

use crate::{Failed, Sink, Source};
use spk_nums::Memory;
use std::alloc::Global;
use std::marker::Model;

// Whether the call after so many others is among those that fail.
fn is_bad(fails: &[u32], calls: u64) -> bool
    ensures { IsTrue result ↔ Contains fails.now (calls + 1) }
{
    fails
        .iter()
        .any(|number| *number > 0 && u64::from(*number - 1) == calls)
}

/// A source in memory. It gives at most `most` bytes a read, and fails exactly at the reads whose
/// number, from 1, is in `fails`.
#[derive(Drop)]
pub struct MemSource {
    bytes: Vec<u8>,
    at: usize,
    most: usize,
    fails: Vec<u32>,
    calls: u64,
    faults: u64,
}

impl Model for MemSource {
    ghost use Rattle.std.specs.Prelude.{◌<◌, ◌≤◌, drop, length};
    ghost use Rattle.byte_ends.specs.Memory.{Given};

    ghost Value = { Given };

    ghost view = { λ s. record {
      left = drop s.at s.bytes.items;
      most = s.most;
      fails = s.fails.items;
      calls = s.calls;
      faults = s.faults;
    } };

    ghost invariant = { λ s. (s.at ≤ length s.bytes.items) × (0 < s.most) };
}

impl MemSource {
    /// A source of these bytes, not yet read.
    pub fn new(bytes: Vec<u8>, most: usize, fails: Vec<u32>) -> Self
        requires { 0 < most }
        ensures { result ≡ record {
          left = bytes.items;
          most = most;
          fails = fails.items;
          calls = 0;
          faults = 0;
        } }
    {
        MemSource {
            bytes,
            at: 0,
            most,
            fails,
            calls: 0,
            faults: 0,
        }
    }

    /// The bytes that are left.
    pub fn left(&self) -> &[u8]
        ensures { result.now ≡ self.now.left }
    {
        &self.bytes[self.at..]
    }

    /// How many reads have been made, up to the last value of a `u64`.
    pub fn calls(&self) -> u64
        ensures { result ≡ self.now.calls }
    {
        self.calls
    }
}

impl Source for MemSource {
    ghost left = { λ s. Some s.left };

    ghost faults = { λ s. s.faults };

    /// Fails exactly where its number, from 1, is among those that fail. Else it gives as many
    /// bytes as are left, fit the buffer and are within the most of a read.
    fn read(&mut self, buf: &mut [u8]) -> Result<usize, Failed>
        ensures fits { IfOk result (λ k. k ≤ length buf.old) }
        ensures taken { IfOk result (λ k. Takes k (Some self.old.left) (Some self.new.left) buf.old buf.new) }
        ensures gives { IfOk result (λ k. k ≡ min (min (length self.old.left) (length buf.old)) self.old.most) }
        ensures fails { IsErr result ↔ IsBadRead self.old }
        ensures kept { OnErr result (self.new ≡ record self.old { calls = one_more self.old.calls; faults = one_more self.old.faults }) }
        ensures others { OnOk result (self.new ≡ record self.old { left = self.new.left; calls = one_more self.old.calls }) }
        ensures failed { OnErr result (HasRisen self.old.faults self.new.faults) }
        ensures count { self.old.faults ≤ self.new.faults }
    {
        let bad = is_bad(&self.fails, self.calls);
        self.calls = self.calls.saturating_add(1);
        if bad {
            self.faults = self.faults.saturating_add(1);
            return Err(Failed);
        }
        let taken = (self.bytes.len() - self.at).min(buf.len()).min(self.most);
        let end = self.at + taken;
        buf[..taken].copy_from_slice(&self.bytes[self.at..end]);
        self.at = end;
        Ok(taken)
    }
}

/// A sink in memory. It holds at most `room` bytes, takes at most `most` bytes a write, and fails
/// exactly at the writes whose number, from 1, is in `fails`, and where it holds `room` bytes and
/// is given a piece that is not empty. A write takes no memory.
#[derive(Drop)]
pub struct MemSink {
    bytes: Vec<u8>,
    room: usize,
    most: usize,
    fails: Vec<u32>,
    calls: u64,
    faults: u64,
}

impl Model for MemSink {
    ghost use Rattle.std.specs.Prelude.{◌<◌, ◌≤◌, length, vec_capacity};
    ghost use Rattle.byte_ends.specs.Memory.{Taken};

    ghost Value = { Taken };

    ghost view = { λ s. record {
      held = s.bytes.items;
      room = s.room;
      most = s.most;
      fails = s.fails.items;
      calls = s.calls;
      faults = s.faults;
    } };

    ghost invariant = { λ s. (length s.bytes.items ≤ s.room) × (s.room ≤ vec_capacity s.bytes) × (0 < s.most) };
}

impl MemSink {
    /// A sink that holds nothing. All the memory that it will use is taken here.
    pub fn new(alloc: Global, room: usize, most: usize, fails: Vec<u32>) -> Result<Self, Memory>
        requires { 0 < most }
        ensures { IfOk result (λ sink. sink ≡ record {
          held = [];
          room = room;
          most = most;
          fails = fails.items;
          calls = 0;
          faults = 0;
        }) }
    {
        let bytes = Vec::with_capacity(alloc, room)?;
        Ok(MemSink {
            bytes,
            room,
            most,
            fails,
            calls: 0,
            faults: 0,
        })
    }

    /// The bytes that it holds.
    pub fn bytes(&self) -> &[u8]
        ensures { result.now ≡ self.now.held }
    {
        &self.bytes
    }

    /// How many writes have been made, up to the last value of a `u64`.
    pub fn calls(&self) -> u64
        ensures { result ≡ self.now.calls }
    {
        self.calls
    }
}

impl Sink for MemSink {
    ghost held = { λ s. Some s.held };

    ghost faults = { λ s. s.faults };

    /// Fails exactly where its number, from 1, is among those that fail, or where there is no room
    /// for a byte of the piece. Else it takes as many bytes as the piece has, there is room for and
    /// are within the most of a write.
    fn write(&mut self, piece: &[u8]) -> Result<usize, Failed>
        ensures fits { IfOk result (λ k. k ≤ length piece.now) }
        ensures goes { IfOk result (λ k. k ≡ 0 → piece.now ≡ []) }
        ensures gives { IfOk result (λ k. k ≡ min (min (length piece.now) self.old.most) (self.old.room - length self.old.held)) }
        ensures added { IfOk result (λ k. self.new ≡ record self.old {
          held = self.old.held ++ take k piece.now;
          calls = one_more self.old.calls;
        }) }
        ensures fails { IsErr result ↔ IsBadWrite self.old piece.now }
        ensures kept { OnErr result (self.new ≡ record self.old { calls = one_more self.old.calls; faults = one_more self.old.faults }) }
        ensures failed { OnErr result (HasRisen self.old.faults self.new.faults) }
        ensures count { self.old.faults ≤ self.new.faults }
    {
        let bad = is_bad(&self.fails, self.calls);
        let full = self.bytes.len() == self.room && !piece.is_empty();
        self.calls = self.calls.saturating_add(1);
        if bad || full {
            self.faults = self.faults.saturating_add(1);
            return Err(Failed);
        }
        let taken = piece.len().min(self.most).min(self.room - self.bytes.len());
        match self.bytes.extend_from_slice(&piece[..taken]) {
            Ok(()) => Ok(taken),
            Err(_) => unreachable!(),
        }
    }
}
