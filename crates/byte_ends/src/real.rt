//! The trusted edge: std's reader and writer. What the reader has left and the writer holds is passed on where it tells that;
//! contracts see it, and how many calls failed.
ghost use Rattle.std.specs.Prelude.{◌≡◌, ◌≤◌, [], length, take, IfOk, OnOk, OnErr};
ghost use Rattle.byte_ends.specs.Ends.{HasRisen, Takes, Adds, Stays};
ghost use Rattle.byte_ends.specs.Memory.{one_more};

use crate::{Failed, Sink, Source};
use std::io::{Read, Write};
use std::marker::Model;

/// A source over a reader of std, which tells what it has left where the reader does. Each error of the reader raises the
/// count, up to the last value of a `u64`.
#[derive(Drop)]
pub struct StdSource<R: Read + Drop> {
    reader: R,
    faults: u64,
}

impl<R: Read + Drop> Model for StdSource<R> {
    ghost use Rattle.byte_ends.specs.Real.{Reading};

    ghost Value = { Reading };

    ghost view = { λ s. record { left = R.remaining s.reader; faults = s.faults } };
}

impl<R: Read + Drop> StdSource<R> {
    /// A source whose count is 0, of what the reader has left.
    pub fn new(reader: R) -> Self
        ensures { result ≡ record { left = R.remaining reader; faults = 0 } }
    {
        StdSource { reader, faults: 0 }
    }
}

impl<R: Read + Drop> Source for StdSource<R> {
    ghost left = { λ s. s.left };

    ghost faults = { λ s. s.faults };

    fn read(&mut self, buf: &mut [u8]) -> Result<usize, Failed>
        ensures fits { IfOk result (λ k. k ≤ length buf.old) }
        ensures taken { IfOk result (λ k. Takes k self.old.left self.new.left buf.old buf.new) }
        ensures kept { OnErr result (Stays self.old.left self.new.left) }
        ensures raised { OnErr result (self.new.faults ≡ one_more self.old.faults) }
        ensures same { OnOk result (self.new.faults ≡ self.old.faults) }
        ensures failed { OnErr result (HasRisen self.old.faults self.new.faults) }
        ensures count { self.old.faults ≤ self.new.faults }
    {
        match self.reader.read(buf) {
            Ok(taken) => Ok(taken),
            Err(_) => {
                self.faults = self.faults.saturating_add(1);
                Err(Failed)
            }
        }
    }
}

/// A sink over a writer of std, which tells what it holds where the writer does. Each error of the writer raises the count,
/// and so does a write of 0 bytes for a piece that is not empty.
#[derive(Drop)]
pub struct StdSink<W: Write + Drop> {
    writer: W,
    faults: u64,
}

impl<W: Write + Drop> Model for StdSink<W> {
    ghost use Rattle.byte_ends.specs.Real.{Writing};

    ghost Value = { Writing };

    ghost view = { λ s. record { held = W.contents s.writer; faults = s.faults } };
}

impl<W: Write + Drop> StdSink<W> {
    /// A sink whose count is 0, and which holds what the writer does.
    pub fn new(writer: W) -> Self
        ensures { result ≡ record { held = W.contents writer; faults = 0 } }
    {
        StdSink { writer, faults: 0 }
    }

    /// The writer, with all that was written to it.
    pub fn into_writer(self) -> W
        ensures { W.contents result ≡ self.held }
    {
        self.writer
    }
}

impl<W: Write + Drop> Sink for StdSink<W> {
    ghost held = { λ s. s.held };

    ghost faults = { λ s. s.faults };

    fn write(&mut self, piece: &[u8]) -> Result<usize, Failed>
        ensures fits { IfOk result (λ k. k ≤ length piece.now) }
        ensures goes { IfOk result (λ k. k ≡ 0 → piece.now ≡ []) }
        ensures added { IfOk result (λ k. Adds (take k piece.now) self.old.held self.new.held) }
        ensures kept { OnErr result (Stays self.old.held self.new.held) }
        ensures raised { OnErr result (self.new.faults ≡ one_more self.old.faults) }
        ensures same { OnOk result (self.new.faults ≡ self.old.faults) }
        ensures failed { OnErr result (HasRisen self.old.faults self.new.faults) }
        ensures count { self.old.faults ≤ self.new.faults }
    {
        if piece.is_empty() {
            return Ok(0);
        }
        match self.writer.write(piece) {
            Ok(written) if written > 0 => Ok(written),
            _ => {
                self.faults = self.faults.saturating_add(1);
                Err(Failed)
            }
        }
    }
}
