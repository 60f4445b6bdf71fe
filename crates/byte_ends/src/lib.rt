//! Sources and sinks of bytes.
//!
//! Contracts see what a source has left and what a sink holds, where it tells that, and a count
//! of faults that never falls. A read or a write that fails raises the count, and one that goes well
//! leaves it as it was; a count that stands at its last value counts as risen.
//!
//! See docs/PROOF.md, 'From the bytes read to the bytes written'.
#![tactic(auto)]

ghost use Rattle.std.specs.Prelude.{◌≡◌, ℕ, ◌≤◌, List, [], length, take, Option, IfOk, OnOk, OnErr};
ghost use Rattle.byte_ends.specs.Ends.{HasRisen, Takes, Adds, Stays};

mod memory;
mod real;
mod sure;

pub use memory::{MemSink, MemSource};
pub use real::{StdSink, StdSource};
pub use sure::{SureSink, SureSource};

/// A read or a write failed. The count of its source or sink tells it.
#[derive(Clone, Copy, Debug, PartialEq, Eq)]
pub struct Failed;

/// A source of bytes.
pub trait Source {
    /// The bytes that are left, where the source tells them.
    ghost left: { Self → Option (List ℕ) };

    /// How often it has failed, up to the last value of a `u64`.
    ghost faults: { Self → ℕ };

    /// Moves some of the bytes that are left into the front of the buffer, and answers how many:
    /// 0 for a buffer that is not empty only at the end. A read that fails takes nothing.
    fn read(&mut self, buf: &mut [u8]) -> Result<usize, Failed>
        ensures fits { IfOk result (λ k. k ≤ length buf.old) }
        ensures taken { IfOk result (λ k. Takes k (left self.old) (left self.new) buf.old buf.new) }
        ensures kept { OnErr result (Stays (left self.old) (left self.new)) }
        ensures steady { OnOk result (faults self.new ≡ faults self.old) }
        ensures failed { OnErr result (HasRisen (faults self.old) (faults self.new)) }
        ensures count { faults self.old ≤ faults self.new };
}

/// A sink of bytes.
pub trait Sink {
    /// The bytes that it holds, where the sink tells them.
    ghost held: { Self → Option (List ℕ) };

    /// How often it has failed, up to the last value of a `u64`.
    ghost faults: { Self → ℕ };

    /// Appends the first bytes of the piece, and answers how many: 0 only for an empty piece. A
    /// write that fails appends nothing.
    fn write(&mut self, piece: &[u8]) -> Result<usize, Failed>
        ensures fits { IfOk result (λ k. k ≤ length piece.now) }
        ensures goes { IfOk result (λ k. k ≡ 0 → piece.now ≡ []) }
        ensures added { IfOk result (λ k. Adds (take k piece.now) (held self.old) (held self.new)) }
        ensures kept { OnErr result (Stays (held self.old) (held self.new)) }
        ensures steady { OnOk result (faults self.new ≡ faults self.old) }
        ensures failed { OnErr result (HasRisen (faults self.old) (faults self.new)) }
        ensures count { faults self.old ≤ faults self.new };
}
