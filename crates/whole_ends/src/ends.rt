//! Reads a source to its end, and writes a text to a sink.

ghost use Rattle.std.specs.Prelude.{◌≡◌, ◌⊎◌, ℕ, ◌≤◌, length, IfOk, OnOk, OnErr, IsErrOf};
ghost use Rattle.byte_ends.specs.Ends.{HasRisen, Adds};
ghost use Rattle.whole_ends.specs.Ends.{GivesAll, Gives, GivesAtMost, AddsFront};
ghost use Rattle.whole_ends.specs.declared.ends.ReadError.TheVariants as errors;

use byte_ends::{Failed, Sink, Source};
use std::alloc::{AllocError, Global};

/// The most bytes of an input.
pub const LIMIT: usize = 1_048_576;

/// The most bytes of one read.
const CHUNK: usize = 16_384;

/// Why an input was not read to its end.
#[derive(Clone, Copy, Debug, PartialEq, Eq)]
pub enum ReadError {
    /// Memory has run out.
    Memory,
    /// A read failed.
    Failed,
    /// The source gave one byte more than the limit.
    TooLong,
}

impl From<AllocError> for ReadError {
    ghost from_gives = { λ _ e. e ≡ errors.Memory };

    fn from(_: AllocError) -> Self {
        ReadError::Memory
    }
}

/// Reads all the bytes that are left. At most one byte past the limit is taken. Each turn takes at
/// least one byte or ends. A read that fails ends the reading: it is not tried again.
pub fn read_all<S: Source>(alloc: Global, source: &mut S) -> Result<Vec<u8>, ReadError>
    ensures all { IfOk result (λ bytes. GivesAll bytes.items (S.left source.old) (S.left source.new)) }
    ensures small { IfOk result (λ bytes. length bytes.items ≤ 1048576) }
    ensures failed { IsErrOf result errors.Failed → HasRisen (S.faults source.old) (S.faults source.new) }
    ensures long { IsErrOf result errors.TooLong → Gives 1048577 (S.left source.old) (S.left source.new) }
    ensures most { GivesAtMost 1048577 (S.left source.old) (S.left source.new) }
    ensures count { S.faults source.old ≤ S.faults source.new }
    ensures steady { IsErrOf result errors.Failed ⊎ (S.faults source.new ≡ S.faults source.old) }
{
    let mut bytes: Vec<u8> = Vec::new(alloc);
    let mut buf = [0u8; CHUNK];
    'reading: while bytes.len() <= LIMIT {
        let room = (LIMIT + 1 - bytes.len()).min(CHUNK);
        let Ok(taken) = source.read(&mut buf[..room]) else {
            return Err(ReadError::Failed);
        };
        if taken == 0 {
            return Ok(bytes);
        }
        bytes.extend_from_slice(&buf[..taken])?;
    }
    Err(ReadError::TooLong)
}

/// Writes the text, piece by piece. Each turn writes at least one byte or ends. A write that fails
/// ends the writing, and leaves the text's front in the sink: it is not tried again.
pub fn write_all<K: Sink>(sink: &mut K, text: &[u8]) -> Result<(), Failed>
    ensures all { OnOk result (Adds text.now (K.held sink.old) (K.held sink.new)) }
    ensures front { AddsFront text.now (K.held sink.old) (K.held sink.new) }
    ensures failed { OnErr result (HasRisen (K.faults sink.old) (K.faults sink.new)) }
    ensures count { K.faults sink.old ≤ K.faults sink.new }
    ensures steady { OnOk result (K.faults sink.new ≡ K.faults sink.old) }
{
    let mut at = 0;
    'writing: while at < text.len() {
        let written = sink.write(&text[at..])?;
        at += written;
    }
    Ok(())
}
