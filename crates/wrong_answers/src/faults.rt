//! Which status the top call has, and what is read.

ghost use Rattle.std.specs.Prelude.{◌≡◌};
ghost use Rattle.byte_ends.specs.Ends.{HasRisen};
ghost use Rattle.speck_run.specs.whole_ends.specs.Ends.{Gives};
ghost use Rattle.speck_run.specs.Top.{AsksLoad, IsCommand, IsUnderstood, IsUnlessUnwritten};

use byte_ends::{Sink, Source};
use speck_run::{Gate, Status, speck};
use std::alloc::Global;
use std::thread::Threads;

/// Words that are not understood are told so, unless a write fails or memory runs out. The others ask for a summary.
pub fn other_words<R: Threads + Sync, G: Gate, S: Source, K: Sink>(
    rt: &R,
    alloc: Global,
    gate: &G,
    words: &Vec<String>,
    _others: &Vec<String>,
    source: &mut S,
    sink: &mut K,
) -> Status
    requires { AsksLoad _others.now 0 }
    ensures { (IsUnderstood words.now → ⊥) → IsUnlessUnwritten Status.Words result }
{
    let asked = words;
    speck(rt, alloc, gate, asked, source, sink)
}

/// Nothing is read but for a command.
pub fn unread<R: Threads + Sync, G: Gate, S: Source, K: Sink>(
    rt: &R,
    alloc: Global,
    gate: &G,
    words: &Vec<String>,
    source: &mut S,
    sink: &mut K,
) -> Status
    ensures { (IsCommand words.now → ⊥) → source.new ≡ source.old }
{
    let unread = source;
    speck(rt, alloc, gate, words, unread, sink)
}

/// A write fault comes where the sink has failed alone.
pub fn write_faults<R: Threads + Sync, G: Gate, S: Source, K: Sink>(
    rt: &R,
    alloc: Global,
    gate: &G,
    words: &Vec<String>,
    source: &mut S,
    sink: &mut K,
) -> Status
    ensures { result ≡ Status.WriteFault → HasRisen (K.faults sink.old) (K.faults sink.new) }
{
    let status = speck(rt, alloc, gate, words, source, sink);
    status
}

/// An input is too long where more was read than it may have.
pub fn long<R: Threads + Sync, G: Gate, S: Source, K: Sink>(
    rt: &R,
    alloc: Global,
    gate: &G,
    words: &Vec<String>,
    source: &mut S,
    sink: &mut K,
) -> Status
    ensures { result ≡ Status.TooLong → IsCommand words.now × Gives 1048577 (S.left source.old) (S.left source.new) }
{
    let told = speck(rt, alloc, gate, words, source, sink);
    told
}
