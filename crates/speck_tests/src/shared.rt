//! What the tests share: a machine of two cores, the tables of its start, and the command `run` over ends in memory.

use byte_ends::{MemSink, MemSource};
use speck_run::{Gate, Status, speck};
use std::alloc::Global;
use std::test::Fail;
use std::thread::Threads;

/// The machine.
pub const MACHINE: &str = "speck 1\ncores 2\nframes 32\ngrant 100 0 1\ngrant 100 0 1\n";

/// The tables of that machine's start, to the last entry of the leaf that holds its capabilities.
pub const TO_ENTRIES: &str = "frame 0 table refs 2
  0 link 1
frame 1 leaf refs 1
  0 range 8 24
  1 table 0
  2 pages 2
  3 comp 3
  4 thread 4
  5 thread 5
  12 tcap 6
  13 tcap 7
";

/// The tables after the entries.
pub const FROM_ENTRIES: &str = "frame 2 pages refs 2
frame 3 comp refs 4
  fields 0 2 0 1
frame 4 thread refs 2
  stack 3
frame 5 thread refs 2
  stack 3
frame 6 tcap refs 2
  budget 100
  quality 0 1
frame 7 tcap refs 2
  budget 100
  quality 0 1
live 0 epoch 1 frame 3
core 0 thread 4 tcap 6 comp 3 spent 0 owed 0
core 1 thread 5 tcap 7 comp 3 spent 0 owed 0
total 200
";

/// These words.
pub fn list_of(alloc: Global, words: &[&str]) -> Result<Vec<String>, Fail> {
    let mut list = Vec::new(alloc);
    for word in words {
        let word = String::from_str(alloc, word)?;
        list.push(word)?;
    }
    Ok(list)
}

/// Whether this command on this script ends with this status, and the sink then holds this text.
pub fn by_words<R: Threads + Sync, G: Gate>(
    rt: &R,
    alloc: Global,
    gate: &G,
    command: &str,
    script: &str,
    status: Status,
    text: &str,
) -> Result<bool, Fail> {
    let words = list_of(alloc, &[command])?;
    let bytes = Vec::from_slice(alloc, script.as_bytes())?;
    let none = Vec::new(alloc);
    let mut source = MemSource::new(bytes, 4096, none);
    let none = Vec::new(alloc);
    let mut sink = MemSink::new(alloc, 4096, 4096, none)?;
    let answer = speck(rt, alloc, gate, &words, &mut source, &mut sink);
    Ok(answer == status && sink.bytes() == text.as_bytes())
}

/// Whether `run` of this script ends with this status, and the sink then holds this text.
pub fn runs<R: Threads + Sync, G: Gate>(
    rt: &R,
    alloc: Global,
    gate: &G,
    script: &str,
    status: Status,
    text: &str,
) -> Result<bool, Fail> {
    by_words(rt, alloc, gate, "run", script, status, text)
}
