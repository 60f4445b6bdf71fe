//! Runs of the top call in memory, and what they show.
ghost use Rattle.std.specs.Prelude.{◌≡◌, ◌∷◌, [], map, string_bytes, IfOk};

use byte_ends::{MemSink, MemSource};
use run_outcomes::{Outcome, compare};
use speck_run::{FreeGate, speck};
use spk_nums::Memory;
use std::alloc::{AllocError, Global};
use std::thread::Threads;

// The most bytes that an example's text has, and the most that a run moves at a time.
const ROOM: usize = 1_048_576;

const PIECE: usize = 4096;

// The list of this word alone.
fn list_of(alloc: Global, word: &str) -> Result<Vec<String>, AllocError>
    ensures { IfOk result (λ words. map string_bytes words.items ≡ word.now ∷ []) }
{
    let word = String::from_str(alloc, word)?;
    let mut words = Vec::new(alloc);
    words.push(word)?;
    Ok(words)
}

// The list of these two words.
fn pair_of(alloc: Global, first: &str, second: &str) -> Result<Vec<String>, AllocError>
    ensures { IfOk result (λ words. map string_bytes words.items ≡ first.now ∷ second.now ∷ []) }
{
    let mut words = list_of(alloc, first)?;
    let second = String::from_str(alloc, second)?;
    words.push(second)?;
    Ok(words)
}

// The words of a command, of which a `-` parts two.
fn words_of(alloc: Global, command: &str) -> Result<Vec<String>, AllocError> {
    match command.split_once('-') {
        Some((first, second)) => pair_of(alloc, first, second),
        None => list_of(alloc, command),
    }
}

/// Runs the command on the script in memory, and compares its status and text with those wanted.
pub fn run<R: Threads + Sync>(
    rt: &R,
    alloc: Global,
    command: &str,
    script: Vec<u8>,
    wanted: u8,
    answer: &[u8],
) -> Result<Outcome, Memory> {
    let words = words_of(alloc, command)?;
    let mut source = MemSource::new(script, PIECE, Vec::new(alloc));
    let mut sink = MemSink::new(alloc, ROOM, PIECE, Vec::new(alloc))?;
    let status = speck(rt, alloc, &FreeGate, &words, &mut source, &mut sink);
    Ok(compare(status.number(), sink.bytes(), u32::from(wanted), answer))
}
