//! Scripts that are cut short: of a script cut after any of its bytes `replay` is done, or tells its first fault in one line.

use byte_ends::{MemSink, MemSource};
use row_reader::Row;
use speck_run::{FreeGate, speck};
use spk_nums::Memory;
use std::alloc::Global;
use std::thread::Threads;

const ROOM: usize = 1_048_576;

// Whether a run that ends so, with this text, is done or has told a fault in one line.
fn is_told(status: u8, text: &[u8]) -> bool {
    status == 0
        || status == 3
            && text.last() == Some(&b'\n')
            && text.iter().filter(|byte| **byte == b'\n').count() == 1
}

/// How many of its cuts are not told so; `row` is that of the whole script.
pub fn untold<R: Threads + Sync>(rt: &R, alloc: Global, row: &Row) -> Result<usize, Memory> {
    let mut untold: usize = 0;
    for length in 0..row.script.len() {
        let Some(front) = row.script.get(0..length) else {
            return Ok(row.script.len());
        };
        let script = Vec::from_slice(alloc, front)?;
        let mut source = MemSource::new(script, ROOM, Vec::new(alloc));
        let mut sink = MemSink::new(alloc, ROOM, ROOM, Vec::new(alloc))?;
        let status = speck(rt, alloc, &FreeGate, &row.words, &mut source, &mut sink);
        if !is_told(status.number(), sink.bytes()) {
            untold = untold.saturating_add(1);
        }
    }
    Ok(untold)
}
