//! Runs of the top call in memory, and what they show.

use byte_ends::{MemSink, MemSource};
use row_reader::Row;
use run_outcomes::{Outcome, compare};
use speck_run::{FreeGate, speck};
use spk_nums::Memory;
use std::alloc::Global;
use std::thread::Threads;

fn run_once<R: Threads + Sync>(rt: &R, alloc: Global, row: &Row) -> Result<Outcome, Memory> {
    let ends = row.ends;
    let script = Vec::from_slice(alloc, row.script.as_slice())?;
    let read_fails = Vec::from_slice(alloc, &[ends.read_fails])?;
    let write_fails = Vec::from_slice(alloc, &[ends.write_fails])?;
    let mut source = MemSource::new(script, ends.read_most.max(1) as usize, read_fails);
    let mut sink = MemSink::new(
        alloc,
        ends.room as usize,
        ends.write_most.max(1) as usize,
        write_fails,
    )?;
    let status = speck(rt, alloc, &FreeGate, &row.words, &mut source, &mut sink);
    Ok(compare(
        status.number(),
        sink.bytes(),
        row.status,
        row.text.as_bytes(),
    ))
}

/// Runs the row as often as it says, and tells what the first run shows that is not the same.
pub fn run<R: Threads + Sync>(rt: &R, alloc: Global, row: &Row) -> Result<Outcome, Memory> {
    for _ in 0..row.times {
        let outcome = run_once(rt, alloc, row)?;
        if outcome != Outcome::Same {
            return Ok(outcome);
        }
    }
    Ok(Outcome::Same)
}
