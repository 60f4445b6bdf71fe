//! Random calls of two worlds that are apart, each in its own part of the memory: no step of a core is on a word of the other's.
//!
//! **The worlds.** The scripts in the folder `data/`, which the program runs in, set the scene: core 0 makes a world for core 1 in the
//! frames from 40 on, and goes on in its own below. Each has its table, pages, component, threads, temporal capabilities and a range, and
//! for what it makes core 0 has the even liveness numbers and core 1 the odd ones.
//!
//! **A run.** For each seed 400 calls of each core are drawn, of every kind, by the names that the core has; a frame may be any, also one
//! of the other's. Their steps are then made one after another, of either core as it is drawn.
//!
//! **What is asked.** Each step is on a word of a frame or a liveness number of its core's own, on a word that the core has for itself or on
//! the clock, or loads the core word or the flush word of the other (`is_own`). In the end each world that the machine's words tell is on one
//! side.
//!
//! In `whole_range.speck` core 0 keeps the range of all frames: there a step on the other side is to be found.
//!
//! It tells of each script how many calls there were and what they came to, or the first step at fault. The exit status is 0 where all is
//! so, 2 where a file cannot be read or memory runs out, else 1.
#![tactic(auto)]

mod calls;
mod draws;
mod fault;
mod machine;
mod names;
mod runs;
mod tally;

use crate::fault::Fault;
use crate::runs::run;
use crate::tally::Tally;
use script_reader::{ReadFault, Script, read};
use spk_nums::Memory;
use std::alloc::Global;
use std::fs;
use std::io::{self, ErrorKind};
use std::process::ExitCode;
use std::rt::Files;

// How many runs there are of a script.
const SEEDS: u32 = 200;

// The script of these bytes: None where they are none.
fn script_of(alloc: Global, bytes: &[u8]) -> Result<Option<Script>, Memory> {
    if 1_048_576 < bytes.len() {
        return Ok(None);
    }
    match read(alloc, bytes) {
        Ok(script) => Ok(Some(script)),
        Err(ReadFault::Memory) => Err(Memory),
        Err(ReadFault::Script { .. }) => Ok(None),
    }
}

// The script of this file: None where it is none.
fn read_file<R: Files + AllocGlobal>(rt: &R, name: &str) -> io::Result<Option<Script>> {
    let bytes = fs::read(rt, name)?;
    script_of(rt.alloc(), &bytes).map_err(|_| io::Error::from(ErrorKind::OutOfMemory))
}

// Makes the runs of a script, up to the first that does not pass: None where all do, else the seed and why.
fn run_all(alloc: Global, script: &Script, tally: &mut Tally) -> Option<(u32, Fault)> {
    for seed in 0..SEEDS {
        if let Err(fault) = run(alloc, script, seed, tally) {
            return Some((seed, fault));
        }
    }
    None
}

// Makes the runs of the script of worlds that are apart, and tells whether all pass.
fn check_apart<R: Files + Print + AllocGlobal>(rt: &R, name: &str) -> io::Result<bool> {
    let Some(script) = read_file(rt, name)? else {
        println!(rt; "{name}: no script")?;
        return Ok(false);
    };
    let mut tally = Tally::none(rt.alloc());
    if let Some((seed, fault)) = run_all(rt.alloc(), &script, &mut tally) {
        println!(rt; "{name}: seed {seed}: {fault}")?;
        return Ok(false);
    }
    let Tally {
        steps,
        calls,
        replies,
        carried,
    } = &tally;
    println!(rt; "{name}: {SEEDS} seeds, {calls} calls, {steps} steps, each on its own side")?;
    println!(rt; "{name}: replies: {replies}")?;
    println!(rt; "{name}: carried out: {carried}")?;
    Ok(true)
}

// Makes the runs of a script whose worlds are not apart, and tells whether a step on the other side is found.
fn check_joined<R: Files + Print + AllocGlobal>(rt: &R, name: &str) -> io::Result<bool> {
    let Some(script) = read_file(rt, name)? else {
        println!(rt; "{name}: no script")?;
        return Ok(false);
    };
    let mut tally = Tally::none(rt.alloc());
    let Some((seed, fault)) = run_all(rt.alloc(), &script, &mut tally) else {
        println!(rt; "{name}: no step is on the other side")?;
        return Ok(false);
    };
    println!(rt; "{name}: seed {seed}: {fault}")?;
    Ok(matches!(fault, Fault::Crossed(_)))
}

fn check_all<R: Files + Print + AllocGlobal>(rt: &R) -> io::Result<bool> {
    let apart = check_apart(rt, "parted.speck")?;
    let joined = check_joined(rt, "whole_range.speck")?;
    Ok(apart && joined)
}

fn main(rt: HostRuntime) -> ExitCode {
    match check_all(&rt) {
        Ok(true) => ExitCode::SUCCESS,
        Ok(false) => ExitCode::FAILURE,
        Err(error) => {
            let _ = eprintln!(rt; "{error}");
            ExitCode::from(2)
        }
    }
}
