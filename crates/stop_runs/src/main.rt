//! The stops of pairs of calls that meet: in the folder `data/`, which the program runs in, each file `NAME.speck` is a script of at
//! least two cores, and the last calls of core 0 and of core 1 are the pair. The order of the script, and then the calls before the
//! pair, set the scene.
//!
//! **A stop.** One core makes so many steps of its call; then the other makes its call from its first step to its return; then the
//! first goes on to its return. There is a stop for each number of steps that the call makes, from none to all; both cores are stopped
//! so.
//!
//! **What is asked.** The plain kernel is told the events of the trace in their order, that a call begins, its decision and its return,
//! and is asked of each decision whether the definitions permit the reply, by the wide reach. A call answers `raced` only where it finds
//! another value in a word than it had left there, and `busy` only where core d is in a call that was the last to change the word found.
//! After each step the machine says of every
//! core how many steps of its call it has made, if it is in one, which is fewer than the call's bound. In the end the machine's tables
//! are byte for byte those of the plain kernel, which counts the references afresh.
//!
//! For each file a line says how many stops of each core pass; before it stands a line for a stop that does not. The exit status is 0
//! where all pass, 2 where a file cannot be read or memory runs out, else 1.
//!
//! See CONTRIBUTING.md, 'To add a test'.
#![tactic(auto)]

mod causes;
mod fault;
mod judge;
mod machine;
mod stops;

use crate::stops::make_stops;
use script_reader::{ReadFault, Script, read};
use spk_nums::{CoreNo, Memory};
use std::alloc::Global;
use std::fs;
use std::io::{self, ErrorKind};
use std::process::ExitCode;
use std::rt::Files;

// The files of pairs, in order.
fn pair_files<R: Files + AllocGlobal + Clone + Drop>(rt: &R) -> io::Result<Vec<String>> {
    let alloc = rt.alloc();
    let mut files = Vec::new(alloc);
    for entry in fs::read_dir(rt, ".")? {
        let entry = entry?;
        let path = entry.path();
        let path = path.as_str();
        if path.ends_with(".speck") {
            files.push(String::from_str(alloc, path)?)?;
        }
    }
    files.sort()?;
    Ok(files)
}

// The script of these bytes: None where they are none.
fn script_of(alloc: Global, bytes: &[u8]) -> Result<Option<Script>, Memory> {
    if 1_048_576 < bytes.len() {
        return Ok(None);
    }
    match read(alloc, bytes) {
        Ok(script) => Ok(Some(script)),
        Err(ReadFault::Memory) => Err(Memory),
        Err(ReadFault::Script { .. }) => Ok(None),
    }
}

// Makes the stops of one core, tells what one shows that does not pass, and answers how many pass, and whether all do.
fn stop_core<R: Print + AllocGlobal>(
    rt: &R,
    name: &str,
    script: &Script,
    first: CoreNo,
    second: CoreNo,
) -> io::Result<(u32, bool)> {
    let stops = make_stops(rt.alloc(), script, first, second).map_err(|_| io::Error::from(
        ErrorKind::OutOfMemory,
    ))?;
    if let Some(text) = &stops.failed {
        println!(rt; "{name}: core {first} {text}")?;
    }
    Ok((stops.passed, stops.failed.is_none()))
}

// Makes the stops of a file, and tells whether all pass.
fn run_file<R: Files + Print + AllocGlobal>(rt: &R, path: &str) -> io::Result<bool> {
    let bytes = fs::read(rt, path)?;
    let name = path.strip_prefix("./").unwrap_or(path);
    let script = script_of(rt.alloc(), &bytes).map_err(|_| io::Error::from(
        ErrorKind::OutOfMemory,
    ))?;
    let Some(script) = script else {
        println!(rt; "{name}: no script")?;
        return Ok(false);
    };
    let (zero, one) = (CoreNo::new(0), CoreNo::new(1));
    let (front, front_all) = stop_core(rt, name, &script, zero, one)?;
    let (back, back_all) = stop_core(rt, name, &script, one, zero)?;
    println!(rt; "{name}: {front} stops of core 0 and {back} of core 1 pass")?;
    Ok(front_all && back_all)
}

// Makes the stops of every file, and tells whether all pass.
fn run_all<R: Files + Print + AllocGlobal + Clone + Drop>(rt: &R) -> io::Result<bool> {
    let mut all = true;
    for path in &pair_files(rt)? {
        all &= run_file(rt, path.as_str())?;
    }
    Ok(all)
}

fn main(rt: HostRuntime) -> ExitCode {
    match run_all(&rt) {
        Ok(true) => ExitCode::SUCCESS,
        Ok(false) => ExitCode::FAILURE,
        Err(error) => {
            let _ = eprintln!(rt; "{error}");
            ExitCode::from(2)
        }
    }
}
