//! The test of the examples: in the folder `data/`, which the program runs in, each script `NAME.speck` stands beside
//! what a command prints of it, with that status, as `NAME.COMMAND.STATUS`; a command of two words has a `-` between
//! them. The top call is run on each in memory, and a line for each says whether status and bytes are the same. A script
//! with no answer, an answer with no script and a file that is neither are told. The exit status is 0 where each is the
//! same and none of these was found, 2 where a file cannot be read or memory runs out, else 1.
//!
//! See CONTRIBUTING.md, 'To add an example'.
#![tactic(auto)]

mod names;
mod runs;

use crate::names::{Role, answers, file_paths, is_script, role_of};
use crate::runs::run;
use run_outcomes::Outcome;
use std::fs;
use std::io::{self, ErrorKind};
use std::process::ExitCode;
use std::rt::Files;
use std::thread::Threads;

// The path as it is printed, without the folder that the program runs in.
fn shown(path: &str) -> &str {
    path.strip_prefix("./").unwrap_or(path)
}

// Runs the example of this answer, prints what it shows, and tells whether all is the same.
fn check_answer<R: Threads + Sync + Files + Print + AllocGlobal>(
    rt: &R,
    path: &str,
    name: &str,
    command: &str,
    status: u8,
) -> io::Result<bool> {
    let alloc = rt.alloc();
    let script_path = format!(in alloc; "{name}.speck")?;
    let script = fs::read(rt, &script_path)?;
    let answer = fs::read(rt, path)?;
    let outcome = run(rt, alloc, command, script, status, &answer).map_err(|_| io::Error::from(
        ErrorKind::OutOfMemory,
    ))?;
    let name = shown(name);
    println!(rt; "{name} {command} {status}: {outcome}")?;
    Ok(matches!(outcome, Outcome::Same))
}

// Checks what the file at this path stands for, among all of them, and tells whether all is well.
fn check_file<R: Threads + Sync + Files + Print + AllocGlobal>(
    rt: &R,
    paths: &Vec<String>,
    path: &str,
) -> io::Result<bool> {
    match role_of(path) {
        Role::Answer {
            name,
            command,
            status,
        } => {
            if paths.iter().any(|other| is_script(other.as_str(), name)) {
                return check_answer(rt, path, name, command, status);
            }
            let path = shown(path);
            println!(rt; "{path}: no script stands beside it")?;
            Ok(false)
        }
        Role::Script { name } => {
            if paths.iter().any(|other| answers(other.as_str(), name)) {
                return Ok(true);
            }
            let name = shown(name);
            println!(rt; "{name}: no answer stands beside it")?;
            Ok(false)
        }
        Role::Other => {
            let name = shown(path);
            println!(rt; "{name}: neither a script nor an answer")?;
            Ok(false)
        }
    }
}

// Checks each file, and tells whether all is well.
fn check_all<R: Threads + Sync + Files + Print + AllocGlobal + Clone + Drop>(
    rt: &R,
) -> io::Result<bool> {
    let paths = file_paths(rt)?;
    let mut all = true;
    for path in &paths {
        all &= check_file(rt, &paths, path.as_str())?;
    }
    Ok(all)
}

fn main(rt: HostRuntime) -> ExitCode {
    match check_all(&rt) {
        Ok(true) => ExitCode::SUCCESS,
        Ok(false) => ExitCode::FAILURE,
        Err(error) => {
            let _ = eprintln!(rt; "{error}");
            ExitCode::from(2)
        }
    }
}
