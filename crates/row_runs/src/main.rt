//! The tests that are data: in the folder `data/`, which the program runs in, each file `NAME.rows` has rows as `row_reader` reads
//! them, and what stands in `start.rows` holds for all. The top call is run on each row in memory. For each file a line says how many
//! rows have the status and every byte that are due; before it stands a line for each row that has not. Of each row of `cuts.rows` the
//! script is then cut after each byte. The exit status is 0 where all
//! have, 2 where a file cannot be read or memory runs out, else 1.
//!
//! See CONTRIBUTING.md, 'To add a test'.
#![tactic(auto)]

mod cuts;
mod runs;

use crate::cuts::untold;
use crate::runs::run;
use row_reader::{Fault, Row, rows_of};
use run_outcomes::Outcome;
use std::fs;
use std::io::{self, ErrorKind};
use std::process::ExitCode;
use std::rt::Files;
use std::thread::Threads;

// The files of rows, in order.
fn row_files<R: Files + AllocGlobal + Clone + Drop>(rt: &R) -> io::Result<Vec<String>> {
    let alloc = rt.alloc();
    let mut files = Vec::new(alloc);
    for entry in fs::read_dir(rt, ".")? {
        let entry = entry?;
        let path = entry.path();
        let path = path.as_str();
        if path.ends_with(".rows") && !path.ends_with("start.rows") {
            files.push(String::from_str(alloc, path)?)?;
        }
    }
    files.sort()?;
    Ok(files)
}

// Runs these rows, tells which of them fail, and how many do not.
fn run_rows<R: Threads + Sync + Print + AllocGlobal>(rt: &R, rows: &Vec<Row>) -> io::Result<u32> {
    let mut passed: u32 = 0;
    for row in rows {
        let outcome = run(rt, rt.alloc(), row).map_err(|_| io::Error::from(
            ErrorKind::OutOfMemory,
        ))?;
        if outcome == Outcome::Same {
            passed = passed.saturating_add(1);
        } else {
            println!(rt; "{}: {outcome}", row.name)?;
        }
    }
    Ok(passed)
}

// Cuts the scripts of these rows after each byte, and tells whether all that is left of them is told as it must be.
fn cut_rows<R: Threads + Sync + Print + AllocGlobal>(rt: &R, rows: &Vec<Row>) -> io::Result<bool> {
    let mut all = true;
    for row in rows {
        let untold = untold(rt, rt.alloc(), row).map_err(|_| io::Error::from(
            ErrorKind::OutOfMemory,
        ))?;
        println!(rt; "{}: {} cuts, {untold} fail", row.name, row.script.len())?;
        all &= untold == 0;
    }
    Ok(all)
}

// Runs the rows of a file, and tells whether all pass.
fn run_file<R: Threads + Sync + Files + Print + AllocGlobal>(
    rt: &R,
    shared: &str,
    path: &str,
) -> io::Result<bool> {
    let text = fs::read_to_string(rt, path)?;
    let name = path.strip_prefix("./").unwrap_or(path);
    match rows_of(rt.alloc(), shared, &text) {
        Ok(rows) => {
            let passed = run_rows(rt, &rows)?;
            let all = rows.len();
            println!(rt; "{name}: {passed} of {all} rows pass")?;
            let told = name != "cuts.rows" || cut_rows(rt, &rows)?;
            Ok(told && passed as usize == all)
        }
        Err(Fault::Memory) => Err(io::Error::from(ErrorKind::OutOfMemory)),
        Err(fault) => {
            println!(rt; "{name}: {fault}")?;
            Ok(false)
        }
    }
}

// Runs the rows of every file, and tells whether all pass.
fn run_all<R: Threads + Sync + Files + Print + AllocGlobal + Clone + Drop>(
    rt: &R,
) -> io::Result<bool> {
    let shared = fs::read_to_string(rt, "start.rows")?;
    let mut all = true;
    for path in &row_files(rt)? {
        all &= run_file(rt, &shared, path.as_str())?;
    }
    Ok(all)
}

fn main(rt: HostRuntime) -> ExitCode {
    match run_all(&rt) {
        Ok(true) => ExitCode::SUCCESS,
        Ok(false) => ExitCode::FAILURE,
        Err(error) => {
            let _ = eprintln!(rt; "{error}");
            ExitCode::from(2)
        }
    }
}
