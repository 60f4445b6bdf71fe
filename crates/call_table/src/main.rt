//! Prints the table of the calls: what each looks up, where it is decided, how many steps it makes at most, and what it may
//! answer. Names, targets, counts, deciding steps and bounds are those of `call_plans`; the rest stands in `rows`.
//!
//! See docs/CALLS.md, which is what it prints.
#![tactic(auto)]

mod formula;
mod plan_words;
mod rows;

use crate::rows::{HEAD, rows};
use std::io;
use std::process::ExitCode;

fn print_table<R: Print + AllocGlobal>(rt: &R) -> io::Result<()> {
    println!(rt; "{HEAD}")?;
    let rows = rows();
    for row in &rows {
        println!(rt; "{row}")?;
    }
    Ok(())
}

fn main(rt: HostRuntime) -> ExitCode {
    match print_table(&rt) {
        Ok(()) => ExitCode::SUCCESS,
        Err(_) => ExitCode::FAILURE,
    }
}
