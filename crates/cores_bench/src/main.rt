//! What calls cost at the kernel for threads, and how many calls in a second 1, 2 and 4 cores make at one kernel, each core in a thread of
//! its own.
//!
//! **What is counted.** Without arguments it makes a few calls of each kind, and prints how many. With the argument `time` it makes many and
//! prints how many a second, the most of five runs, and in hundredths what that is of one core's. `bench/cores` runs it so. With `one` it
//! prints how many nanoseconds a call of one core takes, the median of many short runs; with the word of a kind of work and a number it
//! makes so many calls of one core, and prints how many were answered `ok`. `bench/calls` runs it so.
//!
//! **What the machine itself gives.** Beside each kind stand cores that share nothing, each at a kernel of its own: cores that share a
//! kernel cannot be expected to grow faster.
#![tactic(auto)]

mod lanes;
mod one;
mod work;

use crate::lanes::{rate, tried};
use crate::one::{count, nanoseconds};
use crate::work::Work;
use std::alloc::Global;
use std::env;
use std::process::ExitCode;
use std::thread::Threads;
use std::time::Clock;

fn print_times<R: Threads + Sync + Clock + Print>(rt: &R, alloc: Global) -> Option<()> {
    println!(rt;
        "calls a second                               1 core    2 cores    4 cores   2 of 1   4 of 1    apart: 2   4"
    ).ok()?;
    for work in Work::of_many() {
        let one = rate(rt, alloc, work, 1, false)?;
        let two = rate(rt, alloc, work, 2, false)?;
        let four = rate(rt, alloc, work, 4, false)?;
        let name = work.name();
        let (of_two, of_four) = (times(two, one), times(four, one));
        let apart_two = times(rate(rt, alloc, work, 2, true)?, one);
        let apart_four = times(rate(rt, alloc, work, 4, true)?, one);
        println!(rt;
            "{name:<41} {one:>9} {two:>10} {four:>10} {of_two:>8} {of_four:>8} {apart_two:>11} {apart_four:>3}"
        ).ok()?;
    }
    Some(())
}

// How often the one goes into the other, in hundredths.
fn times(many: u64, one: u64) -> u64 {
    if one == 0 || many > 1_000_000_000_000 {
        return 0;
    }
    many * 100 / one
}

fn print_few<R: Threads + Sync + Print>(rt: &R, alloc: Global) -> Option<()> {
    for work in Work::of_many() {
        let name = work.name();
        let one = tried(rt, alloc, work, 1)?;
        let two = tried(rt, alloc, work, 2)?;
        let four = tried(rt, alloc, work, 4)?;
        println!(rt; "{name}: {one}, {two}, {four} calls of 1, 2, 4 cores").ok()?;
    }
    for work in Work::of_one() {
        let name = work.name();
        let done = count(alloc, work, 100)?;
        println!(rt; "{name}: {done} of 100 calls of one core ok").ok()?;
    }
    Some(())
}

fn print_one<R: Clock + Print>(rt: &R, alloc: Global) -> Option<()> {
    for work in Work::of_one() {
        let word = work.word();
        let tenths = nanoseconds(rt, alloc, work)?;
        let (whole, tenth) = (tenths / 10, tenths % 10);
        println!(rt; "{word} {whole}.{tenth}").ok()?;
    }
    Some(())
}

// Makes so many calls.
fn print_count<R: Print>(rt: &R, alloc: Global, work: Work, calls: u32) -> Option<()> {
    let done = count(alloc, work, calls)?;
    println!(rt; "{done} of {calls} calls ok").ok()?;
    Some(())
}

/// What is asked for on the command line.
enum Asked {
    Few,
    Times,
    One,
    Count { work: Work, calls: u32 },
}

fn asked_by(rt: &HostRuntime) -> Option<Asked> {
    let mut args = env::args(rt).ok()?;
    let _name = args.next();
    let Some(word) = args.next() else {
        return Some(Asked::Few);
    };
    let word = word.as_str();
    match args.next() {
        None if word == "time" => Some(Asked::Times),
        None if word == "one" => Some(Asked::One),
        None => None,
        Some(calls) => Some(Asked::Count {
            work: work_of(word)?,
            calls: calls.as_str().parse::<u32>().ok()?,
        }),
    }
}

// The kind of work that the word names.
fn work_of(word: &str) -> Option<Work> {
    for work in Work::of_one() {
        if work.word() == word {
            return Some(work);
        }
    }
    None
}

fn main(rt: HostRuntime) -> ExitCode {
    let alloc = rt.alloc();
    let printed = match asked_by(&rt) {
        Some(Asked::Few) => print_few(&rt, alloc),
        Some(Asked::Times) => print_times(&rt, alloc),
        Some(Asked::One) => print_one(&rt, alloc),
        Some(Asked::Count { work, calls }) => print_count(&rt, alloc, work, calls),
        None => None,
    };
    match printed {
        Some(()) => ExitCode::SUCCESS,
        None => ExitCode::FAILURE,
    }
}
