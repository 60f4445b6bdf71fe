//! The calls of one core alone.

use crate::lanes::a_call;
use crate::work::Work;
use core_machine::{Port, Seats};
use spk_nums::Setup;
use std::alloc::Global;
use std::time::{Clock, Instant};

// How many runs are timed, and how many calls a run has.
const RUNS: usize = 401;

const CALLS: u32 = 198;

// The port of core 0, once the calls were made that come before the work.
fn port(alloc: Global, work: Work) -> Option<Port> {
    let setup = Setup::equal(work.least_cores(), 32, 100_000_000).ok()?;
    let mut seats = Seats::boot(alloc, &setup).ok()?;
    let mut port = seats.deal()?;
    for made in 0..5 {
        if let Some(call) = work.call_before(made) {
            port.call(call);
        }
    }
    Some(port)
}

// Makes so many calls, and answers how many were `ok`.
#[inline(never)]
fn make(port: &mut Port, work: Work, calls: u32) -> u32 {
    let mut done = 0u32;
    for made in 0..calls {
        if a_call(port, work.call(0, made)) {
            done = done.saturating_add(1);
        }
    }
    done
}

/// How many of so many calls were answered `ok`. None comes where memory runs out.
pub fn count(alloc: Global, work: Work, calls: u32) -> Option<u32> {
    let mut port = port(alloc, work)?;
    Some(make(&mut port, work, calls))
}

/// How many tenths of a nanosecond a call takes: the median of many short runs, so that what else the machine does tells little. None
/// comes where memory runs out or the clock fails.
pub fn nanoseconds<R: Clock>(rt: &R, alloc: Global, work: Work) -> Option<u64> {
    let mut port = port(alloc, work)?;
    let mut runs = Vec::new(alloc);
    for _ in 0..RUNS {
        let start = Instant::now(rt).ok()?;
        make(&mut port, work, CALLS);
        let nanos = start.elapsed(rt).ok()?.as_nanos();
        runs.push(if nanos < 1_000_000_000 {
            nanos as u64
        } else {
            1_000_000_000
        })
        .ok()?;
    }
    runs.as_mut_slice().sort_unstable();
    let median = *runs.get(RUNS / 2)?;
    if median > 1_000_000_000 {
        return None;
    }
    Some(median * 10 / CALLS as u64)
}
