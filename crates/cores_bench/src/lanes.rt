//! Many cores at work at once, each in a thread of its own.

ghost use Rattle.spk_nums.specs.CallLimits.{InLimits};

use crate::work::Work;
use core_machine::{Port, Seats};
use spk_nums::{Call, Memory, Reply, Setup};
use std::alloc::Global;
use std::thread::{Threads, for_each_mut};
use std::time::{Clock, Duration, Instant};

// The calls of a core where their time is taken, and where it is not.
const MANY: u32 = 400_000;

const FEW: u32 = 100;

/// A core at its work. The bytes on both sides keep what it writes off the lines of memory of the lanes beside it.
#[derive(Drop)]
struct Lane {
    _before: [u64; 16],
    port: Port,
    core: u8,
    work: Work,
    calls: u32,
    done: u64,
    _after: [u64; 16],
}

/// Makes a call, and answers whether it was answered `ok`.
#[inline]
pub fn a_call(port: &mut Port, call: Call) -> bool
    requires { InLimits call }
{
    match port.call(call) {
        Reply::Ok(_) => true,
        _ => false,
    }
}

// Makes the lane's calls, and counts those that are answered `ok`.
fn make(lane: &mut Lane) {
    let mut done = 0u64;
    for made in 0..lane.calls {
        if a_call(&mut lane.port, lane.work.call(lane.core, made)) {
            done = done.saturating_add(1);
        }
    }
    lane.done = done;
}

// Adds a lane for each core of a machine that has just booted.
fn add(
    alloc: Global,
    lanes: &mut Vec<Lane>,
    work: Work,
    cores: u8,
    calls: u32,
) -> Result<(), Memory> {
    let Ok(setup) = Setup::equal(cores, 32, 100_000_000) else {
        return Ok(());
    };
    let mut seats = Seats::boot(alloc, &setup)?;
    for core in 0..cores {
        if let Some(port) = seats.deal() {
            let lane = Lane {
                _before: [0; 16],
                port,
                core,
                work,
                calls,
                done: 0,
                _after: [0; 16],
            };
            if lanes.push(lane).is_err() {
                return Err(Memory);
            }
        }
    }
    Ok(())
}

// A lane for each core: of one machine, or, apart, each of a machine of its own.
fn lanes(
    alloc: Global,
    work: Work,
    cores: u8,
    calls: u32,
    apart: bool,
) -> Result<Vec<Lane>, Memory> {
    let mut lanes = Vec::new(alloc);
    if apart {
        for _ in 0..cores {
            add(alloc, &mut lanes, work, 1, calls)?;
        }
    } else {
        add(alloc, &mut lanes, work, cores, calls)?;
    }
    Ok(lanes)
}

// Makes all lanes' calls at once.
fn make_all<R: Threads + Sync>(rt: &R, lanes: &mut [Lane]) {
    let count = lanes.len();
    if count > 0 {
        for_each_mut(rt, lanes, count, &|_: usize, lane: &mut Lane| make(lane));
    }
}

/// How many calls a second the cores made, the most of five runs, at one machine or each at its own. None comes where memory runs out or
/// the clock fails.
pub fn rate<R: Threads + Sync + Clock>(
    rt: &R,
    alloc: Global,
    work: Work,
    cores: u8,
    apart: bool,
) -> Option<u64> {
    let mut best = 0;
    for _ in 0..5 {
        let mut lanes = lanes(alloc, work, cores, MANY, apart).ok()?;
        let start = Instant::now(rt).ok()?;
        make_all(rt, &mut lanes);
        let took = start.elapsed(rt).ok()?;
        let now = a_second(cores, took);
        if now > best {
            best = now;
        }
    }
    Some(best)
}

// How many a second that is, where each of the cores made its calls in this time.
fn a_second(cores: u8, took: Duration) -> u64 {
    let micros = took.as_micros();
    if micros == 0 || micros > 1_000_000_000 {
        return 0;
    }
    cores as u64 * MANY as u64 * 1_000_000 / micros as u64
}

/// How many calls of the cores were answered, of a few. None comes where memory runs out.
pub fn tried<R: Threads + Sync>(rt: &R, alloc: Global, work: Work, cores: u8) -> Option<u64> {
    let mut lanes = lanes(alloc, work, cores, FEW, false).ok()?;
    make_all(rt, &mut lanes);
    let mut made = 0u64;
    for lane in lanes.iter() {
        made = made.saturating_add(lane.calls as u64);
    }
    Some(made)
}
