//! Whole lists of calls: a kernel is booted, each core makes its list in a thread of its own, and the kernel is closed.

ghost use Rattle.std.specs.Prelude.{◌≡◌, ◌<◌, ◌^◌, ◌++◌, true, false, All, IfOk, OnOk, IfSome, IsSome, length, map};
ghost use Rattle.std.specs.List.{flat_map};
ghost use Rattle.core_runs.specs.Whole.{numbered, decided, IsList, AreRunners, AreMade};

use crate::run::run_cores;
use crate::runner::Runner;
use core_kernel::{CoreSeat, Gate, Kernel};
use spk_nums::{Call, CoreNo, Decision, Memory, Reply, Setup};
use std::alloc::{AllocError, Global};
use std::thread::Threads;
use word_map::Closed;

/// What whole lists of calls have led to.
#[derive(Drop)]
pub struct Ran {
    /// The decisions of core 0 in order, then those of core 1 and so on.
    pub decisions: Vec<Decision>,
    /// The words and where each core ended.
    pub closed: Closed,
}

/// A runner for each seat, with a copy of the list of its place. It fails only where memory runs out.
pub fn runners_of(
    alloc: Global,
    seats: Vec<CoreSeat>,
    lists: &[Vec<Call>],
) -> Result<Vec<Runner>, Memory>
    requires one_each { length lists.now ≡ length seats.items }
    requires lists { All (λ v. IsList v.items) lists.now }
    ensures { IfOk result (λ v. AreRunners seats.items (map (λ v. v.items) lists.now) v.items) }
{
    let mut runners = Vec::with_capacity(alloc, seats.len())?;
    for seat in seats {
        let list = &lists[runners.len()];
        let calls = Vec::from_slice(alloc, list.as_slice())?;
        let runner = Runner::new(alloc, seat, calls)?;
        match runners.push(runner) {
            Ok(()) => {}
            Err(_) => return Err(Memory),
        }
    }
    Ok(runners)
}

/// Whether the gate has stopped a runner.
pub fn any_held(runners: &[Runner]) -> bool
    ensures none { result ≡ false → All (λ r. r.held ≡ false) runners.now }
    ensures some { All (λ r. r.held ≡ false) runners.now → result ≡ false }
{
    for runner in runners {
        if runner.held {
            return true;
        }
    }
    false
}

// Appends the decisions of a core with these replies.
fn add_decisions(
    decisions: &mut Vec<Decision>,
    core: CoreNo,
    replies: &[Reply],
) -> Result<(), AllocError>
    requires { length replies.now < 2 ^ 32 }
    ensures { OnOk result (decisions.new.items ≡ decisions.old.items ++ numbered core 1 replies.now) }
{
    for at in 0..replies.len() {
        decisions.push(Decision {
            core,
            index: at as u32 + 1,
            reply: replies[at],
        })?;
    }
    Ok(())
}

/// The decisions of all runners, in their order. It fails only where memory runs out.
pub fn decisions_of(alloc: Global, runners: &[Runner]) -> Result<Vec<Decision>, AllocError>
    requires { All (λ r. length r.replies < 2 ^ 32) runners.now }
    ensures { IfOk result (λ v. v.items ≡ flat_map decided runners.now) }
{
    let mut decisions = Vec::new(alloc);
    for runner in runners {
        let core = runner.seat.front().core;
        add_decisions(&mut decisions, core, runner.replies.as_slice())?;
    }
    Ok(decisions)
}

/// The runners' seats. It fails only where memory runs out.
pub fn seats_of(alloc: Global, runners: Vec<Runner>) -> Result<Vec<CoreSeat>, AllocError>
    ensures { IfOk result (λ v. v.items ≡ map (λ r. r.seat) runners.items) }
{
    let mut seats = Vec::with_capacity(alloc, runners.len())?;
    for runner in runners {
        let Runner { seat, .. } = runner;
        seats.push(seat)?;
    }
    Ok(seats)
}

/// Makes the calls of each list by the core of its place, all cores at once in threads of their own where such can be
/// made, from a machine of this setup that has just booted. None comes exactly where the gate has stopped a runner.
/// It fails only where memory runs out.
pub fn run_whole<R: Threads + Sync, G: Gate>(
    rt: &R,
    alloc: Global,
    setup: &Setup,
    lists: &[Vec<Call>],
    gate: &G,
) -> Result<Option<Ran>, Memory>
    requires one_each { length lists.now ≡ setup.now.cores }
    requires lists { All (λ v. IsList v.items) lists.now }
    ensures made { IfOk result (λ ran. IfSome ran (AreMade setup.now (map (λ v. v.items) lists.now))) }
    ensures free { IfOk result (λ ran. G.is_free gate.now ≡ true → IsSome ran) }
{
    let (kernel, seats) = Kernel::boot(alloc, setup)?;
    let mut runners = runners_of(alloc, seats, lists)?;
    run_cores(rt, &kernel, &mut runners, gate);
    if any_held(&runners) {
        return Ok(None);
    }
    let decisions = decisions_of(alloc, &runners)?;
    let seats = seats_of(alloc, runners)?;
    let closed = kernel.finish(alloc, seats)?;
    Ok(Some(Ran { decisions, closed }))
}
