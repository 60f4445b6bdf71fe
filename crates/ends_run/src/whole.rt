//! Lists of calls, and endpoint calls after them: a kernel is booted, each core makes its list and then its endpoint calls, and
//! the endpoints and the kernel are closed.

ghost use Rattle.std.specs.Prelude.{◌≡◌, ◌≤◌, true, All, IfOk, IfSome, IsSome, length, map};
ghost use Rattle.core_runs.specs.Whole.{IsList};
ghost use Rattle.core_runs.specs.core_kernel.specs.Kernel.{KernelValue, AreAllSeats};
ghost use Rattle.async_ends.specs.Tables.{AreFresh};
ghost use Rattle.async_ends.specs.Tables as ends;
ghost use Rattle.ends_run.specs.Whole.{AreListed, AreEnded, FewCalls, FewAsks};

use async_ends::{EndAsk, EndDone, EndTable};
use core_runs::core_kernel::{CoreSeat, Kernel};
use core_runs::{Gate, any_held, decisions_of, run_cores, runners_of, seats_of};
use ends_runners::{
    MOST_FRAMES, Parts, any_stopped, end_runners, meet_all, parts_of, run_asks, sent_by,
};
use spk_nums::{Call, Decision, Memory, Setup};
use std::alloc::Global;
use std::thread::Threads;

/// What lists of calls and endpoint calls after them have led to.
#[derive(Drop)]
pub struct EndsRan {
    /// The decisions of the lists' calls: those of core 0 in order, then those of core 1 and so on.
    pub decisions: Vec<Decision>,
    /// The endpoint calls of each core, core 0 first.
    pub done: Vec<Vec<EndDone>>,
    /// How often was sent to each of 512 frames.
    pub sent: Vec<u64>,
    /// What is left of it.
    pub left: Vec<u64>,
}

// A kernel whose lists are made, its seats, each of which has seen that they are, and the lists' decisions.
#[derive(Drop)]
struct Listed {
    kernel: Kernel,
    seats: Vec<CoreSeat>,
    decisions: Vec<Decision>,
}

// Makes the lists, and tells each seat that they are made. None comes exactly where the gate has stopped a runner.
fn make_lists<R: Threads + Sync, G: Gate>(
    rt: &R,
    alloc: Global,
    setup: &Setup,
    lists: &[Vec<Call>],
    gate: &G,
) -> Result<Option<Listed>, Memory>
    requires one_each { length lists.now ≡ setup.now.cores }
    requires lists { All (λ v. IsList v.items) lists.now }
    ensures listed { IfOk result (λ l. IfSome l (AreListed setup.now (map (λ v. v.items) lists.now))) }
    ensures free { IfOk result (λ l. G.is_free gate.now ≡ true → IsSome l) }
{
    // So the proof learns that there is a core.
    let _cores = setup.cores();
    let (kernel, seats) = Kernel::boot(alloc, setup)?;
    let mut runners = runners_of(alloc, seats, lists)?;
    run_cores(rt, &kernel, &mut runners, gate);
    if any_held(&runners) {
        return Ok(None);
    }
    let decisions = decisions_of(alloc, &runners)?;
    let mut seats = seats_of(alloc, runners)?;
    meet_all(&kernel, &mut seats);
    Ok(Some(Listed {
        kernel,
        seats,
        decisions,
    }))
}

// Makes the endpoint calls after the lists. None comes exactly where the gate has stopped a runner.
fn make_asks<R: Threads + Sync, G: Gate>(
    rt: &R,
    alloc: Global,
    setup: &Setup,
    listed: Listed,
    lists: &[Vec<Call>],
    asks: &[Vec<EndAsk>],
    gate: &G,
) -> Result<Option<EndsRan>, Memory>
    requires listed { AreListed setup.now (map (λ v. v.items) lists.now) listed }
    requires one_each { length lists.now ≡ setup.now.cores }
    requires one_asks_each { length asks.now ≡ setup.now.cores }
    requires few { All FewCalls lists.now }
    requires few_asks { All FewAsks asks.now }
    ensures made { IfOk result (λ ran. IfSome ran (AreEnded setup.now (map (λ v. v.items) lists.now) (map (λ v. v.items) asks.now))) }
    ensures free { IfOk result (λ ran. G.is_free gate.now ≡ true → IsSome ran) }
{
    let Listed {
        kernel,
        seats,
        decisions,
    } = listed;
    let (table, ends) = EndTable::new(alloc, MOST_FRAMES, setup.cores())?;
    let mut runners = end_runners(alloc, &kernel, seats, ends, lists, asks)?;
    run_asks(rt, &table, gate, &mut runners);
    if any_stopped(&runners) {
        return Ok(None);
    }
    let sent = sent_by(alloc, &runners)?;
    let parts = parts_of(alloc, runners)?;
    let Parts { seats, ends, done } = parts;
    let left = table.close(alloc, ends)?;
    let _closed = kernel.finish(alloc, seats)?;
    Ok(Some(EndsRan {
        decisions,
        done,
        sent,
        left,
    }))
}

/// Makes the calls of each list by the core of its place, and after all of them each core's endpoint calls, from a machine of
/// this setup that has just booted. In each of the two phases all cores go on at once, in threads of their own where such can
/// be made. None comes exactly where the gate has stopped a core. It fails only where memory runs out.
pub fn run_ends<R: Threads + Sync, G: Gate>(
    rt: &R,
    alloc: Global,
    setup: &Setup,
    lists: &[Vec<Call>],
    asks: &[Vec<EndAsk>],
    gate: &G,
) -> Result<Option<EndsRan>, Memory>
    requires one_each { length lists.now ≡ setup.now.cores }
    requires one_asks_each { length asks.now ≡ setup.now.cores }
    requires lists { All (λ v. IsList v.items) lists.now }
    requires few { All FewCalls lists.now }
    requires few_asks { All FewAsks asks.now }
    ensures made { IfOk result (λ ran. IfSome ran (AreEnded setup.now (map (λ v. v.items) lists.now) (map (λ v. v.items) asks.now))) }
    ensures free { IfOk result (λ ran. G.is_free gate.now ≡ true → IsSome ran) }
{
    let Some(listed) = make_lists(rt, alloc, setup, lists, gate)? else {
        return Ok(None);
    };
    make_asks(rt, alloc, setup, listed, lists, asks, gate)
}
