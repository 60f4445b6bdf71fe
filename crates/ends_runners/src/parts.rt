//! Runners of seats and lists, and what becomes of them.

ghost use Rattle.std.specs.Prelude.{◌≡◌, false, All, IfOk, length, map};
ghost use Rattle.ends_runners.specs.Runners.{AreEndRunners, AreParts, FewCalls, FewAsks};

use crate::authority::SeatAuthority;
use crate::runner::EndRunner;
use async_ends::{EndAsk, EndDone, EndSeat};
use core_kernel::{CoreSeat, Kernel};
use spk_nums::{Call, Memory};
use std::alloc::{AllocError, Global};

/// The seats of runners, and the calls that they have made.
#[derive(Drop)]
pub struct Parts {
    pub seats: Vec<CoreSeat>,
    pub ends: Vec<EndSeat>,
    pub done: Vec<Vec<EndDone>>,
}

/// A runner for each seat at the kernel, with the seat at the endpoints, the endpoint calls and the list of its place.
pub fn end_runners<'a>(
    alloc: Global,
    kernel: &'a Kernel,
    seats: Vec<CoreSeat>,
    ends: Vec<EndSeat>,
    lists: &[Vec<Call>],
    asks: &[Vec<EndAsk>],
) -> Result<Vec<EndRunner<'a>>, Memory>
    requires seats { All (λ s. s.kernel ≡ kernel.now) seats.items }
    requires one_end_each { length ends.items ≡ length seats.items }
    requires one_list_each { length lists.now ≡ length seats.items }
    requires one_asks_each { length asks.now ≡ length seats.items }
    requires few { All FewCalls lists.now }
    requires few_asks { All FewAsks asks.now }
    ensures { IfOk result (λ v. AreEndRunners seats.items ends.items (map (λ v. v.items) asks.now) v.items) }
{
    let mut rest = ends;
    let mut runners = Vec::with_capacity(alloc, seats.len())?;
    for seat in seats {
        let at = runners.len();
        let who = SeatAuthority::new(kernel, seat);
        let end = rest.remove(0);
        let asked = Vec::from_slice(alloc, asks[at].as_slice())?;
        let runner = EndRunner::new(alloc, who, end, asked, lists[at].len() as u32)?;
        match runners.push(runner) {
            Ok(()) => {}
            Err(_) => return Err(Memory),
        }
    }
    Ok(runners)
}

/// Whether the gate has stopped a runner.
pub fn any_stopped(runners: &[EndRunner]) -> bool
    ensures none { result ≡ false → All (λ r. r.held ≡ false) runners.now }
    ensures some { All (λ r. r.held ≡ false) runners.now → result ≡ false }
{
    for runner in runners {
        if runner.held {
            return true;
        }
    }
    false
}

/// The runners' seats and calls.
pub fn parts_of(alloc: Global, runners: Vec<EndRunner>) -> Result<Parts, AllocError>
    ensures { IfOk result (λ p. AreParts runners.entry.items p.seats.items p.ends.items (map (λ v. v.items) p.done.items)) }
{
    let mut seats = Vec::with_capacity(alloc, runners.len())?;
    let mut ends = Vec::with_capacity(alloc, runners.len())?;
    let mut all = Vec::with_capacity(alloc, runners.len())?;
    for runner in runners {
        let EndRunner {
            who,
            seat,
            done,
            ..
        } = runner;
        seats.push(who.seat())?;
        ends.push(seat)?;
        all.push(done)?;
    }
    Ok(Parts {
        seats,
        ends,
        done: all,
    })
}
