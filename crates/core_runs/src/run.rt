//! Runners make their calls, each in a thread of its own.

ghost use Rattle.std.specs.Prelude.{◌≡◌, ◌<◌, ◌≤◌, ◌++◌, [], ◌∷◌, All, vec_len, vec_capacity};
ghost use Rattle.std.specs.Thread.{IsSync};
ghost use Rattle.std.specs.List.{AllZip};
ghost use Rattle.core_runs.specs.Runs.{IsWaiting, MakesCalls};

use crate::runner::Runner;
use core_kernel::{Gate, Kernel};
use spk_nums::{Reply, Value};
use std::thread::{Threads, join_mut};

// Room for the reply is there, so this takes no memory.
fn keep(replies: &mut Vec<Reply>, reply: Reply)
    requires { vec_len replies.old < vec_capacity replies.old }
    ensures items { replies.new.items ≡ replies.old.items ++ reply ∷ [] }
    ensures room { vec_capacity replies.old ≤ vec_capacity replies.new }
{
    let _answered: Option<Value> = None;
    match replies.push(reply) {
        Ok(()) => {}
        Err(_) => unreachable!(),
    }
}

// Makes the runner's calls, as far as the gate lets it.
fn run<G: Gate>(kernel: &Kernel, gate: &G, runner: &mut Runner)
    requires { IsWaiting kernel.now runner.old }
    ensures { MakesCalls (G.is_free gate.now) runner.old runner.new }
{
    let core = runner.seat.front().core;
    for made in 0..runner.calls.len() {
        if !gate.may_go(core, made as u64) {
            runner.held = true;
            return;
        }
        let reply = kernel.call(&mut runner.seat, runner.calls[made]);
        keep(&mut runner.replies, reply);
    }
}

// Runs them all, one half and the other at once.
#[tactic(auto, using(crate::proofs::Zips::all_zip_parts))]
fn run_all<R: Threads + Sync, G: Gate>(rt: &R, kernel: &Kernel, gate: &G, runners: &mut [Runner])
    requires { All (λ r. IsWaiting kernel.now r) runners.old }
    ensures { AllZip (MakesCalls (G.is_free gate.now)) runners.old runners.new }
{
    if runners.len() == 0 {
        return;
    }
    if runners.len() == 1 {
        run(kernel, gate, &mut runners[0]);
        return;
    }
    let (front, back) = runners.split_at_mut(runners.len() / 2);
    join_mut(
        rt,
        &mut ||
            requires { IsSync R.row × IsSync G.row × All (λ r. IsWaiting kernel.now r) front.now }
            ensures { AllZip (MakesCalls (G.is_free gate.entry.now)) front.entry.now front.exit.now }
        { run_all(rt, kernel, gate, front) },
        &mut ||
            requires { IsSync R.row × IsSync G.row × All (λ r. IsWaiting kernel.now r) back.now }
            ensures { AllZip (MakesCalls (G.is_free gate.entry.now)) back.entry.now back.exit.now }
        { run_all(rt, kernel, gate, back) },
    );
}

/// Makes the calls of each runner, in a thread of its own where one can be made. Before each call it asks the gate, with
/// the core and how many calls of the list it has made; at the first false the runner is held, and makes no more.
pub fn run_cores<R: Threads + Sync, G: Gate>(
    rt: &R,
    kernel: &Kernel,
    runners: &mut Vec<Runner>,
    gate: &G,
)
    requires { All (λ r. IsWaiting kernel.now r) runners.old.items }
    ensures { AllZip (MakesCalls (G.is_free gate.now)) runners.old.items runners.new.items }
{
    run_all(rt, kernel, gate, runners.as_mut_slice());
}
