//! Runners make their endpoint calls, each in a thread of its own.

ghost use Rattle.std.specs.Prelude.{◌≡◌, ◌<◌, ◌≤◌, ◌++◌, [], ◌∷◌, All, vec_len, vec_capacity};
ghost use Rattle.std.specs.List.{AllZip};
ghost use Rattle.ends_runners.specs.Runs.{AwaitsEnds, MakesAsks};

use crate::runner::EndRunner;
use async_ends::{EndAsk, EndDone, EndOp, EndReply, EndTable};
use core_kernel::Gate;
use spk_nums::{Reply, Value};
use std::thread::{Threads, for_each_mut};

// Room for the call is there, so this takes no memory.
fn keep(done: &mut Vec<EndDone>, one: EndDone)
    requires { vec_len done.old < vec_capacity done.old }
    ensures items { done.new.items ≡ done.old.items ++ one ∷ [] }
    ensures room { vec_capacity done.old ≤ vec_capacity done.new }
{
    let _asked: (Option<EndAsk>, Option<EndOp>) = (None, None);
    let _answered: (Option<EndReply>, Option<Reply>, Option<Value>) = (None, None, None);
    match done.push(one) {
        Ok(()) => {}
        Err(_) => unreachable!(),
    }
}

// Makes the runner's calls, as far as the gate lets it.
fn run<G: Gate>(table: &EndTable, gate: &G, runner: &mut EndRunner)
    requires { AwaitsEnds table.now runner.old }
    ensures { MakesAsks (G.is_free gate.now) runner.old runner.new }
{
    let core = runner.who.core();
    for made in 0..runner.asks.len() {
        if !gate.may_go(core, u64::from(runner.listed) + made as u64) {
            runner.held = true;
            return;
        }
        let ask = runner.asks[made];
        let done = table.ask(&mut runner.seat, &mut runner.who, ask);
        keep(&mut runner.done, done);
    }
}

/// Makes the endpoint calls of each runner, in a thread of its own where one can be made. Before each call it asks the gate,
/// with the core and how many calls the core has made, those of its list and its endpoint calls; at the first false the
/// runner is held, and makes no more.
pub fn run_asks<R: Threads + Sync, G: Gate>(
    rt: &R,
    table: &EndTable,
    gate: &G,
    runners: &mut Vec<EndRunner>,
)
    requires { All (λ r. AwaitsEnds table.now r) runners.old.items }
    ensures { AllZip (MakesAsks (G.is_free gate.now)) runners.old.items runners.new.items }
{
    let threads = runners.len();
    if threads == 0 {
        return;
    }
    for_each_mut(
        rt,
        runners.as_mut_slice(),
        threads,
        &|_, runner|
            requires { AwaitsEnds table.now runner.now }
            ensures { MakesAsks (G.is_free gate.entry.now) runner.entry.now runner.exit.now }
        { run(table, gate, runner) },
    );
}
