//! The machine whose core a scheduler runs, and the plain kernel beside it.

ghost use Rattle.std.specs.Prelude.{◌≡◌, List, [], ◌∷◌, ◌++◌};
ghost use Rattle.spk_nums.specs.Setting.{Setting};
ghost use Rattle.spk_nums.specs.CallLimits.{InLimits};
ghost use Rattle.spk_nums.specs.declared.calls.Call.{Call};
ghost use Rattle.sched_rules.specs.Schedule.{reply_to};
ghost use Rattle.fixed_prio.specs.Machines.{after_calls, Beside, MakesBoth};

use plain_kernel::{SeqKernel, plain_step};
use spk_nums::{Call, CoreNo, Reply};
use std::alloc::Global;

/// A machine of one core, which makes its calls one after another. Contracts see what it was booted with, and the calls so far; each
/// reply is the sequential kernel's in the state after the calls before it.
pub trait Machine {
    /// What the machine was booted with. It never changes.
    ghost setup: { Self → Setting };

    /// The calls made so far, in order.
    ghost made: { Self → List Call };

    /// Makes a call of core 0, its numbers within their limits, and answers its reply. The machine has one core.
    fn call(&mut self, call: Call) -> Reply
        requires one_core { (setup self.old).cores ≡ 1 }
        requires limits { InLimits call }
        ensures setup { setup self.new ≡ setup self.old }
        ensures made { made self.new ≡ made self.old ++ call ∷ [] }
        ensures reply { result ≡ reply_to (after_calls (setup self.old) (made self.old)) call };
}

/// Makes a call at the machine and at the plain kernel beside it, and answers the machine's reply.
pub fn call_both<M: Machine>(alloc: Global, m: &mut M, k: &mut SeqKernel, call: Call) -> Reply
    requires beside { Beside (M.setup m.old) (M.made m.old) k.old }
    requires limits { InLimits call }
    ensures setup { M.setup m.new ≡ M.setup m.old }
    ensures both { MakesBoth (M.setup m.old) (M.made m.old) call result (M.made m.new) k.new }
{
    let reply = m.call(call);
    match plain_step(alloc, k, CoreNo::new(0), &call) {
        Ok(_) => reply,
        Err(_) => unreachable!(),
    }
}
