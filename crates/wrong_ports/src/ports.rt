//! Calls and meets of ports.

ghost use Rattle.std.specs.Prelude.{◌≡◌, All};
ghost use Rattle.std.specs.List.{AllZip};
ghost use Rattle.spk_nums.specs.CallLimits.{InLimits};
ghost use Rattle.core_machine.specs.core_kernel.specs.Calls.{MakesCall, Meets};
ghost use Rattle.core_runs.specs.Runs.{IsWaiting, MakesCalls};

use core_machine::Port;
use core_runs::core_kernel::{CoreNote, Kernel};
use core_runs::{Gate, Runner, run_cores};
use spk_nums::{Call, Reply};
use std::thread::Threads;

/// Makes the call of the port's core.
pub fn call(port: &mut Port, call: Call) -> Reply
    requires { InLimits call }
    ensures { MakesCall port.old call result port.new }
{
    let answered = port.call(call);
    answered
}

/// Charges the most ticks that a call may charge.
pub fn charge(port: &mut Port) -> Reply
    ensures { MakesCall port.old (Call.Tick 1000000) result port.new }
{
    let call = Call::Tick { n: 1_000_000 };
    port.call(call)
}

/// Tells the port all that the note tells.
pub fn meet(port: &mut Port, note: CoreNote)
    requires { note.kernel ≡ port.old.kernel }
    ensures { Meets port.old note port.new }
{
    port.meet(note);
}

/// Tells one port of a machine what another of it has seen, and the port of some other machine nothing.
pub fn tell(told: &mut Port, seen: &mut Port, other: &mut Port)
    requires { seen.old.kernel ≡ told.old.kernel }
    ensures own { told.new.core ≡ told.old.core }
    ensures kernel { other.new.kernel ≡ other.old.kernel }
{
    let _others = other.core();
    let note = seen.note();
    told.meet(note);
}

/// Makes the calls of each runner.
pub fn run<R: Threads + Sync, G: Gate>(rt: &R, kernel: &Kernel, runners: &mut Vec<Runner>, gate: &G)
    requires { All (λ r. IsWaiting kernel.now r) runners.old.items }
    ensures { AllZip (MakesCalls (G.is_free gate.now)) runners.old.items runners.new.items }
{
    run_cores(rt, kernel, runners, gate);
}
