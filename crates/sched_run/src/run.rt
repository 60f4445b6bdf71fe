//! From the bytes of the input to the text, or to the first fault.

ghost use Rattle.std.specs.Prelude.{◌≡◌, ◌<◌, ◌≤◌, ◌++◌, ◌^◌, [], length, All, IfOk, IfErr, string_bytes};
ghost use Rattle.spk_nums.specs.CallLimits.{InLimits};
ghost use Rattle.fixed_prio.specs.Machines.{Beside};
ghost use Rattle.sched_reader.specs.Inputs.{input_view, IsSchedInput};
ghost use Rattle.sched_run.specs.Made.{IsMade, IsSchedMade, IsSchedFault};

use fixed_prio::{Machine, call_both, schedule};
use line_reader::ReadFault;
use plain_kernel::SeqKernel;
use sched_reader::{SchedInput, read_sched};
use sched_text::schedule_text;
use spk_nums::{Call, Make, Memory, Setup};
use std::alloc::Global;

/// A machine of one core that can be booted.
pub trait Boot: Machine + Drop {
    /// A machine of this setup, which has one core, that has made no call. It fails only where memory runs out.
    fn boot(alloc: Global, setup: &Setup) -> Result<Self, Memory>
        requires one_core { setup.now.cores ≡ 1 }
        ensures setup { IfOk result (λ m. Self.setup m ≡ setup.now) }
        ensures fresh { IfOk result (λ m. Self.made m ≡ []) };
}

/// The text of a schedule, and the machine that ran it.
#[derive(Drop)]
pub struct Scheduled<M> {
    pub text: String,
    pub machine: M,
}

// Makes calls at the machine and at the plain kernel beside it, one after another.
fn make_calls<M: Machine>(alloc: Global, m: &mut M, k: &mut SeqKernel, calls: &[Call])
    requires beside { Beside (M.setup m.old) (M.made m.old) k.old }
    requires limits { All InLimits calls.now }
    ensures setup { M.setup m.new ≡ M.setup m.old }
    ensures made { M.made m.new ≡ M.made m.old ++ calls.now }
    ensures beside { Beside (M.setup m.old) (M.made m.new) k.new }
{
    let _made: Option<Make> = None;
    'calls: for call in calls {
        let _reply = call_both(alloc, m, k, *call);
    }
}

// The text of an input, on a machine of its setup that has made no call.
fn make<M: Machine>(alloc: Global, m: &mut M, input: &SchedInput) -> Result<String, Memory>
    requires input { IsSchedInput input.now }
    requires setup { M.setup m.old ≡ input.now.script.setup }
    requires fresh { M.made m.old ≡ [] }
    ensures setup { M.setup m.new ≡ M.setup m.old }
    ensures made { IfOk result (λ text. IsMade (input_view input.now) (M.made m.new) (string_bytes text)) }
{
    let _limits = input.script.setup.cores();
    let mut kernel = SeqKernel::start(alloc, &input.script.setup)?;
    make_calls(alloc, m, &mut kernel, input.script.lists[0].as_slice());
    let turns = schedule(alloc, m, &mut kernel, &input.rule, &input.tasks)?;
    Ok(schedule_text(alloc, &turns, &input.tasks)?)
}

/// The text of the schedule that the input asks for, of fewer than 2^32 bytes, and the machine that was booted for it, which has made the
/// script's calls and then those of the turns.
///
/// # Errors
///
/// `Script` where the input is no script with tasks after it, with its first fault (`sched_reader`); `Memory` where memory has run out.
pub fn sched<M: Boot>(alloc: Global, source: &[u8]) -> Result<Scheduled<M>, ReadFault>
    requires { length source.now < 2 ^ 32 }
    ensures made { IfOk result (λ s. IsSchedMade source.now (M.setup s.machine) (M.made s.machine) (string_bytes s.text)) }
    ensures fault { IfErr result (IsSchedFault source.now) }
{
    let input = read_sched(alloc, source)?;
    let Ok(mut machine) = M::boot(alloc, &input.script.setup) else {
        return Err(ReadFault::Memory);
    };
    match make(alloc, &mut machine, &input) {
        Ok(text) => Ok(Scheduled { text, machine }),
        Err(_) => Err(ReadFault::Memory),
    }
}
