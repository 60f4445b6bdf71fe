//! Texts of a number's script, of endpoint calls and of a schedule.

ghost use Rattle.std.specs.Prelude.{◌≡◌, ◌<◌, ◌^◌, All, IfOk, IfSome, length, map, string_bytes};
ghost use Rattle.speck_run.specs.trace_run.specs.lone_kernel.specs.Machine.{AreLists};
ghost use Rattle.speck_run.specs.ends_run.specs.Whole.{FewCalls, FewAsks};
ghost use Rattle.load_maker.specs.Loads.{load_text};
ghost use Rattle.speck_run.specs.one_core.specs.Scheduled.{IsSchedText};
ghost use Rattle.speck_run.specs.Ends.{EndsText};

use ends_reader::EndsInput;
use load_maker::load_script;
use script_reader::ReadFault;
use speck_run::one_core::run_sched;
use speck_run::{Gate, make_ends};
use spk_nums::Memory;
use std::alloc::Global;
use std::thread::Threads;

/// The text of the number's script.
pub fn make(alloc: Global, number: u32) -> Result<String, Memory>
    ensures { IfOk result (λ text. string_bytes text ≡ load_text number) }
{
    load_script(alloc, number)
}

/// The text of lists and of the endpoint calls after them.
pub fn ends<R: Threads + Sync, G: Gate>(
    rt: &R,
    alloc: Global,
    input: &EndsInput,
    gate: &G,
) -> Result<Option<String>, Memory>
    requires can_run { AreLists (map (λ v. v.items) input.now.script.lists.items) }
    requires one_each { length input.now.script.lists.items ≡ input.now.script.setup.cores }
    requires one_asks_each { length input.now.asks.items ≡ input.now.script.setup.cores }
    requires few { All FewCalls input.now.script.lists.items }
    requires few_asks { All FewAsks input.now.asks.items }
    ensures { IfOk result (λ text. IfSome text
        (λ text. EndsText input.now.script.setup (map (λ v. v.items) input.now.script.lists.items)
        (map (λ v. v.items) input.now.asks.items) (string_bytes text))) }
{
    make_ends(rt, alloc, input, gate)
}

/// The text of the schedule of the input's tasks.
pub fn sched_text(alloc: Global, source: &[u8]) -> Result<String, ReadFault>
    requires { length source.now < 2 ^ 32 }
    ensures { IfOk result (λ text. IsSchedText source.now (string_bytes text)) }
{
    let text = run_sched(alloc, source)?;
    Ok(text)
}
