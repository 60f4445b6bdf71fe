//! Lists and an order, taken as `replay` does and summed up.
ghost use Rattle.std.specs.Prelude.{◌≡◌, ◌<◌, ◌≤◌, IfOk, All, map, length, string_bytes};
ghost use Rattle.trace_run.specs.lone_kernel.specs.Machine.{AreLists};
ghost use Rattle.speck_run.specs.Summary.{GivenSummary, IsSummedUp};

use crate::closed::total_ticks;
use crate::orders::{follow, run_rest};
use load_maker::script_reader::{Cause, ReadFault, Script, read};
use load_summary::{push_counts, push_total};
use spk_nums::{Call, Item, Memory, Setup};
use std::alloc::Global;
use trace_run::lone_kernel::LoneKernel;

/// What became of an input that was to be summed up.
#[derive(Debug, Drop)]
pub enum Summed {
    /// Its steps were taken, and this is their summary.
    Done { text: String },
    /// It is no script, and this is its first fault.
    NoScript { line: u32, cause: Cause },
}

/// Takes the items of the order, then runs each core out, and answers the summary of the trace that this makes: how often
/// each reply came, how many calls there were, and the total of the budgets and the ticks spent, as the final words and the
/// cores show it. There is a list for each core, each of fewer than 2^32 calls that are within their limits; it fails only
/// where memory runs out.
pub fn summarize(
    alloc: Global,
    setup: &Setup,
    lists: Vec<Vec<Call>>,
    items: &[Item],
) -> Result<String, Memory>
    requires can_run { AreLists (map (λ v. v.items) lists.items) }
    requires one_each { length lists.items ≡ setup.now.cores }
    requires named { All (λ item. item.core < setup.now.cores) items.now }
    ensures { IfOk result (λ text. GivenSummary setup.now (map (λ v. v.items) lists.items) items.now (string_bytes text)) }
{
    let _cores = setup.cores();
    let mut kernel = LoneKernel::boot(alloc, setup, lists)?;
    follow(&mut kernel, items);
    run_rest(&mut kernel, setup);
    let mut text = String::new(alloc);
    push_counts(&mut text, kernel.decisions())?;
    let closed = kernel.close(alloc)?;
    push_total(&mut text, total_ticks(&closed))?;
    Ok(text)
}

/// Takes the steps of a script as `replay` does, and answers their summary: a line for each reply that came, in the order of
/// their numbers, with how often it came; then how many calls were decided, and the total of all budgets and all ticks spent.
/// It fails only where memory runs out.
pub fn sum_up(alloc: Global, bytes: &[u8]) -> Result<Summed, Memory>
    requires { length bytes.now ≤ 1048576 }
    ensures { IfOk result (λ summed. IsSummedUp bytes.now summed) }
{
    let script = match read(alloc, bytes) {
        Ok(script) => script,
        Err(ReadFault::Memory) => return Err(Memory),
        Err(ReadFault::Script { line, cause }) => return Ok(Summed::NoScript { line, cause }),
    };
    let Script {
        version: _,
        setup,
        lists,
        order,
    } = script;
    let text = summarize(alloc, &setup, lists, &order)?;
    Ok(Summed::Done { text })
}
