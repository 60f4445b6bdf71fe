//! Lists, made as `run` does.
ghost use Rattle.std.specs.Prelude.{◌≡◌, true, IfOk, IfSome, IsSome, map, length, string_bytes};
ghost use Rattle.ends_run.specs.core_runs.specs.TakenSteps.{TakenSteps};
ghost use Rattle.trace_run.specs.lone_kernel.specs.Machine.{AreLists};

use crate::closed::tables;
use crate::text::write_decisions;
use ends_run::core_runs::{Gate, run_whole};
use load_maker::script_reader::Script;
use spk_nums::Memory;
use std::alloc::Global;
use std::thread::Threads;

/// Makes the script's lists, each core in a thread of its own where one can be made, and answers the text of the trace
/// that this makes: the reply lines of core 0, then of core 1 and so on, then the tables. There is a list for each core,
/// each of fewer than 2^32 calls that are within their limits. None comes exactly where the gate has stopped a core, so
/// only where it is not free; it fails only where memory runs out.
pub fn run_lists<R: Threads + Sync, G: Gate>(
    rt: &R,
    alloc: Global,
    script: &Script,
    gate: &G,
) -> Result<Option<String>, Memory>
    requires can_run { AreLists (map (λ v. v.items) script.now.lists.items) }
    requires one_each { length script.now.lists.items ≡ script.now.setup.cores }
    ensures text { IfOk result
        (λ text. IfSome text (λ text. TakenSteps script.now.setup (map (λ v. v.items) script.now.lists.items) (string_bytes text))) }
    ensures free { IfOk result (λ text. G.is_free gate.now ≡ true → IsSome text) }
{
    let Some(ran) = run_whole(rt, alloc, &script.setup, &script.lists, gate)? else {
        return Ok(None);
    };
    let mut text = String::new(alloc);
    write_decisions(&mut text, &script.lists, &ran.decisions)?;
    let tables = tables(alloc, &ran.closed)?;
    text.push_str(&tables)?;
    Ok(Some(text))
}
