//! Lists and the endpoint calls after them, made as `ends` does.
ghost use Rattle.std.specs.Prelude.{◌≡◌, ◌<◌, ◌^◌, ◌++◌, true, All, IfOk, IfSome, IsSome, OnOk, map, length, string_bytes};
ghost use Rattle.trace_run.specs.lone_kernel.specs.Machine.{AreLists};
ghost use Rattle.ends_run.specs.Whole.{FewCalls, FewAsks};
ghost use Rattle.speck_run.specs.Ends.{EndsText};
ghost use Rattle.speck_run.specs.Written.{core_lines};

use crate::text::write_decisions;
use async_ends::EndDone;
use ends_run::core_runs::Gate;
use ends_run::run_ends;
use ends_text::{push_done_lines, push_end_lines};
use explain_run::ends_reader::EndsInput;
use spk_nums::{CoreNo, Memory};
use std::alloc::{AllocError, Global};
use std::thread::Threads;

// Appends the lines of the endpoint calls of core 0, then of core 1 and so on, of at most 8 cores.
fn write_done(text: &mut String, done: &[Vec<EndDone>]) -> Result<(), AllocError>
    requires cores { length done.now < 9 }
    requires few { All (λ v. length v.items < 2 ^ 32) done.now }
    ensures { OnOk result (string_bytes text.new ≡ string_bytes text.old ++ core_lines (map (λ v. v.items) done.now) (length done.now)) }
{
    for core in 0..done.len() {
        push_done_lines(text, CoreNo::new(core as u8), done[core].as_slice())?;
    }
    Ok(())
}

/// Makes the lists of the input's script and after all of them its endpoint calls, each core in a thread of its own where one
/// can be made, and answers the text of what this did: the reply lines of the lists' calls, then the lines of the endpoint
/// calls, each core 0's first, then those of the frames. None comes exactly where the gate has stopped a core, so only where it
/// is not free; it fails only where memory runs out.
pub fn make_ends<R: Threads + Sync, G: Gate>(
    rt: &R,
    alloc: Global,
    input: &EndsInput,
    gate: &G,
) -> Result<Option<String>, Memory>
    requires can_run { AreLists (map (λ v. v.items) input.now.script.lists.items) }
    requires one_each { length input.now.script.lists.items ≡ input.now.script.setup.cores }
    requires one_asks_each { length input.now.asks.items ≡ input.now.script.setup.cores }
    requires few { All FewCalls input.now.script.lists.items }
    requires few_asks { All FewAsks input.now.asks.items }
    ensures text { IfOk result (λ text. IfSome text
        (λ text. EndsText input.now.script.setup (map (λ v. v.items) input.now.script.lists.items)
        (map (λ v. v.items) input.now.asks.items) (string_bytes text))) }
    ensures free { IfOk result (λ text. G.is_free gate.now ≡ true → IsSome text) }
{
    let script = &input.script;
    // So the proof learns that there are at most 8 cores.
    let _cores = script.setup.cores();
    let Some(ran) = run_ends(rt, alloc, &script.setup, &script.lists, &input.asks, gate)? else {
        return Ok(None);
    };
    let mut text = String::new(alloc);
    write_decisions(&mut text, &script.lists, &ran.decisions)?;
    write_done(&mut text, &ran.done)?;
    push_end_lines(&mut text, &ran.sent, &ran.left)?;
    Ok(Some(text))
}
