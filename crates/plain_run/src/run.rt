//! The calls of a script made alone, as `plain` does: core 0's, then core 1's, and so on.
ghost use Rattle.std.specs.Prelude.{◌≡◌, ◌<◌, ◌++◌, ◌^◌, IfOk, OnOk, All, map, length, string_bytes};
ghost use Rattle.spk_nums.specs.CallLimits.{InLimits};
ghost use Rattle.spk_nums.specs.Texts.{reply_line_text};
ghost use Rattle.plain_tables.specs.kernel_history.specs.Order.{list_of};
ghost use Rattle.plain_tables.specs.kernel_history.specs.Text.{plain_text};
ghost use Rattle.plain_run.specs.Plain.{HasReached, RunsCall, RunsList, RunsLists, AreRunnable};

use plain_kernel::{SeqKernel, plain_step};
use plain_tables::tables;
use spk_nums::{Call, CoreNo, Memory, Reply, ReplyLine, Setup};
use std::alloc::{AllocError, Global};

// Appends the reply line of a call.
fn push_reply(
    text: &mut String,
    core: CoreNo,
    index: u32,
    call: &Call,
    reply: &Reply,
) -> Result<(), AllocError>
    ensures { OnOk result (string_bytes text.new ≡ string_bytes text.old ++ reply_line_text core index call.now reply.now) }
{
    let line = ReplyLine {
        core,
        index,
        call,
        reply,
    };
    write!(text, "{line}")
}

// Makes a call of a core, the one of this index among the core's, and appends its reply line.
fn run_call(
    alloc: Global,
    setup: &Setup,
    kernel: &mut SeqKernel,
    core: CoreNo,
    index: u32,
    call: &Call,
    text: &mut String,
) -> Result<(), Memory>
    requires reached { HasReached setup.now kernel.old }
    requires core { core < setup.now.cores }
    requires limits { InLimits call.now }
    ensures { OnOk result (RunsCall setup.now kernel.old kernel.new core index call.now (string_bytes text.old) (string_bytes text.new)) }
{
    let _limits = setup.cores();
    match plain_step(alloc, kernel, core, call) {
        Ok(reply) => Ok(push_reply(text, core, index, call, &reply)?),
        Err(memory) => Err(memory),
    }
}

// Makes the calls of a core, one after another, and appends their reply lines.
fn run_list(
    alloc: Global,
    setup: &Setup,
    kernel: &mut SeqKernel,
    core: CoreNo,
    calls: &[Call],
    text: &mut String,
) -> Result<(), Memory>
    requires reached { HasReached setup.now kernel.old }
    requires core { core < setup.now.cores }
    requires limits { All InLimits calls.now }
    requires few { length calls.now < 2 ^ 32 }
    ensures { OnOk result (RunsList setup.now kernel.old kernel.new core calls.now (string_bytes text.old) (string_bytes text.new)) }
{
    let mut index: u32 = 0;
    'calls: for call in calls {
        index += 1;
        run_call(alloc, setup, kernel, core, index, call, text)?;
    }
    Ok(())
}

// Makes the calls of all cores, core 0's first, and appends their reply lines.
fn run_lists(
    alloc: Global,
    setup: &Setup,
    kernel: &mut SeqKernel,
    lists: &[Vec<Call>],
    text: &mut String,
) -> Result<(), Memory>
    requires reached { HasReached setup.now kernel.old }
    requires one_each { length lists.now ≡ setup.now.cores }
    requires can_run { AreRunnable (map (λ v. v.items) lists.now) }
    ensures { OnOk result (RunsLists setup.now kernel.old kernel.new (list_of (map (λ v. v.items) lists.now))
        setup.now.cores (string_bytes text.old) (string_bytes text.new)) }
{
    'cores: for core in 0..setup.cores() {
        let calls = lists[usize::from(core)].as_slice();
        run_list(alloc, setup, kernel, CoreNo::new(core), calls, text)?;
    }
    Ok(())
}

/// Makes the calls of the lists alone, core 0's first, and answers the text of that: their reply lines, then the tables of
/// the last state. There is a list for each core, each of fewer than 2^32 calls within their limits; it fails only where
/// memory runs out.
pub fn plain(alloc: Global, setup: &Setup, lists: &[Vec<Call>]) -> Result<String, Memory>
    requires one_each { length lists.now ≡ setup.now.cores }
    requires can_run { AreRunnable (map (λ v. v.items) lists.now) }
    ensures { IfOk result (λ text. string_bytes text ≡ plain_text setup.now (list_of (map (λ v. v.items) lists.now))) }
{
    let _limits = setup.cores();
    let mut kernel = SeqKernel::start(alloc, setup)?;
    let mut text = String::new(alloc);
    run_lists(alloc, setup, &mut kernel, lists, &mut text)?;
    let tables = tables(alloc, &kernel)?;
    text.push_str(&tables)?;
    Ok(text)
}
