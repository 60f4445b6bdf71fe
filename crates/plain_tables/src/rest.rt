//! The lines of liveness numbers and cores, and the ticks that cores have spent and have not had back.

ghost use Rattle.std.specs.Prelude.{◌≡◌, ◌<◌, ◌≤◌, ◌^◌, ◌++◌, OnOk, string_bytes};
ghost use Rattle.seq_lookups.specs.seq_state.specs.kernel_rules.specs.State.{first_of_stack, outstanding, thread_of};
ghost use Rattle.seq_lookups.specs.seq_state.specs.kernel_rules.specs.References.{sum_below};
ghost use Rattle.table_lines.specs.kernel_history.specs.Tables.{lines_below, number_line, core_lines};
ghost use Rattle.seq_lookups.specs.seq_state.specs.Parts.{number_of};
ghost use Rattle.seq_lookups.specs.seq_state.specs.Maps.{state_of};

use seq_lookups::seq_state::{Liveness, SeqKernel, Stack};
use seq_lookups::thread_of;
use spk_nums::{CoreEnd, CoreNo, FrameNo};
use std::alloc::{AllocError, Global};
use table_lines::{push_dead, push_live};

// Appends the line of a liveness number that is live or dead.
fn push_number(text: &mut String, number: u8, value: &Liveness) -> Result<(), AllocError>
    ensures { OnOk result (string_bytes text.new ≡ string_bytes text.old ++ number_line number (number_of value.now)) }
{
    match value {
        Liveness::Unused => Ok(()),
        Liveness::Live { epoch, frame } => push_live(text, number, *epoch, *frame),
        Liveness::Dead { epoch } => push_dead(text, number, *epoch),
    }
}

/// Appends the lines of all liveness numbers.
pub fn push_numbers(text: &mut String, k: &SeqKernel) -> Result<(), AllocError>
    ensures { OnOk result (string_bytes text.new
        ≡ string_bytes text.old ++ lines_below (λ l. number_line l ((state_of k.now).number l)) 64) }
{
    'numbers: for number in 0..64 {
        let value = k.number(number);
        push_number(text, number, &value)?;
    }
    Ok(())
}

// The newest frame of a stack, or 0.
fn top_of(stack: &Stack) -> FrameNo
    ensures { result ≡ first_of_stack stack.now }
{
    match stack.top() {
        Some(frame) => frame,
        None => FrameNo::new(0),
    }
}

// Appends the lines of a core of the machine.
fn push_core(
    alloc: Global,
    text: &mut String,
    k: &SeqKernel,
    core: CoreNo,
) -> Result<(), AllocError>
    requires { core < (state_of k.now).limits.cores }
    ensures { OnOk result (string_bytes text.new ≡ string_bytes text.old
        ++ core_lines core ((state_of k.now).core core) (first_of_stack (thread_of (state_of k.now) core).stack)) }
{
    let value = k.core(core);
    let thread = thread_of(k, core);
    let end = CoreEnd {
        thread: value.thread,
        tcap: value.tcap,
        comp: top_of(&thread.stack),
        spent: value.spent,
        back: value.back,
        owed: value.owed,
        cached: value.cached,
    };
    table_lines::push_core(alloc, text, usize::from(core.number()), &end)
}

/// Appends the lines of all cores.
pub fn push_cores(alloc: Global, text: &mut String, k: &SeqKernel) -> Result<(), AllocError>
    ensures { OnOk result (string_bytes text.new ≡ string_bytes text.old
        ++ lines_below (λ c. core_lines c ((state_of k.now).core c) (first_of_stack (thread_of (state_of k.now) c).stack))
        (state_of k.now).limits.cores) }
{
    'cores: for core in 0..k.cores() {
        push_core(alloc, text, k, CoreNo::new(core))?;
    }
    Ok(())
}

/// The sum of the ticks that the cores have spent and have not had back.
pub fn spent(k: &SeqKernel) -> u128
    ensures sum { result ≡ sum_below (λ c. outstanding ((state_of k.now).core c)) (state_of k.now).limits.cores }
    ensures most { result ≤ 2 ^ 67 }
{
    let mut sum: u128 = 0;
    'cores: for core in 0..k.cores() {
        let value = k.core(CoreNo::new(core));
        sum += u128::from(value.spent.saturating_sub(value.back));
    }
    sum
}
