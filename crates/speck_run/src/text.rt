//! The reply lines of a run, a line for each decision, in order.
ghost use Rattle.std.specs.Prelude.{◌≡◌, ◌++◌, OnOk, map, string_bytes};
ghost use Rattle.trace_run.specs.lone_kernel.specs.kernel_history.specs.Order.{list_of};
ghost use Rattle.trace_run.specs.lone_kernel.specs.kernel_history.specs.Text.{line_of};
ghost use Rattle.speck_run.specs.Written.{lines_of};

use load_maker::script_printer::push_reply_line;
use spk_nums::{Call, Decision};
use std::alloc::AllocError;

// Appends the reply line of a decision, by the lists of the cores' calls; nothing where they have no such call.
fn write_decision(
    text: &mut String,
    lists: &[Vec<Call>],
    decision: &Decision,
) -> Result<(), AllocError>
    ensures { OnOk result (string_bytes text.new ≡ string_bytes text.old ++ line_of (list_of (map (λ v. v.items) lists.now)) decision.now) }
{
    let core = decision.core;
    let index = decision.index;
    let Some(list) = lists.get(usize::from(core.number())) else {
        return Ok(());
    };
    let Some(call) = list.get(index.saturating_sub(1) as usize) else {
        return Ok(());
    };
    push_reply_line(text, core, index, call, &decision.reply)
}

/// Appends the reply lines of the decisions, in order, by the lists of the cores' calls.
pub fn write_decisions(
    text: &mut String,
    lists: &[Vec<Call>],
    decisions: &[Decision],
) -> Result<(), AllocError>
    ensures { OnOk result (string_bytes text.new ≡ string_bytes text.old ++ lines_of (map (λ v. v.items) lists.now) decisions.now) }
{
    for decision in decisions {
        write_decision(text, lists, decision)?;
    }
    Ok(())
}
