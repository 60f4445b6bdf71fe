//! A script in its printed form.

ghost use Rattle.std.specs.Prelude.{◌≡◌, ◌++◌, IfOk, OnOk, string_bytes};
ghost use Rattle.std.specs.List.{flat_map};
ghost use Rattle.script_reader.specs.Readings.{lists_of, script_of, script_view};
ghost use Rattle.script_printer.specs.Printing.{call_line, core_lines, list_lines, printed};
ghost use Rattle.script_printer.specs.Law.{IsWithin};

use crate::order::push_order;
use crate::setup::push_setup;
use line_texts::push_call;
use script_reader::Script;
use spk_nums::{Call, Memory};
use std::alloc::{AllocError, Global};

fn push_calls(text: &mut String, calls: &[Call]) -> Result<(), AllocError>
    ensures { OnOk result (string_bytes text.new ≡ string_bytes text.old ++ flat_map call_line calls.now) }
{
    for call in calls {
        push_call(text, call)?;
        text.push('\n')?;
    }
    Ok(())
}

// Appends the lines of a core; none where it has no calls.
fn push_core(text: &mut String, core: usize, calls: &[Call]) -> Result<(), AllocError>
    ensures { OnOk result (string_bytes text.new ≡ string_bytes text.old ++ core_lines core calls.now) }
{
    if calls.is_empty() {
        return Ok(());
    }
    write!(text, "core {core}\n")?;
    push_calls(text, calls)
}

// Appends the lines of the cores, in ascending order.
fn push_lists(text: &mut String, lists: &[Vec<Call>]) -> Result<(), AllocError>
    ensures { OnOk result (string_bytes text.new ≡ string_bytes text.old ++ list_lines 0 (lists_of lists.now)) }
{
    'cores: for core in 0..lists.len() {
        push_core(text, core, &lists[core])?;
    }
    Ok(())
}

// The printed form of a script.
#[tactic(auto, unfolding(crate::specs::Printing::printed))]
fn printed(alloc: Global, script: &Script) -> Result<String, AllocError>
    ensures { IfOk result (λ text. string_bytes text ≡ printed (script_view script.now)) }
{
    let mut text = String::new(alloc);
    push_setup(&mut text, script.version, &script.setup)?;
    push_lists(&mut text, &script.lists)?;
    push_order(&mut text, &script.order)?;
    Ok(text)
}

/// Prints a script: the lines of its setup with both limits, the calls of each core that has some after
/// its `core` line, and the items of its order, ten a line, after an `order` line.
///
/// Where the script is within the limits and its printed form has at most 20,000 lines, `read` of what is
/// printed gives the same version, setup, lists and order.
///
/// # Errors
///
/// `Memory` where memory has run out.
pub fn print(alloc: Global, script: &Script) -> Result<String, Memory>
    // What is answered is the printed form.
    ensures text { IfOk result (λ text. string_bytes text ≡ printed (script_view script.now)) }
    // It says the script that was printed, where that is within the limits.
    ensures read { IfOk result (λ text. IsWithin (script_view script.now) → script_of (string_bytes text) ≡ Ok (script_view script.now)) }
{
    let text = printed(alloc, script)?;
    Ok(text)
}
