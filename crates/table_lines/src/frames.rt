//! The lines of frames and their objects.

ghost use Rattle.std.specs.Prelude.{◌≡◌, ◌++◌, OnOk, string_bytes, codes};
ghost use Rattle.kernel_history.specs.kernel_rules.specs.State.{Holds};
ghost use Rattle.kernel_history.specs.Tables.{number, line_end, frame_line, entry_line, comp_line, quality_line};

use spk_nums::{Cap, FrameNo};
use std::alloc::AllocError;

/// Appends the line of a frame: its number, the word of its object, and the references to it.
pub fn push_frame(
    text: &mut String,
    frame: FrameNo,
    name: &'static str,
    refs: u64,
) -> Result<(), AllocError>
    ensures { OnOk result (string_bytes text.new ≡ string_bytes text.old ++ frame_line frame name.now refs) }
{
    write!(text, "frame {frame} {name} refs {refs}\n")
}

/// Appends the line of an entry that holds a capability: its index and the capability.
pub fn push_entry(text: &mut String, index: u16, cap: &Cap) -> Result<(), AllocError>
    ensures { OnOk result (string_bytes text.new ≡ string_bytes text.old ++ entry_line index (Holds cap.now)) }
{
    write!(text, "  {index} {cap}\n")
}

/// Appends the line of a component: the frames of its table and its pages, its liveness number and its epoch.
pub fn push_comp(
    text: &mut String,
    table: u64,
    pages: u64,
    number: u8,
    epoch: u16,
) -> Result<(), AllocError>
    ensures { OnOk result (string_bytes text.new ≡ string_bytes text.old
        ++ comp_line (record { table = table; pages = pages; number = number; epoch = epoch })) }
{
    write!(text, "  fields {table} {pages} {number} {epoch}\n")
}

/// Begins the line of a thread's stack.
pub fn push_stack_start(text: &mut String) -> Result<(), AllocError>
    ensures { OnOk result (string_bytes text.new ≡ string_bytes text.old ++ codes "  stack") }
{
    text.push_str("  stack")
}

/// Appends a frame of a stack to its line; the bottom comes first.
pub fn push_stacked(text: &mut String, frame: FrameNo) -> Result<(), AllocError>
    ensures { OnOk result (string_bytes text.new ≡ string_bytes text.old ++ number frame) }
{
    write!(text, " {frame}")
}

/// Ends the line of a thread's stack.
pub fn push_stack_end(text: &mut String) -> Result<(), AllocError>
    ensures { OnOk result (string_bytes text.new ≡ string_bytes text.old ++ line_end) }
{
    text.push_str("\n")
}

/// Appends the line of a budget, in ticks.
pub fn push_budget(text: &mut String, budget: u32) -> Result<(), AllocError>
    ensures { OnOk result (string_bytes text.new ≡ string_bytes text.old ++ (codes "  budget" ++ (number budget ++ line_end))) }
{
    write!(text, "  budget {budget}\n")
}

/// Appends the line of a scheduler and its quality.
pub fn push_quality(text: &mut String, scheduler: u8, quality: u32) -> Result<(), AllocError>
    ensures { OnOk result (string_bytes text.new ≡ string_bytes text.old ++ quality_line (scheduler, quality)) }
{
    write!(text, "  quality {scheduler} {quality}\n")
}
