//! The lines of objects.

ghost use Rattle.std.specs.Prelude.{◌≡◌, ◌<◌, ◌++◌, OnOk, string_bytes, reverse, Some, length, slice_get};
ghost use Rattle.std.specs.List.{flat_map};
ghost use Rattle.table_lines.specs.kernel_history.specs.Tables.{number, entry_line, node_lines, comp_line, thread_line, quality_line, tcap_lines};
ghost use Rattle.seq_lookups.specs.seq_state.specs.Parts.{place_held, comp_fields_of, thread_fields_of, tcap_fields_of};
ghost use Rattle.seq_lookups.specs.seq_state.specs.Maps.{state_of};

use crate::names::frame_at;
use seq_lookups::seq_state::{CompFields, Place, SeqKernel, Stack, TcapFields, ThreadFields};
use spk_nums::{EntryNo, FrameNo, Qualities};
use std::alloc::AllocError;
use table_lines::{
    push_budget, push_entry, push_quality, push_stack_end, push_stack_start, push_stacked,
};

// Appends the line of an entry that is held.
fn push_place(text: &mut String, index: u16, place: &Place) -> Result<(), AllocError>
    ensures { OnOk result (string_bytes text.new ≡ string_bytes text.old ++ entry_line index (place_held place.now)) }
{
    match place {
        Place::Free => Ok(()),
        Place::Holds(cap) => push_entry(text, index, cap),
        Place::Quiescing(_) => Ok(()),
    }
}

/// Appends the lines of a node's entries.
pub fn push_node(text: &mut String, k: &SeqKernel, node: FrameNo) -> Result<(), AllocError>
    ensures { OnOk result (string_bytes text.new ≡ string_bytes text.old ++ node_lines ((state_of k.now).place node)) }
{
    'entries: for index in 0..64 {
        let place = k.place(node, EntryNo::new(index));
        push_place(text, index, &place)?;
    }
    Ok(())
}

/// Appends the line of a component.
pub fn push_comp(text: &mut String, comp: &CompFields) -> Result<(), AllocError>
    ensures { OnOk result (string_bytes text.new ≡ string_bytes text.old ++ comp_line (comp_fields_of comp.now)) }
{
    let table = u64::from(comp.table.number());
    let pages = u64::from(comp.pages.number());
    table_lines::push_comp(text, table, pages, comp.number, comp.epoch)
}

// Appends the frames of a stack, the bottom first.
fn push_stack(text: &mut String, stack: &Stack) -> Result<(), AllocError>
    ensures { OnOk result (string_bytes text.new ≡ string_bytes text.old ++ flat_map number (reverse stack.now)) }
{
    'heights: for height in 0..stack.len() {
        let frame = frame_at(stack, height);
        push_stacked(text, frame)?;
    }
    Ok(())
}

/// Appends the line of a thread.
pub fn push_thread(text: &mut String, thread: &ThreadFields) -> Result<(), AllocError>
    ensures { OnOk result (string_bytes text.new ≡ string_bytes text.old ++ thread_line (thread_fields_of thread.now)) }
{
    push_stack_start(text)?;
    push_stack(text, &thread.stack)?;
    push_stack_end(text)
}

// The pair at a place of a list.
fn pair_at(qualities: &Qualities, at: usize) -> (u8, u32)
    requires { at < length qualities.now }
    ensures { slice_get qualities.now at ≡ Some result }
{
    qualities.get(at).unwrap()
}

fn push_pair(text: &mut String, pair: (u8, u32)) -> Result<(), AllocError>
    ensures { OnOk result (string_bytes text.new ≡ string_bytes text.old ++ quality_line pair) }
{
    push_quality(text, pair.0, pair.1)
}

fn push_qualities(text: &mut String, qualities: &Qualities) -> Result<(), AllocError>
    ensures { OnOk result (string_bytes text.new ≡ string_bytes text.old ++ flat_map quality_line qualities.now) }
{
    'pairs: for at in 0..qualities.len() {
        let pair = pair_at(qualities, at);
        push_pair(text, pair)?;
    }
    Ok(())
}

/// Appends the lines of a temporal capability.
pub fn push_tcap(text: &mut String, tcap: &TcapFields) -> Result<(), AllocError>
    ensures { OnOk result (string_bytes text.new ≡ string_bytes text.old ++ tcap_lines (tcap_fields_of tcap.now)) }
{
    push_budget(text, tcap.budget)?;
    push_qualities(text, &tcap.qualities)
}
