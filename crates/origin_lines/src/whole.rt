//! The lines of all places.

ghost use Rattle.std.specs.Prelude.{◌≡◌, ◌<◌, ◌++◌, OnOk, string_bytes};
ghost use Rattle.confinement.specs.seq_state.specs.Maps.{state_of};
ghost use Rattle.origin_lines.specs.Lines.{node_lines, lines_known, TellsOrigins};

use crate::lines::push_line;
use confinement::Origins;
use spk_nums::{EntryNo, FrameNo, Memory};
use std::alloc::Global;

// Appends the lines of a node's places.
fn push_node(
    alloc: Global,
    text: &mut String,
    origins: &Origins,
    node: FrameNo,
) -> Result<(), Memory>
    ensures { OnOk result (string_bytes text.new ≡ string_bytes text.old ++ node_lines (chain_known origins.now) node) }
{
    'entries: for index in 0..64 {
        let entry = EntryNo::new(index);
        let chain = origins.chain(alloc, node, entry)?;
        push_line(text, node, entry, &chain)?;
    }
    Ok(())
}

// Appends the lines of all nodes.
fn push_nodes(alloc: Global, text: &mut String, origins: &Origins) -> Result<(), Memory>
    ensures { OnOk result (string_bytes text.new ≡ string_bytes text.old
        ++ lines_known (chain_known origins.now) (state_of origins.now.kernel).limits.frames) }
{
    'nodes: for number in 0..origins.frames() {
        push_node(alloc, text, origins, FrameNo::new(number))?;
    }
    Ok(())
}

/// Appends a line for each capability that a place holds, by ascending frame and index. It fails only where memory runs out; the text
/// may then have a part of them.
pub fn push_origins(alloc: Global, text: &mut String, origins: &Origins) -> Result<(), Memory>
    ensures { OnOk result (TellsOrigins origins.now (string_bytes text.old) (string_bytes text.new)) }
{
    push_nodes(alloc, text, origins)?;
    Ok(())
}

ghost use Rattle.confinement.specs.Known.{chain_known};
