//! The lines of all worlds and gates.

ghost use Rattle.std.specs.Prelude.{◌≡◌, ◌++◌, OnOk, string_bytes};
ghost use Rattle.table_lines.specs.kernel_history.specs.Tables.{lines_below};
ghost use Rattle.world_parts.specs.Seen.{seen};
ghost use Rattle.world_parts.specs.Partitions.{world_in};
ghost use Rattle.world_lines.specs.Lines.{world_line, gate_lines};
ghost use Rattle.world_lines.specs.Table.{IsTable};
ghost use Rattle.world_lines.specs.Telling.{TellsWorlds};

use crate::lines::{push_gate, push_world};
use crate::table::WorldTable;
use spk_nums::{EntryNo, FrameNo, Memory};
use std::alloc::{AllocError, Global};
use world_parts::held_at;
use world_parts::machine_image::Image;

/// Appends the lines of a node's gates to other worlds.
fn push_node(
    text: &mut String,
    image: &Image<'_>,
    table: &WorldTable,
    node: FrameNo,
) -> Result<(), AllocError>
    requires { IsTable (seen image.now) table.now }
    ensures { OnOk result (string_bytes text.new
        ≡ string_bytes text.old ++ gate_lines (seen image.now) (world_in table.now.parts) table.now.ranges.items node) }
{
    'entries: for index in 0..64 {
        let entry = EntryNo::new(index);
        push_gate(text, table, node, entry, held_at(image, node, entry))?;
    }
    Ok(())
}

/// Appends the lines of all worlds.
fn push_all_worlds(
    text: &mut String,
    image: &Image<'_>,
    table: &WorldTable,
) -> Result<(), AllocError>
    requires { IsTable (seen image.now) table.now }
    ensures { OnOk result (string_bytes text.new ≡ string_bytes text.old
        ++ lines_below (world_line (seen image.now) (world_in table.now.parts) table.now.ranges.items) image.now.shape.frames) }
{
    'worlds: for number in 0..image.frames() {
        push_world(text, image, table, FrameNo::new(number))?;
    }
    Ok(())
}

/// Appends the lines of all gates to other worlds.
fn push_all_gates(
    text: &mut String,
    image: &Image<'_>,
    table: &WorldTable,
) -> Result<(), AllocError>
    requires { IsTable (seen image.now) table.now }
    ensures { OnOk result (string_bytes text.new ≡ string_bytes text.old
        ++ lines_below (gate_lines (seen image.now) (world_in table.now.parts) table.now.ranges.items) image.now.shape.frames) }
{
    'nodes: for number in 0..image.frames() {
        push_node(text, image, table, FrameNo::new(number))?;
    }
    Ok(())
}

/// Appends a line for each world of a machine, in which no core is in a call, in the order of their least frames, and for each gate to
/// another world, by ascending frame and index. It fails only where memory runs out; the text may then have a part of them.
pub fn push_worlds(alloc: Global, text: &mut String, image: &Image<'_>) -> Result<(), Memory>
    ensures { OnOk result (TellsWorlds image.now (string_bytes text.old) (string_bytes text.new)) }
{
    let table = WorldTable::of(alloc, image)?;
    push_all_worlds(text, image, &table)?;
    push_all_gates(text, image, &table)?;
    Ok(())
}
