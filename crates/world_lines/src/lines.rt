//! The line of a world, and that of a gate.

ghost use Rattle.std.specs.Prelude.{◌≡◌, ◌==◌, ◌++◌, [], Some, OnOk, string_bytes, codes, if◌then◌else◌};
ghost use Rattle.std.specs.List.{flat_map};
ghost use Rattle.world_parts.specs.Seen.{seen};
ghost use Rattle.world_parts.specs.Partitions.{world_in};
ghost use Rattle.table_lines.specs.kernel_history.specs.Tables.{number};
ghost use Rattle.world_lines.specs.Lines.{frames_in, works_there, any_below, those, core_words, range_words, memory_words};
ghost use Rattle.world_lines.specs.Lines.{told_line, world_line, gate_words, gate_between, gate_line, number_at};
ghost use Rattle.world_lines.specs.Table.{IsTable};

use crate::ranges::{WorldRange, either, has_range};
use crate::table::{WorldTable, is_told};
use spk_nums::{Cap, CoreNo, EntryNo, FrameNo, Kind};
use std::alloc::AllocError;
use world_parts::machine_image::Image;
use world_parts::{Parts, works_in};

/// Appends a number, if it is to be told.
fn push_if(text: &mut String, told: bool, value: u16) -> Result<(), AllocError>
    ensures { OnOk result (string_bytes text.new ≡ string_bytes text.old ++ (if told then number value else [])) }
{
    if told {
        write!(text, " {value}")
    } else {
        Ok(())
    }
}

/// Whether a frame is of a world.
fn is_of(parts: &Parts, frame: FrameNo, world: FrameNo) -> bool
    ensures { result ≡ (world_in parts.now frame == world) }
{
    parts.world(frame).number() == world.number()
}

/// Appends the frames of a world.
fn push_frames(
    text: &mut String,
    image: &Image<'_>,
    parts: &Parts,
    world: FrameNo,
) -> Result<(), AllocError>
    ensures { OnOk result (string_bytes text.new ≡ string_bytes text.old ++ frames_in (seen image.now) (world_in parts.now) world) }
{
    'frames: for frame in 0..image.frames() {
        push_if(text, is_of(parts, FrameNo::new(frame), world), frame)?;
    }
    Ok(())
}

/// Whether a core works in a world: in a component whose frame is one of it.
fn works_there(image: &Image<'_>, parts: &Parts, world: FrameNo, core: CoreNo) -> bool
    ensures { result ≡ works_there (seen image.now) (world_in parts.now) world core }
{
    is_of(parts, works_in(image, core), world)
}

/// Whether some core of the machine works in a world.
fn has_core(image: &Image<'_>, parts: &Parts, world: FrameNo) -> bool
    ensures { result ≡ any_below (works_there (seen image.now) (world_in parts.now) world) image.now.shape.cores }
{
    let mut has = false;
    'cores: for core in 0..image.cores() {
        has = either(has, works_there(image, parts, world, CoreNo::new(core)));
    }
    has
}

/// Appends the cores that work in a world, of which there are some.
fn push_those(
    text: &mut String,
    image: &Image<'_>,
    parts: &Parts,
    world: FrameNo,
) -> Result<(), AllocError>
    ensures { OnOk result (string_bytes text.new
        ≡ string_bytes text.old ++ those (works_there (seen image.now) (world_in parts.now) world) image.now.shape.cores) }
{
    'cores: for core in 0..image.cores() {
        push_if(
            text,
            works_there(image, parts, world, CoreNo::new(core)),
            u16::from(core),
        )?;
    }
    Ok(())
}

/// Appends the cores that work in a world.
fn push_cores(
    text: &mut String,
    image: &Image<'_>,
    parts: &Parts,
    world: FrameNo,
) -> Result<(), AllocError>
    ensures { OnOk result (string_bytes text.new ≡ string_bytes text.old ++ core_words (seen image.now) (world_in parts.now) world) }
{
    if has_core(image, parts, world) {
        push_those(text, image, parts, world)
    } else {
        text.push_str(" none")
    }
}

/// Appends a range, if it is of this world.
fn push_range(text: &mut String, world: FrameNo, range: &WorldRange) -> Result<(), AllocError>
    ensures { OnOk result (string_bytes text.new ≡ string_bytes text.old ++ range_words world range.now) }
{
    if range.world.number() == world.number() {
        let first = range.first;
        let count = range.count;
        write!(text, " {first} {count}")
    } else {
        Ok(())
    }
}

/// Appends the ranges of a world, of which there are some.
fn push_ranges(text: &mut String, ranges: &[WorldRange], world: FrameNo) -> Result<(), AllocError>
    ensures { OnOk result (string_bytes text.new ≡ string_bytes text.old ++ flat_map (range_words world) ranges.now) }
{
    'each: for range in ranges {
        push_range(text, world, range)?;
    }
    Ok(())
}

/// Appends the memory of a world.
fn push_memory(
    text: &mut String,
    ranges: &Vec<WorldRange>,
    world: FrameNo,
) -> Result<(), AllocError>
    ensures { OnOk result (string_bytes text.new ≡ string_bytes text.old ++ memory_words ranges.now.items world) }
{
    if has_range(ranges, world) {
        push_ranges(text, ranges, world)
    } else {
        text.push_str(" none")
    }
}

/// Begins the line of a world.
fn push_start(text: &mut String, value: u16) -> Result<(), AllocError>
    ensures { OnOk result (string_bytes text.new ≡ string_bytes text.old ++ (codes "world" ++ (number value ++ codes " frames"))) }
{
    write!(text, "world {value} frames")
}

/// Appends a piece of a line.
fn push_piece(text: &mut String, piece: &'static str) -> Result<(), AllocError>
    ensures { OnOk result (string_bytes text.new ≡ string_bytes text.old ++ piece.now) }
{
    text.push_str(piece)
}

/// Appends the line of the world that begins at a frame.
fn push_told(
    text: &mut String,
    image: &Image<'_>,
    parts: &Parts,
    ranges: &Vec<WorldRange>,
    world: FrameNo,
    index: u16,
) -> Result<(), AllocError>
    requires { index ≡ number_at (seen image.now) (world_in parts.now) ranges.now.items (world_in parts.now world) }
    ensures { OnOk result (string_bytes text.new
        ≡ string_bytes text.old ++ told_line (seen image.now) (world_in parts.now) ranges.now.items world) }
{
    push_start(text, index)?;
    push_frames(text, image, parts, world)?;
    push_piece(text, " cores")?;
    push_cores(text, image, parts, world)?;
    push_piece(text, " memory")?;
    push_memory(text, ranges, world)?;
    push_piece(text, "\n")
}

/// Appends the line of the world that begins at a frame, if one does that has a line.
pub fn push_world(
    text: &mut String,
    image: &Image<'_>,
    table: &WorldTable,
    world: FrameNo,
) -> Result<(), AllocError>
    requires { IsTable (seen image.now) table.now }
    ensures { OnOk result (string_bytes text.new
        ≡ string_bytes text.old ++ world_line (seen image.now) (world_in table.now.parts) table.now.ranges.items world) }
{
    if is_told(image, &table.parts, &table.ranges, world) {
        let index = table.number(world);
        return push_told(text, image, &table.parts, &table.ranges, world, index);
    }
    Ok(())
}

/// Appends the line of a gate.
fn push_words(
    text: &mut String,
    node: FrameNo,
    entry: EntryNo,
    from: u16,
    to: u16,
    frame: FrameNo,
) -> Result<(), AllocError>
    ensures { OnOk result (string_bytes text.new ≡ string_bytes text.old ++ gate_words node entry from to frame) }
{
    write!(
        text,
        "gate {node} {entry} world {from} to {to} frame {frame}\n"
    )
}

/// Appends the line of a gate in a place of a node, if it leads to a component of another world.
fn push_between(
    text: &mut String,
    table: &WorldTable,
    node: FrameNo,
    entry: EntryNo,
    frame: FrameNo,
) -> Result<(), AllocError>
    ensures { OnOk result ((x : _) → IsTable x table.now → string_bytes text.new
        ≡ string_bytes text.old ++ gate_between x (world_in table.now.parts) table.now.ranges.items node entry frame) }
{
    if table.parts.world(node).number() == table.parts.world(frame).number() {
        return Ok(());
    }
    let from = table.number(node);
    let to = table.number(frame);
    push_words(text, node, entry, from, to, frame)
}

/// Appends the line of a capability in a place of a node, if it is a gate to another world.
fn push_cap(
    text: &mut String,
    table: &WorldTable,
    node: FrameNo,
    entry: EntryNo,
    cap: Cap,
) -> Result<(), AllocError>
    ensures { OnOk result ((x : _) → IsTable x table.now → string_bytes text.new
        ≡ string_bytes text.old ++ gate_line x (world_in table.now.parts) table.now.ranges.items node entry (Some cap)) }
{
    match cap.kind() {
        Kind::Gate => push_between(text, table, node, entry, cap.frame()),
        _ => Ok(()),
    }
}

/// Appends the line of a place that holds this, if it is a gate to another world.
pub fn push_gate(
    text: &mut String,
    table: &WorldTable,
    node: FrameNo,
    entry: EntryNo,
    held: Option<Cap>,
) -> Result<(), AllocError>
    ensures { OnOk result ((x : _) → IsTable x table.now → string_bytes text.new
        ≡ string_bytes text.old ++ gate_line x (world_in table.now.parts) table.now.ranges.items node entry held) }
{
    match held {
        None => Ok(()),
        Some(cap) => push_cap(text, table, node, entry, cap),
    }
}
