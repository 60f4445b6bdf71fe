//! The parts of a finished machine, each an export.

ghost use Rattle.std.specs.Prelude.{◌≡◌, Ok};
ghost use Rattle.final_parts.specs.Parts.{size_in, frame_in, count_in, entry_in, under_in, comp_in, stack_in, budget_in, quality_in, live_in, core_in, cached_in};
ghost use Rattle.speck_c.specs.Slots.{held_in};
ghost use Rattle.speck_c.specs.Ends.{final_held};
ghost use Rattle.speck_c.specs.Reads.{Reads, ReadsFrom};

use crate::held::What;
use crate::slot::Slot;
use final_parts::{
    CachedPart, CapPart, CompPart, CorePart, FramePart, LivePart, NoPart, QualityPart, SizePart,
    budget_part, cached_part, comp_part, core_part, count_part, entry_part, frame_part, live_part,
    quality_part, size_part, stack_part, under_part,
};
use std::alloc::Global;

// Writes the part, or answers why there is none.
fn put_part<P: Copy>(part: Result<P, NoPart>, into: &mut P) -> u8
    ensures { Reads part into.old result into.new }
{
    match part {
        Ok(part) => {
            *into = part;
            0
        }
        Err(why) => why.code(),
    }
}

/// Reads how many frames and cores the machine has.
#[unsafe(no_mangle)]
pub extern "C" fn speck_inner_read_size(alloc: Global, last: &mut Slot, into: &mut SizePart) -> u8
    ensures kept { held_in last.new ≡ held_in last.old }
    ensures reads { ReadsFrom (final_held (held_in last.old)) (λ i. Ok (size_in i)) into.old result into.new }
{
    let Some(held) = last.take(alloc) else {
        return 254;
    };
    let answer = match &held.what {
        What::Final(machine) => put_part(Ok(size_part(&machine.image())), into),
        _ => 254,
    };
    last.put(held);
    answer
}

/// Reads what a frame is.
#[unsafe(no_mangle)]
pub extern "C" fn speck_inner_read_frame(
    alloc: Global,
    last: &mut Slot,
    frame: u16,
    into: &mut FramePart,
) -> u8
    ensures kept { held_in last.new ≡ held_in last.old }
    ensures reads { ReadsFrom (final_held (held_in last.old)) (λ i. frame_in i frame) into.old result into.new }
{
    let Some(held) = last.take(alloc) else {
        return 254;
    };
    let answer = match &held.what {
        What::Final(machine) => put_part(frame_part(&machine.image(), frame), into),
        _ => 254,
    };
    last.put(held);
    answer
}

/// Reads what a core counts of the references to a frame.
#[unsafe(no_mangle)]
pub extern "C" fn speck_inner_read_count(
    alloc: Global,
    last: &mut Slot,
    frame: u16,
    core: u8,
    into: &mut i32,
) -> u8
    ensures kept { held_in last.new ≡ held_in last.old }
    ensures reads { ReadsFrom (final_held (held_in last.old)) (λ i. count_in i frame core) into.old result into.new }
{
    let Some(held) = last.take(alloc) else {
        return 254;
    };
    let answer = match &held.what {
        What::Final(machine) => put_part(count_part(&machine.image(), frame, core), into),
        _ => 254,
    };
    last.put(held);
    answer
}

/// Reads the capability or the mapping that an entry of a node holds.
#[unsafe(no_mangle)]
pub extern "C" fn speck_inner_read_entry(
    alloc: Global,
    last: &mut Slot,
    frame: u16,
    entry: u16,
    into: &mut CapPart,
) -> u8
    ensures kept { held_in last.new ≡ held_in last.old }
    ensures reads { ReadsFrom (final_held (held_in last.old)) (λ i. entry_in i frame entry) into.old result into.new }
{
    let Some(held) = last.take(alloc) else {
        return 254;
    };
    let answer = match &held.what {
        What::Final(machine) => put_part(entry_part(&machine.image(), frame, entry), into),
        _ => 254,
    };
    last.put(held);
    answer
}

/// Reads the capability or the mapping under a number of the table whose root is in this frame.
#[unsafe(no_mangle)]
pub extern "C" fn speck_inner_read_under(
    alloc: Global,
    last: &mut Slot,
    root: u16,
    number: u16,
    into: &mut CapPart,
) -> u8
    ensures kept { held_in last.new ≡ held_in last.old }
    ensures reads { ReadsFrom (final_held (held_in last.old)) (λ i. under_in i root number) into.old result into.new }
{
    let Some(held) = last.take(alloc) else {
        return 254;
    };
    let answer = match &held.what {
        What::Final(machine) => put_part(under_part(&machine.image(), root, number), into),
        _ => 254,
    };
    last.put(held);
    answer
}

/// Reads the component in a frame.
#[unsafe(no_mangle)]
pub extern "C" fn speck_inner_read_comp(
    alloc: Global,
    last: &mut Slot,
    frame: u16,
    into: &mut CompPart,
) -> u8
    ensures kept { held_in last.new ≡ held_in last.old }
    ensures reads { ReadsFrom (final_held (held_in last.old)) (λ i. comp_in i frame) into.old result into.new }
{
    let Some(held) = last.take(alloc) else {
        return 254;
    };
    let answer = match &held.what {
        What::Final(machine) => put_part(comp_part(&machine.image(), frame), into),
        _ => 254,
    };
    last.put(held);
    answer
}

/// Reads the frame of the component at a height of the stack of the thread in a frame.
#[unsafe(no_mangle)]
pub extern "C" fn speck_inner_read_stack(
    alloc: Global,
    last: &mut Slot,
    frame: u16,
    height: u16,
    into: &mut u16,
) -> u8
    ensures kept { held_in last.new ≡ held_in last.old }
    ensures reads { ReadsFrom (final_held (held_in last.old)) (λ i. stack_in i frame height) into.old result into.new }
{
    let Some(held) = last.take(alloc) else {
        return 254;
    };
    let answer = match &held.what {
        What::Final(machine) => put_part(stack_part(&machine.image(), frame, height), into),
        _ => 254,
    };
    last.put(held);
    answer
}

/// Reads the ticks of the temporal capability in a frame.
#[unsafe(no_mangle)]
pub extern "C" fn speck_inner_read_budget(
    alloc: Global,
    last: &mut Slot,
    frame: u16,
    into: &mut u32,
) -> u8
    ensures kept { held_in last.new ≡ held_in last.old }
    ensures reads { ReadsFrom (final_held (held_in last.old)) (λ i. budget_in i frame) into.old result into.new }
{
    let Some(held) = last.take(alloc) else {
        return 254;
    };
    let answer = match &held.what {
        What::Final(machine) => put_part(budget_part(&machine.image(), frame), into),
        _ => 254,
    };
    last.put(held);
    answer
}

/// Reads the scheduler and the quality at a place of its list.
#[unsafe(no_mangle)]
pub extern "C" fn speck_inner_read_quality(
    alloc: Global,
    last: &mut Slot,
    frame: u16,
    place: u16,
    into: &mut QualityPart,
) -> u8
    ensures kept { held_in last.new ≡ held_in last.old }
    ensures reads { ReadsFrom (final_held (held_in last.old)) (λ i. quality_in i frame place) into.old result into.new }
{
    let Some(held) = last.take(alloc) else {
        return 254;
    };
    let answer = match &held.what {
        What::Final(machine) => put_part(quality_part(&machine.image(), frame, place), into),
        _ => 254,
    };
    last.put(held);
    answer
}

/// Reads what a liveness number stands for.
#[unsafe(no_mangle)]
pub extern "C" fn speck_inner_read_live(
    alloc: Global,
    last: &mut Slot,
    number: u8,
    into: &mut LivePart,
) -> u8
    ensures kept { held_in last.new ≡ held_in last.old }
    ensures reads { ReadsFrom (final_held (held_in last.old)) (λ i. live_in i number) into.old result into.new }
{
    let Some(held) = last.take(alloc) else {
        return 254;
    };
    let answer = match &held.what {
        What::Final(machine) => put_part(live_part(&machine.image(), number), into),
        _ => 254,
    };
    last.put(held);
    answer
}

/// Reads where a core ended.
#[unsafe(no_mangle)]
pub extern "C" fn speck_inner_read_core(
    alloc: Global,
    last: &mut Slot,
    core: u8,
    into: &mut CorePart,
) -> u8
    ensures kept { held_in last.new ≡ held_in last.old }
    ensures reads { ReadsFrom (final_held (held_in last.old)) (λ i. core_in i core) into.old result into.new }
{
    let Some(held) = last.take(alloc) else {
        return 254;
    };
    let answer = match &held.what {
        What::Final(machine) => put_part(core_part(&machine.image(), core), into),
        _ => 254,
    };
    last.put(held);
    answer
}

/// Reads a translation that a core has cached.
#[unsafe(no_mangle)]
pub extern "C" fn speck_inner_read_cached(
    alloc: Global,
    last: &mut Slot,
    core: u8,
    place: u8,
    into: &mut CachedPart,
) -> u8
    ensures kept { held_in last.new ≡ held_in last.old }
    ensures reads { ReadsFrom (final_held (held_in last.old)) (λ i. cached_in i core place) into.old result into.new }
{
    let Some(held) = last.take(alloc) else {
        return 254;
    };
    let answer = match &held.what {
        What::Final(machine) => put_part(cached_part(&machine.image(), core, place), into),
        _ => 254,
    };
    last.put(held);
    answer
}
