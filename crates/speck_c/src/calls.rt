//! The calls, each an export with flat arguments.

ghost use Rattle.std.specs.Prelude.{◌≡◌, ◌<◌};
ghost use Rattle.spk_nums.specs.CallLimits.{InLimits};
ghost use Rattle.speck_c.specs.Kinds.{frame_kinds, IsKindCalled};
ghost use Rattle.speck_c.specs.Slots.{IsCalled, IsOutside, held_in};

use crate::making::{make_call, try_call};
use crate::reply::{SpeckReply, blank_reply};
use crate::slot::Slot;
use spk_nums::{Call, CapId, EntryNo, FrameArg, FrameKind, PageFlags, PageNo, Rights};
use std::alloc::Global;

/// Answers the capability of this number, by the port's core.
#[unsafe(no_mangle)]
pub extern "C" fn speck_inner_look(alloc: Global, port: &mut Slot, capability: u16) -> SpeckReply
    ensures { IsCalled (held_in port.old) (Call.Look capability) result (held_in port.new) }
{
    make_call(
        alloc,
        port,
        Call::Look {
            a: CapId::new(capability),
        },
    )
}

/// Puts the capability into the entry `slot` of `table`, with those of its rights that are among `rights`, 0 to 3: bit 0 to copy it, bit 1 to
/// use it. By the port's core.
#[unsafe(no_mangle)]
pub extern "C" fn speck_inner_copy(
    alloc: Global,
    port: &mut Slot,
    capability: u16,
    table: u16,
    slot: u16,
    rights: u8,
) -> SpeckReply
    ensures called { rights < 4
        → IsCalled (held_in port.old) (Call.Copy capability table slot (record { 0 = rights })) result (held_in port.new) }
    ensures outside { ¬ rights < 4 → IsOutside (held_in port.old) result (held_in port.new) }
{
    try_call(
        alloc,
        port,
        Call::Copy {
            a: CapId::new(capability),
            t: CapId::new(table),
            b: CapId::new(slot),
            rights: Rights::of_bits(rights),
        },
    )
}

/// Puts the range of the `count` frames from `frame` on, which are within `range`, into the entry `slot` of `table`, by the port's core.
#[unsafe(no_mangle)]
pub extern "C" fn speck_inner_part(
    alloc: Global,
    port: &mut Slot,
    range: u16,
    frame: u16,
    count: u16,
    table: u16,
    slot: u16,
) -> SpeckReply
    ensures { IsCalled (held_in port.old) (Call.Part range frame count table slot) result (held_in port.new) }
{
    make_call(
        alloc,
        port,
        Call::Part {
            r: CapId::new(range),
            f: FrameArg::new(frame),
            n: count,
            t: CapId::new(table),
            b: CapId::new(slot),
        },
    )
}

/// Removes the entry `slot` of `table`, by the port's core.
#[unsafe(no_mangle)]
pub extern "C" fn speck_inner_remove(
    alloc: Global,
    port: &mut Slot,
    table: u16,
    slot: u16,
) -> SpeckReply
    ensures { IsCalled (held_in port.old) (Call.Remove table slot) result (held_in port.new) }
{
    make_call(
        alloc,
        port,
        Call::Remove {
            t: CapId::new(table),
            b: CapId::new(slot),
        },
    )
}

/// Links `leaf` into the entry `entry` of `root`, by the port's core.
#[unsafe(no_mangle)]
pub extern "C" fn speck_inner_grow(
    alloc: Global,
    port: &mut Slot,
    root: u16,
    entry: u16,
    leaf: u16,
) -> SpeckReply
    ensures { IsCalled (held_in port.old) (Call.Grow root entry leaf) result (held_in port.new) }
{
    make_call(
        alloc,
        port,
        Call::Grow {
            t: CapId::new(root),
            i: EntryNo::new(entry),
            l: CapId::new(leaf),
        },
    )
}

/// Removes the link in the entry `entry` of `root`, by the port's core.
#[unsafe(no_mangle)]
pub extern "C" fn speck_inner_shrink(
    alloc: Global,
    port: &mut Slot,
    root: u16,
    entry: u16,
) -> SpeckReply
    ensures { IsCalled (held_in port.old) (Call.Shrink root entry) result (held_in port.new) }
{
    make_call(
        alloc,
        port,
        Call::Shrink {
            t: CapId::new(root),
            i: EntryNo::new(entry),
        },
    )
}

/// Removes the mapping of `page` in `pages`, by the port's core.
#[unsafe(no_mangle)]
pub extern "C" fn speck_inner_unmap(
    alloc: Global,
    port: &mut Slot,
    pages: u16,
    page: u16,
) -> SpeckReply
    ensures { IsCalled (held_in port.old) (Call.Unmap pages page) result (held_in port.new) }
{
    make_call(
        alloc,
        port,
        Call::Unmap {
            p: CapId::new(pages),
            v: PageNo::new(page),
        },
    )
}

/// Answers the frame and flags of `page` of the caller's component, by the port's core.
#[unsafe(no_mangle)]
pub extern "C" fn speck_inner_touch(alloc: Global, port: &mut Slot, page: u16) -> SpeckReply
    ensures { IsCalled (held_in port.old) (Call.Touch page) result (held_in port.new) }
{
    make_call(
        alloc,
        port,
        Call::Touch {
            v: PageNo::new(page),
        },
    )
}

/// Empties the core's translations, by the port's core.
#[unsafe(no_mangle)]
pub extern "C" fn speck_inner_flush(alloc: Global, port: &mut Slot) -> SpeckReply
    ensures { IsCalled (held_in port.old) Call.Flush result (held_in port.new) }
{
    make_call(alloc, port, Call::Flush)
}

/// Puts a gate to the component `comp` into the entry `slot` of `table`, by the port's core.
#[unsafe(no_mangle)]
pub extern "C" fn speck_inner_gate(
    alloc: Global,
    port: &mut Slot,
    comp: u16,
    table: u16,
    slot: u16,
) -> SpeckReply
    ensures { IsCalled (held_in port.old) (Call.Gate comp table slot) result (held_in port.new) }
{
    make_call(
        alloc,
        port,
        Call::Gate {
            c: CapId::new(comp),
            t: CapId::new(table),
            b: CapId::new(slot),
        },
    )
}

/// Ends the life of the component `comp`, by the port's core.
#[unsafe(no_mangle)]
pub extern "C" fn speck_inner_kill(alloc: Global, port: &mut Slot, comp: u16) -> SpeckReply
    ensures { IsCalled (held_in port.old) (Call.Kill comp) result (held_in port.new) }
{
    make_call(
        alloc,
        port,
        Call::Kill {
            c: CapId::new(comp),
        },
    )
}

/// Enters the component behind `gate`, by the port's core.
#[unsafe(no_mangle)]
pub extern "C" fn speck_inner_call(alloc: Global, port: &mut Slot, gate: u16) -> SpeckReply
    ensures { IsCalled (held_in port.old) (Call.Call gate) result (held_in port.new) }
{
    make_call(
        alloc,
        port,
        Call::Call {
            g: CapId::new(gate),
        },
    )
}

/// Leaves the component, by the port's core.
#[unsafe(no_mangle)]
pub extern "C" fn speck_inner_ret(alloc: Global, port: &mut Slot) -> SpeckReply
    ensures { IsCalled (held_in port.old) Call.Ret result (held_in port.new) }
{
    make_call(alloc, port, Call::Ret)
}

/// Goes on as `thread` with the temporal capability `tcap`, by the port's core.
#[unsafe(no_mangle)]
pub extern "C" fn speck_inner_switch(
    alloc: Global,
    port: &mut Slot,
    thread: u16,
    tcap: u16,
) -> SpeckReply
    ensures { IsCalled (held_in port.old) (Call.Switch thread tcap) result (held_in port.new) }
{
    make_call(
        alloc,
        port,
        Call::Switch {
            h: CapId::new(thread),
            q: CapId::new(tcap),
        },
    )
}

/// Moves so many ticks from `source` to `target`, whose lists are equal, by the port's core.
#[unsafe(no_mangle)]
pub extern "C" fn speck_inner_transfer(
    alloc: Global,
    port: &mut Slot,
    source: u16,
    target: u16,
    ticks: u32,
) -> SpeckReply
    ensures { IsCalled (held_in port.old) (Call.Transfer source target ticks) result (held_in port.new) }
{
    make_call(
        alloc,
        port,
        Call::Transfer {
            a: CapId::new(source),
            b: CapId::new(target),
            m: ticks,
        },
    )
}

/// Moves so many ticks from `source` to `target`, and gives `target` the merged list, by the port's core.
#[unsafe(no_mangle)]
pub extern "C" fn speck_inner_delegate(
    alloc: Global,
    port: &mut Slot,
    source: u16,
    target: u16,
    ticks: u32,
) -> SpeckReply
    ensures { IsCalled (held_in port.old) (Call.Delegate source target ticks) result (held_in port.new) }
{
    make_call(
        alloc,
        port,
        Call::Delegate {
            a: CapId::new(source),
            b: CapId::new(target),
            m: ticks,
        },
    )
}

/// Answers whether `first` preempts `second`, by the port's core.
#[unsafe(no_mangle)]
pub extern "C" fn speck_inner_test(
    alloc: Global,
    port: &mut Slot,
    first: u16,
    second: u16,
) -> SpeckReply
    ensures { IsCalled (held_in port.old) (Call.Test first second) result (held_in port.new) }
{
    make_call(
        alloc,
        port,
        Call::Test {
            a: CapId::new(first),
            b: CapId::new(second),
        },
    )
}

/// Gives back to `tcap` so many of the ticks that the port's core has spent and has not had back, by that core.
#[unsafe(no_mangle)]
pub extern "C" fn speck_inner_replenish(
    alloc: Global,
    port: &mut Slot,
    tcap: u16,
    ticks: u32,
) -> SpeckReply
    ensures { IsCalled (held_in port.old) (Call.Replenish tcap ticks) result (held_in port.new) }
{
    make_call(
        alloc,
        port,
        Call::Replenish {
            a: CapId::new(tcap),
            m: ticks,
        },
    )
}

/// Charges so many ticks, at most 1,000,000, by the port's core.
#[unsafe(no_mangle)]
pub extern "C" fn speck_inner_tick(alloc: Global, port: &mut Slot, ticks: u32) -> SpeckReply
    ensures called { InLimits (Call.Tick ticks) → IsCalled (held_in port.old) (Call.Tick ticks) result (held_in port.new) }
    ensures outside { ¬ InLimits (Call.Tick ticks) → IsOutside (held_in port.old) result (held_in port.new) }
{
    try_call(alloc, port, Call::Tick { n: ticks })
}

/// Maps the user frame `frame` of `range` at `page` of `pages`, with the flags, 0 to 3, by the port's core.
#[unsafe(no_mangle)]
pub extern "C" fn speck_inner_map(
    alloc: Global,
    port: &mut Slot,
    pages: u16,
    page: u16,
    range: u16,
    frame: u16,
    flags: u8,
) -> SpeckReply
    ensures called { flags < 4
        → IsCalled (held_in port.old) (Call.Map pages page range frame (record { 0 = flags })) result (held_in port.new) }
    ensures outside { ¬ flags < 4 → IsOutside (held_in port.old) result (held_in port.new) }
{
    try_call(
        alloc,
        port,
        Call::Map {
            p: CapId::new(pages),
            v: PageNo::new(page),
            r: CapId::new(range),
            f: FrameArg::new(frame),
            w: PageFlags::of_bits(flags),
        },
    )
}

// The kind of frame of this number.
fn kind_of(k: u8) -> Option<FrameKind>
    ensures { result ≡ frame_kinds k }
{
    if k == 0 {
        Some(FrameKind::Untyped)
    } else if k == 1 {
        Some(FrameKind::User)
    } else if k == 2 {
        Some(FrameKind::Kernel)
    } else {
        None
    }
}

/// Makes the frame `frame` of `range` one of this kind: 0 untyped, 1 user, 2 kernel. By the port's core.
#[unsafe(no_mangle)]
pub extern "C" fn speck_inner_retype(
    alloc: Global,
    port: &mut Slot,
    range: u16,
    frame: u16,
    kind: u8,
) -> SpeckReply
    ensures { IsKindCalled (held_in port.old) range frame (frame_kinds kind) result (held_in port.new) }
{
    match kind_of(kind) {
        Some(k) => make_call(
            alloc,
            port,
            Call::Retype {
                r: CapId::new(range),
                f: FrameArg::new(frame),
                k,
            },
        ),
        None => blank_reply(255),
    }
}
