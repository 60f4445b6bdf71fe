//! The making of objects, an export for each kind of object.

ghost use Rattle.std.specs.Prelude.{◌≡◌};
ghost use Rattle.spk_nums.specs.CallLimits.{InLimits};
ghost use Rattle.speck_c.specs.Slots.{IsCalled, IsOutside, held_in};

use crate::making::{make_call, try_call};
use crate::reply::SpeckReply;
use crate::slot::Slot;
use spk_nums::{Call, CapId, FrameArg, Make};
use std::alloc::Global;

/// Makes the root of a capability table. It goes into the blank frame `frame`
/// of `range`, and its capability into the entry `slot` of `table`.
#[unsafe(no_mangle)]
pub extern "C" fn speck_inner_make_table(
    alloc: Global,
    port: &mut Slot,
    range: u16,
    frame: u16,
    table: u16,
    slot: u16,
) -> SpeckReply
    ensures { IsCalled (held_in port.old) (Call.Make Make.Table range frame table slot) result (held_in port.new) }
{
    make_call(
        alloc,
        port,
        Call::Make {
            what: Make::Table,
            range: CapId::new(range),
            frame: FrameArg::new(frame),
            table: CapId::new(table),
            slot: CapId::new(slot),
        },
    )
}

/// Makes a leaf of a capability table. It goes into the blank frame `frame`
/// of `range`, and its capability into the entry `slot` of `table`.
#[unsafe(no_mangle)]
pub extern "C" fn speck_inner_make_leaf(
    alloc: Global,
    port: &mut Slot,
    range: u16,
    frame: u16,
    table: u16,
    slot: u16,
) -> SpeckReply
    ensures { IsCalled (held_in port.old) (Call.Make Make.Leaf range frame table slot) result (held_in port.new) }
{
    make_call(
        alloc,
        port,
        Call::Make {
            what: Make::Leaf,
            range: CapId::new(range),
            frame: FrameArg::new(frame),
            table: CapId::new(table),
            slot: CapId::new(slot),
        },
    )
}

/// Makes the root of a page table. It goes into the blank frame `frame`
/// of `range`, and its capability into the entry `slot` of `table`.
#[unsafe(no_mangle)]
pub extern "C" fn speck_inner_make_pages(
    alloc: Global,
    port: &mut Slot,
    range: u16,
    frame: u16,
    table: u16,
    slot: u16,
) -> SpeckReply
    ensures { IsCalled (held_in port.old) (Call.Make Make.Pages range frame table slot) result (held_in port.new) }
{
    make_call(
        alloc,
        port,
        Call::Make {
            what: Make::Pages,
            range: CapId::new(range),
            frame: FrameArg::new(frame),
            table: CapId::new(table),
            slot: CapId::new(slot),
        },
    )
}

/// Makes a leaf of a page table. It goes into the blank frame `frame`
/// of `range`, and its capability into the entry `slot` of `table`.
#[unsafe(no_mangle)]
pub extern "C" fn speck_inner_make_pleaf(
    alloc: Global,
    port: &mut Slot,
    range: u16,
    frame: u16,
    table: u16,
    slot: u16,
) -> SpeckReply
    ensures { IsCalled (held_in port.old) (Call.Make Make.Pleaf range frame table slot) result (held_in port.new) }
{
    make_call(
        alloc,
        port,
        Call::Make {
            what: Make::Pleaf,
            range: CapId::new(range),
            frame: FrameArg::new(frame),
            table: CapId::new(table),
            slot: CapId::new(slot),
        },
    )
}

/// Makes a thread whose stack holds the component `comp`. It goes into the blank frame `frame`
/// of `range`, and its capability into the entry `slot` of `table`.
#[unsafe(no_mangle)]
pub extern "C" fn speck_inner_make_thread(
    alloc: Global,
    port: &mut Slot,
    comp: u16,
    range: u16,
    frame: u16,
    table: u16,
    slot: u16,
) -> SpeckReply
    ensures { IsCalled (held_in port.old) (Call.Make (Make.Thread comp) range frame table slot) result (held_in port.new) }
{
    make_call(
        alloc,
        port,
        Call::Make {
            what: Make::Thread {
                comp: CapId::new(comp),
            },
            range: CapId::new(range),
            frame: FrameArg::new(frame),
            table: CapId::new(table),
            slot: CapId::new(slot),
        },
    )
}

/// Makes a temporal capability without budget, with the list of the one pair `sched`, 0 to 63, and `quality`, 1 to 16,777,215. It goes
/// into the blank frame `frame` of `range`, and its capability into the entry `slot` of `table`.
#[unsafe(no_mangle)]
pub extern "C" fn speck_inner_make_tcap(
    alloc: Global,
    port: &mut Slot,
    sched: u8,
    quality: u32,
    range: u16,
    frame: u16,
    table: u16,
    slot: u16,
) -> SpeckReply
    ensures called { InLimits (Call.Make (Make.Tcap sched quality) range frame table slot)
        → IsCalled (held_in port.old) (Call.Make (Make.Tcap sched quality) range frame table slot) result (held_in port.new) }
    ensures outside { ¬ InLimits (Call.Make (Make.Tcap sched quality) range frame table slot)
        → IsOutside (held_in port.old) result (held_in port.new) }
{
    try_call(
        alloc,
        port,
        Call::Make {
            what: Make::Tcap { sched, quality },
            range: CapId::new(range),
            frame: FrameArg::new(frame),
            table: CapId::new(table),
            slot: CapId::new(slot),
        },
    )
}

/// Makes a component with the table `names`, the pages `pages` and the liveness number `live`, 0 to 63. It goes into the blank
/// frame `frame` of `range`, and its capability into the entry `slot` of `table`.
#[unsafe(no_mangle)]
pub extern "C" fn speck_inner_make_comp(
    alloc: Global,
    port: &mut Slot,
    names: u16,
    pages: u16,
    live: u8,
    range: u16,
    frame: u16,
    table: u16,
    slot: u16,
) -> SpeckReply
    ensures called { InLimits (Call.Make (Make.Comp names pages live) range frame table slot)
        → IsCalled (held_in port.old) (Call.Make (Make.Comp names pages live) range frame table slot) result (held_in port.new) }
    ensures outside { ¬ InLimits (Call.Make (Make.Comp names pages live) range frame table slot)
        → IsOutside (held_in port.old) result (held_in port.new) }
{
    try_call(
        alloc,
        port,
        Call::Make {
            what: Make::Comp {
                table: CapId::new(names),
                pages: CapId::new(pages),
                live,
            },
            range: CapId::new(range),
            frame: FrameArg::new(frame),
            table: CapId::new(table),
            slot: CapId::new(slot),
        },
    )
}
