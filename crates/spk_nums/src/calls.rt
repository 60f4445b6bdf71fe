//! What a core may ask of the kernel.

use crate::kinds::{FrameKind, PageFlags};
use crate::numbers::{CapId, EntryNo, FrameArg, PageNo};
use crate::rights::Rights;

/// The object that a `make` puts into a blank frame.
#[derive(Clone, Copy, PartialEq, Eq, Debug)]
pub enum Make {
    /// The root of a capability table.
    Table,
    /// A leaf of a capability table.
    Leaf,
    /// The root of a page table.
    Pages,
    /// A leaf of a page table.
    Pleaf,
    /// A thread whose stack holds the component `comp`.
    Thread {
        comp: CapId,
    },
    /// A temporal capability without budget, with the list of the one pair (`sched`, `quality`).
    Tcap {
        sched: u8,
        quality: u32,
    },
    /// A component with a table, pages and the liveness number `live`.
    Comp {
        table: CapId,
        pages: CapId,
        live: u8,
    },
}

/// A call of a core. Capability numbers are looked up in the caller's own table.
#[derive(Clone, Copy, PartialEq, Eq, Debug)]
pub enum Call {
    /// Answers the capability `a`.
    Look {
        a: CapId,
    },
    /// Puts the capability `a`, with those of its rights that are in `rights`, into the entry `b` of the table `t`.
    Copy {
        a: CapId,
        t: CapId,
        b: CapId,
        rights: Rights,
    },
    /// Removes the entry `b` of the table `t`.
    Remove {
        t: CapId,
        b: CapId,
    },
    /// Links the leaf `l` into the root entry `i` of `t`.
    Grow {
        t: CapId,
        i: EntryNo,
        l: CapId,
    },
    /// Removes the link in the root entry `i` of `t`.
    Shrink {
        t: CapId,
        i: EntryNo,
    },
    /// Makes the frame `f` of the range `r` one of the kind `k`.
    Retype {
        r: CapId,
        f: FrameArg,
        k: FrameKind,
    },
    /// Puts an object into the blank frame `frame` of `range`, and its capability into the entry `slot` of `table`.
    Make {
        what: Make,
        range: CapId,
        frame: FrameArg,
        table: CapId,
        slot: CapId,
    },
    /// Maps the user frame `f` of the range `r` at the page `v` of `p`, with the flags `w`.
    Map {
        p: CapId,
        v: PageNo,
        r: CapId,
        f: FrameArg,
        w: PageFlags,
    },
    /// Removes the mapping of the page `v` of `p`.
    Unmap {
        p: CapId,
        v: PageNo,
    },
    /// Answers the frame and flags of the page `v` of the caller's component.
    Touch {
        v: PageNo,
    },
    /// Empties the core's translations.
    Flush,
    /// Puts a gate to the component `c` into the entry `b` of the table `t`.
    Gate {
        c: CapId,
        t: CapId,
        b: CapId,
    },
    /// Ends the life of the component `c`.
    Kill {
        c: CapId,
    },
    /// Enters the component behind the gate `g`.
    Call {
        g: CapId,
    },
    /// Leaves the component.
    Ret,
    /// Goes on as the thread `h` with the temporal capability `q`.
    Switch {
        h: CapId,
        q: CapId,
    },
    /// Charges `n` ticks.
    Tick {
        n: u32,
    },
    /// Moves `m` ticks from `a` to `b`, whose lists are equal.
    Transfer {
        a: CapId,
        b: CapId,
        m: u32,
    },
    /// Moves `m` ticks from `a` to `b`, and gives `b` the merged list.
    Delegate {
        a: CapId,
        b: CapId,
        m: u32,
    },
    /// Answers whether `a` preempts `b`.
    Test {
        a: CapId,
        b: CapId,
    },
    /// Puts the range of the `n` frames from `f` on, which lies within the range `r`, into the entry `b` of the table `t`.
    Part {
        r: CapId,
        f: FrameArg,
        n: u16,
        t: CapId,
        b: CapId,
    },
    /// Gives back to `a` so many ticks of those that the core has spent, where `a`'s list is no better than the core's grant.
    Replenish {
        a: CapId,
        m: u32,
    },
}
