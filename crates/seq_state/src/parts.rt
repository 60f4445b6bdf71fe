//! The parts of the plain kernel's state, as plain data; a spec function of each gives the part of the definitions.

use crate::stack::Stack;
use kernel_invariant::spk_nums::{Cap, CoreNo, EntryNo, FrameNo, Qualities, Translations};

/// What a place of a node is.
#[derive(Clone, Copy, PartialEq, Eq, Debug)]
pub enum Place {
    /// It holds nothing.
    Free,
    /// It holds this capability, link or page.
    Holds(Cap),
    /// What it held is removed, but calls in progress may still use it.
    Quiescing(Cap),
}

/// What a frame is.
#[derive(Clone, Copy, PartialEq, Eq, Debug)]
pub enum Frame {
    /// It may be retyped.
    Untyped,
    /// It may be mapped.
    User,
    /// It is blank or holds an object of the kernel.
    Kernel(Object),
}

/// What a kernel frame holds; the places of nodes stand apart.
#[derive(Clone, Copy, PartialEq, Eq, Debug)]
pub enum Object {
    /// Nothing yet.
    Blank,
    /// The root of a capability table.
    Table,
    /// A leaf of a capability table.
    Leaf,
    /// The root of a page table.
    Pages,
    /// A leaf of a page table.
    Pleaf,
    /// A component.
    Comp(CompFields),
    /// A thread.
    Thread(ThreadFields),
    /// A temporal capability.
    Tcap(TcapFields),
}

/// A component.
#[derive(Clone, Copy, PartialEq, Eq, Debug)]
pub struct CompFields {
    /// The root of its capability table.
    pub table: FrameNo,
    /// The root of its page table.
    pub pages: FrameNo,
    /// Its liveness number, 0 to 63.
    pub number: u8,
    /// The epoch in which it was made, 1 to 65,535.
    pub epoch: u16,
}

/// A thread.
#[derive(Clone, Copy, PartialEq, Eq, Debug)]
pub struct ThreadFields {
    /// The components that it is in.
    pub stack: Stack,
    /// The core on which it runs, unless it is idle.
    pub runs_on: Option<CoreNo>,
}

/// A temporal capability.
#[derive(Clone, Copy, PartialEq, Eq, Debug)]
pub struct TcapFields {
    /// Its budget, in ticks.
    pub budget: u32,
    /// For each scheduler through which its time came, how good it is there.
    pub qualities: Qualities,
}

/// What a liveness number is.
#[derive(Clone, Copy, PartialEq, Eq, Debug)]
pub enum Liveness {
    /// It was never used.
    Unused,
    /// It is live in an epoch, for the component in a frame.
    Live {
        /// 1 to 65,535.
        epoch: u16,
        /// The component's frame.
        frame: FrameNo,
    },
    /// It is dead after its last epoch.
    Dead {
        /// 1 to 65,535.
        epoch: u16,
    },
}

/// What a core is at.
#[derive(Clone, Copy, PartialEq, Eq, Debug)]
pub struct Core {
    /// Whether it is in a call.
    pub inside: bool,
    /// Its current thread.
    pub thread: FrameNo,
    /// Its current temporal capability.
    pub tcap: FrameNo,
    /// The translations that it has cached.
    pub cached: Translations,
    /// The ticks that it has spent.
    pub spent: u64,
    /// The ticks of these that it has had back.
    pub back: u64,
    /// The ticks that it owes.
    pub owed: u64,
    /// How many of its calls were counted.
    pub counted: u64,
    /// The scheduler and the number with which time was granted to it at boot.
    pub grant: (u8, u32),
}

/// What one core has still to do in the grace period of what was removed.
#[derive(Clone, Copy, PartialEq, Eq, Debug)]
pub struct Pending {
    /// To return from the call in which the removal met it.
    pub waits: bool,
    /// To return from a call that it enters after the removal.
    pub not_passed: bool,
    /// To decide a flush since the removal.
    pub unflushed: bool,
    /// To return from a flush decided after the removal.
    pub flush_unknown: bool,
}

/// What has a grace period.
#[derive(Clone, Copy, PartialEq, Eq, Debug)]
pub enum Thing {
    /// A place of a node.
    PlaceOf {
        /// The node's frame.
        node: FrameNo,
        /// The place in it, 0 to 63.
        index: EntryNo,
    },
    /// A frame.
    FrameOf(FrameNo),
    /// A liveness number, 0 to 63.
    NumberOf(u8),
}
