//! What the kernel answers.

use crate::cap::Cap;
use crate::kinds::PageFlags;
use crate::numbers::{CoreNo, FrameNo};

/// What a call that was carried out answers.
#[derive(Clone, Copy, PartialEq, Eq, Debug)]
pub enum Value {
    /// Nothing beyond that it was carried out.
    Nothing,
    /// The capability looked at.
    Cap(Cap),
    /// The frame of the touched page, and how it may be used.
    Page { frame: FrameNo, flags: PageFlags },
    /// The ticks charged.
    Amount(u32),
    /// The one temporal capability preempts the other.
    Preempts,
    /// It does not.
    Stays,
}

/// The reply to a call.
#[derive(Clone, Copy, PartialEq, Eq, Debug)]
pub enum Reply {
    /// The call was carried out.
    Ok(Value),
    /// The number names no slot.
    NoSlot,
    /// The slot or page holds nothing.
    Empty,
    /// The capability is of another kind.
    WrongCap,
    /// The target holds something, or the liveness number is live.
    Occupied,
    /// This core may still be in the call that it was in at a removal.
    Quiescing(CoreNo),
    /// This core has not flushed since an unmapping.
    Unflushed(CoreNo),
    /// The frame is not of the kind that the call needs, or holds an object.
    FrameKind,
    /// The frame is not in the range.
    OutOfRange,
    /// So many references to the frame stand.
    Referenced(u32),
    /// The object is not empty.
    NotEmpty,
    /// The component is not alive.
    Dead,
    /// The thread's stack is full.
    Deep,
    /// The thread is in its bottom component.
    Bottom,
    /// The thread runs on this core.
    Running(CoreNo),
    /// The temporal capability has only this budget.
    Short(u32),
    /// The two lists of qualities differ.
    Unlike,
    /// The merged list would name more than 8 schedulers.
    TooMany,
    /// Both names lead to one object.
    Same,
    /// The liveness number has no epoch left.
    EpochsSpent,
    /// Another core changed a word between two looks of this call at it.
    Raced,
    /// A word carries the mark of a call in progress on this core.
    Busy(CoreNo),
    /// The page is not mapped.
    Fault,
    /// The core has made as many calls as it may.
    CallsSpent,
    /// The capability is of the kind that the call needs, but lacks the right that its name needs.
    NoRight,
}

/// A call that has been decided: its core, its index among the core's calls, from 1, and its reply.
#[derive(Clone, Copy, PartialEq, Eq, Debug)]
pub struct Decision {
    /// The core that made the call.
    pub core: CoreNo,
    /// The call's index among those of the core, from 1.
    pub index: u32,
    /// The reply decided.
    pub reply: Reply,
}
