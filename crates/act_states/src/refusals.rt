//! Why a call is not carried out: the replies but `ok`.

ghost use Rattle.std.specs.Prelude.{◌≡◌};
ghost use Rattle.act_states.specs.Refusals.{reply_of, refusal_of};

use spk_nums::{CoreNo, Reply};

/// The refusal of a call. That it has no `ok` says that a step which may only refuse carries nothing out.
#[derive(Clone, Copy, PartialEq, Eq, Debug)]
pub enum Refusal {
    /// The number names no slot.
    NoSlot,
    /// The slot or page holds nothing.
    Empty,
    /// The capability is of another kind.
    WrongCap,
    /// The target holds something, or the liveness number is live.
    Occupied,
    /// This core may still be in the call that it was in at a removal.
    Quiescing(CoreNo),
    /// This core has not flushed since an unmapping.
    Unflushed(CoreNo),
    /// The frame is not of the kind that the call needs, or holds an object.
    FrameKind,
    /// The frame is not in the range.
    OutOfRange,
    /// So many references to the frame stand.
    Referenced(u32),
    /// The object is not empty.
    NotEmpty,
    /// The component is not alive.
    Dead,
    /// The thread's stack is full.
    Deep,
    /// The thread is in its bottom component.
    Bottom,
    /// The thread runs on this core.
    Running(CoreNo),
    /// The temporal capability has only this budget.
    Short(u32),
    /// The two lists of qualities differ.
    Unlike,
    /// The merged list would name more than 8 schedulers.
    TooMany,
    /// Both names lead to one object.
    Same,
    /// The liveness number has no epoch left.
    EpochsSpent,
    /// Another core changed a word between two looks of this call at it.
    Raced,
    /// A word carries the mark of a call in progress on this core.
    Busy(CoreNo),
    /// The page is not mapped.
    Fault,
    /// The core has made as many calls as it may.
    CallsSpent,
    /// The capability lacks the right that its name needs.
    NoRight,
}

impl Refusal {
    /// The reply that says this refusal.
    #[inline]
    pub fn reply(&self) -> Reply
        ensures { result ≡ reply_of self.now }
    {
        match *self {
            Refusal::NoSlot => Reply::NoSlot,
            Refusal::Empty => Reply::Empty,
            Refusal::WrongCap => Reply::WrongCap,
            Refusal::Occupied => Reply::Occupied,
            Refusal::Quiescing(core) => Reply::Quiescing(core),
            Refusal::Unflushed(core) => Reply::Unflushed(core),
            Refusal::FrameKind => Reply::FrameKind,
            Refusal::OutOfRange => Reply::OutOfRange,
            Refusal::Referenced(n) => Reply::Referenced(n),
            Refusal::NotEmpty => Reply::NotEmpty,
            Refusal::Dead => Reply::Dead,
            Refusal::Deep => Reply::Deep,
            Refusal::Bottom => Reply::Bottom,
            Refusal::Running(core) => Reply::Running(core),
            Refusal::Short(n) => Reply::Short(n),
            Refusal::Unlike => Reply::Unlike,
            Refusal::TooMany => Reply::TooMany,
            Refusal::Same => Reply::Same,
            Refusal::EpochsSpent => Reply::EpochsSpent,
            Refusal::Raced => Reply::Raced,
            Refusal::Busy(core) => Reply::Busy(core),
            Refusal::Fault => Reply::Fault,
            Refusal::CallsSpent => Reply::CallsSpent,
            Refusal::NoRight => Reply::NoRight,
        }
    }

    /// The refusal that a reply says; of `ok`, which is none, `raced`.
    #[inline]
    pub fn of(reply: &Reply) -> Refusal
        ensures { result ≡ refusal_of reply.now }
    {
        match *reply {
            Reply::Ok(_) => Refusal::Raced,
            Reply::NoSlot => Refusal::NoSlot,
            Reply::Empty => Refusal::Empty,
            Reply::WrongCap => Refusal::WrongCap,
            Reply::Occupied => Refusal::Occupied,
            Reply::Quiescing(core) => Refusal::Quiescing(core),
            Reply::Unflushed(core) => Refusal::Unflushed(core),
            Reply::FrameKind => Refusal::FrameKind,
            Reply::OutOfRange => Refusal::OutOfRange,
            Reply::Referenced(n) => Refusal::Referenced(n),
            Reply::NotEmpty => Refusal::NotEmpty,
            Reply::Dead => Refusal::Dead,
            Reply::Deep => Refusal::Deep,
            Reply::Bottom => Refusal::Bottom,
            Reply::Running(core) => Refusal::Running(core),
            Reply::Short(n) => Refusal::Short(n),
            Reply::Unlike => Refusal::Unlike,
            Reply::TooMany => Refusal::TooMany,
            Reply::Same => Refusal::Same,
            Reply::EpochsSpent => Refusal::EpochsSpent,
            Reply::Raced => Refusal::Raced,
            Reply::Busy(core) => Refusal::Busy(core),
            Reply::Fault => Refusal::Fault,
            Reply::CallsSpent => Refusal::CallsSpent,
            Reply::NoRight => Refusal::NoRight,
        }
    }
}
