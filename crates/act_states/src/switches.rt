//! Where a switch stands between two steps.

use spk_nums::{CoreNo, FrameNo};
use stage_thread::{Claim, Claimed};

/// Where a switch stands.
#[derive(Clone, Copy, PartialEq, Eq, Debug)]
pub enum SwitchAt {
    /// The thread is being claimed.
    Claim {
        claim: Claim,
    },
    /// This thread is claimed. Before the load of the table of the component at the top of its stack.
    LoadTable {
        to: Claimed,
    },
    /// Before the load of that component's pages.
    LoadPages {
        to: Claimed,
        table: FrameNo,
    },
    /// Before the store of the core's own thread as claimed.
    Leave {
        to: Claimed,
        table: FrameNo,
        pages: FrameNo,
    },
    /// Both threads are claimed. Before the draw of the stamp.
    Draw {
        to: Claimed,
        table: FrameNo,
        pages: FrameNo,
    },
}

/// A switch to a thread and a temporal capability, between two steps.
#[derive(Clone, Copy, PartialEq, Eq, Debug)]
pub struct Switching {
    /// The core.
    pub core: CoreNo,
    /// The frames of the machine, at most 512.
    pub frames: u16,
    /// The temporal capability with which it goes on.
    pub tcap: FrameNo,
    /// The thread that it leaves.
    pub old: FrameNo,
    /// The depth of that thread's stack, 1 to 16.
    pub old_depth: u8,
    /// The temporal capability that it leaves, or keeps where it is the one with which it goes on.
    pub old_tcap: FrameNo,
    /// Where this stands.
    pub at: SwitchAt,
}
