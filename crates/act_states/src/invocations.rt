//! Where the entering of a component, and the leaving of one, stands between two steps.

use frame_words::CompWord;
use spk_nums::{CoreNo, FrameNo};

/// Where the entering of a component stands.
#[derive(Clone, Copy, PartialEq, Eq, Debug)]
pub enum InvokingAt {
    /// Before the load of the component's table.
    LoadTable,
    /// Before the load of its pages.
    LoadPages {
        table: FrameNo,
    },
    /// Before the load of its liveness number.
    LoadComp {
        table: FrameNo,
        pages: FrameNo,
    },
    /// Before the load of that number's word, which decides.
    LoadLive {
        table: FrameNo,
        pages: FrameNo,
        life: CompWord,
    },
}

/// A component that a core enters through a gate, between two steps.
#[derive(Clone, Copy, PartialEq, Eq, Debug)]
pub struct Invoking {
    /// The component's frame.
    pub comp: FrameNo,
    /// The epoch in which the gate was made.
    pub epoch: u32,
    /// The core's thread.
    pub thread: FrameNo,
    /// The depth of its stack, 1 to 15.
    pub depth: u8,
    /// The core.
    pub core: CoreNo,
    /// The frames of the machine, at most 512.
    pub frames: u16,
    /// Where this stands.
    pub at: InvokingAt,
}

/// Where the leaving of a component stands.
#[derive(Clone, Copy, PartialEq, Eq, Debug)]
pub enum ReturningAt {
    /// Before the load of the component below the top.
    LoadBelow,
    /// Before the load of that component's table.
    LoadTable {
        comp: FrameNo,
    },
    /// Before the load of its pages.
    LoadPages {
        comp: FrameNo,
        table: FrameNo,
    },
    /// Before the draw of the stamp.
    Draw {
        comp: FrameNo,
        table: FrameNo,
        pages: FrameNo,
    },
}

/// A component that a core leaves, between two steps.
#[derive(Clone, Copy, PartialEq, Eq, Debug)]
pub struct Returning {
    /// The component's frame, at the top of the stack.
    pub top: FrameNo,
    /// The core's thread.
    pub thread: FrameNo,
    /// The depth of its stack, 2 to 16.
    pub depth: u8,
    /// The core.
    pub core: CoreNo,
    /// The frames of the machine, at most 512.
    pub frames: u16,
    /// Where this stands.
    pub at: ReturningAt,
}
