//! Where the untyping of a frame stands between two steps, and what it has still to store.

use frame_words::FrameWord;
use spk_nums::{CoreNo, FrameNo};
use stage_sweep::{Sweep, Swept, Thaw};

/// Where the untyping of a frame stands.
#[derive(Clone, Copy, PartialEq, Eq, Debug)]
pub enum UntypingAt {
    /// Before the load of the frame's word.
    Load,
    /// Before the compare that marks the frame, with the word found, which says that the frame is this, and not marked.
    Mark { word: u64, shown: FrameWord },
    /// The frame is marked, and its word was this. In the sweep of its counters and of its object.
    Sweep { word: u64, sweep: Sweep },
    /// The frame is marked, and its word was this; its counters are frozen, and its object is empty. Before the draw of the stamp.
    Draw { word: u64, swept: Swept },
}

/// A frame that is made untyped, between two steps.
#[derive(Clone, Copy, PartialEq, Eq, Debug)]
pub struct Untyping {
    /// The frame.
    pub frame: FrameNo,
    /// The core that makes it untyped.
    pub core: CoreNo,
    /// Where this stands.
    pub at: UntypingAt,
}

/// What a call that has marked a frame and frozen its counters has still to store: each counter, and then the frame's word.
#[derive(Clone, Copy, PartialEq, Eq, Debug)]
pub struct Release {
    /// The frame.
    pub frame: FrameNo,
    /// Its word, with no mark.
    pub word: u64,
    /// The release of the counters that are still frozen, if there are such.
    pub thaw: Option<Thaw>,
}
