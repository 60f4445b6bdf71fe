//! Where the typing of a frame stands between two steps.

use spk_nums::{FrameKind, FrameNo};

/// Where the typing of a frame stands.
#[derive(Clone, Copy, PartialEq, Eq, Debug)]
pub enum TypingAt {
    /// Before the load of the frame's word.
    Load,
    /// Before the compare with the word found, which says that the frame is untyped and not marked.
    Compare { word: u64 },
}

/// A frame that is typed, between two steps.
#[derive(Clone, Copy, PartialEq, Eq, Debug)]
pub struct Typing {
    /// The frame.
    pub frame: FrameNo,
    /// What it becomes.
    pub kind: FrameKind,
    /// Where this stands.
    pub at: TypingAt,
}
