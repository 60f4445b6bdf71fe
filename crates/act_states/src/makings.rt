//! Where the making of an object stands between two steps.

use crate::fills::Fill;
use crate::objects::NewObject;
use spk_nums::{CoreNo, EntryNo, FrameNo};

/// Where a making stands.
#[derive(Clone, Copy, PartialEq, Eq, Debug)]
pub enum MakingAt {
    /// Before the load of the frame's word.
    Load,
    /// Before the compare that marks the frame, with the word found, which says that it is a blank kernel frame and not marked.
    Mark { word: u64 },
    /// The frame is marked, and its word was this. Before the store of this word of the object.
    Store { word: u64, entry: EntryNo },
    /// The frame is marked, and its word was this. Before the compare of the target.
    Fill { word: u64 },
}

/// An object that is made, between two steps.
#[derive(Clone, Copy, PartialEq, Eq, Debug)]
pub struct Making {
    /// The frame.
    pub frame: FrameNo,
    /// What is made.
    pub object: NewObject,
    /// The core that makes it.
    pub core: CoreNo,
    /// The target's place, and the capability that is put there.
    pub fill: Fill,
    /// Where this stands.
    pub at: MakingAt,
}
