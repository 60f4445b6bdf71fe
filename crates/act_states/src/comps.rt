//! Where the making of a component stands between two steps.

use crate::fills::Fill;
use spk_nums::{CoreNo, EntryNo, FrameNo};
use stage_quiet::Quiet;

/// A liveness number as it was found, not live.
#[derive(Clone, Copy, PartialEq, Eq, Debug)]
pub struct LastEpoch {
    /// Its word.
    pub word: u64,
    /// Its last epoch, 0 where it was never used. Once the number may be taken, this is below 65,535.
    pub epoch: u16,
}

/// Where the making of a component stands.
#[derive(Clone, Copy, PartialEq, Eq, Debug)]
pub enum CompAt {
    /// Before the load of the frame's word.
    Load,
    /// Before the compare that marks the frame, with the word found, which says that it is a blank kernel frame and not marked.
    Mark {
        word: u64,
    },
    /// The frame is marked, and its word was this. Before the load of the number's word.
    LoadLive {
        word: u64,
    },
    /// The number is dead, and the other cores are scanned since its stamp.
    Scan {
        word: u64,
        last: LastEpoch,
        quiet: Quiet,
    },
    /// Before the compare that marks the number's word, with the word found.
    Close {
        word: u64,
        last: LastEpoch,
    },
    /// The frame and the number are marked. Before the store of this word of the component.
    Store {
        word: u64,
        last: LastEpoch,
        entry: EntryNo,
    },
    /// The frame and the number are marked. Before the compare of the target.
    Fill {
        word: u64,
        last: LastEpoch,
    },
}

/// A component that is made, between two steps.
#[derive(Clone, Copy, PartialEq, Eq, Debug)]
pub struct CompMaking {
    /// The frame.
    pub frame: FrameNo,
    /// The root of its table of capabilities.
    pub table: FrameNo,
    /// The root of its pages.
    pub pages: FrameNo,
    /// The liveness number that it takes, below 64.
    pub number: u8,
    /// The core that makes it.
    pub core: CoreNo,
    /// How many cores there are.
    pub cores: u8,
    /// The most epochs that a number has.
    pub epochs: u16,
    /// The target's place, and the capability that is put there.
    pub fill: Fill,
    /// Where this stands.
    pub at: CompAt,
}
