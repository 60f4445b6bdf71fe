//! A place that is filled, as its compare finds it.

use spk_nums::{Cap, EntryNo, FrameNo};

/// A place that is filled, between two steps.
#[derive(Clone, Copy, PartialEq, Eq, Debug)]
pub struct Fill {
    /// The node that has the place.
    pub node: FrameNo,
    /// The place's entry in the node.
    pub entry: EntryNo,
    /// The word that was found there.
    pub word: u64,
    /// What it is to hold.
    pub cap: Cap,
}
