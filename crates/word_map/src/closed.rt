//! What a machine leaves behind.

use crate::layout::Layout;
use spk_nums::CoreEnd;

/// The words of a machine in which no core is in a call, and where each core ended.
#[derive(Drop)]
pub struct Closed {
    /// The places of the words.
    pub layout: Layout,
    /// The words, by their places.
    pub words: Vec<u64>,
    /// The cores' ends, core 0 first.
    pub ends: Vec<CoreEnd>,
}
