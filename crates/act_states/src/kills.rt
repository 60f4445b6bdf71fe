//! Where the killing of a component stands between two steps.

use frame_words::CompWord;
use spk_nums::{CoreNo, FrameNo};

/// Where the killing of a component stands.
#[derive(Clone, Copy, PartialEq, Eq, Debug)]
pub enum KillingAt {
    /// Before the load of the component's word.
    LoadComp,
    /// Before the load of its number's word.
    LoadLive { life: CompWord },
    /// Before the compare that marks the number's word, which was this and says that the component lives.
    Close { life: CompWord, word: u64 },
    /// The number's word is marked, and was this. Before the draw of the stamp.
    Draw { life: CompWord, word: u64 },
}

/// A component that is killed, between two steps.
#[derive(Clone, Copy, PartialEq, Eq, Debug)]
pub struct Killing {
    /// The component's frame.
    pub comp: FrameNo,
    /// The core that kills it.
    pub core: CoreNo,
    /// Where this stands.
    pub at: KillingAt,
}
