//! The word of a liveness number.

ghost use Rattle.std.specs.Prelude.{◌≡◌, IfSome, Some};
ghost use Rattle.spk_nums.specs.Spelling.{IsOneSpelling};
ghost use Rattle.frame_words.specs.Live.{LiveFits, word_of_live, live_of_word, live_of, closing_of, dead_of};
ghost use Rattle.frame_words.specs.declared.live_word.LiveWord.{LiveWord};
ghost use Rattle.frame_words.specs.declared.live_word.LiveWord.TheVariants.{Free};

use spk_nums::{CoreNo, FrameNo, Stamp};

/// What a liveness number stands for.
#[derive(Clone, Copy, PartialEq, Eq, Debug)]
pub enum LiveWord {
    /// It was never given to a component.
    Free,
    /// A component lives under it.
    Live {
        /// The component's epoch, at least 1.
        epoch: u16,
        /// The component's frame.
        frame: FrameNo,
    },
    /// A core is killing its component or giving it to another.
    Closing {
        /// The epoch before, 0 where the number was free.
        epoch: u16,
        /// The core that changes it.
        by: CoreNo,
    },
    /// Its component was killed.
    Dead {
        /// The component's epoch, at least 1.
        epoch: u16,
        /// The stamp that the kill drew, at least 1.
        stamp: Stamp,
    },
}

impl LiveWord {
    /// The liveness number's word. The epoch of a live or a dead number and the stamp of a dead one are at least 1.
    #[inline]
    #[tactic(auto, unfolding(crate::specs::Live::word_of_live))]
    pub fn pack(self) -> u64
        requires { LiveFits self }
        ensures { result ≡ word_of_live self }
    {
        match self {
            LiveWord::Free => 0,
            LiveWord::Live { epoch, frame } => 1
                + ((epoch as u64) << 2)
                + ((frame.number() as u64) << 18),
            LiveWord::Closing { epoch, by } => 2
                + ((epoch as u64) << 2)
                + ((by.number() as u64) << 27),
            LiveWord::Dead { epoch, stamp } => 3 + ((epoch as u64) << 2) + (stamp.number() << 18),
        }
    }

    /// The liveness word whose word this is; None exactly where it is the word of none.
    #[inline]
    #[tactic(auto, using(crate::proofs::LiveLemmas::live_spells))]
    pub fn unpack(word: u64) -> Option<LiveWord>
        ensures value { result ≡ live_of_word word }
        ensures reads { (v : LiveWord) → LiveFits v → word_of_live v ≡ word → result ≡ Some v }
        ensures spells { IfSome result (λ v. LiveFits v × (word_of_live v ≡ word)) }
    {
        read(word)
    }
}

/// The fields of a word, where each is within its range.
#[inline]
#[tactic(auto, unfolding(crate::specs::Live::live_of_word))]
fn read(word: u64) -> Option<LiveWord>
    ensures { result ≡ live_of_word word }
{
    let epoch = ((word >> 2) & 0xffff) as u16;
    match word & 3 {
        1 => live(epoch, word >> 18),
        2 if (word >> 18) & 0x1ff == 0 => closing(epoch, word >> 27),
        3 => dead(epoch, word >> 18),
        _ if word == 0 => Some(LiveWord::Free),
        _ => None,
    }
}

/// The live number of this epoch and frame, where both are within their ranges.
#[inline]
fn live(epoch: u16, frame: u64) -> Option<LiveWord>
    ensures { result ≡ live_of epoch frame }
{
    if 1 <= epoch && frame < 512 {
        Some(LiveWord::Live {
            epoch,
            frame: FrameNo::new(frame as u16),
        })
    } else {
        None
    }
}

/// The number that this core is closing, where there is such a core.
#[inline]
fn closing(epoch: u16, by: u64) -> Option<LiveWord>
    ensures { result ≡ closing_of epoch by }
{
    if by < 8 {
        Some(LiveWord::Closing {
            epoch,
            by: CoreNo::new(by as u8),
        })
    } else {
        None
    }
}

/// The dead number of this epoch and stamp, where both are within their ranges.
#[inline]
fn dead(epoch: u16, stamp: u64) -> Option<LiveWord>
    ensures { result ≡ dead_of epoch stamp }
{
    if 1 <= epoch && 1 <= stamp && stamp < 1 << 43 {
        Some(LiveWord::Dead {
            epoch,
            stamp: Stamp::new(stamp),
        })
    } else {
        None
    }
}

/// Each liveness word within its ranges has one word, and is read from that word alone. The word of a free number
/// is 0.
pub fn live_spelling()
    ensures spelling { IsOneSpelling LiveFits word_of_live live_of_word }
    ensures free { word_of_live Free ≡ 0 }
{}
