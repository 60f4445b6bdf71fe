//! The word of a core's last flush.

ghost use Rattle.std.specs.Prelude.{◌≡◌, IfSome, Some};
ghost use Rattle.spk_nums.specs.Spelling.{IsOneSpelling};
ghost use Rattle.frame_words.specs.Flush.{FlushFits, word_of_flush, flush_of_word};
ghost use Rattle.frame_words.specs.declared.flush_word.FlushWord.{FlushWord};

use spk_nums::Stamp;

/// When a core last flushed its translations.
#[derive(Clone, Copy, PartialEq, Eq, Debug)]
pub struct FlushWord {
    /// What the clock showed then.
    pub stamp: Stamp,
}

impl FlushWord {
    /// The flush's word.
    #[inline]
    #[tactic(auto, unfolding(crate::specs::Flush::word_of_flush))]
    pub fn pack(self) -> u64
        ensures { result ≡ word_of_flush self }
    {
        self.stamp.number()
    }

    /// The flush word whose word this is; None exactly where it is the word of none.
    #[inline]
    #[tactic(auto, using(crate::proofs::FlushLemmas::flush_spells))]
    pub fn unpack(word: u64) -> Option<FlushWord>
        ensures value { result ≡ flush_of_word word }
        ensures reads { (v : FlushWord) → FlushFits v → word_of_flush v ≡ word → result ≡ Some v }
        ensures spells { IfSome result (λ v. FlushFits v × (word_of_flush v ≡ word)) }
    {
        read(word)
    }
}

/// The stamp of a word, where it is within its range.
#[inline]
#[tactic(auto, unfolding(crate::specs::Flush::flush_of_word))]
fn read(word: u64) -> Option<FlushWord>
    ensures { result ≡ flush_of_word word }
{
    if word < 1 << 43 {
        Some(FlushWord {
            stamp: Stamp::new(word),
        })
    } else {
        None
    }
}

/// Each flush word within its range has one word, and is read from that word alone.
pub fn flush_spelling()
    ensures { IsOneSpelling FlushFits word_of_flush flush_of_word }
{}
