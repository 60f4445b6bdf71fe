//! The word that says whether a core is inside a call.

ghost use Rattle.std.specs.Prelude.{◌≡◌, IfSome, Some};
ghost use Rattle.spk_nums.specs.Spelling.{IsOneSpelling};
ghost use Rattle.frame_words.specs.Core.{CoreFits, word_of_core, core_of_word};
ghost use Rattle.frame_words.specs.declared.core_word.CoreWord.{CoreWord};

use spk_nums::Stamp;

/// Whether a core is inside a call, and when it last left one.
#[derive(Clone, Copy, PartialEq, Eq, Debug)]
pub struct CoreWord {
    /// Whether it is inside a call.
    pub inside: bool,
    /// What the clock showed at its last exit.
    pub stamp: Stamp,
}

impl CoreWord {
    /// The core's word.
    #[inline]
    #[tactic(auto, unfolding(crate::specs::Core::word_of_core))]
    pub fn pack(self) -> u64
        ensures { result ≡ word_of_core self }
    {
        self.inside as u64 + (self.stamp.number() << 1)
    }

    /// The core word whose word this is; None exactly where it is the word of none.
    #[inline]
    #[tactic(auto, using(crate::proofs::CoreLemmas::core_spells))]
    pub fn unpack(word: u64) -> Option<CoreWord>
        ensures value { result ≡ core_of_word word }
        ensures reads { (v : CoreWord) → CoreFits v → word_of_core v ≡ word → result ≡ Some v }
        ensures spells { IfSome result (λ v. CoreFits v × (word_of_core v ≡ word)) }
    {
        read(word)
    }
}

/// The fields of a word, where the stamp is within its range.
#[inline]
#[tactic(auto, unfolding(crate::specs::Core::core_of_word))]
fn read(word: u64) -> Option<CoreWord>
    ensures { result ≡ core_of_word word }
{
    let stamp = word >> 1;
    if stamp < 1 << 43 {
        Some(CoreWord {
            inside: word & 1 == 1,
            stamp: Stamp::new(stamp),
        })
    } else {
        None
    }
}

/// Each core word within its ranges has one word, and is read from that word alone.
pub fn core_spelling()
    ensures { IsOneSpelling CoreFits word_of_core core_of_word }
{}
