//! The word of a component that names its liveness number.

ghost use Rattle.std.specs.Prelude.{◌≡◌, IfSome, Some};
ghost use Rattle.spk_nums.specs.Spelling.{IsOneSpelling};
ghost use Rattle.frame_words.specs.Comp.{CompFits, word_of_comp, comp_of_word};
ghost use Rattle.frame_words.specs.declared.comp_word.CompWord.{CompWord};

/// The liveness number of a component, and the epoch in which it was made.
#[derive(Clone, Copy, PartialEq, Eq, Debug)]
pub struct CompWord {
    /// The liveness number, below 64.
    pub number: u8,
    /// The epoch, at least 1.
    pub epoch: u16,
}

impl CompWord {
    /// The component's word. The liveness number is below 64, and the epoch at least 1.
    #[inline]
    #[tactic(auto, unfolding(crate::specs::Comp::word_of_comp))]
    pub fn pack(self) -> u64
        requires { CompFits self }
        ensures { result ≡ word_of_comp self }
    {
        self.number as u64 + ((self.epoch as u64) << 6)
    }

    /// The component word whose word this is; None exactly where it is the word of none.
    #[inline]
    #[tactic(auto, using(crate::proofs::CompLemmas::comp_spells))]
    pub fn unpack(word: u64) -> Option<CompWord>
        ensures value { result ≡ comp_of_word word }
        ensures reads { (v : CompWord) → CompFits v → word_of_comp v ≡ word → result ≡ Some v }
        ensures spells { IfSome result (λ v. CompFits v × (word_of_comp v ≡ word)) }
    {
        read(word)
    }
}

/// The fields of a word, where each is within its range.
#[inline]
#[tactic(auto, unfolding(crate::specs::Comp::comp_of_word))]
fn read(word: u64) -> Option<CompWord>
    ensures { result ≡ comp_of_word word }
{
    let epoch = word >> 6;
    if 1 <= epoch && epoch < 1 << 16 {
        Some(CompWord {
            number: (word & 0x3f) as u8,
            epoch: epoch as u16,
        })
    } else {
        None
    }
}

/// Each component word within its ranges has one word, and is read from that word alone.
pub fn comp_spelling()
    ensures { IsOneSpelling CompFits word_of_comp comp_of_word }
{}
