//! The word of a temporal capability that holds its budget.

ghost use Rattle.std.specs.Prelude.{◌≡◌, IfSome, Some};
ghost use Rattle.spk_nums.specs.Spelling.{IsOneSpelling};
ghost use Rattle.tcap_words.specs.Head.{HeadFits, word_of_head, head_of_word};
ghost use Rattle.tcap_words.specs.declared.head_word.HeadWord.{HeadWord};

use spk_nums::{CoreNo, mark_number, mark_numbered};

/// The budget of a temporal capability, the core that has marked it, and its version.
#[derive(Clone, Copy, PartialEq, Eq, Debug)]
pub struct HeadWord {
    /// What is left of the budget, in ticks.
    pub budget: u32,
    /// The core that is moving budget from it or to it.
    pub mark: Option<CoreNo>,
    /// How often the budget or the qualities changed, below 2^28.
    pub version: u32,
}

impl HeadWord {
    /// The head's word. The version is below 2^28.
    #[inline]
    #[tactic(auto, unfolding(crate::specs::Head::word_of_head))]
    pub fn pack(self) -> u64
        requires { HeadFits self }
        ensures { result ≡ word_of_head self }
    {
        self.budget as u64 + (mark_number(self.mark) << 32) + ((self.version as u64) << 36)
    }

    /// The head word whose word this is; None exactly where it is the word of none.
    #[inline]
    #[tactic(auto, using(crate::proofs::HeadLemmas::head_spells))]
    pub fn unpack(word: u64) -> Option<HeadWord>
        ensures value { result ≡ head_of_word word }
        ensures reads { (v : HeadWord) → HeadFits v → word_of_head v ≡ word → result ≡ Some v }
        ensures spells { IfSome result (λ v. HeadFits v × (word_of_head v ≡ word)) }
    {
        read(word)
    }
}

/// The fields of a word, where there is such a mark: the other fields fill their bits.
#[inline]
#[tactic(auto, unfolding(crate::specs::Head::head_of_word))]
fn read(word: u64) -> Option<HeadWord>
    ensures { result ≡ head_of_word word }
{
    let mark = mark_numbered((word >> 32) & 0xf)?;
    Some(HeadWord {
        budget: (word & 0xffff_ffff) as u32,
        mark,
        version: (word >> 36) as u32,
    })
}

/// Each head word within its ranges has one word, and is read from that word alone.
pub fn head_spelling()
    ensures { IsOneSpelling HeadFits word_of_head head_of_word }
{}
