//! The word of a thread that holds one component of its stack.

ghost use Rattle.std.specs.Prelude.{◌≡◌, IfSome, Some, None};
ghost use Rattle.spk_nums.specs.Spelling.{IsOneSpelling};
ghost use Rattle.tcap_words.specs.Stack.{StackFits, word_of_stack, stack_of_word};
ghost use Rattle.tcap_words.specs.declared.stack_word.StackWord.{StackWord};

use spk_nums::FrameNo;

/// The frame of a component on a thread's stack, or none above its top.
#[derive(Clone, Copy, PartialEq, Eq, Debug)]
pub struct StackWord(pub Option<FrameNo>);

impl StackWord {
    /// The word of a place on a stack.
    #[inline]
    #[tactic(auto, unfolding(crate::specs::Stack::word_of_stack))]
    pub fn pack(self) -> u64
        ensures { result ≡ word_of_stack self }
    {
        match self.0 {
            None => 0,
            Some(frame) => 1 + ((frame.number() as u64) << 1),
        }
    }

    /// The stack word whose word this is; None exactly where it is the word of none.
    #[inline]
    #[tactic(auto, using(crate::proofs::StackLemmas::stack_spells))]
    pub fn unpack(word: u64) -> Option<StackWord>
        ensures value { result ≡ stack_of_word word }
        ensures reads { (v : StackWord) → StackFits v → word_of_stack v ≡ word → result ≡ Some v }
        ensures spells { IfSome result (λ v. StackFits v × (word_of_stack v ≡ word)) }
    {
        read(word)
    }
}

/// The frame of a word, where there is such a frame.
#[inline]
#[tactic(auto, unfolding(crate::specs::Stack::stack_of_word))]
fn read(word: u64) -> Option<StackWord>
    ensures { result ≡ stack_of_word word }
{
    let frame = word >> 1;
    if word == 0 {
        Some(StackWord(None))
    } else if word & 1 == 1 && frame < 512 {
        Some(StackWord(Some(FrameNo::new(frame as u16))))
    } else {
        None
    }
}

/// Each stack word within its range has one word, and is read from that word alone. The word of none is 0.
pub fn stack_spelling()
    ensures spelling { IsOneSpelling StackFits word_of_stack stack_of_word }
    ensures none { word_of_stack (record { 0 = None }) ≡ 0 }
{}
