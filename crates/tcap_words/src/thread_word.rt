//! The word of a thread that says which core runs it.

ghost use Rattle.std.specs.Prelude.{◌≡◌, IfSome, Some};
ghost use Rattle.spk_nums.specs.Spelling.{IsOneSpelling};
ghost use Rattle.tcap_words.specs.Thread.{ThreadFits, word_of_thread, thread_of_word};
ghost use Rattle.tcap_words.specs.declared.thread_word.ThreadWord.{ThreadWord};

use spk_nums::CoreNo;

/// Which core runs a thread, and how many components are on its stack.
#[derive(Clone, Copy, PartialEq, Eq, Debug)]
pub enum ThreadWord {
    /// No core runs it.
    Idle {
        /// The components on its stack, 1 to 16.
        depth: u8,
    },
    /// A core runs it.
    Running {
        /// The core that runs it.
        core: CoreNo,
        /// The components on its stack, 1 to 16.
        depth: u8,
    },
    /// A core is switching to it or from it.
    Claimed {
        /// The core that switches.
        core: CoreNo,
        /// The components on its stack, 1 to 16.
        depth: u8,
    },
}

impl ThreadWord {
    /// The thread's word. The depth is from 1 to 16.
    #[inline]
    #[tactic(auto, unfolding(crate::specs::Thread::word_of_thread))]
    pub fn pack(self) -> u64
        requires { ThreadFits self }
        ensures { result ≡ word_of_thread self }
    {
        match self {
            ThreadWord::Idle { depth } => (depth as u64) << 5,
            ThreadWord::Running { core, depth } => 1
                + ((core.number() as u64) << 2)
                + ((depth as u64) << 5),
            ThreadWord::Claimed { core, depth } => 2
                + ((core.number() as u64) << 2)
                + ((depth as u64) << 5),
        }
    }

    /// The thread word whose word this is; None exactly where it is the word of none.
    #[inline]
    #[tactic(auto, using(crate::proofs::ThreadLemmas::thread_spells))]
    pub fn unpack(word: u64) -> Option<ThreadWord>
        ensures value { result ≡ thread_of_word word }
        ensures reads { (v : ThreadWord) → ThreadFits v → word_of_thread v ≡ word → result ≡ Some v }
        ensures spells { IfSome result (λ v. ThreadFits v × (word_of_thread v ≡ word)) }
    {
        read(word)
    }
}

/// The fields of a word, where each is within its range.
#[inline]
#[tactic(auto, unfolding(crate::specs::Thread::thread_of_word))]
fn read(word: u64) -> Option<ThreadWord>
    ensures { result ≡ thread_of_word word }
{
    let depth = word >> 5;
    if depth < 1 || 16 < depth {
        return None;
    }
    let depth = depth as u8;
    let core = CoreNo::new(((word >> 2) & 7) as u8);
    match word & 3 {
        0 if core.number() == 0 => Some(ThreadWord::Idle { depth }),
        1 => Some(ThreadWord::Running { core, depth }),
        2 => Some(ThreadWord::Claimed { core, depth }),
        _ => None,
    }
}

/// Each thread word within its ranges has one word, and is read from that word alone.
pub fn thread_spelling()
    ensures { IsOneSpelling ThreadFits word_of_thread thread_of_word }
{}
