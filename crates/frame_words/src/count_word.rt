//! The word that counts the references to a frame.

ghost use Rattle.std.specs.Prelude.{◌≡◌, IfSome, Some};
ghost use Rattle.spk_nums.specs.Spelling.{IsOneSpelling};
ghost use Rattle.frame_words.specs.Count.{CountFits, number_of_hold, hold_of_number, word_of_count, count_of_word};
ghost use Rattle.frame_words.specs.declared.count_word.CountWord.{CountWord};

use crate::modulo::{residue, signed};
use spk_nums::{CoreNo, Stamp};

/// Which core holds a count word.
#[derive(Clone, Copy, PartialEq, Eq, Debug)]
pub enum Hold {
    /// None.
    Unheld,
    /// A core whose call has acquired the count and will commit it.
    Pinned {
        /// The core that will commit it.
        by: CoreNo,
    },
    /// A core that has frozen the count, to retype the frame.
    Closed {
        /// The core that retypes the frame.
        by: CoreNo,
    },
}

/// What a core counts of the references to a frame: those made less those released, modulo 2^16. Of the counts of one core
/// nothing is said; those of all cores sum up to the references, modulo 2^16.
#[derive(Clone, Copy, PartialEq, Eq, Debug)]
pub struct CountWord {
    /// Which core holds the word.
    pub hold: Hold,
    /// References made less those released: of the numbers that differ from it by a multiple of 2^16, the one from -2^15
    /// to 2^15 - 1.
    pub count: i32,
    /// The stamp of the latest release, or 0.
    pub stamp: Stamp,
}

impl CountWord {
    /// The count's word. The count is from -2^15 to 2^15 - 1.
    #[inline]
    #[tactic(auto, unfolding(crate::specs::Count::word_of_count))]
    pub fn pack(self) -> u64
        requires { CountFits self }
        ensures { result ≡ word_of_count self }
    {
        self.stamp.number()
            + (u64::from(residue(i64::from(self.count))) << 43)
            + (hold_number(self.hold) << 59)
    }

    /// The count word whose word this is; None exactly where it is the word of none.
    #[inline]
    #[tactic(auto, using(crate::proofs::CountLemmas::count_spells))]
    pub fn unpack(word: u64) -> Option<CountWord>
        ensures value { result ≡ count_of_word word }
        ensures reads { (v : CountWord) → CountFits v → word_of_count v ≡ word → result ≡ Some v }
        ensures spells { IfSome result (λ v. CountFits v × (word_of_count v ≡ word)) }
    {
        read(word)
    }
}

/// The fields of a word, where there is such a hold.
#[inline]
#[tactic(auto, unfolding(crate::specs::Count::count_of_word))]
fn read(word: u64) -> Option<CountWord>
    ensures { result ≡ count_of_word word }
{
    let hold = hold_numbered(word >> 59)?;
    let count = signed(((word >> 43) & 0xffff) as u16);
    let stamp = Stamp::new(word & 0x7ff_ffff_ffff);
    Some(CountWord { hold, count, stamp })
}

/// A hold's number in a word, below 2^5.
#[inline]
fn hold_number(hold: Hold) -> u64
    ensures { result ≡ number_of_hold hold }
{
    match hold {
        Hold::Unheld => 0,
        Hold::Pinned { by } => by.number() as u64 + 1,
        Hold::Closed { by } => by.number() as u64 + 17,
    }
}

/// The hold of this number in a word.
#[inline]
fn hold_numbered(number: u64) -> Option<Hold>
    ensures { result ≡ hold_of_number number }
{
    match number {
        0 => Some(Hold::Unheld),
        1..=8 => Some(Hold::Pinned {
            by: CoreNo::new((number - 1) as u8),
        }),
        17..=24 => Some(Hold::Closed {
            by: CoreNo::new((number - 17) as u8),
        }),
        _ => None,
    }
}

/// Each count word within its ranges has one word, and is read from that word alone.
pub fn count_spelling()
    ensures { IsOneSpelling CountFits word_of_count count_of_word }
{}
