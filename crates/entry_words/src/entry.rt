//! What the word of a place says.

ghost use Rattle.std.specs.Prelude.{◌≡◌, ◌≤◌, ◌<◌, IfSome, Some};
ghost use Rattle.spk_nums.specs.Limits.{least_arg, end_of_arg};
ghost use Rattle.spk_nums.specs.Spelling.{IsOneSpelling};
ghost use Rattle.entry_words.specs.Kinds.{kind_of_number, most_withheld};
ghost use Rattle.entry_words.specs.declared.entry.Entry.{Entry};
ghost use Rattle.entry_words.specs.declared.entry.Entry.TheVariants.{Free};
ghost use Rattle.entry_words.specs.EntryWord.{EntryFits, word_of_entry, entry_of_word, held_of, closing_of, quiescing_of};
ghost use Rattle.entry_words.specs.EntryWord.{BothWithholdNone};

use spk_nums::{Cap, CoreNo, FrameNo, Kind, Rights, Stamp};

/// A place in a node, as its word says it.
#[derive(Clone, Copy, PartialEq, Eq, Debug)]
pub enum Entry {
    /// Nothing is there.
    Free,
    /// A capability, or another entry of a node.
    Held(Cap),
    /// A core is removing what was there.
    Closing {
        /// The core that removes it.
        by: CoreNo,
    },
    /// What was there is removed, and the place waits until no core can still be using it.
    Quiescing {
        /// The stamp that the removal drew, at least 1.
        stamp: Stamp,
    },
}

impl Entry {
    /// The entry's word. The stamp of a Quiescing entry is at least 1.
    #[inline]
    #[tactic(auto, unfolding(crate::specs::EntryWord::word_of_entry))]
    pub fn pack(self) -> u64
        requires { EntryFits self }
        ensures { result ≡ word_of_entry self }
    {
        match self {
            Entry::Free => 0,
            Entry::Held(cap) => 1
                + ((cap.kind() as u64) << 2)
                + ((cap.frame().number() as u64) << 6)
                + ((cap.arg() as u64) << 16)
                + (((3 - cap.rights().number()) as u64) << 40),
            Entry::Closing { by } => 2 + ((by.number() as u64) << 2),
            Entry::Quiescing { stamp } => 3 + (stamp.number() << 4),
        }
    }

    /// The entry whose word this is; None exactly where it is the word of no entry.
    #[inline]
    #[tactic(auto, using(crate::proofs::Spelling::entry_spells))]
    pub fn unpack(word: u64) -> Option<Entry>
        ensures value { result ≡ entry_of_word word }
        ensures reads { (v : Entry) → EntryFits v → word_of_entry v ≡ word → result ≡ Some v }
        ensures spells { IfSome result (λ v. EntryFits v × (word_of_entry v ≡ word)) }
    {
        read(word)
    }
}

/// The fields of a word, where each is within its range.
#[inline]
#[tactic(auto, unfolding(crate::specs::EntryWord::entry_of_word))]
fn read(word: u64) -> Option<Entry>
    ensures { result ≡ entry_of_word word }
{
    match word & 3 {
        1 => held(
            (word >> 2) & 0xf,
            (word >> 6) & 0x3ff,
            (word >> 16) & 0xff_ffff,
            word >> 40,
        ),
        2 => closing(word >> 2),
        3 if word & 0xf == 3 => quiescing(word >> 4),
        _ if word == 0 => Some(Entry::Free),
        _ => None,
    }
}

/// The entry that holds the capability of these numbers, the last of which is that of the rights withheld, where each is
/// within its range.
#[inline]
#[tactic(auto, using(crate::proofs::Spelling::withheld_least))]
fn held(kind: u64, frame: u64, arg: u64, withheld: u64) -> Option<Entry>
    ensures { result ≡ held_of (kind_of_number kind) frame arg withheld }
{
    let kind = kind_numbered(kind)?;
    if frame < 512
        && least_number(kind) <= arg
        && arg < end_of_numbers(kind)
        && withheld <= most_withheld(kind)
    {
        let rights = Rights::of_bits(3 - withheld as u8);
        Some(Entry::Held(Cap::with_rights(kind, FrameNo::new(frame as u16), arg as u32, rights)))
    } else {
        None
    }
}

/// The entry that this core is closing, where there is such a core.
#[inline]
fn closing(by: u64) -> Option<Entry>
    ensures { result ≡ closing_of by }
{
    if by < 8 {
        Some(Entry::Closing {
            by: CoreNo::new(by as u8),
        })
    } else {
        None
    }
}

/// The entry that waits since this stamp, where that is within its range.
#[inline]
fn quiescing(stamp: u64) -> Option<Entry>
    ensures { result ≡ quiescing_of stamp }
{
    if 1 <= stamp && stamp < 1 << 43 {
        Some(Entry::Quiescing {
            stamp: Stamp::new(stamp),
        })
    } else {
        None
    }
}

/// The least number that a capability of this kind carries.
#[inline]
fn least_number(kind: Kind) -> u64
    ensures { result ≡ least_arg kind }
{
    match kind {
        Kind::Gate => 1,
        _ => 0,
    }
}

/// The end of the numbers that a capability of this kind carries.
#[inline]
fn end_of_numbers(kind: Kind) -> u64
    ensures { result ≡ end_of_arg kind }
{
    match kind {
        Kind::Range => 1 << 24,
        Kind::Gate => 1 << 16,
        Kind::Page => 4,
        _ => 1,
    }
}

/// The most that a word withholds of the rights of this kind.
#[inline]
fn most_withheld(kind: Kind) -> u64
    ensures value { result ≡ most_withheld kind }
    ensures most { result ≤ 3 }
{
    match kind {
        Kind::Link | Kind::Page => 0,
        _ => 3,
    }
}

/// The kind of this number in a word.
#[inline]
fn kind_numbered(number: u64) -> Option<Kind>
    ensures { result ≡ kind_of_number number }
{
    match number {
        0 => Some(Kind::Range),
        1 => Some(Kind::Table),
        2 => Some(Kind::Leaf),
        3 => Some(Kind::Pages),
        4 => Some(Kind::Pleaf),
        5 => Some(Kind::Comp),
        6 => Some(Kind::Gate),
        7 => Some(Kind::Thread),
        8 => Some(Kind::Tcap),
        9 => Some(Kind::Link),
        10 => Some(Kind::Page),
        _ => None,
    }
}

/// Each entry within its ranges has one word, and is read from that word alone. The word of a free place is 0, and that of a
/// capability with both rights has none of the bits of rights withheld.
pub fn entry_spelling()
    ensures spelling { IsOneSpelling EntryFits word_of_entry entry_of_word }
    ensures free { word_of_entry Free ≡ 0 }
    ensures both { BothWithholdNone }
{}
