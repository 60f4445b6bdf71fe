//! The word that says what a frame is.

ghost use Rattle.std.specs.Prelude.{◌≡◌, IfSome, Some, None};
ghost use Rattle.spk_nums.specs.Spelling.{IsOneSpelling};
ghost use Rattle.spk_nums.specs.declared.kinds.FrameKind.TheVariants.{Untyped};
ghost use Rattle.spk_nums.specs.declared.kinds.Obj.TheVariants.{Blank};
ghost use Rattle.frame_words.specs.FrameKinds.{number_of_object, frame_kind_of_number, object_of_number, end_of_object};
ghost use Rattle.frame_words.specs.Frame.{FrameFits, word_of_frame, frame_of_word};
ghost use Rattle.frame_words.specs.declared.frame_word.FrameWord.{FrameWord};

use spk_nums::{CoreNo, FrameKind, Obj, mark_number, mark_numbered};

/// The kind of a frame, the object that it holds, and the core that has marked it.
#[derive(Clone, Copy, PartialEq, Eq, Debug)]
pub struct FrameWord {
    /// The use that the frame is put to.
    pub kind: FrameKind,
    /// What it holds: Blank unless it is a kernel frame.
    pub object: Obj,
    /// The core that is retyping it or making an object in it.
    pub mark: Option<CoreNo>,
}

impl FrameWord {
    /// The frame's word. Only a kernel frame holds an object.
    #[inline]
    #[tactic(auto, unfolding(crate::specs::Frame::word_of_frame))]
    pub fn pack(self) -> u64
        requires { FrameFits self }
        ensures { result ≡ word_of_frame self }
    {
        self.kind as u64 + ((self.object as u64) << 2) + (mark_number(self.mark) << 6)
    }

    /// The frame word whose word this is; None exactly where it is the word of none.
    #[inline]
    #[tactic(auto, using(crate::proofs::FrameLemmas::frame_spells))]
    pub fn unpack(word: u64) -> Option<FrameWord>
        ensures value { result ≡ frame_of_word word }
        ensures reads { (v : FrameWord) → FrameFits v → word_of_frame v ≡ word → result ≡ Some v }
        ensures spells { IfSome result (λ v. FrameFits v × (word_of_frame v ≡ word)) }
    {
        read(word)
    }
}

/// The fields of a word, where each is within its range.
#[inline]
#[tactic(auto, unfolding(crate::specs::Frame::frame_of_word))]
fn read(word: u64) -> Option<FrameWord>
    ensures { result ≡ frame_of_word word }
{
    let kind = frame_kind_numbered(word & 3)?;
    let object = object_numbered((word >> 2) & 0xf)?;
    let mark = mark_numbered(word >> 6)?;
    if object == Obj::Blank || kind == FrameKind::Kernel {
        Some(FrameWord { kind, object, mark })
    } else {
        None
    }
}

/// The kind of this number in a word.
#[inline]
fn frame_kind_numbered(number: u64) -> Option<FrameKind>
    ensures { result ≡ frame_kind_of_number number }
{
    match number {
        0 => Some(FrameKind::Untyped),
        1 => Some(FrameKind::User),
        2 => Some(FrameKind::Kernel),
        _ => None,
    }
}

/// The object of this number in a word.
#[inline]
fn object_numbered(number: u64) -> Option<Obj>
    ensures { result ≡ object_of_number number }
{
    match number {
        0 => Some(Obj::Blank),
        1 => Some(Obj::Table),
        2 => Some(Obj::Leaf),
        3 => Some(Obj::Pages),
        4 => Some(Obj::Pleaf),
        5 => Some(Obj::Comp),
        6 => Some(Obj::Thread),
        7 => Some(Obj::Tcap),
        _ => None,
    }
}

/// Each frame word within its ranges has one word, and is read from that word alone. The word of an untyped frame
/// with no mark is 0.
pub fn frame_spelling()
    ensures spelling { IsOneSpelling FrameFits word_of_frame frame_of_word }
    ensures untyped { word_of_frame (record { kind = Untyped; object = Blank; mark = None }) ≡ 0 }
{}
