//! The act that makes an object in a blank kernel frame, and puts its capability at the target.
//!
//! **Marking.** The frame's word is loaded, and marked by a compare with the word found. While it is marked no other core makes an object
//! in the frame, nor retypes it.
//!
//! **Filling in.** Then the counts are acquired that the object changes, that of the frame first, and each word of the object is stored.
//! The frame is blank still, and no capability leads to it, so no other core reads these words.
//!
//! **Publishing.** The target is compared with the word found there, which decides the call. After it the frame's word is stored, with
//! its object and without the mark, as its kind was changed by the decision. A refused call stores the frame's word as it was found.

ghost use Rattle.act_counts.specs.act_states.specs.Acts.{meets_blank, meets_making, published, took_making};
ghost use Rattle.act_counts.specs.act_states.specs.Makings.{MakingFits, is_filling, made, making_move, marked, stored};
ghost use Rattle.act_counts.specs.frame_words.specs.Frame.{word_of_frame};
ghost use Rattle.act_counts.specs.word_map.specs.Moves.{op_of};
ghost use Rattle.act_counts.specs.word_map.specs.Places.{size_of};
ghost use Rattle.act_counts.specs.spk_nums.specs.WordSteps.{place_in};
ghost use Rattle.std.specs.Prelude.{◌<◌, ◌≡◌};

use crate::fills::fill_op;
use act_counts::act_states::frame_words::FrameWord;
use act_counts::act_states::word_map::Layout;
use act_counts::act_states::{Act, Making, MakingAt, NewObject, Refusal, Tail, Work, WorkStep};
use act_counts::{next_work, refuse};
use spk_nums::{CoreNo, EntryNo, FrameKind, Obj, Value, WordOp};

/// The next step of a making. What it names is of the layout's machine.
#[inline]
pub fn making_op(making: &Making, layout: &Layout) -> WordOp
    requires { MakingFits layout.now making.now }
    ensures step { result ≡ op_of layout.now (making_move making.now) }
    ensures below { place_in result < size_of layout.now }
{
    match making.at {
        MakingAt::Load => WordOp::Load {
            at: layout.frame_at(making.frame),
        },
        MakingAt::Mark { word } => WordOp::Compare {
            at: layout.frame_at(making.frame),
            expected: word,
            word: marked_word(making.core),
        },
        MakingAt::Store { word: _, entry } => WordOp::Store {
            at: layout.entry_at(making.frame, entry),
            word: making.object.word(entry),
        },
        MakingAt::Fill { word: _ } => fill_op(&making.fill, layout),
    }
}

/// What a making takes from the word that its step found: a frame that another core has marked is `busy`, one that is no blank kernel frame
/// `frame-kind`. A lost compare is `raced`. After the mark the object's counts are acquired.
#[inline(never)]
pub fn making_took(making: &Making, found: u64) -> WorkStep
    ensures { result ≡ took_making making.now found }
{
    match making.at {
        MakingAt::Load => meets(making, found, FrameWord::unpack(found)),
        MakingAt::Mark { word } => {
            if found == word {
                let act = making_at(
                    making,
                    MakingAt::Store {
                        word,
                        entry: EntryNo::new(0),
                    },
                );
                WorkStep::Goes {
                    work: next_work(making.core, 0, &act),
                }
            } else {
                refuse(Refusal::Raced)
            }
        }
        MakingAt::Store { word, entry } => WorkStep::Goes {
            work: Work::Act {
                act: making_at(making, stored(making.object, word, entry)),
            },
        },
        MakingAt::Fill { word } => published(making, word, found == making.fill.word),
    }
}

/// Whether the next step of a making is the compare of the target.
#[inline]
pub fn making_ready(making: &Making) -> bool
    ensures { result ≡ is_filling making.now.at }
{
    matches!(making.at, MakingAt::Fill { .. })
}

// The making that stands here.
#[inline]
fn making_at(making: &Making, at: MakingAt) -> Act
    ensures { result ≡ Act.Make (record making.now { at = at }) }
{
    Act::Make {
        making: Making { at, ..*making },
    }
}

// What the load leads to, where the word shows this.
#[inline]
fn meets(making: &Making, word: u64, shown: Option<FrameWord>) -> WorkStep
    ensures { result ≡ meets_making making.now word shown }
{
    match shown {
        None => refuse(Refusal::Raced),
        Some(shown) => meets_frame(making, word, &shown),
    }
}

// What the load leads to, where the word shows a frame.
#[inline]
fn meets_frame(making: &Making, word: u64, shown: &FrameWord) -> WorkStep
    ensures { result ≡ meets_blank making.now word shown.now.kind shown.now.object shown.now.mark }
{
    match (shown.mark, shown.kind, shown.object) {
        (Some(by), _, _) => refuse(Refusal::Busy(by)),
        (None, FrameKind::Kernel, Obj::Blank) => WorkStep::Goes {
            work: Work::Act {
                act: making_at(making, MakingAt::Mark { word }),
            },
        },
        _ => refuse(Refusal::FrameKind),
    }
}

// What the compare of the target leads to.
#[inline]
fn published(making: &Making, word: u64, equal: bool) -> WorkStep
    ensures { result ≡ published making.now word equal }
{
    if equal {
        WorkStep::Answers {
            value: Value::Nothing,
            drawn: None,
            tail: Tail::Unmark {
                frame: making.frame,
                word: made_word(making.object),
            },
        }
    } else {
        WorkStep::Refuses {
            refusal: Refusal::Raced,
            tail: Tail::Unmark {
                frame: making.frame,
                word,
            },
        }
    }
}

/// Where the making stands after the store of a word.
#[inline]
pub fn stored(object: NewObject, word: u64, entry: EntryNo) -> MakingAt
    ensures { result ≡ stored object word entry }
{
    let at = entry.number();
    if at < object.last() {
        MakingAt::Store {
            word,
            entry: EntryNo::new(at + 1),
        }
    } else {
        MakingAt::Fill { word }
    }
}

/// The word of a blank kernel frame that a core has marked.
#[inline]
pub(crate) fn marked_word(core: CoreNo) -> u64
    ensures { result ≡ word_of_frame (marked core) }
{
    let _number = core.number();
    let word = FrameWord {
        kind: FrameKind::Kernel,
        object: Obj::Blank,
        mark: Some(core),
    };
    word.pack()
}

// The word of a frame that holds such an object.
#[inline]
fn made_word(object: NewObject) -> u64
    ensures { result ≡ word_of_frame (made object) }
{
    let word = FrameWord {
        kind: FrameKind::Kernel,
        object: object.object(),
        mark: None,
    };
    word.pack()
}
