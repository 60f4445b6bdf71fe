//! The act that makes an untyped frame a user frame or a blank kernel frame: a load of the frame's word, and a compare with the word
//! found, which decides the call.
//!
//! An untyped frame has no reference and no object, so nothing else has to be looked at.

ghost use Rattle.act_counts.specs.act_states.specs.Typings.{TypingFits, is_typing, meets_frame, meets_word, took_typing, typed};
ghost use Rattle.act_counts.specs.act_states.specs.Typings.{typing_move};
ghost use Rattle.act_counts.specs.frame_words.specs.Frame.{word_of_frame};
ghost use Rattle.act_counts.specs.word_map.specs.Moves.{op_of};
ghost use Rattle.act_counts.specs.word_map.specs.Places.{size_of};
ghost use Rattle.act_counts.specs.spk_nums.specs.WordSteps.{place_in};
ghost use Rattle.std.specs.Prelude.{◌<◌, ◌≡◌};

use act_counts::act_states::frame_words::FrameWord;
use act_counts::act_states::word_map::Layout;
use act_counts::act_states::{Act, Refusal, Tail, Typing, TypingAt, Work, WorkStep};
use act_counts::refuse;
use spk_nums::{FrameKind, Obj, Value, WordOp};

/// The next step of a typing. The frame is below the layout's.
#[inline]
pub fn typing_op(typing: &Typing, layout: &Layout) -> WordOp
    requires { TypingFits layout.now typing.now }
    ensures step { result ≡ op_of layout.now (typing_move typing.now) }
    ensures below { place_in result < size_of layout.now }
{
    match typing.at {
        TypingAt::Load => WordOp::Load {
            at: layout.frame_at(typing.frame),
        },
        TypingAt::Compare { word } => WordOp::Compare {
            at: layout.frame_at(typing.frame),
            expected: word,
            word: typed_word(typing.kind),
        },
    }
}

/// What a typing takes from the word that its step found: a frame that a core has marked is `busy`, one that is not untyped `frame-kind`.
/// The call is carried out where the compare finds the word expected, and else `raced`.
#[inline]
pub fn typing_took(typing: &Typing, found: u64) -> WorkStep
    ensures { result ≡ took_typing typing.now found }
{
    match typing.at {
        TypingAt::Load => meets(typing, found, FrameWord::unpack(found)),
        TypingAt::Compare { word } => {
            if found == word {
                WorkStep::Answers {
                    value: Value::Nothing,
                    drawn: None,
                    tail: Tail::Nothing,
                }
            } else {
                refuse(Refusal::Raced)
            }
        }
    }
}

/// Whether the next step of a typing is the compare.
#[inline]
pub fn typing_ready(typing: &Typing) -> bool
    ensures { result ≡ is_typing typing.now.at }
{
    matches!(typing.at, TypingAt::Compare { .. })
}

// What the load leads to, where the word shows this.
#[inline]
fn meets(typing: &Typing, word: u64, shown: Option<FrameWord>) -> WorkStep
    ensures { result ≡ meets_word typing.now word shown }
{
    match shown {
        None => refuse(Refusal::Raced),
        Some(shown) => meets_frame(typing, word, &shown),
    }
}

// What the load leads to, where the word shows a frame.
#[inline]
fn meets_frame(typing: &Typing, word: u64, shown: &FrameWord) -> WorkStep
    ensures { result ≡ meets_frame typing.now word shown.now.kind shown.now.mark }
{
    match (shown.mark, shown.kind) {
        (Some(by), _) => refuse(Refusal::Busy(by)),
        (None, FrameKind::Untyped) => WorkStep::Goes {
            work: Work::Act {
                act: Act::Retype {
                    typing: Typing {
                        frame: typing.frame,
                        kind: typing.kind,
                        at: TypingAt::Compare { word },
                    },
                },
            },
        },
        (None, _) => refuse(Refusal::FrameKind),
    }
}

// The word of a frame that is of this kind and holds no object.
#[inline]
fn typed_word(kind: FrameKind) -> u64
    ensures { result ≡ word_of_frame (typed kind) }
{
    let word = FrameWord {
        kind,
        object: Obj::Blank,
        mark: None,
    };
    word.pack()
}
