//! The values of words.

ghost use Rattle.std.specs.Prelude.{◌≡◌, ◌++◌, OnOk, string_bytes};
ghost use Rattle.std.specs.Fmt.{signed_decimal};
ghost use Rattle.spk_nums.specs.Texts.{cap_text, cap_text_by};
ghost use Rattle.frame_words.specs.Frame.{frame_of_word};
ghost use Rattle.step_views.specs.Names.{named};
ghost use Rattle.word_texts.specs.Values.{frame_text, kind_text, mark_text, slot_value, value_text};

use crate::holds::{push_core, push_count, push_flush, push_live, push_mark};
use crate::objects::{object_of, object_text};
use crate::slots::push_slot_value;
use frame_words::FrameWord;
use spk_nums::{FrameKind, Obj};
use std::alloc::AllocError;
use step_views::WordName;

fn push_kind(text: &mut String, kind: FrameKind, object: Obj) -> Result<(), AllocError>
    ensures { OnOk result (string_bytes text.new ≡ string_bytes text.old ++ kind_text kind object) }
{
    match kind {
        FrameKind::Untyped => text.push_str("untyped"),
        FrameKind::User => text.push_str("user"),
        FrameKind::Kernel => text.push_str(object_text(object)),
    }
}

fn push_frame(text: &mut String, value: u64) -> Result<(), AllocError>
    ensures { OnOk result (string_bytes text.new ≡ string_bytes text.old ++ frame_text (frame_of_word value)) }
{
    match FrameWord::unpack(value) {
        None => text.push_str("unknown"),
        Some(word) => {
            push_kind(text, word.kind, word.object)?;
            push_mark(text, word.mark)
        }
    }
}

/// Appends the value of a word, where the word of its frame is this.
pub fn push_value(
    text: &mut String,
    frame_word: u64,
    word: &WordName,
    value: u64,
) -> Result<(), AllocError>
    ensures { OnOk result (string_bytes text.new ≡ string_bytes text.old ++ value_text frame_word (named word.now) value) }
{
    match *word {
        WordName::Entry { frame: _, entry } => {
            push_slot_value(text, object_of(frame_word), entry.number(), value)
        }
        WordName::Frame { frame: _ } => push_frame(text, value),
        WordName::Count { frame: _, core: _ } => push_count(text, value),
        WordName::Core { core: _ } => push_core(text, value),
        WordName::Flush { core: _ } => push_flush(text, value),
        WordName::Live { number: _ } => push_live(text, value),
        WordName::Clock => write!(text, "{value}"),
    }
}
