//! Whether a word fits its place.

ghost use Rattle.std.specs.Prelude.{◌≡◌};
ghost use Rattle.line_reader.specs.Arguments.{texts};
ghost use Rattle.line_forms.specs.Fitting.{is_sign, unsigned, is_item, is_frame_kind, is_object, fits_word, fits};

use crate::calls::verb_of;
use crate::context::Context;
use crate::firsts::first_fits;
use crate::lines::slot_at;
use crate::replies::{is_reply_name, is_value};
use crate::slots::{Slot, fits_end, is_below, is_between};
use line_reader::is_word;
use script_tokens::Token;

// A sign of an item.
fn is_sign(byte: u8) -> bool
    ensures { result ≡ is_sign byte }
{
    byte == b'<' || byte == b'!' || byte == b'.'
}

// The digits of an item, without its sign.
fn unsigned(word: &[u8]) -> &[u8]
    ensures { result.now ≡ unsigned word.now }
{
    let Some((last, digits)) = word.split_last() else {
        return word;
    };
    if is_sign(*last) { digits } else { word }
}

fn is_item(word: &[u8], cores: u8) -> bool
    ensures { result ≡ is_item word.now cores }
{
    is_below(unsigned(word), cores)
}

#[tactic(auto, unfolding(crate::specs::Fitting::is_frame_kind))]
fn is_kind(word: &[u8]) -> bool
    ensures { result ≡ is_frame_kind word.now }
{
    is_word(word, "untyped") || is_word(word, "user") || is_word(word, "kernel")
}

#[tactic(auto, unfolding(crate::specs::Fitting::is_object))]
fn is_object(word: &[u8]) -> bool
    ensures { result ≡ is_object word.now }
{
    is_word(word, "table")
        || is_word(word, "leaf")
        || is_word(word, "pages")
        || is_word(word, "pleaf")
        || is_word(word, "thread")
        || is_word(word, "tcap")
        || is_word(word, "comp")
}

// The word fits.
fn fits_word(context: &Context, words: &[Token], slot: Slot, word: &[u8]) -> bool
    ensures { result ≡ fits_word context.now (texts words.now) slot word.now }
{
    match slot {
        Slot::First => first_fits(context, words, word),
        Slot::Number { least, most } => is_between(word, least, most),
        Slot::MayNumber { least, most } => is_between(word, least, most),
        Slot::Core { cores } => is_below(word, cores),
        Slot::FrameKind => is_kind(word),
        Slot::Object => is_object(word),
        Slot::Verb => verb_of(context.version, word).is_some(),
        Slot::Item { cores } => is_item(word, cores),
        Slot::ReplyName => is_reply_name(word),
        Slot::Value => is_value(word),
        Slot::Rights => is_word(word, "rights"),
        Slot::Equals => is_word(word, "="),
        Slot::End => false,
    }
}

/// What stands at a place of a line fits there.
pub fn fits(context: &Context, words: &[Token], place: usize) -> bool
    ensures { result ≡ fits context.now (texts words.now) place }
{
    let slot = slot_at(context, words, place);
    match words.get(place) {
        Some(word) => fits_word(context, words, slot, word.text),
        None => fits_end(slot),
    }
}
