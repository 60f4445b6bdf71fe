//! The values of the words of cores, counts and liveness numbers.

ghost use Rattle.std.specs.Prelude.{◌≡◌, ◌++◌, OnOk, string_bytes, codes};
ghost use Rattle.std.specs.Fmt.{signed_decimal};
ghost use Rattle.frame_words.specs.Count.{count_of_word};
ghost use Rattle.frame_words.specs.Core.{core_of_word};
ghost use Rattle.frame_words.specs.Flush.{flush_of_word};
ghost use Rattle.frame_words.specs.Live.{live_of_word};
ghost use Rattle.spk_nums.specs.Texts.{with_one};
ghost use Rattle.word_texts.specs.Values.{mark_text, hold_text, count_text, core_text, flush_text, read_live, live_text, marked_words};
ghost use Rattle.word_texts.specs.Values.{pinned_words, closed_words, epoch_words};

use frame_words::{CoreWord, CountWord, FlushWord, Hold, LiveWord};
use line_texts::{push_number, push_one};
use spk_nums::{CoreNo, Stamp};
use std::alloc::AllocError;

#[tactic(auto, unfolding(crate::specs::Values::marked_words))]
fn push_marked(text: &mut String) -> Result<(), AllocError>
    ensures { OnOk result (string_bytes text.new ≡ string_bytes text.old ++ marked_words) }
{
    text.push_str(", marked by core ")
}

#[tactic(auto, unfolding(crate::specs::Values::pinned_words))]
fn push_pinned(text: &mut String) -> Result<(), AllocError>
    ensures { OnOk result (string_bytes text.new ≡ string_bytes text.old ++ pinned_words) }
{
    text.push_str(", pinned by core ")
}

#[tactic(auto, unfolding(crate::specs::Values::closed_words))]
fn push_closed(text: &mut String) -> Result<(), AllocError>
    ensures { OnOk result (string_bytes text.new ≡ string_bytes text.old ++ closed_words) }
{
    text.push_str(", closed by core ")
}

/// Appends the core that has marked a word, where one has.
pub fn push_mark(text: &mut String, mark: Option<CoreNo>) -> Result<(), AllocError>
    ensures { OnOk result (string_bytes text.new ≡ string_bytes text.old ++ mark_text mark) }
{
    match mark {
        None => Ok(()),
        Some(core) => {
            push_marked(text)?;
            push_number(text, u32::from(core.number()))
        }
    }
}

fn push_hold(text: &mut String, hold: Hold) -> Result<(), AllocError>
    ensures { OnOk result (string_bytes text.new ≡ string_bytes text.old ++ hold_text hold) }
{
    match hold {
        Hold::Unheld => Ok(()),
        Hold::Pinned { by } => {
            push_pinned(text)?;
            push_number(text, u32::from(by.number()))
        }
        Hold::Closed { by } => {
            push_closed(text)?;
            push_number(text, u32::from(by.number()))
        }
    }
}

fn push_signed(text: &mut String, count: i32) -> Result<(), AllocError>
    ensures { OnOk result (string_bytes text.new ≡ string_bytes text.old ++ signed_decimal count) }
{
    write!(text, "{count}")
}

/// Appends a count, and who holds it.
pub fn push_count(text: &mut String, value: u64) -> Result<(), AllocError>
    ensures { OnOk result (string_bytes text.new ≡ string_bytes text.old ++ count_text (count_of_word value)) }
{
    match CountWord::unpack(value) {
        None => text.push_str("unknown"),
        Some(word) => {
            push_signed(text, word.count)?;
            push_hold(text, word.hold)
        }
    }
}

/// Appends whether a core is inside a call.
pub fn push_core(text: &mut String, value: u64) -> Result<(), AllocError>
    ensures { OnOk result (string_bytes text.new ≡ string_bytes text.old ++ core_text (core_of_word value)) }
{
    match CoreWord::unpack(value) {
        None => text.push_str("unknown"),
        Some(word) => text.push_str(if word.inside { "inside" } else { "outside" }),
    }
}

fn push_stamp(text: &mut String, stamp: Stamp) -> Result<(), AllocError>
    ensures { OnOk result (string_bytes text.new ≡ string_bytes text.old ++ with_one (codes "at") stamp) }
{
    let stamp = stamp.number();
    write!(text, "at {stamp}")
}

/// Appends a core's last flush.
pub fn push_flush(text: &mut String, value: u64) -> Result<(), AllocError>
    ensures { OnOk result (string_bytes text.new ≡ string_bytes text.old ++ flush_text (flush_of_word value)) }
{
    match FlushWord::unpack(value) {
        None => text.push_str("unknown"),
        Some(word) => push_stamp(text, word.stamp),
    }
}

/// Appends the state of a liveness number.
pub fn push_live(text: &mut String, value: u64) -> Result<(), AllocError>
    ensures { OnOk result (string_bytes text.new ≡ string_bytes text.old ++ live_text (live_of_word value)) }
{
    match LiveWord::unpack(value) {
        None => text.push_str("unknown"),
        Some(word) => push_read_live(text, &word),
    }
}

#[tactic(auto, unfolding(crate::specs::Values::epoch_words))]
fn push_epoch(text: &mut String, epoch: u16) -> Result<(), AllocError>
    ensures { OnOk result (string_bytes text.new ≡ string_bytes text.old ++ epoch_words epoch) }
{
    write!(text, "live, epoch {epoch}")
}

fn push_read_live(text: &mut String, word: &LiveWord) -> Result<(), AllocError>
    ensures { OnOk result (string_bytes text.new ≡ string_bytes text.old ++ read_live word.now) }
{
    match word {
        LiveWord::Free => text.push_str("free"),
        LiveWord::Live { epoch, frame: _ } => push_epoch(text, *epoch),
        LiveWord::Closing { epoch: _, by } => {
            push_one(text, "closing by core", u32::from(by.number()))
        }
        LiveWord::Dead { epoch: _, stamp: _ } => text.push_str("dead"),
    }
}
