//! The values of the words of frames.

ghost use Rattle.std.specs.Prelude.{◌≡◌, ◌++◌, OnOk, string_bytes};
ghost use Rattle.spk_nums.specs.Texts.{cap_text, cap_text_by};
ghost use Rattle.entry_words.specs.EntryWord.{entry_of_word};
ghost use Rattle.tcap_words.specs.Thread.{thread_of_word};
ghost use Rattle.tcap_words.specs.Stack.{stack_of_word};
ghost use Rattle.tcap_words.specs.Head.{head_of_word};
ghost use Rattle.tcap_words.specs.Quality.{quality_of_word};
ghost use Rattle.word_texts.specs.Values.{read_entry, entry_text, read_thread, thread_text, stack_text, head_text, quality_text};
ghost use Rattle.word_texts.specs.Values.{slot_value};

use crate::holds::push_mark;
use entry_words::Entry;
use line_texts::{push_number, push_one, push_pair};
use spk_nums::{Cap, Kind, Obj, kind_name};
use std::alloc::AllocError;
use tcap_words::{HeadWord, QualityWord, StackWord, ThreadWord};

// Appends what a capability names.
fn push_named(text: &mut String, cap: &Cap) -> Result<(), AllocError>
    ensures { OnOk result (string_bytes text.new ≡ string_bytes text.old ++ cap_text_by cap.now.kind cap.now.frame cap.now.arg) }
{
    let frame = u32::from(cap.frame().number());
    let arg = cap.arg();
    match cap.kind() {
        Kind::Range => push_pair(text, "range", frame, arg),
        Kind::Gate => push_pair(text, "gate", frame, arg),
        Kind::Page => push_pair(text, "page", frame, arg),
        kind => push_one(text, kind_name(kind), frame),
    }
}

// Appends a capability, with its rights where it lacks one.
fn push_cap(text: &mut String, cap: &Cap) -> Result<(), AllocError>
    ensures { OnOk result (string_bytes text.new ≡ string_bytes text.old ++ cap_text cap.now) }
{
    let rights = cap.rights().number();
    push_named(text, cap)?;
    if rights == 3 {
        return Ok(());
    }
    text.push_str(" rights ")?;
    push_number(text, u32::from(rights))
}

fn push_read_entry(text: &mut String, entry: &Entry) -> Result<(), AllocError>
    ensures { OnOk result (string_bytes text.new ≡ string_bytes text.old ++ read_entry entry.now) }
{
    match entry {
        Entry::Free => text.push_str("free"),
        Entry::Held(cap) => push_cap(text, cap),
        Entry::Closing { by } => push_one(text, "closing by core", u32::from(by.number())),
        Entry::Quiescing { stamp: _ } => text.push_str("removed"),
    }
}

fn push_entry(text: &mut String, value: u64) -> Result<(), AllocError>
    ensures { OnOk result (string_bytes text.new ≡ string_bytes text.old ++ entry_text (entry_of_word value)) }
{
    match Entry::unpack(value) {
        None => text.push_str("unknown"),
        Some(entry) => push_read_entry(text, &entry),
    }
}

fn push_read_thread(text: &mut String, thread: &ThreadWord) -> Result<(), AllocError>
    ensures { OnOk result (string_bytes text.new ≡ string_bytes text.old ++ read_thread thread.now) }
{
    match thread {
        ThreadWord::Idle { depth: _ } => text.push_str("idle"),
        ThreadWord::Running { core, depth: _ } => {
            push_one(text, "runs on core", u32::from(core.number()))
        }
        ThreadWord::Claimed { core, depth: _ } => {
            push_one(text, "claimed by core", u32::from(core.number()))
        }
    }
}

fn push_thread(text: &mut String, value: u64) -> Result<(), AllocError>
    ensures { OnOk result (string_bytes text.new ≡ string_bytes text.old ++ thread_text (thread_of_word value)) }
{
    match ThreadWord::unpack(value) {
        None => text.push_str("unknown"),
        Some(thread) => push_read_thread(text, &thread),
    }
}

fn push_stack(text: &mut String, value: u64) -> Result<(), AllocError>
    ensures { OnOk result (string_bytes text.new ≡ string_bytes text.old ++ stack_text (stack_of_word value)) }
{
    match StackWord::unpack(value) {
        None => text.push_str("unknown"),
        Some(StackWord(None)) => text.push_str("none"),
        Some(StackWord(Some(frame))) => push_one(text, "comp", u32::from(frame.number())),
    }
}

fn push_head(text: &mut String, value: u64) -> Result<(), AllocError>
    ensures { OnOk result (string_bytes text.new ≡ string_bytes text.old ++ head_text (head_of_word value)) }
{
    match HeadWord::unpack(value) {
        None => text.push_str("unknown"),
        Some(word) => {
            push_number(text, word.budget)?;
            text.push_str(" ticks")?;
            push_mark(text, word.mark)
        }
    }
}

fn push_quality(text: &mut String, value: u64) -> Result<(), AllocError>
    ensures { OnOk result (string_bytes text.new ≡ string_bytes text.old ++ quality_text (quality_of_word value)) }
{
    match QualityWord::unpack(value) {
        None => text.push_str("unknown"),
        Some(QualityWord(None)) => text.push_str("none"),
        Some(QualityWord(Some((scheduler, quality)))) => {
            push_number(text, quality)?;
            push_one(text, " of", u32::from(scheduler))
        }
    }
}

/// Appends the value of a word of a frame that holds this.
pub fn push_slot_value(
    text: &mut String,
    object: Obj,
    entry: u16,
    value: u64,
) -> Result<(), AllocError>
    ensures { OnOk result (string_bytes text.new ≡ string_bytes text.old ++ slot_value object entry value) }
{
    match object {
        Obj::Blank => text.push_str("changed"),
        Obj::Comp => text.push_str("changed"),
        Obj::Thread => {
            if entry == 0 {
                return push_thread(text, value);
            }
            push_stack(text, value)
        }
        Obj::Tcap => {
            if entry == 0 {
                return push_head(text, value);
            }
            push_quality(text, value)
        }
        _ => push_entry(text, value),
    }
}
